ghost use Rattle.std.specs.Prelude.{◌≡◌};
ghost use Rattle.scxsim_steps.specs.Stepping.{events_within, notes_within, GrowsBy};

use crate::stepper::Stepper;
use scx_load_driver::Events;
use scx_sched::{Event, Sim};
use scxsim_trace::go_through;

/// The events of a run up to the end of a millisecond.
#[derive(Drop)]
struct Until<'a, E> {
    events: &'a mut E,
    ms: u64,
}

impl<E: Events> Events for Until<'_, E> {
    ghost remaining = { λ u s. events_within u.ms s (E.remaining u.events.now s) };

    fn next(&mut self, sim: &Sim) -> Option<Event> {
        let event = self.events.next(sim)?;
        if self.ms < sim.clock() {
            None
        } else {
            Some(event)
        }
    }
}

/// Gives the events to the machine up to the end of that millisecond, and shows them to the stepper.
pub(crate) fn go_until<E: Events>(sim: &mut Sim, events: &mut E, ms: u64, stepper: &mut Stepper<'_>)
    requires { stepper.old.ms ≡ ms }
    ensures { GrowsBy (notes_within stepper.old.ms sim.old (E.remaining events.old sim.old))
        stepper.old stepper.new }
{
    let mut until = Until { events, ms };
    go_through(sim, &mut until, stepper);
}
