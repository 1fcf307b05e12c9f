ghost use Rattle.std.specs.Prelude.{◌≡◌};

use scx_load_driver::Events;
use scx_sched::{Eject, Event, Sim};

/// A listener is told the progress of a run.
pub trait Listener {
    /// `over` of all milliseconds are over. Whatever is made of it, the run is the same.
    fn hear(&mut self, over: u64, total: u32);

    /// The run is over, and that is why and when the policy was ejected, if it was.
    fn hear_end(&mut self, _ejected: Option<Eject>) {}
}

/// A listener that does nothing.
#[derive(Drop)]
pub struct Nobody;

impl Listener for Nobody {
    fn hear(&mut self, _over: u64, _total: u32) {}
}

/// The events of a run. A listener is told each millisecond that is over.
#[derive(Drop)]
pub struct Heard<'a, E, L> {
    events: E,
    /// The milliseconds of the run.
    total: u32,
    listener: &'a mut L,
}

impl<'a, E: Events, L: Listener> Heard<'a, E, L> {
    pub fn new(events: E, total: u32, listener: &'a mut L) -> Self
        ensures events { result.events ≡ events }
        ensures total { result.total ≡ total }
        ensures same_listener { result.listener.ghost_name ≡ listener.entry.ghost_name }
        ensures listener { result.listener.now ≡ listener.old }
    {
        Heard {
            events,
            total,
            listener,
        }
    }
}

impl<E: Events, L: Listener> Events for Heard<'_, E, L> {
    ghost remaining = { λ heard s. E.remaining heard.events s };

    #[inline(always)]
    fn next(&mut self, sim: &Sim) -> Option<Event> {
        let event = self.events.next(sim);
        match event {
            Some(Event::Clock) => self
                .listener
                .hear(sim.clock().saturating_add(1), self.total),
            Some(_) => {}
            None => self.listener.hear_end(sim.ejected()),
        }
        event
    }

    #[inline(always)]
    fn skip(&mut self, sim: &mut Sim) {
        let clock = sim.clock();
        self.events.skip(sim);
        hear_each(self.listener, clock, sim.clock(), self.total);
    }
}

/// Tells the listener each millisecond that is over at one clock and wasn't at another.
#[inline(always)]
fn hear_each<L: Listener>(listener: &mut L, before: u64, now: u64, total: u32) {
    for over in before..now {
        listener.hear(over + 1, total);
    }
}
