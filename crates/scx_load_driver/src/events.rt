ghost use Rattle.std.specs.Prelude.{◌≡◌, [], ◌∷◌, List, IfSome, IfNone};
ghost use Rattle.scx_sched_machine.specs.declared.events.Event.{Event};
ghost use Rattle.scx_sched.specs.Sim.{SimState, after_event};
ghost use Rattle.scx_load_driver.specs.Driver as driver;
ghost use Rattle.scx_load_driver.specs.Runs.{Skips};

use crate::driver::Driver;
use scx_sched::{Event, Sim};

/// Events for a machine, one after another.
pub trait Events {
    // What is still to come, for a machine in that state.
    ghost remaining: { Self → SimState → List Event };

    /// The next event, for a machine that took exactly the events before it; none at the end.
    fn next(&mut self, sim: &Sim) -> Option<Event>
        ensures next { IfSome result (λ event. remaining self.old sim.now
            ≡ event ∷ remaining self.new (after_event sim.now event)) }
        ensures end { IfNone result (remaining self.old sim.now ≡ []) };

    /// Gives the machine, at once, events that come next and of which nothing is noted, for a machine that took exactly
    /// the events before them; or none.
    #[inline(always)]
    #[tactic(auto, using(crate::proofs::Passing::skips_none))]
    fn skip(&mut self, sim: &mut Sim)
        ensures { Skips (remaining self.old sim.old) sim.old (remaining self.new sim.new) sim.new }
    {
        let _sim = sim;
    }
}

impl Events for Driver {
    ghost remaining = { driver.remaining };

    #[inline(always)]
    fn next(&mut self, sim: &Sim) -> Option<Event> {
        Driver::next(self, sim)
    }

    #[inline(always)]
    fn skip(&mut self, sim: &mut Sim) {
        Driver::skip(self, sim);
    }
}
