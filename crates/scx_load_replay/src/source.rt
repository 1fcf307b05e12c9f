ghost use Rattle.std.specs.Prelude.{◌≡◌, ◌∷◌, [], IfSome, IfNone};
ghost use Rattle.scx_sched.specs.Sim.{after_event};
ghost use Rattle.scx_load_driver.specs.Runs.{Skips};
ghost use Rattle.scx_load_replay.specs.Sources.{remaining};

use crate::replayer::Replayer;
use scx_load_driver::Driver;
use scx_sched::{Event, Sim};

/// The events of a scenario, one after another.
#[derive(Drop)]
pub enum Source {
    Workload(Driver),
    Events(Replayer),
}

impl Source {
    /// Gives the machine at once the events of all milliseconds that come next and in which nothing happens but that
    /// tasks run; none of a file of events.
    #[inline(always)]
    #[tactic(auto, using(scx_load_driver::proofs::Passing::skips_none))]
    pub fn skip(&mut self, sim: &mut Sim)
        ensures { Skips (remaining self.old sim.old) sim.old (remaining self.new sim.new) sim.new }
    {
        match self {
            Source::Workload(driver) => driver.skip(sim),
            Source::Events(_) => {}
        }
    }

    /// The next event, for a machine that took exactly the events before it; none at the end.
    pub fn next(&mut self, sim: &Sim) -> Option<Event>
        ensures next { IfSome result (λ event. remaining self.old sim.now
            ≡ event ∷ remaining self.new (after_event sim.now event)) }
        ensures end { IfNone result (remaining self.old sim.now ≡ []) }
    {
        match self {
            Source::Workload(driver) => driver.next(sim),
            Source::Events(replayer) => replayer.next(),
        }
    }
}
