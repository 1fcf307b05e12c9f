ghost use Rattle.std.specs.Prelude.{◌≡◌, IfOk};
ghost use Rattle.scx_sched.specs.Sim.{SimState};
ghost use Rattle.scx_load_replay.specs.Scenarios.{IsScenario, workload_of, scenario_events};
ghost use Rattle.scx_load_replay.specs.Sources.{remaining};

use crate::replay::Replay;
use crate::source::Source;
use scx_load_driver::Driver;
use scx_load_workloads::Workload;
use std::alloc::{AllocError, Global};

/// The CPUs, groups, tasks and events of a run: a workload, or a file of events.
#[derive(Drop)]
pub enum Scenario {
    Workload(Workload),
    Events(Replay),
}

impl Scenario {
    /// Every scenario is whole. The function does nothing: its contract is the law.
    pub fn is_whole(&self)
        ensures { IsScenario self.now }
    {
        match self {
            Scenario::Workload(workload) => workload.is_whole(),
            Scenario::Events(replay) => replay.is_whole(),
        }
    }

    /// Its CPUs, milliseconds, groups and tasks. Tasks of a file of events have no times.
    pub fn workload(&self) -> &Workload
        ensures { result.now ≡ workload_of self.now }
    {
        match self {
            Scenario::Workload(workload) => workload,
            Scenario::Events(replay) => replay.workload(),
        }
    }

    /// Its CPUs, milliseconds, groups and tasks, without its events.
    pub fn into_workload(self) -> Workload
        ensures { result ≡ workload_of self }
    {
        match self {
            Scenario::Workload(workload) => workload,
            Scenario::Events(replay) => replay.into_workload(),
        }
    }

    /// All of its events, for a machine in any state. All memory is taken here.
    pub fn events(&self, alloc: Global) -> Result<Source, AllocError>
        ensures { IfOk result
            (λ source. (s : SimState) → remaining source s ≡ scenario_events self.now s) }
    {
        match self {
            Scenario::Workload(workload) => Ok(Source::Workload(Driver::new(alloc, workload)?)),
            Scenario::Events(replay) => Ok(Source::Events(replay.events(alloc)?)),
        }
    }
}
