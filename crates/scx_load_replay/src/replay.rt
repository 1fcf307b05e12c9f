ghost use Rattle.std.specs.Prelude.{◌≡◌, IfOk};
ghost use Rattle.scx_load_replay.specs.Events.{replay_events};
ghost use Rattle.scx_load_replay.specs.Replayer.{remaining};

use crate::lines::Line;
use crate::replayer::Replayer;
use scx_load_workloads::Workload;
use std::alloc::{AllocError, Global};
use std::marker::Model;

/// A workload's CPUs, groups and tasks, and the lines of events.
#[derive(Drop)]
pub struct Replay {
    pub(crate) workload: Workload,
    pub(crate) lines: Vec<Line>,
}

impl Model for Replay {
    ghost use Rattle.scx_load_replay.specs.Replay.{ReplayState, IsReplay};

    ghost Value = { ReplayState };

    ghost view = { λ r. record { workload = r.workload; lines = r.lines.items } };

    ghost invariant = { λ r. IsReplay (record { workload = r.workload; lines = r.lines.items }) };
}

impl Replay {
    ghost use Rattle.scx_load_replay.specs.Replay.{IsReplay};

    /// Every file of events is whole. The function does nothing: its contract is the law.
    pub fn is_whole(&self)
        ensures { IsReplay self.now }
    {
        let _lines = self.lines.len();
    }

    /// Its CPUs, milliseconds, groups and tasks. No task has a time, and no weight changes.
    pub fn workload(&self) -> &Workload
        ensures { result.now ≡ self.now.workload }
    {
        &self.workload
    }

    /// The workload, and all of the events.
    pub fn into_parts(self) -> (Workload, Replayer)
        ensures workload { result.0 ≡ self.workload }
        ensures events { remaining result.1 ≡ replay_events self }
    {
        let Replay { workload, lines } = self;
        let replayer = Replayer::new(workload.cpus(), workload.ms(), lines);
        (workload, replayer)
    }

    /// The workload, without the events.
    pub fn into_workload(self) -> Workload
        ensures { result ≡ self.workload }
    {
        let Replay { workload, lines } = self;
        drop(lines);
        workload
    }

    /// All of its events, with a copy of its lines.
    pub fn events(&self, alloc: Global) -> Result<Replayer, AllocError>
        ensures { IfOk result (λ replayer. remaining replayer ≡ replay_events self.now) }
    {
        self.workload.is_whole();
        let lines = Vec::from_slice(alloc, self.lines.as_slice())?;
        Ok(Replayer::new(self.workload.cpus(), self.workload.ms(), lines))
    }

    /// The lines that say an event, in the order of the file.
    pub fn lines(&self) -> &[Line]
        ensures { result.now ≡ self.now.lines }
    {
        &self.lines
    }
}
