use scx_sched::{Event, Sim, What};
use scx_sched_world::{LOCAL_ON, PARKED};

/// A millisecond in nanoseconds.
const MS: u64 = 1_000_000;

/// The state of a task before an occurrence.
#[derive(Clone, Copy)]
pub(crate) struct Life {
    /// The queue in which it is.
    pub(crate) queue: Option<u64>,
    /// The CPU on which it ran last.
    pub(crate) cpu: Option<u32>,
    /// The clock since which it has waited.
    pub(crate) waits_since: u64,
    /// The moment since which it has run.
    pub(crate) runs_since: u64,
    /// The moment since which it has slept, if it has slept.
    pub(crate) sleeps_since: Option<u64>,
    /// True if it has just gone to sleep.
    pub(crate) is_leaving: bool,
    /// The number of CPUs that were idle as some task woke last.
    pub(crate) idle_cpus: u32,
    /// The rest of its slice once the event has taken its time, in nanoseconds.
    pub(crate) left: u64,
    /// True while a policy by Linux rules is in force.
    is_by_linux: bool,
}

impl Life {
    /// The state of a task that has never woken.
    pub(crate) fn new() -> Life {
        Life {
            queue: None,
            cpu: None,
            waits_since: 0,
            runs_since: 0,
            sleeps_since: None,
            is_leaving: false,
            idle_cpus: 0,
            left: 0,
            is_by_linux: false,
        }
    }

    /// The state as that event comes.
    pub(crate) fn expecting(self, sim: &Sim, event: Event, task: u16) -> Life {
        let idle_cpus = match event {
            Event::Wake(_) => idle_cpus(sim),
            _ => self.idle_cpus,
        };
        Life {
            idle_cpus,
            left: left_after(sim, event, task),
            is_by_linux: sim.world().is_by_linux(),
            ..self
        }
    }

    /// The state after an occurrence at that moment and that clock.
    pub(crate) fn after(self, moment: u64, clock: u64, what: What) -> Life {
        match what {
            What::Wake(_) => Life {
                waits_since: clock,
                is_leaving: false,
                ..self
            },
            What::Sleep(_) => Life {
                queue: None,
                sleeps_since: Some(moment),
                is_leaving: true,
                ..self
            },
            What::Insert(_, queue) => self.entering(clock, queue),
            What::Move(_, cpu) => self.entering(clock, LOCAL_ON.saturating_add(u64::from(cpu))),
            What::Run(_, cpu) => Life {
                queue: None,
                cpu: Some(cpu),
                runs_since: moment,
                ..self
            },
            What::Stop(_, _) => Life {
                waits_since: clock,
                is_leaving: false,
                ..self
            },
            What::TaskWeight(_, _) => self.reweighed(),
            What::Idle(_) | What::Weight(_, _) | What::Stall(_) | What::Fault(_) | What::Exit(_) =>
                self,
        }
    }

    /// True if the task may be stopped before its slice is used up, for another task or by a kick.
    pub(crate) fn is_preemptible(self) -> bool {
        self.is_by_linux
    }

    /// The queue that the task leaves as it gets another weight: each one, but that of parked tasks. By plain rules it
    /// leaves none.
    pub(crate) fn left_for_weight(self) -> Option<u64> {
        if self.is_by_linux && self.queue != Some(PARKED) {
            self.queue
        } else {
            None
        }
    }

    /// The state after the task has got another weight.
    fn reweighed(self) -> Life {
        match self.left_for_weight() {
            Some(_) => Life {
                queue: None,
                ..self
            },
            None => self,
        }
    }

    /// The state after the task comes into that queue. A task that was parked waits from then on.
    fn entering(self, clock: u64, queue: u64) -> Life {
        let was_parked = self.queue == Some(PARKED);
        Life {
            queue: Some(queue),
            waits_since: if was_parked { clock } else { self.waits_since },
            is_leaving: false,
            ..self
        }
    }
}

/// The rest of the task's slice once that event has taken its time: a tick of its CPU takes a millisecond, unless the slice
/// has no end.
fn left_after(sim: &Sim, event: Event, task: u16) -> u64 {
    let slice = slice_of(sim, task);
    match event {
        Event::Tick(cpu) if slice != u64::MAX && sim.runner(cpu) == Some(task) => {
            slice.saturating_sub(MS)
        }
        _ => slice,
    }
}

/// The number of CPUs that run no task.
fn idle_cpus(sim: &Sim) -> u32 {
    let mut idle = 0u32;
    for cpu in 0..sim.cpus() {
        if sim.running(cpu).is_none() {
            idle = idle.saturating_add(1);
        }
    }
    idle
}

/// The rest of the task's slice, in nanoseconds.
pub(crate) fn slice_of(sim: &Sim, task: u16) -> u64 {
    if task < sim.tasks() {
        sim.slice(task)
    } else {
        0
    }
}
