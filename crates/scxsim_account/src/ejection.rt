use scx_sched::{Event, What};
use scx_sched_world::Fault;

/// The cause of an ejection.
#[derive(Clone, Copy)]
pub enum Cause {
    /// This task had waited too long.
    Stall(u16),
    /// A callback had a fault as this event came.
    Fault(Fault, Event),
    /// A callback ended the policy, with that code, as this event came.
    Exit(i64, Event),
}

/// The ejection of a policy.
#[derive(Clone, Copy)]
pub struct Ejection {
    pub clock: u64,
    pub cause: Cause,
    /// The task that waited too long, the task of the event, or the task that ran as its CPU's tick came.
    pub task: Option<u16>,
    /// The CPU whose tick came.
    pub cpu: Option<u32>,
}

/// The event that the machine is about to take, for the case that the policy is ejected there.
#[derive(Clone, Copy)]
pub(crate) struct Moment {
    pub(crate) event: Event,
    /// The task that ran on the CPU whose tick comes.
    pub(crate) running: Option<u16>,
}

impl Moment {
    /// The task of the event, or the task that ran as a tick came.
    fn task(self) -> Option<u16> {
        match self.event {
            Event::Wake(task) | Event::Sleep(task) | Event::SetTaskWeight(task, _) => Some(task),
            Event::Tick(_) => self.running,
            Event::Clock | Event::SetWeight(_, _) => None,
        }
    }

    fn cpu(self) -> Option<u32> {
        match self.event {
            Event::Tick(cpu) => Some(cpu),
            Event::Wake(_)
            | Event::Sleep(_)
            | Event::Clock
            | Event::SetWeight(_, _)
            | Event::SetTaskWeight(_, _) => None,
        }
    }
}

/// The ejection that a note of this clock says, if it says one.
pub(crate) fn ejection_of(moment: Moment, clock: u64, what: What) -> Option<Ejection> {
    match what {
        What::Stall(task) => Some(Ejection {
            clock,
            cause: Cause::Stall(task),
            task: Some(task),
            cpu: None,
        }),
        What::Fault(fault) => Some(Ejection {
            clock,
            cause: Cause::Fault(fault, moment.event),
            task: moment.task(),
            cpu: moment.cpu(),
        }),
        What::Exit(code) => Some(Ejection {
            clock,
            cause: Cause::Exit(code, moment.event),
            task: moment.task(),
            cpu: moment.cpu(),
        }),
        _ => None,
    }
}
