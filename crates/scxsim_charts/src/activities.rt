use scx_load_workloads::Workload;
use scx_sched::What;
use scx_sched_world::{HELD, PARKED};
use std::alloc::{AllocError, Global};

/// The activity of a task that doesn't sleep.
#[derive(Clone, Copy)]
pub(crate) enum Activity {
    /// It runs on this CPU.
    Runs(u32),
    Waits,
    /// It waits in no queue, as the policy hasn't put it into one.
    IsHeld,
    /// A group that it lies in has used up its quota.
    IsParked,
}

/// A task did one thing from one moment to another.
#[derive(Clone, Copy)]
pub(crate) struct Interval {
    pub(crate) task: u16,
    pub(crate) doing: Activity,
    pub(crate) since: u64,
    pub(crate) until: u64,
}

impl Activity {
    /// True if the task waits for a CPU. One that is parked doesn't.
    fn is_waiting(self) -> bool {
        match self {
            Activity::Waits | Activity::IsHeld => true,
            Activity::Runs(_) | Activity::IsParked => false,
        }
    }
}

/// The activity of a task, and its beginning.
#[derive(Clone, Copy)]
struct Stay {
    doing: Activity,
    since: u64,
}

/// The activity of each task.
#[derive(Drop)]
pub(crate) struct Activities {
    stays: Vec<Option<Stay>>,
    /// The number of tasks that wait for a CPU.
    waiting: usize,
    /// True if some task may not run on all CPUs.
    are_bound: bool,
}

impl Activities {
    /// All tasks of the workload sleep.
    pub(crate) fn new(alloc: Global, workload: &Workload) -> Result<Activities, AllocError> {
        Ok(Activities {
            stays: vec![in alloc; None; workload.tasks().len()]?,
            waiting: 0,
            are_bound: workload.is_bound(),
        })
    }

    /// Takes a note. Returns the interval that it ends, if it ends one.
    pub(crate) fn show(&mut self, moment: u64, what: What) -> Option<Interval> {
        match what {
            What::Wake(task) => self.change(task, Some(Activity::Waits), moment),
            What::Sleep(task) => self.change(task, None, moment),
            What::Insert(task, queue) => self.change(task, Some(doing_in(queue)), moment),
            What::Move(task, _) => self.change(task, Some(Activity::Waits), moment),
            What::Run(task, cpu) => self.change(task, Some(Activity::Runs(cpu)), moment),
            What::Stop(task, _) => self.change(task, None, moment),
            What::Idle(_)
            | What::Weight(_, _)
            | What::TaskWeight(_, _)
            | What::Stall(_)
            | What::Fault(_)
            | What::Exit(_) => None,
        }
    }

    /// The run ends at that moment. Returns the last interval of the task.
    pub(crate) fn end(&mut self, moment: u64, task: u16) -> Option<Interval> {
        self.change(task, None, moment)
    }

    /// The CPUs for which a task waits that may run there, one bit each. `masks` has the CPUs of each task.
    pub(crate) fn awaited_cpus(&self, masks: &[u64]) -> u64 {
        if self.waiting == 0 {
            return 0;
        }
        if !self.are_bound {
            return u64::MAX;
        }
        let mut cpus = 0u64;
        for (task, mask) in masks.iter().enumerate() {
            if self.waits(task) {
                cpus |= *mask;
            }
        }
        cpus
    }

    /// True if the task waits for a CPU.
    fn waits(&self, task: usize) -> bool {
        match self.stays.get(task) {
            Some(Some(stay)) => stay.doing.is_waiting(),
            _ => false,
        }
    }

    /// The task does this from that moment on, or sleeps.
    fn change(&mut self, task: u16, doing: Option<Activity>, moment: u64) -> Option<Interval> {
        let place = self.stays.get_mut(task as usize)?;
        let before = *place;
        *place = stay_of(doing, moment);
        if self.waits(task as usize) {
            self.waiting = self.waiting.saturating_add(1);
        }
        let stay = before?;
        if stay.doing.is_waiting() {
            self.waiting = self.waiting.saturating_sub(1);
        }
        Some(Interval {
            task,
            doing: stay.doing,
            since: stay.since,
            until: moment,
        })
    }
}

fn stay_of(doing: Option<Activity>, since: u64) -> Option<Stay> {
    let doing = doing?;
    Some(Stay { doing, since })
}

/// The activity of a task in the queue of that id.
fn doing_in(queue: u64) -> Activity {
    if queue == HELD {
        Activity::IsHeld
    } else if queue == PARKED {
        Activity::IsParked
    } else {
        Activity::Waits
    }
}
