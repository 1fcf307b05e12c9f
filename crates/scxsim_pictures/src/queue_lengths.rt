use arrayvec::ArrayVec;
use std::alloc::{AllocError, Global};

/// The most queues of a policy.
const POLICY_QUEUES: usize = 16;

/// GLOBAL, the queue of the built-in scheduler, and those of held and of parked tasks.
const SHARED_QUEUES: usize = 4;

/// A local queue for each CPU.
const LOCAL_QUEUES: usize = 64;

/// The most queues that a run has.
const MAX_QUEUES: usize = POLICY_QUEUES + SHARED_QUEUES + LOCAL_QUEUES;

/// The number of tasks that wait in a queue since the moment at which it changed, and the one that was told last.
#[derive(Clone, Copy, Default)]
struct Length {
    queue: u64,
    changed: u64,
    tasks: u64,
    told: u64,
}

impl Length {
    /// Tells the number of tasks, if it changed before that moment and isn't told.
    fn tell_before(&mut self, moment: u64) -> Option<Count> {
        if self.tasks == self.told || moment <= self.changed {
            return None;
        }
        self.told = self.tasks;
        Some(Count {
            moment: self.changed,
            queue: self.queue,
            tasks: self.tasks,
        })
    }
}

/// The number of tasks that wait in a queue from that moment on.
#[derive(Clone, Copy)]
pub(crate) struct Count {
    pub(crate) moment: u64,
    pub(crate) queue: u64,
    pub(crate) tasks: u64,
}

/// A task's wait in a queue, and its beginning.
#[derive(Clone, Copy)]
pub(crate) struct Stay {
    pub(crate) queue: u64,
    pub(crate) since: u64,
}

/// The queue in which each task waits, and the number of tasks in each queue. Of several changes of a queue at one moment
/// the last one is told, when the queue changes again or time has passed.
#[derive(Drop)]
pub(crate) struct Lengths {
    stays: Vec<Option<Stay>>,
    queues: ArrayVec<Length, MAX_QUEUES>,
    /// All changes before that moment are told.
    told_before: u64,
}

impl Lengths {
    /// None of these tasks waits.
    pub(crate) fn new(alloc: Global, tasks: usize) -> Result<Lengths, AllocError> {
        Ok(Lengths {
            stays: vec![in alloc; None; tasks]?,
            queues: ArrayVec::new(),
            told_before: 0,
        })
    }

    /// The task's wait, if it waits in a queue.
    pub(crate) fn stay(&self, task: u16) -> Option<Stay> {
        *self.stays.get(task as usize)?
    }

    /// The task waits there from now on, or in no queue. Returns its wait before.
    pub(crate) fn replace(&mut self, task: u16, stay: Option<Stay>) -> Option<Stay> {
        let place = self.stays.get_mut(task as usize)?;
        let before = *place;
        *place = stay;
        before
    }

    /// One task more waits in that queue. Returns its length before, if it is to be told.
    pub(crate) fn add(&mut self, moment: u64, queue: u64) -> Option<Count> {
        for length in self.queues.as_mut_slice() {
            if length.queue == queue {
                let before = length.tell_before(moment);
                length.tasks = length.tasks.saturating_add(1);
                length.changed = moment;
                return before;
            }
        }
        // A run has no more queues than there is room for.
        let _ = self.queues.try_push(Length {
            queue,
            changed: moment,
            tasks: 1,
            told: 0,
        });
        None
    }

    /// One task less waits in that queue. Returns its length before, if it is to be told.
    pub(crate) fn take(&mut self, moment: u64, queue: u64) -> Option<Count> {
        for length in self.queues.as_mut_slice() {
            if length.queue == queue {
                let before = length.tell_before(moment);
                length.tasks = length.tasks.saturating_sub(1);
                length.changed = moment;
                return before;
            }
        }
        None
    }

    /// A length that changed before that moment and isn't told, if there is one.
    pub(crate) fn tell_before(&mut self, moment: u64) -> Option<Count> {
        if moment <= self.told_before {
            return None;
        }
        for length in self.queues.as_mut_slice() {
            let told = length.tell_before(moment);
            if told.is_some() {
                return told;
            }
        }
        self.told_before = moment;
        None
    }
}
