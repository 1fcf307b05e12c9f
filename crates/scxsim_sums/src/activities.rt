use crate::queues::Queue;
use scxsim_layout::Mark;
use std::alloc::{AllocError, Global};

/// The activity of a task that doesn't sleep.
#[derive(Clone, Copy)]
pub enum Doing {
    /// It runs on this CPU.
    Runs(u32),
    Waits(Queue),
}

impl Doing {
    /// True if it runs.
    pub(crate) fn runs(self) -> bool {
        match self {
            Doing::Runs(_) => true,
            Doing::Waits(_) => false,
        }
    }

    /// True if it waits for a CPU. A parked task doesn't.
    pub(crate) fn waits(self) -> bool {
        match self {
            Doing::Runs(_) => false,
            Doing::Waits(queue) => !queue.is_parked(),
        }
    }

    /// True if it is parked.
    pub(crate) fn is_parked(self) -> bool {
        match self {
            Doing::Runs(_) => false,
            Doing::Waits(queue) => queue.is_parked(),
        }
    }
}

/// A moment, and the clock then.
#[derive(Clone, Copy)]
pub(crate) struct Instant {
    pub(crate) moment: u64,
    pub(crate) clock: u64,
}

/// The activity of a task and its beginning, and the beginning of its wait, if it waits.
#[derive(Clone, Copy)]
pub(crate) struct Stay {
    pub(crate) doing: Doing,
    pub(crate) since: Mark,
    pub(crate) waits_since: Option<Instant>,
}

/// The activity of each task.
#[derive(Drop)]
pub(crate) struct Activities {
    stays: Vec<Option<Stay>>,
}

impl Activities {
    /// All of these tasks sleep.
    pub(crate) fn new(alloc: Global, tasks: usize) -> Result<Activities, AllocError> {
        Ok(Activities {
            stays: vec![in alloc; None; tasks]?,
        })
    }

    /// The task does this from now on, or sleeps. Returns what it did before.
    #[inline(always)]
    pub(crate) fn change(
        &mut self,
        task: u16,
        doing: Option<Doing>,
        now: Mark,
        clock: u64,
    ) -> Option<Stay> {
        let place = self.stays.get_mut(task as usize)?;
        let before = *place;
        *place = stay_of(before, doing, now, clock);
        before
    }
}

fn waits_since(stay: Option<Stay>) -> Option<Instant> {
    stay?.waits_since
}

#[inline(always)]
fn stay_of(before: Option<Stay>, doing: Option<Doing>, now: Mark, clock: u64) -> Option<Stay> {
    let doing = doing?;
    let waits_since = if doing.waits() {
        let first = Instant {
            moment: now.moment,
            clock,
        };
        Some(waits_since(before).unwrap_or(first))
    } else {
        None
    };
    Some(Stay {
        doing,
        since: now,
        waits_since,
    })
}
