use crate::clocks::is_without_tick;
use crate::queue_numbers::{LOCAL_NUMBER, NO_QUEUE};
use scxsim_template::{Beginning, End, NOWHERE, PARKED_NUMBER, Stretch, moment_of};
use std::alloc::{AllocError, Global};

/// The activity of a task.
#[derive(Clone, Copy)]
enum Doing {
    /// It sleeps, or it left its CPU and is in no queue yet.
    Neither,
    Waits { queue: u16 },
    Runs { place: u8 },
}

#[derive(Clone, Copy)]
struct TaskState {
    doing: Doing,
    /// The queue from which it came last.
    queue: u16,
    beginning: Beginning,
    is_asleep: bool,
    /// The beginning of its activity, as in a stretch.
    since: u64,
}

const ASLEEP: TaskState = TaskState {
    doing: Doing::Neither,
    queue: NO_QUEUE,
    beginning: Beginning::GoesOn,
    is_asleep: true,
    since: 0,
};

/// The activity of each task. Times are those of stretches.
#[derive(Drop)]
pub(crate) struct TaskStates {
    tasks: Vec<TaskState>,
}

impl TaskStates {
    /// All of these tasks sleep.
    pub(crate) fn new(alloc: Global, tasks: usize) -> Result<TaskStates, AllocError> {
        Ok(TaskStates {
            tasks: vec![in alloc; ASLEEP; tasks]?,
        })
    }

    pub(crate) fn wake(&mut self, now: u64, number: u16) {
        if let Some(task) = self.tasks.get_mut(number as usize) {
            task.is_asleep = false;
            task.beginning = Beginning::Woke;
            task.begin(now, Doing::Waits { queue: NO_QUEUE });
        }
    }

    /// The task sleeps from now on. If it runs, the note of its stop comes next.
    #[inline(always)]
    pub(crate) fn sleep(&mut self, now: u64, number: u16) -> Option<Stretch> {
        let task = self.tasks.get_mut(number as usize)?;
        task.is_asleep = true;
        task.waits_in()?;
        task.end(number, now, End::Slept)
    }

    /// The task comes to a queue.
    #[inline(always)]
    pub(crate) fn enter(&mut self, now: u64, number: u16, queue: u16) -> Option<Stretch> {
        let task = self.tasks.get_mut(number as usize)?;
        let before = task.waits_in();
        let is_new = match before {
            Some(before) => before == NO_QUEUE,
            None => true,
        };
        let since = task.since_in(now, before, queue);
        let stretch = task.leave(number, now, before, queue);
        if is_new || queue < LOCAL_NUMBER {
            task.queue = queue;
        }
        task.begin(since, Doing::Waits { queue });
        stretch
    }

    #[inline(always)]
    pub(crate) fn run(&mut self, now: u64, number: u16, place: u8) -> Option<Stretch> {
        let task = self.tasks.get_mut(number as usize)?;
        let stretch = match task.waits_in() {
            Some(_) => task.end(number, now, End::Ran),
            None => None,
        };
        task.begin(now, Doing::Runs { place });
        stretch
    }

    /// The task leaves its CPU. It may have been parked, which isn't known yet.
    #[inline(always)]
    pub(crate) fn stop(&mut self, now: u64, number: u16) -> Option<Stretch> {
        let task = self.tasks.get_mut(number as usize)?;
        if task.is_asleep {
            return task.end(number, now, End::Slept);
        }
        let stretch = task.end(number, now, End::Stopped);
        if !matches!(task.beginning, Beginning::HadWaited) {
            task.beginning = Beginning::WasStopped;
        }
        stretch
    }

    /// The run of the workload ends. A wait without a tick that has just ended has no next stretch, and so one of its own.
    pub(crate) fn end(&mut self, now: u64, number: u16) -> Option<Stretch> {
        let task = self.tasks.get_mut(number as usize)?;
        let had_waited = matches!(task.beginning, Beginning::HadWaited);
        if had_waited && moment_of(task.since) == moment_of(now) {
            let queue = task.queue;
            task.begin(now.saturating_sub(1), Doing::Waits { queue });
            task.beginning = Beginning::WasStopped;
        }
        task.end(number, now, End::RunOver)
    }
}

impl TaskState {
    #[inline(always)]
    fn begin(&mut self, now: u64, doing: Doing) {
        self.doing = doing;
        self.since = now;
    }

    /// The queue in which it waits, if it waits.
    #[inline(always)]
    fn waits_in(&self) -> Option<u16> {
        match self.doing {
            Doing::Waits { queue } => Some(queue),
            Doing::Neither | Doing::Runs { .. } => None,
        }
    }

    /// The beginning of its wait in a queue. If its wait in the queue before had time by the clock alone, and so has no
    /// stretch, it is the beginning of that wait.
    #[inline(always)]
    fn since_in(&self, now: u64, before: Option<u16>, queue: u16) -> u64 {
        let waited = before.is_some() && before != Some(PARKED_NUMBER);
        let goes_on = waited && queue != PARKED_NUMBER;
        if goes_on && moment_of(self.since) == moment_of(now) {
            self.since
        } else {
            now
        }
    }

    /// Ends the wait in the queue in which it waited before, if it did, as it comes to another.
    #[inline(always)]
    fn leave(&mut self, number: u16, now: u64, before: Option<u16>, queue: u16) -> Option<Stretch> {
        let before = before?;
        let stretch = self.end(number, now, end_of_wait(before, queue));
        if before == PARKED_NUMBER {
            self.beginning = Beginning::WasLetGo;
        }
        stretch
    }

    /// Ends its activity. There is no stretch of no time, but for a wait that goes on as the run ends: by the clock it
    /// began before. Another wait without a tick is told with the next stretch.
    #[inline(always)]
    fn end(&mut self, number: u16, now: u64, end: End) -> Option<Stretch> {
        let (place, queue) = match self.doing {
            Doing::Neither => return None,
            Doing::Waits { queue } => (NOWHERE, queue),
            Doing::Runs { place } => (place, self.queue),
        };
        self.doing = Doing::Neither;
        if !self.is_kept(now, place, end) {
            let waited = place == NOWHERE && queue != PARKED_NUMBER;
            let is_over = waited && !matches!(end, End::WentOn);
            if is_over && is_without_tick(self.since, now) {
                self.beginning = Beginning::HadWaited;
            }
            return None;
        }
        let beginning = self.beginning;
        self.beginning = Beginning::GoesOn;
        Some(Stretch {
            since: self.since,
            until: now,
            task: number,
            queue,
            place,
            beginning,
            end,
        })
    }

    /// True if its activity has time up to now, or is a wait that has some by the clock as the run ends.
    #[inline(always)]
    fn is_kept(&self, now: u64, place: u8, end: End) -> bool {
        moment_of(self.since) < moment_of(now)
            || self.since < now && place == NOWHERE && matches!(end, End::RunOver)
    }
}

/// The end of the wait of a task that comes to another queue.
fn end_of_wait(before: u16, queue: u16) -> End {
    if before == PARKED_NUMBER {
        End::LetGo
    } else if queue == PARKED_NUMBER {
        End::Parked
    } else {
        End::WentOn
    }
}
