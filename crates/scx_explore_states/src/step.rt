use crate::form::MOST_TASKS;
use scx_sched::Event;

/// A step of a search from one state to another.
#[derive(Clone, Copy)]
pub enum Step {
    /// By one event.
    Event(Event),
    /// By that many ticks of a CPU in a row, until the slice of its task ends.
    Ticks { cpu: u32, times: u32 },
    /// By a millisecond: these tasks wake, each processor ticks, these go to sleep, and the clock grows. Tasks and
    /// processors have their turns by number.
    Millisecond { wakes: Tasks, sleeps: Tasks },
}

/// Some of the first eight tasks.
#[derive(Clone, Copy, PartialEq, Eq)]
pub struct Tasks {
    mask: u8,
}

impl Tasks {
    pub const NONE: Tasks = Tasks { mask: 0 };

    /// True if the task is one of these.
    #[inline(always)]
    pub fn has(self, task: u16) -> bool {
        self.mask & bit(task) != 0
    }

    /// These and that one.
    #[inline(always)]
    pub fn with(self, task: u16) -> Tasks {
        Tasks {
            mask: self.mask | bit(task),
        }
    }

    /// These but that one.
    #[inline(always)]
    pub fn without(self, task: u16) -> Tasks {
        Tasks {
            mask: self.mask & !bit(task),
        }
    }

    /// Those of these that are among the others.
    #[inline(always)]
    pub fn among(self, others: Tasks) -> Tasks {
        Tasks {
            mask: self.mask & others.mask,
        }
    }

    /// These and those.
    #[inline(always)]
    pub fn and(self, others: Tasks) -> Tasks {
        Tasks {
            mask: self.mask | others.mask,
        }
    }

    /// The number of these tasks.
    #[inline(always)]
    pub fn count(self) -> u32 {
        self.mask.count_ones()
    }

    pub fn is_empty(self) -> bool {
        self.mask == 0
    }

    /// From none on the next choice among those tasks; after all of them there is none.
    #[inline(always)]
    pub fn next_among(self, all: Tasks) -> Option<Tasks> {
        if self.mask == all.mask {
            return None;
        }
        Some(Tasks {
            mask: self.mask.wrapping_sub(all.mask) & all.mask,
        })
    }
}

#[inline(always)]
fn bit(task: u16) -> u8 {
    if usize::from(task) < MOST_TASKS {
        1u8.wrapping_shl(u32::from(task))
    } else {
        0
    }
}
