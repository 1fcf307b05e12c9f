use crate::activities::Doing;
use scx_load_workloads::{MAX_CPUS, Workload};
use std::alloc::{AllocError, Global};

/// The number of tasks that wait, and of those that are parked: for all CPUs, or where tasks are bound to some, for each CPU
/// those that may run there.
#[derive(Drop)]
pub(crate) struct Waiters {
    waiting: Vec<u64>,
    parked: Vec<u64>,
    /// The CPUs on which each task may run, one bit each, if some task is bound.
    masks: Vec<u64>,
}

/// A way in which a task that has work to do pauses.
#[derive(Clone, Copy)]
enum Pausing {
    Waits,
    IsParked,
    No,
}

impl Pausing {
    fn is(self, other: Pausing) -> bool {
        match self {
            Pausing::Waits => matches!(other, Pausing::Waits),
            Pausing::IsParked => matches!(other, Pausing::IsParked),
            Pausing::No => matches!(other, Pausing::No),
        }
    }
}

impl Waiters {
    /// All tasks of the workload sleep.
    pub(crate) fn new(alloc: Global, workload: &Workload) -> Result<Waiters, AllocError> {
        let masks = masks_of(alloc, workload)?;
        let watches = if masks.is_empty() {
            1
        } else {
            workload.cpus() as usize
        };
        Ok(Waiters {
            waiting: vec![in alloc; 0; watches]?,
            parked: vec![in alloc; 0; watches]?,
            masks,
        })
    }

    /// The number of these counts: one for all CPUs, or one for each.
    pub(crate) fn watches(&self) -> usize {
        self.waiting.len()
    }

    /// True if a task waits that counts there.
    #[inline(always)]
    pub(crate) fn some_wait(&self, watch: usize) -> bool {
        match self.waiting.get(watch) {
            Some(waiting) => 0 < *waiting,
            None => false,
        }
    }

    /// True if no task waits that counts there, and one is parked.
    pub(crate) fn are_only_parked(&self, watch: usize) -> bool {
        let are_some_parked = match self.parked.get(watch) {
            Some(parked) => 0 < *parked,
            None => false,
        };
        are_some_parked && !self.some_wait(watch)
    }

    /// The task does something else from now on, or sleeps.
    #[inline(always)]
    pub(crate) fn change(&mut self, task: u16, before: Option<Doing>, after: Option<Doing>) {
        let less = pausing_of(before);
        let more = pausing_of(after);
        if !less.is(more) {
            self.change_all(task, less, more);
        }
    }

    fn change_all(&mut self, task: u16, less: Pausing, more: Pausing) {
        let mut cpu = 0u32;
        for watch in 0..self.waiting.len() {
            if self.may_run(task, cpu) {
                self.add(watch, less, false);
                self.add(watch, more, true);
            }
            cpu = cpu.saturating_add(1);
        }
    }

    /// One task more pauses so, or one less.
    fn add(&mut self, watch: usize, pausing: Pausing, is_more: bool) {
        match pausing {
            Pausing::Waits => add_one(&mut self.waiting, watch, is_more),
            Pausing::IsParked => add_one(&mut self.parked, watch, is_more),
            Pausing::No => {}
        }
    }

    /// True if the task may run on the CPU, or no task is bound.
    fn may_run(&self, task: u16, cpu: u32) -> bool {
        match self.masks.get(task as usize) {
            Some(mask) => cpu < MAX_CPUS && mask >> cpu & 1 == 1,
            None => true,
        }
    }
}

fn add_one(counts: &mut Vec<u64>, watch: usize, is_more: bool) {
    if let Some(count) = counts.get_mut(watch) {
        *count = if is_more {
            count.saturating_add(1)
        } else {
            count.saturating_sub(1)
        };
    }
}

fn pausing_of(doing: Option<Doing>) -> Pausing {
    match doing {
        Some(doing) if doing.waits() => Pausing::Waits,
        Some(doing) if doing.is_parked() => Pausing::IsParked,
        _ => Pausing::No,
    }
}

/// The masks of all tasks, if some task is bound.
fn masks_of(alloc: Global, workload: &Workload) -> Result<Vec<u64>, AllocError> {
    if workload.is_bound() {
        Vec::from_slice(alloc, workload.masks())
    } else {
        Ok(Vec::new(alloc))
    }
}
