ghost use Rattle.std.specs.Prelude.{◌≡◌, ℕ, ◌<◌, ◌≤◌, ◌^◌, Some, None, length, replicate, slice_index_or, slice_set, position, IfSome, IfOk};
ghost use Rattle.scx_sched_tasks.specs.Tasks.{no_task, new_task, after_ms, after_many};
ghost use Rattle.scx_sched_tasks.specs.Waits.{is_overdue};

use crate::task::Task;
use crate::watch::{Watch, is_over};
use std::alloc::{AllocError, Global};
use std::marker::Model;

/// A millisecond, in nanoseconds.
const MS_NS: u64 = 1_000_000;

/// The records of tasks, by number.
#[derive(Drop)]
pub struct Tasks {
    records: Vec<Task>,
    watch: Watch,
}

impl Model for Tasks {
    ghost use Rattle.std.specs.Prelude.{List};
    ghost use Rattle.scx_sched_tasks.specs.declared.task.Task.{Task};

    ghost Value = { List Task };

    ghost use Rattle.scx_sched_tasks.specs.Kept.{records_of, IsKept};

    ghost view = { records_of };

    ghost invariant = { IsKept };
}

impl Tasks {
    /// Nobody waits.
    pub fn new(alloc: Global, count: usize) -> Result<Tasks, AllocError>
        requires { count ≤ 1024 }
        ensures { IfOk result (λ tasks. tasks ≡ replicate count new_task) }
    {
        Ok(Tasks {
            records: vec![in alloc; Task::NEW; count]?,
            watch: Watch::new(),
        })
    }

    /// The number of tasks.
    pub fn len(&self) -> usize
        ensures tasks { result ≡ length self.now }
        ensures few { result ≤ 1024 }
    {
        self.records.len()
    }

    /// The record of a task; all is 0 where there is none.
    pub fn get(&self, task: u16) -> Task
        ensures { result ≡ slice_index_or self.now task no_task }
    {
        if (task as usize) < self.records.len() {
            self.records[task as usize]
        } else {
            Task::NONE
        }
    }

    /// Where there is no such task nothing is changed.
    #[tactic(auto, using(crate::proofs::Watching::watched_set))]
    pub fn set(&mut self, task: u16, facts: Task)
        ensures { self.new ≡ slice_set self.old task facts }
    {
        if (task as usize) < self.records.len() {
            self.watch.lower(task, facts);
            self.records[task as usize] = facts;
        }
    }

    /// Has the records of the other one, of which there are as many, in place of its own. No memory is taken.
    pub fn copy_from(&mut self, other: &Tasks)
        requires { length self.old ≡ length other.now }
        ensures { self.new ≡ other.now }
    {
        self.records.copy_from_slice(&other.records);
        self.watch.oldest = other.watch.oldest;
        self.watch.blocks = other.watch.blocks;
    }

    /// A copy of the records, in memory of its own.
    pub fn duplicate(&self, alloc: Global) -> Result<Tasks, AllocError>
        ensures { IfOk result (λ copy. copy ≡ self.now) }
    {
        let records = Vec::from_slice(alloc, &self.records)?;
        Ok(Tasks {
            records,
            watch: Watch {
                oldest: self.watch.oldest,
                blocks: self.watch.blocks,
            },
        })
    }

    /// Sets what is left of the task's slice, and how long it has run. Where there is no such task nothing is
    /// changed.
    #[inline(always)]
    #[tactic(auto, using(crate::proofs::Watching::watched_same))]
    pub fn set_times(&mut self, task: u16, slice: u64, run_ns: u64)
        ensures { self.new
            ≡ slice_set self.old task
            (record (slice_index_or self.old task no_task) { slice = slice; run_ns = run_ns }) }
    {
        if (task as usize) < self.records.len() {
            let facts = &mut self.records[task as usize];
            facts.slice = slice;
            facts.run_ns = run_ns;
        }
    }

    /// The task waits from that clock on. Where there is no such task nothing is changed.
    #[inline(always)]
    #[tactic(auto, using(crate::proofs::Watching::watched_begun))]
    pub fn begin_wait(&mut self, task: u16, clock: u64)
        ensures { self.new
            ≡ slice_set self.old task
            (record (slice_index_or self.old task no_task) { since = Some clock }) }
    {
        if (task as usize) < self.records.len() {
            self.watch.begin_wait(task, clock);
            self.records[task as usize].since = Some(clock);
        }
    }

    /// The task waits no more, and has come to that processor. Where there is no such task nothing is
    /// changed.
    #[inline(always)]
    #[tactic(auto, using(crate::proofs::Watching::watched_ended))]
    pub fn end_wait(&mut self, task: u16, cpu: u32)
        ensures { self.new
            ≡ slice_set self.old task
            (record (slice_index_or self.old task no_task) { since = None; prev_cpu = cpu }) }
    {
        if (task as usize) < self.records.len() {
            let facts = &mut self.records[task as usize];
            facts.since = None;
            facts.prev_cpu = cpu;
        }
    }

    /// Sets what is left of the task's slice. Where there is no such task nothing is changed.
    #[inline(always)]
    #[tactic(auto, using(crate::proofs::Watching::watched_same))]
    pub fn set_slice(&mut self, task: u16, slice: u64)
        ensures { self.new
            ≡ slice_set self.old task
            (record (slice_index_or self.old task no_task) { slice = slice }) }
    {
        if (task as usize) < self.records.len() {
            self.records[task as usize].slice = slice;
        }
    }

    /// The task has run for a millisecond. Answers what is left of its slice; one of 2^64 - 1 never ends.
    #[inline(always)]
    #[tactic(auto, using(crate::proofs::Watching::watched_same))]
    pub fn run_ms(&mut self, task: u16) -> u64
        requires known { task < length self.old }
        requires early { (slice_index_or self.old task no_task).run_ns < 2 ^ 63 }
        ensures answer { result ≡ (after_ms (slice_index_or self.old task no_task)).slice }
        ensures tasks { self.new
            ≡ slice_set self.old task (after_ms (slice_index_or self.old task no_task)) }
    {
        let facts = &mut self.records[task as usize];
        facts.run_ns += MS_NS;
        if facts.slice != u64::MAX {
            facts.slice = facts.slice.saturating_sub(MS_NS);
        }
        facts.slice
    }

    /// The task has run for that many milliseconds. A slice of 2^64 - 1 never ends.
    #[inline(always)]
    #[tactic(auto, using(crate::proofs::Watching::watched_same, crate::proofs::Times::many_waits))]
    pub fn run_for(&mut self, task: u16, ms: u64)
        requires known { task < length self.old }
        requires few { ms ≤ 2 ^ 32 }
        requires early { (slice_index_or self.old task no_task).run_ns < 2 ^ 63 }
        ensures { self.new
            ≡ slice_set self.old task (after_many ms (slice_index_or self.old task no_task)) }
    {
        let facts = run_on(self.records[task as usize], ms);
        self.records[task as usize] = facts;
    }

    /// A clock before which no task began to wait that waits now.
    #[inline(always)]
    #[tactic(auto, using(crate::proofs::Watching::waits_since))]
    pub fn oldest_wait(&self) -> u64
        ensures { (t n : ℕ) → (slice_index_or self.now t no_task).since ≡ Some n → result ≤ n }
    {
        self.watch.oldest
    }

    /// Sets the task's virtual time. Where there is no such task nothing is changed.
    #[inline(always)]
    #[tactic(auto, using(crate::proofs::Watching::watched_same))]
    pub fn set_vtime(&mut self, task: u16, vtime: u64)
        ensures { self.new
            ≡ slice_set self.old task
            (record (slice_index_or self.old task no_task) { vtime = vtime }) }
    {
        if (task as usize) < self.records.len() {
            self.records[task as usize].vtime = vtime;
        }
    }

    /// The task of the least number that has waited longer than the limit.
    #[inline(always)]
    #[tactic(auto, using(crate::proofs::Watching::nobody_late))]
    pub fn first_overdue(&mut self, clock: u64, limit: u64) -> Option<u16>
        ensures answer { result ≡ position (is_overdue clock limit) self.old }
        ensures tasks { self.new ≡ self.old }
    {
        self.refresh(clock, limit);
        if is_over(clock, self.watch.oldest, limit) {
            match position_overdue(&self.records, clock, limit) {
                Some(task) => Some(task as u16),
                None => None,
            }
        } else {
            None
        }
    }

    /// Brings the watch up to date if a task may have waited longer than that.
    fn refresh(&mut self, clock: u64, limit: u64)
        ensures { self.new ≡ self.old }
    {
        if is_over(clock, self.watch.oldest, limit) {
            self.watch.refresh(&self.records, clock, limit);
        }
    }
}

/// The record of a task that has run for that many milliseconds more.
#[inline(always)]
#[tactic(auto, using(crate::proofs::Times::many_endless, crate::proofs::Times::many_shorter))]
fn run_on(facts: Task, ms: u64) -> Task
    requires few { ms ≤ 2 ^ 32 }
    requires early { facts.run_ns < 2 ^ 63 }
    ensures { result ≡ after_many ms facts }
{
    let run_ns = facts.run_ns + ms * MS_NS;
    if facts.slice == u64::MAX {
        return Task { run_ns, ..facts };
    }
    let slice = facts.slice.saturating_sub(ms * MS_NS);
    Task {
        slice,
        run_ns,
        ..facts
    }
}

#[inline(never)]
fn position_overdue(records: &[Task], clock: u64, limit: u64) -> Option<usize>
    ensures at { result ≡ position (is_overdue clock limit) records.now }
    ensures within { IfSome result (λ i. i < length records.now) }
{
    records.iter().position(|facts| match facts.since {
        Some(since) => clock.saturating_sub(since) > limit,
        None => false,
    })
}
