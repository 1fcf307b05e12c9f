ghost use Rattle.std.specs.Prelude.{◌≡◌, ℕ, ◌-◌, ◌/◌, ◌≤◌, ◌<◌, nat_lt, length, slice_index_or, replicate, Some};
ghost use Rattle.scx_sched_tasks.specs.Tasks.{no_task, new_task};
ghost use Rattle.scx_sched_tasks.specs.Kept.{AreWatched, WaitNoLonger, with_earlier};

use crate::task::Task;
use std::cmp;

/// The number of tasks in a block; these are watched together.
const BLOCK: usize = 32;

/// The number of blocks.
const BLOCKS: usize = 32;

/// The clock that is kept where no task waits.
const NEVER: u64 = u64::MAX;

/// Clocks before which no wait began.
#[derive(Drop)]
pub(crate) struct Watch {
    /// The clock for all tasks.
    pub(crate) oldest: u64,
    /// The clock for each block of tasks.
    pub(crate) blocks: [u64; BLOCKS],
}

impl Watch {
    /// Nobody waits.
    #[tactic(auto, using(crate::proofs::Watching::none_watched))]
    pub(crate) fn new() -> Watch
        ensures { (count : ℕ) → AreWatched result (replicate count new_task) }
    {
        Watch {
            oldest: NEVER,
            blocks: [NEVER; BLOCKS],
        }
    }

    /// The task has another record.
    pub(crate) fn lower(&mut self, task: u16, facts: Task)
        requires count { length self.old.blocks ≡ 32 }
        requires few { task < 1024 }
        ensures { self.new ≡ with_earlier self.old task facts.since }
    {
        if let Some(since) = facts.since {
            let block = task as usize / BLOCK;
            self.blocks[block] = cmp::min(self.blocks[block], since);
            self.oldest = cmp::min(self.oldest, since);
        }
    }

    /// The task waits from that clock on.
    #[inline(always)]
    #[tactic(auto, using(crate::proofs::Watching::as_before))]
    pub(crate) fn begin_wait(&mut self, task: u16, clock: u64)
        requires count { length self.old.blocks ≡ 32 }
        requires few { task < 1024 }
        requires least { self.old.oldest ≤ slice_index_or self.old.blocks (task / 32) 0 }
        ensures { self.new ≡ with_earlier self.old task (Some clock) }
    {
        let block = task as usize / BLOCK;
        if clock < self.blocks[block] {
            self.blocks[block] = clock;
            self.oldest = cmp::min(self.oldest, clock);
        }
    }

    /// Looks anew at the blocks in which a task may have waited longer than that.
    #[inline(never)]
    pub(crate) fn refresh(&mut self, records: &[Task], clock: u64, limit: u64)
        requires { AreWatched self.old records.now }
        ensures { AreWatched self.new records.now }
    {
        let mut oldest = NEVER;
        for block in 0..BLOCKS {
            let since = self.since(records, block, clock, limit);
            self.blocks[block] = since;
            oldest = cmp::min(oldest, since);
        }
        self.oldest = oldest;
    }

    /// A clock since before which nobody of the block waits.
    fn since(&self, records: &[Task], block: usize, clock: u64, limit: u64) -> u64
        requires known { block < length self.now.blocks }
        requires watched { WaitNoLonger (slice_index_or self.now.blocks block 0) block records.now }
        ensures { WaitNoLonger result block records.now }
    {
        if is_over(clock, self.blocks[block], limit) {
            oldest_in(records, block)
        } else {
            self.blocks[block]
        }
    }
}

/// True if a wait since then is longer than the limit.
pub(crate) fn is_over(clock: u64, since: u64, limit: u64) -> bool
    ensures { result ≡ nat_lt limit (clock - since) }
{
    clock.saturating_sub(since) > limit
}

/// The clock at which the first wait in the block began.
fn oldest_in(records: &[Task], block: usize) -> u64
    requires { block < 32 }
    ensures { WaitNoLonger result block records.now }
{
    let first = cmp::min(block * BLOCK, records.len());
    let end = cmp::min(first + BLOCK, records.len());
    oldest_of(&records[first..end])
}

/// The clock at which the first wait began.
fn oldest_of(records: &[Task]) -> u64
    ensures { (i n : ℕ) → (slice_index_or records.now i no_task).since ≡ Some n → result ≤ n }
{
    let mut oldest = NEVER;
    for facts in records {
        if let Some(since) = facts.since {
            oldest = cmp::min(oldest, since);
        }
    }
    oldest
}
