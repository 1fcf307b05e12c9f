ghost use Rattle.std.specs.Prelude.{◌≡◌};
ghost use Rattle.scxsim_waits.specs.Spells.{taken_with};

use crate::task_queues::{Taken, TaskQueues};
use arrayvec::ArrayVec;
use scx_sched::{Note, Rank, What};

/// The most queues that a policy may create, and that of held tasks.
const MOST: usize = 17;

/// The least and the greatest of some keys of virtual times.
#[derive(Clone, Copy)]
pub struct KeyRange {
    pub low: u64,
    pub high: u64,
}

impl KeyRange {
    fn with(self, number: u64) -> KeyRange {
        KeyRange {
            low: self.low.min(number),
            high: self.high.max(number),
        }
    }
}

/// The calls of dispatch that took their first task out of a queue.
#[derive(Clone, Copy, Default)]
pub struct CallShare {
    pub queue: u64,
    pub calls: u64,
}

/// The time that a task spent in a queue, with the calls of dispatch meanwhile.
#[derive(Drop)]
pub struct Spell {
    pub task: u16,
    pub queue: u64,
    /// Its rank there, with the key of a virtual time, if that is known.
    pub rank: Option<Rank>,
    /// The number of others that were taken out of that queue.
    pub taken: u64,
    /// The keys of their virtual times, where each is known.
    pub theirs: Option<KeyRange>,
    pub is_known: bool,
    /// The calls of dispatch that took another out of that queue, that took tasks of other queues alone, and that took
    /// none.
    pub took: u64,
    pub passed: u64,
    pub vain: u64,
    /// The queues from which calls that took tasks of other queues alone took their first.
    pub shares: ArrayVec<CallShare, MOST>,
}

impl Spell {
    /// The spell of a task that comes into the queue.
    pub fn new(task: u16, queue: u64, rank: Option<Rank>) -> Spell
        ensures task { result.task ≡ task }
        ensures queue { result.queue ≡ queue }
        ensures taken { result.taken ≡ 0 }
    {
        Spell {
            task,
            queue,
            rank,
            taken: 0,
            theirs: None,
            is_known: true,
            took: 0,
            passed: 0,
            vain: 0,
            shares: ArrayVec::new(),
        }
    }

    /// The number of calls of dispatch.
    pub fn calls(&self) -> u64 {
        self.took
            .saturating_add(self.passed)
            .saturating_add(self.vain)
    }

    /// Counts a task that is taken out of a queue, whose rank there was that, if it is known.
    pub fn take(&mut self, taken: Taken, rank: Option<Rank>)
        ensures task { self.new.task ≡ self.old.task }
        ensures queue { self.new.queue ≡ self.old.queue }
        ensures taken { self.new.taken
            ≡ taken_with self.old.task self.old.queue taken self.old.taken }
    {
        if taken.queue == self.queue && taken.task != self.task {
            self.taken = self.taken.saturating_add(1);
            self.keep_rank(rank);
        }
    }

    fn keep_rank(&mut self, rank: Option<Rank>)
        ensures task { self.new.task ≡ self.old.task }
        ensures queue { self.new.queue ≡ self.old.queue }
        ensures taken { self.new.taken ≡ self.old.taken }
    {
        match rank {
            Some(Rank::Vtime(key)) => self.theirs = Some(widened(self.theirs, key)),
            Some(Rank::Fifo | Rank::Front) => {}
            None => self.is_known = false,
        }
    }

    /// Counts a call of dispatch with these notes, before which tasks were in these queues. One that took the task itself
    /// isn't counted.
    pub fn heed(&mut self, notes: &[Note], places: &TaskQueues) {
        let mut first = None;
        let mut took = false;
        for note in notes {
            if let Some(taken) = places.taken(note.what) {
                if taken.task == self.task {
                    return;
                }
                took = took || taken.queue == self.queue;
                first = first_of(first, taken.queue);
            }
        }
        self.count(took, first);
    }

    fn count(&mut self, took: bool, first: Option<u64>) {
        if took {
            self.took = self.took.saturating_add(1);
            return;
        }
        match first {
            Some(queue) => {
                self.passed = self.passed.saturating_add(1);
                self.share(queue);
            }
            None => self.vain = self.vain.saturating_add(1),
        }
    }

    /// Counts a call that took its first task out of that queue.
    fn share(&mut self, queue: u64) {
        for share in self.shares.as_mut_slice() {
            if share.queue == queue {
                share.calls = share.calls.saturating_add(1);
                return;
            }
        }
        // A call of dispatch takes tasks out of queues of the policy alone, and out of that of held tasks.
        let _ = self.shares.try_push(CallShare { queue, calls: 1 });
    }
}

fn first_of(first: Option<u64>, queue: u64) -> Option<u64> {
    match first {
        Some(first) => Some(first),
        None => Some(queue),
    }
}

fn widened(numbers: Option<KeyRange>, number: u64) -> KeyRange {
    match numbers {
        Some(numbers) => numbers.with(number),
        None => KeyRange {
            low: number,
            high: number,
        },
    }
}
