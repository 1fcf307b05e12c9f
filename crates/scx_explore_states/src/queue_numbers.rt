ghost use Rattle.std.specs.Prelude.{◌≡◌, ◌==◌, ◌<◌, ◌≤◌, [], true, length, position, IfOk, IfSome};
ghost use Rattle.scx_explore_states.specs.Words.{HasNumbers, number_in, added, met, most_queues};

use scx_sched::Entry;
use std::alloc::{AllocError, Global};
use std::marker::Model;

/// The most queues of a machine that is searched: 4 of the machine's own, 16 of a policy, and a local one for each of
/// 16 processors.
const MOST_QUEUES: usize = 36;

/// The queues in which tasks were met, numbered in the order in which they were.
///
/// In a contract it is the list of their ids.
#[derive(Drop)]
pub struct QueueNumbers {
    ids: Vec<u64>,
}

impl Model for QueueNumbers {
    ghost use Rattle.std.specs.Prelude.{List, ℕ, ◌≤◌, length, vec_capacity};
    ghost use Rattle.scx_explore_states.specs.Words.{most_queues};

    ghost Value = { List ℕ };

    ghost view = { λ n. n.ids.items };

    ghost invariant = { λ n. (length n.ids.items ≤ most_queues) × (most_queues ≤ vec_capacity n.ids) };
}

impl QueueNumbers {
    /// No task was met in any queue.
    pub fn new(alloc: Global) -> Result<QueueNumbers, AllocError>
        ensures { IfOk result (λ numbers. numbers ≡ []) }
    {
        Ok(QueueNumbers {
            ids: Vec::with_capacity(alloc, MOST_QUEUES)?,
        })
    }

    /// Gives a number to the queue in which a task waits or is parked, if it is in one.
    pub fn meet(&mut self, entry: Option<Entry>)
        ensures { self.new ≡ met self.old entry }
    {
        if let Some(entry) = entry {
            self.add(entry.queue);
        }
    }

    /// The queue has a number from now on.
    fn add(&mut self, id: u64)
        ensures { self.new ≡ added self.old id }
    {
        let number = position_in(&self.ids, id);
        if number == self.ids.len() && number < MOST_QUEUES {
            self.ids.push_reserved(id);
        }
    }

    /// The number of queues that have a number.
    pub fn len(&self) -> usize
        ensures count { result ≡ length self.now }
        ensures few { result ≤ most_queues }
    {
        self.ids.len()
    }

    /// True if each queue that has a number in `others` has one here.
    pub fn has_all(&self, others: &QueueNumbers) -> bool
        ensures { result ≡ true → HasNumbers self.now others.now }
    {
        have_numbers(&self.ids, &others.ids)
    }

    /// The number of the queue, which is the next one where no task was met there.
    pub(crate) fn number_of(&self, id: u64) -> usize
        ensures number { result ≡ number_in self.now id }
        ensures few { result ≤ most_queues }
    {
        position_in(&self.ids, id)
    }
}

/// True if each of the others is in the list.
fn have_numbers(ids: &[u64], others: &[u64]) -> bool
    ensures { result ≡ true → HasNumbers ids.now others.now }
{
    for at in 0..others.len() {
        if !is_among(ids, others[at]) {
            return false;
        }
    }
    true
}

/// True if the number is in the list.
fn is_among(ids: &[u64], id: u64) -> bool
    ensures { result ≡ true → number_in ids.now id < length ids.now }
{
    position_in(ids, id) < ids.len()
}

/// The first place of the number in the list, or the list's end.
fn position_in(ids: &[u64], id: u64) -> usize
    ensures number { result ≡ number_in ids.now id }
    ensures within { result ≤ length ids.now }
{
    match found_in(ids, id) {
        Some(number) => number,
        None => ids.len(),
    }
}

fn found_in(ids: &[u64], id: u64) -> Option<usize>
    ensures at { result ≡ position (λ other. other == id) ids.now }
    ensures within { IfSome result (λ number. number < length ids.now) }
{
    ids.iter().position(|other| *other == id)
}
