ghost use Rattle.std.specs.Prelude.{◌≡◌, true, false, None, Some, option_map};
ghost use Rattle.scx_explore_findings.specs.Counting.{Counts};
ghost use Rattle.scx_explore_findings.specs.Findings.{begun_after, begun_after_insert, begun_after_run, begun_in_queue, once_more};

use crate::finding::Pair;
use scx_sched::{Note, Sink, What};
use scx_sched_world::PARKED;

/// Counts how often one task began to run since another one waits, up to two.
#[derive(Drop)]
pub(crate) struct Count {
    pub(crate) pair: Pair,
    /// None while that task doesn't wait. A parked task doesn't.
    pub(crate) begun: Option<u64>,
}

impl Count {
    /// The first task of the pair doesn't wait yet.
    pub(crate) fn of(pair: Pair) -> Count
        ensures pair { result.pair ≡ pair }
        ensures begun { result.begun ≡ None }
    {
        Count { pair, begun: None }
    }

    /// True if it waits, and the other one began to run twice meanwhile.
    pub(crate) fn is_twice(&self) -> bool
        ensures { result ≡ true → self.now.begun ≡ Some 2 }
    {
        match self.begun {
            Some(count) => count == 2,
            None => false,
        }
    }
}

/// Counts the runs of the second task after that, while the first one waits.
fn begun_after(pair: Pair, begun: Option<u64>, what: What) -> Option<u64>
    ensures { result ≡ begun_after pair begun what }
{
    match what {
        What::Insert(task, queue) => begun_after_insert(pair, begun, task, queue),
        What::Sleep(task) => { if task == pair.waits { None } else { begun } }
        What::Run(task, _) => begun_after_run(pair, begun, task),
        What::Wake(_)
        | What::Move(_, _)
        | What::Stop(_, _)
        | What::Idle(_)
        | What::Weight(_, _)
        | What::TaskWeight(_, _)
        | What::Stall(_)
        | What::Fault(_)
        | What::Exit(_) => begun,
    }
}

fn begun_after_insert(pair: Pair, begun: Option<u64>, task: u16, queue: u64) -> Option<u64>
    ensures { result ≡ begun_after_insert pair begun task queue }
{
    if task == pair.waits {
        begun_in_queue(begun, queue)
    } else {
        begun
    }
}

/// The count once the task that waits came into that queue. It is parked there, or it waits.
fn begun_in_queue(begun: Option<u64>, queue: u64) -> Option<u64>
    ensures { result ≡ begun_in_queue begun queue }
{
    if queue == PARKED {
        return None;
    }
    match begun {
        Some(count) => Some(count),
        None => Some(0),
    }
}

fn begun_after_run(pair: Pair, begun: Option<u64>, task: u16) -> Option<u64>
    ensures { result ≡ begun_after_run pair begun task }
{
    if task == pair.waits {
        None
    } else if task == pair.runs {
        once_more(begun)
    } else {
        begun
    }
}

/// One more, up to two, if there is a number.
fn once_more(begun: Option<u64>) -> Option<u64>
    ensures { result ≡ option_map once_more begun }
{
    match begun {
        Some(count) if count < 2 => Some(count + 1),
        Some(count) => Some(count),
        None => None,
    }
}

impl Sink for Count {
    ghost takes = { Counts };

    ghost has_failed = { λ s. false };

    ghost failed_stays = { λ s t n failed takes. takes.0 failed };

    fn take(&mut self, note: Note) {
        self.begun = begun_after(self.pair, self.begun, note.what);
    }

    fn failed(&self) -> bool {
        false
    }
}
