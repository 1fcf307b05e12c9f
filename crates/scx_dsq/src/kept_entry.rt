ghost use Rattle.std.specs.Prelude.{◌≡◌, IsTrue};
ghost use Rattle.scx_dsq.specs.declared.entries.Entry.{Entry};
ghost use Rattle.scx_dsq.specs.declared.entries.Rank.TheVariants.{Fifo};
ghost use Rattle.scx_dsq.specs.Entries.{keyless, same_sort};
ghost use Rattle.scx_dsq.specs.KeptEntries.{rank_of, way_of};
ghost use Rattle.scx_dsq.specs.Holdings.{entry_for};

use crate::entries::{Entry, Rank};
use crate::priority::Priority;
use crate::steps::Steps;
use std::marker::Model;
use std::sync::ledger::Ledger;

/// The way by which a task came into its queue.
#[derive(Clone, Copy)]
pub enum Way {
    AtEnd,
    AtFront,
    ByVtime,
}

/// An entry as the queues keep it. Its key and its stamp are a `Priority`, which only the counted call
/// compares.
#[derive(Clone, Copy)]
pub struct KeptEntry {
    queue: u64,
    way: Way,
    priority: Priority,
}

impl Model for KeptEntry {
    ghost use Rattle.scx_dsq.specs.declared.entries.Entry.{Entry};

    ghost Value = { Entry };

    ghost use Rattle.scx_dsq.specs.KeptEntries.{entry_in, HasKeyOfWay, entry_kept, entry_back};

    ghost view = { entry_in };

    ghost invariant = { HasKeyOfWay };

    ghost inverse = { entry_kept };

    ghost inverse_ok = { entry_back };
}

impl KeptEntry {
    /// The entry of a task in a FIFO queue. Its key is 0.
    #[inline(always)]
    pub fn in_order(queue: u64, rank: Rank, stamp: u64) -> KeptEntry
        requires { IsTrue (same_sort rank Fifo) }
        ensures { result ≡ record { queue = queue; rank = rank; stamp = stamp } }
    {
        KeptEntry {
            queue,
            way: way_in_order(rank),
            priority: Priority::new(0, stamp),
        }
    }

    /// The entry of a task in a queue by virtual time.
    #[inline(always)]
    pub fn vtime(queue: u64, priority: Priority) -> KeptEntry
        ensures { result ≡ entry_for queue priority }
    {
        KeptEntry {
            queue,
            way: Way::ByVtime,
            priority,
        }
    }

    /// The queue in which the task waits.
    #[inline(always)]
    pub fn queue(self) -> u64
        ensures { result ≡ self.queue }
    {
        self.queue
    }

    /// A rank of the entry's sort. Its key is 0.
    #[inline(always)]
    pub fn sort(self) -> Rank
        ensures { result ≡ keyless self.rank }
    {
        rank_by(self.way, 0)
    }

    /// The entry with its key and its stamp as numbers. Nothing counts how these are compared, so the call
    /// takes a counter away.
    #[inline(always)]
    pub fn entry<L: Ledger>(self, steps: Steps<L>) -> Entry
        ensures { result ≡ self }
    {
        let (key, stamp) = self.priority.numbers(steps);
        Entry {
            queue: self.queue,
            rank: rank_by(self.way, key),
            stamp,
        }
    }
}

/// The way by which a task of that rank comes into a FIFO queue.
#[inline(always)]
fn way_in_order(rank: Rank) -> Way
    requires { IsTrue (same_sort rank Fifo) }
    ensures { result ≡ way_of rank }
{
    match rank {
        Rank::Front => Way::AtFront,
        _ => Way::AtEnd,
    }
}

/// The rank of an entry by that way with that key.
#[inline(always)]
fn rank_by(way: Way, key: u64) -> Rank
    ensures { result ≡ rank_of way key }
{
    match way {
        Way::AtEnd => Rank::Fifo,
        Way::AtFront => Rank::Front,
        Way::ByVtime => Rank::Vtime(key),
    }
}
