ghost use Rattle.std.specs.Prelude.{◌≡◌, ◌-◌, ◌≤◌, length, None, IfOk, IsTrue};
ghost use Rattle.scx_dsq.specs.declared.entries.Rank.TheVariants.{Fifo};
ghost use Rattle.scx_dsq.specs.Entries.{same_sort};
ghost use Rattle.scx_dsq.specs.Heaps.{IsCheap};
ghost use Rattle.scx_dsq.specs.Kept.{front_in, len_in, sort_in, mixes, CanLink, with_linked, CanInsert, Inserted, CanTakeOut, TakenOut, CanLeave, Left, IsCopy, blank};
ghost use Rattle.scx_dsq.specs.Links.{link_at, links_linked};

use crate::entries::Rank;
use crate::heap::{Heap, Item};
use crate::links::{Ends, Link, append, prepend, unlink, unlink_first};
use crate::steps::Steps;
use std::alloc::{AllocError, Global};
use std::sync::ledger::Ledger;

/// A queue that was created. Its tasks are threaded between its ends if they wait in FIFO order, and
/// are in its heap if they wait by virtual time.
#[derive(Drop)]
pub struct Queue {
    pub id: u64,
    pub ends: Ends,
    pub heap: Heap,
}

impl Queue {
    /// Has the id and the tasks of the other one in place of its own.
    pub fn copy_from(&mut self, other: &Queue)
        requires { length other.now.heap.items ≤ self.old.heap.room }
        ensures { IsCopy self.old other.now self.new }
    {
        self.id = other.id;
        self.ends = other.ends;
        self.heap.copy_from(&other.heap);
    }

    /// A copy of the queue, in memory of its own with room for that many tasks.
    pub fn duplicate(&self, alloc: Global, tasks: usize) -> Result<Queue, AllocError>
        requires { length self.now.heap.items ≤ tasks }
        ensures { IfOk result (λ copy. IsCopy (blank tasks) self.now copy) }
    {
        let heap = self.heap.duplicate(alloc, tasks)?;
        Ok(Queue {
            id: self.id,
            ends: self.ends,
            heap,
        })
    }

    pub fn front(&self) -> Option<u32>
        ensures { result ≡ front_in self.now }
    {
        match self.ends.first.get() {
            Some(task) => Some(task),
            None => self.heap.front(),
        }
    }

    pub fn len(&self) -> usize
        ensures { result ≡ len_in self.now }
    {
        match self.ends.first.get() {
            Some(_) => self.ends.count,
            None => self.heap.len(),
        }
    }

    /// The sort of rank of the tasks that wait in it.
    #[inline(always)]
    pub fn sort(&self) -> Rank
        ensures { result ≡ sort_in self.now }
    {
        match self.ends.first.get() {
            Some(_) => Rank::Fifo,
            None => Rank::Vtime(0),
        }
    }

    /// True if tasks wait in it in the other order.
    pub fn clashes(&self, rank: Rank) -> bool
        ensures { result ≡ mixes rank self.now }
    {
        match rank {
            Rank::Fifo | Rank::Front => self.heap.front().is_some(),
            Rank::Vtime(_) => self.ends.first.get().is_some(),
        }
    }
}

/// Puts a task into a queue in FIFO order: at its front by that rank, else at its end.
#[inline(always)]
pub fn link_in(links: &mut [Link], queue: &mut Queue, task: u32, rank: Rank)
    requires { CanLink links.old queue.old task }
    ensures queue { queue.new ≡ with_linked rank queue.old task }
    ensures links { links.new ≡ links_linked rank links.old queue.old.ends task }
{
    match rank {
        Rank::Front => prepend(links, &mut queue.ends, task),
        Rank::Fifo | Rank::Vtime(_) => append(links, &mut queue.ends, task),
    }
}

/// Puts an item into the heap of a queue by virtual time.
pub fn insert_into<L: Ledger>(
    spots: &mut [usize],
    queue: &mut Queue,
    item: Item,
    steps: &mut Steps<L>,
)
    requires { CanInsert spots.old queue.old item }
    ensures entered { Inserted spots.old queue.old item spots.new queue.new }
    ensures cost { IsCheap queue.old.heap.items queue.new.heap.items (steps.new - steps.old) }
    ensures more { steps.old ≤ steps.new }
{
    queue.heap.insert(spots, item, steps);
}

/// Takes a task out of the queue where it waits by that rank.
pub fn leave<L: Ledger>(
    links: &mut [Link],
    spots: &mut [usize],
    queue: &mut Queue,
    task: u32,
    rank: Rank,
    steps: &mut Steps<L>,
)
    requires { CanLeave rank links.old spots.old queue.old task }
    ensures left { Left rank links.old spots.old queue.old task links.new spots.new queue.new }
    ensures cost { IsCheap queue.old.heap.items queue.new.heap.items (steps.new - steps.old) }
    ensures fifo { IsTrue (same_sort rank Fifo) → steps.new ≡ steps.old }
    ensures more { steps.old ≤ steps.new }
{
    match rank {
        Rank::Fifo | Rank::Front => unlink(links, &mut queue.ends, task),
        Rank::Vtime(_) => leave_heap(spots, queue, task, steps),
    }
}

/// `leave` for a task with none ahead of it in the queue.
#[inline(always)]
pub fn leave_first<L: Ledger>(
    links: &mut [Link],
    spots: &mut [usize],
    queue: &mut Queue,
    task: u32,
    rank: Rank,
    steps: &mut Steps<L>,
)
    requires leave { CanLeave rank links.old spots.old queue.old task }
    requires ahead { IsTrue (same_sort rank Fifo) → (link_at links.old task).ahead ≡ None }
    ensures left { Left rank links.old spots.old queue.old task links.new spots.new queue.new }
    ensures cost { IsCheap queue.old.heap.items queue.new.heap.items (steps.new - steps.old) }
    ensures fifo { IsTrue (same_sort rank Fifo) → steps.new ≡ steps.old }
    ensures more { steps.old ≤ steps.new }
{
    match rank {
        Rank::Fifo | Rank::Front => unlink_first(links, &mut queue.ends, task),
        Rank::Vtime(_) => leave_heap(spots, queue, task, steps),
    }
}

/// Takes a task out of the heap of a queue. A function of its own, since what it does would slow a
/// FIFO queue down that it were compiled into.
#[inline(never)]
fn leave_heap<L: Ledger>(spots: &mut [usize], queue: &mut Queue, task: u32, steps: &mut Steps<L>)
    requires { CanTakeOut spots.old queue.old task }
    ensures taken { TakenOut spots.old queue.old task spots.new queue.new }
    ensures cost { IsCheap queue.old.heap.items queue.new.heap.items (steps.new - steps.old) }
    ensures more { steps.old ≤ steps.new }
{
    queue.heap.remove(spots, task, steps);
}
