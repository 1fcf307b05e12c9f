ghost use Rattle.std.specs.Prelude.{◌≡◌, ◌+◌, ◌-◌, ◌*◌, ◌<◌, ◌≤◌, [], ◌∷◌, ◌++◌, length, true, false, IfSome, IfNone, IfOk};
ghost use Rattle.std.specs.List.Sorted.{IsPermutation};
ghost use Rattle.scx_dsq.specs.Heaps.{IsHeap, IsHeapBut, IsHeapAround, IsFirstChild, Fell, Rose, Settled, IsCheap, HasSpots, IsAbsent, IsIn, KeepsOthers, first_item, with_item, with_spot};

use crate::priority::Priority;
use crate::steps::Steps;
use std::alloc::{AllocError, Global};
use std::marker::Model;
use std::sync::ledger::Ledger;

/// A task that waits by virtual time.
#[derive(Clone, Copy)]
pub struct Item {
    pub task: u32,
    pub priority: Priority,
}

/// The tasks of one queue by virtual time. It never takes more memory than it was made with.
#[derive(Drop)]
pub struct Heap {
    items: Vec<Item>,
}

impl Model for Heap {
    ghost use Rattle.std.specs.Prelude.{vec_capacity};
    ghost use Rattle.scx_dsq.specs.Heaps.{HeapState};

    ghost Value = { HeapState };

    ghost view = { λ h. record { room = vec_capacity h.items; items = h.items.items } };
}

impl Heap {
    pub fn new(alloc: Global, room: usize) -> Result<Heap, AllocError>
        ensures { IfOk result (λ heap. heap ≡ record { room = room; items = [] }) }
    {
        Ok(Heap {
            items: Vec::with_capacity(alloc, room)?,
        })
    }

    /// A copy of the heap, in memory of its own with at least that much room.
    pub fn duplicate(&self, alloc: Global, room: usize) -> Result<Heap, AllocError>
        requires { length self.now.items ≤ room }
        ensures items { IfOk result (λ copy. copy.items ≡ self.now.items) }
        ensures room { IfOk result (λ copy. room ≤ copy.room) }
    {
        let mut copy = Heap::new(alloc, room)?;
        copy.copy_from(self);
        Ok(copy)
    }

    /// Holds the items of the other one in place of its own. No memory is taken.
    pub fn copy_from(&mut self, other: &Heap)
        requires { length other.now.items ≤ self.old.room }
        ensures items { self.new.items ≡ other.now.items }
        ensures room { self.old.room ≤ self.new.room }
    {
        self.items.clear();
        if other.items.is_empty() {
            return;
        }
        match self.items.extend_from_slice(&other.items) {
            Ok(()) => (),
            Err(_) => unreachable!(),
        }
    }

    pub fn len(&self) -> usize
        ensures { result ≡ length self.now.items }
    {
        self.items.len()
    }

    /// The items, in the order of the array.
    pub fn items(&self) -> &[Item]
        ensures { result.now ≡ self.now.items }
    {
        &self.items
    }

    pub fn front(&self) -> Option<u32>
        ensures { result ≡ first_item self.now.items }
    {
        match self.items.first() {
            Some(item) => Some(item.task),
            None => None,
        }
    }

    /// Puts an item into the heap, whose task isn't there.
    pub fn insert<L: Ledger>(&mut self, spots: &mut [usize], item: Item, steps: &mut Steps<L>)
        requires room { length self.old.items < self.old.room }
        requires task { item.task < length spots.old }
        requires absent { IsAbsent self.old.items item.task }
        requires spots { HasSpots self.old.items spots.old }
        requires heap { IsHeap self.old.items }
        ensures heap { IsHeap self.new.items }
        ensures spots { HasSpots self.new.items spots.new }
        ensures others { KeepsOthers (self.old.items ++ item ∷ []) spots.old spots.new }
        ensures same { IsPermutation (self.old.items ++ item ∷ []) self.new.items }
        ensures room { self.new.room ≡ self.old.room }
        ensures cost { IsCheap self.old.items self.new.items (steps.new - steps.old) }
        ensures more { steps.old ≤ steps.new }
    {
        let last = self.items.len();
        self.items.push_reserved(item);
        rise_with(&mut self.items, spots, item, last, steps);
    }

    /// Takes out a task that is there, and answers its item.
    pub fn remove<L: Ledger>(
        &mut self,
        spots: &mut [usize],
        task: u32,
        steps: &mut Steps<L>,
    ) -> Item
        requires task { IsIn self.old.items task }
        requires spots { HasSpots self.old.items spots.old }
        requires heap { IsHeap self.old.items }
        ensures task { result.task ≡ task }
        ensures heap { IsHeap self.new.items }
        ensures spots { HasSpots self.new.items spots.new }
        ensures others { KeepsOthers self.old.items spots.old spots.new }
        ensures same { IsPermutation self.old.items (result ∷ self.new.items) }
        ensures gone { IsAbsent self.new.items task }
        ensures room { self.new.room ≡ self.old.room }
        ensures cost { IsCheap self.old.items self.new.items (steps.new - steps.old) }
        ensures more { steps.old ≤ steps.new }
    {
        let at = spots[task as usize];
        let item = self.items.swap_remove(at);
        if at < self.items.len() {
            spots[self.items[at].task as usize] = at;
            settle(&mut self.items, spots, at, steps);
        }
        item
    }
}

/// Lets the item at a position go where it belongs: down to the end without being asked, and then up.
fn settle<L: Ledger>(items: &mut [Item], spots: &mut [usize], at: usize, steps: &mut Steps<L>)
    requires within { at < length items.old }
    requires spots { HasSpots items.old spots.old }
    requires heap { IsHeapAround items.old at }
    ensures heap { IsHeap items.new }
    ensures spots { HasSpots items.new spots.new }
    ensures others { KeepsOthers items.old spots.old spots.new }
    ensures same { IsPermutation items.old items.new }
    ensures cost { Settled items.old items.new at (steps.new - steps.old) }
    ensures more { steps.old ≤ steps.new }
{
    let item = items[at];
    let hole = make_way_to_end(items, spots, item, at, steps);
    rise_with(items, spots, item, hole, steps);
}

/// Lets an item that belongs at a position rise from there until none leaves before its parent.
#[inline(always)]
fn rise_with<L: Ledger>(
    items: &mut [Item],
    spots: &mut [usize],
    item: Item,
    start: usize,
    steps: &mut Steps<L>,
)
    requires within { start < length items.old }
    requires spots { HasSpots (with_item items.old item start) (with_spot spots.old item start) }
    requires heap { IsHeapBut (with_item items.old item start) start }
    ensures heap { IsHeap items.new }
    ensures spots { HasSpots items.new spots.new }
    ensures others { KeepsOthers (with_item items.old item start) (with_spot spots.old item start)
        spots.new }
    ensures same { IsPermutation (with_item items.old item start) items.new }
    ensures cost { Rose (with_item items.old item start) items.new start (steps.new - steps.old) }
    ensures more { steps.old ≤ steps.new }
{
    let at = make_way_up(items, spots, item, start, steps);
    put(items, spots, item, at);
}

/// Moves those above a position down before which the item leaves, and answers the position left for it.
fn make_way_up<L: Ledger>(
    items: &mut [Item],
    spots: &mut [usize],
    item: Item,
    start: usize,
    steps: &mut Steps<L>,
) -> usize
    requires within { start < length items.old }
    requires spots { HasSpots (with_item items.old item start) (with_spot spots.old item start) }
    requires heap { IsHeapBut (with_item items.old item start) start }
    ensures within { result < length items.new }
    ensures heap { IsHeap (with_item items.new item result) }
    ensures spots { HasSpots (with_item items.new item result) (with_spot spots.new item result) }
    ensures others { KeepsOthers (with_item items.old item start) (with_spot spots.old item start)
        (with_spot spots.new item result) }
    ensures same { IsPermutation (with_item items.old item start)
        (with_item items.new item result) }
    ensures cost { Rose (with_item items.old item start) (with_item items.new item result) start
        (steps.new - steps.old) }
    ensures more { steps.old ≤ steps.new }
{
    let mut at = start;
    while at > 0 {
        let up = (at - 1) / 2;
        let other = items[up];
        if !item.priority.is_before(other.priority, steps) {
            break;
        }
        put(items, spots, other, at);
        at = up;
    }
    at
}

/// Moves the first of the children of a position up, as long as there are any, and answers the position
/// left for the item.
fn make_way_to_end<L: Ledger>(
    items: &mut [Item],
    spots: &mut [usize],
    item: Item,
    start: usize,
    steps: &mut Steps<L>,
) -> usize
    requires within { start < length items.old }
    requires spots { HasSpots (with_item items.old item start) (with_spot spots.old item start) }
    requires heap { IsHeapAround (with_item items.old item start) start }
    ensures within { result < length items.new }
    ensures heap { IsHeapBut (with_item items.new item result) result }
    ensures spots { HasSpots (with_item items.new item result) (with_spot spots.new item result) }
    ensures others { KeepsOthers (with_item items.old item start) (with_spot spots.old item start)
        (with_spot spots.new item result) }
    ensures same { IsPermutation (with_item items.old item start)
        (with_item items.new item result) }
    ensures cost { Fell (with_item items.old item start) (with_item items.new item result) start
        result (steps.new - steps.old) }
    ensures more { steps.old ≤ steps.new }
{
    let mut at = start;
    while let Some(child) = first_child(items, at, steps) {
        let other = items[child];
        put(items, spots, other, at);
        at = child;
    }
    at
}

/// Puts an item at a position, and so its task's spot.
fn put(items: &mut [Item], spots: &mut [usize], item: Item, at: usize)
    requires within { at < length items.old }
    requires task { item.task < length spots.old }
    ensures items { items.new ≡ with_item items.old item at }
    ensures spots { spots.new ≡ with_spot spots.old item at }
{
    items[at] = item;
    spots[item.task as usize] = at;
}

/// The child of a position that leaves first.
fn first_child<L: Ledger>(items: &[Item], at: usize, steps: &mut Steps<L>) -> Option<usize>
    requires within { at < length items.now }
    ensures child { IfSome result (IsFirstChild items.now at) }
    ensures none { IfNone result (length items.now ≤ 2 * at + 1) }
    ensures cost { IfSome result (λ c. steps.new ≤ steps.old + 1) }
    ensures free { IfNone result (steps.new ≡ steps.old) }
    ensures more { steps.old ≤ steps.new }
{
    let left = 2 * at + 1;
    let right = left + 1;
    if left >= items.len() {
        return None;
    }
    if right < items.len() && items[right].priority.is_before(items[left].priority, steps) {
        Some(right)
    } else {
        Some(left)
    }
}
