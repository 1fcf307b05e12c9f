ghost use Rattle.std.specs.Prelude.{◌≡◌, ◌≢◌, ℕ, ◌+◌, ◌-◌, ◌^◌, ◌<◌, ◌≤◌, ◌==◌, [], ◌∷◌, ◌++◌, map, length, vec_capacity, true, false, is_some, is_ok, slice_get, slice_index_or, All, HoldsAt, Some, IsSome, IfSome, IfNone, IfOk, IfErr, OnOk, OnErr, IsTrue};
ghost use Rattle.std.specs.List.{list_any};
ghost use Rattle.scx_dsq.specs.declared.entries.Entry.{Entry};
ghost use Rattle.scx_dsq.specs.declared.entries.Rank.TheVariants.{Fifo, Front, Vtime};
ghost use Rattle.scx_dsq.specs.Entries.{same_sort};
ghost use Rattle.scx_dsq.specs.Queues.{IsQueueAt, Waits, IsFront, exists, task_count, entry_of, queue_of, len_of, front_of, behind_of};
ghost use Rattle.scx_dsq.specs.Calls.{refused_or_done, create_refusal, after_create, clashes, push_refusal, after_push, without_task, after_remove, after_pop, empty};
ghost use Rattle.scx_dsq.specs.Laws.{HasOneOfEach, WaitsInAQueue, HasOneSort, IsStamped, HasOwnStamps, StandsInSoMany};
ghost use Rattle.scx_dsq.specs.Arrays.{IsPaid};
ghost use Rattle.scx_dsq.specs.Holdings.{HasArrays};
ghost use Rattle.scx_dsq.specs.Order.{IsOrder, IsGap};
ghost use Rattle.scx_dsq.specs.Kept.{ids_of, IsAdmitted, IsRefused, AreCopies, AreSame, HaveRoomFor};

use crate::entries::{Entry, Rank};
use crate::errors::QueueError;
use crate::heap::{Heap, Item};
use crate::kept_entry::KeptEntry;
use crate::links::{Ends, Link};
use crate::priority::Priority;
use crate::queue::{Queue, insert_into, leave, leave_first, link_in};
use crate::steps::Steps;
use std::alloc::{AllocError, Global};
use std::marker::Model;
use std::sync::ledger::Ledger;

/// The number of hashes of ids.
const HASHES: usize = 256;

/// Dispatch queues, and where each task waits.
///
/// In a contract it is two things. Its state is how many queues there may be, the ids of those that were
/// created, for each task its entry or none, and how many pushes were accepted. Beside it are the arrays
/// of the queues by virtual time. Tasks are numbered from 0.
#[derive(Drop)]
pub struct Queues {
    pub(crate) live: Vec<Queue>,
    /// The indices of the queues in `live`, those of lesser ids first.
    order: Vec<usize>,
    /// Empty heaps for queues to come.
    spare: Vec<Heap>,
    entries: Vec<Option<KeptEntry>>,
    /// For each task, its neighbours in a FIFO queue.
    pub(crate) links: Vec<Link>,
    /// For each task, its index in the array of a queue by virtual time.
    spots: Vec<usize>,
    /// For each hash of an id, the index of its queue in `live`, or of another id's.
    guesses: [usize; HASHES],
    pushes: u64,
}

impl Model for Queues {
    ghost use Rattle.scx_dsq.specs.Arrays.{QueuesValue};

    ghost Value = { QueuesValue };

    ghost use Rattle.scx_dsq.specs.Kept.{value_of, IsKept};

    ghost view = { value_of };

    ghost invariant = { IsKept };
}

impl Queues {
    /// Room for that many queues and for tasks of that many numbers; no queue is there yet. All memory
    /// is taken here.
    pub fn new(alloc: Global, queues: usize, tasks: usize) -> Result<Queues, AllocError>
        ensures empty { IfOk result (λ made. made.state ≡ empty queues tasks) }
        ensures tasks { IfOk result (λ made. task_count made.state ≡ tasks) }
        ensures arrays { IfOk result (λ made. made.arrays ≡ []) }
    {
        Ok(Queues {
            live: Vec::with_capacity(alloc, queues)?,
            order: Vec::with_capacity(alloc, queues)?,
            spare: spare_heaps(alloc, queues, tasks)?,
            entries: vec![in alloc; None; tasks]?,
            links: vec![in alloc; Link::none(); tasks]?,
            spots: vec![in alloc; 0; tasks]?,
            guesses: [0; HASHES],
            pushes: 0,
        })
    }

    /// Adds an empty queue: `AlreadyThere` if one has the id, else `TooManyQueues` if there is no room.
    pub fn create(&mut self, id: u64) -> Result<(), QueueError>
        ensures answer { result ≡ refused_or_done (create_refusal self.old.state id) }
        ensures state { self.new.state ≡ after_create self.old.state id }
        ensures arrays { OnOk result (self.new.arrays ≡ self.old.arrays ++ [] ∷ []) }
        ensures unchanged { OnErr result (self.new ≡ self.old) }
        ensures tasks { task_count self.new.state ≡ task_count self.old.state }
        ensures pushes { self.new.state.pushes ≡ self.old.state.pushes }
    {
        let Err(gap) = search(&self.live, &self.order, id) else {
            return Err(QueueError::AlreadyThere);
        };
        let Some(heap) = self.spare.pop() else {
            return Err(QueueError::TooManyQueues);
        };
        match self.order.insert(gap, self.live.len()) {
            Ok(()) => (),
            Err(_) => unreachable!(),
        }
        self.guesses[hash_of(id)] = self.live.len();
        self.live.push_reserved(Queue {
            id,
            ends: Ends::none(),
            heap,
        });
        Ok(())
    }

    /// Puts a task at the end of a FIFO queue: `NoSuchQueue`, `AlreadyThere` if the task waits in any
    /// queue, `Mixed` if tasks wait in this one by virtual time.
    pub fn push_fifo(&mut self, id: u64, task: u32) -> Result<(), QueueError>
        requires task { task < task_count self.old.state }
        requires few { self.old.state.pushes < 2 ^ 63 }
        ensures answer { result ≡ refused_or_done (push_refusal self.old.state id task Fifo) }
        ensures state { self.new.state ≡ after_push self.old.state id task Fifo }
        ensures arrays { self.new.arrays ≡ self.old.arrays }
        ensures unchanged { OnErr result (self.new ≡ self.old) }
        ensures tasks { task_count self.new.state ≡ task_count self.old.state }
        ensures pushes { self.new.state.pushes ≤ self.old.state.pushes + 1 }
    {
        match self.place(id) {
            Some(place) => self.push_fifo_at(place, id, task),
            None => Err(QueueError::NoSuchQueue),
        }
    }

    /// Puts a task at the front of a FIFO queue, before all that wait there: `NoSuchQueue`, `AlreadyThere`
    /// if the task waits in any queue, `Mixed` if tasks wait in this one by virtual time.
    pub fn push_front(&mut self, id: u64, task: u32) -> Result<(), QueueError>
        requires task { task < task_count self.old.state }
        requires few { self.old.state.pushes < 2 ^ 63 }
        ensures answer { result ≡ refused_or_done (push_refusal self.old.state id task Front) }
        ensures state { self.new.state ≡ after_push self.old.state id task Front }
        ensures arrays { self.new.arrays ≡ self.old.arrays }
        ensures unchanged { OnErr result (self.new ≡ self.old) }
        ensures tasks { task_count self.new.state ≡ task_count self.old.state }
        ensures pushes { self.new.state.pushes ≤ self.old.state.pushes + 1 }
    {
        match self.place(id) {
            Some(place) => self.push_front_at(place, id, task),
            None => Err(QueueError::NoSuchQueue),
        }
    }

    /// The place of the queue of that id among all, in the order in which they were created. It stays there.
    #[inline(always)]
    pub fn place(&self, id: u64) -> Option<usize>
        ensures found { is_some result ≡ exists self.now.state id }
        ensures at { IfSome result (λ k. IsQueueAt self.now.state k id) }
        ensures nobody { IfNone result ((t : ℕ) (p : Entry) → ¬ Waits self.now.state id t p) }
    {
        find(&self.live, &self.order, &self.guesses, id)
    }

    /// `front` of the queue of that id, which is at that place.
    #[inline(always)]
    pub fn front_at(&self, place: usize, id: u64) -> Option<u32>
        requires { IsQueueAt self.now.state place id }
        ensures answer { result ≡ front_of self.now.state id }
        ensures known { IfSome result (λ t. t < task_count self.now.state) }
        ensures first { IfSome result (IsFront self.now.state id) }
        ensures empty { IfNone result ((t : ℕ) (p : Entry) → ¬ Waits self.now.state id t p) }
    {
        self.live[place].front()
    }

    /// `len` of the queue of that id, which is at that place.
    #[inline(always)]
    pub fn len_at(&self, place: usize, id: u64) -> usize
        requires { IsQueueAt self.now.state place id }
        ensures { result ≡ len_of self.now.state id }
    {
        self.live[place].len()
    }

    /// `would_mix` of the queue of that id, which is at that place.
    #[inline(always)]
    pub fn clashes_at(&self, place: usize, id: u64, rank: Rank) -> bool
        requires { IsQueueAt self.now.state place id }
        ensures { result ≡ list_any (clashes id rank) self.now.state.entries }
    {
        self.live[place].clashes(rank)
    }

    /// `push_fifo` of the queue of that id, which is at that place.
    #[inline(always)]
    pub fn push_fifo_at(&mut self, place: usize, id: u64, task: u32) -> Result<(), QueueError>
        requires place { IsQueueAt self.old.state place id }
        requires task { task < task_count self.old.state }
        requires few { self.old.state.pushes < 2 ^ 63 }
        ensures answer { result ≡ refused_or_done (push_refusal self.old.state id task Fifo) }
        ensures state { self.new.state ≡ after_push self.old.state id task Fifo }
        ensures arrays { self.new.arrays ≡ self.old.arrays }
        ensures unchanged { OnErr result (self.new ≡ self.old) }
        ensures tasks { task_count self.new.state ≡ task_count self.old.state }
        ensures pushes { self.new.state.pushes ≤ self.old.state.pushes + 1 }
    {
        self.push_in_order_at(place, id, task, Rank::Fifo)
    }

    /// `push_front` of the queue of that id, which is at that place.
    #[inline(always)]
    pub fn push_front_at(&mut self, place: usize, id: u64, task: u32) -> Result<(), QueueError>
        requires place { IsQueueAt self.old.state place id }
        requires task { task < task_count self.old.state }
        requires few { self.old.state.pushes < 2 ^ 63 }
        ensures answer { result ≡ refused_or_done (push_refusal self.old.state id task Front) }
        ensures state { self.new.state ≡ after_push self.old.state id task Front }
        ensures arrays { self.new.arrays ≡ self.old.arrays }
        ensures unchanged { OnErr result (self.new ≡ self.old) }
        ensures tasks { task_count self.new.state ≡ task_count self.old.state }
        ensures pushes { self.new.state.pushes ≤ self.old.state.pushes + 1 }
    {
        self.push_in_order_at(place, id, task, Rank::Front)
    }

    /// Puts a task by that rank into the FIFO queue of that id, which is at that place.
    #[inline(always)]
    fn push_in_order_at(
        &mut self,
        place: usize,
        id: u64,
        task: u32,
        rank: Rank,
    ) -> Result<(), QueueError>
        requires order { IsTrue (same_sort rank Fifo) }
        requires place { IsQueueAt self.old.state place id }
        requires task { task < task_count self.old.state }
        requires few { self.old.state.pushes < 2 ^ 63 }
        ensures answer { result ≡ refused_or_done (push_refusal self.old.state id task rank) }
        ensures state { self.new.state ≡ after_push self.old.state id task rank }
        ensures arrays { self.new.arrays ≡ self.old.arrays }
        ensures unchanged { OnErr result (self.new ≡ self.old) }
        ensures tasks { task_count self.new.state ≡ task_count self.old.state }
        ensures pushes { self.new.state.pushes ≤ self.old.state.pushes + 1 }
    {
        admit_at(&self.live, &self.entries, place, id, task, rank)?;
        link_in(&mut self.links, &mut self.live[place], task, rank);
        self.entries[task as usize] = Some(KeptEntry::in_order(id, rank, self.pushes));
        self.pushes += 1;
        Ok(())
    }

    /// `pop` of the queue of that id, which is at that place.
    #[inline(always)]
    pub fn pop_at<L: Ledger>(&mut self, place: usize, id: u64, steps: &mut Steps<L>) -> Option<u32>
        requires { IsQueueAt self.old.state place id }
        ensures answer { result ≡ front_of self.old.state id }
        ensures known { IfSome result (λ t. t < task_count self.old.state) }
        ensures first { IfSome result (IsFront self.old.state id) }
        ensures state { self.new.state ≡ after_pop self.old.state id }
        ensures left { IfSome result (λ t. self.new.state ≡ after_remove self.old.state t) }
        ensures cost { IsPaid self.old self.new id (steps.new - steps.old) }
        ensures more { steps.old ≤ steps.new }
        ensures tasks { task_count self.new.state ≡ task_count self.old.state }
        ensures pushes { self.new.state.pushes ≡ self.old.state.pushes }
    {
        let Some(task) = self.front_at(place, id) else {
            return None;
        };
        self.take_front(place, id, task, steps);
        Some(task)
    }

    /// Puts a task into a queue by virtual time, after those of the same key. Keys compare as unsigned
    /// numbers. `NoSuchQueue`, `AlreadyThere` if the task waits in any queue, `Mixed` if tasks wait in
    /// this one in FIFO order. Comparisons are counted in `steps`.
    pub fn push_vtime<L: Ledger>(
        &mut self,
        id: u64,
        task: u32,
        key: u64,
        steps: &mut Steps<L>,
    ) -> Result<(), QueueError>
        requires task { task < task_count self.old.state }
        requires few { self.old.state.pushes < 2 ^ 63 }
        ensures answer { result
            ≡ refused_or_done (push_refusal self.old.state id task (Vtime key)) }
        ensures state { self.new.state ≡ after_push self.old.state id task (Vtime key) }
        ensures cost { IsPaid self.old self.new id (steps.new - steps.old) }
        ensures unchanged { OnErr result (self.new ≡ self.old) }
        ensures free { OnErr result (steps.new ≡ steps.old) }
        ensures more { steps.old ≤ steps.new }
        ensures tasks { task_count self.new.state ≡ task_count self.old.state }
        ensures pushes { self.new.state.pushes ≤ self.old.state.pushes + 1 }
    {
        let stamp = self.pushes;
        let index = admit(
            &self.live,
            &self.order,
            &self.guesses,
            &self.entries,
            id,
            task,
            Rank::Vtime(key),
        )?;
        let priority = Priority::new(key, stamp);
        let item = Item { task, priority };
        insert_into(&mut self.spots, &mut self.live[index], item, steps);
        self.entries[task as usize] = Some(KeptEntry::vtime(id, priority));
        self.pushes = stamp + 1;
        Ok(())
    }

    /// The id of the queue at that place, in the order in which they were created; none after the last one.
    pub fn id_at(&self, place: usize) -> Option<u64>
        ensures { result ≡ slice_get self.now.state.ids place }
    {
        if place < self.live.len() {
            let id = self.live[place].id;
            Some(id)
        } else {
            None
        }
    }

    /// True if a queue has the id.
    pub fn has(&self, id: u64) -> bool
        ensures { result ≡ exists self.now.state id }
    {
        self.place(id).is_some()
    }

    /// True if tasks wait in the queue in the other order.
    pub fn would_mix(&self, id: u64, rank: Rank) -> bool
        ensures { result ≡ list_any (clashes id rank) self.now.state.entries }
    {
        match self.place(id) {
            Some(place) => self.clashes_at(place, id, rank),
            None => false,
        }
    }

    /// The task that leaves the queue next; none if the queue is empty or isn't there.
    pub fn front(&self, id: u64) -> Option<u32>
        ensures answer { result ≡ front_of self.now.state id }
        ensures known { IfSome result (λ t. t < task_count self.now.state) }
        ensures first { IfSome result (IsFront self.now.state id) }
        ensures empty { IfNone result ((t : ℕ) (p : Entry) → ¬ Waits self.now.state id t p) }
    {
        match self.place(id) {
            Some(place) => self.front_at(place, id),
            None => None,
        }
    }

    /// Takes the front of the queue out and answers it; none if the queue is empty or isn't there.
    /// Comparisons are counted in `steps`.
    pub fn pop<L: Ledger>(&mut self, id: u64, steps: &mut Steps<L>) -> Option<u32>
        ensures answer { result ≡ front_of self.old.state id }
        ensures known { IfSome result (λ t. t < task_count self.old.state) }
        ensures first { IfSome result (IsFront self.old.state id) }
        ensures state { self.new.state ≡ after_pop self.old.state id }
        ensures left { IfSome result (λ t. self.new.state ≡ after_remove self.old.state t) }
        ensures cost { IsPaid self.old self.new id (steps.new - steps.old) }
        ensures more { steps.old ≤ steps.new }
        ensures tasks { task_count self.new.state ≡ task_count self.old.state }
        ensures pushes { self.new.state.pushes ≡ self.old.state.pushes }
    {
        match self.place(id) {
            Some(place) => self.pop_at(place, id, steps),
            None => None,
        }
    }

    /// Takes the task out of the queue in which it waits, and tells whether it waited in any.
    /// Comparisons are counted in `steps`.
    pub fn remove<L: Ledger>(&mut self, task: u32, steps: &mut Steps<L>) -> bool
        requires { task < task_count self.old.state }
        ensures answer { result ≡ is_some (entry_of self.old.state task) }
        ensures state { self.new.state ≡ after_remove self.old.state task }
        ensures cost { IfSome (queue_of self.old.state task)
            (λ id. IsPaid self.old self.new id (steps.new - steps.old)) }
        ensures unchanged { result ≡ false → self.new ≡ self.old }
        ensures free { result ≡ false → steps.new ≡ steps.old }
        ensures more { steps.old ≤ steps.new }
        ensures tasks { task_count self.new.state ≡ task_count self.old.state }
        ensures pushes { self.new.state.pushes ≡ self.old.state.pushes }
    {
        let Some(entry) = self.entries[task as usize] else {
            return false;
        };
        let Some(index) = find(&self.live, &self.order, &self.guesses, entry.queue()) else {
            unreachable!()
        };
        self.take_out(index, task, entry, steps);
        true
    }

    /// Takes out a task that waits by that entry, in the queue at that index in `live`.
    fn take_out<L: Ledger>(
        &mut self,
        index: usize,
        task: u32,
        entry: KeptEntry,
        steps: &mut Steps<L>,
    )
        requires task { task < task_count self.old.state }
        requires place { IsQueueAt self.old.state index entry.queue }
        requires waits { entry_of self.old.state task ≡ Some entry }
        ensures state { self.new.state ≡ without_task self.old.state task }
        ensures cost { IsPaid self.old self.new entry.queue (steps.new - steps.old) }
        ensures more { steps.old ≤ steps.new }
    {
        leave(
            &mut self.links,
            &mut self.spots,
            &mut self.live[index],
            task,
            entry.sort(),
            steps,
        );
        self.entries[task as usize] = None;
    }

    /// Takes out the front of the queue of that id, which is at that place.
    #[inline(always)]
    fn take_front<L: Ledger>(&mut self, place: usize, id: u64, task: u32, steps: &mut Steps<L>)
        requires place { IsQueueAt self.old.state place id }
        requires front { IsFront self.old.state id task }
        ensures state { self.new.state ≡ without_task self.old.state task }
        ensures cost { IsPaid self.old self.new id (steps.new - steps.old) }
        ensures more { steps.old ≤ steps.new }
    {
        let rank = self.live[place].sort();
        leave_first(
            &mut self.links,
            &mut self.spots,
            &mut self.live[place],
            task,
            rank,
            steps,
        );
        self.entries[task as usize] = None;
    }

    /// The number of tasks in the queue; 0 if it isn't there.
    pub fn len(&self, id: u64) -> usize
        ensures { result ≡ len_of self.now.state id }
    {
        match self.place(id) {
            Some(place) => self.len_at(place, id),
            None => 0,
        }
    }

    /// The queue in which the task waits.
    pub fn queue_of(&self, task: u32) -> Option<u64>
        requires { task < task_count self.now.state }
        ensures { result ≡ queue_of self.now.state task }
    {
        match self.entries[task as usize] {
            Some(entry) => Some(entry.queue()),
            None => None,
        }
    }

    /// The task right after this one in its FIFO queue; none after the last, nor after a task that
    /// waits nowhere or by virtual time.
    #[tactic(auto, using(crate::proofs::After::none_after_none))]
    pub fn next_after(&self, task: u32) -> Option<u32>
        requires { task < task_count self.now.state }
        ensures answer { result ≡ behind_of self.now.state task }
        ensures known { IfSome result (λ t. t < task_count self.now.state) }
    {
        match self.entries[task as usize] {
            Some(entry) => self.next_after_entry(task, entry),
            None => None,
        }
    }

    /// The task right after one that waits by that entry.
    #[tactic(auto, using(crate::proofs::After::none_after_vtime))]
    fn next_after_entry(&self, task: u32, entry: KeptEntry) -> Option<u32>
        requires task { task < task_count self.now.state }
        requires waits { entry_of self.now.state task ≡ Some entry }
        ensures { result ≡ behind_of self.now.state task }
    {
        match entry.sort() {
            Rank::Fifo | Rank::Front => self.next_by_link(task, entry),
            Rank::Vtime(_) => None,
        }
    }

    /// The task right after one that waits by that entry, in order of arrival.
    fn next_by_link(&self, task: u32, entry: KeptEntry) -> Option<u32>
        requires task { task < task_count self.now.state }
        requires waits { entry_of self.now.state task ≡ Some entry }
        requires fifo { IsTrue (same_sort entry.rank Fifo) }
        ensures { result ≡ behind_of self.now.state task }
    {
        let Some(index) = find(&self.live, &self.order, &self.guesses, entry.queue()) else {
            unreachable!()
        };
        let _queue = &self.live[index];
        self.links[task as usize].next.get()
    }

    /// The number of tasks; their numbers are below it.
    pub fn tasks(&self) -> usize
        ensures { result ≡ task_count self.now.state }
    {
        self.entries.len()
    }

    /// The law of what holds after any calls. The function does nothing: its contract is the law.
    pub fn are_sound(&self)
        ensures queues { HasOneOfEach self.now.state }
        ensures homes { WaitsInAQueue self.now.state }
        ensures sorts { HasOneSort self.now.state }
        ensures stamped { IsStamped self.now.state }
        ensures stamps { HasOwnStamps self.now.state }
        ensures standing { StandsInSoMany self.now.state }
        ensures arrays { HasArrays self.now }
    {
        let _live = &self.live;
    }

    /// Becomes what the other one is, if both know the same queues, and as many tasks. No memory is taken.
    pub fn copy_from(&mut self, other: &Queues)
        requires room { self.old.state.room ≡ other.now.state.room }
        requires queues { self.old.state.ids ≡ other.now.state.ids }
        requires tasks { task_count self.old.state ≡ task_count other.now.state }
        ensures { self.new ≡ other.now }
    {
        copy_each(&mut self.live, &other.live);
        self.entries.copy_from_slice(&other.entries);
        self.links.copy_from_slice(&other.links);
        self.spots.copy_from_slice(&other.spots);
        self.pushes = other.pushes;
    }

    /// A copy of the queues, in memory of its own.
    pub fn duplicate(&self, alloc: Global) -> Result<Queues, AllocError>
        ensures { IfOk result (λ copy. copy ≡ self.now) }
    {
        let tasks = self.entries.len();
        let spare = self.spare.len();
        Ok(Queues {
            live: live_with_room(alloc, &self.live, self.live.len() + spare, tasks)?,
            order: order_with_room(alloc, &self.order, self.order.len() + spare)?,
            spare: spare_heaps(alloc, spare, tasks)?,
            entries: Vec::from_slice(alloc, &self.entries)?,
            links: Vec::from_slice(alloc, &self.links)?,
            spots: Vec::from_slice(alloc, &self.spots)?,
            guesses: self.guesses,
            pushes: self.pushes,
        })
    }

    /// The queue in which the task waits, its rank, and the number of pushes that were accepted before it.
    /// Nothing counts how the caller compares these numbers, so the call takes a counter away.
    pub fn entry<L: Ledger>(&self, task: u32, steps: Steps<L>) -> Option<Entry>
        requires { task < task_count self.now.state }
        ensures { result ≡ entry_of self.now.state task }
    {
        match self.entries[task as usize] {
            Some(entry) => Some(entry.entry(steps)),
            None => None,
        }
    }

    /// The number of accepted pushes.
    pub fn pushes(&self) -> u64
        ensures { result ≡ self.now.state.pushes }
    {
        self.pushes
    }
}

/// Each queue becomes the one at its position of the others.
fn copy_each(live: &mut [Queue], others: &[Queue])
    requires count { length live.old ≡ length others.now }
    requires room { HaveRoomFor live.old others.now }
    ensures count { length live.new ≡ length live.old }
    ensures copies { AreCopies live.old others.now live.new }
{
    for at in 0..live.len() {
        live[at].copy_from(&others[at]);
    }
}

/// A copy of the queues, in memory with that much room, each queue with room for that many tasks.
fn live_with_room(
    alloc: Global,
    live: &[Queue],
    room: usize,
    tasks: usize,
) -> Result<Vec<Queue>, AllocError>
    requires room { length live.now ≤ room }
    requires few { All (λ q. length q.heap.items ≤ tasks) live.now }
    ensures count { IfOk result (λ copy. length copy.items ≡ length live.now) }
    ensures room { IfOk result (λ copy. room ≤ vec_capacity copy) }
    ensures copies { IfOk result (λ copy. AreSame tasks live.now copy.items) }
{
    let mut copy = Vec::with_capacity(alloc, room)?;
    for at in 0..live.len() {
        let queue = live[at].duplicate(alloc, tasks)?;
        copy.push(queue)?;
    }
    Ok(copy)
}

/// A copy of the places, with that much room.
fn order_with_room(alloc: Global, order: &[usize], room: usize) -> Result<Vec<usize>, AllocError>
    requires { length order.now ≤ room }
    ensures items { IfOk result (λ copy. copy.items ≡ order.now) }
    ensures room { IfOk result (λ copy. room ≤ vec_capacity copy) }
{
    let mut copy = Vec::with_capacity(alloc, room)?;
    copy.extend_from_slice(order)?;
    Ok(copy)
}

/// The index of the queue into which the task may go by that rank, or the first refusal.
fn admit(
    live: &[Queue],
    order: &[usize],
    guesses: &[usize; HASHES],
    entries: &[Option<KeptEntry>],
    id: u64,
    task: u32,
    rank: Rank,
) -> Result<usize, QueueError>
    requires task { task < length entries.now }
    requires order { IsOrder (ids_of live.now) order.now }
    ensures admitted { IfOk result (λ k. IsAdmitted live.now entries.now k id task rank) }
    ensures refused { IfErr result (IsRefused live.now entries.now id task rank) }
{
    let Some(index) = find(live, order, guesses, id) else {
        return Err(QueueError::NoSuchQueue);
    };
    admit_at(live, entries, index, id, task, rank)?;
    Ok(index)
}

/// Admits the task by that rank into the queue at that place, or answers the first refusal.
#[inline(always)]
fn admit_at(
    live: &[Queue],
    entries: &[Option<KeptEntry>],
    place: usize,
    id: u64,
    task: u32,
    rank: Rank,
) -> Result<(), QueueError>
    requires task { task < length entries.now }
    requires place { place < length live.now }
    requires is { HoldsAt (λ q. q.id ≡ id) live.now place }
    requires there { list_any (λ other. other == id) (ids_of live.now) ≡ true }
    ensures admitted { IfOk result (λ _. IsAdmitted live.now entries.now place id task rank) }
    ensures refused { IfErr result (IsRefused live.now entries.now id task rank) }
{
    if entries[task as usize].is_some() {
        return Err(QueueError::AlreadyThere);
    }
    if live[place].clashes(rank) {
        return Err(QueueError::Mixed);
    }
    Ok(())
}

/// The index of the queue of that id.
#[inline(always)]
fn find(live: &[Queue], order: &[usize], guesses: &[usize; HASHES], id: u64) -> Option<usize>
    requires { IsOrder (ids_of live.now) order.now }
    ensures found { is_some result ≡ list_any (λ other. other == id) (ids_of live.now) }
    ensures at { IfSome result (λ i. (i < length live.now) × HoldsAt (λ q. q.id ≡ id) live.now i) }
{
    if let Some(index) = guess(live, guesses, id) {
        return Some(index);
    }
    find_slowly(live, order, id)
}

/// `find` without a guess.
#[inline(never)]
fn find_slowly(live: &[Queue], order: &[usize], id: u64) -> Option<usize>
    requires { IsOrder (ids_of live.now) order.now }
    ensures found { is_some result ≡ list_any (λ other. other == id) (ids_of live.now) }
    ensures at { IfSome result (λ i. (i < length live.now) × HoldsAt (λ q. q.id ≡ id) live.now i) }
{
    match search(live, order, id) {
        Ok(at) => Some(order[at]),
        Err(_) => None,
    }
}

/// The index of the queue of that id, if it is the last one of its hash that was created.
#[inline(always)]
fn guess(live: &[Queue], guesses: &[usize; HASHES], id: u64) -> Option<usize>
    ensures { IfSome result (λ i. (i < length live.now) × HoldsAt (λ q. q.id ≡ id) live.now i) }
{
    let index = guesses[hash_of(id)];
    if index < live.len() && live[index].id == id {
        Some(index)
    } else {
        None
    }
}

/// Numbers below 128 have hashes of their own; and so do local queues and each of the machine's own.
fn hash_of(id: u64) -> usize
    ensures { result < 256 }
{
    ((id ^ (id >> 56)) & 0xff) as usize
}

/// Where the order names the queue of that id, or else where it would.
#[inline(never)]
fn search(live: &[Queue], order: &[usize], id: u64) -> Result<usize, usize>
    requires { IsOrder (ids_of live.now) order.now }
    ensures found { IfOk result
        (λ k. (k < length order.now)
        × HoldsAt (λ a. slice_index_or (ids_of live.now) a 0 ≡ id) order.now k) }
    ensures missing { IfErr result (IsGap (ids_of live.now) order.now id) }
    ensures named { is_ok result ≡ list_any (λ other. other == id) (ids_of live.now) }
{
    let mut low = 0;
    let mut high = order.len();
    while low < high {
        let middle = low + (high - low) / 2;
        let other = live[order[middle]].id;
        if other == id {
            return Ok(middle);
        }
        if other < id {
            low = middle + 1;
        } else {
            high = middle;
        }
    }
    Err(low)
}

/// Empty heaps for queues to come.
fn spare_heaps(alloc: Global, queues: usize, tasks: usize) -> Result<Vec<Heap>, AllocError>
    ensures heaps { IfOk result (λ heaps. length heaps.items ≡ queues) }
    ensures empty { IfOk result
        (λ heaps. All (λ heap. heap ≡ record { room = tasks; items = [] }) heaps.items) }
{
    let mut heaps = Vec::with_capacity(alloc, queues)?;
    for _ in 0..queues {
        heaps.push(Heap::new(alloc, tasks)?)?;
    }
    Ok(heaps)
}
