ghost use Rattle.std.specs.Prelude.{◌≡◌, ℕ, ◌+◌, ◌*◌, ◌≤◌, ◌<◌, length, IfSome, MatchOption, option_map};
ghost use Rattle.scx_dsq.specs.Queues.{IsQueueAt, task_count, len_of, front_of, only};
ghost use Rattle.scx_dsq.specs.Laws.{HasOwnStamps};
ghost use Rattle.scx_dsq.specs.Links.{AreInOrder, WaitsInOrder, HasFirstTurn, IsLast, IsNext};
ghost use Rattle.scx_dsq.specs.Heaps.{HasLeader, leads, with_leader};

use crate::heap::Item;
use crate::priority::Priority;
use crate::queues::Queues;
use crate::steps::Steps;
use crate::task_set::TaskSet;
use std::sync::ledger::Ledger;

/// The first of some tasks in a queue.
impl Queues {
    /// The task of the set that leaves the queue first, if the others are passed over; none if no task of the set waits
    /// there. Each task that is looked at, and each comparison, is counted in `steps`.
    pub fn first_among<S: TaskSet, L: Ledger>(
        &self,
        id: u64,
        tasks: &S,
        steps: &mut Steps<L>,
    ) -> Option<u32>
        ensures answer { result ≡ front_of (only (S.has tasks.now) self.now.state) id }
        ensures known { IfSome result (λ t. t < task_count self.now.state) }
        ensures cost { steps.new ≤ steps.old + 2 * len_of self.now.state id }
    {
        match self.place(id) {
            Some(place) => self.first_among_at(place, id, tasks, steps),
            None => None,
        }
    }

    /// `first_among` of the queue of that id, which is at that place.
    pub fn first_among_at<S: TaskSet, L: Ledger>(
        &self,
        place: usize,
        id: u64,
        tasks: &S,
        steps: &mut Steps<L>,
    ) -> Option<u32>
        requires { IsQueueAt self.now.state place id }
        ensures answer { result ≡ front_of (only (S.has tasks.now) self.now.state) id }
        ensures known { IfSome result (λ t. t < task_count self.now.state) }
        ensures cost { steps.new ≤ steps.old + 2 * len_of self.now.state id }
    {
        let queue = &self.live[place];
        match queue.ends.first.get() {
            Some(first) => self.first_from(place, id, first, tasks, steps),
            None => task_of(first_by_vtime(queue.heap.items(), tasks, steps)),
        }
    }

    /// The first task of the set in the FIFO queue of that id, which is at that place, from its front on.
    fn first_from<S: TaskSet, L: Ledger>(
        &self,
        place: usize,
        id: u64,
        front: u32,
        tasks: &S,
        steps: &mut Steps<L>,
    ) -> Option<u32>
        requires place { IsQueueAt self.now.state place id }
        requires front { HasFirstTurn self.now.state.entries id front }
        requires order { AreInOrder self.now.state.entries id }
        requires stamps { HasOwnStamps self.now.state }
        ensures answer { result ≡ front_of (only (S.has tasks.now) self.now.state) id }
        ensures cost { steps.new ≤ steps.old + len_of self.now.state id }
    {
        let mut task = front;
        steps.count();
        while !tasks.has(task) {
            let Some(next) = self.next_in(place, id, task) else {
                return None;
            };
            steps.count();
            task = next;
        }
        Some(task)
    }

    /// The task right after one in the FIFO queue of that id, which is at that place.
    #[inline(always)]
    fn next_in(&self, place: usize, id: u64, task: u32) -> Option<u32>
        requires place { IsQueueAt self.now.state place id }
        requires waits { WaitsInOrder self.now.state.entries id task }
        ensures { MatchOption result (IsLast self.now.state.entries id task)
            (IsNext self.now.state.entries id task) }
    {
        self.links[task as usize].next.get()
    }
}

/// The task of the item, if there is one.
fn task_of(item: Option<Item>) -> Option<u32>
    ensures { result ≡ option_map (λ x. x.task) item }
{
    match item {
        Some(item) => Some(item.task),
        None => None,
    }
}

/// The item of the set that leaves first.
fn first_by_vtime<S: TaskSet, L: Ledger>(
    items: &[Item],
    tasks: &S,
    steps: &mut Steps<L>,
) -> Option<Item>
    ensures first { HasLeader (S.has tasks.now) items.now (length items.now) result }
    ensures cost { steps.new ≤ steps.old + 2 * length items.now }
{
    let mut first = None;
    for at in 0..items.len() {
        first = leader(items[at], first, tasks, steps);
    }
    first
}

/// The item if its task is in the set and it leaves before the other one, else the other one.
fn leader<S: TaskSet, L: Ledger>(
    item: Item,
    other: Option<Item>,
    tasks: &S,
    steps: &mut Steps<L>,
) -> Option<Item>
    ensures leader { result ≡ with_leader (S.has tasks.now) item other }
    ensures cost { steps.new ≤ steps.old + 2 }
    ensures more { steps.old ≤ steps.new }
{
    steps.count();
    if tasks.has(item.task) && leads(item.priority, other, steps) {
        Some(item)
    } else {
        other
    }
}

/// True if an item of that priority leaves before the other one, or if there is no other.
fn leads<L: Ledger>(priority: Priority, other: Option<Item>, steps: &mut Steps<L>) -> bool
    ensures answer { result ≡ leads priority other }
    ensures cost { steps.new ≤ steps.old + 1 }
    ensures more { steps.old ≤ steps.new }
{
    match other {
        Some(item) => priority.is_before(item.priority, steps),
        None => true,
    }
}
