ghost use Rattle.std.specs.Prelude.{◌≡◌, ◌+◌, ◌^◌, ◌<◌, ◌≤◌, is_some, IfSome};
ghost use Rattle.scx_dsq.specs.Queues.{IsQueueAt, task_count, entry_of, front_of, only};
ghost use Rattle.scx_dsq.specs.declared.entries.Rank.TheVariants.{Vtime};
ghost use Rattle.scx_dsq.specs.Calls.{after_push, after_pop, after_remove};

use scx_dsq::{Entry, Queues, Rank, Steps, TaskSet};
use std::marker::Brand;
use std::sync::ledger::{Blank, Ledger};

/// Puts a task into a queue, if it takes the task so. Nobody asks for the comparisons.
#[inline(always)]
pub fn push(queues: &mut Queues, id: u64, task: u32, rank: Rank)
    requires task { task < task_count queues.old.state }
    requires few { queues.old.state.pushes < 2 ^ 63 }
    ensures state { queues.new.state ≡ after_push queues.old.state id task rank }
    ensures tasks { task_count queues.new.state ≡ task_count queues.old.state }
    ensures pushes { queues.new.state.pushes ≤ queues.old.state.pushes + 1 }
{
    match rank {
        Rank::Fifo => {
            let _refused = queues.push_fifo(id, task);
        }
        Rank::Front => {
            let _refused = queues.push_front(id, task);
        }
        Rank::Vtime(key) => push_counted::<Brand>(queues, id, task, key, Blank::new(1)),
    }
}

fn push_counted<L: Ledger>(queues: &mut Queues, id: u64, task: u32, key: u64, blank: Blank)
    requires task { task < task_count queues.old.state }
    requires few { queues.old.state.pushes < 2 ^ 63 }
    requires name { blank.name ≡ L.name }
    requires parts { blank.parts ≡ L.parts }
    requires some { 0 < blank.parts }
    ensures state { queues.new.state ≡ after_push queues.old.state id task (Vtime key) }
    ensures tasks { task_count queues.new.state ≡ task_count queues.old.state }
    ensures pushes { queues.new.state.pushes ≤ queues.old.state.pushes + 1 }
{
    let mut steps = Steps::<L>::new(blank);
    let _refused = queues.push_vtime(id, task, key, &mut steps);
    drop(steps);
}

/// Takes the front of the queue out and answers it. Nobody asks for the comparisons.
pub fn pop(queues: &mut Queues, id: u64) -> Option<u32>
    ensures answer { result ≡ front_of queues.old.state id }
    ensures known { IfSome result (λ t. t < task_count queues.old.state) }
    ensures state { queues.new.state ≡ after_pop queues.old.state id }
    ensures left { IfSome result (λ t. queues.new.state ≡ after_remove queues.old.state t) }
    ensures tasks { task_count queues.new.state ≡ task_count queues.old.state }
    ensures pushes { queues.new.state.pushes ≡ queues.old.state.pushes }
{
    pop_counted::<Brand>(queues, id, Blank::new(1))
}

fn pop_counted<L: Ledger>(queues: &mut Queues, id: u64, blank: Blank) -> Option<u32>
    requires name { blank.name ≡ L.name }
    requires parts { blank.parts ≡ L.parts }
    requires some { 0 < blank.parts }
    ensures answer { result ≡ front_of queues.old.state id }
    ensures known { IfSome result (λ t. t < task_count queues.old.state) }
    ensures state { queues.new.state ≡ after_pop queues.old.state id }
    ensures left { IfSome result (λ t. queues.new.state ≡ after_remove queues.old.state t) }
    ensures tasks { task_count queues.new.state ≡ task_count queues.old.state }
    ensures pushes { queues.new.state.pushes ≡ queues.old.state.pushes }
{
    let mut steps = Steps::<L>::new(blank);
    let front = queues.pop(id, &mut steps);
    drop(steps);
    front
}

/// Takes the front out of the queue of that id, which is at that place, and returns it. Nobody asks for the
/// comparisons.
#[inline(always)]
pub fn pop_at(queues: &mut Queues, place: usize, id: u64) -> Option<u32>
    requires { IsQueueAt queues.old.state place id }
    ensures answer { result ≡ front_of queues.old.state id }
    ensures known { IfSome result (λ t. t < task_count queues.old.state) }
    ensures state { queues.new.state ≡ after_pop queues.old.state id }
    ensures left { IfSome result (λ t. queues.new.state ≡ after_remove queues.old.state t) }
    ensures tasks { task_count queues.new.state ≡ task_count queues.old.state }
    ensures pushes { queues.new.state.pushes ≡ queues.old.state.pushes }
{
    pop_at_counted::<Brand>(queues, place, id, Blank::new(1))
}

#[inline(always)]
fn pop_at_counted<L: Ledger>(
    queues: &mut Queues,
    place: usize,
    id: u64,
    blank: Blank,
) -> Option<u32>
    requires place { IsQueueAt queues.old.state place id }
    requires name { blank.name ≡ L.name }
    requires parts { blank.parts ≡ L.parts }
    requires some { 0 < blank.parts }
    ensures answer { result ≡ front_of queues.old.state id }
    ensures known { IfSome result (λ t. t < task_count queues.old.state) }
    ensures state { queues.new.state ≡ after_pop queues.old.state id }
    ensures left { IfSome result (λ t. queues.new.state ≡ after_remove queues.old.state t) }
    ensures tasks { task_count queues.new.state ≡ task_count queues.old.state }
    ensures pushes { queues.new.state.pushes ≡ queues.old.state.pushes }
{
    let mut steps = Steps::<L>::new(blank);
    let front = queues.pop_at(place, id, &mut steps);
    drop(steps);
    front
}

/// The first of those tasks in the queue. Nobody asks for the comparisons.
pub fn first_among<S: TaskSet>(queues: &Queues, id: u64, tasks: &S) -> Option<u32>
    ensures answer { result ≡ front_of (only (S.has tasks.now) queues.now.state) id }
    ensures known { IfSome result (λ t. t < task_count queues.now.state) }
{
    first_among_counted::<S, Brand>(queues, id, tasks, Blank::new(1))
}

fn first_among_counted<S: TaskSet, L: Ledger>(
    queues: &Queues,
    id: u64,
    tasks: &S,
    blank: Blank,
) -> Option<u32>
    requires name { blank.name ≡ L.name }
    requires parts { blank.parts ≡ L.parts }
    requires some { 0 < blank.parts }
    ensures answer { result ≡ front_of (only (S.has tasks.now) queues.now.state) id }
    ensures known { IfSome result (λ t. t < task_count queues.now.state) }
{
    let mut steps = Steps::<L>::new(blank);
    let first = queues.first_among(id, tasks, &mut steps);
    drop(steps);
    first
}

/// Takes the task out of the queue in which it waits. Nobody asks for the comparisons.
pub fn remove(queues: &mut Queues, task: u32) -> bool
    requires { task < task_count queues.old.state }
    ensures answer { result ≡ is_some (entry_of queues.old.state task) }
    ensures state { queues.new.state ≡ after_remove queues.old.state task }
    ensures tasks { task_count queues.new.state ≡ task_count queues.old.state }
    ensures pushes { queues.new.state.pushes ≡ queues.old.state.pushes }
{
    remove_counted::<Brand>(queues, task, Blank::new(1))
}

fn remove_counted<L: Ledger>(queues: &mut Queues, task: u32, blank: Blank) -> bool
    requires task { task < task_count queues.old.state }
    requires name { blank.name ≡ L.name }
    requires parts { blank.parts ≡ L.parts }
    requires some { 0 < blank.parts }
    ensures answer { result ≡ is_some (entry_of queues.old.state task) }
    ensures state { queues.new.state ≡ after_remove queues.old.state task }
    ensures tasks { task_count queues.new.state ≡ task_count queues.old.state }
    ensures pushes { queues.new.state.pushes ≡ queues.old.state.pushes }
{
    let mut steps = Steps::<L>::new(blank);
    let was_there = queues.remove(task, &mut steps);
    drop(steps);
    was_there
}

/// The entry of the task. The world makes no promise on how its key and stamp are compared.
#[inline(always)]
pub fn entry(queues: &Queues, task: u32) -> Option<Entry>
    requires { task < task_count queues.now.state }
    ensures { result ≡ entry_of queues.now.state task }
{
    entry_uncounted::<Brand>(queues, task, Blank::new(1))
}

#[inline(always)]
fn entry_uncounted<L: Ledger>(queues: &Queues, task: u32, blank: Blank) -> Option<Entry>
    requires task { task < task_count queues.now.state }
    requires name { blank.name ≡ L.name }
    requires parts { blank.parts ≡ L.parts }
    requires some { 0 < blank.parts }
    ensures { result ≡ entry_of queues.now.state task }
{
    queues.entry(task, Steps::<L>::new(blank))
}
