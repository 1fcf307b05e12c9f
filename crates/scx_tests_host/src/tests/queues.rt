ghost use Rattle.std.specs.Prelude.{◌≡◌, ◌<◌};

use crate::same::expect_same;
use scx_dsq::{QueueError, Queues, Steps};
use std::marker::Brand;
use std::process::Abort;
use std::sync::ledger::{Blank, Ledger};

/// A call of `Queues`, with its queue, its task and its key.
#[derive(Clone, Copy)]
enum Command {
    Create(u64),
    PushFifo(u64, u32),
    PushFront(u64, u32),
    PushVtime(u64, u32, u64),
    Front(u64),
    Pop(u64),
    Remove(u32),
    Len(u64),
    QueueOf(u32),
    Pushes,
}

use Command::{Create, Front, Len, Pop, PushFifo, PushFront, PushVtime, Pushes, QueueOf, Remove};

/// The answer of a call: the error of a `Create` or of one of the three pushes; or a task, a queue or a count, if the
/// call has one. `Remove` answers 1 for a task that was in a queue, and 0 for another.
type Reply = Result<Option<u64>, QueueError>;

/// No error, or no task or queue that was asked for.
const DONE: Reply = Ok(None);

const NOBODY: Reply = Ok(None);

const NO_SUCH_QUEUE: Reply = Err(QueueError::NoSuchQueue);

const ALREADY_THERE: Reply = Err(QueueError::AlreadyThere);

const MIXED: Reply = Err(QueueError::Mixed);

const TOO_MANY_QUEUES: Reply = Err(QueueError::TooManyQueues);

fn done(answer: Result<(), QueueError>) -> Reply {
    match answer {
        Ok(()) => DONE,
        Err(error) => Err(error),
    }
}

fn found(task: Option<u32>) -> Reply {
    match task {
        Some(task) => Ok(Some(u64::from(task))),
        None => NOBODY,
    }
}

/// Makes the call, whose task is one that there is.
fn ask<R: Abort>(rt: &R, queues: &mut Queues, command: Command) -> Reply {
    ask_counted::<Brand, R>(rt, queues, command, Blank::new(1))
}

fn ask_counted<L: Ledger, R: Abort>(
    rt: &R,
    queues: &mut Queues,
    command: Command,
    blank: Blank,
) -> Reply
    requires name { blank.name ≡ L.name }
    requires parts { blank.parts ≡ L.parts }
    requires some { 0 < blank.parts }
{
    let mut steps = Steps::<L>::new(blank);
    match command {
        Create(queue) => done(queues.create(queue)),
        PushFifo(queue, task) => done(push_by_order(rt, queues, queue, task, false)),
        PushFront(queue, task) => done(push_by_order(rt, queues, queue, task, true)),
        PushVtime(queue, task, key) => done(push_by_key(rt, queues, queue, task, key, &mut steps)),
        Front(queue) => found(queues.front(queue)),
        Pop(queue) => found(queues.pop(queue, &mut steps)),
        Remove(task) => Ok(Some(u64::from(take_out(rt, queues, task, &mut steps)))),
        Len(queue) => Ok(Some(queues.len(queue) as u64)),
        QueueOf(task) => Ok(find_queue(rt, queues, task)),
        Pushes => Ok(Some(queues.pushes())),
    }
}

fn push_by_order(
    rt: &impl Abort,
    queues: &mut Queues,
    queue: u64,
    task: u32,
    to_front: bool,
) -> Result<(), QueueError> {
    assert!(rt; queues.pushes() < 1 << 62);
    assert!(rt; (task as usize) < queues.tasks());
    if to_front {
        queues.push_front(queue, task)
    } else {
        queues.push_fifo(queue, task)
    }
}

fn push_by_key<L: Ledger>(
    rt: &impl Abort,
    queues: &mut Queues,
    queue: u64,
    task: u32,
    key: u64,
    steps: &mut Steps<L>,
) -> Result<(), QueueError> {
    assert!(rt; queues.pushes() < 1 << 62);
    assert!(rt; (task as usize) < queues.tasks());
    queues.push_vtime(queue, task, key, steps)
}

fn take_out<L: Ledger>(
    rt: &impl Abort,
    queues: &mut Queues,
    task: u32,
    steps: &mut Steps<L>,
) -> bool {
    assert!(rt; (task as usize) < queues.tasks());
    queues.remove(task, steps)
}

fn find_queue(rt: &impl Abort, queues: &Queues, task: u32) -> Option<u64> {
    assert!(rt; (task as usize) < queues.tasks());
    queues.queue_of(task)
}

/// Commands, and their replies.
type Row = (Command, Reply);

fn expect_replies(rt: &impl Abort, queues: &mut Queues, rows: &[Row]) {
    for (number, &(command, reply)) in rows.iter().enumerate() {
        expect_same(rt, ask(rt, queues, command), reply, number);
    }
}

/// Queues with room for `room` queues and `tasks` tasks.
fn queues<R: AllocGlobal + Abort>(rt: &R, room: usize, tasks: usize) -> Queues {
    Queues::new(rt.alloc(), room, tasks).expect(rt, "memory is ample")
}

/// Makes calls one by one, on queues with that room, and compares their replies.
fn expect<R: AllocGlobal + Abort>(rt: &R, room: usize, tasks: usize, rows: &[Row]) {
    let mut queues = queues(rt, room, tasks);
    expect_replies(rt, &mut queues, rows);
    drop(queues);
}

fn expect_error(rt: &impl Abort, error: QueueError, number: u8, name: &str) {
    expect_same(rt, error.number(), number, name);
    expect_same(rt, error.name(), name, number);
}

#[test]
fn errors_have_numbers(rt: HostRuntime) {
    expect_error(&rt, QueueError::NoSuchQueue, 1, "NoSuchQueue");
    expect_error(&rt, QueueError::AlreadyThere, 2, "AlreadyThere");
    expect_error(&rt, QueueError::Mixed, 3, "Mixed");
    expect_error(&rt, QueueError::TooManyQueues, 4, "TooManyQueues");
}

const BY_KEY: [Row; 15] = [
    (Create(3), DONE),
    (PushVtime(3, 2, 5), DONE),
    (PushVtime(3, 1, 5), DONE),
    (PushVtime(3, 3, u64::MAX), DONE),
    (PushVtime(3, 4, 0), DONE),
    (PushFifo(3, 0), MIXED),
    (Len(3), Ok(Some(4))),
    (Pushes, Ok(Some(4))),
    (Pop(3), Ok(Some(4))),
    (Pop(3), Ok(Some(2))),
    (Pop(3), Ok(Some(1))),
    (Front(3), Ok(Some(3))),
    (Pop(3), Ok(Some(3))),
    (Pop(3), NOBODY),
    (PushFifo(3, 0), DONE),
];

#[test]
fn tasks_leave_by_key_and_then_by_stamp(rt: HostRuntime) {
    expect(&rt, 1, 5, &BY_KEY);
}

const TO_THE_FRONT: [Row; 24] = [
    (Create(3), DONE),
    (PushFront(4, 0), NO_SUCH_QUEUE),
    (PushFront(3, 0), DONE),
    (PushFront(3, 0), ALREADY_THERE),
    (PushFifo(3, 1), DONE),
    (PushFifo(3, 2), DONE),
    (PushFront(3, 3), DONE),
    (PushFront(3, 4), DONE),
    (PushVtime(3, 5, 0), MIXED),
    (Front(3), Ok(Some(4))),
    (Len(3), Ok(Some(5))),
    (Pushes, Ok(Some(5))),
    (Remove(3), Ok(Some(1))),
    (PushFifo(3, 3), DONE),
    (Pop(3), Ok(Some(4))),
    // The last pushed to the front first, and then in order of arrival.
    (Pop(3), Ok(Some(0))),
    (PushFront(3, 5), DONE),
    (Pop(3), Ok(Some(5))),
    (Pop(3), Ok(Some(1))),
    (Pop(3), Ok(Some(2))),
    (Pop(3), Ok(Some(3))),
    (Pop(3), NOBODY),
    (PushVtime(3, 5, 0), DONE),
    (PushFront(3, 0), MIXED),
];

#[test]
fn tasks_pushed_to_the_front_leave_first(rt: HostRuntime) {
    expect(&rt, 1, 6, &TO_THE_FRONT);
}

const KEPT_APART: [Row; 18] = [
    (Create(7), DONE),
    (Create(8), DONE),
    (Create(7), ALREADY_THERE),
    (Create(9), TOO_MANY_QUEUES),
    (PushFifo(9, 0), NO_SUCH_QUEUE),
    (PushFifo(7, 1), DONE),
    (PushFifo(7, 2), DONE),
    (PushFifo(7, 3), DONE),
    (Remove(2), Ok(Some(1))),
    (Remove(2), Ok(Some(0))),
    (QueueOf(2), NOBODY),
    (PushVtime(8, 1, 0), ALREADY_THERE),
    (QueueOf(1), Ok(Some(7))),
    (Pop(7), Ok(Some(1))),
    (Pop(7), Ok(Some(3))),
    (Pop(7), NOBODY),
    (QueueOf(1), NOBODY),
    (PushVtime(7, 2, 9), DONE),
];

#[test]
fn two_queues_are_kept_apart(rt: HostRuntime) {
    expect(&rt, 2, 5, &KEPT_APART);
}

const FIRST_CAUSES: [Row; 24] = [
    (PushFifo(1, 0), NO_SUCH_QUEUE),
    (PushVtime(1, 0, 7), NO_SUCH_QUEUE),
    (Pop(1), NOBODY),
    (Front(1), NOBODY),
    (Len(1), Ok(Some(0))),
    (Create(1), DONE),
    (Create(u64::MAX), DONE),
    // Full, and there already.
    (Create(1), ALREADY_THERE),
    (Create(2), TOO_MANY_QUEUES),
    (PushFifo(1, 0), DONE),
    (PushVtime(u64::MAX, 1, 7), DONE),
    // No such queue, and the task waits.
    (PushFifo(2, 0), NO_SUCH_QUEUE),
    // The task waits, and in a queue of the other sort.
    (PushVtime(1, 0, 7), ALREADY_THERE),
    (PushFifo(u64::MAX, 0), ALREADY_THERE),
    (PushVtime(1, 2, 7), MIXED),
    (PushFifo(u64::MAX, 2), MIXED),
    // Nothing has changed, and no refused push was counted.
    (Pushes, Ok(Some(2))),
    (Len(1), Ok(Some(1))),
    (Len(u64::MAX), Ok(Some(1))),
    (QueueOf(2), NOBODY),
    // An empty queue takes either sort.
    (Remove(0), Ok(Some(1))),
    (PushVtime(1, 2, 7), DONE),
    (Pop(u64::MAX), Ok(Some(1))),
    (PushFifo(u64::MAX, 1), DONE),
];

#[test]
fn the_first_cause_is_told(rt: HostRuntime) {
    expect(&rt, 2, 4, &FIRST_CAUSES);
}

const NO_ROOM: [Row; 3] = [
    (Create(0), TOO_MANY_QUEUES),
    (Pop(0), NOBODY),
    (Len(0), Ok(Some(0))),
];

#[test]
fn queues_may_have_no_room(rt: HostRuntime) {
    expect(&rt, 0, 0, &NO_ROOM);
}
