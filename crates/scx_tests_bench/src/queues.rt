//! A queue whose tasks go round: its front and some other task leave it and enter again.

ghost use Rattle.std.specs.Prelude.{◌≡◌, ◌<◌};

use crate::Sum;
use scx_dsq::{Queues, Steps};
use std::alloc::Global;
use std::marker::Brand;
use std::sync::ledger::{Blank, Ledger};

/// In FIFO order, or by virtual time.
#[derive(Clone, Copy)]
pub enum Order {
    Fifo,
    Vtime,
}

/// Goes round `times` times with that many tasks: a pop, a removal and two pushes each time.
pub fn go_round(alloc: Global, order: Order, tasks: &str, times: u64) -> Sum {
    let tasks = tasks.parse().ok()?;
    go_round_counted::<Brand>(alloc, order, tasks, times, Blank::new(1))
}

fn go_round_counted<L: Ledger>(
    alloc: Global,
    order: Order,
    tasks: u32,
    times: u64,
    blank: Blank,
) -> Sum
    requires name { blank.name ≡ L.name }
    requires parts { blank.parts ≡ L.parts }
    requires some { 0 < blank.parts }
{
    let mut steps = Steps::<L>::new(blank);
    let mut queues = Queues::new(alloc, 1, tasks as usize).ok()?;
    turn(&mut queues, order, tasks, times, &mut steps)
}

/// Creates the queue, and puts all tasks into it.
fn fill<L: Ledger>(
    queues: &mut Queues,
    order: Order,
    tasks: u32,
    steps: &mut Steps<L>,
) -> Option<()> {
    queues.create(0).ok()?;
    for task in 0..tasks {
        push(queues, order, task, u64::from(task), steps)?;
    }
    Some(())
}

/// Puts all tasks into the queue, and lets them go round that often.
fn turn<L: Ledger>(
    queues: &mut Queues,
    order: Order,
    tasks: u32,
    times: u64,
    steps: &mut Steps<L>,
) -> Sum {
    fill(queues, order, tasks, steps)?;
    let mut sum = 0u64;
    for time in 0..times {
        let front = queues.pop(0, steps)?;
        push(queues, order, front, time, steps)?;
        let other = (time % u64::from(tasks.max(1))) as u32;
        if other as usize >= queues.tasks() {
            return None;
        }
        queues.remove(other, steps);
        push(queues, order, other, time, steps)?;
        sum = sum.wrapping_mul(31).wrapping_add(u64::from(front));
    }
    Some(sum)
}

/// Puts a task into the queue, by one of 1024 keys that the number gives.
fn push<L: Ledger>(
    queues: &mut Queues,
    order: Order,
    task: u32,
    number: u64,
    steps: &mut Steps<L>,
) -> Option<()> {
    if task as usize >= queues.tasks() || queues.pushes() >= 1 << 62 {
        return None;
    }
    let key = number.wrapping_mul(0x9e37_79b9_7f4a_7c15) >> 54;
    match order {
        Order::Fifo => queues.push_fifo(0, task).ok(),
        Order::Vtime => queues.push_vtime(0, task, key, steps).ok(),
    }
}
