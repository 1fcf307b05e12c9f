ghost use Rattle.std.specs.Prelude.{◌≡◌, replicate, slice_set, None, IfOk};
ghost use Rattle.scxsim_waits.specs.Places.{place_at, places_after, taken_at, is_let_in, taken_by};

use scx_sched::What;
use scx_sched_world::{BUILTIN, HELD, LOCAL_ON, PARKED};
use std::alloc::{AllocError, Global};
use std::marker::Model;

/// A task that is taken out of its queue.
#[derive(Clone, Copy)]
pub struct Taken {
    pub task: u16,
    pub queue: u64,
}

/// The queue of each task, if it is in one.
///
/// In a contract it is that list.
#[derive(Drop)]
pub struct TaskQueues {
    queues: Vec<Option<u64>>,
}

impl Model for TaskQueues {
    ghost use Rattle.std.specs.Prelude.{ℕ, List, Option};

    ghost Value = { List (Option ℕ) };

    ghost view = { λ p. p.queues.items };
}

impl TaskQueues {
    /// Tasks that are in no queue.
    pub fn new(alloc: Global, tasks: usize) -> Result<TaskQueues, AllocError>
        ensures { IfOk result (λ places. places ≡ replicate tasks None) }
    {
        Ok(TaskQueues {
            queues: vec![in alloc; None; tasks]?,
        })
    }

    /// The queue of the task.
    #[inline(always)]
    pub fn at(&self, task: u16) -> Option<u64>
        ensures { result ≡ place_at self.now task }
    {
        *self.queues.get(task as usize)?
    }

    /// Follows a note.
    pub fn show(&mut self, what: What)
        ensures { self.new ≡ places_after what self.old }
    {
        match what {
            What::Insert(task, queue) => self.set(task, Some(queue)),
            What::Move(task, cpu) => self.set(task, Some(LOCAL_ON + u64::from(cpu))),
            What::Run(task, _) => self.set(task, None),
            What::Sleep(task) => self.set(task, None),
            _ => {}
        }
    }

    /// The task that a note takes out of a queue: one that moves to a CPU or runs on it, or that is no longer held. One
    /// that leaves as the policy is ejected, or is parked, isn't taken.
    pub fn taken(&self, what: What) -> Option<Taken>
        ensures { result ≡ taken_by what self.now }
    {
        match what {
            What::Move(task, _) => self.taken_at(task),
            What::Run(task, _) => self.taken_at(task),
            What::Insert(task, queue) => {
                if self.is_let_in(task, queue) {
                    self.taken_at(task)
                } else {
                    None
                }
            }
            _ => None,
        }
    }

    /// The task as one that is taken out of its queue, if it is in one.
    fn taken_at(&self, task: u16) -> Option<Taken>
        ensures { result ≡ taken_at self.now task }
    {
        let queue = self.at(task)?;
        Some(Taken { task, queue })
    }

    /// True if the task is held, and the policy puts it into that queue.
    fn is_let_in(&self, task: u16, queue: u64) -> bool
        ensures { result ≡ is_let_in self.now task queue }
    {
        match self.at(task) {
            Some(place) => place == HELD && queue != BUILTIN && queue != PARKED,
            None => false,
        }
    }

    #[inline(always)]
    fn set(&mut self, task: u16, queue: Option<u64>)
        ensures { self.new ≡ slice_set self.old task queue }
    {
        if let Some(place) = self.queues.get_mut(task as usize) {
            *place = queue;
        }
    }
}
