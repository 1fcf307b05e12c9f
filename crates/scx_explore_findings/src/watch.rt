ghost use Rattle.std.specs.Prelude.{◌≡◌, false};

use crate::finding::Pair;
use scx_explore_states::{MOST_TASKS, Tasks};
use scx_sched::{Note, Sim, Sink, What};
use scx_sched_world::PARKED;
use std::marker::Model;

/// The number of tasks that are watched.
const WATCHED: u16 = 8;

/// The waiting tasks between two events, and the tasks that began to run meanwhile.
#[derive(Clone, Copy)]
pub struct Watched {
    pub waiting: Tasks,
    /// Bit 8 t + u is set where task u began to run since task t waits.
    pub began: u64,
}

/// The tasks that began to run while another of their group waits. A parked task doesn't wait.
///
/// In a contract it is nothing: whatever it keeps, events do the same.
#[derive(Drop)]
pub struct Watch {
    /// For each task the tasks of its group.
    together: [Tasks; MOST_TASKS],
    waiting: Tasks,
    began: u64,
    overtaken: Option<Pair>,
}

impl Model for Watch {
    ghost Value = { Unit {0} };

    ghost view = { λ w. tt };
}

impl Watch {
    /// A watch while no task waits. The list has each task's group; tasks past the eighth aren't watched.
    pub fn new(homes: &[u32]) -> Watch {
        let mut together = [Tasks::NONE; MOST_TASKS];
        for task in 0..MOST_TASKS {
            if let Some(place) = together.get_mut(task) {
                *place = tasks_of(homes, task);
            }
        }
        Watch {
            together,
            waiting: Tasks::NONE,
            began: 0,
            overtaken: None,
        }
    }

    /// Resumes from a machine's state, with the tasks that had begun to run.
    pub fn begin(&mut self, sim: &Sim, began: u64) {
        let mut waiting = Tasks::NONE;
        for task in 0..WATCHED {
            if sim.world().waits(task) {
                waiting = waiting.with(task);
            }
        }
        self.go_on(Watched { waiting, began });
    }

    /// Resumes from a saved state.
    #[inline(always)]
    pub fn go_on(&mut self, watched: Watched) {
        self.waiting = watched.waiting;
        self.began = watched.began;
        self.overtaken = None;
    }

    /// The tasks that wait now, and those that began to run meanwhile.
    #[inline(always)]
    pub fn watched(&self) -> Watched {
        Watched {
            waiting: self.waiting,
            began: self.began,
        }
    }

    /// A task that waits while another of its group began to run twice, if there is one, since this was asked last
    /// or it went on from elsewhere.
    pub fn overtaken(&mut self) -> Option<Pair> {
        let overtaken = self.overtaken;
        self.overtaken = None;
        overtaken
    }

    /// True if the task waits.
    #[inline(always)]
    pub fn waits(&self, task: u16) -> bool {
        self.waiting.has(task)
    }

    /// True if some task waits.
    #[inline(always)]
    pub fn is_someone_waiting(&self) -> bool {
        !self.waiting.is_empty()
    }

    /// The task comes into that queue. It waits there, unless it is parked.
    fn come(&mut self, task: u16, queue: u64) {
        if queue == PARKED {
            self.leave(task);
        } else {
            self.waiting = self.waiting.with(task);
        }
    }

    /// The task waits no more.
    fn leave(&mut self, task: u16) {
        self.waiting = self.waiting.without(task);
        self.began &= !row(task);
    }

    /// The task begins to run.
    fn run(&mut self, task: u16) {
        self.leave(task);
        let passed = self.waiting.among(self.together_with(task));
        if passed.is_empty() {
            return;
        }
        for other in 0..WATCHED {
            if passed.has(other) {
                self.overtake(Pair {
                    waits: other,
                    runs: task,
                });
            }
        }
    }

    fn together_with(&self, task: u16) -> Tasks {
        match self.together.get(usize::from(task)) {
            Some(tasks) => *tasks,
            None => Tasks::NONE,
        }
    }

    fn overtake(&mut self, pair: Pair) {
        let bit = bit(pair);
        if self.began & bit != 0 {
            self.overtaken = Some(pair);
        }
        self.began |= bit;
    }
}

/// The tasks that are of the group of that one, as the list says.
fn tasks_of(homes: &[u32], task: usize) -> Tasks {
    let mut tasks = Tasks::NONE;
    for other in 0..WATCHED {
        if are_together(homes, task, usize::from(other)) {
            tasks = tasks.with(other);
        }
    }
    tasks
}

fn are_together(homes: &[u32], task: usize, other: usize) -> bool {
    match (homes.get(task), homes.get(other)) {
        (Some(home), Some(other)) => *home == *other,
        _ => false,
    }
}

/// The bits of a task that waits.
fn row(task: u16) -> u64 {
    0xffu64.wrapping_shl(u32::from(task % WATCHED) * 8)
}

fn bit(pair: Pair) -> u64 {
    1u64.wrapping_shl(u32::from(pair.waits % WATCHED) * 8 + u32::from(pair.runs % WATCHED))
}

impl Sink for Watch {
    ghost takes = { λ s n t. t ≡ s };

    ghost has_failed = { λ s. false };

    ghost failed_stays = { λ s t n failed takes. takes };

    fn take(&mut self, note: Note) {
        match note.what {
            What::Insert(task, queue) => self.come(task, queue),
            What::Sleep(task) => self.leave(task),
            What::Run(task, _) => self.run(task),
            What::Wake(_)
            | What::Move(_, _)
            | What::Stop(_, _)
            | What::Idle(_)
            | What::Weight(_, _)
            | What::TaskWeight(_, _)
            | What::Stall(_)
            | What::Fault(_)
            | What::Exit(_) => {}
        }
    }

    fn failed(&self) -> bool {
        false
    }
}
