use crate::task_queues::TaskQueues;
use arrayvec::ArrayVec;
use scx_sched::What;
use scx_sched_world::{HELD, LOCAL_ON};
use std::alloc::{AllocError, Global};

/// The most queues of a run: 16 of the policy, 4 that all CPUs share, and one for each of 64 CPUs.
const MAX_QUEUES: usize = 84;

/// The most of them that aren't a CPU's own.
const MAX_SHARED: usize = 20;

/// The tasks that came into a queue and left it.
#[derive(Clone, Copy, Default)]
pub struct QueueFigures {
    pub queue: u64,
    /// The number of times that a task came, and that one left.
    pub came: u64,
    pub left: u64,
}

impl QueueFigures {
    /// The number of tasks in the queue.
    pub fn there(self) -> u64 {
        self.came.saturating_sub(self.left)
    }
}

/// A queue that isn't a CPU's own, and the row of its figures.
#[derive(Clone, Copy, Default)]
struct Shared {
    queue: u64,
    row: usize,
}

/// The queue of each task, and the tasks that came into each queue and left it.
#[derive(Drop)]
pub struct QueueTraffic {
    pub places: TaskQueues,
    /// The figures of each queue up to the policy's ejection, in the order in which a task first came into them.
    pub figures: ArrayVec<QueueFigures, MAX_QUEUES>,
    /// The row of each CPU's own queue.
    local_rows: Vec<Option<usize>>,
    shared: ArrayVec<Shared, MAX_SHARED>,
    /// True for each task that was held as the policy was ejected.
    was_held: Vec<bool>,
}

impl QueueTraffic {
    /// Tasks that are in no queue.
    pub fn new(alloc: Global, tasks: usize, cpus: u32) -> Result<QueueTraffic, AllocError> {
        Ok(QueueTraffic {
            places: TaskQueues::new(alloc, tasks)?,
            figures: ArrayVec::new(),
            local_rows: vec![in alloc; None; cpus as usize]?,
            shared: ArrayVec::new(),
            was_held: vec![in alloc; false; tasks]?,
        })
    }

    /// Follows a note, while the policy is in force or not.
    pub fn show(&mut self, what: What, is_in_force: bool) {
        match what {
            What::Insert(task, _) | What::Move(task, _) | What::Run(task, _) => {
                self.go(task, what, is_in_force);
            }
            What::Sleep(task) => self.go(task, what, is_in_force),
            _ => {}
        }
    }

    /// True if the task was held as the policy was ejected, or as the run ended.
    pub fn is_held(&self, task: u16) -> bool {
        match self.was_held.get(task as usize) {
            Some(true) => true,
            _ => self.places.at(task) == Some(HELD),
        }
    }

    /// Follows a task that comes into another queue, or into none.
    fn go(&mut self, task: u16, what: What, is_in_force: bool) {
        let before = self.places.at(task);
        self.places.show(what);
        let after = self.places.at(task);
        if is_in_force {
            self.count(before, after);
        } else if before == Some(HELD) {
            self.keep_held(task);
        }
    }

    fn keep_held(&mut self, task: u16) {
        if let Some(place) = self.was_held.get_mut(task as usize) {
            *place = true;
        }
    }

    fn count(&mut self, before: Option<u64>, queue: Option<u64>) {
        if let Some(before) = before {
            self.leave(before);
        }
        if let Some(queue) = queue {
            self.come(queue);
        }
    }

    fn leave(&mut self, queue: u64) {
        if let Some(figures) = self.figures_of(queue) {
            figures.left = figures.left.saturating_add(1);
        }
    }

    fn come(&mut self, queue: u64) {
        if self.row_of(queue).is_none() {
            self.add(queue);
        }
        if let Some(figures) = self.figures_of(queue) {
            figures.came = figures.came.saturating_add(1);
        }
    }

    fn figures_of(&mut self, queue: u64) -> Option<&mut QueueFigures> {
        let row = self.row_of(queue)?;
        self.figures.as_mut_slice().get_mut(row)
    }

    /// The row of that queue.
    fn row_of(&self, queue: u64) -> Option<usize> {
        if LOCAL_ON <= queue {
            return *self.local_rows.get((queue - LOCAL_ON) as usize)?;
        }
        for shared in self.shared.as_slice() {
            if shared.queue == queue {
                return Some(shared.row);
            }
        }
        None
    }

    /// Adds a row for that queue. A run has no more queues than there is room for.
    fn add(&mut self, queue: u64) {
        let row = self.figures.len();
        let _ = self.figures.try_push(QueueFigures {
            queue,
            came: 0,
            left: 0,
        });
        if queue < LOCAL_ON {
            let _ = self.shared.try_push(Shared { queue, row });
        } else if let Some(place) = self.local_rows.get_mut((queue - LOCAL_ON) as usize) {
            *place = Some(row);
        }
    }
}
