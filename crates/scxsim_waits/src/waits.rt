use crate::TaskQueues;
use crate::watched_wait::{LongWait, Occurrence, Scene, WatchedWait, place_of};
use scx_isa::Rules;
use scx_sched::Note;
use std::alloc::{AllocError, Global};
use std::marker::Model;

/// The longest waits, as they are watched.
///
/// In a contract it is nothing: whatever it keeps, runs are the same.
#[derive(Drop)]
pub struct Waits {
    pub waits: Vec<WatchedWait>,
    /// The rules of the policy, which give the virtual times of keys.
    pub rules: Rules,
    /// True if the current millisecond is of one of them.
    is_counting: bool,
    tasks: usize,
}

impl Model for Waits {
    ghost Value = { Unit {0} };

    ghost view = { λ w. tt };
}

impl Waits {
    pub fn new(
        alloc: Global,
        worst: &[LongWait],
        rules: Rules,
        tasks: usize,
        cpus: u32,
    ) -> Result<Self, AllocError> {
        let mut waits = Vec::with_capacity(alloc, worst.len())?;
        for wait in worst {
            waits.push(WatchedWait::new(alloc, *wait, tasks, cpus)?)?;
        }
        Ok(Waits {
            waits,
            rules,
            is_counting: false,
            tasks,
        })
    }

    pub fn show(&mut self, of: Occurrence, scene: Scene<'_>) -> Result<(), AllocError> {
        for wait in self.waits.as_mut_slice() {
            if of.task == Some(wait.wait.task) {
                wait.show(of, scene)?;
            } else if let Some(taken) = of.taken {
                wait.take(taken, scene.calls);
            }
        }
        Ok(())
    }

    /// Counts a call of dispatch with these notes, before which tasks were in these queues.
    pub fn heed(&mut self, notes: &[Note], places: &TaskQueues) {
        for wait in self.waits.as_mut_slice() {
            wait.heed(notes, places);
        }
    }

    /// Counts a CPU's tick; CPU 0 ticks first in each millisecond.
    pub fn tick(&mut self, clock: u64, cpu: u32, running: Option<u16>) {
        if cpu == 0 {
            self.begin_ticks(clock);
        }
        if !self.is_counting {
            return;
        }
        let place = place_of(self.tasks, cpu, running);
        for wait in self.waits.as_mut_slice() {
            wait.tick(place);
        }
    }

    fn begin_ticks(&mut self, moment: u64) {
        let mut is_counting = false;
        for wait in self.waits.as_mut_slice() {
            is_counting = wait.begin_ticks(moment) || is_counting;
        }
        self.is_counting = is_counting;
    }
}
