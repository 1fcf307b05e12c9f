use scx_explore_states::{MOST_TASKS, Tasks};
use scx_sched::{Event, Sim};

/// The number of ticks of a millisecond that each task ran, and the tasks that may sleep after the last tick.
#[derive(Clone, Copy)]
pub struct Ticks {
    ticks: [u16; MOST_TASKS],
    sleepers: Tasks,
}

impl Ticks {
    pub const NONE: Ticks = Ticks {
        ticks: [0; MOST_TASKS],
        sleepers: Tasks::NONE,
    };

    /// The number of ticks that the task ran.
    pub fn of(&self, task: u16) -> u16 {
        match self.ticks.get(usize::from(task)) {
            Some(ticks) => *ticks,
            None => 0,
        }
    }

    /// An event comes next: a tick counts for the task that runs on its processor.
    pub fn count(&mut self, sim: &Sim, event: Event) {
        let Event::Tick(cpu) = event else {
            return;
        };
        let Some(task) = sim.runner(cpu) else {
            return;
        };
        if let Some(ticks) = self.ticks.get_mut(usize::from(task)) {
            *ticks = ticks.saturating_add(1);
        }
    }

    /// Notes the tasks that may sleep, after the last tick.
    pub fn end(&mut self, sim: &Sim) {
        for task in 0..MOST_TASKS as u16 {
            if may_sleep(sim, task) {
                self.sleepers = self.sleepers.with(task);
            }
        }
    }

    /// True if a workload may send the task to sleep, if it is runnable.
    pub fn may_sleep(&self, task: u16) -> bool {
        self.sleepers.has(task)
    }
}

/// True if the rules let a runnable task go to sleep where it is: under Linux rules one that runs alone does.
fn may_sleep(sim: &Sim, task: u16) -> bool {
    !sim.world().is_by_linux() || sim.world().cpu_of(task).is_some()
}
