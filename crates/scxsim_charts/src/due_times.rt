use crate::grids::Grid;
use crate::scales::Scale;
use scx_load_workloads::Workload;
use scx_sched::{Event, Sim, What};
use scx_weights::WHOLE;
use scxsim_views::Dues;
use std::alloc::{AllocError, Global};

/// The parts of a millisecond in which sums of due time are counted.
pub(crate) const DUE_PARTS: u64 = 1_000_000;

/// The time that is due to each group of what CPUs ran: by weight, and under quotas no more than they let through.
#[derive(Drop)]
pub(crate) struct DueTimes {
    dues: Dues,
    /// The part of what was due to each group up to the end of the last character.
    told: Vec<u128>,
}

impl DueTimes {
    pub(crate) fn new(alloc: Global, workload: &Workload) -> Result<DueTimes, AllocError> {
        Ok(DueTimes {
            dues: Dues::new(alloc, workload)?,
            told: vec![in alloc; 0u128; workload.groups().len()]?,
        })
    }

    /// Takes an event that comes next: a CPU runs for a millisecond, or a task sleeps, on which shares depend.
    pub(crate) fn expect(&mut self, sim: &Sim, event: Event, workload: &Workload) {
        match event {
            Event::Tick(cpu) => {
                if let Some(task) = sim.runner(cpu) {
                    self.dues.charge(workload, home(workload, task));
                }
            }
            Event::Sleep(_) => self.dues.settle(),
            Event::Clock | Event::Wake(_) | Event::SetWeight(_, _) | Event::SetTaskWeight(_, _) =>
                {}
        }
    }

    /// The millisecond of that clock ends. If the window begins then, or a character ends, what was due is settled.
    pub(crate) fn pass(&mut self, clock: u64, scale: Scale, due: &mut Grid) {
        let next = clock.saturating_add(1);
        if next == scale.window.from || ends_character(scale, clock, next) {
            self.dues.settle();
            self.tell(clock, scale, due);
        }
        self.dues.pass(next);
    }

    /// Adds what was due since the last character ended to the characters of that millisecond.
    fn tell(&mut self, clock: u64, scale: Scale, due: &mut Grid) {
        for (group, told) in self.told.iter_mut().enumerate() {
            let sum = self.dues.due().get(group).copied().unwrap_or(0);
            let more = due_parts(sum.saturating_sub(*told));
            *told = sum;
            if scale.has(clock) {
                due.add_to_all(group, scale, clock, more);
            }
        }
    }

    /// Follows the runnable tasks and the weights of groups, on which shares depend.
    pub(crate) fn show(&mut self, workload: &Workload, what: What) {
        match what {
            What::Wake(task) => {
                if let Some(group) = home(workload, task) {
                    self.dues.activate(group);
                }
            }
            What::Sleep(task) => {
                if let Some(group) = home(workload, task) {
                    self.dues.deactivate(group);
                }
            }
            What::Weight(group, weight) => self.dues.weigh(group, weight),
            _ => {}
        }
    }
}

/// True if a character of the window ends with that millisecond; the last one may have fewer.
fn ends_character(scale: Scale, clock: u64, next: u64) -> bool {
    next == scale.window.to || scale.has(clock) && scale.cell(clock) != scale.cell(next)
}

/// The group of a task.
fn home(workload: &Workload, task: u16) -> Option<u32> {
    workload.tasks().get(task as usize).copied()
}

/// The time of a share, in parts of a millisecond.
fn due_parts(share: u128) -> u64 {
    let parts = share / (WHOLE / u128::from(DUE_PARTS));
    u64::try_from(parts).unwrap_or(u64::MAX)
}
