use scx_sched_world::World;
use std::alloc::{AllocError, Global};

/// A time at which a timer kicked a CPU.
#[derive(Clone, Copy, Default)]
pub struct TimerKick {
    pub timer: u64,
    pub clock: u64,
}

/// The runs of a timer, and its kicks.
#[derive(Clone, Copy, Default)]
pub struct TimerFigures {
    pub runs: u64,
    pub kicks: u64,
    /// The CPUs that it kicked, one bit each.
    pub kicked: u64,
}

/// The CPUs that the timers of a policy kick.
#[derive(Drop)]
pub struct TimerKicks {
    /// The figures of each timer.
    pub figures: Vec<TimerFigures>,
    /// The clock as the last callback had run, and the CPUs that were kicked then.
    clock: u64,
    pending: u64,
}

impl TimerKicks {
    /// Timers that haven't run.
    pub(crate) fn new(alloc: Global, timers: u32) -> Result<TimerKicks, AllocError> {
        Ok(TimerKicks {
            figures: vec![in alloc; TimerFigures::default(); timers as usize]?,
            clock: 0,
            pending: 0,
        })
    }

    /// Takes that a callback has run. Returns the CPUs that were kicked since the one before. In a new millisecond all kicks
    /// are new, since CPUs that are kicked look for a task as each event ends.
    pub(crate) fn heed(&mut self, world: &World) -> u64 {
        let before = if self.clock == world.clock() {
            self.pending
        } else {
            0
        };
        self.clock = world.clock();
        self.pending = kicked_in(world);
        self.pending & !before
    }

    /// Counts a run of a timer that kicked the CPUs of a mask.
    pub(crate) fn count(&mut self, timer: u64, kicked: u64) {
        if let Some(figures) = self.figures.get_mut(timer as usize) {
            figures.runs = figures.runs.saturating_add(1);
            figures.kicks = figures.kicks.saturating_add(u64::from(kicked.count_ones()));
            figures.kicked |= kicked;
        }
    }
}

/// The CPUs that are kicked, one bit each.
fn kicked_in(world: &World) -> u64 {
    let mut kicked = 0u64;
    for cpu in 0..world.cpus().min(64) {
        if world.is_kicked(cpu) {
            kicked |= 1 << cpu;
        }
    }
    kicked
}
