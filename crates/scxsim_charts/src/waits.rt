use scx_sched::What;
use scxsim_commands::Window;
use scxsim_views::{Pause, Pauses};
use std::alloc::{AllocError, Global};

/// The waits of tasks, by moments and by the clock.
#[derive(Drop)]
pub(crate) struct Waits {
    bars: Pauses,
    clocks: Pauses,
}

/// A pause by moments, as a bar, and by the clock.
#[derive(Clone, Copy)]
pub(crate) struct Paused {
    pub(crate) bar: Pause,
    clock: Pause,
}

impl Waits {
    /// All of these tasks sleep.
    pub(crate) fn new(alloc: Global, tasks: usize) -> Result<Waits, AllocError> {
        Ok(Waits {
            bars: Pauses::new(alloc, tasks)?,
            clocks: Pauses::new(alloc, tasks)?,
        })
    }

    /// Takes a note. Returns the pause that it ends, if it ends one.
    pub(crate) fn show(&mut self, moment: u64, clock: u64, what: What) -> Option<Paused> {
        let bar = self.bars.show(moment, what);
        let clock = self.clocks.show(clock, what);
        Some(Paused {
            bar: bar?,
            clock: clock?,
        })
    }

    /// The pause of a task as the run ends.
    pub(crate) fn end(&self, task: u16, clock: u64) -> Option<Paused> {
        Some(Paused {
            bar: self.bars.open_pause(task, clock)?,
            clock: self.clocks.open_pause(task, clock)?,
        })
    }
}

impl Paused {
    /// The milliseconds of a wait in a window: those of its bar there. If it ends there, it is as long as by the clock, but
    /// longer than its bar only in a window that begins with the run.
    pub(crate) fn within(self, window: Window) -> u64 {
        let until = self.bar.until.min(window.to);
        let bar = until.saturating_sub(self.bar.since.max(window.from));
        let less = self.bar.length().saturating_sub(self.clock.length());
        let more = self.clock.length().saturating_sub(self.bar.length());
        if window.to < self.bar.until {
            bar
        } else if window.from == 0 {
            bar.saturating_add(more).saturating_sub(less)
        } else {
            bar.saturating_sub(less)
        }
    }
}
