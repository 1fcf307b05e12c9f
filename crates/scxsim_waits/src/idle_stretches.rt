use crate::{CpuCalls, TimerKick};
use arrayvec::ArrayVec;
use std::alloc::{AllocError, Global};

/// The number of stretches that are shown.
const SHOWN: usize = 10;

/// A time in which a CPU was idle while a task waited, by the clock.
#[derive(Clone, Copy, Default)]
pub struct IdleStretch {
    pub cpu: u32,
    pub since: u64,
    pub until: u64,
}

impl IdleStretch {
    pub fn length(self) -> u64 {
        self.until.saturating_sub(self.since)
    }
}

/// A task that waits, and its queue.
#[derive(Clone, Copy, Default)]
pub struct WaitingTask {
    pub task: u16,
    pub queue: Option<u64>,
}

/// The beginning of a CPU's stretch: a task that waited then, and the calls of dispatch for the CPU up to then.
#[derive(Clone, Copy, Default)]
pub struct Beginning {
    pub waiting: Option<WaitingTask>,
    pub calls: CpuCalls,
    /// True if a callback had claimed the CPU, and it hadn't looked for a task since.
    pub is_claimed: bool,
}

/// A stretch, its beginning, and the calls of dispatch for the CPU up to its end.
#[derive(Clone, Copy, Default)]
pub struct SeenStretch {
    pub stretch: IdleStretch,
    pub beginning: Beginning,
    pub calls: CpuCalls,
}

impl SeenStretch {
    /// The calls of dispatch for the CPU that took no task meanwhile.
    pub fn vain(self) -> u64 {
        self.calls.vain.saturating_sub(self.beginning.calls.vain)
    }

    /// The last kick of the CPU by a timer since its beginning.
    pub fn kick(self) -> Option<TimerKick> {
        match self.calls.kick {
            Some(kick) if self.stretch.since < kick.clock => Some(kick),
            Some(_) | None => None,
        }
    }
}

/// The longest stretches in which a CPU was idle while a task waited.
#[derive(Drop)]
pub struct IdleStretches {
    /// The beginning of each CPU's stretch.
    beginnings: Vec<Beginning>,
    /// The longest first; of equal ones the one that ended first.
    pub longest: ArrayVec<SeenStretch, SHOWN>,
}

impl IdleStretches {
    pub fn new(alloc: Global, cpus: u32) -> Result<Self, AllocError> {
        Ok(IdleStretches {
            beginnings: vec![in alloc; Beginning::default(); cpus as usize]?,
            longest: ArrayVec::new(),
        })
    }

    /// Keeps the beginning of the CPU's stretch.
    pub fn begin(&mut self, cpu: u32, beginning: Beginning) {
        if let Some(place) = self.beginnings.get_mut(cpu as usize) {
            *place = beginning;
        }
    }

    /// Keeps a stretch that is over, with the calls of dispatch for its CPU, if it is among the longest.
    pub fn end(&mut self, stretch: IdleStretch, calls: CpuCalls) {
        let place = place_for(self.longest.as_slice(), stretch.length());
        if place == SHOWN {
            return;
        }
        if self.longest.len() == SHOWN {
            self.longest.pop();
        }
        let place = place.min(self.longest.len());
        let seen = SeenStretch {
            stretch,
            beginning: self.beginning(stretch.cpu),
            calls,
        };
        let _ = self.longest.try_insert(place, seen);
    }

    fn beginning(&self, cpu: u32) -> Beginning {
        match self.beginnings.get(cpu as usize) {
            Some(beginning) => *beginning,
            None => Beginning::default(),
        }
    }
}

/// The number of stretches that are at least as long.
fn place_for(longest: &[SeenStretch], length: u64) -> usize {
    for (place, seen) in longest.iter().enumerate() {
        if seen.stretch.length() < length {
            return place;
        }
    }
    longest.len()
}
