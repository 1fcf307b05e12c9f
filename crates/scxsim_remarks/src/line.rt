use std::fmt;
use std::rt::Clock;
use std::time::{Duration, Instant};

/// The milliseconds that a command may take before anything is said of it.
const PATIENCE: u64 = 2000;

/// The milliseconds for which a line is left before it is written again.
const PAUSE: u64 = 250;

/// Goes to the beginning of the terminal's line.
const START: &str = "\r";

/// Empties the terminal's line from here on.
const CLEAR: &str = "\x1b[K";

/// The line of a terminal that says how far a command is.
#[derive(Clone, Copy)]
pub(crate) struct Line {
    began: Instant,
    /// The time after that at which it is written next.
    due: Duration,
    is_there: bool,
}

impl Line {
    /// The command begins now. None where the clock can't be read.
    pub(crate) fn new<R: Clock>(rt: &R) -> Option<Line> {
        Some(Line {
            began: Instant::now(rt).ok()?,
            due: Duration::from_millis(PATIENCE),
            is_there: false,
        })
    }

    /// The time that the command has taken, where the line is due.
    pub(crate) fn took_if_due<R: Clock>(&mut self, rt: &R) -> Option<Duration> {
        let took = self.began.elapsed(rt).ok()?;
        if took < self.due {
            return None;
        }
        self.due = took.saturating_add(Duration::from_millis(PAUSE));
        Some(took)
    }

    pub(crate) fn write<R: Eprint, T: fmt::Display>(&mut self, rt: &R, text: &T) {
        let _ = eprint!(rt; "{START}{text}{CLEAR}");
        self.is_there = true;
    }

    pub(crate) fn take_back<R: Eprint>(&mut self, rt: &R) {
        if self.is_there {
            let _ = eprint!(rt; "{START}{CLEAR}");
            self.is_there = false;
        }
    }
}
