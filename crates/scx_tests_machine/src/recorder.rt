//! A sink in memory, which may fail.
ghost use Rattle.std.specs.Prelude.{◌≡◌, true};

use scx_sched::{Note, Sink};
use std::alloc::Global;
use std::fmt::Write;

/// A sink that takes `left` more notes, and fails at the next.
#[derive(Drop)]
pub(crate) struct Recorder {
    /// A line for each note.
    pub(crate) text: String,
    pub(crate) notes: usize,
    left: usize,
    has_failed: bool,
}

impl Recorder {
    pub(crate) fn new(alloc: Global, room: usize) -> Recorder {
        Recorder {
            text: String::new(alloc),
            notes: 0,
            left: room,
            has_failed: false,
        }
    }
}

impl Sink for Recorder {
    ghost takes = { λ s n t. s.has_failed ≡ true → t ≡ s };

    ghost has_failed = { λ s. s.has_failed };

    ghost failed_stays = { λ s t n failed takes. takes failed };

    fn take(&mut self, note: Note) {
        if self.has_failed {
            return;
        }
        let Note { clock, what } = note;
        if self.left == 0 || writeln!(self.text, "{clock} {what:?}").is_err() {
            self.has_failed = true;
            return;
        }
        self.left -= 1;
        self.notes = self.notes.saturating_add(1);
    }

    fn failed(&self) -> bool {
        let failed = self.has_failed;
        failed
    }
}
