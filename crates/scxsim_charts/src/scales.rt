use scxsim_commands::Window;

/// The least number of characters between two numbers of the axis.
const APART: u64 = 16;

/// A scale of time: a character is some milliseconds, or a millisecond is some characters. Times are counted in
/// parts of a millisecond, of which a character has a whole number.
#[derive(Clone, Copy)]
pub(crate) struct Scale {
    pub(crate) window: Window,
    /// The most characters of a line that show time, at least 1.
    cells: u64,
    /// The parts of a millisecond, at least 1.
    parts: u64,
    /// The parts of a character, at least 1.
    step: u64,
}

impl Scale {
    /// A scale for lines in which that many characters show time.
    pub(crate) fn new(window: Window, cells: u64) -> Scale {
        let cells = cells.max(1);
        let length = window.to.saturating_sub(window.from).max(1);
        let parts = (cells / length).max(1);
        let step = length.saturating_mul(parts).div_ceil(cells).max(1);
        Scale {
            window,
            cells,
            parts,
            step,
        }
    }

    /// The most characters of a line that show time.
    pub(crate) fn cells(self) -> usize {
        self.cells as usize
    }

    /// The parts between the beginning of the window and a moment of it.
    fn place(self, moment: u64) -> u64 {
        let moment = moment.min(self.window.to);
        moment
            .saturating_sub(self.window.from)
            .saturating_mul(self.parts)
    }

    /// The character in which a moment lies; the one after the last at the end of the window.
    pub(crate) fn cell(self, moment: u64) -> usize {
        let cell = self.place(moment) / self.step.max(1);
        cell.min(self.cells) as usize
    }

    /// The number of characters that are needed.
    pub(crate) fn used(self) -> usize {
        self.end_cell(self.window.to)
    }

    /// The number of characters that aren't.
    pub(crate) fn unused(self) -> usize {
        self.cells().saturating_sub(self.used())
    }

    /// The time between two moments that lies in a character.
    pub(crate) fn overlap(self, cell: usize, since: u64, until: u64) -> u64 {
        let begin = (cell as u64).saturating_mul(self.step);
        let end = begin.saturating_add(self.step);
        let until = self.place(until).min(end);
        until.saturating_sub(self.place(since).max(begin))
    }

    /// The time of a character: the last one may have less.
    pub(crate) fn length(self, cell: usize) -> u64 {
        self.overlap(cell, self.window.from, self.window.to)
    }

    /// The first character after that moment.
    pub(crate) fn end_cell(self, until: u64) -> usize {
        let cells = self.place(until).div_ceil(self.step.max(1));
        cells.min(self.cells) as usize
    }

    /// True if the moment lies in the window.
    pub(crate) fn has(self, moment: u64) -> bool {
        self.window.from <= moment && moment < self.window.to
    }

    /// The number of characters between two numbers of the axis: they are whole milliseconds.
    pub(crate) fn apart(self) -> usize {
        let parts = self.parts.max(1);
        parts.max(APART.saturating_sub(APART % parts)) as usize
    }

    /// The moment with which a character begins, in whole milliseconds.
    pub(crate) fn moment(self, cell: usize) -> u64 {
        let parts = (cell as u64).saturating_mul(self.step);
        self.window.from.saturating_add(parts / self.parts.max(1))
    }

    /// The milliseconds of a character; none where it has less than one.
    pub(crate) fn ms_a_cell(self) -> Option<u64> {
        if self.parts == 1 {
            Some(self.step)
        } else {
            None
        }
    }

    /// A sum of time in whole milliseconds.
    pub(crate) fn ms(self, sum: u64) -> u64 {
        sum / self.parts.max(1)
    }

    /// The number of characters of a millisecond, where it has more than one.
    pub(crate) fn cells_a_ms(self) -> u64 {
        self.parts
    }
}
