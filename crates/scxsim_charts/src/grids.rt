ghost use Rattle.std.specs.Prelude.{◌≡◌, slice_index_or};
ghost use Rattle.scxsim_charts.specs.Times.{time_at};

use crate::scales::Scale;
use std::alloc::{AllocError, Global};

/// Sums of time, in parts of a millisecond, by row and character.
#[derive(Drop)]
pub(crate) struct Grid {
    /// The characters of each row.
    cells: usize,
    /// The sums of all rows, one row after another.
    times: Vec<u64>,
}

impl Grid {
    /// Returns rows of no time.
    pub(crate) fn new(alloc: Global, rows: usize, cells: usize) -> Result<Grid, AllocError> {
        Ok(Grid {
            cells,
            times: vec![in alloc; 0u64; rows.saturating_mul(cells)]?,
        })
    }

    /// Adds the time between two moments to the characters of a row in which it lies.
    pub(crate) fn add(&mut self, row: usize, scale: Scale, since: u64, until: u64) {
        for cell in scale.cell(since)..scale.end_cell(until) {
            self.add_to_cell(row, cell, scale.overlap(cell, since, until));
        }
    }

    /// Adds an amount to each character of a row that lies in a millisecond.
    pub(crate) fn add_to_all(&mut self, row: usize, scale: Scale, clock: u64, more: u64) {
        for cell in scale.cell(clock)..scale.end_cell(clock.saturating_add(1)) {
            self.add_to_cell(row, cell, more);
        }
    }

    /// Adds time to a character of a row, if it is there.
    fn add_to_cell(&mut self, row: usize, cell: usize, more: u64) {
        let place = self.place(row, cell);
        if let Some(sum) = self.times.get_mut(place) {
            *sum = sum.saturating_add(more);
        }
    }

    /// The place of a character of a row; one past all sums if there is no such character.
    fn place(&self, row: usize, cell: usize) -> usize
        ensures { slice_index_or self.now.times.items result 0 ≡ time_at self.now row cell }
    {
        if cell < self.cells {
            row.saturating_mul(self.cells).saturating_add(cell)
        } else {
            usize::MAX
        }
    }

    /// The sum of a character in a row.
    pub(crate) fn sum(&self, row: usize, cell: usize) -> u64
        ensures { result ≡ time_at self.now row cell }
    {
        self.times.get(self.place(row, cell)).copied().unwrap_or(0)
    }

    /// The sum of a row.
    pub(crate) fn total(&self, row: usize) -> u64 {
        let mut total = 0u64;
        for cell in 0..self.cells {
            total = total.saturating_add(self.sum(row, cell));
        }
        total
    }
}
