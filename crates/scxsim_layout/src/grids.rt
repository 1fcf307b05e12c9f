ghost use Rattle.std.specs.Prelude.{◌≡◌, slice_index_or};
ghost use Rattle.scxsim_layout.specs.Areas.{time_at, stacked};

use crate::scales::{Mark, Scale};
use std::alloc::{AllocError, Global};

/// Sums of milliseconds by row and column.
#[derive(Drop)]
pub struct Grid {
    columns: usize,
    sums: Vec<u32>,
}

impl Grid {
    /// Returns rows of no time.
    ///
    /// # Errors
    ///
    /// Memory ran out.
    pub fn new(alloc: Global, rows: usize, columns: usize) -> Result<Grid, AllocError> {
        Ok(Grid {
            columns,
            sums: vec![in alloc; 0; rows.saturating_mul(columns)]?,
        })
    }

    /// Adds the time between two moments to the columns of a row in which it lies.
    #[inline(always)]
    pub fn add(&mut self, row: usize, scale: Scale, since: Mark, until: Mark) {
        if since.column == until.column {
            self.add_at(row, since.column, scale.within(since.moment, until.moment));
        } else {
            self.add_all(row, scale, since, until);
        }
    }

    /// Adds time that lies in several columns.
    fn add_all(&mut self, row: usize, scale: Scale, since: Mark, until: Mark) {
        for column in since.column..until.column.saturating_add(1) {
            let ms = scale.overlap(column, since.moment, until.moment);
            self.add_at(row, column, ms);
        }
    }

    /// Adds time to a column of a row.
    #[inline(always)]
    pub fn add_at(&mut self, row: usize, column: u64, ms: u64) {
        let place = self.place(row, column);
        if let Some(sum) = self.sums.get_mut(place) {
            *sum = sum.saturating_add(narrow(ms));
        }
    }

    /// The sum of the columns from one to another in a row.
    pub fn sum_of(&self, row: usize, first: u64, end: u64) -> u64 {
        let mut ms = 0u64;
        for column in first..end.min(self.columns as u64) {
            ms = ms.saturating_add(self.sum(row, column));
        }
        ms
    }

    /// The sum of a column in a row.
    pub fn sum(&self, row: usize, column: u64) -> u64
        ensures { result ≡ time_at self.now row column }
    {
        u64::from(self.sums.get(self.place(row, column)).copied().unwrap_or(0))
    }

    /// The sum of a column in the first rows.
    pub(crate) fn stacked(&self, rows: usize, column: u64) -> u64
        ensures { result ≡ stacked rows self.now column }
    {
        let mut ms = 0u64;
        for row in 0..rows {
            ms = ms.saturating_add(self.sum(row, column));
        }
        ms
    }

    /// The place of a column of a row; one past all sums if there is no such column.
    #[inline(always)]
    fn place(&self, row: usize, column: u64) -> usize
        ensures { slice_index_or self.now.sums.items result 0 ≡ time_at self.now row column }
    {
        if (column as usize) < self.columns {
            row.saturating_mul(self.columns)
                .saturating_add(column as usize)
        } else {
            usize::MAX
        }
    }
}

fn narrow(ms: u64) -> u32 {
    ms.min(u64::from(u32::MAX)) as u32
}
