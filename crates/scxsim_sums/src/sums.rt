use scxsim_layout::Grid;
use scxsim_shares::Shades;
use std::alloc::{AllocError, Global};

/// The time that a row ran in all, and waited by the clock.
#[derive(Clone, Copy)]
pub struct Total {
    pub ran: u64,
    pub waited: u64,
}

const NOTHING: Total = Total { ran: 0, waited: 0 };

/// The time that tasks ran, waited and were parked, by row and column.
#[derive(Drop)]
pub struct Sums {
    /// Runs, except bars of their own.
    pub ran: Grid,
    /// Waits that aren't bars in rows of tasks, and in rows of CPUs the time that they were idle while a task waited.
    pub waited: Grid,
    /// The time that tasks were parked, except bars, and in rows of CPUs the time that they were idle meanwhile while no
    /// task waited.
    pub parked: Grid,
    /// The colours of the tasks that ran on CPUs.
    pub shades: Shades,
    /// The layers of the area of all CPUs: the runs of each group's tasks, then the time in which CPUs were idle while
    /// a task waited, then that in which they were idle while a quota was used up.
    pub area: Grid,
    totals: Vec<Total>,
}

impl Sums {
    /// Sums of no time, for this many rows, of which the first ones are CPUs, and for that many layers of an area.
    pub(crate) fn new(
        alloc: Global,
        rows: usize,
        cpus: usize,
        columns: usize,
        layers: usize,
    ) -> Result<Sums, AllocError> {
        Ok(Sums {
            ran: Grid::new(alloc, rows, columns)?,
            waited: Grid::new(alloc, rows, columns)?,
            parked: Grid::new(alloc, rows, columns)?,
            shades: Shades::new(alloc, cpus, columns)?,
            area: Grid::new(alloc, layers, columns)?,
            totals: vec![in alloc; NOTHING; rows]?,
        })
    }

    /// Adds the time that CPUs were idle, that of the first row of sums, as the last two layers of an area.
    pub(crate) fn add_idle_layers(&mut self, columns: u64, layers: usize) {
        for column in 0..columns {
            let waited = self.waited.sum(0, column);
            let parked = self.parked.sum(0, column);
            self.area.add_at(layers, column, waited);
            self.area.add_at(layers.saturating_add(1), column, parked);
        }
    }

    /// The time that a row ran and waited.
    pub fn total(&self, row: usize) -> Total {
        match self.totals.get(row) {
            Some(total) => *total,
            None => NOTHING,
        }
    }

    #[inline(always)]
    pub(crate) fn add_run(&mut self, row: usize, ms: u64) {
        if let Some(total) = self.totals.get_mut(row) {
            total.ran = total.ran.saturating_add(ms);
        }
    }

    #[inline(always)]
    pub(crate) fn add_wait(&mut self, row: usize, ms: u64) {
        if let Some(total) = self.totals.get_mut(row) {
            total.waited = total.waited.saturating_add(ms);
        }
    }
}
