use scxsim_layout::Grid;
use std::alloc::{AllocError, Global};

/// The number of shades.
pub const LEVELS: u64 = 16;

/// The shade of a column: its time, in sixteenths of a full column.
#[derive(Clone, Copy)]
pub enum Level {
    Empty,
    /// Some time, but less than the faintest shade.
    Tiny,
    Full(u64),
}

impl Level {
    fn of(ms: u64, full: u64) -> Level {
        if full > 0 {
            Level::Full(full)
        } else if ms > 0 {
            Level::Tiny
        } else {
            Level::Empty
        }
    }

    /// True if it has no time.
    pub fn is_empty(self) -> bool {
        match self {
            Level::Empty => true,
            Level::Tiny | Level::Full(_) => false,
        }
    }

    /// The number of its shade; 0 is fainter than any. An empty column has none.
    pub fn shade(self) -> Option<u64> {
        match self {
            Level::Empty => None,
            Level::Tiny => Some(0),
            Level::Full(full) => Some(full),
        }
    }

    /// The third of a full column that its time reaches, if it has some.
    pub fn third(self) -> Option<u64> {
        match self {
            Level::Empty => None,
            Level::Tiny => Some(0),
            Level::Full(full) => Some(full.saturating_sub(1).saturating_mul(3) / LEVELS),
        }
    }
}

/// The columns of a row as shades, in sixteenths of a full column.
///
/// A remainder goes to the next column, and the last one becomes a short line at the end. So widths times shades
/// are the sum of all time.
#[derive(Drop)]
pub struct Levels {
    pub levels: Vec<Level>,
    /// The milliseconds of a full column, and all milliseconds.
    pub unit: u64,
    pub sum: u64,
    /// The last column with some time, and the remainder there, in sixteenths of a millisecond.
    pub last: u64,
    pub rest: u64,
}

impl Levels {
    /// Returns this many empty columns.
    ///
    /// # Errors
    ///
    /// Memory ran out.
    pub fn new(alloc: Global, columns: usize) -> Result<Levels, AllocError> {
        Ok(Levels {
            levels: vec![in alloc; Level::Empty; columns]?,
            unit: 1,
            sum: 0,
            last: 0,
            rest: 0,
        })
    }

    /// Takes the columns of a row; a full column has `unit` milliseconds.
    pub fn take(&mut self, grid: &Grid, row: usize, unit: u64) {
        self.unit = unit.max(1);
        self.sum = 0;
        self.rest = 0;
        self.last = 0;
        let mut column = 0u64;
        let mut carry = 0u64;
        let mut sum = 0u64;
        let mut last = 0u64;
        for level in self.levels.iter_mut() {
            let ms = grid.sum(row, column);
            let have = ms.saturating_mul(LEVELS).saturating_add(carry);
            let full = (have / unit.max(1)).min(LEVELS);
            carry = have.saturating_sub(full.saturating_mul(unit.max(1)));
            *level = Level::of(ms, full);
            sum = sum.saturating_add(ms);
            last = if ms > 0 { column } else { last };
            column = column.saturating_add(1);
        }
        self.sum = sum;
        self.last = last;
        self.rest = carry;
    }

    /// True if no column has time.
    pub fn is_empty(&self) -> bool {
        self.sum == 0
    }
}
