use scxsim_layout::{Mark, Scale};
use std::alloc::{AllocError, Global};

/// The colours of the tasks that ran in a column.
#[derive(Clone, Copy)]
pub enum Shade {
    Nobody,
    /// Only tasks of that colour.
    One(usize),
    Several,
}

impl Shade {
    /// True if a task ran, and the shades are equal.
    pub fn is_same(self, other: Shade) -> bool {
        match self {
            Shade::Nobody => false,
            Shade::Several => other.is_several(),
            Shade::One(colour) => other.is_one(colour),
        }
    }

    fn is_several(self) -> bool {
        match self {
            Shade::Several => true,
            Shade::Nobody | Shade::One(_) => false,
        }
    }

    fn is_one(self, colour: usize) -> bool {
        match self {
            Shade::One(other) => other == colour,
            Shade::Nobody | Shade::Several => false,
        }
    }
}

/// The shade of each column, by row.
#[derive(Drop)]
pub struct Shades {
    columns: usize,
    cells: Vec<Shade>,
}

impl Shades {
    /// Returns rows in which no task ran.
    ///
    /// # Errors
    ///
    /// Memory ran out.
    pub fn new(alloc: Global, rows: usize, columns: usize) -> Result<Shades, AllocError> {
        Ok(Shades {
            columns,
            cells: vec![in alloc; Shade::Nobody; rows.saturating_mul(columns)]?,
        })
    }

    /// A task of that colour ran in a row from one moment to a later one.
    #[inline(always)]
    pub fn add(&mut self, row: usize, scale: Scale, since: Mark, until: Mark, colour: usize) {
        if since.column == until.column {
            self.mix(row, since.column, colour);
        } else {
            self.mix_all(row, scale, since, until, colour);
        }
    }

    /// Adds a run that lies in several columns.
    fn mix_all(&mut self, row: usize, scale: Scale, since: Mark, until: Mark, colour: usize) {
        for column in since.column..until.column.saturating_add(1) {
            if scale.overlap(column, since.moment, until.moment) > 0 {
                self.mix(row, column, colour);
            }
        }
    }

    /// A task of that colour ran in a column of a row.
    #[inline(always)]
    fn mix(&mut self, row: usize, column: u64, colour: usize) {
        let place = self.place(row, column);
        if let Some(cell) = self.cells.get_mut(place) {
            *cell = mixed(*cell, colour);
        }
    }

    /// The shade of a column of a row.
    pub fn shade(&self, row: usize, column: u64) -> Shade {
        match self.cells.get(self.place(row, column)) {
            Some(shade) => *shade,
            None => Shade::Nobody,
        }
    }

    #[inline(always)]
    fn place(&self, row: usize, column: u64) -> usize {
        row.saturating_mul(self.columns)
            .saturating_add(column as usize)
    }
}

/// The shade of a column in which a task of that colour ran too.
fn mixed(before: Shade, colour: usize) -> Shade {
    match before {
        Shade::Nobody => Shade::One(colour),
        Shade::One(other) => {
            if other == colour {
                before
            } else {
                Shade::Several
            }
        }
        Shade::Several => Shade::Several,
    }
}
