use crate::activities::Doing;
use scxsim_layout::Scale;
use std::alloc::{AllocError, Global};

/// The most bars of a picture: as many as are wide enough.
const MOST: usize = 9500;

/// The most rows of a picture that shows wakes.
const WAKE_ROWS: usize = 40;

/// The most wakes of a row, and the least distance between two of them, in hundredths of a pixel.
const WAKES_A_ROW: usize = 170;

const APART: u64 = 800;

/// A bar in a row: a task did one thing from one moment to another.
#[derive(Clone, Copy)]
pub struct Bar {
    pub row: usize,
    pub task: u16,
    pub doing: Doing,
    pub since: u64,
    pub until: u64,
    pub colour: usize,
}

/// A task woke: its row, and the place of that moment.
#[derive(Clone, Copy)]
pub struct Woken {
    pub row: usize,
    pub x: u64,
}

/// The bars of a picture, in the order of their ends, and the wakes.
#[derive(Drop)]
pub struct Bars {
    pub bars: Vec<Bar>,
    pub wakes: Vec<Woken>,
    most_wakes: usize,
    /// The least place of the next wake of each row.
    next: Vec<u64>,
}

impl Bars {
    /// No bars yet, for this many rows.
    pub(crate) fn new(alloc: Global, rows: usize) -> Result<Bars, AllocError> {
        let most_wakes = if rows <= WAKE_ROWS {
            rows.saturating_mul(WAKES_A_ROW)
        } else {
            0
        };
        let bars = Vec::with_capacity(alloc, MOST)?;
        let wakes = Vec::with_capacity(alloc, most_wakes)?;
        Ok(Bars {
            bars,
            wakes,
            most_wakes,
            next: vec![in alloc; 0; rows]?,
        })
    }

    /// Keeps a bar, if there is room for it. Returns whether there is.
    pub(crate) fn push(&mut self, bar: Bar) -> bool {
        self.bars.len() < MOST && self.bars.push(bar).is_ok()
    }

    /// A task woke in that row. It is kept where there is room for it.
    pub(crate) fn wake(&mut self, row: usize, scale: Scale, moment: u64) {
        if self.wakes.len() >= self.most_wakes || !scale.has(moment) {
            return;
        }
        let x = scale.x(moment);
        let Some(next) = self.next.get_mut(row) else {
            return;
        };
        if *next <= x {
            *next = x.saturating_add(APART);
            let _ = self.wakes.push(Woken { row, x });
        }
    }
}
