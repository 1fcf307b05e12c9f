ghost use Rattle.std.specs.Prelude.{◌≡◌};
ghost use Rattle.scxsim_layout.specs.Areas.{stacked, height_of};

use crate::grids::Grid;

/// The size of an area.
#[derive(Drop)]
pub struct Area {
    /// The milliseconds of a column that is as high as can be.
    pub full: u64,
    /// The height of such a column.
    pub tall: u64,
}

impl Area {
    /// The height in a column of the first rows of a grid, one upon the other.
    pub fn height(&self, times: &Grid, rows: usize, column: u64) -> u64
        ensures { result ≡ height_of (stacked rows times.now column) self.now.full self.now.tall }
    {
        let time = times.stacked(rows, column);
        (time.saturating_mul(self.tall) / self.full.max(1)).min(self.tall)
    }
}
