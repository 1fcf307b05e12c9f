/// The columns of a chart where none are asked for.
pub const WIDTH: u64 = 100;

/// The least columns of a chart, and the most.
const LEAST: u64 = 72;

const MOST: u64 = 1_000;

/// The columns of a line that show no time: the name before it, and the sums after it.
pub(crate) const BESIDE: u64 = 40;

/// The paper of a chart: its title, and the columns that there are.
#[derive(Clone, Copy)]
pub struct Sheet<'a> {
    pub title: &'a str,
    pub columns: u64,
}

/// The characters of a line that show time, on a sheet of these columns.
pub(crate) fn cells_of(columns: u64) -> u64 {
    columns.clamp(LEAST, MOST).saturating_sub(BESIDE)
}
