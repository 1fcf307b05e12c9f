use crate::bars::{Bar, Bars};
use crate::sums::Sums;
use scxsim_layout::{Kind, Layout, Row};
use scxsim_shares::{Shares, Spent};

/// Adds the times that all tasks ran and were parked to the shares of their groups, from the columns of rows and from bars.
pub(crate) fn add_spent_times(
    shares: &mut Shares,
    layout: &Layout,
    homes: &[u32],
    sums: &Sums,
    bars: &Bars,
) {
    if !shares.has_strips() {
        return;
    }
    let mut place = 0usize;
    for row in &layout.rows {
        if let Some(group) = group_of(*row, homes) {
            shares.add_row(&sums.ran, place, group, Spent::Running);
            shares.add_row(&sums.parked, place, group, Spent::Parked);
        }
        place = place.saturating_add(1);
    }
    for bar in &bars.bars {
        if let Some(row) = layout.row(bar.row) {
            add_bar(shares, *bar, group_of(row, homes));
        }
    }
}

/// Adds the time of a bar in the row of a task of that group, if it isn't a wait.
fn add_bar(shares: &mut Shares, bar: Bar, group: Option<u32>) {
    let Some(group) = group else {
        return;
    };
    if bar.doing.runs() {
        shares.add_time(group, bar.since, bar.until, Spent::Running);
    } else if !bar.doing.waits() {
        shares.add_time(group, bar.since, bar.until, Spent::Parked);
    }
}

/// The group whose tasks a row shows, or the first of these, if it shows tasks.
fn group_of(row: Row, homes: &[u32]) -> Option<u32> {
    match row.kind {
        Kind::Cpus { .. } => None,
        Kind::Groups { first, .. } => Some(first),
        Kind::Task(task) => homes.get(task as usize).copied(),
    }
}
