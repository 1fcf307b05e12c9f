//! The figures of a run: each task's run time, waits and bursts, each CPU's busy and idle time, and each group's
//! share beside the share that was due to it. `task_name` and its like name what figures are of, and `write_numbers`
//! and its like write them as tables do.
#![tactic(auto)]

mod bursts;
mod gathering;
mod group_waits;
mod groups;
mod latencies;
mod losses;
mod names;
mod numbers;
mod runs;
mod tally;

pub use bursts::BurstFigures;
pub use gathering::Figures;
pub use group_waits::GroupWaits;
pub use groups::GroupFigures;
pub use latencies::LatencyFigures;
pub use losses::Losses;
pub use names::{group_name, has_quota, limit_of, task_name};
pub use numbers::{
    write_hundredths, write_hundredths_right, write_left, write_number_left, write_number_right,
    write_numbers,
};
pub use runs::{FiguresAndStart, Start, figures, figures_and_start, replay_figures};
pub use scxsim_views::{LengthCounts, QuotaFigures, Quotas};
pub use tally::{CpuFigures, TaskFigures};
