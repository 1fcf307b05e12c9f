//! The chart of a run for a terminal, `gantt`: a line of characters for each CPU and each task, in plain ASCII and at
//! most as wide as its sheet. A character shows the main activity in some time. Sums are kept as the run goes, and the
//! lines are written at its end.
#![tactic(auto)]

mod activities;
mod chart_marks;
mod chart_sums;
mod chart_text;
mod due_times;
mod gantt_charts;
mod grids;
mod legends;
mod marks;
mod rows;
mod scales;
mod sheets;
mod titles;
mod waits;

pub use gantt_charts::gantt;
pub use scxsim_commands::{Span, Window};
pub use sheets::{Sheet, WIDTH};
pub use titles::title;
