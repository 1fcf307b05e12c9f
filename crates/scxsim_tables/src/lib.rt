//! The figures of a run as tables for people, and as comma-separated values, written once the run is over; and one
//! line on how it ended.
#![tactic(auto)]

mod checking;
mod tables;
mod telling;
mod values;
mod wait_tables;
mod wait_values;

pub use checking::check_run;
pub use scxsim_statistics::figures;
pub use telling::{replay_csv, stats, stats_csv};
