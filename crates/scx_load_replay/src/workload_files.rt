//! The workload file whose events begin with a list of events, where there is one.
//!
//! `workload_file` reads off the list when each task starts, runs and sleeps, and writes that down. What it
//! answers was read again and run before: `begins_with` says whether a file's events begin with a list.

mod drafts;
mod file;
mod following;
mod likeness;
mod writing;

pub use file::{begins_with, workload_file};
