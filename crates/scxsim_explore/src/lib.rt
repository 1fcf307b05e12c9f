//! Bounded exhaustive search under a policy. `explore` tries all lists of events that the machine of a policy file and of
//! a workload file accepts, up to a number of events or milliseconds. It writes what it finds, the shortest list of each
//! sort first, and what is in none. A watcher is told how far it is.
#![tactic(auto)]

mod auditing;
mod beginning;
mod ending;
mod exploring;
mod limits;
mod machines;
mod showing;
mod telling;
mod watcher;

pub use exploring::explore;
pub use limits::{Lists, MOST_BYTES, MOST_CPUS};
pub use scx_explore::MOST_TASKS;
pub use watcher::{Unwatched, Watcher};
