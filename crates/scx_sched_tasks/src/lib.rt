//! The records of tasks, and who of them has waited longest.
//!
//! Who has waited too long is asked at each millisecond, and most often the answer is that nobody has. So
//! `Tasks` keeps clocks since before which nobody waits, and looks at records only where those are too old.
#![tactic(auto)]

mod task;
mod tasks;
mod watch;

pub use task::{DEFAULT_SLICE, Task};
pub use tasks::Tasks;
