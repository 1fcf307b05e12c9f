//! The sums that a picture shows of a run: how long tasks ran and waited, by row and column; bars for runs and waits
//! that are long enough; and the shares of groups (`scxsim_shares`). A `Gathering` adds them up as the run goes.
#![tactic(auto)]

mod activities;
mod bars;
mod gathered;
mod gathering;
mod idles;
mod longest_waits;
mod queues;
mod spent_times;
mod sums;
mod waiters;

pub use activities::Doing;
pub use bars::{Bar, Bars, Woken};
pub use gathered::Gathered;
pub use gathering::Gathering;
pub use longest_waits::{Longest, Wait};
pub use queues::{DrawnQueues, Queue, Used};
pub use sums::{Sums, Total};
