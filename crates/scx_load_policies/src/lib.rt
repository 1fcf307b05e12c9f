//! Policy files: the programs of a scheduling policy, its maps and timers, and the time that a task may wait.
//!
//! `read_policy` reads a file, or names its first fault with its path. `build` verifies the programs of
//! the file and makes the policy; `build_seeded` gives it the seed of a workload.
#![tactic(auto)]

mod building;
mod maps;
mod policy_text;
mod programs;
mod reading;
mod timers;

pub use building::{BuildError, build, build_seeded};
pub use policy_text::{PLAIN_CALLBACKS, PolicyText, Programs};
pub use reading::read_policy;
