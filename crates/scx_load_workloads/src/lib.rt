//! Workload files: groups of tasks, the times at which each task runs and sleeps, and changes of weights.
//!
//! `read_workload` reads a file (TOML 1.1), or names its first fault with its path. `read_workload_by` reads one for
//! a policy by Linux rules, under which a task may have a weight of its own, which may change, and may be bound to
//! some CPUs, and random numbers begin at a seed of the workload.
#![tactic(auto)]

mod cpu_lists;
mod elements;
mod groups;
mod laws;
mod limit;
mod names;
mod numerals;
mod reading;
mod tasks;
mod workload;

pub use cpu_lists::texts_say_one_mask;
pub use laws::{plain_tasks_are_unbound, plain_tasks_weigh_alike};
pub use limit::texts_say_one_limit;
pub use numerals::numeral;
pub use reading::{read_known_keys, read_known_keys_by, read_workload, read_workload_by};
pub use scx_weights::Group;
pub use workload::{Change, MAX_CHANGES, MAX_CPUS, MAX_MS, Timing, Weighed, Workload};
