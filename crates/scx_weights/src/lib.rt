//! Shares of processor time by `cpu.weight` (Linux Documentation/admin-guide/cgroup-v2.rst).
//!
//! A `Tree` holds groups with weights, the group of each task, and which tasks are active. `weight_of`
//! answers a task's share, computed exactly from the whole tree as it is now. Sums that are kept up
//! along the way to the top make these calls cost at most three levels, however many groups and tasks
//! there are. `usage`, and `turn` where a period may begin, go over all groups.
//!
//! A tree is made, in `crates/scx_tests_host/src/weights.rt`:
//!
//! ```rust
//! /// A tree all of whose tasks are asleep.
//! fn asleep<R: AllocGlobal + Abort>(rt: &R, groups: &[Group], tasks: &[u32]) -> Tree {
//!     Tree::new(rt.alloc(), groups, tasks).expect(rt, "each task is in a group")
//! }
//! ```
//!
//! Its tasks begin to have work, or sleep, in `crates/scx_tests_host/src/weights.rt`:
//!
//! ```rust
//! assert!(rt; task < tree.tasks());
//! if is_active {
//!     tree.activate(task);
//! } else {
//!     tree.deactivate(task);
//! }
//! ```
//!
//! A task also has a weight of its own, as a kernel gives it one by its nice value: `own_weight`. It is no part of its
//! share.
//!
//! `usages_count_runs` and the other laws of `cpu.max` say what a usage counts, and how far it goes on a machine that
//! stops a task as soon as it is throttled. `DueShares` counts which share of the processors is due to each group, as
//! tasks wake and sleep and weights change.
#![tactic(auto)]

mod admission;
mod copying;
mod due_shares;
mod error;
mod group;
mod group_paths;
mod laws;
mod quotas;
mod share;
mod sums;
mod tree;
mod usage;

pub use due_shares::{DueShares, WHOLE};
pub use error::TreeError;
pub use group::{
    DEFAULT_OWN_WEIGHT, DEFAULT_PERIOD_MS, Group, MAX_DEPTH, MAX_GROUPS, MAX_PERIOD_MS,
    MAX_QUOTA_MS, MAX_TASKS, MAX_WEIGHT, MIN_WEIGHT, is_weight,
};
pub use group_paths::path_of;
pub use laws::{freed_are_free, ways_reach_top};
pub use quotas::{runs_are_bounded, throttled_stay, usages_are_bounded, usages_count_runs};
pub use tree::Tree;
