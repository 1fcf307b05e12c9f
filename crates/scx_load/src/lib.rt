//! The readers of the host's files, under one name: policy files, workload files, and the events of a
//! workload.
//!
//! `read_policy` and `build` make a policy of a text, `read_workload` a workload for a policy by plain rules,
//! `read_workload_by` one for a policy by those rules, and a `Driver` gives the workload's events to a machine, one
//! after another.
//!
//! A workload is read, and its driver gives its events, in `crates/scx_tests_machine/src/driving.rt`:
//!
//! ```rust
//! let workload = read_workload(rt.alloc(), text).expect(rt, "a workload");
//! let mut session = session_for(rt, &workload);
//! let mut driver = Driver::new(rt.alloc(), &workload).expect(rt, "a driver");
//! run(rt, &mut session, &mut driver, events);
//! ```
#![tactic(auto)]

pub use scx_load_driver::Driver;
pub use scx_load_files::{Cause, LoadError};
pub use scx_load_policies::{BuildError, PolicyText, build, read_policy};
pub use scx_load_workloads::{
    Change, Group, Timing, Weighed, Workload, read_workload, read_workload_by,
};
