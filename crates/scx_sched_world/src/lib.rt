//! The world that a policy's programs see and change: the clock, tasks, processors, queues and weights,
//! with the callback at hand. It answers their helpers, as `Env` asks.
//!
//! Each step of a world is a function of what it was, and the machine above is made of such steps.
#![tactic(auto)]

mod allowed;
mod call;
mod copying;
mod counting;
mod cpu_set;
mod eject;
mod ejecting;
mod faults;
mod flags;
mod helpers;
mod host;
mod idle;
mod ids;
mod kicks;
mod notes;
mod passing;
mod pending;
mod random;
mod skipping;
mod steps;
mod timers;
mod world;

pub use call::{Call, Insert};
pub use cpu_set::{CpuSet, Marks};
pub use eject::{Cause, Eject};
pub use faults::Fault;
pub use ids::{BUILTIN, GLOBAL, HELD, LOCAL, LOCAL_ON, PARKED, POLICY_END};
pub use notes::{Note, What};
pub use passing::{Passing, Switch};
pub use scx_dsq::{Entry, Rank};
pub use scx_sched_tasks::{DEFAULT_SLICE, Task};
pub use timers::Alarm;
pub use world::World;
