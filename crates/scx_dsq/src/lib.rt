//! Dispatch queues, where tasks wait between waking and running (Linux,
//! Documentation/scheduler/sched-ext.rst, "Dispatch Queues").
//!
//! A queue has an id and is either FIFO or ordered by virtual time. A task goes to the end of a FIFO
//! queue, or to its front. `Queues` holds all queues, and each task waits in at most one. All memory is
//! taken by `Queues::new`: no later call takes any.
//!
//! A task is put into queue 0, if there is room and it is one of the tasks, in `crates/scx_tests_bench/src/queues.rt`:
//!
//! ```rust
//! if task as usize >= queues.tasks() || queues.pushes() >= 1 << 62 {
//!     return None;
//! }
//! let key = number.wrapping_mul(0x9e37_79b9_7f4a_7c15) >> 54;
//! match order {
//!     Order::Fifo => queues.push_fifo(0, task).ok(),
//!     Order::Vtime => queues.push_vtime(0, task, key, steps).ok(),
//! }
//! ```
#![tactic(auto)]

mod choosing;
mod entries;
mod errors;
mod heap;
mod kept_entry;
mod laws;
mod links;
mod optional_task;
mod priority;
mod queue;
mod queues;
mod steps;
mod task_set;

pub use entries::{Entry, Rank};
pub use errors::QueueError;
pub use laws::{appearances_are_conserved, front_pushes_lead, fronts_are_unique};
pub use queues::Queues;
pub use steps::Steps;
pub use task_set::TaskSet;
