//! The lines of `why` on what went wrong: waits, idle CPUs, held tasks, throttled groups, what the last callback read,
//! and weights. CPUs that did alike share a line if they are many.
#![tactic(auto)]

mod alike;
mod bound_waits;
mod holds;
mod idle;
mod length;
mod likewise;
mod messages;
mod queues;
mod runners;
mod scales;
mod spells;
mod throttles;
mod waits;
mod words;
mod worst;

pub use holds::{write_held_task, write_last_reads, write_reads};
pub use idle::{write_idle, write_stretches};
pub use length::Length;
pub use messages::{comment_at, write_message};
pub use queues::{write_queues, write_undrained};
pub use scales::{misscaled, write_scale};
pub use throttles::write_throttled;
pub use waits::{write_waits, write_worst};
pub use words::{tasks_of, write_count, write_more};
pub use worst::worst_of;
