//! The machine: events, and what callbacks, queues and CPUs make of them.
//!
//! An event is one step. In it tasks wake, wait, move, run and stop, callbacks of the policy run, and
//! each change is a note, which goes to a sink. A step is a function of the machine before it, and
//! takes no memory.
#![tactic(auto)]

mod callbacks;
mod custody;
mod cycle;
mod ejecting;
mod events;
mod firing;
mod idle_cpus;
mod machine;
mod parking;
mod put;
mod reweighing;
mod rounds;
mod sink;
mod skipping;
mod sleeping;
mod start;
mod switching;
mod waking;

pub use events::{Event, Refused};
pub use machine::Machine;
pub use sink::{Hearer, Sink, Unseen};
pub use start::NewError;
