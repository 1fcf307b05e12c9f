//! The scheduler: a machine of simulated processors and tasks that a policy of BPF programs schedules, in
//! the manner of Linux sched_ext (Documentation/scheduler/sched-ext.rst).
//!
//! `Sim::step` is given an event, and does all that it causes; what happened goes to a `Sink` as notes.
//! Between two events each runnable task is in one place, on a processor or in a queue. A policy that has a
//! fault, calls `exit`, or lets a task wait too long, is ejected, and a scheduler of the machine's own goes on.
//!
//! A machine is given one event after another, in `crates/scx_tests_machine/src/session.rt`:
//!
//! ```rust
//! for &event in events {
//!     let answer = self.sim.step(event, &mut self.recorder);
//!     expect_same(rt, answer, Ok(()), event);
//! }
//! ```
#![tactic(auto)]

mod laws;
mod places;
mod sim;

pub use laws::{
    changes_of_weight_keep_waits, ejections_lose_nobody, events_keep_places, exits_are_called,
    leavers_wait_to_run, no_idle_processor_is_forgotten, no_push_is_refused,
    nothing_is_left_behind,
};
pub use places::Place;
pub use scx_sched_machine::{Event, Hearer, NewError, Refused, Sink, Unseen};
pub use scx_sched_policy::{BadPolicy, Callbacks, Policy};
pub use scx_sched_world::{Eject, Entry, Fault, Note, Rank, What};
pub use sim::{MAX_EVENTS, Sim};
