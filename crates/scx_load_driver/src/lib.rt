//! The driver of a workload: it gives a machine the workload's events, one after another.
//!
//! A millisecond has five blocks of events, in this order: weights change, tasks wake, each CPU ticks, tasks that
//! have run long enough go to sleep, and the clock grows. A task that has run as long as its workload says sleeps,
//! and wakes when it has slept, so each block depends on the machine's state as the block begins. `Driver::new`
//! takes all memory; `Driver::next` answers the next event for a machine that took all events before it, and none
//! at the end. That no machine made for the workload refuses an event is the law `no_event_is_refused`.
//!
//! Few tasks are looked at for an event. A `Calendar` has the tasks of each day, which is a remainder of the
//! millisecond in which they wake, and a driver watches only the tasks that may have run enough. Changes of weights
//! are sorted by their times once, and a block looks only at its own.
//!
//! `Events` is the trait of what gives a machine its events: a driver, or what reads a file of events.
//!
//! The headline: for every policy whose callbacks `verify` accepts and every list of events, the recorded
//! run is the machine's; in it no callback is ever stuck or takes more steps than it has instructions,
//! every runnable task appears exactly once on a processor or in a queue, and while the policy is in force
//! no task has waited longer than its limit. `run_events` does such a run, and its contract says so. The
//! contracts of `simulate` and `report` say it of the runs that they write of.
#![tactic(auto)]

mod blocks;
mod calendar;
mod driver;
mod events;
mod giving_back;
mod laws;
mod run;
mod set;
mod skipping;

pub use driver::{Driver, Phase};
pub use events::Events;
pub use giving_back::{give_back_machine, give_back_policy};
pub use laws::no_event_is_refused;
pub use run::run_events;
