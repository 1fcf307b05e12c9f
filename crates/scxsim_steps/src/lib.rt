//! A millisecond of a run, instruction by instruction: each callback that is called in it, with what its instructions
//! do, between the lines of the trace; the tasks that run and wait before and after; and what the policy's maps hold
//! after it.
//!
//! Each program comes to the end that the machine's own run of it comes to, which the contract of `Sink::run` asks for.
#![tactic(auto)]

mod account;
mod doings;
mod lines;
mod moments;
mod page;
mod places;
mod starting;
mod states;
mod stepper;
mod telling;
mod until;
mod words;

pub use telling::step;
