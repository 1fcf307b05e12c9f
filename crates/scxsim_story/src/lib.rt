//! The story of one task in a run: the CPUs on which it may run, if it is bound to some, and a line for each note of the
//! task, of its own and its group's weight and of the policy's ejection, with the reason, in the order of the notes.
//!
//! A line is made when the next such note comes, or the next event, so that its outcome is known: queues are told as
//! they are after the event.
#![tactic(auto)]

mod life;
mod opening;
mod queue_place;
mod storyteller;
mod subject;
mod telling;
mod words;

pub use telling::story;
