//! States of machines in words.
//!
//! A `Form` says what is kept of a state: no more than the machine and the programs of a policy can tell. It writes
//! that as `Words`, in which `QueueNumbers` number the queues. A `Step` leads from one state to another. Where a form leaves out
//! slices, ticks are tried as many `times` in a row as the slice of a task lasts.
#![tactic(auto)]

mod form;
mod laws;
mod map_words;
mod order;
mod queue_numbers;
mod rows;
mod step;
mod ticks;
mod words;
mod written;

pub use form::{Form, MOST_TASKS};
pub use laws::{half_words_tell, runs_point_to_their_task, words_tell};
pub use map_words::MapWords;
pub use queue_numbers::QueueNumbers;
pub use rows::MOST_CPUS;
pub use step::{Step, Tasks};
pub use ticks::times;
pub use words::Words;
