//! A search through all lists of events that a machine accepts, by their length.
//!
//! `Search` goes from the state of a machine before any event to all states that one event more leads to, and
//! so on. A state that was met before isn't gone through again. What is found is a `Finding`, and `shows` says
//! whether a list that is run from the beginning ends in it. `form_of` says what is kept of a state, and `Course` keeps
//! how far a search has come. `starts_of` looks at what happens before any event.
#![tactic(auto)]

mod course;
mod events;
mod finds;
mod milliseconds;
mod observing;
mod progress;
mod revisiting;
mod search;
mod starts;
mod trail;

pub use course::{Course, End};
pub use progress::{Found, Level, Progress};
pub use scx_explore_bounds::{Bounds, MOST_CHANGES, Mode, form_of};
pub use scx_explore_findings::{Finding, Pair, SORTS, Sort, shows};
pub use scx_explore_machines::Way;
pub use scx_explore_states::{Form, MOST_TASKS, Step, Tasks};
pub use search::Search;
pub use starts::{Starts, starts_of};
