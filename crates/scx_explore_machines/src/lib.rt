//! The memory of a search: machines, and the states that were met.
//!
//! `Seen` keeps states, each once, and the way by which each was met. `Machines` has a machine for each state that is
//! expanded, as far as there are any, and for those on the way to a state that has none. `Revisits` has the states for
//! which there was no room. `Look` observes events for a search.
#![tactic(auto)]

mod following;
mod look;
mod machines;
mod marks;
mod most;
mod revisits;
mod seen;

pub use look::Look;
pub use machines::{Machines, most_machines, push};
pub use most::Most;
pub use revisits::{Between, Lost, Origin, Revisits};
pub use seen::{Entered, Seen, Way};
