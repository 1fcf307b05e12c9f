//! The bounds of a search, and what follows from them: which events its lists have, and what it keeps of a state.
//!
//! `Bounds` are a mode, a depth and a count of wakes and sleeps. `event_at` gives the events of a step, `Changes` the
//! weights that groups may get, `times_in` how many ticks are tried in a row, and `twins_of` the tasks whose wakes are
//! needless. `Uses` says what the programs of a policy do, and `form_of` by that what is kept of a state. `Memory` is kept
//! beside it.
#![tactic(auto)]

mod bounds;
mod changes;
mod forms;
mod laws;
mod memory;
mod repeats;
mod steps;
mod ticks;
mod twins;
mod uses;

pub use bounds::{Bounds, Mode};
pub use changes::{Changes, MOST_CHANGES};
pub use forms::form_of;
pub use laws::{listings_tell_runs, uses_tell_runs};
pub use memory::{Choice, Memory};
pub use repeats::{most_in_rows, most_ticks, step_of, times_in};
pub use steps::{count_of, event_at, most_events, places};
pub use ticks::Ticks;
pub use twins::twins_of;
pub use uses::Uses;
