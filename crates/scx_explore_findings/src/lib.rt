//! Lists of events, and what a machine shows at the end of one.
//!
//! `shows` runs a list from a machine on, and says whether it ends in a `Finding`. `fault_of`, `stall_of`, `exit_of` and `idle_in`
//! tell what a machine shows after an event. `Watch` follows which tasks begin to run while another waits.
//!
//! A `Path` keeps the machine after each event of a list, so lists with a common beginning share that much of their
//! runs. `replay` tells the first event of a list at which the policy is ejected. A `Pool` has machines that take over
//! from one another.
//!
//! Definitions and lemmas say which parts of a machine change nothing that is looked for. `scx_explore_audit` has the laws.
#![tactic(auto)]

mod checks;
mod copies;
mod count;
mod counted;
mod finding;
mod heard;
mod outcome;
mod path;
mod pool;
mod showing;
mod tally;
mod watch;

pub use checks::{exit_of, fault_of, idle_in, stall_of};
pub use copies::copies_of;
pub use counted::run_counted;
pub use finding::{Finding, Pair, SORTS, Sort};
pub use heard::Heard;
pub use outcome::{Outcome, replay};
pub use path::Path;
pub use pool::Pool;
pub use showing::shows;
pub use watch::{Watch, Watched};
