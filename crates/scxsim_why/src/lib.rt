//! Why a run went as it did: how it ended, which tasks waited longest and which ran meanwhile, which CPUs were idle
//! while tasks waited, and what never happened. `why` writes a page for people, of at most 60 lines or of all, and
//! `why_json` an object on each line, for programs. All is written once the run is over.
//!
//! `examine` goes through a run twice: its figures say which waits were the longest, and these are watched the second
//! time.
#![tactic(auto)]

mod calls;
mod ending;
mod ending_json;
mod finding;
mod half_progress;
mod json;
mod lines;
mod objects;
mod page;
mod telling;
mod telling_json;

pub use scxsim_why_lines::Length;
pub use telling::why;
pub use telling_json::why_json;
