//! The page of a run, `view`, which a browser shows without a network. It has the contents of the two files, each
//! stretch of time in which a task ran or waited, in the order of their ends, and the code that draws them. If there
//! could be too many stretches, a first pass over the run counts them; then a pass writes them. If there are too many, a
//! part is refused, and short ones of a whole run are drawn together.
#![tactic(auto)]

mod base64_lines;
mod clocks;
mod drafts;
mod heads;
mod passes;
mod piece_bytes;
mod queue_numbers;
mod recording;
mod run_pages;
mod stretch_count;
mod stretch_parts;
mod tails;
mod task_states;

pub use clocks::waits_are_told;
pub use heads::Paths;
pub use run_pages::view;
