//! Standard error: remarks on a refused file, and the progress of a run or a search.
//!
//! A remark goes with the refusal's line: the place, as compilers write it, so that editors go there; the line
//! itself; below it the reason; and what may have been meant. The call for whose fault a policy was ejected has one
//! too. A hint says what to do: of a word, a file of another kind, or files that are too large for a search.
//!
//! Progress says which part of a run is over and how long the rest takes; of a search, how far it is and how fast. It
//! takes one line of a terminal, which is taken back at the end.
#![tactic(auto)]

mod assembler;
mod callbacks;
mod estimate;
mod faults;
mod line;
mod meant;
mod named_text;
mod natures;
mod nearest;
mod pace;
mod progress;
mod remarks;
mod search;
mod search_limits;
mod word_hints;

pub use callbacks::remarks_on_callbacks;
pub use estimate::Estimate;
pub use faults::remark_on_fault;
pub use named_text::NamedText;
pub use pace::Pace;
pub use progress::Progress;
pub use remarks::{remark_on_file, remark_on_run};
pub use search::SearchProgress;
pub use search_limits::hint_on_limits;
pub use word_hints::{hint_on_callback, hint_on_lists, hint_on_moment, hint_on_task};
