//! The text of a search: the summary, which says what was found, where a fault or an exit comes from, and what is in none
//! of the lists; each list in which something was found, with its trace; and how far the search came.
#![tactic(auto)]

mod causes;
mod found;
mod lengths;
mod listed;
mod nones;
mod pieces;
mod sought;
mod summary;
mod told;

pub use causes::cause_of;
pub use found::write_told;
pub use sought::{are_all_answered, is_sought};
pub use summary::{Reached, Unfound, write_memory, write_search, write_summary};
pub use told::Told;
