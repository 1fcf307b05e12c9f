//! The parts of the pages of `scxsim_page`: the text that all pages have, before the data of a run and after it, and the
//! stretches of time in which a task ran or waited. Of a run that has too many, those that are together no longer than a
//! width are drawn as one piece: each stretch is in one piece, which keeps the times for which the task ran, waited and
//! was parked. `tools/page` makes the text from the files of `web/`; edit those.
#![tactic(auto)]

mod laws;
mod merging;
mod pieces;
mod stretches;
mod template;

pub use laws::{pieces_fit, stretches_are_drawn};
pub use merging::{Merging, shortest_width};
pub use pieces::{Joined, NONE, Piece};
pub use stretches::{Beginning, End, NOTHING, NOWHERE, PARKED_NUMBER, Stretch, moment_of};
pub use template::{CODE, TOP};
