//! Pictures of a run: a timeline in the Chrome trace format, which Perfetto opens, and a drawing in SVG.
//!
//! The timeline of a run or of a part of it is written as the run goes. It shows the runs of tasks on each CPU, the waits
//! of tasks by queue, their wakes, the times that they were parked, the length of each queue, the weights of groups, and
//! the ejection.
//!
//! The drawing has a row for each CPU, each group and each task of a run or of a part of it. Long runs and waits
//! are bars of their own; shorter ones are added up in columns, whose shades say how much of them ran. Sums are kept as
//! the run goes (`scxsim_sums`), in the rows and columns of `scxsim_layout`, and the picture is drawn at its end
//! (`scxsim_shapes`).
//!
//! The timeline and the page of `scxsim_page` are written by a `Sketch`: `write_document` shows it a run, and writes its
//! texts between a head and an end.
#![tactic(auto)]

mod arrows;
mod documents;
mod gathering;
mod note_lines;
mod numbers;
mod objects;
mod queue_lengths;
mod runners;
mod sketches;
mod svg_pictures;
mod timelines;
mod track_titles;
mod tracks;

pub use documents::write_document;
pub use sketches::Sketch;
pub use svg_pictures::picture;
pub use timelines::timeline;
