//! The drawing of a picture as SVG text: title, legend, axis, names of rows, strips of shares, columns, bars, wakes,
//! long waits and the ejection. It draws the sums of `scxsim_sums` in the layout of `scxsim_layout`.
#![tactic(auto)]

mod areas;
mod axes;
mod bounds;
mod cells;
mod drawing;
mod figures;
mod headings;
mod names;
mod plots;
mod strips;

pub use drawing::{Picture, draw};
