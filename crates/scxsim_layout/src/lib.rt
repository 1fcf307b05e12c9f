//! The layout of a picture of a run: its rows and their colours, and its scale of time in columns. Beside it, grids
//! that add up time by row and column, and the sheet on which a picture is written, with its colours and patterns.
#![tactic(auto)]

mod areas;
mod colours;
mod grids;
mod groups;
mod layouts;
mod moments;
mod rows;
mod scales;
mod sheets;
mod styles;

pub use areas::Area;
pub use grids::Grid;
pub use layouts::{Layout, TaskPlace};
pub use moments::{put_seconds, put_time};
pub use rows::{Band, Folding, Kind, Row};
pub use scales::{LEFT, Mark, Now, Scale};
pub use sheets::Sheet;
pub use styles::{DARK, LIGHT, OTHERS, QUEUES};
