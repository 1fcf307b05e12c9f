//! The line and column of a refusal's subject in the text of a file: a key by its path, a line of the text of a
//! program, the first fault of TOML.
//!
//! A refusal names a key as `task.1.group`. Editors go to a line and a column; `place_of_key` finds these.

mod lines;
mod place;
mod search;
mod slots;
mod toml_fault;
mod values;

pub use lines::{place_in_line, place_of_line};
pub use place::{Place, line_at};
pub use search::place_of_key;
pub use slots::{place_of_slot, text_at};
pub use toml_fault::{TomlFault, first_toml_fault};
