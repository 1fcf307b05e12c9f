//! The common part of all file formats: a TOML document is read key by key, and its first fault is
//! named with the path of the key. In a refused text the subject of a refusal is found, by line and column.
//!
//! Each format has one order of reading, so each faulty file has one first fault: `Unknown` looks for
//! unknown keys first, and then a `Section` is asked for one key after another.
#![tactic(auto)]

mod event_fault;
mod fault;
mod keys;
mod names;
mod path;
mod places;
mod section;
mod unknown;

pub use event_fault::EventFault;
pub use fault::{Cause, LoadError, refused, refused_at};
pub use names::is_name;
pub use path::{element_path, key_path};
pub use places::{
    Place, TomlFault, first_toml_fault, line_at, place_in_line, place_of_key, place_of_line,
    place_of_slot, text_at,
};
pub use section::{Limits, Section, read_document};
pub use unknown::{Unknown, least_path_is_named};
