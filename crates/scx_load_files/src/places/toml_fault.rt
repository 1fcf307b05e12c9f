use crate::places::place::{Place, place_at};
use std::alloc::Global;
use toml::de::Error;

/// The first fault of a text that is no TOML document.
#[derive(Clone, Copy)]
pub struct TomlFault {
    pub place: Place,
    error: Error,
}

impl TomlFault {
    /// The fault, in words.
    pub fn message(&self) -> &str {
        self.error.message()
    }
}

/// The first fault of a text (TOML 1.1); none where it is a document, or memory ran out.
pub fn first_toml_fault(alloc: Global, text: &str) -> Option<TomlFault> {
    match toml::table_from_str(alloc, text) {
        Ok(table) => {
            drop(table);
            None
        }
        Err(error) => {
            let span = error.span()?;
            let place = place_at(text, span.start);
            Some(TomlFault { place, error })
        }
    }
}
