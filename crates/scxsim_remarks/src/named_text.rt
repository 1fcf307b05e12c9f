use scx_isa::Callback;
use scx_load_files::{Place, place_of_slot};
use scxsim_commands::write_excerpt;
use scxsim_output::Text;
use std::alloc::{AllocError, Global};

/// The text of a file, and the path by which it was named.
#[derive(Clone, Copy)]
pub struct NamedText<'a> {
    pub path: &'a str,
    pub text: &'a str,
}

impl<'a> NamedText<'a> {
    /// `PATH:LINE:COLUMN: error: WHAT`, and the line with a mark below the column.
    pub(crate) fn error_at(
        self,
        alloc: Global,
        place: Place,
        what: &Text,
    ) -> Result<String, AllocError> {
        self.error_below(alloc, Some(place), what, "")
    }

    /// The error at a place, or `PATH: error: WHAT` without one, and the lines of a reason below it.
    pub(crate) fn error_below(
        self,
        alloc: Global,
        place: Option<Place>,
        what: &Text,
        reason: &str,
    ) -> Result<String, AllocError> {
        let mut said = Text::new(alloc);
        said.push(self.path);
        if let Some(place) = place {
            said.number(":", place.line as u64);
            said.number(":", place.column as u64);
        }
        said.push(": error: ");
        said.append(what);
        said.push("\n");
        if let Some(place) = place {
            write_excerpt(&mut said, self.text, place);
        }
        said.push(reason);
        said.finish()
    }

    /// The line of a policy's instruction. One that is given as a slot has none.
    pub(crate) fn line_of(self, alloc: Global, callback: Callback, slot: usize) -> Option<Place> {
        let mut path = Text::new(alloc);
        path.push("code.");
        path.push(callback.name());
        if path.is_cut() {
            return None;
        }
        place_of_slot(alloc, self.text, path.as_str(), slot)
    }
}
