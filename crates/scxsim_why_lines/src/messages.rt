use scx_isa::Callback;
use scx_load_files::{Place, line_at, place_of_slot};
use scxsim_output::Text;
use std::alloc::Global;

/// The most characters of a comment that are shown.
const SHOWN: usize = 100;

/// Writes the comment at the instruction of a callback's slot, such as the message of an exit or the line of a policy that
/// was built from C. Writes nothing if the instruction has no line of its own, or the line has no comment.
pub fn write_message(
    alloc: Global,
    policy: &str,
    callback: Callback,
    slot: usize,
    page: &mut Text,
) {
    if let Some(comment) = comment_at(alloc, policy, callback, slot) {
        page.push(": ");
        for c in comment.chars().take(SHOWN) {
            page.character(shown(c));
        }
    }
}

/// A character as one column of a terminal; one that controls it is shown as a blank.
fn shown(c: char) -> char {
    if c.is_control() { ' ' } else { c }
}

/// The comment in the line of the instruction at a callback's slot.
pub fn comment_at(alloc: Global, policy: &str, callback: Callback, slot: usize) -> Option<&str> {
    let at = line_of(alloc, policy, callback, slot)?;
    comment_of(line_at(policy, at.line)?, at.column)
}

/// The line of the instruction at a callback's slot. One that is given as a slot has none.
fn line_of(alloc: Global, policy: &str, callback: Callback, slot: usize) -> Option<Place> {
    let mut path = Text::new(alloc);
    path.push("code.");
    path.push(callback.name());
    if path.is_cut() {
        return None;
    }
    place_of_slot(alloc, policy, path.as_str(), slot)
}

/// The comment of a line that begins with an instruction, at that column.
fn comment_of(line: &str, column: usize) -> Option<&str> {
    let statement = line.trim_start();
    let indent = line.len().saturating_sub(statement.len());
    if indent.saturating_add(1) != column {
        return None;
    }
    let (_instruction, comment) = statement.split_once('#')?;
    Some(comment.trim())
}
