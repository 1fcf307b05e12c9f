use scx_load_files::{Place, line_at};
use scxsim_output::Text;

/// The most characters of a line that are shown.
const SHOWN: usize = 100;

/// The line of a place with its number, and a mark below the column. Nothing where there is no such line, or it is
/// longer up to there than is shown.
pub fn write_excerpt(said: &mut Text, text: &str, place: Place) {
    match line_at(text, place.line) {
        Some(line) if place.column <= SHOWN => write_line(said, line, place),
        _ => {}
    }
}

fn write_line(said: &mut Text, line: &str, place: Place) {
    said.number_right(place.line as u64, 5);
    said.push(" | ");
    push_shown(said, line);
    said.push("\n      | ");
    said.spaces(place.column.saturating_sub(1));
    said.push("^\n");
}

/// Appends the first characters of a text, each as one column of a terminal.
pub fn push_shown(said: &mut Text, text: &str) {
    for c in text.chars().take(SHOWN) {
        said.character(shown(c));
    }
}

/// A character as one column of a terminal; what controls one is shown as a blank.
fn shown(c: char) -> char {
    if c.is_control() { ' ' } else { c }
}
