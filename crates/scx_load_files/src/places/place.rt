ghost use Rattle.std.specs.Prelude.{◌≤◌};

use std::cmp;

/// A place in a text: a line and a column, both from 1. A column counts characters.
#[derive(Clone, Copy, Debug, PartialEq, Eq)]
pub struct Place {
    pub line: usize,
    pub column: usize,
}

/// The place of the byte at that offset, or of the text's end.
pub(crate) fn place_at(text: &str, offset: usize) -> Place {
    let mut place = Place { line: 1, column: 1 };
    for byte in before(text, offset) {
        place = moved_past(place, *byte);
    }
    place
}

/// The bytes before the offset.
fn before(text: &str, offset: usize) -> &[u8] {
    let bytes = text.as_bytes();
    &bytes[..cmp::min(offset, bytes.len())]
}

/// The place after a byte. Only the first byte of a character counts.
fn moved_past(place: Place, byte: u8) -> Place {
    if byte == b'\n' {
        Place {
            line: place.line.saturating_add(1),
            column: 1,
        }
    } else if byte & 0xC0 != 0x80 {
        Place {
            line: place.line,
            column: place.column.saturating_add(1),
        }
    } else {
        place
    }
}

/// The place where the rest of a text begins.
pub(crate) fn place_of_rest(text: &str, rest: &str) -> Place {
    place_at(text, text.len().saturating_sub(rest.len()))
}

/// The line of that number, from 1, without its end.
pub fn line_at(text: &str, line: usize) -> Option<&str> {
    text.lines().nth(line.checked_sub(1)?)
}
