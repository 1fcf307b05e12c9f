use crate::places::place::{Place, place_at};
use crate::places::search::find;
use std::alloc::Global;

/// The place of a line, from 1, of the text that is the value of a key, or the place of the text's end where it has
/// fewer lines; none where there is no such key with a text.
pub fn place_of_line(alloc: Global, text: &str, path: &str, line: usize) -> Option<Place> {
    let value = find(alloc, text, path)?.value_at(path)?;
    let begin = text.len().saturating_sub(value.len());
    let within = begin_of_line(value, line);
    Some(place_at(text, begin.saturating_add(within)))
}

/// The place of a byte of a line, from 1, of the text that is the value of a key: `at` bytes after the first one of the
/// line that isn't blank. None where there is no such key with a text.
pub fn place_in_line(
    alloc: Global,
    text: &str,
    path: &str,
    line: usize,
    at: usize,
) -> Option<Place> {
    let value = find(alloc, text, path)?.value_at(path)?;
    let begin = text.len().saturating_sub(value.len());
    let within = begin_of_line(value, line);
    let far = written_length(value.get(within..)?, at, quotes_of(value).has_escapes);
    Some(place_at(text, begin.saturating_add(within).saturating_add(far)))
}

/// The number of bytes that the first `count` bytes of a string take as it is written.
fn written_length(written: &str, count: usize, has_escapes: bool) -> usize {
    let mut last = Last::Character;
    let mut met = 0usize;
    for (at, byte) in written.as_bytes().iter().enumerate() {
        if met >= count {
            return at;
        }
        let now = next(last, *byte, has_escapes);
        if now == Last::Character {
            met = met.saturating_add(1);
        }
        last = now;
    }
    written.len()
}

/// The quoting of a TOML string.
#[derive(Clone, Copy)]
struct Quotes {
    /// The number of bytes before its first character.
    opening: usize,
    has_escapes: bool,
}

fn quotes_of(value: &str) -> Quotes {
    Quotes {
        opening: opening(value),
        has_escapes: value.starts_with('"'),
    }
}

/// The number of bytes before the first character. A line feed right after three quotes isn't part of the string.
fn opening(value: &str) -> usize {
    if !value.starts_with("\"\"\"") && !value.starts_with("'''") {
        return 1;
    }
    match value.as_bytes() {
        [_, _, _, b'\n', ..] => 4,
        [_, _, _, b'\r', b'\n', ..] => 5,
        _ => 3,
    }
}

/// The last thing before a byte.
#[derive(Clone, Copy, PartialEq, Eq)]
enum Last {
    Character,
    /// A backslash.
    Backslash,
    /// A backslash at the end of a line, and blanks: these bytes aren't part of the string.
    Joint,
}

/// The offset, in the string as it is written, at which that line of its text begins. Lines count from 1.
fn begin_of_line(value: &str, line: usize) -> usize {
    let quotes = quotes_of(value);
    let mut last = Last::Character;
    let mut number = 1usize;
    for (at, byte) in value.as_bytes().iter().enumerate() {
        if at >= quotes.opening {
            if number >= line && !is_blank(*byte) {
                return at;
            }
            if ends_line(last, *byte) {
                number = number.saturating_add(1);
            }
            last = next(last, *byte, quotes.has_escapes);
        }
    }
    value.len()
}

/// True if a line of the string's text ends with that byte.
fn ends_line(last: Last, byte: u8) -> bool {
    match last {
        Last::Character => byte == b'\n',
        Last::Backslash => byte == b'n',
        Last::Joint => false,
    }
}

fn next(last: Last, byte: u8, has_escapes: bool) -> Last {
    match last {
        Last::Backslash if byte == b'\n' || is_blank(byte) => Last::Joint,
        Last::Backslash => Last::Character,
        Last::Joint if byte == b'\n' || is_blank(byte) => Last::Joint,
        _ if byte == b'\\' && has_escapes => Last::Backslash,
        _ => Last::Character,
    }
}

fn is_blank(byte: u8) -> bool {
    matches!(byte, b' ' | b'\t' | b'\r')
}
