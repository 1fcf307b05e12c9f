use crate::cases::marks::Form;
use std::alloc::{AllocError, Global};

/// The bytes that the text of a part gives, none where they can't be read.
pub(crate) fn bytes_of(
    alloc: Global,
    text: Option<&str>,
    form: Form<'_>,
) -> Result<Option<Vec<u8>>, AllocError> {
    match text {
        Some(text) => bytes_of_text(alloc, text, form),
        None => Ok(Some(Vec::new(alloc))),
    }
}

fn bytes_of_text(alloc: Global, text: &str, form: Form<'_>) -> Result<Option<Vec<u8>>, AllocError> {
    if matches!(form, Form::Hex) {
        return bytes_of_digits(alloc, text);
    }
    let mut bytes = Vec::from_slice(alloc, text.as_bytes())?;
    if !matches!(form, Form::Cut) {
        bytes.push(b'\n')?;
    }
    Ok(Some(bytes))
}

/// The bytes of these digits, two for each, with spaces and line feeds among them.
fn bytes_of_digits(alloc: Global, text: &str) -> Result<Option<Vec<u8>>, AllocError> {
    let mut bytes = Vec::new(alloc);
    let mut first = None;
    for letter in text.chars() {
        if letter == ' ' || letter == '\n' {
            continue;
        }
        let Some(digit) = letter.to_digit(16) else {
            return Ok(None);
        };
        match first {
            Some(high) => {
                bytes.push(byte_of(high, digit))?;
                first = None;
            }
            None => first = Some(digit),
        }
    }
    Ok(if first.is_none() { Some(bytes) } else { None })
}

fn byte_of(high: u32, low: u32) -> u8 {
    (high.wrapping_mul(16).wrapping_add(low) & 255) as u8
}

/// True if the output is as the text says.
pub(crate) fn is_as_wanted(found: &[u8], wanted: &[u8], form: Form<'_>) -> bool {
    match form {
        Form::Text | Form::Cut | Form::Hex => found == wanted,
        Form::End => found.ends_with(wanted),
        Form::LineEnds => match (str::from_utf8(found), str::from_utf8(wanted)) {
            (Ok(found), Ok(wanted)) => has_line_ends(found, wanted),
            _ => false,
        },
        Form::LinesWith(word) => match (str::from_utf8(found), str::from_utf8(wanted)) {
            (Ok(found), Ok(wanted)) => has_lines_with(found, wanted, word),
            _ => false,
        },
    }
}

fn has_line_ends(found: &str, wanted: &str) -> bool {
    wanted.lines().all(|end| is_end_of_one(found, end))
}

fn is_end_of_one(found: &str, end: &str) -> bool {
    found.lines().filter(|line| line.ends_with(end)).count() == 1
}

fn has_lines_with(found: &str, wanted: &str, word: &str) -> bool {
    let mut lines = wanted.lines();
    for line in found.lines() {
        if line.contains(word) && lines.next() != Some(line) {
            return false;
        }
    }
    lines.next().is_none()
}
