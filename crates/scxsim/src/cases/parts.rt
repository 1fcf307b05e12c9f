use std::alloc::{AllocError, Global};

/// A part of a file of cases: a line that begins with `-- `, and the lines up to the next one.
#[derive(Clone, Copy)]
pub(crate) struct Part<'a> {
    /// The number of that line, from 1 on.
    pub(crate) line: usize,
    /// The text of its first line after the sign.
    pub(crate) mark: &'a str,
    /// The lines after it without the last line feed; none where there are no lines.
    pub(crate) text: Option<&'a str>,
}

/// The parts of a file of cases. The text before the first one is for people.
pub(crate) fn parts_of<'a>(alloc: Global, text: &'a str) -> Result<Vec<Part<'a>>, AllocError> {
    let mut parts = Vec::new(alloc);
    let mut line = 1usize;
    for piece in without_line_feed(text).split("\n-- ") {
        if let Some(part) = part_of(line, piece) {
            parts.push(part)?;
        }
        line = line.saturating_add(lines_of(piece));
    }
    Ok(parts)
}

fn without_line_feed(text: &str) -> &str {
    match text.strip_suffix('\n') {
        Some(rest) => rest,
        None => text,
    }
}

/// None of the first piece, unless the file begins with a part.
fn part_of<'a>(line: usize, piece: &'a str) -> Option<Part<'a>> {
    if line > 1 {
        Some(part_in(line, piece))
    } else {
        Some(part_in(line, piece.strip_prefix("-- ")?))
    }
}

fn part_in<'a>(line: usize, piece: &'a str) -> Part<'a> {
    match piece.split_once('\n') {
        Some((mark, text)) => Part {
            line,
            mark,
            text: Some(text),
        },
        None => Part {
            line,
            mark: piece,
            text: None,
        },
    }
}

/// The number of lines of a piece, of which the last ends without a line feed.
fn lines_of(piece: &str) -> usize {
    let line_feeds = piece.bytes().filter(|byte| *byte == b'\n').count();
    line_feeds.saturating_add(1)
}
