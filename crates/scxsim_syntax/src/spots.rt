use scx_asm_text::{Token, tokens};
use std::alloc::Global;

/// A token of a line, and the offsets of its first byte and of the byte after it.
#[derive(Clone, Copy)]
pub(crate) struct Spot<'a> {
    pub(crate) token: Token<'a>,
    pub(crate) at: usize,
    pub(crate) end: usize,
}

/// The tokens of a line, up to a comment or to a byte that begins none.
#[derive(Drop)]
pub(crate) struct Spots<'a> {
    pub(crate) spots: Vec<Spot<'a>>,
    /// The offset at which they end.
    pub(crate) stop: usize,
    /// True if a byte that begins no token is there.
    pub(crate) is_cut: bool,
}

/// The tokens of a line. None if memory ran out.
pub(crate) fn spots_of<'a>(alloc: Global, line: &'a str) -> Option<Spots<'a>> {
    let mut found = Vec::new(alloc);
    let spots = match tokens(line.as_bytes(), &mut found) {
        Ok(is_whole) => placed(alloc, line.as_bytes(), found.as_slice(), is_whole),
        Err(_) => None,
    };
    drop(found);
    spots
}

/// The tokens with their offsets.
fn placed<'a>(
    alloc: Global,
    line: &[u8],
    tokens: &[Token<'a>],
    is_whole: bool,
) -> Option<Spots<'a>> {
    let mut spots = Vec::new(alloc);
    let mut at = 0usize;
    for token in tokens {
        let begin = past_blanks(line, at);
        let end = begin.saturating_add(length_of(token, rest_of(line, begin)));
        let spot = Spot {
            token: *token,
            at: begin,
            end,
        };
        spots.push(spot).ok()?;
        at = end;
    }
    Some(Spots {
        spots,
        stop: past_blanks(line, at),
        is_cut: !is_whole,
    })
}

/// The bytes from an offset on.
fn rest_of(line: &[u8], at: usize) -> &[u8] {
    line.get(at..).unwrap_or(&[])
}

/// The offset of the first byte from there on that is no blank.
fn past_blanks(line: &[u8], at: usize) -> usize {
    let rest = rest_of(line, at);
    let blanks = count_of(rest, Sort::Blank);
    at.saturating_add(blanks)
}

/// The number of bytes of a token with which the text begins.
fn length_of(token: &Token<'_>, text: &[u8]) -> usize {
    match *token {
        Token::Word(word) => word.len(),
        Token::Mark(symbol) => symbol.text().len(),
        Token::Number(_, _) => number_length(text),
    }
}

fn number_length(text: &[u8]) -> usize {
    match text {
        [b'0', b'x', digits @ ..] if is_hexadecimal(digits) => {
            count_of(digits, Sort::Hexadecimal).saturating_add(2)
        }
        _ => count_of(text, Sort::Digit),
    }
}

/// True if the text begins with a hexadecimal digit.
fn is_hexadecimal(text: &[u8]) -> bool {
    match text {
        [digit, ..] => digit.is_ascii_hexdigit(),
        [] => false,
    }
}

/// A sort of bytes.
#[derive(Clone, Copy)]
enum Sort {
    Blank,
    Digit,
    Hexadecimal,
}

impl Sort {
    fn has(self, byte: u8) -> bool {
        match self {
            Sort::Blank => byte == b' ' || byte == b'\t',
            Sort::Digit => byte.is_ascii_digit(),
            Sort::Hexadecimal => byte.is_ascii_hexdigit(),
        }
    }
}

/// The number of bytes of that sort with which a text begins.
fn count_of(text: &[u8], sort: Sort) -> usize {
    let mut count = 0usize;
    for byte in text {
        if !sort.has(*byte) {
            return count;
        }
        count = count.saturating_add(1);
    }
    count
}
