use crate::scan::{Fits, Scan};
use scx_asm_text::Token;

/// The words on a name that is like a register's.
const NO_REGISTER: &str = "registers are r0 to r10, and w0 to w10 for their low halves";

/// A word as a register's name.
#[derive(Clone, Copy, PartialEq, Eq)]
pub(crate) enum Name {
    /// `r0` to `r10`.
    Whole,
    /// `w0` to `w10`.
    Low,
    /// It is like one, and is none.
    Like,
    Other,
}

/// The kind of name that a word is.
pub(crate) fn name_of(word: &[u8]) -> Name {
    match word {
        [b'r', digits @ ..] if is_number(digits) => Name::Whole,
        [b'w', digits @ ..] if is_number(digits) => Name::Low,
        [b'r' | b'w' | b'R' | b'W', digits @ ..] if are_digits(digits) => Name::Like,
        _ => Name::Other,
    }
}

/// True if these digits number a register.
fn is_number(digits: &[u8]) -> bool {
    match digits {
        [digit] => digit.is_ascii_digit(),
        [b'1', b'0'] => true,
        _ => false,
    }
}

fn are_digits(word: &[u8]) -> bool {
    !word.is_empty() && word.iter().all(|byte| byte.is_ascii_digit())
}

/// A register of that width comes next, or the token is wrong: by those words if it is no register at all.
pub(crate) fn register<'t, 'a>(
    scan: Scan<'t, 'a>,
    width: Name,
    words: &'static str,
) -> Fits<'t, 'a> {
    let Some(Token::Word(word)) = scan.first() else {
        return Err(scan.unfit(words));
    };
    match name_of(word) {
        name if name == width => Ok(scan.after()),
        Name::Whole | Name::Low => Err(scan.unfit(
            "both registers are r0 to r10, or both w0 to w10",
        )),
        Name::Like => Err(scan.unfit(NO_REGISTER)),
        Name::Other => Err(scan.unfit(words)),
    }
}

/// A register of that width or a number comes next, or the token is wrong.
pub(crate) fn operand<'t, 'a>(scan: Scan<'t, 'a>, width: Name) -> Fits<'t, 'a> {
    match scan.first() {
        Some(Token::Word(_)) => register(scan, width, "a register or a number is wanted"),
        _ => number(scan, "a register or a number is wanted"),
    }
}

/// A number comes next, with a sign directly before it or without one, or the token is wrong.
pub(crate) fn number<'t, 'a>(scan: Scan<'t, 'a>, words: &'static str) -> Fits<'t, 'a> {
    match (scan.first(), scan.second()) {
        (Some(Token::Number(_, _)), Some(Token::Word(word)))
            if scan.text() == "0" && is_hexadecimal(word) => {
            Err(scan.after().unfit("a hexadecimal number is 0x and digits"))
        }
        (Some(Token::Number(_, _)), _) => Ok(scan.after()),
        (Some(Token::Mark(symbol)), Some(Token::Number(touches, _))) if symbol.text() == "-" => {
            if touches {
                Ok(scan.after().after())
            } else {
                Err(scan.unfit("no space comes after the sign"))
            }
        }
        _ => Err(scan.unfit(words)),
    }
}

/// True if a word after a 0 is meant for a hexadecimal number.
fn is_hexadecimal(word: &[u8]) -> bool {
    matches!(word, [b'x' | b'X', ..])
}
