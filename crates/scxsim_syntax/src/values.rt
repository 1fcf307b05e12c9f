use crate::calls::helper_at;
use crate::memory::memory;
use crate::registers::{Name, name_of, number, operand, register};
use crate::scan::Scan;
use crate::wrong::{Two, Why, Wrong};
use scx_asm_text::{Symbol, Token};
use scx_isa_semantics::Operation;

/// The words on a value that is none.
const VALUE: &str = "a register, a number, memory as *(u64 *)(r2 + 0) or map 0 is wanted";

/// The words on what comes after an instruction.
const ENDS: &str = "the instruction ends before this";

/// Reads the rest of a line that begins with a register, whose name that is.
pub(crate) fn after_register<'a>(
    scan: Scan<'_, 'a>,
    width: Name,
    to: &'a str,
) -> Result<(), Wrong<'a>> {
    match scan.first() {
        Some(Token::Mark(Symbol::Assign(Operation::Move))) => value(scan.after(), width, to),
        Some(Token::Mark(Symbol::Assign(_))) => operand(scan.after(), width)?.end(ENDS),
        Some(Token::Mark(Symbol::Compare(_))) => {
            Err(scan.unfit("a comparison is of a jump: if r1 == r2 goto end"))
        }
        Some(Token::Mark(Symbol::Plus | Symbol::Minus | Symbol::Star)) => {
            Err(scan.unfit("an operation has a =, as r1 += 1"))
        }
        _ => Err(scan.unfit("= or an operation is wanted, as r1 = 5 or r1 += 1")),
    }
}

/// Reads the right side of `rD =`, where the register is `to`.
fn value<'a>(scan: Scan<'_, 'a>, width: Name, to: &'a str) -> Result<(), Wrong<'a>> {
    match scan.first() {
        Some(Token::Word(word)) => word_value(scan, word, width, to),
        Some(Token::Mark(Symbol::Star)) if width == Name::Low => {
            Err(scan.unfit("an r register is loaded: r1 = *(u32 *)(r2 + 0)"))
        }
        Some(Token::Mark(Symbol::Star)) => memory(scan.after(), false)?.end(ENDS),
        Some(Token::Mark(Symbol::Opening)) => extended(scan.after(), width),
        Some(Token::Mark(Symbol::Minus)) => negative(scan, width, to),
        _ => numeral(scan, width, to),
    }
}

/// Reads a number after `rD =`.
fn numeral<'a>(scan: Scan<'_, 'a>, width: Name, to: &'a str) -> Result<(), Wrong<'a>> {
    let rest = number(scan, VALUE)?;
    if width == Name::Whole && rest.text() == "ll" {
        return rest.after().end(ENDS);
    }
    operation_or_end(rest, to, scan.text_up_to(rest))
}

/// Reads what begins with a sign after `rD =`: the same register, or a number.
fn negative<'a>(scan: Scan<'_, 'a>, width: Name, to: &'a str) -> Result<(), Wrong<'a>> {
    let rest = scan.after();
    if let Some(Token::Word(_)) = rest.first() {
        if rest.text() == to {
            return rest.after().end(ENDS);
        }
        return Err(rest.unfit("a register is negated in place: r1 = -r1"));
    }
    numeral(scan, width, to)
}

/// Reads `(s8)rS`, after the parenthesis.
fn extended<'a>(scan: Scan<'_, 'a>, width: Name) -> Result<(), Wrong<'a>> {
    match (scan.text(), width) {
        ("s8" | "s16", _) | ("s32", Name::Whole) => {
            let scan = scan
                .after()
                .mark(Symbol::Closing, "a ) is wanted: r1 = (s8)r2")?;
            register(scan, width, "a register is wanted: r1 = (s8)r2")?.end(ENDS)
        }
        _ => Err(scan.unfit("only signs are extended so: r1 = (s8)r2, or s16 or s32")),
    }
}

/// Reads what begins with a word after `rD =`.
fn word_value<'a>(
    scan: Scan<'_, 'a>,
    word: &[u8],
    width: Name,
    to: &'a str,
) -> Result<(), Wrong<'a>> {
    if name_of(word) != Name::Other {
        let rest = register(scan, width, VALUE)?;
        return operation_or_end(rest, to, scan.text());
    }
    match scan.text() {
        "map" if width == Name::Whole => {
            number(scan.after(), "the number of a map is wanted: r1 = map 0")?.end(ENDS)
        }
        "le16" | "le32" | "le64" | "be16" | "be32" | "be64" | "bswap16" | "bswap32" | "bswap64" =>
            swapped(scan.after(), width, to),
        "call" => Err(scan.unfit("a call answers in r0: call 5, then r1 = r0")),
        _ if helper_at(scan).is_some() => {
            Err(scan.unfit(
                "a helper is called by its number, and answers in r0: call 5, then r1 = r0",
            ))
        }
        _ => Err(scan.unfit(VALUE)),
    }
}

/// Reads the register of a byte swap.
fn swapped<'a>(scan: Scan<'_, 'a>, width: Name, to: &'a str) -> Result<(), Wrong<'a>> {
    if width == Name::Whole && scan.text() == to {
        scan.after().end(ENDS)
    } else {
        Err(scan.unfit("bytes are swapped in place: r1 = be16 r1"))
    }
}

/// The line ends after `TO = FROM`, or has a second operation.
fn operation_or_end<'a>(scan: Scan<'_, 'a>, to: &'a str, from: &'a str) -> Result<(), Wrong<'a>> {
    match two_in(scan, to, from) {
        Some(two) => Err(Wrong {
            at: scan.at(),
            why: Why::Two(two),
        }),
        None => scan.end(ENDS),
    }
}

/// The parts of a line that has a second operation here.
fn two_in<'a>(scan: Scan<'_, 'a>, to: &'a str, from: &'a str) -> Option<Two<'a>> {
    let line = scan.line();
    let at = scan.at();
    let (sign, rest) = line.get(at..)?.split_at_checked(1)?;
    if !matches!(sign, "+" | "-" | "*" | "/" | "%" | "&" | "|" | "^") {
        return None;
    }
    let by = operand_in(rest);
    if by.is_empty() {
        return None;
    }
    Some(Two { to, from, sign, by })
}

/// The operand that the rest of a line is, without its blanks and its comment; empty if it isn't one.
fn operand_in(rest: &str) -> &str {
    let by = match rest.split_once('#') {
        Some((before, _comment)) => before.trim(),
        None => rest.trim(),
    };
    let digits = by.strip_prefix('-').unwrap_or(by);
    if digits.bytes().all(|byte| byte.is_ascii_alphanumeric()) {
        by
    } else {
        ""
    }
}
