use crate::registers::{Name, name_of, operand};
use crate::scan::{Fits, Scan};
use crate::wrong::Wrong;
use scx_asm_text::{Symbol, Token};
use scx_isa_semantics::Operation;

/// The words on a condition that isn't one.
const CONDITION: &str = "a condition is a register, a comparison and a register or a number";

/// Reads a conditional jump, after its word.
pub(crate) fn condition<'a>(scan: Scan<'_, 'a>) -> Result<(), Wrong<'a>> {
    let (width, scan) = compared(scan)?;
    let scan = operand(comparison(scan)?, width)?;
    match scan.text() {
        "goto" => target(scan.after()),
        "gotol" => Err(scan.unfit("after a condition it is goto")),
        _ => Err(scan.unfit("goto and a label are wanted: if r1 == r2 goto end")),
    }
}

/// The compared register comes next. Answers its width too.
fn compared<'t, 'a>(scan: Scan<'t, 'a>) -> Result<(Name, Scan<'t, 'a>), Wrong<'a>> {
    match scan.first() {
        Some(Token::Word(word)) => match name_of(word) {
            Name::Like | Name::Other => Err(scan.unfit(CONDITION)),
            width => Ok((width, scan.after())),
        },
        Some(Token::Mark(Symbol::Opening)) => {
            Err(scan.unfit("a condition has no parentheses: if r1 == r2 goto end"))
        }
        _ => Err(scan.unfit(CONDITION)),
    }
}

/// A comparison comes next.
fn comparison<'t, 'a>(scan: Scan<'t, 'a>) -> Fits<'t, 'a> {
    match scan.first() {
        Some(Token::Mark(Symbol::Compare(_))) => Ok(scan.after()),
        Some(Token::Mark(Symbol::Assign(Operation::Move))) => Err(scan.unfit(
            "== compares, = moves",
        )),
        _ => Err(scan.unfit("a comparison is wanted: == != > >= < <= s> s>= s< s<= &")),
    }
}

/// Reads the target of a jump, with which the line ends.
pub(crate) fn target<'a>(scan: Scan<'_, 'a>) -> Result<(), Wrong<'a>> {
    match (scan.first(), scan.second()) {
        (Some(Token::Word(_)), _) => scan.after().end("a jump ends with its label"),
        (Some(Token::Number(_, _)), _) => {
            Err(scan.unfit("a distance has a sign: goto +1 leaves one slot out"))
        }
        (Some(Token::Mark(Symbol::Plus | Symbol::Minus)), Some(Token::Number(touches, _))) => {
            if touches {
                scan.after().after().end("a jump ends with its distance")
            } else {
                Err(scan.unfit("no space comes after the sign"))
            }
        }
        _ => Err(scan.unfit("a label is wanted, as goto end")),
    }
}
