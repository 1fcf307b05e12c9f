use crate::registers::{Name, name_of, operand};
use crate::scan::{Fits, Scan};
use crate::wrong::Wrong;
use scx_asm_text::{Symbol, Token};
use scx_isa_semantics::Operation;

/// The words on memory that isn't written as such.
const MEMORY: &str = "memory is *(u64 *)(r1 + 0), or of u8, u16 or u32";

/// The words on an address.
const ADDRESS: &str = "an address is an r register and an offset: (r1 + 0)";

/// Reads memory, after the star that it begins with.
pub(crate) fn memory<'t, 'a>(scan: Scan<'t, 'a>, is_stored: bool) -> Fits<'t, 'a> {
    let scan = size(scan.mark(Symbol::Opening, MEMORY)?, is_stored)?;
    let scan = scan
        .mark(Symbol::Star, MEMORY)?
        .mark(Symbol::Closing, MEMORY)?;
    let scan = base(scan.mark(Symbol::Opening, ADDRESS)?)?;
    offset(scan)?.mark(Symbol::Closing, ADDRESS)
}

/// The size of an access comes next.
fn size<'t, 'a>(scan: Scan<'t, 'a>, is_stored: bool) -> Fits<'t, 'a> {
    match scan.text() {
        "u8" | "u16" | "u32" | "u64" => Ok(scan.after()),
        "s8" | "s16" | "s32" if is_stored => Err(scan.unfit(
            "a store has no sign: u8, u16, u32 or u64",
        )),
        "s8" | "s16" | "s32" => Ok(scan.after()),
        _ => Err(scan.unfit(MEMORY)),
    }
}

/// The register of an address comes next.
fn base<'t, 'a>(scan: Scan<'t, 'a>) -> Fits<'t, 'a> {
    match scan.first() {
        Some(Token::Word(word)) if name_of(word) == Name::Whole => Ok(scan.after()),
        _ => Err(scan.unfit(ADDRESS)),
    }
}

/// The offset of an address comes next.
fn offset<'t, 'a>(scan: Scan<'t, 'a>) -> Fits<'t, 'a> {
    match (scan.text(), scan.second()) {
        ("+" | "-", Some(Token::Number(_, _))) => Ok(scan.after().after()),
        _ => Err(scan.unfit(ADDRESS)),
    }
}

/// Reads a store, after the star that it begins with.
pub(crate) fn store<'a>(scan: Scan<'_, 'a>) -> Result<(), Wrong<'a>> {
    let scan = memory(scan, true)?;
    let given = scan.mark(
        Symbol::Assign(Operation::Move),
        "a store is *(u64 *)(r1 + 0) = r2; memory is changed in a register",
    )?;
    match given.first() {
        Some(Token::Word(word)) if name_of(word) == Name::Low => {
            Err(given.unfit("a store takes an r register, of which it stores the low bytes"))
        }
        _ => operand(given, Name::Whole)?.end("one store a line"),
    }
}
