use crate::scan::Scan;
use crate::spots::Spot;
use crate::wrong::{Why, Wrong};
use scx_asm_text::{Item, Statement, Token, item_of};
use scx_isa_semantics::{Operation, Width};
use std::alloc::Global;

/// The magnitude from which on a number doesn't fit 32 bits.
const WORD: u64 = 2_147_483_648;

/// The magnitude from which on one doesn't fit 16 bits.
const HALF_WORD: u64 = 32_768;

/// The number of a line that doesn't fit its field. None if memory ran out.
pub(crate) fn out_of_range<'a>(alloc: Global, scan: Scan<'_, 'a>) -> Option<Wrong<'a>> {
    let item = item_in(alloc, scan.spots())?;
    match past(scan.spots(), WORD) {
        Some(at) => Some(Wrong {
            at,
            why: Why::Words(words_of(item)),
        }),
        None => Some(Wrong {
            at: past(scan.spots(), HALF_WORD)?,
            why: Why::Words("an offset or a distance is -32768 to 32767"),
        }),
    }
}

/// The item that the tokens of a line are.
fn item_in<'a>(alloc: Global, spots: &[Spot<'a>]) -> Option<Item<'a>> {
    let mut tokens = Vec::new(alloc);
    for spot in spots {
        tokens.push(spot.token).ok()?;
    }
    let item = item_of(tokens.as_slice());
    drop(tokens);
    item
}

/// The words on a number that doesn't fit 32 bits in an instruction.
fn words_of(item: Item<'_>) -> &'static str {
    match item {
        Item::Statement(Statement::Binary(Width::Bits64, Operation::Move, _, _)) => {
            "a number past 32 bits with its sign: write ll after it"
        }
        Item::Statement(Statement::LoadImmediate(_, _)) => "a number past 64 bits",
        Item::Statement(Statement::Load(_, _, _, _)) => "an offset is -32768 to 32767",
        _ => "a number past 32 bits with its sign: load it into a register first, with ll after it",
    }
}

/// The offset of the first number of that magnitude or a greater one.
fn past(spots: &[Spot<'_>], least: u64) -> Option<usize> {
    for spot in spots {
        if let Token::Number(_, magnitude) = spot.token
            && is_past(magnitude, least)
        {
            return Some(spot.at);
        }
    }
    None
}

/// True if a magnitude is that or more; one of 2^64 or more has none.
fn is_past(magnitude: Option<u64>, least: u64) -> bool {
    match magnitude {
        Some(magnitude) => magnitude >= least,
        None => true,
    }
}
