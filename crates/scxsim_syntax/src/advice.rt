use crate::items::item;
use crate::labels::{no_label, twice};
use crate::ranges::out_of_range;
use crate::scan::Scan;
use crate::spots::spots_of;
use crate::wrong::{Why, Wrong};
use scx_asm::AsmFault;
use scxsim_output::Text;
use std::alloc::Global;

/// A fault of a line.
#[derive(Drop)]
pub struct Advice {
    /// Where that is, in bytes from the line's begin.
    pub at: usize,
    /// The fault, and what to write instead.
    pub words: String,
}

/// The fault of the line of that number, from 1, for which `assemble` refuses a text. None if that isn't known, or
/// memory ran out.
pub fn advice_on(alloc: Global, text: &str, fault: AsmFault, number: usize) -> Option<Advice> {
    let line = text.lines().nth(number.checked_sub(1)?).unwrap_or("");
    let spots = spots_of(alloc, line)?;
    let wrong = wrong_in(alloc, Scan::of(line, &spots), fault, text, number);
    let advice = match wrong {
        Some(wrong) => advice_of(alloc, line, wrong),
        None => None,
    };
    drop(spots);
    advice
}

fn wrong_in<'a>(
    alloc: Global,
    scan: Scan<'_, 'a>,
    fault: AsmFault,
    text: &str,
    number: usize,
) -> Option<Wrong<'a>> {
    match fault {
        AsmFault::Syntax => Some(misfit(scan)),
        AsmFault::UnknownLabel => no_label(scan),
        AsmFault::TwiceLabel => twice(scan, text, number),
        AsmFault::OutOfRange => out_of_range(alloc, scan),
        AsmFault::TooLong => Some(scan.wrong(Why::Words("a program has at most 4096 slots"))),
    }
}

/// The first token that fits no form. A text without a faulty line has no instruction.
fn misfit<'a>(scan: Scan<'_, 'a>) -> Wrong<'a> {
    match item(scan) {
        Err(wrong) => wrong,
        Ok(()) => scan.wrong(Why::Words("the text has no instruction")),
    }
}

fn advice_of(alloc: Global, line: &str, wrong: Wrong<'_>) -> Option<Advice> {
    let mut words = Text::new(alloc);
    wrong.why.push(line, wrong.at, &mut words);
    Some(Advice {
        at: wrong.at,
        words: words.finish().ok()?,
    })
}
