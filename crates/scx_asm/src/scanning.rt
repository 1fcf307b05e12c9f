ghost use Rattle.std.specs.Prelude.{◌≡◌, length, map, IfOk, Err};
ghost use Rattle.std.specs.Str.Lines.{lines};
ghost use Rattle.scx_asm_text.specs.Items.{item_value};
ghost use Rattle.scx_asm.specs.declared.faults.AsmError.TheVariants.{Refused};
ghost use Rattle.scx_asm.specs.FirstPass.{Gives, at_line, nothing_read, with_label, with_unresolved, with_line, with_text, first_pass};
ghost use Rattle.scx_asm.specs.Passes.{table, first_pass_of};
ghost use Rattle.scx_asm.specs.Resolving.{find};

use crate::faults::{AsmError, AsmFault};
use crate::resolving::{fits, slots_of};
use indexmap::IndexMap;
use scx_asm_text::{Item, Token, item_of, tokens};
use scx_isa::MAX_SLOTS;
use std::alloc::{AllocError, Global};

/// An instruction with its numbers as they are written.
#[derive(Clone, Copy)]
pub struct Unresolved<'a> {
    pub line: usize,
    pub slot: u16,
    pub item: Item<'a>,
}

/// The result of the first pass over a text.
#[derive(Drop)]
pub struct FirstPass<'a> {
    pub slots: u16,
    /// The slot that each label names.
    pub labels: IndexMap<&'a [u8], u16>,
    pub unresolved: Vec<Unresolved<'a>>,
}

pub(crate) fn refused<T: Drop>(fault: AsmFault, line: usize) -> Result<T, AsmError>
    ensures { result ≡ Err (Refused fault line) }
{
    Err(AsmError::Refused { fault, line })
}

/// The slot that the label names.
#[tactic(auto, using(crate::proofs::Tables::find_is))]
pub(crate) fn slot_of<'a>(labels: &IndexMap<&'a [u8], u16>, label: &'a [u8]) -> Option<u16>
    ensures { result ≡ find label.now (table labels.now.entries) }
{
    labels.get(label).copied()
}

fn push_label<'a>(pass: &mut FirstPass<'a>, number: usize, label: &'a [u8]) -> Result<(), AsmError>
    ensures { Gives (λ _. first_pass_of pass.new) result
        (at_line number (with_label (first_pass_of pass.old) label.now)) }
{
    if slot_of(&pass.labels, label).is_some() {
        return refused(AsmFault::TwiceLabel, number);
    }
    pass.labels.insert(label, pass.slots)?;
    Ok(())
}

#[inline(always)]
fn push_unresolved<'a>(
    pass: &mut FirstPass<'a>,
    number: usize,
    item: &Item<'a>,
) -> Result<(), AsmError>
    ensures { Gives (λ _. first_pass_of pass.new) result
        (at_line number (with_unresolved number (first_pass_of pass.old) (item_value item.now))) }
{
    if !fits(item) {
        return refused(AsmFault::OutOfRange, number);
    }
    let size = slots_of(item);
    if pass.slots > MAX_SLOTS as u16 - size {
        return refused(AsmFault::TooLong, number);
    }
    let unresolved = Unresolved {
        line: number,
        slot: pass.slots,
        item: *item,
    };
    pass.unresolved.push(unresolved)?;
    pass.slots += size;
    Ok(())
}

#[inline(always)]
fn push_item<'a>(pass: &mut FirstPass<'a>, number: usize, item: &Item<'a>) -> Result<(), AsmError>
    ensures { Gives (λ _. first_pass_of pass.new) result
        (at_line number (with_line number (first_pass_of pass.old) (item_value item.now))) }
{
    match *item {
        Item::Blank => Ok(()),
        Item::Label(label) => push_label(pass, number, label),
        Item::Statement(_) | Item::Jump(..) => push_unresolved(pass, number, item),
    }
}

#[inline(always)]
fn push_line<'a>(
    found: &mut Vec<Token<'a>>,
    pass: &mut FirstPass<'a>,
    number: usize,
    line: &'a [u8],
) -> Result<(), AsmError>
    ensures { Gives (λ _. first_pass_of pass.new) result
        (at_line number (with_text number (first_pass_of pass.old) line.now)) }
{
    if !tokens(line, found)? {
        return refused(AsmFault::Syntax, number);
    }
    match item_of(found) {
        Some(item) => push_item(pass, number, &item),
        None => refused(AsmFault::Syntax, number),
    }
}

fn lines_of<'a>(alloc: Global, text: &'a str) -> Result<Vec<&'a str>, AllocError>
    ensures { IfOk result (λ found. map (λ l. l.now) found.items ≡ lines text.now) }
{
    text.lines().collect(alloc)
}

/// The first pass: the instructions with their slots, and the labels.
pub(crate) fn scan<'a>(alloc: Global, text: &'a str) -> Result<FirstPass<'a>, AsmError>
    ensures { Gives (λ pass. first_pass_of pass) result
        (first_pass 1 nothing_read (lines text.now)) }
{
    let lines = lines_of(alloc, text)?;
    let unresolved = Vec::with_capacity(alloc, lines.len().min(MAX_SLOTS))?;
    let mut pass = FirstPass {
        slots: 0,
        labels: IndexMap::new(alloc),
        unresolved,
    };
    // Lent to each line.
    let mut found = Vec::new(alloc);
    for index in 0..lines.len() {
        let line = lines[index].as_bytes();
        match push_line(&mut found, &mut pass, index + 1, line) {
            Ok(()) => {}
            Err(error) => return Err(error),
        }
    }
    Ok(pass)
}
