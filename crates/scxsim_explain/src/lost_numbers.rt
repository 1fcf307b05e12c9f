use crate::words::{Members, push_register};
use scx_abs::Kind;
use scx_abs_ranges::Range;
use scx_asm_text::Canonical;
use scx_isa::{Comparison, Insn, Operation, Width};
use scx_verify_explain::{Found, LostRange};
use scxsim_output::Text;

/// Why a number isn't known to be less.
#[derive(Clone, Copy)]
enum Cause<'a> {
    /// Arithmetic left nothing of its range.
    Loss(&'a Found),
    /// Arithmetic changed it after a test.
    Change { write: &'a Found, test: &'a Found },
    /// A test lets it through.
    Passed(&'a Found),
    /// A test tells nothing of its greatest value.
    Untold(&'a Found),
    /// It was made so.
    Made(&'a Found),
    Unknown,
}

/// Appends the number by which a pointer came out of its memory at the slot, and why it isn't known to be less.
pub(crate) fn push_lost(line: &mut Text, lost: &LostRange, slot: usize) {
    push_register(line, lost.number);
    if lost.pointer.slot == slot {
        push_range(line, &lost.known);
        line.push(" here");
    } else {
        push_place(line, lost.pointer.slot, lost.is_only);
        push_range(line, &lost.known);
        line.push(" there");
    }
    push_cause(line, cause_of(lost));
    if let Some(moved) = lost.moved.as_ref() {
        line.push(", and ");
        push_register(line, moved.register);
        line.number(" was moved at ", moved.slot as u64);
        line.push(" before");
    }
}

/// Advice on a number by which a pointer came out of its memory.
pub(crate) fn advice_on_lost(lost: &LostRange) -> &'static str {
    match cause_of(lost) {
        Cause::Loss(_) => "compare the number after that, or mask it",
        Cause::Change { .. } | Cause::Passed(_) => "compare the number with less, or mask it",
        Cause::Untold(_) => "compare its 64 bits with a number, by >, or mask it",
        Cause::Made(write) if is_mask(write.instruction) => {
            "mask it with less, or compare it first"
        }
        Cause::Made(_) | Cause::Unknown => "compare the number first, or mask it",
    }
}

/// The reason why a number isn't known to be less.
fn cause_of(lost: &LostRange) -> Cause<'_> {
    match (lost.write.as_ref(), lost.cut.as_ref()) {
        (Some(write), _) if loses(write) => Cause::Loss(write),
        (Some(write), Some(test)) if test.slot < write.slot => Cause::Change { write, test },
        (_, Some(test)) => Cause::Passed(test),
        (write, None) => cause_without_cut(write, lost.comparison.as_ref()),
    }
}

/// The reason where no test changed what is known of the greatest number.
fn cause_without_cut<'a>(write: Option<&'a Found>, test: Option<&'a Found>) -> Cause<'a> {
    match (write, test) {
        (Some(write), Some(test)) if is_needed(test, write) => Cause::Untold(test),
        (Some(write), _) => Cause::Made(write),
        (None, Some(test)) => Cause::Untold(test),
        (None, None) => Cause::Unknown,
    }
}

/// True if arithmetic on a number of which something was known leaves nothing of that.
fn loses(write: &Found) -> bool {
    is_arithmetic(write.instruction) && is_bounded(&write.before) && !is_bounded(&write.after)
}

fn is_arithmetic(insn: Insn) -> bool {
    match insn {
        Insn::Binary(_, operation, _, _) => operation != Operation::Move,
        Insn::Negate(..) | Insn::ByteSwap(..) => true,
        _ => false,
    }
}

fn is_mask(insn: Insn) -> bool {
    matches!(insn, Insn::Binary(_, Operation::And, _, _))
}

/// True if a test that told nothing would have bounded what was written.
fn is_needed(test: &Found, write: &Found) -> bool {
    test.slot > write.slot || !is_bounded(&write.after)
}

/// True if more is known of a number than its width.
fn is_bounded(kind: &Kind) -> bool {
    match range_of(kind) {
        Some(range) => range.high < u64::from(u32::MAX),
        None => false,
    }
}

/// The range of a number that is known.
fn range_of(kind: &Kind) -> Option<Range> {
    match *kind {
        Kind::Num(numbers) => Some(numbers.range()),
        _ => None,
    }
}

/// Appends where the number was added to the pointer.
fn push_place(line: &mut Text, slot: usize, is_only: bool) {
    line.number(", added at ", slot as u64);
    line.push(if is_only { "," } else { " on some way," });
}

/// Appends which number it is.
fn push_range(line: &mut Text, kind: &Kind) {
    match range_of(kind) {
        Some(range) if range != Range::ALL => {
            line.push(" is ");
            Members::of(range).push(line);
        }
        _ => line.push(" may be any number"),
    }
}

fn push_members(line: &mut Text, kind: &Kind) {
    if let Some(range) = range_of(kind) {
        Members::of(range).push(line);
    }
}

/// Appends why a number isn't known to be less.
fn push_cause(line: &mut Text, cause: Cause<'_>) {
    match cause {
        Cause::Loss(write) => push_loss(line, write),
        Cause::Change { write, test } => {
            push_before(line, write);
            push_as(line, test.is_only || !write.is_only);
            push_passed(line, test);
        }
        Cause::Passed(test) => {
            push_as(line, test.is_only);
            push_passed(line, test);
        }
        Cause::Untold(test) => {
            push_as(line, test.is_only);
            line.number("the test at ", test.slot as u64);
            line.push(untold_by(test.instruction));
        }
        Cause::Made(write) => push_made(line, write),
        Cause::Unknown => {}
    }
}

/// Begins a cause. Control may come by other ways too.
fn push_as(line: &mut Text, is_only: bool) {
    line.push(if is_only {
        ", as "
    } else {
        ", as on some way "
    });
}

fn push_instruction(line: &mut Text, found: &Found) {
    line.show("", &Canonical(found.instruction));
    line.number(" at ", found.slot as u64);
}

/// Appends an instruction after which less is known of a number, and what was known before.
fn push_loss(line: &mut Text, write: &Found) {
    push_as(line, write.is_only);
    push_instruction(line, write);
    line.push(" loses its range, ");
    push_members(line, &write.before);
}

/// Appends which number an instruction changed.
fn push_before(line: &mut Text, write: &Found) {
    line.push(if write.is_only {
        ", from "
    } else {
        ", on some way from "
    });
    push_members(line, &write.before);
    line.push(" by ");
    push_instruction(line, write);
}

/// Appends the greatest number that a test lets through.
fn push_passed(line: &mut Text, test: &Found) {
    line.number("the test at ", test.slot as u64);
    if let Some(range) = range_of(&test.after) {
        line.number(" lets ", range.high);
    }
    line.push(" through");
}

/// The reason why a test tells nothing of the greatest number.
fn untold_by(insn: Insn) -> &'static str {
    match insn {
        Insn::JumpIf {
            width: Width::Bits32,
            ..
        } => " compares 32 bits alone",
        Insn::JumpIf {
            comparison: Comparison::SignedGreater
            | Comparison::SignedGreaterOrEqual
            | Comparison::SignedLess
            | Comparison::SignedLessOrEqual,
            ..
        } => " compares signed numbers",
        _ => " sets no greatest number here",
    }
}

/// Appends what made the number.
fn push_made(line: &mut Text, write: &Found) {
    push_as(line, write.is_only);
    if let Insn::Load(..) = write.instruction {
        line.number("it was loaded at ", write.slot as u64);
    } else {
        push_instruction(line, write);
        line.push(" leaves it so");
    }
}
