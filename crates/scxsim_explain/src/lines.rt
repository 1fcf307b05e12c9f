use crate::explained::Explained;
use crate::known::push_known;
use crate::sentences::push_explanation;
use arrayvec::ArrayString;
use scx_asm_text::{Canonical, helper_name};
use scx_isa::{Helper, Insn, Rules};
use scx_verify_explain::{Listing, Way, target_of};
use scxsim_output::Text;
use std::fmt::Write;

/// The most bytes of the text of an instruction, with its target, and some more.
const TEXT_CAPACITY: usize = 96;

/// The text of an instruction. It takes no memory from the allocator.
type InsnText = ArrayString<TEXT_CAPACITY>;

/// Appends the line of the instruction at a slot, if one begins there, and below it why it is refused, if
/// it is.
pub(crate) fn push_slot(line: &mut Text, explained: &Explained, slot: usize, width: usize) {
    let Some(insn) = explained.listing.insn(slot) else {
        return;
    };
    push_line(line, explained, slot, insn, width);
    match &explained.explanation {
        Some(explanation) if explanation.slot == slot => push_explanation(
            line,
            explained.listing.context().rules,
            explanation,
        ),
        _ => {}
    }
}

/// The canonical text of an instruction, and the slot to which it jumps or the name of the helper that it
/// calls.
fn text_of(slot: usize, insn: Insn, rules: Rules) -> InsnText {
    let mut text = InsnText::new();
    // There is room for each instruction.
    let _ = write!(text, "{}", Canonical(insn));
    let _ = match (target_of(slot, insn), helper_of(insn, rules)) {
        (Some(target), _) => write!(text, " (to {target})"),
        (None, Some(helper)) => write!(text, "  {helper}"),
        (None, None) => Ok(()),
    };
    text
}

/// The name of the helper that an instruction calls, if these rules know one of that number.
fn helper_of(insn: Insn, rules: Rules) -> Option<&'static str> {
    let Insn::Call(number) = insn else {
        return None;
    };
    Helper::known(number, rules).map(helper_name)
}

/// The length of the longest text of the listing.
pub(crate) fn width_of(listing: &Listing) -> usize {
    let rules = listing.context().rules;
    let mut width = 0;
    for slot in 0..listing.slots() {
        if let Some(insn) = listing.insn(slot) {
            width = text_of(slot, insn, rules).len().max(width);
        }
    }
    width
}

/// Appends a slot, its instruction, and what is known before it.
fn push_line(line: &mut Text, explained: &Explained, slot: usize, insn: Insn, width: usize) {
    let text = text_of(slot, insn, explained.listing.context().rules);
    line.number_right(slot as u64, 4);
    line.push("  ");
    line.push(text.as_str());
    if explained.listing.is_looked_at(slot) {
        line.spaces(width.saturating_sub(text.len()));
        line.push("  ");
        push_state(line, explained, slot);
    }
    line.push("\n");
}

/// Appends what is known at a slot that the pass looked at.
fn push_state(line: &mut Text, explained: &Explained, slot: usize) {
    match explained.listing.state(slot) {
        Some(state) => {
            push_sources(line, explained, slot);
            push_known(line, state);
            push_only_way(line, &explained.listing, slot);
        }
        None => line.push("nothing leads here"),
    }
}

/// Appends which side of a conditional jump is followed, where the other isn't.
fn push_only_way(line: &mut Text, listing: &Listing, slot: usize) {
    match listing.only_way(slot) {
        Some(Way::On) => line.push("; never jumps"),
        Some(Way::Jump) => line.push("; always jumps"),
        None => {}
    }
}

/// Appends the slots from which control comes, in their order, where it jumps here from one.
fn push_sources(line: &mut Text, explained: &Explained, slot: usize) {
    let Some(first) = explained.jumps.first(slot) else {
        return;
    };
    line.number("from ", first as u64);
    let mut last = first;
    for _ in first..slot {
        let Some(next) = explained.jumps.next(last) else {
            break;
        };
        line.number(", ", next as u64);
        last = next;
    }
    if let Some(before) = explained.listing.on_from(slot) {
        line.number(", ", before as u64);
    }
    line.push(": ");
}
