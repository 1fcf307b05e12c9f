ghost use Rattle.std.specs.Prelude.{◌≡◌, ◌++◌, map, Ok, OnOk};
ghost use Rattle.scx_isa_semantics.specs.Results.{◌>>=◌ as ◌>>-◌};
ghost use Rattle.scx_asm_text.specs.Items.{item_value};
ghost use Rattle.scx_asm.specs.Resolving.{insn_for, to_label};
ghost use Rattle.scx_asm.specs.FirstPass.{Gives, unresolved_of};
ghost use Rattle.scx_asm.specs.Passes.{table, first_pass_of};
ghost use Rattle.scx_asm.specs.Reading.{second_pass, insns_of, insn_occupants, code_of, read_text};
ghost use Rattle.scx_asm.specs.FirstFault.{Answers};

use crate::faults::{AsmError, AsmFault};
use crate::resolving::{jumped_so_far, jumped_to, said};
use crate::scanning::{FirstPass, Unresolved, refused, scan, slot_of};
use indexmap::IndexMap;
use scx_asm_text::{Item, Jump, Target};
use scx_isa::{Insn, Program};
use std::alloc::{AllocError, Global};

/// The jump to a label, or its fault.
fn jumped_to_label<'a>(
    labels: &IndexMap<&'a [u8], u16>,
    slot: u16,
    jump: Jump,
    label: &'a [u8],
) -> Result<Insn, AsmFault>
    ensures { result ≡ to_label (table labels.now.entries) slot jump label.now }
{
    match slot_of(labels, label) {
        Some(target) => jumped_to(target, slot, jump),
        None => Err(AsmFault::UnknownLabel),
    }
}

/// The instruction of an unresolved line, or its fault.
#[inline(always)]
fn insn_at<'a>(
    labels: &IndexMap<&'a [u8], u16>,
    unresolved: &Unresolved<'a>,
) -> Result<Insn, AsmFault>
    ensures { result
        ≡ insn_for (table labels.now.entries) unresolved.now.slot (item_value unresolved.now.item) }
{
    match &unresolved.item {
        Item::Statement(statement) => said(statement),
        Item::Jump(jump, Target::Distance(distance)) => jumped_so_far(*jump, *distance),
        Item::Jump(jump, Target::Label(label)) => jumped_to_label(
            labels,
            unresolved.slot,
            *jump,
            label,
        ),
        Item::Blank | Item::Label(_) => Err(AsmFault::OutOfRange),
    }
}

/// Appends the occupants of the slots of an instruction.
#[inline(always)]
fn push_occupants(code: &mut Vec<Option<Insn>>, insn: Insn) -> Result<(), AllocError>
    ensures { OnOk result (code.new.items ≡ code.old.items ++ insn_occupants insn) }
{
    code.push(Some(insn))?;
    match insn {
        Insn::LoadImmediate(..) | Insn::LoadMapReference(..) => code.push(None)?,
        _ => {}
    }
    Ok(())
}

/// The second pass: the occupants of the slots of all unresolved lines.
fn second_pass(alloc: Global, pass: &FirstPass<'_>) -> Result<Vec<Option<Insn>>, AsmError>
    ensures { Gives (λ code. code.items) result
        ((second_pass (table pass.now.labels.entries) (map unresolved_of pass.now.unresolved.items))
        >>- (λ insns. Ok (code_of insns))) }
{
    let mut code = Vec::with_capacity(alloc, usize::from(pass.slots))?;
    for unresolved in &pass.unresolved {
        match insn_at(&pass.labels, unresolved) {
            Ok(insn) => push_occupants(&mut code, insn)?,
            Err(fault) => return refused(fault, unresolved.line),
        }
    }
    Ok(code)
}

/// The second pass, if the first one found an instruction.
fn code_of(alloc: Global, pass: &FirstPass<'_>) -> Result<Vec<Option<Insn>>, AsmError>
    ensures { Gives (λ code. code.items) result
        ((insns_of (first_pass_of pass.now)) >>- (λ insns. Ok (code_of insns))) }
{
    if pass.slots == 0 {
        return refused(AsmFault::Syntax, 1);
    }
    second_pass(alloc, pass)
}

/// The occupants of the slots of the text's program.
#[tactic(auto, using(crate::proofs::SecondPasses::fails_first))]
fn read(alloc: Global, text: &str) -> Result<Vec<Option<Insn>>, AsmError>
    ensures { Gives (λ code. code.items) result (read_text text.now) }
{
    match scan(alloc, text) {
        Ok(pass) => code_of(alloc, &pass),
        Err(error) => Err(error),
    }
}

/// Reads the program that the text describes.
///
/// The first faulty line is refused: by a first pass over all lines, which looks for all faults but
/// those of labels that jumps go to, and then by a second one, which looks for those.
pub fn assemble(alloc: Global, text: &str) -> Result<Program, AsmError>
    ensures exact { Gives (λ program. program) result (read_text text.now) }
    ensures answers { Answers text.now result }
{
    match read(alloc, text) {
        Ok(code) => Ok(Program::new(code)),
        Err(error) => Err(error),
    }
}
