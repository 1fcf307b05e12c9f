ghost use Rattle.std.specs.Prelude.{◌≡◌, ◌<◌, ◌≤◌, ◌≤ℤ◌, pos, Some, OnOk, IfErr};
ghost use Rattle.scx_isa_semantics.specs.Code.{at};
ghost use Rattle.scx_isa_semantics.specs.Steps.{distance, target};
ghost use Rattle.scx_isa.specs.Flow.{jump_fault, end_fault, occupant_fault, Flows, IsFirstFlowFault, StaysInControl};

use crate::faults::{FlowError, FlowFault};
use crate::program::{MAX_SLOTS, Program};
use scx_isa_semantics::Insn;

/// Asks whether every jump goes forward to an instruction of the program, and whether control can't
/// fall off its end. All instructions are looked at, also those that nothing leads to; the first
/// faulty one is refused, with the first of its faults.
pub fn flow(program: &Program) -> Result<(), FlowError>
    ensures accepted { OnOk result (Flows program.now) }
    ensures controlled { OnOk result (StaysInControl program.now) }
    ensures refused { IfErr result (λ error. IsFirstFlowFault program.now error.fault error.slot) }
{
    for slot in 0..program.slots() {
        if let Some(fault) = fault_at(program, slot) {
            return Err(FlowError { fault, slot });
        }
    }
    Ok(())
}

/// The slot that the instruction at this one jumps to; the next one's where it is no jump.
pub fn target(slot: usize, insn: Insn) -> usize
    requires in_range { slot < MAX_SLOTS }
    requires forward { pos 0 ≤ℤ distance insn }
    ensures target { target slot insn ≡ Some result }
    ensures forward { slot < result }
{
    slot + insn.size() + distance(insn) as usize
}

/// The number of slots that a jump skips; 0 if the instruction is no jump.
fn distance(insn: Insn) -> i32
    ensures { result ≡ distance insn }
{
    match insn {
        Insn::JumpIf {
            distance: offset,
            ..
        } => i32::from(offset),
        Insn::Goto(offset) => i32::from(offset),
        Insn::GotoLong(offset) => offset,
        _ => 0,
    }
}

/// The fault of the instruction at a slot, if one begins there.
fn fault_at(program: &Program, slot: usize) -> Option<FlowFault>
    requires { slot < MAX_SLOTS }
    ensures { result ≡ occupant_fault program.now slot (at program.now slot) }
{
    let insn = program.at(slot)?;
    let next = slot + 1;
    match insn {
        // Where its target is in the program, there is an instruction after it too.
        Insn::JumpIf {
            distance: offset,
            ..
        } => fault_of_jump(program, next, i32::from(offset)),
        Insn::Goto(offset) => fault_of_jump(program, next, i32::from(offset)),
        Insn::GotoLong(offset) => fault_of_jump(program, next, offset),
        Insn::Exit => None,
        Insn::LoadImmediate(..) | Insn::LoadMapReference(..) => fault_of_end(program, next + 1),
        _ => fault_of_end(program, next),
    }
}

/// The fault of an instruction that goes on to that slot.
fn fault_of_end(program: &Program, slot: usize) -> Option<FlowFault>
    ensures { result ≡ end_fault program.now slot }
{
    if slot == program.slots() {
        Some(FlowFault::FallsOff)
    } else {
        None
    }
}

/// The fault of a jump with this offset, counted from the slot after it.
fn fault_of_jump(program: &Program, next: usize, offset: i32) -> Option<FlowFault>
    requires { next ≤ MAX_SLOTS }
    ensures { result ≡ jump_fault program.now next offset }
{
    if offset < 0 {
        return Some(FlowFault::BackJump);
    }
    let target = next + offset as usize;
    if target >= program.slots() {
        Some(FlowFault::OutOfProgram)
    } else if program.at(target).is_none() {
        Some(FlowFault::IntoWide)
    } else {
        None
    }
}
