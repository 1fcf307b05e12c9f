ghost use Rattle.std.specs.Prelude.{◌≡◌, Some, None};
ghost use Rattle.scx_isa_semantics.specs.Registers.{number};
ghost use Rattle.scx_abs.specs.Changes.{ended_on, next_states, went_on};
ghost use Rattle.scx_abs.specs.Checks.{flows, sets};
ghost use Rattle.scx_abs.specs.Rules.{binary_kind, end_rule, load_kind, rule, store_rule};

use crate::arithmetic::{extended_kind, map_kind, negated_kind, swapped_kind};
use crate::calls::called;
use crate::changes::{Change, Flow, next_of};
use crate::faults::Why;
use crate::jumps::flow_of_jump;
use crate::kinds::Kind;
use crate::states::AbsState;
use scx_abs_ranges::Numbers;
use scx_isa::{Access, Insn, Operand, Operation, Register, Size, Width};
use scx_isa_semantics::wide_immediate;
use scx_maps::MapDefs;
use scx_vm::Context;

/// The states that an instruction sends on.
#[derive(Clone, Copy)]
pub struct Next {
    /// To the next instruction, if control may go there.
    pub on: Option<AbsState>,
    /// To the jump's target, if control may go there.
    pub jump: Option<AbsState>,
}

/// The states that an instruction sends on from this one, or why it is refused: the first of its
/// checks that fails. A register that is written is checked first, then the registers that are
/// read, the destination before the source, then the address, and then the value that is stored.
pub fn transfer(state: &AbsState, insn: &Insn, context: &Context) -> Result<Next, Why>
    ensures { result ≡ rule context.now insn.now state.now }
{
    let defs = &context.defs;
    match *insn {
        Insn::Binary(width, operation, destination, operand) => {
            computed(state, width, operation, destination, operand, defs)
        }
        Insn::Negate(width, destination) => {
            let kind = negated_kind(state.kind(destination), width);
            on(state, assigned(state, destination, kind))
        }
        Insn::SignExtend(extension, destination, source) => {
            let kind = extended_kind(state.kind(source), extension);
            on(state, assigned(state, destination, kind))
        }
        Insn::ByteSwap(order, width, destination) => {
            let kind = swapped_kind(state.kind(destination), order, width);
            on(state, assigned(state, destination, kind))
        }
        Insn::LoadImmediate(destination, low_half, high_half) => {
            let kind = Kind::Num(Numbers::single(wide_immediate(low_half, high_half)));
            on(state, assigned(state, destination, Ok(kind)))
        }
        Insn::LoadMapReference(destination, map) => {
            on(state, assigned(state, destination, map_kind(map, defs)))
        }
        Insn::Load(access, destination, base, offset) => {
            loaded(state, access, destination, base, offset, context)
        }
        Insn::Store(size, base, offset, operand) => {
            stored(state, size, base, offset, operand, defs)
        }
        Insn::JumpIf {
            width,
            comparison,
            register,
            operand,
            ..
        } => {
            let flow = flow_of_jump(state, width, comparison, register, operand);
            followed(state, flow)
        }
        Insn::Goto(_) | Insn::GotoLong(_) => followed(state, Ok(Flow::Jump(Change::Nothing))),
        Insn::Call(number) => on(state, called(state, number, context)),
        Insn::Exit => end(state, context),
    }
}

/// The states after arithmetic.
fn computed(
    state: &AbsState,
    width: Width,
    operation: Operation,
    destination: Register,
    operand: Operand,
    defs: &MapDefs,
) -> Result<Next, Why>
    ensures { result
        ≡ sets state.now (number destination)
        (binary_kind defs.now state.now width operation destination operand) }
{
    let mut next = *state;
    let done = next.compute(width, operation, destination, operand, defs);
    match done {
        Ok(()) => Ok(goes_on(next)),
        Err(why) => Err(why),
    }
}

/// The states after a load.
fn loaded(
    state: &AbsState,
    access: Access,
    destination: Register,
    base: Register,
    offset: i16,
    context: &Context,
) -> Result<Next, Why>
    ensures { result
        ≡ sets state.now (number destination) (load_kind context.now state.now access base offset) }
{
    let mut next = *state;
    match next.load(access, destination, base, offset, context) {
        Ok(_) => Ok(goes_on(next)),
        Err(why) => Err(why),
    }
}

/// The states after a store.
fn stored(
    state: &AbsState,
    size: Size,
    base: Register,
    offset: i16,
    operand: Operand,
    defs: &MapDefs,
) -> Result<Next, Why>
    ensures { result ≡ store_rule defs.now state.now size base offset operand }
{
    let mut next = *state;
    match next.store(size, base, offset, operand, defs) {
        Ok(_) => Ok(goes_on(next)),
        Err(why) => Err(why),
    }
}

/// To the next instruction alone.
fn goes_on(state: AbsState) -> Next
    ensures { result ≡ flows (Some state) None }
{
    Next {
        on: Some(state),
        jump: None,
    }
}

/// The change where the register gets a kind. A write of r10 is refused first, then the kind's own
/// fault.
#[inline(always)]
pub fn assigned(
    state: &AbsState,
    register: Register,
    kind: Result<Kind, Why>,
) -> Result<Change, Why>
    ensures { went_on state.now result ≡ sets state.now (number register) kind }
{
    if register == Register::R10 {
        return Err(Why::WritesFrame);
    }
    Ok(Change::Register(register, kind?))
}

/// The state where control goes on to the next instruction alone.
fn on(state: &AbsState, change: Result<Change, Why>) -> Result<Next, Why>
    ensures { result ≡ went_on state.now change }
{
    Ok(next_of(state, &Flow::On(change?)))
}

/// The states that a flow sends on, or why it is refused.
fn followed(state: &AbsState, flow: Result<Flow, Why>) -> Result<Next, Why>
    ensures { result ≡ next_states state.now flow }
{
    match flow {
        Ok(flow) => Ok(next_of(state, &flow)),
        Err(why) => Err(why),
    }
}

/// Checks the end of the program, at which the callbacks that answer a number have one in r0.
pub fn ended(state: &AbsState, context: &Context) -> Result<(), Why>
    ensures { ended_on result ≡ rule context.now Insn.Exit state.now }
{
    if context.callback.answers() {
        check_answer(state.kind(Register::R0))
    } else {
        Ok(())
    }
}

/// Checks that what a program answers is a number.
fn check_answer(kind: Kind) -> Result<(), Why>
    ensures { ended_on result ≡ end_rule kind }
{
    match kind {
        Kind::Num(_) => Ok(()),
        _ => Err(Why::BadReturn),
    }
}

/// The end sends nothing on.
fn end(state: &AbsState, context: &Context) -> Result<Next, Why>
    ensures { result ≡ rule context.now Insn.Exit state.now }
{
    ended(state, context)?;
    Ok(next_of(state, &Flow::End))
}
