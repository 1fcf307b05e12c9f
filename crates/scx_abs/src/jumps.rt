ghost use Rattle.std.specs.Prelude.{◌≡◌, Ok, Some, IfSome, true, false, option_map};
ghost use Rattle.scx_isa_semantics.specs.Registers.{number};
ghost use Rattle.scx_abs_ranges.specs.Ranges.{single};
ghost use Rattle.scx_abs.specs.declared.changes.Change.TheVariants as Change;
ghost use Rattle.scx_abs.specs.declared.kinds.Kind.TheVariants.{Elem, Num, Task};
ghost use Rattle.scx_abs.specs.Changes.{after_change, next_of, next_states};
ghost use Rattle.scx_abs.specs.Checks.{flows, constant_of};
ghost use Rattle.scx_abs.specs.States.{kind_at};
ghost use Rattle.scx_abs.specs.Rules.{null_test, if_null, if_not_null, null_test_rule, side, sides, numbers_compared, jump_rule};

use crate::arithmetic::{operand_kind, usable};
use crate::changes::{Change, Flow};
use crate::faults::Why;
use crate::kinds::Kind;
use crate::states::AbsState;
use scx_abs_ranges::{Numbers, Offsets};
use scx_isa::{Comparison, Operand, Register, Width};
use scx_isa_semantics::immediate;

/// The constant that a jump compares all 64 bits of a register's number with, if it does: each side has
/// then the numbers that `Numbers::cut` leaves.
#[inline(always)]
pub fn constant_compared(
    state: &AbsState,
    width: Width,
    comparison: Comparison,
    register: Register,
    numbers: Numbers,
    operand: Operand,
) -> Option<u64>
    requires { kind_at state.now (number register) ≡ Num numbers }
    ensures constant { result ≡ constant_of width operand }
    ensures sides { IfSome result (λ c. jump_rule state.now width comparison register operand
        ≡ Ok (flows (side state.now (number register) comparison false c numbers)
        (side state.now (number register) comparison true c numbers))) }
{
    match (width, operand) {
        (Width::Bits64, Operand::Immediate(k)) => Some(immediate(width, k)),
        _ => None,
    }
}

/// The flow of a conditional jump.
#[inline(always)]
pub fn flow_of_jump(
    state: &AbsState,
    width: Width,
    comparison: Comparison,
    register: Register,
    operand: Operand,
) -> Result<Flow, Why>
    ensures { next_states state.now result ≡ jump_rule state.now width comparison register operand }
{
    let kind = usable(state.kind(register))?;
    let other = operand_kind(state, width, operand)?;
    match kind {
        Kind::Num(numbers) => numbers_compared(state, width, comparison, register, numbers, other),
        _ => null_test_rule(state, register, kind, null_test(width, comparison, operand)),
    }
}

/// True or false for a test for 0: it jumps where it finds 0, or where it doesn't. `None` of
/// another comparison.
#[inline(always)]
fn null_test(width: Width, comparison: Comparison, operand: Operand) -> Option<bool>
    ensures { result ≡ null_test width comparison operand }
{
    match (width, comparison, operand) {
        (Width::Bits64, Comparison::Equal, Operand::Immediate(0)) => Some(true),
        (Width::Bits64, Comparison::NotEqual, Operand::Immediate(0)) => Some(false),
        _ => None,
    }
}

/// The flow of a comparison of one of these numbers with an operand of that kind.
#[inline(always)]
fn numbers_compared(
    state: &AbsState,
    width: Width,
    comparison: Comparison,
    register: Register,
    numbers: Numbers,
    other: Kind,
) -> Result<Flow, Why>
    ensures { next_states state.now result
        ≡ numbers_compared state.now (number register) width comparison numbers other }
{
    match other {
        Kind::Num(others) => Ok(sides(state, width, comparison, register, numbers, others)),
        _ => Err(Why::PointerCompare),
    }
}

/// The flow of a comparison with one of those numbers: a 64-bit comparison with a single one
/// refines the register on each side.
fn sides(
    state: &AbsState,
    width: Width,
    comparison: Comparison,
    register: Register,
    numbers: Numbers,
    others: Numbers,
) -> Flow
    ensures { next_of state.now result
        ≡ sides state.now (number register) width comparison numbers others }
{
    if width == Width::Bits64 && others.is_single() {
        sides_of(state, comparison, register, numbers, others.low())
    } else {
        Flow::Both(Change::Nothing, Change::Nothing)
    }
}

/// The flow of a 64-bit comparison with `c`. A side that no number takes isn't followed.
fn sides_of(
    state: &AbsState,
    comparison: Comparison,
    register: Register,
    numbers: Numbers,
    c: u64,
) -> Flow
    ensures { next_of state.now result
        ≡ flows (side state.now (number register) comparison false c numbers)
        (side state.now (number register) comparison true c numbers) }
{
    let no = side(state, comparison, false, register, numbers, c);
    let yes = side(state, comparison, true, register, numbers, c);
    match no {
        Some(on) => match yes {
            Some(jump) => Flow::Both(on, jump),
            None => Flow::On(on),
        },
        None => match yes {
            Some(jump) => Flow::Jump(jump),
            None => Flow::End,
        },
    }
}

/// The change where the comparison has that answer, if it may have it.
fn side(
    state: &AbsState,
    comparison: Comparison,
    answer: bool,
    register: Register,
    numbers: Numbers,
    c: u64,
) -> Option<Change>
    ensures { option_map (after_change state.now) result
        ≡ side state.now (number register) comparison answer c numbers }
{
    match numbers.cut(comparison, answer, c) {
        Some(left) => Some(Change::Register(register, Kind::Num(left))),
        None => None,
    }
}

/// The flow of a test for 0 of a pointer of that kind.
#[inline(always)]
fn null_test_rule(
    state: &AbsState,
    register: Register,
    kind: Kind,
    test: Option<bool>,
) -> Result<Flow, Why>
    ensures { next_states state.now result ≡ null_test_rule state.now (number register) kind test }
{
    match test {
        Some(true) => Ok(jump_at_null(state, register, kind)),
        Some(false) => Ok(go_on_at_null(state, register, kind)),
        None => Err(Why::PointerCompare),
    }
}

/// The flow of a test that jumps at 0. A pointer that isn't null never does.
fn jump_at_null(state: &AbsState, register: Register, kind: Kind) -> Flow
    ensures { next_of state.now result
        ≡ flows (Some (if_not_null state.now (number register) kind))
        (if_null state.now (number register) kind) }
{
    match kind {
        Kind::ElemOrNull(map) => Flow::Both(element(register, map), null(register)),
        Kind::TaskOrNull => Flow::Both(task(register), null(register)),
        _ => Flow::On(Change::Nothing),
    }
}

/// The flow of a test that goes on at 0.
fn go_on_at_null(state: &AbsState, register: Register, kind: Kind) -> Flow
    ensures { next_of state.now result
        ≡ flows (if_null state.now (number register) kind)
        (Some (if_not_null state.now (number register) kind)) }
{
    match kind {
        Kind::ElemOrNull(map) => Flow::Both(null(register), element(register, map)),
        Kind::TaskOrNull => Flow::Both(null(register), task(register)),
        _ => Flow::Jump(Change::Nothing),
    }
}

/// The register was found to be 0.
fn null(register: Register) -> Change
    ensures { result ≡ Change.Register register (Num (single 0)) }
{
    Change::Register(register, Kind::Num(Numbers::single(0)))
}

/// It was found to point to an element.
fn element(register: Register, map: u8) -> Change
    ensures { result ≡ Change.Register register (Elem map (single 0)) }
{
    Change::Register(register, Kind::Elem(map, Offsets::single(0)))
}

/// It was found to point to a task.
fn task(register: Register) -> Change
    ensures { result ≡ Change.Register register Task }
{
    Change::Register(register, Kind::Task)
}
