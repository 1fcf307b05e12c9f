ghost use Rattle.std.specs.Prelude.{◌≡◌, ◌+◌, ◌<◌, ◌≤◌, ◌^◌, ok_or};
ghost use Rattle.scx_asm_text.specs.Items.{item_value};
ghost use Rattle.scx_asm_text.specs.declared.items.Statement.TheVariants.{Binary, LoadImmediate, LoadMapReference, Load, Store, Call};
ghost use Rattle.scx_asm.specs.Resolving.{immediate, short, long, operand_of, insn_of, jump_of, distant, fits, slots, distance, or_out_of_range};

use crate::faults::AsmFault;
use scx_asm_text::{Item, Jump, Literal, Statement, Target, WrittenOperand};
use scx_isa::{Access, Insn, Operand, Operation, Register, Size, Width};

/// The number, if it fits 32 bits with its sign.
#[inline(always)]
fn immediate_of(number: Literal) -> Option<i32>
    ensures { result ≡ immediate number }
{
    let magnitude = number.magnitude?;
    if number.is_negative {
        if magnitude > 1 << 31 {
            None
        } else {
            Some((-(magnitude as i64)) as i32)
        }
    } else if magnitude < 1 << 31 {
        Some(magnitude as i32)
    } else {
        None
    }
}

#[inline(always)]
fn short_of(number: i32) -> Option<i16>
    ensures { result ≡ short number }
{
    i16::try_from(number).ok()
}

/// The number, if it is one of 64 bits with or without a sign, as bits.
#[tactic(auto, using(crate::proofs::Fitting::long_is))]
fn long_of(number: Literal) -> Option<u64>
    ensures { result ≡ long number }
{
    let magnitude = number.magnitude?;
    if number.is_negative {
        if magnitude > 1 << 63 {
            None
        } else {
            Some(magnitude.wrapping_neg())
        }
    } else {
        Some(magnitude)
    }
}

#[inline(always)]
fn operand_of(argument: WrittenOperand) -> Option<Operand>
    ensures { result ≡ operand_of argument }
{
    match argument {
        WrittenOperand::Register(register) => Some(Operand::Register(register)),
        WrittenOperand::Number(number) => Some(Operand::Immediate(immediate_of(number)?)),
    }
}

fn immediate_load_of(register: Register, number: Literal) -> Option<Insn>
    ensures { result ≡ insn_of (LoadImmediate register number) }
{
    let bits = long_of(number)?;
    let low = (bits % (1 << 32)) as u32;
    let high = (bits / (1 << 32)) as u32;
    Some(Insn::LoadImmediate(register, low.cast_signed(), high.cast_signed()))
}

#[inline(always)]
fn binary_of(
    width: Width,
    operation: Operation,
    register: Register,
    argument: WrittenOperand,
) -> Option<Insn>
    ensures { result ≡ insn_of (Binary width operation register argument) }
{
    let operand = operand_of(argument)?;
    Some(Insn::Binary(width, operation, register, operand))
}

fn map_reference_of(register: Register, map: Literal) -> Option<Insn>
    ensures { result ≡ insn_of (LoadMapReference register map) }
{
    Some(Insn::LoadMapReference(register, immediate_of(map)?))
}

#[inline(always)]
fn load_of(access: Access, register: Register, base: Register, offset: Literal) -> Option<Insn>
    ensures { result ≡ insn_of (Load access register base offset) }
{
    let offset = short_of(immediate_of(offset)?)?;
    Some(Insn::Load(access, register, base, offset))
}

#[inline(always)]
fn store_of(size: Size, base: Register, offset: Literal, argument: WrittenOperand) -> Option<Insn>
    ensures { result ≡ insn_of (Store size base offset argument) }
{
    let offset = short_of(immediate_of(offset)?)?;
    Some(Insn::Store(size, base, offset, operand_of(argument)?))
}

fn call_of(helper: Literal) -> Option<Insn>
    ensures { result ≡ insn_of (Call helper) }
{
    Some(Insn::Call(immediate_of(helper)?))
}

/// The instruction of a statement, if its numbers fit.
#[inline(always)]
fn insn_of(statement: &Statement) -> Option<Insn>
    ensures { result ≡ insn_of statement.now }
{
    match *statement {
        Statement::Binary(width, operation, register, argument) => {
            binary_of(width, operation, register, argument)
        }
        Statement::Negate(width, register) => Some(Insn::Negate(width, register)),
        Statement::SignExtend(extension, register, source) => {
            Some(Insn::SignExtend(extension, register, source))
        }
        Statement::ByteSwap(order, width, register) => Some(Insn::ByteSwap(order, width, register)),
        Statement::LoadImmediate(register, number) => immediate_load_of(register, number),
        Statement::LoadMapReference(register, map) => map_reference_of(register, map),
        Statement::Load(access, register, base, offset) => load_of(access, register, base, offset),
        Statement::Store(size, base, offset, argument) => store_of(size, base, offset, argument),
        Statement::Call(helper) => call_of(helper),
        Statement::Exit => Some(Insn::Exit),
    }
}

/// The jump of that distance, if its numbers fit.
#[tactic(auto, using(crate::proofs::Fitting::wide_is))]
pub(crate) fn jump_of(jump: Jump, distance: i32) -> Option<Insn>
    ensures { result ≡ jump_of jump distance }
{
    match jump {
        Jump::If(width, comparison, register, argument) => {
            let offset = short_of(distance)?;
            let operand = operand_of(argument)?;
            Some(Insn::JumpIf {
                width,
                comparison,
                register,
                operand,
                distance: offset,
            })
        }
        Jump::Goto => Some(Insn::Goto(short_of(distance)?)),
        Jump::GotoLong => Some(Insn::GotoLong(distance)),
    }
}

fn distant(jump: Jump, distance: Literal) -> Option<Insn>
    ensures { result ≡ distant jump distance }
{
    jump_of(jump, immediate_of(distance)?)
}

/// True if the numbers of the line fit their fields.
#[inline(always)]
pub(crate) fn fits(item: &Item<'_>) -> bool
    ensures { result ≡ fits (item_value item.now) }
{
    match item {
        Item::Blank | Item::Label(_) => true,
        Item::Statement(statement) => insn_of(statement).is_some(),
        Item::Jump(jump, Target::Distance(distance)) => distant(*jump, *distance).is_some(),
        Item::Jump(jump, Target::Label(_)) => jump_of(*jump, 0).is_some(),
    }
}

/// The number of slots that the line's instruction takes.
#[inline(always)]
pub(crate) fn slots_of(item: &Item<'_>) -> u16
    ensures slots { result ≡ slots (item_value item.now) }
    ensures most { result ≤ 2 }
{
    match *item {
        Item::Blank | Item::Label(_) => 0,
        Item::Statement(Statement::LoadImmediate(..) | Statement::LoadMapReference(..)) => 2,
        Item::Statement(_) | Item::Jump(..) => 1,
    }
}

/// The offset from the slot after a jump.
fn distance_to(target: u16, slot: u16) -> i32
    ensures { result ≡ distance slot target }
{
    i32::from(target) - i32::from(slot) - 1
}

/// The jump to a slot, or its fault.
pub(crate) fn jumped_to(target: u16, slot: u16, jump: Jump) -> Result<Insn, AsmFault>
    ensures { result ≡ or_out_of_range (jump_of jump (distance slot target)) }
{
    jumped(jump, distance_to(target, slot))
}

/// The instruction of a statement, or its fault.
#[inline(always)]
pub(crate) fn said(statement: &Statement) -> Result<Insn, AsmFault>
    ensures { result ≡ or_out_of_range (insn_of statement.now) }
{
    insn_of(statement).ok_or(AsmFault::OutOfRange)
}

/// The jump of that distance, or its fault.
pub(crate) fn jumped(jump: Jump, distance: i32) -> Result<Insn, AsmFault>
    ensures { result ≡ or_out_of_range (jump_of jump distance) }
{
    jump_of(jump, distance).ok_or(AsmFault::OutOfRange)
}

/// The jump of a distance that is written, or its fault.
pub(crate) fn jumped_so_far(jump: Jump, distance: Literal) -> Result<Insn, AsmFault>
    ensures { result ≡ or_out_of_range (distant jump distance) }
{
    distant(jump, distance).ok_or(AsmFault::OutOfRange)
}
