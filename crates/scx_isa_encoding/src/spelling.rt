ghost use Rattle.std.specs.Prelude.{◌≡◌, ◌++◌, OnOk};
ghost use Rattle.std.specs.List.{flat_map};
ghost use Rattle.scx_isa_encoding.specs.Slots.{slot_bytes};
ghost use Rattle.scx_isa_semantics.specs.Registers.{number};
ghost use Rattle.scx_isa_encoding.specs.Opcodes.{opcode};
ghost use Rattle.scx_isa_encoding.specs.Spelling.{IsInsn, insn_slots, first_slot, second_slot, half, operation_offset, extension_offset, order_bits, operand_register, operand_immediate};

use crate::forms::{Form, Source, kind_of};
use crate::opcodes::opcode_of;
use crate::slots::{Slot, push_slot};
use scx_isa_semantics::{Extension, Insn, Operand, Operation, Register, SwapWidth};
use std::alloc::AllocError;

/// The one slot that spells the instruction, or the first half of a wide one.
#[inline(always)]
#[tactic(auto, using(crate::proofs::Codes::base_has_opcode))]
pub fn first_slot_of(insn: &Insn) -> Slot
    ensures { result ≡ first_slot insn.now }
{
    match *insn {
        Insn::Binary(width, operation, destination, operand) => {
            let form = Form::Binary(width, operation, kind_of(operand));
            with_operand(form, destination, operand, operation_offset_of(operation))
        }
        Insn::Negate(width, destination) => with_number(Form::Negate(width), destination, 0),
        Insn::SignExtend(extension, destination, source) => {
            with_extension(extension, destination, source)
        }
        Insn::ByteSwap(order, width, destination) => {
            with_number(Form::ByteSwap(order), destination, order_bits_of(width))
        }
        Insn::LoadImmediate(destination, low, _) => {
            with_number(Form::LoadImmediate, destination, low.cast_unsigned())
        }
        Insn::LoadMapReference(destination, map) => with_map(destination, map),
        Insn::Load(access, destination, base, offset) => {
            let form = Form::Load(access);
            with_registers(form, destination, base, offset.cast_unsigned())
        }
        Insn::Store(size, base, offset, operand) => {
            let form = Form::Store(size, kind_of(operand));
            with_operand(form, base, operand, offset.cast_unsigned())
        }
        Insn::JumpIf {
            width,
            comparison,
            register,
            operand,
            distance,
        } => {
            let form = Form::JumpIf(width, comparison, kind_of(operand));
            with_operand(form, register, operand, distance.cast_unsigned())
        }
        Insn::Goto(distance) => bare(Form::Goto, distance.cast_unsigned(), 0),
        Insn::GotoLong(distance) => bare(Form::GotoLong, 0, distance.cast_unsigned()),
        Insn::Call(helper) => bare(Form::Call, 0, helper.cast_unsigned()),
        Insn::Exit => bare(Form::Exit, 0, 0),
    }
}

/// The slot of a form with a register and an operand.
#[inline(always)]
fn with_operand(form: Form, register: Register, operand: Operand, offset: u16) -> Slot
    ensures { result ≡ record {
      opcode = opcode form;
      destination = number register;
      source = operand_register operand;
      offset = offset;
      immediate = operand_immediate operand;
    } }
{
    Slot {
        opcode: opcode_of(form),
        destination: register.number(),
        source: register_of(operand),
        offset,
        immediate: number_of(operand),
    }
}

/// The slot of a form with two registers.
#[inline(always)]
fn with_registers(form: Form, destination: Register, source: Register, offset: u16) -> Slot
    ensures { result ≡ record {
      opcode = opcode form;
      destination = number destination;
      source = number source;
      offset = offset;
      immediate = 0;
    } }
{
    Slot {
        opcode: opcode_of(form),
        destination: destination.number(),
        source: source.number(),
        offset,
        immediate: 0,
    }
}

/// The slot of a form with a register and a number.
#[inline(always)]
fn with_number(form: Form, destination: Register, immediate: u32) -> Slot
    ensures { result ≡ record {
      opcode = opcode form;
      destination = number destination;
      source = 0;
      offset = 0;
      immediate = immediate;
    } }
{
    Slot {
        opcode: opcode_of(form),
        destination: destination.number(),
        source: 0,
        offset: 0,
        immediate,
    }
}

/// The slot of a sign-extending move.
#[inline(always)]
fn with_extension(extension: Extension, destination: Register, source: Register) -> Slot
    ensures { result ≡ first_slot (Insn.SignExtend extension destination source) }
{
    let form = Form::Binary(extension.width(), Operation::Move, Source::Register);
    with_registers(form, destination, source, extension_offset_of(extension))
}

/// The first half of a reference to a map.
fn with_map(destination: Register, map: i32) -> Slot
    ensures { result ≡ first_slot (Insn.LoadMapReference destination map) }
{
    Slot {
        opcode: opcode_of(Form::LoadMapReference),
        destination: destination.number(),
        source: 5,
        offset: 0,
        immediate: map.cast_unsigned(),
    }
}

/// The slot of a form without a register.
#[inline(always)]
fn bare(form: Form, offset: u16, immediate: u32) -> Slot
    ensures { result ≡ record {
      opcode = opcode form;
      destination = 0;
      source = 0;
      offset = offset;
      immediate = immediate;
    } }
{
    Slot {
        opcode: opcode_of(form),
        destination: 0,
        source: 0,
        offset,
        immediate,
    }
}

/// The second half of a wide instruction.
pub fn second_slot_of(insn: &Insn) -> Option<Slot>
    ensures { result ≡ second_slot insn.now }
{
    match *insn {
        Insn::LoadImmediate(_, _, high) => Some(half_of(high.cast_unsigned())),
        Insn::LoadMapReference(..) => Some(half_of(0)),
        _ => None,
    }
}

/// Writes the slots of an instruction at the end.
#[inline(always)]
pub fn push_insn(out: &mut Vec<u8>, insn: &Insn) -> Result<(), AllocError>
    requires { IsInsn insn.now }
    ensures { OnOk result
        (out.new.items ≡ out.old.items ++ flat_map slot_bytes (insn_slots insn.now)) }
{
    push_slot(out, &first_slot_of(insn))?;
    if let Some(half) = second_slot_of(insn) {
        push_slot(out, &half)?;
    }
    Ok(())
}

/// A second half, which holds nothing but an immediate.
fn half_of(immediate: u32) -> Slot
    ensures { result ≡ half immediate }
{
    Slot {
        opcode: 0,
        destination: 0,
        source: 0,
        offset: 0,
        immediate,
    }
}

/// The register that an operand names, or 0.
fn register_of(operand: Operand) -> u8
    ensures { result ≡ operand_register operand }
{
    match operand {
        Operand::Immediate(_) => 0,
        Operand::Register(register) => register.number(),
    }
}

/// The immediate that an operand is, or 0.
fn number_of(operand: Operand) -> u32
    ensures { result ≡ operand_immediate operand }
{
    match operand {
        Operand::Immediate(number) => number.cast_unsigned(),
        Operand::Register(_) => 0,
    }
}

fn operation_offset_of(operation: Operation) -> u16
    ensures { result ≡ operation_offset operation }
{
    match operation {
        Operation::SignedDivide | Operation::SignedModulo => 1,
        _ => 0,
    }
}

fn extension_offset_of(extension: Extension) -> u16
    ensures { result ≡ extension_offset extension }
{
    match extension {
        Extension::Low8To32 | Extension::Low8To64 => 8,
        Extension::Low16To32 | Extension::Low16To64 => 16,
        Extension::Low32To64 => 32,
    }
}

fn order_bits_of(width: SwapWidth) -> u32
    ensures { result ≡ order_bits width }
{
    match width {
        SwapWidth::Bits16 => 16,
        SwapWidth::Bits32 => 32,
        SwapWidth::Bits64 => 64,
    }
}
