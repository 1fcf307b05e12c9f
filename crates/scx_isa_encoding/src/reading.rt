ghost use Rattle.std.specs.Prelude.{◌≡◌, None, Ok, IfOk, IfSome};
ghost use Rattle.std.specs.Int.{w32, cast_signed};
ghost use Rattle.scx_isa_encoding.specs.Slots.{front_slot};
ghost use Rattle.scx_isa_semantics.specs.Tables.{first_with_code};
ghost use Rattle.scx_isa_semantics.specs.Arithmetic.{extension_width};
ghost use Rattle.scx_isa_encoding.specs.Opcodes.{opcode, form, form_of, source_of};
ghost use Rattle.scx_isa_encoding.specs.Spelling.{extension_offset, order_bits, first_slot};
ghost use Rattle.scx_isa_encoding.specs.Reading.{register_of_field, operand_at, extensions, extension_at, binary_at, order_widths, high_half, insn_of_form, whole, insn_at, half_at, occupant_at, due_after};

use crate::faults::DecodeFault;
use crate::forms::{Form, Source};
use crate::opcodes::form_at;
use crate::slots::{Slot, first_of};
use crate::spelling::{first_slot_of, second_slot_of};
use scx_isa_semantics::{
    ByteOrder, Comparison, Extension, Insn, Operand, Operation, Register, Size, SwapWidth, Width,
};

/// The occupant of a slot: the second half that is due there, or an instruction.
#[inline(always)]
pub fn occupant_of(
    due: Option<Slot>,
    slot: &Slot,
    after: &[u8],
) -> Result<Option<Insn>, DecodeFault>
    ensures { result ≡ occupant_at due slot.now (front_slot after.now) }
{
    match due {
        Some(due) => check_half(slot, &due),
        None => Ok(Some(insn_of(slot, after)?)),
    }
}

/// The second half that is due after a slot.
pub fn due_behind(occupant: &Option<Insn>) -> Option<Slot>
    ensures { result ≡ due_after occupant.now }
{
    second_slot_of(occupant.as_ref()?)
}

/// The instruction that begins at a slot, with the bytes after the slot.
#[inline(always)]
fn insn_of(slot: &Slot, after: &[u8]) -> Result<Insn, DecodeFault>
    ensures { result ≡ insn_at slot.now (front_slot after.now) }
{
    let form = form_of_slot(slot)?;
    read(form, slot, after)
}

/// The form of a slot's opcode.
#[inline(always)]
fn form_of_slot(slot: &Slot) -> Result<Form, DecodeFault>
    ensures form { result ≡ form_of slot.now.opcode slot.now.source }
    ensures opcode { IfOk result (λ f. slot.now.opcode ≡ opcode f) }
{
    form_at(slot.opcode, slot.source)
}

/// Refuses a slot that isn't the second half that is due.
fn check_half(slot: &Slot, due: &Slot) -> Result<Option<Insn>, DecodeFault>
    ensures { result ≡ half_at slot.now due.now }
{
    if slot == due {
        Ok(None)
    } else {
        Err(DecodeFault::UnusedField)
    }
}

/// The instruction, whose opcode the slot has, if nothing stands in the slot that it doesn't use and
/// its second half is there.
#[inline(always)]
fn checked(slot: &Slot, after: &[u8], insn: Insn) -> Result<Insn, DecodeFault>
    requires { slot.now.opcode ≡ opcode (form insn) }
    ensures { result ≡ whole slot.now (front_slot after.now) insn }
{
    if *slot != spelled(slot.opcode, &insn) {
        return Err(DecodeFault::UnusedField);
    }
    if second_slot_of(&insn).is_some() && first_of(after).is_none() {
        return Err(DecodeFault::HalfWide);
    }
    Ok(insn)
}

/// The slot that spells the instruction, whose opcode is known.
#[inline(always)]
fn spelled(code: u8, insn: &Insn) -> Slot
    requires { code ≡ opcode (form insn.now) }
    ensures { result ≡ first_slot insn.now }
{
    let slot = first_slot_of(insn);
    Slot {
        opcode: code,
        destination: slot.destination,
        source: slot.source,
        offset: slot.offset,
        immediate: slot.immediate,
    }
}

/// The instruction of a form with a slot's fields. Each arm checks its own, which spares a second
/// look at which instruction it is.
#[inline(always)]
fn read(form: Form, slot: &Slot, after: &[u8]) -> Result<Insn, DecodeFault>
    requires form { form_of slot.now.opcode slot.now.source ≡ Ok form }
    requires opcode { slot.now.opcode ≡ opcode form }
    ensures { result ≡ insn_at slot.now (front_slot after.now) }
{
    let number = slot.immediate.cast_signed();
    match form {
        Form::Binary(width, operation, source) => {
            read_binary(width, operation, source, slot, after)
        }
        Form::Negate(width) => checked(slot, after, Insn::Negate(width, first(slot)?)),
        Form::ByteSwap(order) => checked(slot, after, build_byte_swap(order, slot)?),
        Form::LoadImmediate => {
            let insn = Insn::LoadImmediate(first(slot)?, number, high_of(after));
            checked(slot, after, insn)
        }
        Form::LoadMapReference => {
            checked(slot, after, Insn::LoadMapReference(first(slot)?, number))
        }
        Form::Load(access) => {
            let insn = Insn::Load(
                access,
                first(slot)?,
                second(slot)?,
                slot.offset.cast_signed(),
            );
            checked(slot, after, insn)
        }
        Form::Store(size, source) => read_store(size, source, slot, after),
        Form::JumpIf(width, comparison, source) => {
            read_jump(width, comparison, source, slot, after)
        }
        Form::Goto => checked(slot, after, Insn::Goto(slot.offset.cast_signed())),
        Form::GotoLong => checked(slot, after, Insn::GotoLong(number)),
        Form::Call => checked(slot, after, Insn::Call(number)),
        Form::Exit => checked(slot, after, Insn::Exit),
    }
}

/// The upper half of a 64-bit immediate; where its slot is missing another fault comes later.
fn high_of(after: &[u8]) -> i32
    ensures { result ≡ cast_signed w32 (high_half (front_slot after.now)) }
{
    first_of(after)
        .map_or(0, |half| half.immediate)
        .cast_signed()
}

/// The register in the destination field.
#[inline(always)]
fn first(slot: &Slot) -> Result<Register, DecodeFault>
    ensures { result ≡ register_of_field slot.now.destination }
{
    Register::new(slot.destination).ok_or(DecodeFault::BadRegister)
}

/// The register in the source field.
#[inline(always)]
fn second(slot: &Slot) -> Result<Register, DecodeFault>
    ensures { result ≡ register_of_field slot.now.source }
{
    Register::new(slot.source).ok_or(DecodeFault::BadRegister)
}

#[inline(always)]
fn operand(source: Source, slot: &Slot) -> Result<Operand, DecodeFault>
    ensures operand { result ≡ operand_at source slot.now }
    ensures source { IfOk result (λ y. source_of y ≡ source) }
{
    match source {
        Source::Immediate => Ok(Operand::Immediate(slot.immediate.cast_signed())),
        Source::Register => Ok(Operand::Register(second(slot)?)),
    }
}

/// A store. Each kind of operand has an arm, so that only the field that it leaves empty is looked at.
#[inline(always)]
fn read_store(size: Size, source: Source, slot: &Slot, after: &[u8]) -> Result<Insn, DecodeFault>
    requires form { form_of slot.now.opcode slot.now.source ≡ Ok (Form.Store size source) }
    requires opcode { slot.now.opcode ≡ opcode (Form.Store size source) }
    ensures { result ≡ insn_at slot.now (front_slot after.now) }
{
    let base = first(slot)?;
    let offset = slot.offset.cast_signed();
    match source {
        Source::Immediate => {
            let operand = Operand::Immediate(slot.immediate.cast_signed());
            checked(slot, after, Insn::Store(size, base, offset, operand))
        }
        Source::Register => {
            let operand = Operand::Register(second(slot)?);
            checked(slot, after, Insn::Store(size, base, offset, operand))
        }
    }
}

/// A conditional jump.
#[inline(always)]
fn read_jump(
    width: Width,
    comparison: Comparison,
    source: Source,
    slot: &Slot,
    after: &[u8],
) -> Result<Insn, DecodeFault>
    requires form { form_of slot.now.opcode slot.now.source
        ≡ Ok (Form.JumpIf width comparison source) }
    requires opcode { slot.now.opcode ≡ opcode (Form.JumpIf width comparison source) }
    ensures { result ≡ insn_at slot.now (front_slot after.now) }
{
    let register = first(slot)?;
    let distance = slot.offset.cast_signed();
    match source {
        Source::Immediate => {
            let operand = Operand::Immediate(slot.immediate.cast_signed());
            checked(
                slot,
                after,
                Insn::JumpIf {
                    width,
                    comparison,
                    register,
                    operand,
                    distance,
                },
            )
        }
        Source::Register => {
            let operand = Operand::Register(second(slot)?);
            checked(
                slot,
                after,
                Insn::JumpIf {
                    width,
                    comparison,
                    register,
                    operand,
                    distance,
                },
            )
        }
    }
}

/// Arithmetic, or a sign-extending move.
#[inline(always)]
fn read_binary(
    width: Width,
    operation: Operation,
    source: Source,
    slot: &Slot,
    after: &[u8],
) -> Result<Insn, DecodeFault>
    requires form { form_of slot.now.opcode slot.now.source
        ≡ Ok (Form.Binary width operation source) }
    requires opcode { slot.now.opcode ≡ opcode (Form.Binary width operation source) }
    ensures { result ≡ insn_at slot.now (front_slot after.now) }
{
    if slot.offset != 0 {
        return checked(slot, after, build_binary(width, operation, source, slot)?);
    }
    read_without_offset(width, operation, source, slot, after)
}

/// Arithmetic whose slot has no offset.
#[inline(always)]
#[tactic(auto, using(crate::proofs::Codes::base_has_opcode, crate::proofs::Codes::without_offset))]
fn read_without_offset(
    width: Width,
    operation: Operation,
    source: Source,
    slot: &Slot,
    after: &[u8],
) -> Result<Insn, DecodeFault>
    requires form { form_of slot.now.opcode slot.now.source
        ≡ Ok (Form.Binary width operation source) }
    requires opcode { slot.now.opcode ≡ opcode (Form.Binary width operation source) }
    requires offset { slot.now.offset ≡ 0 }
    ensures { result ≡ insn_at slot.now (front_slot after.now) }
{
    let destination = first(slot)?;
    match source {
        Source::Immediate => {
            let operand = Operand::Immediate(slot.immediate.cast_signed());
            let insn = Insn::Binary(width, operation, destination, operand);
            checked(slot, after, insn)
        }
        Source::Register => {
            let operand = Operand::Register(second(slot)?);
            let insn = Insn::Binary(width, operation, destination, operand);
            checked(slot, after, insn)
        }
    }
}

/// Arithmetic that an offset selects, or a sign-extending move.
fn build_binary(
    width: Width,
    operation: Operation,
    source: Source,
    slot: &Slot,
) -> Result<Insn, DecodeFault>
    ensures built { result ≡ insn_of_form (Form.Binary width operation source) slot.now None }
    ensures opcode { IfOk result (λ i. opcode (form i)
        ≡ opcode (Form.Binary width operation source)) }
{
    let destination = first(slot)?;
    let operand = operand(source, slot)?;
    binary(width, operation, destination, operand, slot.offset).ok_or(DecodeFault::BadOffset)
}

/// The instruction that the offset selects; `None` if it isn't listed for the operation.
#[tactic(auto, using(crate::proofs::Codes::base_has_opcode, crate::proofs::Codes::without_offset))]
fn binary(
    width: Width,
    operation: Operation,
    destination: Register,
    operand: Operand,
    offset: u16,
) -> Option<Insn>
    ensures chosen { result ≡ binary_at width operation destination operand offset }
    ensures opcode { IfSome result (λ i. opcode (form i)
        ≡ opcode (Form.Binary width operation (source_of operand))) }
{
    if offset == 0 {
        return Some(Insn::Binary(width, operation, destination, operand));
    }
    let chosen = match (operation, offset) {
        (Operation::Divide, 1) => Operation::SignedDivide,
        (Operation::Modulo, 1) => Operation::SignedModulo,
        (Operation::Move, _) => return extension(width, destination, operand, offset),
        (Operation::Divide | Operation::Modulo, _) => return None,
        _ => operation,
    };
    Some(Insn::Binary(width, chosen, destination, operand))
}

/// The sign-extending move that the offset chooses.
fn extension(width: Width, destination: Register, operand: Operand, offset: u16) -> Option<Insn>
    ensures chosen { result ≡ extension_at width destination operand offset }
    ensures opcode { IfSome result (λ i. opcode (form i)
        ≡ opcode (Form.Binary width Operation.Move (source_of operand))) }
{
    let Operand::Register(source) = operand else {
        return None;
    };
    Some(Insn::SignExtend(extension_of(width, offset)?, destination, source))
}

fn extension_of(width: Width, offset: u16) -> Option<Extension>
    ensures chosen { result ≡ first_with_code extension_offset (extensions width) offset }
    ensures width { IfSome result (λ e. extension_width e ≡ width) }
{
    match (width, offset) {
        (Width::Bits32, 8) => Some(Extension::Low8To32),
        (Width::Bits32, 16) => Some(Extension::Low16To32),
        (Width::Bits64, 8) => Some(Extension::Low8To64),
        (Width::Bits64, 16) => Some(Extension::Low16To64),
        (Width::Bits64, 32) => Some(Extension::Low32To64),
        _ => None,
    }
}

#[inline(always)]
fn build_byte_swap(order: ByteOrder, slot: &Slot) -> Result<Insn, DecodeFault>
    ensures built { result ≡ insn_of_form (Form.ByteSwap order) slot.now None }
    ensures form { IfOk result (λ i. form i ≡ Form.ByteSwap order) }
{
    let register = first(slot)?;
    let width = order_width_of(slot.immediate).ok_or(DecodeFault::BadWidth)?;
    Ok(Insn::ByteSwap(order, width, register))
}

fn order_width_of(bits: u32) -> Option<SwapWidth>
    ensures { result ≡ first_with_code order_bits order_widths bits }
{
    match bits {
        16 => Some(SwapWidth::Bits16),
        32 => Some(SwapWidth::Bits32),
        64 => Some(SwapWidth::Bits64),
        _ => None,
    }
}
