ghost use Rattle.std.specs.Prelude.{◌≡◌, ◌%◌};
ghost use Rattle.scx_isa_semantics.specs.Tables.{first_with_code};
ghost use Rattle.scx_isa_encoding.specs.Opcodes.{form_of, wide_form, call_form, plain_form, class_form, lone_forms, binary_form, jump_form, load_form, store_form, opcode_fault, source_at, base_operations, comparisons, accesses, sizes};
ghost use Rattle.scx_isa_encoding.specs.Opcodes.{opcode, arithmetic_class, jump_class, store_class, source_bit, operation_code, comparison_code, order_code, size_code, access_code};

use crate::faults::{DecodeFault, Exclusion};
use crate::forms::{Form, Source};
use scx_isa_semantics::{Access, ByteOrder, Comparison, Operation, Size, Width};

/// The form of an opcode, or why it has none. The source field is a part of the opcode of calls and
/// of 64-bit immediates.
#[inline(always)]
pub fn form_at(opcode: u8, source: u8) -> Result<Form, DecodeFault>
    ensures { result ≡ form_of opcode source }
{
    match in_class(opcode) {
        Some(form) => Ok(form),
        None => other(opcode, source),
    }
}

/// The form of any opcode, or why it has none.
fn other(opcode: u8, source: u8) -> Result<Form, DecodeFault>
    ensures { result ≡ form_of opcode source }
{
    match opcode {
        0x18 => wide(source),
        0x85 => call(source),
        _ => plain(opcode),
    }
}

/// A load of a 64-bit immediate.
fn wide(source: u8) -> Result<Form, DecodeFault>
    ensures { result ≡ wide_form source }
{
    match source {
        0 => Ok(Form::LoadImmediate),
        1 => Err(DecodeFault::NotInProfile(Exclusion::MapByFd)),
        2 => Err(DecodeFault::NotInProfile(Exclusion::MapValueByFd)),
        3 => Err(DecodeFault::NotInProfile(Exclusion::VariableAddress)),
        4 => Err(DecodeFault::NotInProfile(Exclusion::CodeAddress)),
        5 => Ok(Form::LoadMapReference),
        6 => Err(DecodeFault::NotInProfile(Exclusion::MapValueByIndex)),
        _ => Err(DecodeFault::UnknownOpcode),
    }
}

fn call(source: u8) -> Result<Form, DecodeFault>
    ensures { result ≡ call_form source }
{
    match source {
        0 => Ok(Form::Call),
        1 => Err(DecodeFault::NotInProfile(Exclusion::LocalCall)),
        2 => Err(DecodeFault::NotInProfile(Exclusion::BtfCall)),
        _ => Err(DecodeFault::UnknownOpcode),
    }
}

/// Any other opcode.
fn plain(opcode: u8) -> Result<Form, DecodeFault>
    ensures { result ≡ plain_form opcode }
{
    if let Some(form) = lone(opcode) {
        return Ok(form);
    }
    match in_class(opcode) {
        Some(form) => Ok(form),
        None => Err(fault_of(opcode)),
    }
}

/// The forms that are alone with their operation.
fn lone(code: u8) -> Option<Form>
    ensures { result ≡ first_with_code opcode lone_forms code }
{
    match code {
        0x84 => Some(Form::Negate(Width::Bits32)),
        0x87 => Some(Form::Negate(Width::Bits64)),
        0xd4 => Some(Form::ByteSwap(ByteOrder::Little)),
        0xdc => Some(Form::ByteSwap(ByteOrder::Big)),
        0xd7 => Some(Form::ByteSwap(ByteOrder::Swapped)),
        0x05 => Some(Form::Goto),
        0x06 => Some(Form::GotoLong),
        0x95 => Some(Form::Exit),
        _ => None,
    }
}

/// The forms that share their operations, by their class.
#[inline(always)]
fn in_class(opcode: u8) -> Option<Form>
    ensures { result ≡ class_form (opcode % 8) opcode }
{
    match opcode % 8 {
        1 => load(opcode - 1),
        2 => store(Source::Immediate, opcode - 2),
        3 => store(Source::Register, opcode - 3),
        4 => binary(Width::Bits32, opcode),
        5 => jump(Width::Bits64, opcode),
        6 => jump(Width::Bits32, opcode),
        7 => binary(Width::Bits64, opcode),
        _ => None,
    }
}

#[inline(always)]
fn load(code: u8) -> Option<Form>
    ensures { result ≡ load_form code }
{
    Some(Form::Load(access_of(code)?))
}

#[inline(always)]
fn store(source: Source, code: u8) -> Option<Form>
    ensures { result ≡ store_form source code }
{
    Some(Form::Store(size_of(code)?, source))
}

#[inline(always)]
fn binary(width: Width, opcode: u8) -> Option<Form>
    ensures { result ≡ binary_form width opcode }
{
    let operation = operation_of(opcode / 16)?;
    Some(Form::Binary(width, operation, source_in(opcode)))
}

#[inline(always)]
fn jump(width: Width, opcode: u8) -> Option<Form>
    ensures { result ≡ jump_form width opcode }
{
    let comparison = comparison_of(opcode / 16)?;
    Some(Form::JumpIf(width, comparison, source_in(opcode)))
}

#[inline(always)]
fn source_in(opcode: u8) -> Source
    ensures { result ≡ source_at opcode }
{
    if opcode / 8 % 2 == 0 {
        Source::Immediate
    } else {
        Source::Register
    }
}

fn operation_of(code: u8) -> Option<Operation>
    ensures { result ≡ first_with_code operation_code base_operations code }
{
    match code {
        0x0 => Some(Operation::Add),
        0x1 => Some(Operation::Subtract),
        0x2 => Some(Operation::Multiply),
        0x3 => Some(Operation::Divide),
        0x4 => Some(Operation::Or),
        0x5 => Some(Operation::And),
        0x6 => Some(Operation::ShiftLeft),
        0x7 => Some(Operation::ShiftRight),
        0x9 => Some(Operation::Modulo),
        0xa => Some(Operation::Xor),
        0xb => Some(Operation::Move),
        0xc => Some(Operation::ShiftRightSigned),
        _ => None,
    }
}

fn comparison_of(code: u8) -> Option<Comparison>
    ensures { result ≡ first_with_code comparison_code comparisons code }
{
    match code {
        0x1 => Some(Comparison::Equal),
        0x2 => Some(Comparison::Greater),
        0x3 => Some(Comparison::GreaterOrEqual),
        0x4 => Some(Comparison::BitTest),
        0x5 => Some(Comparison::NotEqual),
        0x6 => Some(Comparison::SignedGreater),
        0x7 => Some(Comparison::SignedGreaterOrEqual),
        0xa => Some(Comparison::Less),
        0xb => Some(Comparison::LessOrEqual),
        0xc => Some(Comparison::SignedLess),
        0xd => Some(Comparison::SignedLessOrEqual),
        _ => None,
    }
}

/// The access of an opcode of class LDX, by its mode and size.
fn access_of(code: u8) -> Option<Access>
    ensures { result ≡ first_with_code access_code accesses code }
{
    match code {
        0x60 => Some(Access::Word),
        0x68 => Some(Access::HalfWord),
        0x70 => Some(Access::Byte),
        0x78 => Some(Access::DoubleWord),
        0x80 => Some(Access::SignedWord),
        0x88 => Some(Access::SignedHalfWord),
        0x90 => Some(Access::SignedByte),
        _ => None,
    }
}

/// The size that an opcode of class ST or STX writes, by its mode and size.
fn size_of(code: u8) -> Option<Size>
    ensures { result ≡ first_with_code size_code sizes code }
{
    match code {
        0x60 => Some(Size::Word),
        0x68 => Some(Size::HalfWord),
        0x70 => Some(Size::Byte),
        0x78 => Some(Size::DoubleWord),
        _ => None,
    }
}

/// Why an opcode has no form.
fn fault_of(opcode: u8) -> DecodeFault
    ensures { result ≡ opcode_fault opcode }
{
    match opcode {
        0xc3 => DecodeFault::NotInProfile(Exclusion::Atomic32),
        0xdb => DecodeFault::NotInProfile(Exclusion::Atomic64),
        0x20 | 0x28 | 0x30 | 0x40 | 0x48 | 0x50 => DecodeFault::NotInProfile(Exclusion::Packet),
        _ => DecodeFault::UnknownOpcode,
    }
}

/// The opcode of a form.
#[inline(always)]
pub fn opcode_of(form: Form) -> u8
    ensures { result ≡ opcode form }
{
    match form {
        Form::Binary(width, operation, source) => {
            arithmetic_class_of(width) + source_bit_of(source) + 16 * operation_code_of(operation)
        }
        Form::Negate(Width::Bits32) => 0x84,
        Form::Negate(Width::Bits64) => 0x87,
        Form::ByteSwap(order) => order_code_of(order),
        Form::LoadImmediate | Form::LoadMapReference => 0x18,
        Form::Load(access) => 1 + access_code_of(access),
        Form::Store(size, source) => store_class_of(source) + size_code_of(size),
        Form::JumpIf(width, comparison, source) => {
            jump_class_of(width) + source_bit_of(source) + 16 * comparison_code_of(comparison)
        }
        Form::Goto => 0x05,
        Form::GotoLong => 0x06,
        Form::Call => 0x85,
        Form::Exit => 0x95,
    }
}

fn arithmetic_class_of(width: Width) -> u8
    ensures { result ≡ arithmetic_class width }
{
    match width {
        Width::Bits32 => 4,
        Width::Bits64 => 7,
    }
}

fn jump_class_of(width: Width) -> u8
    ensures { result ≡ jump_class width }
{
    match width {
        Width::Bits32 => 6,
        Width::Bits64 => 5,
    }
}

fn store_class_of(source: Source) -> u8
    ensures { result ≡ store_class source }
{
    match source {
        Source::Immediate => 2,
        Source::Register => 3,
    }
}

fn source_bit_of(source: Source) -> u8
    ensures { result ≡ source_bit source }
{
    match source {
        Source::Immediate => 0,
        Source::Register => 8,
    }
}

#[inline(always)]
fn operation_code_of(operation: Operation) -> u8
    ensures { result ≡ operation_code operation }
{
    match operation {
        Operation::Add => 0x0,
        Operation::Subtract => 0x1,
        Operation::Multiply => 0x2,
        Operation::Divide | Operation::SignedDivide => 0x3,
        Operation::Or => 0x4,
        Operation::And => 0x5,
        Operation::ShiftLeft => 0x6,
        Operation::ShiftRight => 0x7,
        Operation::Modulo | Operation::SignedModulo => 0x9,
        Operation::Xor => 0xa,
        Operation::Move => 0xb,
        Operation::ShiftRightSigned => 0xc,
    }
}

#[inline(always)]
fn comparison_code_of(comparison: Comparison) -> u8
    ensures { result ≡ comparison_code comparison }
{
    match comparison {
        Comparison::Equal => 0x1,
        Comparison::Greater => 0x2,
        Comparison::GreaterOrEqual => 0x3,
        Comparison::BitTest => 0x4,
        Comparison::NotEqual => 0x5,
        Comparison::SignedGreater => 0x6,
        Comparison::SignedGreaterOrEqual => 0x7,
        Comparison::Less => 0xa,
        Comparison::LessOrEqual => 0xb,
        Comparison::SignedLess => 0xc,
        Comparison::SignedLessOrEqual => 0xd,
    }
}

fn order_code_of(order: ByteOrder) -> u8
    ensures { result ≡ order_code order }
{
    match order {
        ByteOrder::Little => 0xd4,
        ByteOrder::Big => 0xdc,
        ByteOrder::Swapped => 0xd7,
    }
}

fn size_code_of(size: Size) -> u8
    ensures { result ≡ size_code size }
{
    match size {
        Size::Word => 0x60,
        Size::HalfWord => 0x68,
        Size::Byte => 0x70,
        Size::DoubleWord => 0x78,
    }
}

fn access_code_of(access: Access) -> u8
    ensures { result ≡ access_code access }
{
    match access {
        Access::Word => 0x60,
        Access::HalfWord => 0x68,
        Access::Byte => 0x70,
        Access::DoubleWord => 0x78,
        Access::SignedWord => 0x80,
        Access::SignedHalfWord => 0x88,
        Access::SignedByte => 0x90,
    }
}
