ghost use Rattle.std.specs.Prelude.{◌≡◌, Some};
ghost use Rattle.scx_isa_semantics.specs.Meaning.{operand_value, on_number, binary, copy_of, number_arithmetic, arithmetic, pointer_plus_number, pointer_combined, pointer_moved, map_reference};
ghost use Rattle.scx_isa_semantics.specs.Arithmetic.{negative, sign_extension, byte_swapped};
ghost use Rattle.scx_isa_semantics.specs.Elements.{Maps};
ghost use Rattle.scx_isa_semantics.specs.Registers.{number};
ghost use Rattle.scx_vm_tagged.specs.State.{seen, register_value};

use crate::state::Core;
use scx_isa::{
    ByteOrder, Extension, Operand, Operation, Pointer, Register, STACK_SIZE, SwapWidth, Value,
    Width,
};
use scx_isa_semantics as numbers;
use scx_maps::Maps;

/// An operand as an instruction of that width takes it.
pub fn operand_value(core: &Core, width: Width, operand: Operand) -> Value
    ensures { (maps : Maps) → result ≡ operand_value (seen core.now maps) width operand }
{
    match operand {
        Operand::Immediate(k) => Value::Number(numbers::immediate(width, k)),
        Operand::Register(register) => core.read(register),
    }
}

/// The value that an operation leaves in its destination; `None` where it has no meaning.
pub fn binary(
    core: &Core,
    maps: &Maps,
    width: Width,
    operation: Operation,
    destination: Register,
    operand: Operand,
) -> Option<Value>
    ensures { result
        ≡ binary (seen core.now maps.now) width operation
        (register_value core.now (number destination)) operand }
{
    match operation {
        Operation::Move => copy_of(width, operand_value(core, width, operand)),
        _ => arithmetic(
            core,
            maps,
            width,
            operation,
            core.read(destination),
            operand,
        ),
    }
}

/// The value that a move copies: a number, and at 64 bits a pointer too.
fn copy_of(width: Width, value: Value) -> Option<Value>
    ensures { result ≡ copy_of width value }
{
    match (width, value) {
        (_, Value::Number(n)) => Some(Value::Number(numbers::low(width, n))),
        (Width::Bits64, Value::Pointer(pointer)) => Some(Value::Pointer(pointer)),
        (Width::Bits32, Value::Pointer(_)) | (_, Value::Unset) => None,
    }
}

/// The result of other arithmetic on the destination, which holds `old`.
fn arithmetic(
    core: &Core,
    maps: &Maps,
    width: Width,
    operation: Operation,
    old: Value,
    operand: Operand,
) -> Option<Value>
    ensures { result ≡ arithmetic (seen core.now maps.now) width operation old operand }
{
    match old {
        Value::Number(a) => number_arithmetic(
            width,
            operation,
            a,
            operand_value(core, width, operand),
        ),
        Value::Pointer(pointer) => {
            pointer_combined(core, maps, width, operation, pointer, operand)
        }
        Value::Unset => None,
    }
}

/// The result of arithmetic on a number and an operand.
fn number_arithmetic(width: Width, operation: Operation, a: u64, operand: Value) -> Option<Value>
    ensures { result ≡ number_arithmetic width operation a operand }
{
    match operand {
        Value::Number(b) => Some(Value::Number(numbers::compute(width, operation, a, b))),
        Value::Pointer(_) | Value::Unset => None,
    }
}

/// The result of arithmetic on a pointer and an operand.
fn pointer_combined(
    core: &Core,
    maps: &Maps,
    width: Width,
    operation: Operation,
    pointer: Pointer,
    operand: Operand,
) -> Option<Value>
    ensures { result
        ≡ pointer_combined (seen core.now maps.now) width operation pointer operand }
{
    match (width, operation, pointer, operand) {
        (
            Width::Bits64,
            Operation::Add,
            Pointer::Element { map, index, offset },
            Operand::Register(register),
        ) => pointer_plus_number(maps, map, index, offset, core.read(register)),
        _ => pointer_moved(
            maps,
            pointer,
            numbers::pointer_step(width, operation, operand)?,
        ),
    }
}

/// The pointer into an element to which a number is added.
fn pointer_plus_number(maps: &Maps, map: u8, index: u32, at: u16, by: Value) -> Option<Value>
    ensures { result ≡ pointer_plus_number maps.now map index at by }
{
    match by {
        Value::Number(n) => {
            let to = numbers::within(
                maps.value_size(map, index),
                Some(u64::from(at).checked_add(n)?),
            )?;
            Some(Value::Pointer(Pointer::Element {
                map,
                index,
                offset: to,
            }))
        }
        Value::Pointer(_) | Value::Unset => None,
    }
}

/// The pointer that far on. It stays in the stack or the element, or points right after it.
fn pointer_moved(maps: &Maps, pointer: Pointer, step: i64) -> Option<Value>
    ensures { result ≡ pointer_moved maps.now pointer (Some step) }
{
    match pointer {
        Pointer::Stack(at) => {
            let to = numbers::within(STACK_SIZE, numbers::shifted(at, step))?;
            Some(Value::Pointer(Pointer::Stack(to)))
        }
        Pointer::Element {
            map,
            index,
            offset: at,
        } => {
            let to = numbers::within(maps.value_size(map, index), numbers::shifted(at, step))?;
            Some(Value::Pointer(Pointer::Element {
                map,
                index,
                offset: to,
            }))
        }
        Pointer::Task(_) | Pointer::Map(_) => None,
    }
}

/// The two's complement negative of a number.
pub fn negated(width: Width, value: Value) -> Option<Value>
    ensures { result ≡ on_number (negative width) value }
{
    match value {
        Value::Number(n) => Some(Value::Number(numbers::negated(width, n))),
        Value::Pointer(_) | Value::Unset => None,
    }
}

/// The low bits of a number, extended with their sign.
pub fn extended(extension: Extension, value: Value) -> Option<Value>
    ensures { result ≡ on_number (sign_extension extension) value }
{
    match value {
        Value::Number(n) => Some(Value::Number(numbers::extended(extension, n))),
        Value::Pointer(_) | Value::Unset => None,
    }
}

/// The low bytes of a number in that byte order.
pub fn byte_swapped(order: ByteOrder, width: SwapWidth, value: Value) -> Option<Value>
    ensures { result ≡ on_number (byte_swapped order width) value }
{
    match value {
        Value::Number(n) => Some(Value::Number(numbers::byte_swapped(order, width, n))),
        Value::Pointer(_) | Value::Unset => None,
    }
}

/// A reference to the map of that number, if there is one.
pub fn map_reference(maps: &Maps, number: i32) -> Option<Value>
    ensures { result ≡ map_reference maps.now number }
{
    if number < 0 || number as usize >= maps.count() {
        None
    } else {
        Some(Value::Pointer(Pointer::Map(number as u8)))
    }
}
