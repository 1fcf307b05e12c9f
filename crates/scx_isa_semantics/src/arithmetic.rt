ghost use Rattle.std.specs.Prelude.{◌≡◌, ◌%◌, ◌^◌};
ghost use Rattle.scx_isa_semantics.specs.Memory.{within};
ghost use Rattle.scx_isa_semantics.specs.Meaning.{pointer_step};
ghost use Rattle.scx_isa_semantics.specs.Arithmetic.{compute, operate, low, negative, sign_extension, low_bytes, reversed_bytes, byte_swapped, immediate, wide_immediate, compares, holds, at_distance};
ghost use Rattle.scx_isa_semantics.specs.declared.operations.Width.TheVariants.{Bits32, Bits64};

use crate::{ByteOrder, Comparison, Extension, Operand, Operation, SwapWidth, Width};

/// The result of an operation of this width on the destination `a` and the operand `b`
/// (RFC 9669, section 4.1). At 32 bits the upper half of the result is 0.
pub fn compute(width: Width, operation: Operation, a: u64, b: u64) -> u64
    ensures { result ≡ compute width operation a b }
{
    match width {
        Width::Bits32 => u64::from(operate32(operation, low_half(a), low_half(b))),
        Width::Bits64 => operate64(operation, a, b),
    }
}

/// A quotient by zero is 0, and a remainder by zero the dividend. The least number divided by -1 is
/// the least number again. The count of a shift is taken modulo 64.
fn operate64(operation: Operation, a: u64, b: u64) -> u64
    ensures { result ≡ operate Bits64 operation a b }
{
    match operation {
        Operation::Add => a.wrapping_add(b),
        Operation::Subtract => a.wrapping_sub(b),
        Operation::Multiply => a.wrapping_mul(b),
        Operation::Divide => a.checked_div(b).unwrap_or(0),
        Operation::SignedDivide if b == 0 => 0,
        Operation::SignedDivide => a
            .cast_signed()
            .wrapping_div(b.cast_signed())
            .cast_unsigned(),
        Operation::Or => a | b,
        Operation::And => a & b,
        Operation::Xor => a ^ b,
        Operation::ShiftLeft => a << (b % 64),
        Operation::ShiftRight => a >> (b % 64),
        Operation::ShiftRightSigned => (a.cast_signed() >> (b % 64)).cast_unsigned(),
        Operation::Modulo => a.checked_rem(b).unwrap_or(a),
        Operation::SignedModulo if b == 0 => a,
        Operation::SignedModulo => a
            .cast_signed()
            .wrapping_rem(b.cast_signed())
            .cast_unsigned(),
        Operation::Move => b,
    }
}

/// The result of an operation on 32-bit numbers; a shift takes its count modulo 32.
fn operate32(operation: Operation, a: u32, b: u32) -> u32
    ensures { result ≡ operate Bits32 operation a b }
{
    match operation {
        Operation::Add => a.wrapping_add(b),
        Operation::Subtract => a.wrapping_sub(b),
        Operation::Multiply => a.wrapping_mul(b),
        Operation::Divide => a.checked_div(b).unwrap_or(0),
        Operation::SignedDivide if b == 0 => 0,
        Operation::SignedDivide => a
            .cast_signed()
            .wrapping_div(b.cast_signed())
            .cast_unsigned(),
        Operation::Or => a | b,
        Operation::And => a & b,
        Operation::Xor => a ^ b,
        Operation::ShiftLeft => a << (b % 32),
        Operation::ShiftRight => a >> (b % 32),
        Operation::ShiftRightSigned => (a.cast_signed() >> (b % 32)).cast_unsigned(),
        Operation::Modulo => a.checked_rem(b).unwrap_or(a),
        Operation::SignedModulo if b == 0 => a,
        Operation::SignedModulo => a
            .cast_signed()
            .wrapping_rem(b.cast_signed())
            .cast_unsigned(),
        Operation::Move => b,
    }
}

/// The two's complement negative (RFC 9669, section 4.1).
pub fn negated(width: Width, n: u64) -> u64
    ensures { result ≡ negative width n }
{
    match width {
        Width::Bits32 => u64::from(low_half(n).wrapping_neg()),
        Width::Bits64 => n.wrapping_neg(),
    }
}

/// The low bits, extended with their sign (RFC 9669, section 4.1).
pub fn extended(extension: Extension, n: u64) -> u64
    ensures { result ≡ sign_extension extension n }
{
    match extension {
        Extension::Low8To32 => u64::from(i32::from(low_byte(n).cast_signed()).cast_unsigned()),
        Extension::Low16To32 => u64::from(i32::from(low_two_bytes(
            n,
        ).cast_signed()).cast_unsigned()),
        Extension::Low8To64 => i64::from(low_byte(n).cast_signed()).cast_unsigned(),
        Extension::Low16To64 => i64::from(low_two_bytes(n).cast_signed()).cast_unsigned(),
        Extension::Low32To64 => i64::from(low_half(n).cast_signed()).cast_unsigned(),
    }
}

/// The low bytes in that byte order (RFC 9669, section 4.2). The host is little-endian.
pub fn byte_swapped(order: ByteOrder, width: SwapWidth, n: u64) -> u64
    ensures { result ≡ byte_swapped order width n }
{
    match order {
        ByteOrder::Little => low_bytes(width, n),
        ByteOrder::Big | ByteOrder::Swapped => reversed_bytes(width, n),
    }
}

/// The low bits that a byte swap keeps.
fn low_bytes(width: SwapWidth, n: u64) -> u64
    ensures { result ≡ low_bytes width n }
{
    match width {
        SwapWidth::Bits16 => u64::from(low_two_bytes(n)),
        SwapWidth::Bits32 => u64::from(low_half(n)),
        SwapWidth::Bits64 => n,
    }
}

/// The low bytes, with the first one last.
fn reversed_bytes(width: SwapWidth, n: u64) -> u64
    ensures { result ≡ reversed_bytes width (low_bytes width n) }
{
    match width {
        SwapWidth::Bits16 => u64::from(low_two_bytes(n).swap_bytes()),
        SwapWidth::Bits32 => u64::from(low_half(n).swap_bytes()),
        SwapWidth::Bits64 => n.swap_bytes(),
    }
}

/// True if the comparison of this width holds of `a` and `b` (RFC 9669, section 4.3).
pub fn compares(width: Width, comparison: Comparison, a: u64, b: u64) -> bool
    ensures { result ≡ compares width comparison a b }
{
    match width {
        Width::Bits32 => holds32(comparison, low_half(a), low_half(b)),
        Width::Bits64 => holds64(comparison, a, b),
    }
}

/// True if the comparison holds of all 64 bits.
fn holds64(comparison: Comparison, a: u64, b: u64) -> bool
    ensures { result ≡ holds Bits64 comparison a b }
{
    match comparison {
        Comparison::Equal => a == b,
        Comparison::Greater => a > b,
        Comparison::GreaterOrEqual => a >= b,
        Comparison::BitTest => a & b != 0,
        Comparison::NotEqual => a != b,
        Comparison::SignedGreater => a.cast_signed() > b.cast_signed(),
        Comparison::SignedGreaterOrEqual => a.cast_signed() >= b.cast_signed(),
        Comparison::Less => a < b,
        Comparison::LessOrEqual => a <= b,
        Comparison::SignedLess => a.cast_signed() < b.cast_signed(),
        Comparison::SignedLessOrEqual => a.cast_signed() <= b.cast_signed(),
    }
}

/// True if the comparison holds of two 32-bit numbers.
fn holds32(comparison: Comparison, a: u32, b: u32) -> bool
    ensures { result ≡ holds Bits32 comparison a b }
{
    match comparison {
        Comparison::Equal => a == b,
        Comparison::Greater => a > b,
        Comparison::GreaterOrEqual => a >= b,
        Comparison::BitTest => a & b != 0,
        Comparison::NotEqual => a != b,
        Comparison::SignedGreater => a.cast_signed() > b.cast_signed(),
        Comparison::SignedGreaterOrEqual => a.cast_signed() >= b.cast_signed(),
        Comparison::Less => a < b,
        Comparison::LessOrEqual => a <= b,
        Comparison::SignedLess => a.cast_signed() < b.cast_signed(),
        Comparison::SignedLessOrEqual => a.cast_signed() <= b.cast_signed(),
    }
}

/// The part of an operand that arithmetic of the width takes, from 0 up.
pub fn low(width: Width, n: u64) -> u64
    ensures { result ≡ low width n }
{
    match width {
        Width::Bits32 => u64::from(low_half(n)),
        Width::Bits64 => n,
    }
}

/// The low 32 bits.
pub fn low_half(n: u64) -> u32
    ensures { result ≡ n % 2 ^ 32 }
{
    (n & 0xffff_ffff) as u32
}

/// The low 16 bits.
pub fn low_two_bytes(n: u64) -> u16
    ensures { result ≡ n % 2 ^ 16 }
{
    (n & 0xffff) as u16
}

/// The low 8 bits.
pub fn low_byte(n: u64) -> u8
    ensures { result ≡ n % 2 ^ 8 }
{
    (n & 0xff) as u8
}

/// An immediate as an operand of that width, extended with its sign.
pub fn immediate(width: Width, k: i32) -> u64
    ensures { result ≡ immediate width k }
{
    match width {
        Width::Bits32 => u64::from(k.cast_unsigned()),
        Width::Bits64 => i64::from(k).cast_unsigned(),
    }
}

/// The number whose halves a wide instruction holds (RFC 9669, section 5.4).
pub fn wide_immediate(low: i32, high: i32) -> u64
    ensures { result ≡ wide_immediate low high }
{
    (u64::from(high.cast_unsigned()) << 32) + u64::from(low.cast_unsigned())
}

/// The number of bytes by which an operation moves a pointer.
pub fn pointer_step(width: Width, operation: Operation, operand: Operand) -> Option<i64>
    ensures { result ≡ pointer_step width operation operand }
{
    match (width, operation, operand) {
        (Width::Bits64, Operation::Add, Operand::Immediate(k)) => Some(i64::from(k)),
        (Width::Bits64, Operation::Subtract, Operand::Immediate(k)) => Some(-i64::from(k)),
        _ => None,
    }
}

/// The offset that far on, or back; `None` below 0.
pub fn shifted(at: u16, distance: i64) -> Option<u64>
    ensures { result ≡ at_distance at distance }
{
    let length = distance.unsigned_abs();
    if distance < 0 {
        u64::from(at).checked_sub(length)
    } else {
        Some(u64::from(at) + length)
    }
}

/// The offset, if it lies in memory of this size or right after its last byte.
pub fn within(bytes: u16, at: Option<u64>) -> Option<u16>
    ensures { result ≡ within bytes at }
{
    match at {
        Some(at) if at <= u64::from(bytes) => Some(at as u16),
        _ => None,
    }
}
