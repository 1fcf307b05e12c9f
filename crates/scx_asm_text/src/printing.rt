ghost use Rattle.std.specs.Prelude.{◌≡◌, ◌+◌, ◌<◌, ◌≤◌, ◌++◌, ◌∷◌, [], length, codes, decimal, Some};
ghost use Rattle.std.specs.Fmt.{signed_decimal};
ghost use Rattle.arrayvec.specs.ArrayString.{array_string_len};
ghost use Rattle.scx_isa_semantics.specs.Arithmetic.{wide_immediate};
ghost use Rattle.scx_isa_semantics.specs.declared.instructions.Insn.TheVariants.{Binary, SignExtend, ByteSwap, JumpIf};
ghost use Rattle.scx_asm_text.specs.Names.{width_text, register_text, access_text};
ghost use Rattle.scx_asm_text.specs.Canonical.{operand_text, offset_text, distance_text, memory_operand_text, insn_text};

use crate::symbols::Symbol;
use crate::words::{access_text, extension_access, order_text, stored_access};
use arrayvec::ArrayString;
use itoa::Buffer;
use scx_isa_semantics::{
    Access, ByteOrder, Comparison, Extension, Insn, Operand, Operation, Register, SwapWidth, Width,
};
use std::fmt;

/// The size of the buffer for a line in bytes: an instruction and a line feed.
const LINE_CAPACITY: usize = 80;

/// The text of one instruction, with room for a line feed. It takes no memory from the allocator.
pub type Line = ArrayString<LINE_CAPACITY>;

/// An instruction, to be printed as its canonical text.
#[derive(Clone, Copy)]
pub struct Canonical(pub Insn);

impl Canonical {
    /// Its text, in one piece.
    #[inline(always)]
    pub fn line(self) -> Line
        ensures bytes { result.bytes ≡ insn_text self.0 }
        ensures short { array_string_len result ≤ 78 }
    {
        let mut line = Line::new();
        push_insn(&mut line, self.0);
        line
    }
}

impl fmt::Display for Canonical {
    ghost output = { λ x. Some (insn_text x.0) };

    fn fmt<W: fmt::Write>(&self, f: &mut fmt::Formatter<W>) -> fmt::Result {
        f.write_str(self.line().as_str())
    }
}

/// The number whose halves these are.
fn constant_of(low: i32, high: i32) -> u64
    ensures { result ≡ wide_immediate low high }
{
    u64::from(low.cast_unsigned()) + (u64::from(high.cast_unsigned()) << 32)
}

/// Adds a digit.
#[inline(always)]
fn push_digit(line: &mut Line, digit: u64)
    requires room { array_string_len line.old ≤ 78 }
    requires digit { digit < 10 }
    ensures bytes { line.new.bytes ≡ line.old.bytes ++ (48 + digit) ∷ [] }
    ensures short { array_string_len line.new ≡ array_string_len line.old + 1 }
{
    line.push(char::from(b'0' + digit as u8));
}

/// Adds a number. Most have one digit or two.
#[inline(always)]
#[tactic(auto, using(std::proofs::lemmas::Fmt::decimal_digit))]
fn push_number(line: &mut Line, number: u64)
    requires { array_string_len line.old ≤ 59 }
    ensures bytes { line.new.bytes ≡ line.old.bytes ++ decimal number }
    ensures short { array_string_len line.new ≤ array_string_len line.old + 20 }
{
    if number < 10 {
        push_digit(line, number);
    } else if number < 100 {
        push_digit(line, number / 10);
        push_digit(line, number % 10);
    } else {
        push_digits(line, number);
    }
}

#[inline(never)]
fn push_digits(line: &mut Line, number: u64)
    requires { array_string_len line.old ≤ 59 }
    ensures bytes { line.new.bytes ≡ line.old.bytes ++ decimal number }
    ensures short { array_string_len line.new ≤ array_string_len line.old + 20 }
{
    let mut digits = Buffer::new();
    line.push_str(digits.format(number));
}

/// Adds a number, with its sign if it is negative.
#[inline(always)]
fn push_signed(line: &mut Line, number: i32)
    requires { array_string_len line.old ≤ 58 }
    ensures bytes { line.new.bytes ≡ line.old.bytes ++ signed_decimal number }
    ensures short { array_string_len line.new ≤ array_string_len line.old + 21 }
{
    if number < 0 {
        line.push_str("-");
    }
    push_number(line, u64::from(number.unsigned_abs()));
}

fn width_text(width: Width) -> &'static str
    ensures text { result.now ≡ width_text width }
    ensures short { length result.now ≡ 1 }
{
    match width {
        Width::Bits64 => "r",
        Width::Bits32 => "w",
    }
}

#[inline(always)]
fn push_register(line: &mut Line, width: Width, register: Register)
    requires { array_string_len line.old ≤ 58 }
    ensures bytes { line.new.bytes ≡ line.old.bytes ++ register_text width register }
    ensures short { array_string_len line.new ≤ array_string_len line.old + 21 }
{
    line.push_str(width_text(width));
    push_number(line, u64::from(register.number()));
}

#[inline(always)]
fn push_operand(line: &mut Line, width: Width, operand: Operand)
    requires { array_string_len line.old ≤ 58 }
    ensures bytes { line.new.bytes ≡ line.old.bytes ++ operand_text width operand }
    ensures short { array_string_len line.new ≤ array_string_len line.old + 21 }
{
    match operand {
        Operand::Immediate(number) => push_signed(line, number),
        Operand::Register(register) => push_register(line, width, register),
    }
}

/// Adds an offset; its sign is a token of its own.
#[inline(always)]
fn push_offset(line: &mut Line, offset: i16)
    requires { array_string_len line.old ≤ 57 }
    ensures bytes { line.new.bytes ≡ line.old.bytes ++ offset_text offset }
    ensures short { array_string_len line.new ≤ array_string_len line.old + 22 }
{
    line.push_str(if offset < 0 { "- " } else { "+ " });
    push_number(line, u64::from(offset.unsigned_abs()));
}

/// Adds a distance, whose sign touches it.
#[inline(always)]
fn push_distance(line: &mut Line, distance: i32)
    requires { array_string_len line.old ≤ 58 }
    ensures bytes { line.new.bytes ≡ line.old.bytes ++ distance_text distance }
    ensures short { array_string_len line.new ≤ array_string_len line.old + 21 }
{
    line.push_str(if distance < 0 { "-" } else { "+" });
    push_number(line, u64::from(distance.unsigned_abs()));
}

/// Adds the memory that an access takes: its name, the register that points to it, the offset.
#[inline(always)]
fn push_memory(line: &mut Line, access: Access, base: Register, offset: i16)
    requires { array_string_len line.old ≤ 24 }
    ensures bytes { line.new.bytes ≡ line.old.bytes
        ++ memory_operand_text (access_text access) base offset }
    ensures short { array_string_len line.new ≤ array_string_len line.old + 54 }
{
    line.push_str("*(");
    line.push_str(access_text(access));
    line.push_str(" *)(");
    push_register(line, Width::Bits64, base);
    line.push_str(" ");
    push_offset(line, offset);
    line.push_str(")");
}

/// Adds a register as the left side of an assignment.
#[inline(always)]
fn push_assigned(line: &mut Line, width: Width, register: Register, sign: &str)
    requires sign { length sign.now ≤ 7 }
    requires room { array_string_len line.old ≤ 50 }
    ensures bytes { line.new.bytes ≡ line.old.bytes ++ (register_text width register ++ sign.now) }
    ensures short { array_string_len line.new ≤ array_string_len line.old + 21 + length sign.now }
{
    push_register(line, width, register);
    line.push_str(sign);
}

#[inline(always)]
fn push_binary(
    line: &mut Line,
    width: Width,
    operation: Operation,
    register: Register,
    operand: Operand,
)
    requires { array_string_len line.old ≡ 0 }
    ensures bytes { line.new.bytes ≡ line.old.bytes
        ++ insn_text (Binary width operation register operand) }
    ensures short { array_string_len line.new ≤ 78 }
{
    push_assigned(line, width, register, " ");
    line.push_str(Symbol::Assign(operation).text());
    line.push_str(" ");
    push_operand(line, width, operand);
}

#[inline(always)]
fn push_sign_extension(line: &mut Line, extension: Extension, register: Register, source: Register)
    requires { array_string_len line.old ≡ 0 }
    ensures bytes { line.new.bytes ≡ line.old.bytes
        ++ insn_text (SignExtend extension register source) }
    ensures short { array_string_len line.new ≤ 78 }
{
    push_assigned(line, extension.width(), register, " = (");
    line.push_str(access_text(extension_access(extension)));
    line.push_str(")");
    push_register(line, extension.width(), source);
}

#[inline(always)]
fn push_byte_swap(line: &mut Line, order: ByteOrder, width: SwapWidth, register: Register)
    requires { array_string_len line.old ≡ 0 }
    ensures bytes { line.new.bytes ≡ line.old.bytes ++ insn_text (ByteSwap order width register) }
    ensures short { array_string_len line.new ≤ 78 }
{
    push_assigned(line, Width::Bits64, register, " = ");
    line.push_str(order_text((order, width)));
    line.push_str(" ");
    push_register(line, Width::Bits64, register);
}

#[inline(always)]
fn push_jump(
    line: &mut Line,
    width: Width,
    comparison: Comparison,
    register: Register,
    operand: Operand,
    distance: i16,
)
    requires { array_string_len line.old ≡ 0 }
    ensures bytes { line.new.bytes ≡ line.old.bytes
        ++ insn_text (JumpIf width comparison register operand distance) }
    ensures short { array_string_len line.new ≤ 78 }
{
    line.push_str("if ");
    push_assigned(line, width, register, " ");
    line.push_str(Symbol::Compare(comparison).text());
    line.push_str(" ");
    push_operand(line, width, operand);
    line.push_str(" goto ");
    push_distance(line, i32::from(distance));
}

/// Adds the canonical text to an empty line.
#[inline(always)]
fn push_insn(line: &mut Line, insn: Insn)
    requires { array_string_len line.old ≡ 0 }
    ensures bytes { line.new.bytes ≡ line.old.bytes ++ insn_text insn }
    ensures short { array_string_len line.new ≤ 78 }
{
    match insn {
        Insn::Binary(width, operation, register, operand) => push_binary(
            line, width, operation, register, operand,
        ),
        Insn::Negate(width, register) => {
            push_assigned(line, width, register, " = -");
            push_register(line, width, register);
        }
        Insn::SignExtend(extension, register, source) => push_sign_extension(
            line, extension, register, source,
        ),
        Insn::ByteSwap(order, width, register) => push_byte_swap(line, order, width, register),
        Insn::LoadImmediate(register, low, high) => {
            push_assigned(line, Width::Bits64, register, " = ");
            push_number(line, constant_of(low, high));
            line.push_str(" ll");
        }
        Insn::LoadMapReference(register, map) => {
            push_assigned(line, Width::Bits64, register, " = map ");
            push_signed(line, map);
        }
        Insn::Load(access, register, base, offset) => {
            push_assigned(line, Width::Bits64, register, " = ");
            push_memory(line, access, base, offset);
        }
        Insn::Store(size, base, offset, operand) => {
            push_memory(line, stored_access(size), base, offset);
            line.push_str(" = ");
            push_operand(line, Width::Bits64, operand);
        }
        Insn::JumpIf {
            width,
            comparison,
            register,
            operand,
            distance,
        } => push_jump(line, width, comparison, register, operand, distance),
        Insn::Goto(distance) => {
            line.push_str("goto ");
            push_distance(line, i32::from(distance));
        }
        Insn::GotoLong(distance) => {
            line.push_str("gotol ");
            push_distance(line, distance);
        }
        Insn::Call(helper) => {
            line.push_str("call ");
            push_signed(line, helper);
        }
        Insn::Exit => line.push_str("exit"),
    }
}
