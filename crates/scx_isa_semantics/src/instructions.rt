ghost use Rattle.std.specs.Prelude.{◌≡◌};

use crate::operations::{
    Access, ByteOrder, Comparison, Extension, Operation, Size, SwapWidth, Width,
};
use crate::registers::Register;

/// The second operand: an immediate (source bit K) or a register (source bit X).
#[derive(Clone, Copy)]
pub enum Operand {
    Immediate(i32),
    Register(Register),
}

/// An instruction of the conformance groups base32, base64, divmul32 and divmul64 (RFC 9669).
///
/// The first register of a case is its destination, or what a jump compares. A jump's distance
/// counts slots from the next instruction, and an address is a register plus an offset in bytes.
#[derive(Clone, Copy)]
pub enum Insn {
    Binary(Width, Operation, Register, Operand),
    /// The two's complement negative.
    Negate(Width, Register),
    /// Copies the low bits of the second register, extended with their sign.
    SignExtend(Extension, Register, Register),
    /// Puts the low bytes of the register in that order (RFC 9669, section 4.2).
    ByteSwap(ByteOrder, SwapWidth, Register),
    /// Loads a 64-bit immediate, given by its low and its high half. It takes two slots.
    LoadImmediate(Register, i32, i32),
    /// Loads a reference to the map of that number. It takes two slots.
    LoadMapReference(Register, i32),
    /// Loads from the address that the second register and the offset give.
    Load(Access, Register, Register, i16),
    /// Stores the operand to the address that the register and the offset give.
    Store(Size, Register, i16, Operand),
    /// Jumps where the comparison of the register with the operand holds.
    JumpIf {
        width: Width,
        comparison: Comparison,
        register: Register,
        operand: Operand,
        distance: i16,
    },
    Goto(i16),
    /// The jump whose distance has 32 bits.
    GotoLong(i32),
    /// Calls the helper of that number.
    Call(i32),
    Exit,
}

impl Insn {
    ghost use Rattle.scx_isa_semantics.specs.Code.{size};

    /// The number of slots that it takes.
    pub fn size(self) -> usize
        ensures { result ≡ size self }
    {
        match self {
            Insn::LoadImmediate(..) | Insn::LoadMapReference(..) => 2,
            _ => 1,
        }
    }
}
