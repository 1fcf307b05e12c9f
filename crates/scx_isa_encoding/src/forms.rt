ghost use Rattle.std.specs.Prelude.{◌≡◌};
ghost use Rattle.scx_isa_encoding.specs.Opcodes.{source_of};

use scx_isa_semantics::{Access, ByteOrder, Comparison, Operand, Operation, Size, Width};

/// The kind of an instruction's operand, an immediate or a register: source bit K or X.
#[derive(Clone, Copy)]
pub enum Source {
    Immediate,
    Register,
}

/// An instruction without its operands: what the opcode says of it. The offset tells signed from
/// unsigned division, and a sign-extending move from a move.
#[derive(Clone, Copy)]
pub enum Form {
    Binary(Width, Operation, Source),
    Negate(Width),
    ByteSwap(ByteOrder),
    LoadImmediate,
    LoadMapReference,
    Load(Access),
    Store(Size, Source),
    JumpIf(Width, Comparison, Source),
    Goto,
    GotoLong,
    Call,
    Exit,
}

#[inline(always)]
pub(crate) fn kind_of(operand: Operand) -> Source
    ensures { result ≡ source_of operand }
{
    match operand {
        Operand::Immediate(_) => Source::Immediate,
        Operand::Register(_) => Source::Register,
    }
}
