ghost use Rattle.std.specs.Prelude.{◌≡◌, ◌≤◌};

/// The bits of its operands that an instruction takes: 32 in classes ALU and JMP32, 64 in ALU64 and JMP.
#[derive(Clone, Copy)]
pub enum Width {
    /// The low 32 bits. The upper half of an arithmetic result is 0.
    Bits32,
    Bits64,
}

/// An arithmetic operation on the destination and the operand (RFC 9669, section 4.1).
#[derive(Clone, Copy)]
pub enum Operation {
    Add,
    Subtract,
    Multiply,
    /// Unsigned. By zero it gives 0.
    Divide,
    /// Signed, cut towards zero. By zero it gives 0.
    SignedDivide,
    Or,
    And,
    Xor,
    /// The count of a shift is taken modulo the width.
    ShiftLeft,
    ShiftRight,
    /// Copies of the sign bit come in from the left.
    ShiftRightSigned,
    /// The unsigned remainder. By zero it leaves the destination.
    Modulo,
    /// The remainder of the signed division. By zero it leaves the destination.
    SignedModulo,
    Move,
}

/// A move that extends the low bits with their sign: how many, and to what width.
#[derive(Clone, Copy)]
pub enum Extension {
    Low8To32,
    Low16To32,
    Low8To64,
    Low16To64,
    Low32To64,
}

/// The byte order that an instruction brings about (RFC 9669, section 4.2). The host is
/// little-endian.
#[derive(Clone, Copy)]
pub enum ByteOrder {
    Little,
    Big,
    /// The bytes are swapped, whatever the host.
    Swapped,
}

/// The number of low bits that a byte swap keeps.
#[derive(Clone, Copy)]
pub enum SwapWidth {
    Bits16,
    Bits32,
    Bits64,
}

/// The size of the memory that an instruction reads or writes (RFC 9669, section 5).
#[derive(Clone, Copy)]
pub enum Size {
    Byte,
    /// 2 bytes.
    HalfWord,
    /// 4 bytes.
    Word,
    /// 8 bytes.
    DoubleWord,
}

/// The bytes that a load reads, and their extension to 64 bits: with zeros, or with their sign.
#[derive(Clone, Copy)]
pub enum Access {
    Byte,
    HalfWord,
    Word,
    DoubleWord,
    SignedByte,
    SignedHalfWord,
    SignedWord,
}

/// When a conditional jump is taken (RFC 9669, section 4.3).
#[derive(Clone, Copy)]
pub enum Comparison {
    Equal,
    Greater,
    GreaterOrEqual,
    /// Some bit is set in both.
    BitTest,
    NotEqual,
    SignedGreater,
    SignedGreaterOrEqual,
    Less,
    LessOrEqual,
    SignedLess,
    SignedLessOrEqual,
}

impl Extension {
    ghost use Rattle.scx_isa_semantics.specs.Arithmetic.{extension_width};

    /// The width to which it extends.
    pub fn width(self) -> Width
        ensures { result ≡ extension_width self }
    {
        match self {
            Extension::Low8To32 | Extension::Low16To32 => Width::Bits32,
            Extension::Low8To64 | Extension::Low16To64 | Extension::Low32To64 => Width::Bits64,
        }
    }
}

impl Size {
    ghost use Rattle.scx_isa_semantics.specs.Memory.{size_bytes};

    /// The size in bytes.
    pub fn bytes(self) -> u16
        ensures bytes { result ≡ size_bytes self }
        ensures most { result ≤ 8 }
    {
        match self {
            Size::Byte => 1,
            Size::HalfWord => 2,
            Size::Word => 4,
            Size::DoubleWord => 8,
        }
    }
}

impl Access {
    ghost use Rattle.scx_isa_semantics.specs.Memory.{access_size};
    ghost use Rattle.scx_isa_semantics.specs.Meaning.{is_plain};

    /// The size of the memory that it reads.
    pub fn size(self) -> Size
        ensures { result ≡ access_size self }
    {
        match self {
            Access::Byte | Access::SignedByte => Size::Byte,
            Access::HalfWord | Access::SignedHalfWord => Size::HalfWord,
            Access::Word | Access::SignedWord => Size::Word,
            Access::DoubleWord => Size::DoubleWord,
        }
    }

    /// True if the load extends its bytes with zeros.
    pub fn is_plain(self) -> bool
        ensures { result ≡ is_plain self }
    {
        !matches!(
            self,
            Access::SignedByte | Access::SignedHalfWord | Access::SignedWord
        )
    }
}
