use scx_isa_semantics::{
    Access, ByteOrder, Comparison, Extension, Operation, Register, Size, SwapWidth, Width,
};

/// A number as it is written; it has no magnitude where that is 2^64 or more.
#[derive(Clone, Copy)]
pub struct Literal {
    pub is_negative: bool,
    pub magnitude: Option<u64>,
}

/// The second operand as it is written.
#[derive(Clone, Copy)]
pub enum WrittenOperand {
    Number(Literal),
    Register(Register),
}

/// An instruction other than a jump, with its numbers as they are written.
#[derive(Clone, Copy)]
pub enum Statement {
    Binary(Width, Operation, Register, WrittenOperand),
    Negate(Width, Register),
    SignExtend(Extension, Register, Register),
    ByteSwap(ByteOrder, SwapWidth, Register),
    LoadImmediate(Register, Literal),
    LoadMapReference(Register, Literal),
    Load(Access, Register, Register, Literal),
    Store(Size, Register, Literal, WrittenOperand),
    Call(Literal),
    Exit,
}

/// A jump without its target.
#[derive(Clone, Copy)]
pub enum Jump {
    If(Width, Comparison, Register, WrittenOperand),
    Goto,
    GotoLong,
}

/// Where a jump goes.
#[derive(Clone, Copy)]
pub enum Target<'a> {
    Label(&'a [u8]),
    /// A distance in slots, on or back from the next instruction.
    Distance(Literal),
}

/// The contents of a line.
#[derive(Clone, Copy)]
pub enum Item<'a> {
    Blank,
    /// The label that names the next instruction.
    Label(&'a [u8]),
    Statement(Statement),
    Jump(Jump, Target<'a>),
}

/// Memory as a line writes it: a register plus an offset, and how it is read.
#[derive(Clone, Copy)]
pub struct MemoryOperand {
    pub access: Access,
    pub base: Register,
    pub offset: Literal,
}
