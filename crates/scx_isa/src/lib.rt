//! BPF programs in bytes (RFC 9669, sections 3 to 5): reading them, writing them, and the checks of their
//! control flow.
//!
//! `decode` reads the program that bytes spell, or names the first fault and its slot. `encode` gives
//! back the one list of bytes that spells it. `flow` asks whether its jumps go forward, to
//! instructions, and whether control can't fall off its end.
//!
//! The types of instructions and the meaning of programs are in `scx_isa_semantics`, and the encoding of one
//! instruction is in `scx_isa_encoding`; this crate exports their types too.
//!
//! Bytes are read as a program, and written back, in `crates/scx_tests_programs/src/programs.rt`:
//!
//! ```rust
//! let program = decode(rt.alloc(), &PROGRAM)?;
//! expect_same(&rt, program.slots(), 6, "slots");
//! expect_same(&rt, program.instructions(), 6, "instructions");
//! assert!(rt; is_signed_modulo(program.at(2)));
//! assert!(rt; matches!(program.at(4), Some(Insn::Goto(0))));
//! assert!(rt; program.at(6).is_none());
//! let bytes = encode(rt.alloc(), &program)?;
//! expect_same(&rt, bytes.as_slice(), PROGRAM.as_slice(), "bytes");
//! ```
#![tactic(auto)]

mod decoding;
mod encoding;
mod faults;
mod flows;
mod laws;
mod program;

pub use decoding::decode;
pub use encoding::encode;
pub use faults::{DecodeError, FlowError, FlowFault};
pub use flows::{flow, target};
pub use laws::{first_fault_is_unique, spelling_is_one_to_one};
pub use program::{MAX_SLOTS, Program};
pub use scx_isa_encoding::{DecodeFault, Exclusion};
pub use scx_isa_semantics::{
    Access, ByteOrder, CALLBACKS, Callback, Comparison, Extension, Field, Helper, Insn, MapHelper,
    Operand, Operation, Parameter, PerCallback, Pointer, REGISTERS, Register, Rules, STACK_SIZE,
    Size, StackByte, SwapWidth, TaskId, Value, Width,
};
