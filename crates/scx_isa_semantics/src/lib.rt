//! BPF programs after RFC 9669: registers, instructions and values, the meaning of an instruction and of a run (as
//! definitions in `specs/`), and the arithmetic that they define (sections 4.1 to 4.3), each in constant time.
//!
//! All other crates speak of programs by these definitions. `scx_isa` reads programs, and `scx_vm_run` runs
//! them.
#![tactic(auto)]

mod arithmetic;
mod callbacks;
mod host_tables;
mod instructions;
mod laws;
mod little_endian;
mod map_kinds;
mod operations;
mod per_callback;
mod registers;
mod rules;
mod values;

pub use arithmetic::{
    byte_swapped, compares, compute, extended, immediate, low, low_byte, low_half, low_two_bytes,
    negated, pointer_step, shifted, wide_immediate, within,
};
pub use callbacks::{ArgumentKind, CALLBACKS, Callback};
pub use host_tables::{Field, Helper, MAX_ARGUMENTS, MapHelper, Parameter, TaskId};
pub use instructions::{Insn, Operand};
pub use laws::{Responder, run_carries_over, run_has_one_outcome};
pub use little_endian::{read, read_number, read_word, write_number};
pub use map_kinds::{KeySize, Line, MapKind};
pub use operations::{Access, ByteOrder, Comparison, Extension, Operation, Size, SwapWidth, Width};
pub use per_callback::PerCallback;
pub use registers::{REGISTERS, Register};
pub use rules::Rules;
pub use values::{Pointer, STACK_SIZE, StackByte, Value};
