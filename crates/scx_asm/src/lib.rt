//! An assembler and a disassembler for BPF programs, in the dialect that clang and llvm-objdump print.
//!
//! `assemble` reads a text line by line: a first pass finds the slots of instructions and labels, and
//! a second one makes the instructions, with offsets for labels.
//! `disassemble` gives the canonical text, which `assemble` reads as the same program.
//!
//! A text is made into slots, in `crates/scx_tests_programs/src/malicious.rt`:
//!
//! ```rust
//! /// The bytes of a callback.
//! fn code_of(alloc: Global, text: &str) -> Option<Vec<u8>> {
//!     let program = assemble(alloc, text).ok()?;
//!     encode(alloc, &program).ok()
//! }
//! ```
#![tactic(auto)]

mod assembling;
mod disassembling;
mod faults;
mod laws;
mod resolving;
mod scanning;

pub use assembling::assemble;
pub use disassembling::disassemble;
pub use faults::{AsmError, AsmFault};
pub use laws::canonical_text_is_read_back;
