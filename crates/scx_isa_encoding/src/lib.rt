//! The encoding of one BPF instruction (RFC 9669, sections 3 to 5): its fields, its slots and their
//! bytes, and the faults of slots that encode none.
//!
//! An instruction is read in three layers. Bytes give a slot with its fields (`slots`), the opcode gives
//! a form, which is an instruction without its operands (`opcodes`), and the form with the fields gives
//! the instruction (`reading`). It is written through the same tables (`spelling`), and a slot is read
//! only if it is the one that spells what was read, so an instruction has one encoding.
#![tactic(auto)]

mod faults;
mod forms;
mod opcodes;
mod reading;
mod slots;
mod spelling;

pub use faults::{DecodeFault, Exclusion};
pub use reading::{due_behind, occupant_of};
pub use slots::{SLOT_BYTES, Slot, slot_of};
pub use spelling::push_insn;
