ghost use Rattle.std.specs.Prelude.{◌≡◌, ◌++◌, ◌≤◌, false, length, IfOk, OnOk};
ghost use Rattle.std.specs.List.{flat_map};
ghost use Rattle.std.specs.Option.{ForSome};
ghost use Rattle.scx_isa_encoding.specs.Slots.{slot_bytes};
ghost use Rattle.scx_isa_encoding.specs.Spelling.{IsInsn};
ghost use Rattle.scx_isa.specs.Spelling.{IsProgram, Spells, occupant_slots, spelling};

use crate::program::Program;
use scx_isa_encoding::{SLOT_BYTES, push_insn};
use scx_isa_semantics::Insn;
use std::alloc::{AllocError, Global};

/// Writes the slots of the occupant of a slot; a second half is written with its first.
fn push_occupant(out: &mut Vec<u8>, occupant: &Option<Insn>) -> Result<(), AllocError>
    requires { ForSome occupant.now IsInsn }
    ensures { OnOk result
        (out.new.items ≡ out.old.items ++ flat_map slot_bytes (occupant_slots occupant.now)) }
{
    match occupant {
        Some(insn) => push_insn(out, insn),
        None => Ok(()),
    }
}

/// The bytes of the occupants of a program.
fn write(alloc: Global, occupants: &[Option<Insn>]) -> Result<Vec<u8>, AllocError>
    requires { IsProgram occupants.now }
    ensures { IfOk result (λ bytes. bytes.items ≡ spelling occupants.now) }
{
    let mut bytes = Vec::with_capacity(alloc, SLOT_BYTES * occupants.len())?;
    for occupant in occupants {
        push_occupant(&mut bytes, occupant)?;
    }
    Ok(bytes)
}

/// The bytes that spell the program (RFC 9669, section 3). `decode` gives it back from them, and from
/// no other bytes.
pub fn encode(alloc: Global, program: &Program) -> Result<Vec<u8>, AllocError>
    ensures { IfOk result (λ bytes. Spells bytes.items program.now) }
{
    write(alloc, program.occupants())
}
