ghost use Rattle.std.specs.Prelude.{◌≡◌, None, ◌*◌, ◌/◌, ◌%◌, length, IfOk, IfErr, Ok};
ghost use Rattle.scx_isa_encoding.specs.Slots.{slots_in, front_slot};
ghost use Rattle.scx_isa_semantics.specs.Code.{Code};
ghost use Rattle.scx_isa.specs.Spelling.{Spells, HasProgramLength};
ghost use Rattle.scx_isa.specs.FirstFault.{IsRefusal};
ghost use Rattle.scx_isa_encoding.specs.Reading.{occupant_at};
ghost use Rattle.scx_isa.specs.Reading.{Gives, at_slot, read_slots, read_program};

use crate::faults::DecodeError;
use crate::program::{MAX_SLOTS, Program};
use scx_isa_encoding::{DecodeFault, SLOT_BYTES, Slot, due_behind, occupant_of, slot_of};
use scx_isa_semantics::Insn;
use std::alloc::Global;

/// The occupant of the slot numbered `number`, or its fault with that number.
fn occupant_at_number(
    number: usize,
    due: Option<Slot>,
    slot: &Slot,
    after: &[u8],
) -> Result<Option<Insn>, DecodeError>
    ensures { Gives (λ occupant. occupant) result
        (at_slot number (occupant_at due slot.now (front_slot after.now))) }
{
    match occupant_of(due, slot, after) {
        Ok(occupant) => Ok(occupant),
        Err(fault) => refused(fault, number),
    }
}

/// The occupant of each slot.
fn read(alloc: Global, bytes: &[u8]) -> Result<Vec<Option<Insn>>, DecodeError>
    requires { length bytes.now % 8 ≡ 0 }
    ensures { Gives (λ code. code.items) result
        (read_slots 0 None (slots_in (length bytes.now / 8) bytes.now)) }
{
    let slots = bytes.len() / SLOT_BYTES;
    let mut code = Vec::with_capacity(alloc, slots)?;
    let mut rest = bytes;
    let mut due = None;
    for number in 0..slots {
        let (_, after) = rest.split_at(SLOT_BYTES);
        let occupant = occupant_at_number(number, due, &slot_of(rest), after)?;
        due = due_behind(&occupant);
        code.push_reserved(occupant);
        rest = after;
    }
    Ok(code)
}

/// The occupant of each slot of a program, or the first fault.
fn read_all(alloc: Global, bytes: &[u8]) -> Result<Vec<Option<Insn>>, DecodeError>
    ensures exact { Gives (λ code. code.items) result (read_program bytes.now) }
    ensures memory { result ≡ Err DecodeError.OutOfMemory → HasProgramLength bytes.now }
{
    let slots = bytes.len() / SLOT_BYTES;
    if bytes.is_empty() {
        return refused(DecodeFault::Empty, 0);
    }
    if bytes.len() % SLOT_BYTES != 0 {
        return refused(DecodeFault::NotWholeSlots, slots);
    }
    if slots > MAX_SLOTS {
        return refused(DecodeFault::TooLong, MAX_SLOTS);
    }
    read(alloc, bytes)
}

fn refused<T: Drop>(fault: DecodeFault, slot: usize) -> Result<T, DecodeError>
    ensures { result ≡ Err (DecodeError.Refused fault slot) }
{
    Err(DecodeError::Refused { fault, slot })
}

/// The program that the bytes spell, or the first fault.
fn program_of(alloc: Global, bytes: &[u8]) -> Result<Program, DecodeError>
    ensures exact { Gives (λ program. program) result (read_program bytes.now) }
    ensures memory { result ≡ Err DecodeError.OutOfMemory → HasProgramLength bytes.now }
{
    let code = read_all(alloc, bytes)?;
    Ok(Program::new(code))
}

/// Reads the program that the bytes spell (RFC 9669, section 3).
///
/// The lengths are looked at first: no byte, a part of a slot, more than 4096 slots. Then the first
/// faulty instruction is refused, with the first of its faults.
pub fn decode(alloc: Global, bytes: &[u8]) -> Result<Program, DecodeError>
    // What is decoded is what the bytes spell.
    ensures decoded { IfOk result (λ program. Spells bytes.now program) }
    // What the bytes spell is decoded, unless memory runs out.
    ensures spelled { (code : Code) → Spells bytes.now code
        → Gives (λ program. program) result (Ok code) }
    // What is refused has that fault first, at that slot. Memory runs out only where the bytes are as
    // many as a program has.
    ensures refused { IfErr result (IsRefusal bytes.now) }
    // Which answer it is, by reading from the first slot on.
    ensures exact { Gives (λ program. program) result (read_program bytes.now) }
{
    program_of(alloc, bytes)
}
