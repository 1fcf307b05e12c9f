ghost use Rattle.std.specs.Prelude.{◌≡◌, ◌+◌, ◌*◌, ◌≤◌, ◌<◌, ◌++◌, length, OnOk};
ghost use Rattle.scx_isa_encoding.specs.Slots.{slot_at, front_slot, slot_bytes, IsSlot};

use byteorder::{ByteOrder, LittleEndian};
use std::alloc::AllocError;

/// The size of a slot in bytes.
pub const SLOT_BYTES: usize = 8;

/// The fields of one slot (RFC 9669, section 3), each as its bits.
#[derive(Clone, Copy, PartialEq, Eq)]
pub struct Slot {
    pub opcode: u8,
    /// The low four bits of the second byte.
    pub destination: u8,
    /// The high four bits of the second byte.
    pub source: u8,
    pub offset: u16,
    pub immediate: u32,
}

/// The slot that the first eight bytes spell.
pub fn slot_of(bytes: &[u8]) -> Slot
    requires { 8 ≤ length bytes.now }
    ensures { result ≡ slot_at bytes.now }
{
    Slot {
        opcode: bytes[0],
        destination: bytes[1] % 16,
        source: bytes[1] / 16,
        offset: LittleEndian::read_u16(&bytes[2..]),
        immediate: LittleEndian::read_u32(&bytes[4..]),
    }
}

/// The first slot, if eight bytes are there.
pub fn first_of(bytes: &[u8]) -> Option<Slot>
    ensures { result ≡ front_slot bytes.now }
{
    if bytes.len() < SLOT_BYTES {
        None
    } else {
        Some(slot_of(bytes))
    }
}

/// Writes the slot's eight bytes at the end.
pub fn push_slot(out: &mut Vec<u8>, slot: &Slot) -> Result<(), AllocError>
    requires { IsSlot slot.now }
    ensures { OnOk result (out.new.items ≡ out.old.items ++ slot_bytes slot.now) }
{
    let mut bytes = [0; SLOT_BYTES];
    bytes[0] = slot.opcode;
    bytes[1] = slot.destination + 16 * slot.source;
    LittleEndian::write_u16(&mut bytes[2..], slot.offset);
    LittleEndian::write_u32(&mut bytes[4..], slot.immediate);
    out.reserve(SLOT_BYTES)?;
    // One by one, which takes less than `extend_from_slice`: that moves the vector out and back.
    out.push_reserved(bytes[0]);
    out.push_reserved(bytes[1]);
    out.push_reserved(bytes[2]);
    out.push_reserved(bytes[3]);
    out.push_reserved(bytes[4]);
    out.push_reserved(bytes[5]);
    out.push_reserved(bytes[6]);
    out.push_reserved(bytes[7]);
    Ok(())
}
