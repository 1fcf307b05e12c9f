use crate::listing::{Arrival, Listing, byte_kind, cell_of, is_pointer, plain};
use crate::lost::{Role, greatest, role_of};
use crate::named::written_register;
use scx_abs::{AbsState, Area, Kind, area_of};
use scx_abs_ranges::Numbers;
use scx_isa::{Access, Insn, Operand, Operation, Register, Size, Width};

/// A value of which something is known.
#[derive(Clone, Copy)]
pub enum Subject {
    /// The value of a register.
    Register(Register),
    /// The value of a byte of the stack, counted from the lowest.
    Byte(u16),
    /// The greatest number in a register, or the greatest offset.
    Greatest(Register),
}

/// The value that a way brought to a slot.
#[derive(Clone, Copy)]
pub struct Brought {
    /// The slot that it came from.
    pub from: usize,
    pub kind: Kind,
}

/// Where a value comes from, on the way by which control came.
#[derive(Clone, Copy)]
pub enum Origin {
    /// Nothing wrote it.
    Nowhere,
    /// It is an argument of the callback.
    Argument,
    /// It is what r10 holds.
    Frame,
    /// The instruction at that slot wrote it.
    Written(usize),
    /// The store at that slot wrote over another part of the pointer that it was a part of.
    Torn(usize),
    /// The call at that slot of the helper of that number answered it.
    Answered {
        number: i32,
        slot: usize,
    },
    /// Lost to that call, which left it unusable.
    Lost {
        number: i32,
        slot: usize,
    },
    /// The test at that slot found it to be 0.
    Null(usize),
    /// At that slot ways meet that bring different kinds.
    Met {
        slot: usize,
        first: Brought,
        second: Brought,
    },
    /// At that slot both sides of a jump meet, which goes to the next instruction: the one where it jumps
    /// brings another kind than the one where it goes on.
    Sides {
        slot: usize,
        jump: usize,
        jumped: Kind,
        on: Kind,
    },
}

/// Where a value was before an instruction.
#[derive(Clone, Copy)]
pub(crate) enum Source {
    /// In the same place.
    Same,
    /// Elsewhere, and it was copied.
    Copied(Subject),
    /// Nowhere: it comes from there.
    Begins(Origin),
}

/// The kind of the subject's value.
pub(crate) fn known_of(state: &AbsState, subject: Subject) -> Kind {
    match subject {
        Subject::Register(register) => plain(state.kind(register)),
        Subject::Byte(byte) => plain(byte_kind(state, byte)),
        Subject::Greatest(register) => match greatest(&state.kind(register)) {
            Some(number) => Kind::Num(Numbers::single(number)),
            None => Kind::Unusable,
        },
    }
}

/// Where the subject, of which something is known as it arrives, was before the instruction that it
/// comes from.
pub(crate) fn source_of(listing: &Listing, arrival: &Arrival, subject: Subject) -> Source {
    let (Some(insn), Some(before)) = (listing.insn(arrival.from), listing.state(arrival.from))
    else {
        return Source::Same;
    };
    match subject {
        Subject::Register(register) => {
            source_of_register(listing, before, insn, arrival, register)
        }
        Subject::Byte(byte) => source_of_byte(listing, before, insn, arrival, byte),
        Subject::Greatest(register) => match role_of(insn, register) {
            Role::Copied(source) | Role::Moved(source) => {
                Source::Copied(Subject::Greatest(source))
            }
            Role::Written => Source::Begins(Origin::Written(arrival.from)),
            Role::Compared | Role::Computed | Role::Untouched => Source::Same,
        },
    }
}

fn source_of_register(
    listing: &Listing,
    before: &AbsState,
    insn: Insn,
    arrival: &Arrival,
    register: Register,
) -> Source {
    let from = arrival.from;
    match insn {
        Insn::Binary(Width::Bits64, Operation::Move, destination, Operand::Register(source))
            if destination == register => { Source::Copied(Subject::Register(source)) }
        Insn::Load(Access::DoubleWord, destination, base, offset) if destination == register => {
            source_of_load(
                listing,
                before.kind(base),
                offset,
                arrival.state.kind(register),
                from,
            )
        }
        Insn::Call(number) => source_of_call(before.kind(register), number, from, register),
        Insn::JumpIf {
            register: tested,
            ..
        } if tested == register => {
            source_of_test(before.kind(register), arrival.state.kind(register), from)
        }
        insn if writes(insn, register) => Source::Begins(Origin::Written(from)),
        _ => Source::Same,
    }
}

/// Where what was loaded was before: a pointer on the stack.
fn source_of_load(listing: &Listing, base: Kind, offset: i16, loaded: Kind, from: usize) -> Source {
    match (
        loaded,
        area_of(base, offset, Size::DoubleWord, &listing.context().defs),
    ) {
        (Kind::Num(_), _) => Source::Begins(Origin::Written(from)),
        (_, Ok(Area::OnStack(at))) => Source::Copied(Subject::Byte(at)),
        _ => Source::Begins(Origin::Written(from)),
    }
}

fn source_of_call(before: Kind, number: i32, slot: usize, register: Register) -> Source {
    match register {
        Register::R0 => Source::Begins(Origin::Answered { number, slot }),
        Register::R1 | Register::R2 | Register::R3 | Register::R4 | Register::R5
            if before != Kind::Unusable => { Source::Begins(Origin::Lost { number, slot }) }
        _ => Source::Same,
    }
}

/// A test for 0 makes a number of a pointer where it is 0.
fn source_of_test(before: Kind, after: Kind, slot: usize) -> Source {
    match (before, after) {
        (Kind::Num(_), _) => Source::Same,
        (_, Kind::Num(_)) => Source::Begins(Origin::Null(slot)),
        _ => Source::Same,
    }
}

/// Where what a byte of the stack holds was before a store: a pointer in a register. A store may also
/// take away what was known of the bytes beside it.
fn source_of_byte(
    listing: &Listing,
    before: &AbsState,
    insn: Insn,
    arrival: &Arrival,
    byte: u16,
) -> Source {
    let Insn::Store(size, base, offset, operand) = insn else {
        return Source::Same;
    };
    let after = byte_kind(&arrival.state, byte);
    let area = area_of(before.kind(base), offset, size, &listing.context().defs);
    match (area, operand) {
        (Ok(Area::OnStack(at)), Operand::Register(source))
            if cell_of(at) == cell_of(byte) && is_pointer(after) => {
            Source::Copied(Subject::Register(source))
        }
        _ if byte_kind(before, byte) == after => Source::Same,
        (Ok(Area::OnStack(at)), _) if !is_within(byte, at, size) => {
            Source::Begins(Origin::Torn(arrival.from))
        }
        _ => Source::Begins(Origin::Written(arrival.from)),
    }
}

/// True if the byte is one of those that an access at that byte is to.
fn is_within(byte: u16, at: u16, size: Size) -> bool {
    match byte.checked_sub(at) {
        Some(distance) => distance < size.bytes(),
        None => false,
    }
}

/// True if the instruction, which is no call, writes the register.
fn writes(insn: Insn, register: Register) -> bool {
    match written_register(insn) {
        Some(destination) => destination == register,
        None => false,
    }
}
