ghost use Rattle.std.specs.Prelude.{false};

use scx_isa::{Helper, Insn, Pointer, Program, Register, STACK_SIZE, Size, Value};
use scx_isa_semantics::KeySize;
use scx_maps::{MapKind, Maps};
use scx_sched_world::World;
use scx_vm_tagged::{Core, Watch};

/// The most reads that are kept.
pub const MOST_READS: usize = 6;

/// The bytes of the stack.
const STACK: usize = STACK_SIZE as usize;

/// A number that a callback read from an element of a map.
#[derive(Clone, Copy)]
pub struct ElementRead {
    pub map: u8,
    /// The element's index, and the byte within it.
    pub index: u32,
    pub byte: u64,
    pub number: u64,
}

impl ElementRead {
    fn is_at(self, other: ElementRead) -> bool {
        self.map == other.map && self.index == other.index && self.byte == other.byte
    }
}

/// The first numbers that a callback read from maps, each place once with the last number, and how many more places
/// it read.
#[derive(Clone, Copy)]
pub struct ElementReads {
    kept: [Option<ElementRead>; MOST_READS],
    pub more: u64,
}

impl ElementReads {
    fn none() -> ElementReads {
        ElementReads {
            kept: [None; MOST_READS],
            more: 0,
        }
    }

    /// The read at that place of the list, if there is one.
    pub fn at(&self, place: usize) -> Option<ElementRead> {
        *self.kept.get(place)?
    }

    fn add(&mut self, read: ElementRead) {
        let place = self.place_for(read);
        match self.kept.get_mut(place) {
            Some(place) => *place = Some(read),
            None => self.more = self.more.saturating_add(1),
        }
    }

    /// The place of an earlier read there, or the first free place; past the end if there is none.
    fn place_for(&self, read: ElementRead) -> usize {
        for place in 0..MOST_READS {
            match self.at(place) {
                Some(earlier) if !earlier.is_at(read) => {}
                _ => return place,
            }
        }
        MOST_READS
    }
}

/// A look-up of a map that found nothing.
#[derive(Clone, Copy)]
pub struct MissedKey {
    pub slot: usize,
    pub map: u8,
    /// The key, if it was on the stack.
    pub key: Option<u64>,
}

/// A look-up: its slot and map, and the key as a number of 4 and of 8 bytes, where each is known.
#[derive(Clone, Copy)]
struct Lookup {
    slot: usize,
    map: u8,
    short: Option<u64>,
    long: Option<u64>,
}

impl Lookup {
    /// The look-up as one that found nothing, in a map of this kind.
    fn missed(self, maps: &Maps) -> MissedKey {
        MissedKey {
            slot: self.slot,
            map: self.map,
            key: match maps.kind(self.map) {
                MapKind::Hash(KeySize::Eight) => self.long,
                _ => self.short,
            },
        }
    }
}

/// An instruction whose doing is seen at the next one.
#[derive(Clone, Copy)]
enum Pending {
    Nothing,
    Lookup(Lookup),
    /// A load into that register, from a place of an element; its number isn't known yet.
    Load(Register, ElementRead),
}

/// Watches what a program reads from maps.
#[derive(Drop)]
pub struct MapReads<'a> {
    program: &'a Program,
    pending: Pending,
    pub reads: ElementReads,
    /// The last look-up that found nothing.
    missed: Option<Lookup>,
}

impl<'a> MapReads<'a> {
    /// Nothing is read yet.
    pub fn new(program: &'a Program) -> MapReads<'a> {
        MapReads {
            program,
            pending: Pending::Nothing,
            reads: ElementReads::none(),
            missed: None,
        }
    }

    /// The last look-up that found nothing, in these maps.
    pub fn missed(&self, maps: &Maps) -> Option<MissedKey> {
        Some(self.missed?.missed(maps))
    }

    /// Keeps what the last instruction did, as the next one finds it.
    fn settle(&mut self, core: &Core) {
        match self.pending {
            Pending::Nothing => {}
            Pending::Lookup(lookup) => {
                if number_in(core, Register::R0) == Some(0) {
                    self.missed = Some(lookup);
                }
            }
            Pending::Load(register, read) => {
                if let Some(number) = number_in(core, register) {
                    self.reads.add(ElementRead { number, ..read });
                }
            }
        }
    }
}

impl Watch<World> for MapReads<'_> {
    ghost awaited = { λ w. false };

    fn has_come(&self, _env: &World) -> bool {
        false
    }

    fn see(&mut self, slot: usize, core: &Core, _env: &World) {
        self.settle(core);
        self.pending = pending_at(self.program, slot, core);
    }
}

/// The instruction at that slot, if it reads a map.
fn pending_at(program: &Program, slot: usize, core: &Core) -> Pending {
    match program.at(slot) {
        Some(Insn::Call(number)) => pending_call(number, slot, core),
        Some(Insn::Load(_, to, from, offset)) => pending_load(to, from, offset, core),
        _ => Pending::Nothing,
    }
}

fn pending_call(number: i32, slot: usize, core: &Core) -> Pending {
    match (Helper::new(number), core.read(Register::R1)) {
        (Some(Helper::MapLookupElem), Value::Pointer(Pointer::Map(map))) => {
            Pending::Lookup(Lookup {
                slot,
                map,
                short: short_key(core),
                long: long_key(core),
            })
        }
        _ => Pending::Nothing,
    }
}

/// The place on the stack to which r2 points, if it does.
fn place_on_stack(core: &Core) -> Option<usize> {
    match core.read(Register::R2) {
        Value::Pointer(Pointer::Stack(at)) => Some(at as usize),
        Value::Unset | Value::Number(_) | Value::Pointer(_) => None,
    }
}

/// The number of 4 bytes to which r2 points, if that is on the stack.
fn short_key(core: &Core) -> Option<u64> {
    let at = place_on_stack(core)?;
    if at <= STACK - 4 {
        Some(u64::from(core.stack.word(at)?))
    } else {
        None
    }
}

/// The number of 8 bytes to which r2 points, if that is on the stack.
fn long_key(core: &Core) -> Option<u64> {
    let at = place_on_stack(core)?;
    if at <= STACK - 8 {
        core.stack.number(Size::DoubleWord, at)
    } else {
        None
    }
}

fn pending_load(to: Register, from: Register, offset: i16, core: &Core) -> Pending {
    match core.read(from) {
        Value::Pointer(
            Pointer::Element {
                map,
                index,
                offset: begin,
            },
        ) => Pending::Load(
            to,
            ElementRead {
                map,
                index,
                byte: (i64::from(begin) + i64::from(offset)).cast_unsigned(),
                number: 0,
            },
        ),
        Value::Unset | Value::Number(_) | Value::Pointer(_) => Pending::Nothing,
    }
}

/// The number in a register, if it has one.
fn number_in(core: &Core, register: Register) -> Option<u64> {
    match core.read(register) {
        Value::Number(number) => Some(number),
        Value::Unset | Value::Pointer(_) => None,
    }
}
