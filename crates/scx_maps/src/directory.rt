ghost use Rattle.std.specs.Prelude.{◌≡◌, ◌<◌, ℕ, length, slice_index, IfOk};
ghost use Rattle.scx_isa_semantics.specs.Directories.{Array, stays, array_slot, copy_slot, array_updated, updated, deleted, pushed, peeked, popped, seek, kind_of, new_directory};
ghost use Rattle.scx_maps.specs.Keeping.{slots_held};
ghost use Rattle.scx_maps.specs.Words.{part_words};

use crate::codes::{INVALID, IS_THERE, TOO_BIG};
use crate::keys::Keys;
use crate::lines;
use scx_isa_semantics::{Line, MapKind};
use std::alloc::{AllocError, Global};
use std::marker::Model;

/// The number of copies of a map that each CPU has its own copy of.
const COPIES: u64 = 64;

/// The part of a map beside its elements.
#[derive(Drop)]
pub(crate) struct Directory {
    kind: MapKind,
    /// Where the values of a queue or a stack are.
    line: Line,
    /// Keys of a hash; other maps have none.
    keys: Keys,
}

impl Model for Directory {
    ghost use Rattle.scx_isa_semantics.specs.Directories.{Directory};
    ghost use Rattle.scx_maps.specs.Keeping.{directory_by, HasItsSlots};

    ghost Value = { Directory };

    ghost view = { λ d. directory_by d.kind d.line d.keys };

    ghost invariant = { λ d. HasItsSlots d.kind d.keys };
}

impl Directory {
    /// The part of a new map with that many elements.
    pub fn new(alloc: Global, kind: MapKind, slots: u32) -> Result<Directory, AllocError>
        ensures { IfOk result (λ directory. directory ≡ new_directory kind slots) }
    {
        let held = match kind {
            MapKind::Hash(_) => slots,
            _ => 0,
        };
        Ok(Directory {
            kind,
            line: Line { first: 0, count: 0 },
            keys: Keys::new(alloc, held)?,
        })
    }

    pub fn kind(&self) -> MapKind
        ensures { result ≡ kind_of self.now }
    {
        self.kind
    }

    /// The slot of a key, of a map with that many elements, on that CPU.
    pub fn seek(&self, slots: u32, cpu: u64, key: u64) -> Option<u32>
        ensures { result ≡ seek self.now slots cpu key }
    {
        match self.kind {
            MapKind::Array => array_seek(slots, key),
            MapKind::PerCpu => copy_slot(slots, cpu, key),
            MapKind::Hash(_) => self.keys.slot_of(key),
            MapKind::Queue | MapKind::Stack => None,
        }
    }

    /// Updates a key: the slot for its value.
    pub fn update(&mut self, slots: u32, cpu: u64, key: u64, flags: u64) -> Result<u32, u64>
        ensures { record { directory = self.new; slot = result }
            ≡ updated self.old slots cpu key flags }
    {
        if flags > 2 {
            return Err(INVALID);
        }
        match self.kind {
            MapKind::Hash(_) => self.keys.update(key, flags),
            _ => array_updated(self.seek(slots, cpu, key), flags),
        }
    }

    /// Takes a key out: the slot that it had.
    pub fn delete(&mut self, key: u64) -> Result<u32, u64>
        ensures { record { directory = self.new; slot = result } ≡ deleted self.old key }
    {
        match self.kind {
            MapKind::Hash(_) => self.keys.delete(key),
            _ => Err(INVALID),
        }
    }

    /// Pushes a value: the slot for it.
    pub fn push(&mut self, slots: u32, flags: u64) -> Result<u32, u64>
        requires { 0 < slots }
        ensures placed { record { directory = self.new; slot = result }
            ≡ pushed self.old slots flags }
        ensures within { IfOk result (λ slot. slot < slots) }
    {
        if flags == 1 || flags > 2 {
            return Err(INVALID);
        }
        match self.kind {
            MapKind::Queue | MapKind::Stack => {
                let (line, slot) = lines::push(slots, self.line, flags);
                self.line = line;
                slot
            }
            _ => Err(INVALID),
        }
    }

    /// The slot of the value that a pop would take.
    pub fn peek(&self, slots: u32) -> Result<u32, u64>
        requires { 0 < slots }
        ensures slot { result ≡ peeked self.now slots }
        ensures within { IfOk result (λ slot. slot < slots) }
    {
        match self.kind {
            MapKind::Queue => lines::oldest(slots, self.line),
            MapKind::Stack => lines::newest(slots, self.line),
            _ => Err(INVALID),
        }
    }

    /// Pops a value: the slot that it had.
    pub fn pop(&mut self, slots: u32) -> Result<u32, u64>
        requires { 0 < slots }
        ensures placed { record { directory = self.new; slot = result } ≡ popped self.old slots }
        ensures within { IfOk result (λ slot. slot < slots) }
    {
        let slot = self.peek(slots);
        match self.kind {
            MapKind::Queue => self.line = lines::without_oldest(slots, self.line),
            MapKind::Stack => self.line = lines::without_newest(self.line),
            _ => (),
        }
        slot
    }

    /// Becomes what the other one is, of the same kind and as many elements. No memory is taken.
    pub fn copy_from(&mut self, other: &Directory)
        requires kind { kind_of self.old ≡ kind_of other.now }
        requires slots { slots_held self.old ≡ slots_held other.now }
        ensures { self.new ≡ other.now }
    {
        self.line = other.line;
        self.keys.copy_from(&other.keys);
    }

    /// A copy in memory of its own.
    pub fn duplicate(&self, alloc: Global) -> Result<Directory, AllocError>
        ensures { IfOk result (λ copy. copy ≡ self.now) }
    {
        Ok(Directory {
            kind: self.kind,
            line: self.line,
            keys: self.keys.duplicate(alloc)?,
        })
    }

    /// The number of words that tell it from any other of its kind and size.
    pub fn words(&self) -> usize
        ensures { result ≡ length (part_words self.now) }
    {
        match self.kind {
            MapKind::Array | MapKind::PerCpu => 0,
            MapKind::Hash(_) => 1 + 3 * self.keys.slots(),
            MapKind::Queue | MapKind::Stack => 2,
        }
    }

    /// The word of that number, of those that tell it from any other.
    pub fn word(&self, number: usize) -> u64
        requires { number < length (part_words self.now) }
        ensures { result ≡ slice_index (part_words self.now) number }
    {
        match self.kind {
            MapKind::Hash(_) => self.keys.word(number),
            _ if number == 0 => u64::from(self.line.first),
            _ => u64::from(self.line.count),
        }
    }
}

/// Updates a key of an array of that many elements: the slot for its value.
pub(crate) fn array_update(slots: u32, key: u64, flags: u64) -> Result<u32, u64>
    ensures { (cpu : ℕ) → stays Array result ≡ updated Array slots cpu key flags }
{
    if flags > 2 {
        return Err(INVALID);
    }
    array_updated(array_seek(slots, key), flags)
}

/// The slot of a key in an array of that many elements.
pub(crate) fn array_seek(slots: u32, key: u64) -> Option<u32>
    ensures { result ≡ array_slot slots key }
{
    if key < u64::from(slots) {
        Some(key as u32)
    } else {
        None
    }
}

/// The slot of a key in the copy of a CPU.
fn copy_slot(slots: u32, cpu: u64, key: u64) -> Option<u32>
    ensures { result ≡ copy_slot slots cpu key }
{
    let entries = u64::from(slots) / COPIES;
    if cpu < COPIES && key < entries {
        Some((cpu * entries + key) as u32)
    } else {
        None
    }
}

/// The slot for the value of a key of an array.
fn array_updated(slot: Option<u32>, flags: u64) -> Result<u32, u64>
    ensures { result ≡ array_updated slot flags }
{
    match slot {
        None => Err(TOO_BIG),
        Some(_) if flags == 1 => Err(IS_THERE),
        Some(slot) => Ok(slot),
    }
}
