ghost use Rattle.std.specs.Prelude.{◌≡◌, ◌≤◌, ◌<◌, ◌+◌, ◌↔◌, length, map, slice_index, slice_index_or, IsTrue, IfOk};
ghost use Rattle.scx_isa_semantics.specs.Calls.{over};
ghost use Rattle.scx_isa_semantics.specs.Directories.{Array, kind_of, seek};
ghost use Rattle.scx_maps.specs.Words.{part_words};
ghost use Rattle.scx_isa_semantics.specs.Elements.{count, directory, elements, element, with_element, number_at, with_number, no_maps};
ghost use Rattle.scx_isa_semantics.specs.Memory.{size_bytes};
ghost use Rattle.scx_isa_semantics.specs.Serving.{slot_count, value_size, update, delete, push, pop, peek, Answer, Gives, stored_in, bytes_from, code_of};
ghost use Rattle.scx_maps.specs.Contents.{zeros, lengths_of, kinds_of, new_directories, HasShapes};
ghost use Rattle.scx_maps.specs.Lending.{shapes_of, all_bytes, with_all_bytes};
ghost use Rattle.scx_maps.specs.Layout.{offset_of};
ghost use Rattle.scx_maps.specs.Keeping.{slots_held};

use crate::codes::INVALID;
use crate::defs::{MAX_BYTES, MAX_MAPS, MapDefs};
use crate::directory::{Directory, array_seek, array_update};
use crate::shape::MAX_VALUE_SIZE;
use crate::values::Values;
use scx_isa_semantics::{MapKind, Size};
use std::alloc::{AllocError, Global};
use std::marker::Model;

/// The maps of a policy. Maps and elements are numbered from 0.
///
/// In a contract it is the elements of all maps, each the list of its bytes, and what maps have beside
/// their elements.
#[derive(Drop)]
pub struct Maps {
    values: Values,
    /// One for each map; none at all where all maps are arrays.
    directories: Vec<Directory>,
}

impl Model for Maps {
    ghost use Rattle.scx_isa_semantics.specs.Elements.{Maps};
    ghost use Rattle.scx_maps.specs.Keeping.{HaveSlots};

    ghost Value = { Maps };

    ghost view = { λ m. record { contents = m.values; directories = m.directories.items } };

    ghost invariant = { λ m. HaveSlots m.directories.items m.values };
}

impl Maps {
    /// Maps of the given shapes, all bytes 0, hashes, queues and stacks empty.
    pub fn new(alloc: Global, defs: &MapDefs) -> Result<Maps, AllocError>
        ensures zeros { IfOk result (λ maps. maps ≡ zeros defs.now) }
        ensures shapes { IfOk result (λ maps. HasShapes defs.now maps) }
    {
        let values = Values::new(alloc, defs)?;
        let directories = new_directories(alloc, defs)?;
        Ok(Maps {
            values,
            directories,
        })
    }

    /// No maps at all, which takes no memory.
    pub fn none(alloc: Global) -> Maps
        ensures { result ≡ no_maps }
    {
        Maps {
            values: Values::none(alloc),
            directories: Vec::new(alloc),
        }
    }

    /// The number of maps.
    pub fn count(&self) -> usize
        ensures count { result ≡ count self.now }
        ensures most { count self.now ≤ MAX_MAPS }
    {
        self.values.count()
    }

    /// The kind of a map.
    pub fn kind(&self, map: u8) -> MapKind
        ensures { result ≡ kind_of (directory self.now map) }
    {
        match self.directories.get(usize::from(map)) {
            Some(directory) => directory.kind(),
            None => MapKind::Array,
        }
    }

    /// True if the map has an element of this number.
    pub fn lookup(&self, map: u8, key: u32) -> bool
        requires { map < count self.now }
        ensures { IsTrue result ↔ (key < length (elements self.now map)) }
    {
        self.values.lookup(map, key)
    }

    /// The size of an element in bytes; 0 if there is no such element.
    pub fn value_size(&self, map: u8, index: u32) -> u16
        ensures size { result ≡ length (element self.now map index) }
        ensures is_there { 0 < result
            → (map < count self.now) × (index < length (elements self.now map)) }
        ensures most { result ≤ MAX_VALUE_SIZE }
        ensures some { map < count self.now → 0 < value_size self.now map }
    {
        self.values.value_size(map, index)
    }

    /// The bytes of an element.
    pub fn value(&self, map: u8, index: u32) -> &[u8]
        requires map { map < count self.now }
        requires index { index < length (elements self.now map) }
        ensures { result.now ≡ element self.now map index }
    {
        self.values.value(map, index)
    }

    /// The number in an element at a byte, low byte first.
    pub fn load(&self, map: u8, index: u32, offset: u16, size: Size) -> u64
        requires map { map < count self.now }
        requires index { index < length (elements self.now map) }
        requires offset { offset + size_bytes size ≤ length (element self.now map index) }
        ensures { result ≡ number_at (element self.now map index) offset (size_bytes size) }
    {
        self.values.load(map, index, offset, size)
    }

    /// Writes the lowest bytes of a number into an element at a byte, low byte first.
    pub fn store(&mut self, map: u8, index: u32, offset: u16, size: Size, number: u64)
        requires map { map < count self.old }
        requires index { index < length (elements self.old map) }
        requires offset { offset + size_bytes size ≤ length (element self.old map index) }
        ensures stored { let value = element self.old map index in
            self.new ≡ with_element self.old map index
            (with_number value offset (size_bytes size) number) }
        ensures shapes { lengths_of self.new ≡ lengths_of self.old }
    {
        self.values.store(map, index, offset, size, number);
    }

    /// Writes bytes over an element, if the map has one of that number.
    pub fn put(&mut self, map: u8, index: u32, bytes: &[u8])
        requires map { map < count self.old }
        requires long { length bytes.now ≡ value_size self.old map }
        ensures put { self.new ≡ with_element self.old map index bytes.now }
        ensures shapes { lengths_of self.new ≡ lengths_of self.old }
    {
        self.values.put(map, index, bytes);
    }

    /// Writes bytes over those of an element from a byte on.
    pub fn write(&mut self, map: u8, index: u32, offset: u16, bytes: &[u8])
        requires map { map < count self.old }
        requires index { index < length (elements self.old map) }
        requires offset { offset + length bytes.now ≤ length (element self.old map index) }
        ensures { self.new
            ≡ with_element self.old map index (over (element self.old map index) offset bytes.now) }
    {
        self.values.write(map, index, offset, bytes);
    }

    /// The byte at which an element begins, among the bytes of all maps.
    pub fn offset(&self, map: u8, index: u32) -> usize
        requires map { map < count self.now }
        requires index { index < length (elements self.now map) }
        ensures offset { result ≡ offset_of (shapes_of self.now) map index }
        ensures small { result ≤ MAX_BYTES }
    {
        self.values.offset(map, index)
    }

    /// The bytes of all maps, one element after the other.
    pub fn bytes(&self) -> &[u8]
        ensures { result.now ≡ all_bytes self.now }
    {
        self.values.bytes()
    }

    /// Becomes what the other one is, whose maps have the same shapes. No memory is taken.
    pub fn copy_from(&mut self, other: &Maps)
        requires lengths { lengths_of self.old ≡ lengths_of other.now }
        requires kinds { kinds_of self.old ≡ kinds_of other.now }
        ensures { self.new ≡ other.now }
    {
        self.values.copy_from(&other.values);
        copy_directories(&mut self.directories, &other.directories);
    }

    /// A copy of the maps, in memory of its own.
    pub fn duplicate(&self, alloc: Global) -> Result<Maps, AllocError>
        ensures { IfOk result (λ copy. copy ≡ self.now) }
    {
        let values = self.values.duplicate(alloc)?;
        let directories = duplicates(alloc, &self.directories)?;
        Ok(Maps {
            values,
            directories,
        })
    }

    /// Writes the lowest bytes of a number from a byte of all maps on, low byte first.
    pub fn store_at(&mut self, offset: usize, size: Size, number: u64)
        requires { offset + size_bytes size ≤ length (all_bytes self.old) }
        ensures { self.new
            ≡ with_all_bytes self.old
            (with_number (all_bytes self.old) offset (size_bytes size) number) }
    {
        self.values.store_at(offset, size, number);
    }

    /// Writes bytes from a byte of all maps on.
    pub fn write_at(&mut self, offset: usize, bytes: &[u8])
        requires { offset + length bytes.now ≤ length (all_bytes self.old) }
        ensures { self.new
            ≡ with_all_bytes self.old (over (all_bytes self.old) offset bytes.now) }
    {
        self.values.write_at(offset, bytes);
    }

    /// The element that a key names, on that CPU.
    pub fn seek(&self, map: u8, cpu: u64, key: u64) -> Option<u32>
        requires { map < count self.now }
        ensures { result ≡ seek (directory self.now map) (slot_count self.now map) cpu key }
    {
        let slots = self.values.slots(map);
        match self.directories.get(usize::from(map)) {
            Some(directory) => directory.seek(slots, cpu, key),
            None => array_seek(slots, key),
        }
    }

    /// Writes the value of a key, on that CPU; answers 0 or a negated error number.
    pub fn update(&mut self, map: u8, cpu: u64, key: u64, bytes: &[u8], flags: u64) -> u64
        requires map { map < count self.old }
        requires long { length bytes.now ≡ value_size self.old map }
        ensures served { record { maps = self.new; reply = Answer result }
            ≡ update self.old map cpu key bytes.now flags }
        ensures shapes { lengths_of self.new ≡ lengths_of self.old }
    {
        let slots = self.values.slots(map);
        let number = usize::from(map);
        if number >= self.directories.len() {
            let slot = array_update(slots, key, flags);
            return self.put_in(map, slot, bytes);
        }
        let slot = self.directories[number].update(slots, cpu, key, flags);
        self.put_in(map, slot, bytes)
    }

    /// Takes a key out; answers 0 or a negated error number.
    pub fn delete(&mut self, map: u8, key: u64) -> u64
        ensures { record { maps = self.new; reply = Answer result } ≡ delete self.old map key }
    {
        let number = usize::from(map);
        if number >= self.directories.len() {
            return INVALID;
        }
        code_of(self.directories[number].delete(key))
    }

    /// Pushes a value; answers 0 or a negated error number.
    pub fn push(&mut self, map: u8, bytes: &[u8], flags: u64) -> u64
        requires map { map < count self.old }
        requires long { length bytes.now ≡ value_size self.old map }
        requires some { 0 < slot_count self.old map }
        ensures served { record { maps = self.new; reply = Answer result }
            ≡ push self.old map bytes.now flags }
        ensures shapes { lengths_of self.new ≡ lengths_of self.old }
    {
        let slots = self.values.slots(map);
        let number = usize::from(map);
        if number >= self.directories.len() {
            return INVALID;
        }
        let slot = self.directories[number].push(slots, flags);
        self.put_in(map, slot, bytes)
    }

    /// Pops a value into `bytes`, or zeros; answers 0 or a negated error number.
    pub fn pop(&mut self, map: u8, bytes: &mut [u8]) -> u64
        requires map { map < count self.old }
        requires long { length bytes.old ≡ value_size self.old map }
        requires some { 0 < slot_count self.old map }
        ensures { record { maps = self.new; reply = Gives bytes.new result } ≡ pop self.old map }
    {
        let slots = self.values.slots(map);
        let number = usize::from(map);
        let slot = if number < self.directories.len() {
            self.directories[number].pop(slots)
        } else {
            Err(INVALID)
        };
        self.give(map, slot, bytes)
    }

    /// Writes the value that `pop` would pop into `bytes`, or zeros; answers 0 or a negated error number.
    pub fn peek(&self, map: u8, bytes: &mut [u8]) -> u64
        requires map { map < count self.now }
        requires long { length bytes.old ≡ value_size self.now map }
        requires some { 0 < slot_count self.now map }
        ensures { record { maps = self.now; reply = Gives bytes.new result } ≡ peek self.now map }
    {
        let slots = self.values.slots(map);
        let slot = match self.directories.get(usize::from(map)) {
            Some(directory) => directory.peek(slots),
            None => Err(INVALID),
        };
        self.give(map, slot, bytes)
    }

    /// The number of maps that have a part beside their elements: all of them, or none where all are
    /// arrays.
    pub fn parts(&self) -> usize
        ensures { result ≡ length self.now.directories }
    {
        self.directories.len()
    }

    /// The number of words that tell the part of a map from any other of its kind and size.
    pub fn part_words(&self, part: usize) -> usize
        requires { part < length self.now.directories }
        ensures { result
            ≡ length (part_words (slice_index_or self.now.directories part Array)) }
    {
        self.directories[part].words()
    }

    /// The word of that number, of those that tell the part of a map from any other.
    pub fn part_word(&self, part: usize, number: usize) -> u64
        requires part { part < length self.now.directories }
        requires number { number
            < length (part_words (slice_index_or self.now.directories part Array)) }
        ensures { result
            ≡ slice_index (part_words (slice_index_or self.now.directories part Array)) number }
    {
        self.directories[part].word(number)
    }

    /// Writes bytes into the slot that was found; answers 0 or the error number.
    fn put_in(&mut self, map: u8, slot: Result<u32, u64>, bytes: &[u8]) -> u64
        requires map { map < count self.old }
        requires long { length bytes.now ≡ value_size self.old map }
        ensures maps { self.new ≡ stored_in self.old map slot bytes.now }
        ensures shapes { lengths_of self.new ≡ lengths_of self.old }
        ensures code { result ≡ code_of slot }
    {
        if let Ok(slot) = slot {
            self.put(map, slot, bytes);
        }
        code_of(slot)
    }

    /// Writes the bytes of the slot that was found into `bytes`, or zeros; answers 0 or the error
    /// number.
    fn give(&self, map: u8, slot: Result<u32, u64>, bytes: &mut [u8]) -> u64
        requires map { map < count self.now }
        requires long { length bytes.old ≡ value_size self.now map }
        requires within { IfOk slot (λ s. s < slot_count self.now map) }
        ensures bytes { bytes.new ≡ bytes_from self.now map slot }
        ensures code { result ≡ code_of slot }
    {
        match slot {
            Ok(slot) => bytes.copy_from_slice(self.values.value(map, slot)),
            Err(_) => bytes.fill(0),
        }
        code_of(slot)
    }
}

/// The answer of a helper that found a slot, or an error number.
fn code_of(slot: Result<u32, u64>) -> u64
    ensures { result ≡ code_of slot }
{
    match slot {
        Ok(_) => 0,
        Err(code) => code,
    }
}

/// The parts of new maps of these shapes beside their elements; none where all are arrays.
fn new_directories(alloc: Global, defs: &MapDefs) -> Result<Vec<Directory>, AllocError>
    ensures { IfOk result (λ directories. directories.items ≡ new_directories defs.now) }
{
    if defs.are_arrays() {
        return Ok(Vec::new(alloc));
    }
    let mut directories = Vec::with_capacity(alloc, defs.count())?;
    for shape in defs.shapes() {
        directories.push(Directory::new(alloc, shape.kind, shape.slots() as u32)?)?;
    }
    Ok(directories)
}

/// Each becomes what the other one is.
fn copy_directories(directories: &mut [Directory], others: &[Directory])
    requires kinds { map kind_of directories.old ≡ map kind_of others.now }
    requires slots { map slots_held directories.old ≡ map slots_held others.now }
    ensures { directories.new ≡ others.now }
{
    for number in 0..others.len() {
        directories[number].copy_from(&others[number]);
    }
}

/// A copy of each, in memory of its own.
fn duplicates(alloc: Global, directories: &[Directory]) -> Result<Vec<Directory>, AllocError>
    ensures { IfOk result (λ copies. copies.items ≡ directories.now) }
{
    let mut copies = Vec::with_capacity(alloc, directories.len())?;
    for directory in directories {
        copies.push(directory.duplicate(alloc)?)?;
    }
    Ok(copies)
}
