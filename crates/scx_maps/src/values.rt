ghost use Rattle.std.specs.Prelude.{◌≡◌, ℕ, ◌≤◌, ◌<◌, ◌+◌, ◌↔◌, List, [], length, IsTrue, IfOk};
ghost use Rattle.std.specs.Borrow.{sem};
ghost use Rattle.scx_isa_semantics.specs.Elements.{slots_in, slot_in, with_slot, number_at, with_number};
ghost use Rattle.scx_maps.specs.Contents.{zero_contents, lengths_in, HaveShapes};
ghost use Rattle.scx_isa_semantics.specs.Calls.{over};
ghost use Rattle.scx_isa_semantics.specs.Memory.{size_bytes};
ghost use Rattle.scx_maps.specs.Lending.{LendsValue, given_back, shapes_in, bytes_of};
ghost use Rattle.scx_maps.specs.Keeping.{HaveSameCounts};
ghost use Rattle.scx_maps.specs.Layout.{contents_in, offset_of};

use crate::defs::{MAX_BYTES, MAX_MAPS, MapDefs};
use crate::layout::Layout;
use crate::shape::MAX_VALUE_SIZE;
use scx_isa_semantics::{Size, read_number, write_number};
use std::alloc::{AllocError, Global};
use std::marker::Model;

/// The values of a policy's maps, in one block. Maps and elements are numbered from 0.
///
/// In a contract it is the list of the maps, each the list of its elements, each the list of its
/// bytes.
#[derive(Drop)]
pub(crate) struct Values {
    layout: Layout,
    block: Vec<u8>,
}

impl Model for Values {
    ghost use Rattle.std.specs.Prelude.{ℕ, List};
    ghost use Rattle.scx_maps.specs.Layout.{contents_in, IsBlockOf};

    ghost Value = { List (List (List ℕ)) };

    ghost view = { λ m. contents_in m.layout m.block.items };

    ghost invariant = { λ m. IsBlockOf m.layout m.block.items };
}

impl Values {
    /// Maps of the given shapes, all bytes 0.
    pub fn new(alloc: Global, defs: &MapDefs) -> Result<Values, AllocError>
        ensures zeros { IfOk result (λ maps. maps ≡ zero_contents defs.now) }
        ensures shapes { IfOk result (λ maps. HaveShapes defs.now maps) }
    {
        let layout = Layout::new(defs);
        let block = vec![in alloc; 0; layout.bytes()]?;
        Ok(Values { layout, block })
    }

    /// No maps at all, which takes no memory.
    pub fn none(alloc: Global) -> Values
        ensures { result ≡ [] }
    {
        Values {
            layout: Layout::none(),
            block: Vec::new(alloc),
        }
    }

    /// The number of maps.
    pub fn count(&self) -> usize
        ensures count { result ≡ length self.now }
        ensures most { length self.now ≤ MAX_MAPS }
    {
        self.layout.count()
    }

    /// True if the map has an element with this key.
    pub fn lookup(&self, map: u8, key: u32) -> bool
        requires { map < length self.now }
        ensures { IsTrue result ↔ (key < length (slots_in self.now map)) }
    {
        (key as usize) < self.layout.shape(map).slots()
    }

    /// The size of an element in bytes; 0 if there is no such element.
    pub fn value_size(&self, map: u8, index: u32) -> u16
        ensures size { result ≡ length (slot_in self.now map index) }
        ensures is_there { 0 < result
            → (map < length self.now) × (index < length (slots_in self.now map)) }
        ensures most { result ≤ MAX_VALUE_SIZE }
        ensures some { map < length self.now → 0 < length (slot_in self.now map 0) }
    {
        if usize::from(map) < self.count() && self.lookup(map, index) {
            self.layout.value_size(map)
        } else {
            0
        }
    }

    /// The bytes of an element.
    pub fn value(&self, map: u8, index: u32) -> &[u8]
        requires map { map < length self.now }
        requires index { index < length (slots_in self.now map) }
        ensures value { result.now ≡ slot_in self.now map index }
        ensures long { length result.now ≡ length (slot_in self.now map 0) }
    {
        let start = self.layout.offset(map, index);
        let size = self.layout.shape(map).value_size as usize;
        &self.block[start..start + size]
    }

    /// The bytes of an element, for writing. What the slice holds when it is given back, with its length
    /// as it was, is what the element then has; nothing else changes.
    pub fn value_mut(&mut self, map: u8, index: u32) -> &mut [u8]
        requires map { map < length self.old }
        requires index { index < length (slots_in self.old map) }
        ensures* writes_back { sem 𝓛 (LendsValue self.entry map index result) }
        ensures value { result.now ≡ slot_in self.old map index }
        ensures long { length result.now ≡ length (slot_in self.old map 0) }
        ensures changes { (bytes : List ℕ) → length bytes ≡ length result.now
            → given_back self.old map index bytes ≡ with_slot self.old map index bytes }
        ensures shapes { (bytes : List ℕ) → length bytes ≡ length result.now
            → lengths_in (with_slot self.old map index bytes) ≡ lengths_in self.old }
    {
        let start = self.layout.offset(map, index);
        let size = self.layout.shape(map).value_size as usize;
        self.block.slice_mut(start..start + size)
    }

    /// The number in an element at a byte, low byte first.
    pub fn load(&self, map: u8, index: u32, offset: u16, size: Size) -> u64
        requires map { map < length self.now }
        requires index { index < length (slots_in self.now map) }
        requires offset { offset + size_bytes size ≤ length (slot_in self.now map index) }
        ensures { result ≡ number_at (slot_in self.now map index) offset (size_bytes size) }
    {
        read_number(self.value(map, index), offset as usize, size)
    }

    /// Writes the lowest bytes of a number into an element at a byte, low byte first.
    pub fn store(&mut self, map: u8, index: u32, offset: u16, size: Size, number: u64)
        requires map { map < length self.old }
        requires index { index < length (slots_in self.old map) }
        requires offset { offset + size_bytes size ≤ length (slot_in self.old map index) }
        ensures stored { let value = slot_in self.old map index in
            self.new ≡ with_slot self.old map index
            (with_number value offset (size_bytes size) number) }
        ensures shapes { lengths_in self.new ≡ lengths_in self.old }
    {
        write_number(self.value_mut(map, index), offset as usize, size, number);
    }

    /// The byte at which an element begins, among the bytes of all maps.
    pub fn offset(&self, map: u8, index: u32) -> usize
        requires map { map < length self.now }
        requires index { index < length (slots_in self.now map) }
        ensures offset { result ≡ offset_of (shapes_in self.now) map index }
        ensures small { result ≤ MAX_BYTES }
    {
        self.layout.offset(map, index)
    }

    /// The bytes of all maps, one element after the other.
    pub fn bytes(&self) -> &[u8]
        ensures { result.now ≡ bytes_of self.now }
    {
        &self.block
    }

    /// Becomes what the other one is, whose maps have the same shapes. No memory is taken.
    pub fn copy_from(&mut self, other: &Values)
        requires { lengths_in self.old ≡ lengths_in other.now }
        ensures { self.new ≡ other.now }
    {
        self.block.copy_from_slice(&other.block);
    }

    /// A copy of the maps, in memory of its own.
    pub fn duplicate(&self, alloc: Global) -> Result<Values, AllocError>
        ensures { IfOk result (λ copy. copy ≡ self.now) }
    {
        let block = Vec::from_slice(alloc, &self.block)?;
        Ok(Values {
            layout: self.layout.duplicate(),
            block,
        })
    }

    /// Writes the lowest bytes of a number from a byte of all maps on, low byte first.
    pub fn store_at(&mut self, offset: usize, size: Size, number: u64)
        requires { offset + size_bytes size ≤ length (bytes_of self.old) }
        ensures counts { HaveSameCounts self.new self.old }
        ensures stored { self.new
            ≡ contents_in (shapes_in self.old)
            (with_number (bytes_of self.old) offset (size_bytes size) number) }
    {
        write_number(&mut self.block, offset, size, number);
    }

    /// The number of elements of a map.
    pub fn slots(&self, map: u8) -> u32
        requires { map < length self.now }
        ensures { result ≡ length (slots_in self.now map) }
    {
        self.layout.shape(map).slots() as u32
    }

    /// Writes bytes over an element, if the map has one of that number.
    pub fn put(&mut self, map: u8, index: u32, bytes: &[u8])
        requires map { map < length self.old }
        requires long { length bytes.now ≡ length (slot_in self.old map 0) }
        ensures put { self.new ≡ with_slot self.old map index bytes.now }
        ensures shapes { lengths_in self.new ≡ lengths_in self.old }
    {
        if self.lookup(map, index) {
            self.value_mut(map, index).copy_from_slice(bytes);
        }
    }

    /// Writes bytes over those of an element from a byte on.
    pub fn write(&mut self, map: u8, index: u32, offset: u16, bytes: &[u8])
        requires map { map < length self.old }
        requires index { index < length (slots_in self.old map) }
        requires offset { offset + length bytes.now ≤ length (slot_in self.old map index) }
        ensures written { self.new
            ≡ with_slot self.old map index (over (slot_in self.old map index) offset bytes.now) }
        ensures shapes { lengths_in self.new ≡ lengths_in self.old }
    {
        let start = usize::from(offset);
        self.value_mut(map, index)[start..start + bytes.len()].copy_from_slice(bytes);
    }

    /// Writes bytes from a byte of all maps on.
    pub fn write_at(&mut self, offset: usize, bytes: &[u8])
        requires { offset + length bytes.now ≤ length (bytes_of self.old) }
        ensures counts { HaveSameCounts self.new self.old }
        ensures written { self.new
            ≡ contents_in (shapes_in self.old) (over (bytes_of self.old) offset bytes.now) }
    {
        self.block[offset..offset + bytes.len()].copy_from_slice(bytes);
    }
}
