ghost use Rattle.std.specs.Prelude.{◌≡◌, ℕ, ◌↔◌, ◌+◌, ◌<◌, ◌≤◌, None, Some, IsTrue, IfOk, length, slice_get, slice_index};
ghost use Rattle.std.specs.Vec.{vec_capacity};
ghost use Rattle.indexmap.specs.IndexMap.{index_map_len, spare};
ghost use Rattle.scx_isa_semantics.specs.Directories.{Keys, Directory, key_added, key_deleted, key_updated, no_keys, slot_of, free_slot, with_key};
ghost use Rattle.scx_maps.specs.Keeping.{live, finds, AreApart, LeadsTo};
ghost use Rattle.scx_maps.specs.Words.{key_words, slot_word};

use crate::codes::{IS_THERE, NOT_THERE, TOO_BIG};
use indexmap::IndexMap;
use std::alloc::{AllocError, Global};
use std::marker::Model;

/// The keys of a hash: the key in each slot, and the slots that are free.
#[derive(Drop)]
pub(crate) struct Keys {
    /// The key in each slot.
    held: Vec<Option<u64>>,
    /// The slots that were freed, the last one last.
    freed: Vec<u32>,
    /// The first slot that was never used.
    used: u32,
    /// The slot of each key that a slot holds, and of keys that were taken out, a slot that they had.
    index: IndexMap<u64, u32>,
}

impl Model for Keys {
    ghost use Rattle.std.specs.Vec.{vec_capacity};
    ghost use Rattle.scx_isa_semantics.specs.Directories.{Keys};
    ghost use Rattle.scx_maps.specs.Keeping.{IsIndexed};

    ghost Value = { Keys };

    ghost view = { λ k. record { held = k.held.items; freed = k.freed.items; used = k.used } };

    ghost invariant = { λ k. IsIndexed k.held.items k.freed.items k.used (vec_capacity k.freed)
        k.index };
}

impl Keys {
    /// No key, and all slots are free.
    pub fn new(alloc: Global, slots: u32) -> Result<Keys, AllocError>
        ensures { IfOk result (λ keys. keys ≡ no_keys slots) }
    {
        let slots = slots as usize;
        let held = vec![in alloc; None; slots]?;
        let freed = Vec::with_capacity(alloc, slots)?;
        let index = IndexMap::with_capacity(alloc, 2 * slots)?;
        Ok(Keys {
            held,
            freed,
            used: 0,
            index,
        })
    }

    /// The number of slots.
    pub fn slots(&self) -> usize
        ensures slots { result ≡ length self.now.held }
        ensures few { result < 4294967296 }
    {
        self.held.len()
    }

    /// The slot that holds the key.
    pub fn slot_of(&self, key: u64) -> Option<u32>
        ensures { result ≡ slot_of self.now.held key }
    {
        let slot = *self.index.get(&key)?;
        if holds(&self.held, slot, key) {
            Some(slot)
        } else {
            None
        }
    }

    /// Updates a key with flags that a hash takes: the slot for its value.
    pub fn update(&mut self, key: u64, flags: u64) -> Result<u32, u64>
        ensures { (of : Keys → Directory)
            → record { directory = of self.new; slot = result }
            ≡ key_updated of self.old key flags (slot_of self.old.held key) }
    {
        match self.slot_of(key) {
            Some(_) if flags == 1 => Err(IS_THERE),
            Some(slot) => Ok(slot),
            None if flags == 2 => Err(NOT_THERE),
            None => self.add(key),
        }
    }

    /// Takes a key out: the slot that it had.
    pub fn delete(&mut self, key: u64) -> Result<u32, u64>
        ensures { (of : Keys → Directory)
            → record { directory = of self.new; slot = result }
            ≡ key_deleted of self.old (slot_of self.old.held key) }
    {
        let Some(slot) = self.slot_of(key) else {
            return Err(NOT_THERE);
        };
        self.held[slot as usize] = None;
        self.freed.push_reserved(slot);
        Ok(slot)
    }

    /// Puts a new key into a free slot.
    fn add(&mut self, key: u64) -> Result<u32, u64>
        requires { slot_of self.old.held key ≡ None }
        ensures { (of : Keys → Directory)
            → record { directory = of self.new; slot = result }
            ≡ key_added of self.old key (free_slot self.old) }
    {
        let Some(slot) = self.free_slot() else {
            return Err(TOO_BIG);
        };
        self.take(slot, key);
        Ok(slot)
    }

    /// The slot that a new key takes.
    fn free_slot(&self) -> Option<u32>
        ensures { result ≡ free_slot self.now }
    {
        if let Some(slot) = self.freed.last() {
            return Some(*slot);
        }
        if (self.used as usize) < self.held.len() {
            Some(self.used)
        } else {
            None
        }
    }

    /// The key is in the free slot from now on.
    fn take(&mut self, slot: u32, key: u64)
        requires free { free_slot self.old ≡ Some slot }
        requires new { slot_of self.old.held key ≡ None }
        ensures { self.new ≡ with_key self.old slot key }
    {
        if self.freed.pop().is_none() {
            self.used += 1;
        }
        note(&mut self.index, &self.held, key, slot);
        self.held[slot as usize] = Some(key);
    }

    /// The word of that number: the first slot that was never used, then whether each slot holds a key,
    /// the keys, and the freed slots.
    pub fn word(&self, number: usize) -> u64
        requires { number < length (key_words self.now) }
        ensures { result ≡ slice_index (key_words self.now) number }
    {
        let slots = self.held.len();
        if number == 0 {
            return u64::from(self.used);
        }
        let place = number - 1;
        if place < slots {
            u64::from(self.held[place].is_some())
        } else if place < 2 * slots {
            self.held[place - slots].unwrap_or(0)
        } else {
            self.freed_word(place - 2 * slots)
        }
    }

    /// The slot that was freed as that one, and 1; 0 if there is none.
    fn freed_word(&self, number: usize) -> u64
        ensures { result ≡ slot_word (slice_get self.now.freed number) }
    {
        match self.freed.get(number) {
            Some(slot) => u64::from(*slot) + 1,
            None => 0,
        }
    }

    /// Becomes what the other one is, which has as many slots. No memory is taken.
    pub fn copy_from(&mut self, other: &Keys)
        requires { length self.old.held ≡ length other.now.held }
        ensures { self.new ≡ other.now }
    {
        self.held.copy_from_slice(&other.held);
        copy_slots(&mut self.freed, &other.freed);
        self.used = other.used;
        index_again(&mut self.index, &self.held);
    }

    /// A copy in memory of its own.
    pub fn duplicate(&self, alloc: Global) -> Result<Keys, AllocError>
        ensures { IfOk result (λ copy. copy ≡ self.now) }
    {
        let mut copy = Keys::new(alloc, self.held.len() as u32)?;
        copy.copy_from(self);
        Ok(copy)
    }
}

/// True if that slot holds the key.
fn holds(held: &[Option<u64>], slot: u32, key: u64) -> bool
    ensures { IsTrue result ↔ (slice_get held.now slot ≡ Some (Some key)) }
{
    match held.get(slot as usize) {
        Some(there) => *there == Some(key),
        None => false,
    }
}

/// Notes the slot of a new key in the index.
fn note(index: &mut IndexMap<u64, u32>, held: &[Option<u64>], key: u64, slot: u32)
    requires led { LeadsTo index.old held.now }
    requires room { length held.now + length held.now ≤ index_map_len index.old + spare index.old }
    requires new { slot_of held.now key ≡ None }
    requires free { live held.now < length held.now }
    requires few { length held.now < 4294967296 }
    ensures noted { finds index.new key ≡ Some slot }
    ensures led { LeadsTo index.new held.now }
    ensures room { length held.now + length held.now ≤ index_map_len index.new + spare index.new }
{
    if let Some(place) = index.get_index_of(&key) {
        index[place] = slot;
    } else {
        make_room(index, held);
        let _ = index.insert(key, slot);
    }
}

/// Makes an index anew that is full of keys that were taken out.
fn make_room(index: &mut IndexMap<u64, u32>, held: &[Option<u64>])
    requires led { LeadsTo index.old held.now }
    requires room { length held.now + length held.now ≤ index_map_len index.old + spare index.old }
    requires free { live held.now < length held.now }
    requires few { length held.now < 4294967296 }
    ensures led { LeadsTo index.new held.now }
    ensures room { length held.now + length held.now ≤ index_map_len index.new + spare index.new }
    ensures spare { 0 < spare index.new }
    ensures absent { (key : ℕ) → slot_of held.now key ≡ None → finds index.old key ≡ None
        → finds index.new key ≡ None }
{
    if index.len() == index.capacity() {
        index_again(index, held);
    }
}

/// Makes the index of the keys that slots hold.
fn index_again(index: &mut IndexMap<u64, u32>, held: &[Option<u64>])
    requires apart { AreApart held.now }
    requires room { length held.now + length held.now ≤ index_map_len index.old + spare index.old }
    requires few { length held.now < 4294967296 }
    ensures led { LeadsTo index.new held.now }
    ensures few { index_map_len index.new ≤ live held.now }
    ensures room { length held.now + length held.now ≤ index_map_len index.new + spare index.new }
    ensures absent { (key : ℕ) → slot_of held.now key ≡ None → finds index.new key ≡ None }
{
    index.clear();
    for (slot, there) in held.iter().enumerate() {
        if let Some(key) = *there {
            let _ = index.insert(key, slot as u32);
        }
    }
}

/// Becomes the same list of slots, for which there is room.
fn copy_slots(slots: &mut Vec<u32>, others: &[u32])
    requires { length others.now ≤ vec_capacity slots.old }
    ensures items { slots.new.items ≡ others.now }
    ensures capacity { vec_capacity slots.new ≡ vec_capacity slots.old }
{
    slots.clear();
    for slot in others {
        slots.push_reserved(*slot);
    }
}
