ghost use Rattle.std.specs.Prelude.{◌≡◌, ◌+◌, ◌<◌, [], length, slice_index_or, Some, None, MatchOption};
ghost use Rattle.scx_isa_semantics.specs.Elements.{count, directory, element, elements};
ghost use Rattle.scx_isa_semantics.specs.Serving.{slot_count};
ghost use Rattle.scx_maps.specs.Laws.{value_at, listed};
ghost use Rattle.scxsim_simulation.specs.MapLines.{held_in};

use scx_maps::{MapKind, Maps};

/// The number of elements of a map.
pub(crate) fn slots_of(maps: &Maps, map: u8) -> u32
    requires { map < count maps.now }
    ensures { result ≡ slot_count maps.now map }
{
    let mut slots = 0;
    while maps.lookup(map, slots) {
        slots = after(maps, map, slots);
    }
    slots
}

/// The number after that of an element.
#[tactic(auto, using(crate::proofs::Places::few))]
fn after(maps: &Maps, map: u8, index: u32) -> u32
    requires map { map < count maps.now }
    requires index { index < length (elements maps.now map) }
    ensures { result ≡ index + 1 }
{
    let _size = maps.value_size(map, index);
    let _offset = maps.offset(map, index);
    index + 1
}

/// The bytes of an element; none if it isn't there.
fn bytes_of(maps: &Maps, map: u8, index: u32) -> &[u8]
    ensures { result.now ≡ element maps.now map index }
{
    if maps.value_size(map, index) == 0 {
        return &[];
    }
    maps.value(map, index)
}

/// The value under a key, on that CPU.
pub(crate) fn value_at(maps: &Maps, map: u8, cpu: u64, key: u64) -> Option<&[u8]>
    requires { map < count maps.now }
    ensures { MatchOption result (value_at maps.now map cpu key ≡ None)
        (λ value. value_at maps.now map cpu key ≡ Some value.now) }
{
    let slot = maps.seek(map, cpu, key)?;
    Some(bytes_of(maps, map, slot))
}

/// The number of slots of a hash.
pub(crate) fn key_slots(maps: &Maps, map: u8) -> usize
    ensures { result ≡ length (held_in (directory maps.now map)) }
{
    let part = usize::from(map);
    if part >= maps.parts() {
        return 0;
    }
    match maps.kind(map) {
        MapKind::Hash(_) => maps.part_words(part) / 3,
        _ => 0,
    }
}

/// The key that a slot of a hash holds.
pub(crate) fn held_key(maps: &Maps, map: u8, slot: usize) -> Option<u64>
    requires { slot < length (held_in (directory maps.now map)) }
    ensures { result ≡ slice_index_or (held_in (directory maps.now map)) slot None }
{
    let part = usize::from(map);
    let slots = maps.part_words(part) / 3;
    if maps.part_word(part, 1 + slot) == 0 {
        return None;
    }
    Some(maps.part_word(part, 1 + slots + slot))
}

/// The number of values of a queue or a stack.
pub(crate) fn line_length(maps: &Maps, map: u8) -> u64
    ensures { result ≡ length (listed maps.now map) }
{
    let part = usize::from(map);
    if part >= maps.parts() {
        return 0;
    }
    match maps.kind(map) {
        MapKind::Queue | MapKind::Stack => maps.part_word(part, 1),
        _ => 0,
    }
}

/// The value at a place of a queue or a stack with that many slots; the place of the oldest is 0.
pub(crate) fn value_in_line(maps: &Maps, map: u8, slots: u32, place: u64) -> &[u8]
    requires map { map < count maps.now }
    requires slots { slots ≡ slot_count maps.now map }
    requires place { place < length (listed maps.now map) }
    ensures { result.now ≡ slice_index_or (listed maps.now map) place [] }
{
    let first = maps.part_word(usize::from(map), 0);
    if slots == 0 {
        return &[];
    }
    let turned = u128::from(first) + u128::from(place);
    bytes_of(maps, map, (turned % u128::from(slots)) as u32)
}
