ghost use Rattle.std.specs.Prelude.{◌≡◌, ◌+◌, ◌/◌, ◌<◌, length, slice_index_or, None};
ghost use Rattle.scx_isa_semantics.specs.Directories.{copies};
ghost use Rattle.scx_isa_semantics.specs.Elements.{count, directory};
ghost use Rattle.scx_isa_semantics.specs.Serving.{slot_count};
ghost use Rattle.scx_maps.specs.Laws.{value_at, listed};
ghost use Rattle.scxsim_output.specs.Texts.{Puts, all_below};
ghost use Rattle.scxsim_simulation.specs.MapLines.{array_lines, copy_line, copy_lines, hash_lines, held_in, held_line, if_there, key_line, kind_lines, map_lines, pop_line, queue_lines, stack_lines, unless_zero};

use crate::map_places::{held_key, key_slots, line_length, slots_of, value_at, value_in_line};
use crate::map_values::{is_nonzero, push_value};
use scx_maps::{MapKind, Maps};
use scxsim_output::Text;

/// The copies of a map that has one for each CPU.
const COPIES: u32 = 64;

/// Appends a line for each element that isn't zero, and for each value that a hash, a queue or a stack has.
#[tactic(auto, using(scxsim_output::proofs::Pieces::puts_next))]
pub fn push_maps(maps: &Maps, text: &mut Text)
    ensures { Puts text.old (map_lines maps.now) text.new }
{
    for map in 0..maps.count() as u8 {
        push_map(maps, map, text);
    }
}

/// Appends the lines of a map.
fn push_map(maps: &Maps, map: u8, text: &mut Text)
    requires { map < count maps.now }
    ensures { Puts text.old (kind_lines maps.now map) text.new }
{
    match maps.kind(map) {
        MapKind::Array => push_array(maps, map, text),
        MapKind::PerCpu => push_copies(maps, map, text),
        MapKind::Hash(_) => push_hash(maps, map, text),
        MapKind::Queue => push_queue(maps, map, text),
        MapKind::Stack => push_stack(maps, map, text),
    }
}

#[tactic(auto, using(scxsim_output::proofs::Pieces::puts_next))]
fn push_array(maps: &Maps, map: u8, text: &mut Text)
    requires { map < count maps.now }
    ensures { Puts text.old (array_lines maps.now map) text.new }
{
    for key in 0..u64::from(slots_of(maps, map)) {
        push_element(maps, map, key, text);
    }
}

/// Appends the line of an element of an array, unless it is zero.
#[tactic(auto, unfolding(crate::specs::MapLines::key_line))]
fn push_element(maps: &Maps, map: u8, key: u64, text: &mut Text)
    requires { map < count maps.now }
    ensures { Puts text.old
        (if_there (unless_zero (key_line map key)) (value_at maps.now map 0 key)) text.new }
{
    if let Some(value) = value_at(maps, map, 0, key) {
        if is_nonzero(value) {
            push_key(map, key, value, text);
        }
    }
}

/// Appends the line of a value under a key.
#[tactic(auto, unfolding(crate::specs::MapLines::key_line))]
fn push_key(map: u8, key: u64, value: &[u8], text: &mut Text)
    ensures { Puts text.old (key_line map key value.now) text.new }
{
    text.number("map ", u64::from(map));
    text.number(" key ", key);
    push_value(value, text);
}

#[tactic(auto, using(scxsim_output::proofs::Pieces::puts_next))]
fn push_copies(maps: &Maps, map: u8, text: &mut Text)
    requires { map < count maps.now }
    ensures { Puts text.old (all_below (copy_lines maps.now map) copies) text.new }
{
    let keys = slots_of(maps, map) / COPIES;
    for cpu in 0..u64::from(COPIES) {
        push_copy(maps, map, cpu, keys, text);
    }
}

/// Appends the lines of a CPU's copy, which has that many keys.
#[tactic(auto, using(scxsim_output::proofs::Pieces::puts_next))]
fn push_copy(maps: &Maps, map: u8, cpu: u64, keys: u32, text: &mut Text)
    requires map { map < count maps.now }
    requires keys { keys ≡ slot_count maps.now map / copies }
    ensures { Puts text.old (copy_lines maps.now map cpu) text.new }
{
    for key in 0..u64::from(keys) {
        push_copied(maps, map, cpu, key, text);
    }
}

/// Appends the line of an element of a CPU's copy, unless it is zero.
#[tactic(auto, unfolding(crate::specs::MapLines::copy_line))]
fn push_copied(maps: &Maps, map: u8, cpu: u64, key: u64, text: &mut Text)
    requires { map < count maps.now }
    ensures { Puts text.old
        (if_there (unless_zero (copy_line map cpu key)) (value_at maps.now map cpu key)) text.new }
{
    if let Some(value) = value_at(maps, map, cpu, key) {
        if is_nonzero(value) {
            text.number("map ", u64::from(map));
            text.number(" cpu ", cpu);
            text.number(" key ", key);
            push_value(value, text);
        }
    }
}

#[tactic(auto, using(scxsim_output::proofs::Pieces::puts_next))]
fn push_hash(maps: &Maps, map: u8, text: &mut Text)
    requires { map < count maps.now }
    ensures { Puts text.old (hash_lines maps.now map) text.new }
{
    for slot in 0..key_slots(maps, map) {
        push_held(maps, map, held_key(maps, map, slot), text);
    }
}

/// Appends the line of a key that a slot holds.
fn push_held(maps: &Maps, map: u8, held: Option<u64>, text: &mut Text)
    requires { map < count maps.now }
    ensures { Puts text.old (held_line maps.now map held) text.new }
{
    if let Some(key) = held {
        if let Some(value) = value_at(maps, map, 0, key) {
            push_key(map, key, value, text);
        }
    }
}

#[tactic(auto, using(scxsim_output::proofs::Pieces::puts_next))]
fn push_queue(maps: &Maps, map: u8, text: &mut Text)
    requires { map < count maps.now }
    ensures { Puts text.old (queue_lines maps.now map) text.new }
{
    let slots = slots_of(maps, map);
    for place in 0..line_length(maps, map) {
        push_pop(map, place + 1, value_in_line(maps, map, slots, place), text);
    }
}

#[tactic(auto, using(scxsim_output::proofs::Pieces::puts_next))]
fn push_stack(maps: &Maps, map: u8, text: &mut Text)
    requires { map < count maps.now }
    ensures { Puts text.old (stack_lines maps.now map) text.new }
{
    let slots = slots_of(maps, map);
    let count = line_length(maps, map);
    for place in 0..count {
        let value = value_in_line(maps, map, slots, count - 1 - place);
        push_pop(map, place + 1, value, text);
    }
}

/// Appends the line of the value that the pop of that number would give.
#[tactic(auto, unfolding(crate::specs::MapLines::pop_line))]
fn push_pop(map: u8, number: u64, value: &[u8], text: &mut Text)
    ensures { Puts text.old (pop_line map number value.now) text.new }
{
    text.number("map ", u64::from(map));
    text.number(" pop ", number);
    push_value(value, text);
}
