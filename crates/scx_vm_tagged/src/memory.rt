ghost use Rattle.std.specs.Prelude.{◌≡◌, ◌+◌, ◌%◌, ◌<◌, ◌≤◌, nat_le, IfSome};
ghost use Rattle.scx_isa_semantics.specs.Calls.{region};
ghost use Rattle.scx_isa_semantics.specs.Arithmetic.{at_distance};
ghost use Rattle.scx_isa_semantics.specs.Elements.{element, number_at};
ghost use Rattle.scx_isa_semantics.specs.Memory.{aligned_within, size_bytes, access_size, read_as};
ghost use Rattle.scx_isa_semantics.specs.Locations.{address};
ghost use Rattle.scx_vm_tagged.specs.Locations.{location_of, Lies, LiesInElement};
ghost use Rattle.scx_vm_tagged.specs.MapCalls.{HasBytes};

use scx_isa::{Access, Field, Pointer, STACK_SIZE, Size, TaskId, Value};
use scx_isa_semantics::{read, shifted};
use scx_maps::Maps;

/// The location that an address means.
#[derive(Clone, Copy)]
pub enum Location {
    Nowhere,
    /// The byte of the stack.
    OnStack(u16),
    /// The map, the element's index, and the byte within the element.
    InElement(u8, u32, u16),
    InTask(TaskId, Field),
}

/// The location that an address means, for that many bytes.
#[inline(always)]
pub fn address(maps: &Maps, base: Value, offset: i16, size: Size) -> Location
    ensures location { address maps.now base offset (size_bytes size) ≡ location_of result }
    ensures lies { Lies maps.now (size_bytes size) result }
{
    match base {
        Value::Pointer(Pointer::Stack(at)) => match aligned_within(STACK_SIZE, size, at, offset) {
            Some(at) => Location::OnStack(at),
            None => Location::Nowhere,
        },
        Value::Pointer(
            Pointer::Element {
                map,
                index,
                offset: at,
            },
        ) => {
            match aligned_within(maps.value_size(map, index), size, at, offset) {
                Some(at) => Location::InElement(map, index, at),
                None => Location::Nowhere,
            }
        }
        Value::Pointer(Pointer::Task(task)) => match Field::at(offset, size) {
            Some(field) => Location::InTask(task, field),
            None => Location::Nowhere,
        },
        Value::Pointer(Pointer::Map(_)) | Value::Number(_) | Value::Unset => Location::Nowhere,
    }
}

/// The offset that far from another, if that many bytes from it on lie in so much memory and it is a
/// multiple of them.
fn aligned_within(limit: u16, size: Size, at: u16, offset: i16) -> Option<u16>
    ensures offset { result ≡ aligned_within limit (size_bytes size) (at_distance at offset) }
    ensures within { IfSome result (λ to. to + size_bytes size ≤ limit) }
    ensures aligned { IfSome result (λ to. to % size_bytes size ≡ 0) }
{
    let bytes = u64::from(size.bytes());
    match (
        shifted(at, i64::from(offset)),
        u64::from(limit).checked_sub(bytes),
    ) {
        (Some(to), Some(last)) if to <= last && to % bytes == 0 => Some(to as u16),
        _ => None,
    }
}

/// The location of that many bytes to which a value points, on the stack or in an element.
pub fn region(maps: &Maps, base: Value, count: u16) -> Location
    requires { 0 < count }
    ensures location { region maps.now base count ≡ location_of result }
    ensures has { HasBytes maps.now count result }
{
    match base {
        Value::Pointer(Pointer::Stack(at)) => {
            if fits(at, count, STACK_SIZE) {
                Location::OnStack(at)
            } else {
                Location::Nowhere
            }
        }
        Value::Pointer(
            Pointer::Element {
                map,
                index,
                offset: at,
            },
        ) => {
            if fits(at, count, maps.value_size(map, index)) {
                Location::InElement(map, index, at)
            } else {
                Location::Nowhere
            }
        }
        Value::Pointer(Pointer::Task(_) | Pointer::Map(_)) | Value::Number(_) | Value::Unset => {
            Location::Nowhere
        }
    }
}

/// True if that many bytes from an offset on lie in memory of that size.
fn fits(at: u16, count: u16, size: u16) -> bool
    ensures { result ≡ nat_le (at + count) size }
{
    u32::from(at) + u32::from(count) <= u32::from(size)
}

/// The number that a load reads in a map value.
pub fn element_number(maps: &Maps, map: u8, index: u32, at: u16, access: Access) -> u64
    requires { LiesInElement maps.now map index at (size_bytes (access_size access)) }
    ensures { result
        ≡ read_as access
        (number_at (element maps.now map index) at (size_bytes (access_size access))) }
{
    read(maps.value(map, index), access, usize::from(at))
}
