ghost use Rattle.std.specs.Prelude.{◌≡◌, pos, ◌+ℤ◌, ◌-ℤ◌, IfSome};
ghost use Rattle.scx_abs.specs.Checks.{element_size};
ghost use Rattle.scx_verify_explain.specs.Places.{stack_place, place_of, one_distance, distances_in, distances_of};
ghost use Rattle.scx_verify_explain.specs.Places.{place_at_distances, reach_of, value_reach, stack_bytes, IsNear, AreShort};

use crate::named::{Address, ValueBytes};
use scx_abs::{AbsState, Kind};
use scx_abs_ranges::{Offsets, Range};
use scx_isa::{Operand, Operation, STACK_SIZE, Width};
use scx_isa_semantics::pointer_step;
use scx_maps::MapDefs;

/// Memory that an address means.
#[derive(Clone, Copy)]
pub enum Memory {
    Stack,
    /// An element of that map, of `bytes` bytes.
    Element { map: u8, bytes: i64 },
}

/// Where a pointer points, or would: to one of these bytes of memory.
#[derive(Clone, Copy)]
pub struct Place {
    pub memory: Memory,
    /// The first of them: from the top of the stack, or from the beginning of an element.
    pub from: i128,
    /// The last of them.
    pub to: i128,
    /// From one of them to the next it is two to this power, 0 to 3, where there are more than one.
    pub shift: u8,
}

/// Bytes that an instruction would read or write.
#[derive(Clone, Copy)]
pub struct Reach {
    /// Where the first of them is.
    pub place: Place,
    pub count: u16,
}

/// The numbers of bytes by which a pointer may be moved.
#[derive(Clone, Copy)]
pub(crate) struct Distances {
    least: i128,
    most: i128,
    /// From one of them to the next it is two to this power.
    shift: u8,
}

impl Distances {
    /// By that many bytes in any case.
    fn one(bytes: i64) -> Distances
        ensures distances { result ≡ one_distance bytes }
        ensures short { AreShort result }
    {
        Distances {
            least: i128::from(bytes),
            most: i128::from(bytes),
            shift: 3,
        }
    }
}

impl Place {
    /// True if it is one byte alone.
    pub fn is_single(self) -> bool {
        self.from == self.to
    }

    /// The place that far on.
    pub(crate) fn place_at_distances(self, distances: Distances) -> Place
        requires near { IsNear self }
        requires short { AreShort distances }
        ensures { result ≡ place_at_distances self distances }
    {
        Place {
            memory: self.memory,
            from: self.from + distances.least,
            to: self.to + distances.most,
            shift: self.shift.min(distances.shift),
        }
    }
}

/// Where a pointer of that kind points.
pub(crate) fn place_of(kind: Kind, defs: &MapDefs) -> Option<Place>
    ensures place { result ≡ place_of defs.now kind }
    ensures near { IfSome result IsNear }
{
    match kind {
        Kind::Stack(at) => Some(place_on_stack(at)),
        Kind::Elem(map, offsets) => {
            Some(place_in_element(map, element_size(map, defs), offsets))
        }
        _ => None,
    }
}

fn place_on_stack(at: u16) -> Place
    ensures place { result ≡ stack_place at }
    ensures near { IsNear result }
{
    let from_top = i128::from(at) - i128::from(STACK_SIZE);
    Place {
        memory: Memory::Stack,
        from: from_top,
        to: from_top,
        shift: 0,
    }
}

fn place_in_element(map: u8, bytes: u32, offsets: Offsets) -> Place
    ensures place { result ≡ record {
      memory = Memory.Element map (pos bytes);
      from = pos offsets.low;
      to = pos offsets.high;
      shift = offsets.shift;
    } }
    ensures near { IsNear result }
{
    let Range { low, high, shift } = offsets.range();
    Place {
        memory: Memory::Element {
            map,
            bytes: i64::from(bytes),
        },
        from: i128::from(low),
        to: i128::from(high),
        shift,
    }
}

/// The size in bytes of a map's values; 0 if there is no such map.
fn element_size(map: u8, defs: &MapDefs) -> u32
    ensures { result ≡ element_size defs.now map }
{
    match defs.shape(map) {
        Some(shape) => shape.value_size,
        None => 0,
    }
}

/// The bytes that an address means.
pub(crate) fn reach_of(state: &AbsState, address: Address, defs: &MapDefs) -> Option<Reach>
    ensures { result ≡ reach_of defs.now state.now address }
{
    let distances = Distances::one(i64::from(address.offset));
    match place_of(state.kind(address.base), defs) {
        Some(place) => Some(Reach {
            place: place.place_at_distances(distances),
            count: address.size.bytes(),
        }),
        None => None,
    }
}

/// The bytes of a value, if its register holds a pointer to memory.
pub(crate) fn value_reach(state: &AbsState, value: ValueBytes, defs: &MapDefs) -> Option<Reach>
    ensures { result ≡ value_reach defs.now state.now value }
{
    match place_of(state.kind(value.base), defs) {
        Some(place) => Some(Reach {
            place,
            count: value.count,
        }),
        None => None,
    }
}

/// `count` bytes of the stack, from `first` on.
pub(crate) fn stack_bytes(first: u16, count: u16) -> Reach
    ensures { result ≡ stack_bytes first count }
{
    Reach {
        place: place_on_stack(first),
        count,
    }
}

/// The distances by which an operation may move a pointer.
pub(crate) fn distances_of(
    state: &AbsState,
    width: Width,
    operation: Operation,
    operand: Operand,
) -> Option<Distances>
    ensures distances { result ≡ distances_of state.now width operation operand }
    ensures short { IfSome result AreShort }
{
    match operand {
        Operand::Immediate(_) => match pointer_step(width, operation, operand) {
            Some(bytes) => Some(Distances::one(bytes)),
            None => None,
        },
        Operand::Register(source) => distances_in(state.kind(source)),
    }
}

/// As many bytes as a number of that kind says.
fn distances_in(kind: Kind) -> Option<Distances>
    ensures distances { result ≡ distances_in kind }
    ensures short { IfSome result AreShort }
{
    match kind {
        Kind::Num(numbers) => {
            let Range { low, high, shift } = numbers.range();
            Some(Distances {
                least: i128::from(low),
                most: i128::from(high),
                shift,
            })
        }
        _ => None,
    }
}
