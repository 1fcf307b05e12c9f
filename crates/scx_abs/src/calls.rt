ghost use Rattle.std.specs.Prelude.{◌≡◌, ◌+◌, ◌/◌, ◌%◌, ◌<◌, ◌≤◌, nat_le, nat_lt, List, Ok, Err, drop, if◌then◌else◌};
ghost use Rattle.scx_isa_semantics.specs.HostTables.{parameters, helper_known};
ghost use Rattle.scx_abs.specs.Changes.{went_on};
ghost use Rattle.scx_abs.specs.Calls.{map_at_hand, kind_of_map, key_size_at_hand, value_bytes_at_hand, key_in, key_check, room_check, are_written, value_check, task_check, takes_shape, map_check, number_check, takes, argument_check, arguments_check, element_of, answer_kind, gives_value, call_allowed, call_rule, IsMapParameter};
ghost use Rattle.scx_maps.specs.declared.shape.Shape.{Shape};
ghost use Rattle.scx_abs.specs.declared.faults.Why.TheVariants.{OutOfBounds};
ghost use Rattle.scx_abs.specs.declared.kinds.Kind.TheVariants as Kind;
ghost use Rattle.scx_isa_semantics.specs.Memory.{size_bytes};
ghost use Rattle.scx_maps.specs.Layout.{shape_at};
ghost use Rattle.scx_maps.specs.Slots.{slots};
ghost use Rattle.scx_abs.specs.Cells.{is_written, written_in};
ghost use Rattle.scx_abs.specs.States.{kind_at, cell_at};

use crate::changes::Change;
use crate::faults::Why;
use crate::kinds::{CELL_BYTES, Cell, Kind, all_written};
use crate::offsets::{check_offsets, element_size, offset_for};
use crate::states::AbsState;
use scx_abs_ranges::Numbers;
use scx_isa::{Helper, MapHelper, Parameter, Register, STACK_SIZE, Size};
use scx_maps::{KeySize, MapDefs, MapKind};
use scx_vm::Context;

/// The change that a call makes. It is checked in this order: the helper exists, it may be called
/// here, and each argument is of the kind that it takes.
pub fn called(state: &AbsState, number: i32, context: &Context) -> Result<Change, Why>
    ensures { went_on state.now result
        ≡ call_rule context.now.defs context.now.callback (helper_known context.now.rules number) state.now }
{
    let Some(helper) = Helper::known(number, context.rules) else {
        return Err(Why::UnknownHelper);
    };
    if !helper.is_allowed(context.callback) {
        return Err(Why::HelperNotHere);
    }
    call_allowed(state, helper, &context.defs)
}

/// The change that the call of an allowed helper makes.
fn call_allowed(state: &AbsState, helper: Helper, defs: &MapDefs) -> Result<Change, Why>
    ensures { went_on state.now result ≡ call_allowed defs.now helper state.now }
{
    check_arguments(state, helper, 0, defs)?;
    let answer = answer_kind(helper, state.kind(Register::R1));
    match (gives_value(helper), state.kind(Register::R2)) {
        (true, Kind::Stack(at)) => Ok(Change::Filled(answer, at, value_bytes(state, defs))),
        _ => Ok(Change::Called(answer)),
    }
}

/// True if the helper writes a value to which r2 points.
fn gives_value(helper: Helper) -> bool
    ensures { result ≡ gives_value helper }
{
    matches!(helper, Helper::OnMap(MapHelper::Pop | MapHelper::Peek))
}

/// The map to which r1 refers, or the first one.
pub fn map_at_hand(state: &AbsState) -> u8
    ensures { result ≡ map_at_hand state.now }
{
    match state.kind(Register::R1) {
        Kind::MapRef(map) => map,
        _ => 0,
    }
}

/// The kind of a map; that of an array if there is no map of that number.
#[tactic(auto, using(crate::proofs::MapShapes::no_kind))]
pub fn kind_of_map(defs: &MapDefs, map: u8) -> MapKind
    ensures { result ≡ kind_of_map defs.now map }
{
    match defs.shape(map) {
        Some(shape) => shape.kind,
        None => MapKind::Array,
    }
}

/// The size of a key of the map at hand.
pub fn key_size_at_hand(state: &AbsState, defs: &MapDefs) -> Size
    ensures { result ≡ key_size_at_hand defs.now state.now }
{
    match kind_of_map(defs, map_at_hand(state)) {
        MapKind::Hash(KeySize::Eight) => Size::DoubleWord,
        _ => Size::Word,
    }
}

/// The number of bytes of a value of the map at hand.
fn value_bytes(state: &AbsState, defs: &MapDefs) -> u16
    ensures { result ≡ value_bytes_at_hand defs.now state.now }
{
    element_size(defs, map_at_hand(state))
}

/// Checks the arguments of a helper from that one on, counted from 0.
fn check_arguments(
    state: &AbsState,
    helper: Helper,
    argument: usize,
    defs: &MapDefs,
) -> Result<(), Why>
    ensures { result
        ≡ arguments_check defs.now state.now (drop argument (parameters helper)) (argument + 1) }
{
    let Some(parameter) = helper.parameter(argument) else {
        return Ok(());
    };
    let kind = state.kind_of(argument + 1);
    check_argument(state, parameter, kind, defs)?;
    check_arguments(state, helper, argument + 1, defs)
}

/// Checks one argument.
fn check_argument(
    state: &AbsState,
    parameter: Parameter,
    kind: Kind,
    defs: &MapDefs,
) -> Result<(), Why>
    ensures { result ≡ argument_check defs.now state.now parameter kind }
{
    if kind == Kind::Unusable {
        return Err(Why::UnusableRegister);
    }
    match parameter {
        Parameter::Map | Parameter::PerCpuMap | Parameter::LineMap => {
            check_map(parameter, kind, defs)
        }
        Parameter::Key => check_key(state, key_size_at_hand(state, defs), kind, defs),
        Parameter::Value => check_value(state, value_bytes(state, defs), kind, defs),
        Parameter::Room => check_room(value_bytes(state, defs), kind, defs),
        Parameter::Task => check_task(kind),
        Parameter::Number => check_number(kind),
    }
}

fn check_map(parameter: Parameter, kind: Kind, defs: &MapDefs) -> Result<(), Why>
    requires { IsMapParameter parameter }
    ensures { result ≡ map_check defs.now parameter kind }
{
    match kind {
        Kind::MapRef(map) if takes_shape(parameter, map, defs) => Ok(()),
        _ => Err(Why::BadArgument),
    }
}

/// True if a helper's parameter takes that map.
pub fn takes_shape(parameter: Parameter, map: u8, defs: &MapDefs) -> bool
    ensures { result ≡ takes_shape parameter (shape_at defs.now map) }
{
    let fits = parameter.fits_map(kind_of_map(defs, map));
    match parameter {
        Parameter::LineMap => fits && has_elements(defs, map),
        _ => fits,
    }
}

/// True if the map has elements.
#[tactic(auto, using(crate::proofs::MapShapes::no_shape))]
fn has_elements(defs: &MapDefs, map: u8) -> bool
    ensures { result ≡ nat_lt 0 (slots (shape_at defs.now map)) }
{
    match defs.shape(map) {
        Some(shape) => shape.entries > 0,
        None => false,
    }
}

fn check_task(kind: Kind) -> Result<(), Why>
    ensures { result ≡ task_check kind }
{
    match kind {
        Kind::Task => Ok(()),
        Kind::TaskOrNull => Err(Why::NullNotTested),
        _ => Err(Why::BadArgument),
    }
}

fn check_number(kind: Kind) -> Result<(), Why>
    ensures { result ≡ number_check kind }
{
    match kind {
        Kind::Num(_) => Ok(()),
        _ => Err(Why::BadArgument),
    }
}

/// A key is in the stack or in an element.
#[tactic(auto, using(crate::proofs::Bytes::fits_cell))]
fn check_key(state: &AbsState, size: Size, kind: Kind, defs: &MapDefs) -> Result<(), Why>
    ensures { result ≡ key_check defs.now state.now (size_bytes size) kind }
{
    match kind {
        Kind::Stack(at) => {
            let at = usize::from(offset_for(STACK_SIZE, size, Some(u64::from(at)))?);
            key_in(state.cell(at / CELL_BYTES), at % CELL_BYTES, size)
        }
        Kind::Elem(map, offsets) => check_offsets(element_size(defs, map), size, offsets, 0),
        Kind::ElemOrNull(_) => Err(Why::NullNotTested),
        _ => Err(Why::BadArgument),
    }
}

/// A value is in the stack or in an element, and its bytes are known to be numbers.
fn check_value(state: &AbsState, bytes: u16, kind: Kind, defs: &MapDefs) -> Result<(), Why>
    ensures { result ≡ value_check defs.now state.now bytes kind }
{
    match kind {
        Kind::Stack(at) => check_stack_value(state, at, bytes),
        _ => check_room(bytes, kind, defs),
    }
}

/// The bytes from an offset on are in the stack, and are known to be numbers.
fn check_stack_value(state: &AbsState, at: u16, bytes: u16) -> Result<(), Why>
    ensures { (shapes : List Shape) → result ≡ value_check shapes state.now bytes (Kind.Stack at) }
{
    within_memory(u32::from(at), bytes, STACK_SIZE)?;
    if are_written(state, at, bytes) {
        Ok(())
    } else {
        Err(Why::UnwrittenStack)
    }
}

/// The bytes are in the stack or in an element.
fn check_room(bytes: u16, kind: Kind, defs: &MapDefs) -> Result<(), Why>
    ensures { result ≡ room_check defs.now bytes kind }
{
    match kind {
        Kind::Stack(at) => within_memory(u32::from(at), bytes, STACK_SIZE),
        Kind::Elem(map, offsets) => {
            within_memory(u32::from(offsets.high()), bytes, element_size(defs, map))
        }
        Kind::ElemOrNull(_) => Err(Why::NullNotTested),
        _ => Err(Why::BadArgument),
    }
}

/// The bytes from an offset on lie in memory of that size.
fn within_memory(at: u32, bytes: u16, size: u16) -> Result<(), Why>
    ensures { result ≡ if nat_le (at + bytes) size then Ok tt else Err OutOfBounds }
{
    if u64::from(at) + u64::from(bytes) <= u64::from(size) {
        Ok(())
    } else {
        Err(Why::OutOfBounds)
    }
}

/// True if numbers are known to be in that many bytes of the stack, from one on.
fn are_written(state: &AbsState, at: u16, count: u16) -> bool
    requires { at + count ≤ STACK_SIZE }
    ensures { result ≡ are_written state.now at count }
{
    for byte in usize::from(at)..usize::from(at) + usize::from(count) {
        if !is_written(state, byte) {
            return false;
        }
    }
    true
}

/// True if a number is known to be in that byte of the stack.
fn is_written(state: &AbsState, at: usize) -> bool
    requires { at < STACK_SIZE }
    ensures { result ≡ is_written (written_in (cell_at state.now (at / 8))) (at % 8) }
{
    let written = state.cell(at / CELL_BYTES).written();
    written[at % CELL_BYTES]
}

/// Bytes of a cell, from one on, are known to hold numbers.
fn key_in(cell: Cell, byte: usize, size: Size) -> Result<(), Why>
    requires { byte + size_bytes size ≤ CELL_BYTES }
    ensures { result ≡ key_in cell byte (size_bytes size) }
{
    if all_written(cell.written(), byte, usize::from(size.bytes())) {
        Ok(())
    } else {
        Err(Why::UnwrittenStack)
    }
}

/// The kind of a helper's answer, by that of its first argument.
fn answer_kind(helper: Helper, first: Kind) -> Kind
    ensures { result ≡ answer_kind helper first }
{
    match helper {
        Helper::MapLookupElem | Helper::OnMap(MapHelper::LookUpPerCpu) => element_of(first),
        _ if helper.answers_task() => Kind::TaskOrNull,
        _ => Kind::Num(Numbers::all()),
    }
}

/// An element of the map, or 0.
fn element_of(map: Kind) -> Kind
    ensures { result ≡ element_of map }
{
    match map {
        Kind::MapRef(map) => Kind::ElemOrNull(map),
        _ => Kind::Unusable,
    }
}
