ghost use Rattle.std.specs.Prelude.{◌≡◌, ◌≤◌, IfOk};
ghost use Rattle.scx_isa_semantics.specs.Memory.{size_bytes};
ghost use Rattle.scx_abs.specs.Areas.{IsAlignedWithin};
ghost use Rattle.scx_abs.specs.Checks.{element_size, offset_within, offset_for, offsets_for};

use crate::faults::Why;
use scx_abs_ranges::Offsets;
use scx_isa::Size;
use scx_isa_semantics::within;
use scx_maps::MapDefs;

/// The size in bytes of a map's values; 0 if there is no such map.
pub(crate) fn element_size(defs: &MapDefs, map: u8) -> u16
    ensures { result ≡ element_size defs.now map }
{
    match defs.shape(map) {
        Some(shape) => shape.value_size as u16,
        None => 0,
    }
}

/// The offset, if it lies in that many bytes of memory or right after the last.
pub(crate) fn offset_within(bytes: u16, at: Option<u64>) -> Result<u16, Why>
    ensures { result ≡ offset_within bytes at }
{
    within(bytes, at).ok_or(Why::OutOfBounds)
}

/// The offset, if an access of that size there lies in that many bytes of memory and is aligned.
pub(crate) fn offset_for(bytes: u16, size: Size, at: Option<u64>) -> Result<u16, Why>
    ensures offset { result ≡ offset_for bytes (size_bytes size) at }
    ensures aligned { IfOk result (IsAlignedWithin bytes (size_bytes size)) }
{
    let step = u64::from(size.bytes());
    match (at, u64::from(bytes).checked_sub(step)) {
        (Some(at), Some(last)) if at <= last && at % step == 0 => Ok(at as u16),
        (Some(at), Some(last)) if at <= last => Err(Why::Misaligned),
        _ => Err(Why::OutOfBounds),
    }
}

/// Checks that an access of that size lies in an element of that many bytes, and is aligned, that
/// distance on from each of the offsets.
pub(crate) fn check_offsets(
    bytes: u16,
    size: Size,
    offsets: Offsets,
    distance: i64,
) -> Result<(), Why>
    ensures { result ≡ offsets_for bytes (size_bytes size) offsets distance }
{
    if !offsets.are_inside(bytes, size, distance) {
        Err(Why::OutOfBounds)
    } else if !offsets.are_aligned(size, distance) {
        Err(Why::Misaligned)
    } else {
        Ok(())
    }
}
