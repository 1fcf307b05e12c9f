ghost use Rattle.std.specs.Prelude.{◌≡◌, ◌≤◌};
ghost use Rattle.scx_isa_semantics.specs.Memory.{size_bytes};
ghost use Rattle.scx_abs_ranges.specs.Ranges.{IsRange};
ghost use Rattle.scx_abs_ranges.specs.Offsets.{offsets_plus_constant, offsets_plus_range, are_inside, are_aligned};

use crate::ranges::{Range, between, step, trailing};
use scx_isa_semantics::{Size, shifted, within};

/// Ranges of offsets in an element of a map.
impl Range {
    /// The offsets moved by a constant, where all of them stay in the element.
    pub(crate) fn moved(self, value_size: u16, distance: i64) -> Option<Range>
        requires range { IsRange self }
        requires small { self.high ≤ 65535 }
        ensures { result ≡ offsets_plus_constant value_size self distance }
    {
        let low = shifted(self.low as u16, distance);
        let high = within(value_size, shifted(self.high as u16, distance));
        let shift = self.shift.min(trailing(distance.unsigned_abs()));
        match (low, high) {
            (Some(low), Some(high)) => Some(between(low, u64::from(high), shift)),
            _ => None,
        }
    }

    /// The offsets moved by a range of numbers, where all of them stay in the element.
    pub(crate) fn advanced(self, value_size: u16, numbers: Range) -> Option<Range>
        requires range { IsRange self }
        requires numbers { IsRange numbers }
        ensures { result ≡ offsets_plus_range value_size self numbers }
    {
        match self.high.checked_add(numbers.high) {
            Some(high) if high <= u64::from(value_size) => {
                Some(between(self.low + numbers.low, high, self.shift.min(numbers.shift)))
            }
            _ => None,
        }
    }

    /// True if an access at that distance from each of the offsets lies in the element.
    pub(crate) fn are_inside(self, value_size: u16, size: Size, distance: i64) -> bool
        requires range { IsRange self }
        requires small { self.high ≤ 65535 }
        ensures { result ≡ are_inside value_size (size_bytes size) self distance }
    {
        let bytes = u64::from(size.bytes());
        match (
            shifted(self.low as u16, distance),
            shifted(self.high as u16, distance),
        ) {
            (Some(_), Some(high)) => high + bytes <= u64::from(value_size),
            _ => false,
        }
    }

    /// True if an access at that distance from each of the offsets is aligned.
    pub(crate) fn are_aligned(self, size: Size, distance: i64) -> bool
        requires range { IsRange self }
        requires small { self.high ≤ 65535 }
        ensures { result ≡ are_aligned (size_bytes size) self distance }
    {
        let bytes = u64::from(size.bytes());
        match shifted(self.low as u16, distance) {
            Some(low) => low % bytes == 0 && (self.is_single() || step(self.shift) % bytes == 0),
            None => false,
        }
    }
}
