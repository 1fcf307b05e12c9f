ghost use Rattle.std.specs.Prelude.{◌≡◌, ◌≤◌};
ghost use Rattle.scx_isa_semantics.specs.Memory.{size_bytes};
ghost use Rattle.scx_abs_ranges.specs.Ranges.{IsRange, single, join_ranges};
ghost use Rattle.scx_abs_ranges.specs.Steps.{shift_of};
ghost use Rattle.scx_abs_ranges.specs.Offsets.{offsets_plus_constant, offsets_plus_range, are_inside, are_aligned};

use crate::numbers::Numbers;
use crate::ranges::Range;
use crate::steps::Step;
use scx_isa_semantics::Size;
use std::marker::Model;

/// The offsets that a pointer into a map value may have, as one range.
///
/// In a contract it is that range, and well formed. A value size and an offset are in bytes.
#[derive(Clone, Copy, PartialEq, Eq)]
pub struct Offsets {
    low: u16,
    high: u16,
    step: Step,
}

impl Model for Offsets {
    ghost use Rattle.scx_abs_ranges.specs.declared.ranges.Range.{Range};
    ghost use Rattle.scx_abs_ranges.specs.Ranges.{IsRange};
    ghost use Rattle.scx_abs_ranges.specs.Steps.{shift_of, step_of, step_back};

    ghost Value = { Range };

    ghost view = { λ s. record { low = s.low; high = s.high; shift = shift_of s.step } };

    ghost invariant = { λ s. IsRange (record { low = s.low; high = s.high; shift = shift_of s.step }) };

    ghost inverse = { λ r. record { low = r.low; high = r.high; step = step_of r.shift } };

    ghost inverse_ok = { λ s h. λ i. record { low = s.low; high = s.high; step = step_back s.step i } };
}

impl Offsets {
    /// The offsets of a range.
    pub(crate) fn of(range: Range) -> Offsets
        requires range { IsRange range }
        requires small { range.high ≤ 65535 }
        ensures { result ≡ range }
    {
        Offsets {
            low: range.low as u16,
            high: range.high as u16,
            step: Step::of(range.shift),
        }
    }

    /// The range.
    pub fn range(self) -> Range
        ensures same { result ≡ self }
        ensures range { IsRange result }
        ensures small { result.high ≤ 65535 }
    {
        Range {
            low: u64::from(self.low),
            high: u64::from(self.high),
            shift: self.step.shift(),
        }
    }

    /// One offset.
    #[tactic(auto, using(crate::proofs::Multiples::single_range))]
    pub fn single(offset: u16) -> Offsets
        ensures { result ≡ single offset }
    {
        Offsets::of(Range::single(u64::from(offset)))
    }

    /// The greatest of them.
    pub fn high(self) -> u16
        ensures { result ≡ self.high }
    {
        self.high
    }

    /// The least range that holds both.
    pub fn join(self, other: Offsets) -> Offsets
        ensures { result ≡ join_ranges self other }
    {
        Offsets::of(self.range().join(other.range()))
    }

    /// The offsets moved by a constant, or none where one of them would leave the element.
    pub fn moved(self, value_size: u16, distance: i64) -> Option<Offsets>
        ensures { result ≡ offsets_plus_constant value_size self distance }
    {
        match self.range().moved(value_size, distance) {
            Some(range) => Some(Offsets::of(range)),
            None => None,
        }
    }

    /// The offsets moved by a number of a range, or none where a sum would leave the element.
    #[inline(always)]
    pub fn advanced(self, value_size: u16, numbers: Numbers) -> Option<Offsets>
        ensures { result ≡ offsets_plus_range value_size self numbers }
    {
        match self.range().advanced(value_size, numbers.range()) {
            Some(range) => Some(Offsets::of(range)),
            None => None,
        }
    }

    /// True if an access at that distance from each of the offsets lies in the element.
    pub fn are_inside(self, value_size: u16, size: Size, distance: i64) -> bool
        ensures { result ≡ are_inside value_size (size_bytes size) self distance }
    {
        self.range().are_inside(value_size, size, distance)
    }

    /// True if an access at that distance from each of the offsets is aligned.
    pub fn are_aligned(self, size: Size, distance: i64) -> bool
        ensures { result ≡ are_aligned (size_bytes size) self distance }
    {
        self.range().are_aligned(size, distance)
    }
}
