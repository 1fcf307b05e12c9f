ghost use Rattle.std.specs.Prelude.{◌≡◌, None, IfSome, true, false, min};
ghost use Rattle.scx_abs_ranges.specs.Ranges.{IsRange, all, single, is_single, join_ranges};
ghost use Rattle.scx_abs_ranges.specs.Cuts.{cut, equal, unequal};
ghost use Rattle.scx_abs_ranges.specs.Steps.{shift_of};
ghost use Rattle.scx_abs_ranges.specs.Kept.{kept_step};
ghost use Rattle.scx_abs_ranges.specs.Results.{computed_at, move_range, negated_range, extended_range, swapped_range, loaded_range};

use crate::ranges::{Range, between};
use crate::steps::Step;
use scx_isa_semantics::{Access, ByteOrder, Comparison, Extension, Operation, SwapWidth, Width};
use std::marker::Model;

/// The values that a 64-bit scalar may have, as one range.
///
/// In a contract it is that range, and well formed.
#[derive(Clone, Copy, PartialEq, Eq)]
pub struct Numbers {
    low: u64,
    high: u64,
    /// One where it is a single number, from which the range's step follows.
    step: Step,
}

impl Model for Numbers {
    ghost use Rattle.scx_abs_ranges.specs.declared.ranges.Range.{Range};
    ghost use Rattle.scx_abs_ranges.specs.Kept.{IsKeptRange, range_of, kept_step};

    ghost Value = { Range };

    ghost view = { λ s. range_of s.low s.high s.step };

    ghost invariant = { λ s. IsKeptRange s.low s.high s.step };

    ghost inverse = { λ r. record { low = r.low; high = r.high; step = kept_step r } };

    ghost inverse_ok = { λ s h. λ i. record { low = s.low; high = s.high; step = h.back i } };
}

impl Numbers {
    /// The numbers of a range.
    #[tactic(auto, using(crate::proofs::KeptRanges::kept_range, crate::proofs::KeptRanges::kept_parts))]
    pub(crate) fn of(range: Range) -> Numbers
        requires { IsRange range }
        ensures { result ≡ range }
    {
        Numbers {
            low: range.low,
            high: range.high,
            step: step_of(range),
        }
    }

    /// The range.
    pub fn range(self) -> Range
        ensures same { result ≡ self }
        ensures range { IsRange result }
    {
        between(self.low, self.high, self.step.shift())
    }

    /// All numbers: nothing is known.
    #[tactic(auto, using(crate::proofs::Multiples::all_range))]
    pub fn all() -> Numbers
        ensures { result ≡ all }
    {
        Numbers::of(Range::ALL)
    }

    /// One number.
    #[tactic(auto, using(crate::proofs::KeptRanges::kept_single))]
    pub fn single(n: u64) -> Numbers
        ensures { result ≡ single n }
    {
        Numbers {
            low: n,
            high: n,
            step: Step::One,
        }
    }

    /// True if it is one number alone.
    pub fn is_single(self) -> bool
        ensures { result ≡ is_single self }
    {
        self.low == self.high
    }

    /// The number, if it is one alone.
    #[inline(always)]
    #[tactic(auto, using(crate::proofs::KeptRanges::single_is))]
    pub fn number(self) -> Option<u64>
        ensures one { IfSome result (λ n. self ≡ single n) }
        ensures several { result ≡ None → is_single self ≡ false }
    {
        if self.low == self.high {
            Some(self.low)
        } else {
            None
        }
    }

    /// The least of them; of a single number the number.
    pub fn low(self) -> u64
        ensures { result ≡ self.low }
    {
        self.low
    }

    /// The least range that holds both.
    pub fn join(self, other: Numbers) -> Numbers
        ensures { result ≡ join_ranges self other }
    {
        if self.is_fine() || other.is_fine() {
            self.join_finely(other)
        } else {
            Numbers::of(self.range().join(other.range()))
        }
    }

    /// True if they are several, one apart.
    fn is_fine(self) -> bool
        ensures { result ≡ true → self.shift ≡ 0 }
    {
        match self.step {
            Step::One => self.low < self.high,
            _ => false,
        }
    }

    /// The least range that holds both, where that has the step 1.
    fn join_finely(self, other: Numbers) -> Numbers
        requires { min self.shift other.shift ≡ 0 }
        ensures { result ≡ join_ranges self other }
    {
        Numbers {
            low: self.low.min(other.low),
            high: self.high.max(other.high),
            step: Step::One,
        }
    }

    /// The numbers for which the 64-bit comparison with `c` has that answer (RFC 9669, section 4.3),
    /// or none if there are none. `!=` takes only an end away; signed comparisons and bit tests take
    /// nothing.
    pub fn cut(self, comparison: Comparison, answer: bool, c: u64) -> Option<Numbers>
        ensures { result ≡ cut comparison answer c self }
    {
        match comparison {
            Comparison::Equal if answer => self.equal(c),
            Comparison::Equal => self.unequal(c),
            _ => self.cut_any(comparison, answer, c),
        }
    }

    /// The one that is that number.
    #[inline(always)]
    fn equal(self, c: u64) -> Option<Numbers>
        ensures { result ≡ equal c self }
    {
        if self.range().contains(c) {
            Some(Numbers::single(c))
        } else {
            None
        }
    }

    /// Those but that number, if it is at an end, which is seldom so.
    #[inline(always)]
    fn unequal(self, c: u64) -> Option<Numbers>
        ensures { result ≡ unequal c self }
    {
        if self.low < c && c < self.high {
            // Part by part; as a whole its padding would be copied too.
            Some(Numbers {
                low: self.low,
                high: self.high,
                step: self.step,
            })
        } else {
            self.cut_any(Comparison::Equal, false, c)
        }
    }

    /// The numbers for which any comparison with `c` has that answer.
    #[inline(always)]
    fn cut_any(self, comparison: Comparison, answer: bool, c: u64) -> Option<Numbers>
        ensures { result ≡ cut comparison answer c self }
    {
        match self.range().cut(comparison, answer, c) {
            Some(range) => Some(Numbers::of(range)),
            None => None,
        }
    }

    /// The result of arithmetic on a destination and an operand (RFC 9669, section 4.1).
    pub fn computed(self, width: Width, operation: Operation, operand: Numbers) -> Numbers
        ensures { result ≡ computed_at width operation self operand }
    {
        Numbers::of(self.range().computed(width, operation, operand.range()))
    }

    /// The result of a move (RFC 9669, section 4.1).
    pub fn copied(self, width: Width) -> Numbers
        ensures { result ≡ move_range width self }
    {
        Numbers::of(self.range().copied(width))
    }

    /// The result of negation (RFC 9669, section 4.1).
    pub fn negated(self, width: Width) -> Numbers
        ensures { result ≡ negated_range width self }
    {
        Numbers::of(self.range().negated(width))
    }

    /// The result of a move that extends a sign (RFC 9669, section 4.1).
    pub fn extended(self, extension: Extension) -> Numbers
        ensures { result ≡ extended_range extension self }
    {
        Numbers::of(self.range().extended(extension))
    }

    /// The result of a byte swap (RFC 9669, section 4.2).
    pub fn byte_swapped(self, order: ByteOrder, width: SwapWidth) -> Numbers
        ensures { result ≡ swapped_range order width self }
    {
        Numbers::of(self.range().byte_swapped(order, width))
    }

    /// The result of a load of a number (RFC 9669, section 5).
    #[tactic(auto, using(crate::proofs::BuiltRanges::load_range))]
    pub fn loaded(access: Access) -> Numbers
        ensures { result ≡ loaded_range access }
    {
        Numbers::of(Range::loaded(access))
    }
}

/// The step that is kept of a range.
fn step_of(range: Range) -> Step
    ensures { result ≡ kept_step range }
{
    if range.low == range.high {
        Step::One
    } else {
        Step::of(range.shift)
    }
}
