ghost use Rattle.std.specs.Prelude.{◌≡◌, ◌<◌, ◌+◌, ◌-◌, ◌^◌, true, false};
ghost use Rattle.scx_abs_ranges.specs.Ranges.{IsRange, floor};
ghost use Rattle.scx_abs_ranges.specs.Cuts.{above, up_to, from, below, equal, unequal, cut};

use crate::ranges::{Range, between, floor, step};
use scx_isa_semantics::Comparison;

impl Range {
    /// The members for which the comparison with a number has that answer. `!=` takes only an end away;
    /// signed comparisons and bit tests take nothing.
    pub(crate) fn cut(self, comparison: Comparison, answer: bool, c: u64) -> Option<Range>
        requires { IsRange self }
        ensures { result ≡ cut comparison answer c self }
    {
        if answer {
            accepted(comparison, c, self)
        } else {
            refused(comparison, c, self)
        }
    }
}

/// The members for which the comparison holds.
fn accepted(comparison: Comparison, c: u64, range: Range) -> Option<Range>
    requires { IsRange range }
    ensures { result ≡ cut comparison true c range }
{
    match comparison {
        Comparison::Equal => equal(c, range),
        Comparison::NotEqual => unequal(c, range),
        Comparison::Greater => above(c, range),
        Comparison::GreaterOrEqual => from(c, range),
        Comparison::Less => below(c, range),
        Comparison::LessOrEqual => up_to(c, range),
        _ => Some(range),
    }
}

/// The members for which it doesn't.
fn refused(comparison: Comparison, c: u64, range: Range) -> Option<Range>
    requires { IsRange range }
    ensures { result ≡ cut comparison false c range }
{
    match comparison {
        Comparison::Equal => unequal(c, range),
        Comparison::NotEqual => equal(c, range),
        Comparison::Greater => up_to(c, range),
        Comparison::GreaterOrEqual => below(c, range),
        Comparison::Less => from(c, range),
        Comparison::LessOrEqual => above(c, range),
        _ => Some(range),
    }
}

/// The members above a number.
fn above(c: u64, range: Range) -> Option<Range>
    requires { IsRange range }
    ensures { result ≡ above c range }
{
    if c < range.high {
        let next = next_above(c, range);
        Some(between(range.low.max(next), range.high, range.shift))
    } else {
        None
    }
}

/// The least multiple above a number that is below the greatest member.
#[tactic(auto, using(crate::proofs::KeptByCuts::next_fits))]
fn next_above(c: u64, range: Range) -> u64
    requires range { IsRange range }
    requires below { c < range.high }
    ensures { result ≡ floor c range.shift + 2 ^ range.shift }
{
    floor(c, range.shift) + step(range.shift)
}

/// The members that aren't above a number.
fn up_to(c: u64, range: Range) -> Option<Range>
    requires { IsRange range }
    ensures { result ≡ up_to c range }
{
    if range.low <= c {
        Some(between(
            range.low,
            range.high.min(floor(c, range.shift)),
            range.shift,
        ))
    } else {
        None
    }
}

/// The members that aren't below a number.
fn from(c: u64, range: Range) -> Option<Range>
    requires { IsRange range }
    ensures { result ≡ from c range }
{
    if c == 0 {
        Some(range)
    } else {
        above(c - 1, range)
    }
}

/// The members below a number.
fn below(c: u64, range: Range) -> Option<Range>
    requires { IsRange range }
    ensures { result ≡ below c range }
{
    if c == 0 { None } else { up_to(c - 1, range) }
}

/// The member that is that number.
fn equal(c: u64, range: Range) -> Option<Range>
    requires { IsRange range }
    ensures { result ≡ equal c range }
{
    if range.contains(c) {
        Some(Range::single(c))
    } else {
        None
    }
}

/// The second member.
#[tactic(auto, using(crate::proofs::GrowingCuts::second_fits))]
fn second(range: Range) -> u64
    requires range { IsRange range }
    requires several { range.low < range.high }
    ensures { result ≡ range.low + 2 ^ range.shift }
{
    range.low + step(range.shift)
}

/// The last member but one.
#[tactic(auto, using(crate::proofs::GrowingCuts::step_below))]
fn last_but_one(range: Range) -> u64
    requires range { IsRange range }
    requires several { range.low < range.high }
    ensures { result ≡ range.high - 2 ^ range.shift }
{
    range.high - step(range.shift)
}

/// The members but that number, if it is at an end.
fn unequal(c: u64, range: Range) -> Option<Range>
    requires { IsRange range }
    ensures { result ≡ unequal c range }
{
    if c == range.low {
        if c == range.high {
            None
        } else {
            Some(between(second(range), range.high, range.shift))
        }
    } else if c == range.high {
        Some(between(range.low, last_but_one(range), range.shift))
    } else {
        Some(range)
    }
}
