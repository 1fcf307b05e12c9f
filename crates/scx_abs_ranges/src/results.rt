ghost use Rattle.std.specs.Prelude.{◌≡◌};
ghost use Rattle.scx_abs_ranges.specs.Ranges.{IsRange};
ghost use Rattle.scx_abs_ranges.specs.Results.{sum_range, multiple_range, shifted_right, mask_range, remainder, by_constant, spread, operation_range, widest, computed_at, move_range, negated_range, extended_range, swapped_range, loaded_range};
ghost use Rattle.scx_isa_semantics.specs.declared.operations.Width.TheVariants.{Bits32};

use crate::ranges::{Range, between, floor, trailing};
use scx_isa_semantics::{
    Access, ByteOrder, Extension, Operation, SwapWidth, Width, byte_swapped, compute, extended,
    low, negated,
};

/// The numbers of 8 bits.
const BYTES: Range = Range {
    low: 0,
    high: 255,
    shift: 0,
};

/// The numbers of 16 bits.
const HALF_WORDS: Range = Range {
    low: 0,
    high: 65_535,
    shift: 0,
};

/// The numbers of 32 bits.
const WORDS: Range = Range {
    low: 0,
    high: 4_294_967_295,
    shift: 0,
};

impl Range {
    /// The result of arithmetic on a destination and an operand (RFC 9669, section 4.1).
    pub(crate) fn computed(self, width: Width, operation: Operation, operand: Range) -> Range
        requires first { IsRange self }
        requires second { IsRange operand }
        ensures { result ≡ computed_at width operation self operand }
    {
        match width {
            Width::Bits32 => computed32(operation, self, operand),
            Width::Bits64 => computed64(operation, self, operand),
        }
    }

    /// The result of a move (RFC 9669, section 4.1).
    pub(crate) fn copied(self, width: Width) -> Range
        ensures { result ≡ move_range width self }
    {
        match width {
            Width::Bits32 => copied32(self),
            Width::Bits64 => self,
        }
    }

    /// The result of negation (RFC 9669, section 4.1).
    pub(crate) fn negated(self, width: Width) -> Range
        ensures { result ≡ negated_range width self }
    {
        if self.is_single() {
            Range::single(negated(width, self.low))
        } else {
            widest(width)
        }
    }

    /// The result of a move that extends a sign (RFC 9669, section 4.1).
    pub(crate) fn extended(self, extension: Extension) -> Range
        ensures { result ≡ extended_range extension self }
    {
        if self.is_single() {
            Range::single(extended(extension, self.low))
        } else {
            widest(extension.width())
        }
    }

    /// The result of a byte swap (RFC 9669, section 4.2).
    pub(crate) fn byte_swapped(self, order: ByteOrder, width: SwapWidth) -> Range
        ensures { result ≡ swapped_range order width self }
    {
        if self.is_single() {
            Range::single(byte_swapped(order, width, self.low))
        } else {
            Range::ALL
        }
    }

    /// The result of a load of a number (RFC 9669, section 5).
    pub(crate) fn loaded(access: Access) -> Range
        ensures { result ≡ loaded_range access }
    {
        match access {
            Access::Byte => BYTES,
            Access::HalfWord => HALF_WORDS,
            Access::Word => WORDS,
            _ => Range::ALL,
        }
    }
}

/// All numbers of a width.
fn widest(width: Width) -> Range
    ensures { result ≡ widest width }
{
    match width {
        Width::Bits32 => WORDS,
        Width::Bits64 => Range::ALL,
    }
}

/// The result of a 32-bit move.
fn copied32(range: Range) -> Range
    ensures { result ≡ move_range Bits32 range }
{
    if range.is_single() {
        Range::single(low(Width::Bits32, range.low))
    } else {
        WORDS
    }
}

/// The result of 32-bit arithmetic.
fn computed32(operation: Operation, range: Range, operand: Range) -> Range
    ensures { result ≡ computed_at Bits32 operation range operand }
{
    if range.is_single() && operand.is_single() {
        Range::single(compute(Width::Bits32, operation, range.low, operand.low))
    } else {
        WORDS
    }
}

/// The result of 64-bit arithmetic.
fn computed64(operation: Operation, range: Range, operand: Range) -> Range
    requires first { IsRange range }
    requires second { IsRange operand }
    ensures { result ≡ operation_range operation range operand }
{
    if range.is_single() && operand.is_single() {
        Range::single(compute(Width::Bits64, operation, range.low, operand.low))
    } else {
        spread(operation, range, operand)
    }
}

/// The result of 64-bit arithmetic where not both ranges are single.
fn spread(operation: Operation, range: Range, operand: Range) -> Range
    requires first { IsRange range }
    requires second { IsRange operand }
    ensures { result ≡ spread operation range operand }
{
    match operation {
        Operation::Move => operand,
        Operation::Add => added(range, operand),
        _ if operand.is_single() => by_constant(operation, operand.low, range),
        _ => Range::ALL,
    }
}

/// The result of 64-bit arithmetic on a range and a single number.
fn by_constant(operation: Operation, c: u64, range: Range) -> Range
    requires { IsRange range }
    ensures { result ≡ by_constant operation c range }
{
    match operation {
        Operation::Multiply => scaled(c, range),
        Operation::ShiftLeft => scaled(1 << (c % 64), range),
        Operation::ShiftRight => shifted_right(c, range),
        Operation::And => masked(c, range),
        Operation::Modulo => remainder(c, range),
        _ => Range::ALL,
    }
}

/// The sums of members, where none wraps.
fn added(range: Range, other: Range) -> Range
    requires first { IsRange range }
    requires second { IsRange other }
    ensures { result ≡ sum_range range other }
{
    match range.high.checked_add(other.high) {
        Some(high) => between(range.low + other.low, high, range.shift.min(other.shift)),
        None => Range::ALL,
    }
}

/// The members times a constant, where none of the products wraps.
fn scaled(c: u64, range: Range) -> Range
    requires { IsRange range }
    ensures { result ≡ multiple_range c range }
{
    match range.high.checked_mul(c) {
        Some(high) => between(range.low * c, high, 3u8.min(range.shift + trailing(c))),
        None => Range::ALL,
    }
}

/// The members shifted to the right.
fn shifted_right(c: u64, range: Range) -> Range
    ensures { result ≡ shifted_right c range }
{
    between(range.low >> (c % 64), range.high >> (c % 64), 0)
}

/// The members' bits that are set in a constant.
fn masked(c: u64, range: Range) -> Range
    requires { IsRange range }
    ensures { result ≡ mask_range c range }
{
    let shift = range.shift.max(trailing(c));
    between(0, floor(range.high.min(c), shift), shift)
}

/// The members' remainders by a constant.
fn remainder(c: u64, range: Range) -> Range
    requires { IsRange range }
    ensures { result ≡ remainder c range }
{
    if c == 0 {
        Range::ALL
    } else {
        let shift = range.shift.min(trailing(c));
        between(0, floor(range.high.min(c - 1), shift), shift)
    }
}
