ghost use Rattle.std.specs.Prelude.{◌≡◌, ◌≤◌, ◌^◌};
ghost use Rattle.scx_abs_ranges.specs.Ranges.{IsRange, trailing, floor, between, single, is_single, contains, join_ranges};

/// The multiples of two to the power of `shift` from `low` to `high`.
///
/// Any three numbers may be here; those of a `Numbers` or an `Offsets` are well formed.
#[derive(Clone, Copy, PartialEq, Eq)]
pub struct Range {
    /// The least member.
    pub low: u64,
    /// The greatest member.
    pub high: u64,
    /// 0 to 3; of a single number the greatest that fits, and so 3 for 0.
    pub shift: u8,
}

/// The number of low bits that are 0, at most three.
pub(crate) fn trailing(n: u64) -> u8
    ensures { result ≡ trailing n }
{
    if n % 8 == 0 {
        3
    } else if n % 4 == 0 {
        2
    } else if n % 2 == 0 {
        1
    } else {
        0
    }
}

/// Two to that power.
pub(crate) fn step(shift: u8) -> u64
    requires { shift ≤ 3 }
    ensures { result ≡ 2 ^ shift }
{
    match shift {
        0 => 1,
        1 => 2,
        2 => 4,
        _ => 8,
    }
}

/// The greatest multiple that isn't above a number.
pub(crate) fn floor(n: u64, shift: u8) -> u64
    requires { shift ≤ 3 }
    ensures { result ≡ floor n shift }
{
    n - n % step(shift)
}

/// The range between two multiples.
pub(crate) fn between(low: u64, high: u64, shift: u8) -> Range
    ensures { result ≡ between low high shift }
{
    Range {
        low,
        high,
        shift: if low == high { trailing(low) } else { shift },
    }
}

impl Range {
    /// All numbers.
    pub const ALL: Range = Range {
        low: 0,
        high: u64::MAX,
        shift: 0,
    };

    /// One number.
    pub(crate) fn single(n: u64) -> Range
        ensures { result ≡ single n }
    {
        between(n, n, 0)
    }

    /// True if it holds one number alone.
    pub(crate) fn is_single(self) -> bool
        ensures { result ≡ is_single self }
    {
        self.low == self.high
    }

    /// True if it holds the number.
    pub(crate) fn contains(self, n: u64) -> bool
        requires { IsRange self }
        ensures { result ≡ contains n self }
    {
        self.low <= n && n <= self.high && n % step(self.shift) == 0
    }

    /// The least range that covers both.
    pub(crate) fn join(self, other: Range) -> Range
        ensures { result ≡ join_ranges self other }
    {
        Range {
            low: self.low.min(other.low),
            high: self.high.max(other.high),
            shift: self.shift.min(other.shift),
        }
    }
}
