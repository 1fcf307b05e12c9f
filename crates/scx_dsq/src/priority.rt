ghost use Rattle.std.specs.Prelude.{◌≡◌, ◌+◌, ◌*◌, ◌^◌};
ghost use Rattle.scx_dsq.specs.Heaps.{comes_before};

use crate::steps::Steps;
use std::sync::ledger::Ledger;

/// The number of stamps.
const STAMPS: u128 = 1 << 64;

/// When a task leaves a queue by virtual time: by its key, and among equal keys by how many pushes were
/// accepted before it. Code that is lent a counter can only compare two of them, which is counted.
#[derive(Clone, Copy)]
pub struct Priority {
    key: u64,
    stamp: u64,
}

impl Priority {
    /// The priority of a task that goes in with that key, after `stamp` accepted pushes.
    #[inline(always)]
    pub fn new(key: u64, stamp: u64) -> Priority
        ensures key { result.key ≡ key }
        ensures stamp { result.stamp ≡ stamp }
    {
        Priority { key, stamp }
    }

    /// The key and the stamp as numbers. Nothing counts how these are compared, so the call takes a counter
    /// away.
    #[inline(always)]
    pub fn numbers<L: Ledger>(self, _steps: Steps<L>) -> (u64, u64)
        ensures { result ≡ (self.key, self.stamp) }
    {
        (self.key, self.stamp)
    }

    /// True if its task leaves before that of the other.
    #[inline(always)]
    pub fn is_before<L: Ledger>(self, other: Priority, steps: &mut Steps<L>) -> bool
        ensures answer { result ≡ comes_before self other }
        ensures counted { steps.new ≡ steps.old + 1 }
    {
        steps.count();
        self.whole() < other.whole()
    }

    /// The key followed by the stamp, as one number.
    #[inline(always)]
    fn whole(self) -> u128
        ensures { result ≡ self.key * 2 ^ 64 + self.stamp }
    {
        u128::from(self.key) * STAMPS + u128::from(self.stamp)
    }
}
