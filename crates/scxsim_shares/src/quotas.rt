use scx_weights::Group;

/// A share of all, and a millisecond, in the parts that dues are counted in.
pub(crate) const WHOLE: u64 = 1_000_000_000;

/// The part of a group's quota that may still be due to it in the current period. Times are counted from the picture's
/// first moment.
#[derive(Clone, Copy)]
pub(crate) struct Allowance {
    quota_ms: u64,
    period_ms: u64,
    /// In parts of a millisecond.
    pub(crate) remaining: u64,
    /// The millisecond at which the next period begins.
    pub(crate) next: u64,
}

impl Allowance {
    /// The allowance of a group in a picture that begins at that moment, if it has a quota. A picture that begins within a
    /// period has such a part of its quota.
    pub(crate) fn of(group: &Group, from: u64) -> Option<Allowance> {
        let quota_ms = u64::from(group.quota_ms?);
        let period_ms = u64::from(group.period_ms).max(1);
        let next = period_ms.saturating_sub(from % period_ms);
        let parts = u128::from(quota_ms.saturating_mul(WHOLE)).saturating_mul(u128::from(next));
        Some(Allowance {
            quota_ms,
            period_ms,
            remaining: u64::try_from(parts / u128::from(period_ms)).unwrap_or(u64::MAX),
            next,
        })
    }

    /// Takes an amount that is due.
    pub(crate) fn take(&mut self, amount: u64) {
        self.remaining = self.remaining.saturating_sub(amount);
    }

    /// Begins the periods up to that millisecond.
    pub(crate) fn begin(&mut self, now: u64) {
        if now < self.next {
            return;
        }
        let periods = (now.saturating_sub(self.next) / self.period_ms.max(1)).saturating_add(1);
        self.next = self
            .next
            .saturating_add(periods.saturating_mul(self.period_ms));
        self.remaining = self.quota_ms.saturating_mul(WHOLE);
    }

    /// The time that the quota allows in that many milliseconds on average, in parts of a millisecond.
    pub(crate) fn average(self, ms: u64) -> u64 {
        let quota = self.quota_ms.saturating_mul(ms);
        quota.saturating_mul(1000) / self.period_ms.max(1)
    }
}
