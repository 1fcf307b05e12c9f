use crate::quotas::WHOLE;
use crate::shares::Shares;

/// A whole share, in the parts that shares are counted in.
pub const PARTS: u64 = 10_000;

/// The parts of `WHOLE` in one part of a share.
const DUE_PARTS: u64 = WHOLE / PARTS;

/// A group's share, what is due to it, and the share that its quota allows, if it has one.
#[derive(Clone, Copy)]
pub struct Share {
    pub has: u64,
    pub due: u64,
    pub cap: Option<u64>,
    /// True if its tasks were parked, as its quota was used up, or that of a group that it lies in.
    pub is_used_up: bool,
}

/// The share that some time is of all time.
fn part_of(ms: u64, all: u64) -> u64 {
    ms.saturating_mul(PARTS) / all.max(1)
}

/// The time that a group ran, the time due to it, the time that all groups ran and that its tasks were parked, over some
/// steps, and their length.
#[derive(Clone, Copy)]
struct Portion {
    ran: u64,
    due: u64,
    all: u64,
    ms: u64,
    parked: u64,
}

const NONE: Portion = Portion {
    ran: 0,
    due: 0,
    all: 0,
    ms: 0,
    parked: 0,
};

impl Portion {
    /// The portion with another step.
    fn with(self, shares: &Shares, strip: usize, step: u64) -> Portion {
        Portion {
            ran: self.ran.saturating_add(shares.ran(strip, step)),
            due: self.due.saturating_add(shares.due(strip, step)),
            all: self.all.saturating_add(shares.all(step)),
            ms: self.ms.saturating_add(shares.length(step)),
            parked: self.parked.saturating_add(shares.parked(strip, step)),
        }
    }

    /// The portion without a step that it has.
    fn without(self, shares: &Shares, strip: usize, step: u64) -> Portion {
        Portion {
            ran: self.ran.saturating_sub(shares.ran(strip, step)),
            due: self.due.saturating_sub(shares.due(strip, step)),
            all: self.all.saturating_sub(shares.all(step)),
            ms: self.ms.saturating_sub(shares.length(step)),
            parked: self.parked.saturating_sub(shares.parked(strip, step)),
        }
    }

    fn share(self, shares: &Shares, group: Option<u32>) -> Share {
        Share {
            has: part_of(self.ran, self.all),
            due: self.due / DUE_PARTS / self.all.max(1),
            cap: self.cap(shares, group),
            is_used_up: self.parked > 0,
        }
    }

    /// The share of what ran that the quota of a group allows.
    fn cap(self, shares: &Shares, group: Option<u32>) -> Option<u64> {
        let allowed = shares.cap(group?, self.ms)?;
        Some(part_of(allowed, self.all) / 1000)
    }
}

/// The shares of a group, step by step: each over a fortieth of the picture on either side, so that one slice doesn't fill
/// it, but not over a change of weights.
#[derive(Clone, Copy)]
pub struct Portions {
    strip: usize,
    group: Option<u32>,
    portion: Portion,
    /// The first step in it, the first one after it, and the number of steps on either side of the middle one.
    first: u64,
    end: u64,
    around: u64,
    /// The first whole step after the last change of weights, and the number of changes up to that.
    low: u64,
    changes: usize,
}

impl Portions {
    /// The shares of a strip, from its first step on. It is that of a group alone, or of several.
    pub fn new(shares: &Shares, strip: usize, group: Option<u32>) -> Portions {
        Portions {
            strip,
            group,
            portion: NONE,
            first: 0,
            end: 0,
            around: shares.scale.columns / 40,
            low: 0,
            changes: 0,
        }
    }

    /// The share around a step, which is no earlier than the one before.
    pub fn at(&mut self, shares: &Shares, step: u64) -> Share {
        let high = self.go_to(shares, step);
        let end = step.saturating_add(self.around).saturating_add(1).min(high);
        for next in self.end..end {
            self.portion = self.portion.with(shares, self.strip, next);
            self.end = next.saturating_add(1);
        }
        for past in self.first..step.saturating_sub(self.around).max(self.low) {
            self.portion = self.portion.without(shares, self.strip, past);
            self.first = past.saturating_add(1);
        }
        self.portion.share(shares, self.group)
    }

    /// Takes the changes of weights before a step. Returns the first step after it in which a weight changes.
    fn go_to(&mut self, shares: &Shares, step: u64) -> u64 {
        let wide = shares.scale.step.max(1);
        for _ in self.changes..shares.changes.len() {
            let Some(change) = shares.changes.get(self.changes) else {
                break;
            };
            if change.at / wide > step {
                return change.at / wide;
            }
            if change.at.div_ceil(wide) > step {
                self.low = step;
                return step.saturating_add(1);
            }
            self.low = change.at.div_ceil(wide);
            self.changes = self.changes.saturating_add(1);
        }
        shares.scale.columns
    }
}

impl Shares {
    /// The last change of weights within a step, but not at its beginning.
    pub fn change_within(&self, step: u64) -> Option<u64> {
        let begin = step.saturating_mul(self.scale.step);
        let end = begin.saturating_add(self.scale.step);
        let mut found = None;
        for change in &self.changes {
            if begin < change.at && change.at < end {
                found = Some(change.at);
            }
        }
        found
    }

    /// The share of a strip over the whole picture.
    pub fn whole(&self, strip: usize) -> Share {
        let mut portion = NONE;
        for step in 0..self.scale.columns {
            portion = portion.with(self, strip, step);
        }
        portion.share(self, None)
    }
}
