use crate::activities::Instant;
use scxsim_layout::Scale;
use std::alloc::{AllocError, Global};

/// The number of longest waits that are kept.
const MOST: usize = 512;

/// A task waited from one moment to another, whatever queues it was in. It is cut where the picture begins and ends.
#[derive(Clone, Copy)]
pub struct Wait {
    pub task: u16,
    pub since: u64,
    pub until: u64,
    /// The milliseconds that it waited by the clock.
    pub length: u64,
    /// True if it began before the picture, or ended after it.
    pub is_cut: bool,
}

impl Wait {
    /// The part of a wait that is in the picture, if there is one.
    pub(crate) fn within(scale: Scale, task: u16, start: Instant, end: Instant) -> Option<Wait> {
        let since = start.moment.max(scale.from);
        let until = end.moment.min(scale.to);
        let length = length_within(scale, start, end);
        if until < since || until == since && length == 0 {
            return None;
        }
        Some(Wait {
            task,
            since,
            until,
            length,
            is_cut: start.moment < scale.from || scale.to < end.moment,
        })
    }
}

/// The milliseconds of a wait in the picture: those of its bar there. If it ends there, it is as long as by the clock, but
/// longer than its bar only in a picture that begins with the run.
fn length_within(scale: Scale, start: Instant, end: Instant) -> u64 {
    let bar = scale.within(start.moment, end.moment);
    let whole = end.moment.saturating_sub(start.moment);
    let by_clock = end.clock.saturating_sub(start.clock);
    if scale.to < end.moment {
        bar
    } else if scale.from == 0 {
        bar.saturating_add(by_clock.saturating_sub(whole))
            .saturating_sub(whole.saturating_sub(by_clock))
    } else {
        bar.saturating_sub(whole.saturating_sub(by_clock))
    }
}

/// The task whose wait led to an ejection, and the moment.
#[derive(Clone, Copy)]
struct Stall {
    task: u16,
    moment: u64,
}

impl Stall {
    fn is_of(self, wait: Wait) -> bool {
        self.task == wait.task && wait.since < self.moment && self.moment <= wait.until
    }
}

/// The longest waits, and the number and the time of all waits.
#[derive(Drop)]
pub struct Longest {
    /// Waits of at least a twentieth of the picture.
    pub waits: Vec<Wait>,
    /// The wait that ended in a stall.
    pub stalled: Option<Wait>,
    stall: Option<Stall>,
    count: u64,
    total: u64,
    /// The length of the shortest of those that are kept, once there is no room for more.
    least: u64,
}

impl Longest {
    pub(crate) fn new(alloc: Global) -> Result<Longest, AllocError> {
        Ok(Longest {
            waits: Vec::with_capacity(alloc, MOST)?,
            stalled: None,
            stall: None,
            count: 0,
            total: 0,
            least: 0,
        })
    }

    /// The policy is ejected at that moment, as the task has waited too long.
    pub(crate) fn stall(&mut self, task: u16, moment: u64) {
        self.stall = Some(Stall { task, moment });
    }

    /// A wait is over.
    pub(crate) fn end(&mut self, scale: Scale, wait: Wait) {
        self.count = self.count.saturating_add(1);
        self.total = self.total.saturating_add(wait.length);
        if self.ends_in_stall(wait) {
            self.stalled = Some(wait);
        } else if wait.length > 0 && wait.length.saturating_mul(20) >= scale.length() {
            self.add(wait);
        }
    }

    fn ends_in_stall(&self, wait: Wait) -> bool {
        match self.stall {
            Some(stall) => stall.is_of(wait),
            None => false,
        }
    }

    fn add(&mut self, wait: Wait) {
        if self.waits.len() < MOST {
            // There is room for it.
            let _ = self.waits.push(wait);
        } else if self.least < wait.length {
            self.replace(wait);
        }
    }

    /// Keeps the wait in the place of the shortest one, if it is longer.
    fn replace(&mut self, wait: Wait) {
        let place = shortest(&self.waits);
        if let Some(shortest) = self.waits.get_mut(place) {
            self.least = shortest.length;
            if self.least < wait.length {
                *shortest = wait;
            }
        }
    }

    /// True if one of the waits of at least a twentieth of the picture is four times as long as the others on average.
    pub fn stands_out(&self, wait: Wait) -> bool {
        let others = self.total.saturating_sub(wait.length);
        let count = self.count.saturating_sub(1);
        count >= 4 && wait.length.saturating_mul(count) >= others.saturating_mul(4)
    }

    /// True if a wait is far longer than the others, or ended in a stall.
    pub fn are_some_framed(&self) -> bool {
        self.stalled.is_some() || self.waits.iter().any(|wait| self.stands_out(*wait))
    }
}

/// The place of the shortest wait.
fn shortest(waits: &[Wait]) -> usize {
    let mut place = 0usize;
    let mut found = 0usize;
    let mut least = u64::MAX;
    for wait in waits {
        if wait.length < least {
            least = wait.length;
            found = place;
        }
        place = place.saturating_add(1);
    }
    found
}
