use crate::machines::push;
use crate::seen::Seen;
use scx_explore_states::Step;
use scx_sched::Event;
use std::alloc::{AllocError, Global};
use std::marker::Model;

/// The most steps from a kept state to one for which there was no room. Lists of events have no more than 64.
const MOST_STEPS: usize = 256;

/// The most states that wait to be gone through. From a state 77 events lead on at most, and from one with five tasks
/// 243 milliseconds; in 256 steps these are never more.
const MOST_LOST: usize = 65_536;

/// The most events that are tried once states are revisited. Each further step takes several times as many
/// as the one before, so twice this many would lead no more than one step further.
const MOST_EVENTS: u64 = 250_000_000;

/// A kept state and how many steps lead to it.
#[derive(Clone, Copy)]
pub struct Origin {
    pub state: usize,
    pub depth: usize,
}

/// A state for which there was no room.
#[derive(Clone, Copy)]
pub struct Lost {
    /// The machine that has it, if there was one left.
    pub machine: Option<usize>,
    pub depth: usize,
    /// The last of the steps that led to it.
    pub step: Step,
}

/// Some of the steps that were kept for what was found.
#[derive(Clone, Copy)]
pub struct Between {
    start: usize,
    pub count: usize,
}

/// From when on no state is kept any more.
#[derive(Clone, Copy)]
struct Closed {
    /// The first state that led to one for which there was no room.
    first: Origin,
    /// The first kept state of the next depth, which is the last one that has any.
    end: usize,
    /// The number of events that were tried before.
    events: u64,
}

impl Closed {
    /// The number of steps to a kept state that isn't before the first one.
    fn depth_of(self, state: usize) -> usize {
        if state < self.end {
            self.first.depth
        } else {
            self.first.depth.saturating_add(1)
        }
    }
}

/// States for which there was no room. At each depth they are visited again from the kept states that lead to them, as
/// often as lists reach them.
///
/// In a contract it is nothing.
#[derive(Drop)]
pub struct Revisits {
    closed: Option<Closed>,
    /// The kept state from which some are come to next.
    next: usize,
    /// The kept state from which some are come to now, or which is gone through itself.
    origin: Origin,
    /// The number of steps to the state at hand.
    depth: usize,
    lost: Vec<Lost>,
    /// The steps from the kept state to the one that is gone through.
    steps: Vec<Step>,
    /// Steps of what was found, `MOST_STEPS` for each list.
    lists: Vec<Step>,
    /// The number of revisits of a state whose depth was at hand.
    count: u64,
    /// True if one of the next depth was met.
    has_more: bool,
}

impl Model for Revisits {
    ghost Value = { Unit {0} };

    ghost view = { λ a. tt };
}

impl Revisits {
    /// No state was lost, with room for the steps of `lists` lists.
    ///
    /// # Errors
    ///
    /// Memory runs out.
    pub fn new(alloc: Global, lists: usize) -> Result<Revisits, AllocError> {
        let nowhere = Origin { state: 0, depth: 0 };
        let steps = lists.saturating_mul(MOST_STEPS);
        Ok(Revisits {
            closed: None,
            next: 0,
            origin: nowhere,
            depth: 0,
            lost: Vec::with_capacity(alloc, MOST_LOST)?,
            steps: Vec::with_capacity(alloc, MOST_STEPS)?,
            lists: vec![in alloc; Step::Event(Event::Clock); steps]?,
            count: 0,
            has_more: false,
        })
    }

    /// True if no state is kept any more.
    #[inline(always)]
    pub fn is_closed(&self) -> bool {
        self.closed.is_some()
    }

    /// The number of revisits of a state whose depth was at hand; none while every state had room.
    pub fn count(&self) -> Option<u64> {
        let count = self.count;
        self.is_closed().then_some(count)
    }

    /// True if no more events may be tried, after `events` so far.
    pub fn is_used_up(&self, events: u64) -> bool {
        match self.closed {
            Some(closed) => events.saturating_sub(closed.events) >= MOST_EVENTS,
            None => false,
        }
    }

    /// True if one of the next depth was met.
    pub fn has_more(&self) -> bool {
        self.has_more
    }

    /// The number of steps to the state at hand.
    #[inline(always)]
    pub fn depth(&self) -> usize {
        let depth = self.depth;
        depth
    }

    /// The kept state from which it is come to.
    pub fn origin(&self) -> Origin {
        self.origin
    }

    /// The number of states on the way to that state that are also on the way to the one that is gone through after it:
    /// the next one, if it is below `end`. All may be come to again if some state had no room.
    pub fn shared_depths(&self, seen: &Seen, end: usize) -> usize {
        if self.is_closed() {
            return usize::MAX;
        }
        let Origin { state, depth } = self.origin;
        let (mut one, mut other) = (state, state.saturating_add(1));
        if other >= end {
            return 0;
        }
        for back in 0..depth {
            one = before(seen, one);
            other = before(seen, other);
            if one == other {
                return depth.saturating_sub(back);
            }
        }
        0
    }

    /// Takes that kept state in hand.
    pub fn begin(&mut self, origin: Origin) {
        self.steps.clear();
        self.origin = origin;
        self.depth = origin.depth;
    }

    /// The next depth is at hand.
    pub fn deepen(&mut self) {
        self.has_more = false;
        if let Some(closed) = self.closed {
            self.next = closed.first.state;
        }
    }

    /// There is no room for a state after the one at hand, and `events` events were tried so far. State `end` is the first
    /// kept state of the next depth, if there is any.
    pub fn close(&mut self, end: usize, events: u64) {
        if self.closed.is_none() {
            self.closed = Some(Closed {
                first: self.origin,
                end,
                events,
            });
        }
    }

    /// A state of the next depth was met for which there is no room.
    pub fn leave(&mut self) {
        self.has_more = true;
    }

    /// A state waits to be gone through; false where there is no room for one more.
    pub fn put(&mut self, lost: Lost) -> bool {
        let steps = lost.depth.saturating_sub(self.origin.depth);
        let has_room = self.lost.len() < MOST_LOST && steps <= MOST_STEPS;
        if has_room {
            push(&mut self.lost, lost);
        }
        has_room
    }

    /// The last of those that wait, if there is one, is gone through. It counts where its depth is the one at hand.
    pub fn take(&mut self, depth: usize) -> Option<Lost> {
        let lost = self.lost.pop()?;
        let steps = lost.depth.saturating_sub(self.origin.depth);
        self.cut_steps(steps.saturating_sub(1));
        push(&mut self.steps, lost.step);
        self.depth = lost.depth;
        if lost.depth == depth {
            self.count = self.count.saturating_add(1);
        }
        Some(lost)
    }

    fn cut_steps(&mut self, keep: usize) {
        for _ in 0..MOST_STEPS {
            if self.steps.len() <= keep {
                return;
            }
            self.steps.pop();
        }
    }

    /// The next kept state of less than that depth that led to one for which there was no room, or may have, is gone
    /// through again. Kept states end at that number.
    pub fn next_origin(&mut self, depth: usize, end: usize) -> Option<Origin> {
        let closed = self.closed?;
        let origin = Origin {
            state: self.next,
            depth: closed.depth_of(self.next),
        };
        if origin.state >= end || origin.depth >= depth {
            return None;
        }
        self.next = origin.state.saturating_add(1);
        self.begin(origin);
        Some(origin)
    }

    /// The number of steps from the kept state to the one at hand.
    pub fn len(&self) -> usize {
        self.steps.len()
    }

    /// The step of that number among these.
    pub fn step(&self, at: usize) -> Option<Step> {
        match self.steps.get(at) {
            Some(step) => Some(*step),
            None => None,
        }
    }

    /// Keeps these steps as those of that list.
    pub fn keep_steps(&mut self, list: usize) -> Between {
        let start = list.wrapping_mul(MOST_STEPS);
        let count = self.steps.len();
        for at in 0..count {
            self.keep_step(at, start.wrapping_add(at));
        }
        Between { start, count }
    }

    fn keep_step(&mut self, at: usize, place: usize) {
        let Some(step) = self.step(at) else {
            return;
        };
        if let Some(kept) = self.lists.get_mut(place) {
            *kept = step;
        }
    }

    /// The step that is `back` steps before the last one of those.
    pub fn step_before(&self, between: Between, back: usize) -> Option<Step> {
        let last = between.start.checked_add(between.count)?.checked_sub(1)?;
        let at = last.checked_sub(back)?;
        match self.lists.get(at) {
            Some(step) => Some(*step),
            None => None,
        }
    }
}

/// The state before that one; the first one where there is none.
fn before(seen: &Seen, state: usize) -> usize {
    match seen.way(state) {
        Some(way) => way.from,
        None => 0,
    }
}
