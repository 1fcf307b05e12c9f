use crate::progress::Found;
use scx_explore_findings::{Finding, Sort};
use scx_isa::{CALLBACKS, Callback};

/// The number of sorts.
const SORT_COUNT: usize = 14;

/// The number of callbacks of a policy.
const CALLBACK_COUNT: usize = 14;

/// The list of the steps to the longest wait, after those to the findings of each sort.
pub(crate) const WAIT_LIST: usize = SORT_COUNT;

/// The list of the steps to the most instructions of the first callback.
pub(crate) const MOST_LIST: usize = WAIT_LIST + 1;

/// The number of findings to which steps are kept.
pub(crate) const LISTS: usize = MOST_LIST + CALLBACK_COUNT;

/// All findings up to now.
#[derive(Clone, Copy)]
pub(crate) struct Finds {
    found: [Option<Found>; SORT_COUNT],
    /// The number of sorts that were found.
    count: usize,
    /// The longest wait.
    wait: Option<Found>,
    wait_ms: u64,
    /// The most instructions of each callback.
    most: [Option<Found>; CALLBACK_COUNT],
    is_overtaken: bool,
}

impl Finds {
    pub(crate) const NONE: Finds = Finds {
        found: [None; SORT_COUNT],
        count: 0,
        wait: None,
        wait_ms: 0,
        most: [None; CALLBACK_COUNT],
        is_overtaken: false,
    };

    pub(crate) fn found(&self, place: usize) -> Option<Found> {
        match self.found.get(place) {
            Some(found) => *found,
            None => None,
        }
    }

    /// The number of sorts that were found.
    pub(crate) fn count(&self) -> usize {
        self.count
    }

    pub(crate) fn has_found(&self, sort: Sort) -> bool {
        for found in &self.found {
            if is_of(*found, sort) {
                return true;
            }
        }
        false
    }

    /// True if a task was overtaken twice.
    #[inline(always)]
    pub(crate) fn is_overtaken(&self) -> bool {
        self.is_overtaken
    }

    /// True if it is of a sort of which nothing was found.
    pub(crate) fn is_new(&self, finding: Finding) -> bool {
        match finding.sort() {
            Some(sort) => !self.has_found(sort),
            None => false,
        }
    }

    /// Keeps the first of a sort.
    pub(crate) fn find(&mut self, found: Found) {
        if let Some(place) = self.found.get_mut(self.count) {
            *place = Some(found);
            self.count = self.count.saturating_add(1);
        }
        if let Finding::Overtaken(_) = found.finding {
            self.is_overtaken = true;
        }
    }

    pub(crate) fn wait(&self) -> Option<Found> {
        self.wait
    }

    /// The longest wait.
    #[inline(always)]
    pub(crate) fn wait_ms(&self) -> u64 {
        let ms = self.wait_ms;
        ms
    }

    pub(crate) fn set_wait(&mut self, found: Found, ms: u64) {
        self.wait = Some(found);
        self.wait_ms = ms;
    }

    pub(crate) fn most(&self, callback: Callback) -> Option<Found> {
        for place in 0..CALLBACK_COUNT {
            if CALLBACKS[place] == callback {
                return self.most_at(place);
            }
        }
        None
    }

    fn most_at(&self, place: usize) -> Option<Found> {
        match self.most.get(place) {
            Some(most) => *most,
            None => None,
        }
    }

    /// The callback at that place of `CALLBACKS` took more than before.
    pub(crate) fn set_most(&mut self, place: usize, found: Found) {
        if let Some(most) = self.most.get_mut(place) {
            *most = Some(found);
        }
    }
}

fn is_of(found: Option<Found>, sort: Sort) -> bool {
    match found {
        Some(found) => match found.finding.sort() {
            Some(other) => other.number() == sort.number(),
            None => false,
        },
        None => false,
    }
}
