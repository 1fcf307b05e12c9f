ghost use Rattle.std.specs.Prelude.{IfSome, Some};
ghost use Rattle.scx_explore.specs.Ends.{IsEndOf};

use crate::progress::{Level, Progress};
use scx_explore_bounds::Bounds;

/// The number of depths that are told, from the first one on.
const FIRST: usize = 64;

/// The number of depths after them, each twice as far as the one before.
const DOUBLED: usize = 10;

/// The end of a search.
#[derive(Clone, Copy)]
pub enum End {
    /// No state is new.
    Ended,
    /// All lists of that many steps were searched.
    At(usize),
    /// All lists of that many steps were searched, and the states after them don't fit.
    Full(usize),
}

/// The course of a search within bounds: the depths that it has come to.
#[derive(Clone, Copy)]
pub struct Course {
    pub bounds: Bounds,
    levels: [Option<Level>; FIRST + DOUBLED],
    /// The last depth of which all lists were searched, if there is one.
    pub last: Option<Level>,
}

impl Course {
    ghost use Rattle.std.specs.Prelude.{◌≡◌, IfSome, None, Some};
    ghost use Rattle.scx_explore.specs.Ends.{IsEndOf, done_of, level_after};

    /// A search that hasn't begun, with these bounds.
    pub fn new(bounds: Bounds) -> Course
        ensures bounds { result.bounds ≡ bounds }
        ensures last { result.last ≡ None }
    {
        Course {
            bounds,
            levels: [None; FIRST + DOUBLED],
            last: None,
        }
    }

    /// The depths that are told before the last one.
    pub fn levels(&self) -> &[Option<Level>] {
        &self.levels
    }

    /// The length up to which all lists were searched.
    pub fn done(&self) -> usize
        ensures { result ≡ done_of self.now.last }
    {
        match self.last {
            Some(level) => level.depth,
            None => 0,
        }
    }

    /// The end of the search after its last progress, if it has ended.
    pub fn end_after(&mut self, progress: Progress) -> Option<End>
        ensures bounds { self.new.bounds ≡ self.old.bounds }
        ensures last { self.new.last ≡ level_after self.old.last progress }
        ensures end { IfSome result (IsEndOf self.new.bounds self.new.last) }
    {
        match progress {
            Progress::Going => None,
            Progress::Full => Some(End::Full(self.done())),
            Progress::Level(level) => {
                self.go_on_to(level);
                end_at(level, self.bounds)
            }
        }
    }

    /// Sets the last depth.
    fn go_on_to(&mut self, level: Level)
        ensures bounds { self.new.bounds ≡ self.old.bounds }
        ensures last { self.new.last ≡ Some level }
    {
        if let Some(last) = self.last {
            keep(&mut self.levels, last);
        }
        self.last = Some(level);
    }
}

/// Keeps the level, if its depth is told.
fn keep(levels: &mut [Option<Level>], level: Level) {
    if let Some(place) = place_of(level.depth) {
        if let Some(kept) = levels.get_mut(place) {
            *kept = Some(level);
        }
    }
}

/// The end of a search that has come to that level, if it has ended.
fn end_at(level: Level, bounds: Bounds) -> Option<End>
    ensures { IfSome result (IsEndOf bounds (Some level)) }
{
    if level.ended {
        Some(End::Ended)
    } else if level.depth >= bounds.depth {
        Some(End::At(level.depth))
    } else {
        None
    }
}

/// The place of the depth among those that are told, if it is one of them.
fn place_of(depth: usize) -> Option<usize> {
    if 1 <= depth && depth <= FIRST {
        return Some(depth - 1);
    }
    for doubled in 0..DOUBLED {
        if depth == (2 * FIRST) << doubled {
            return Some(FIRST + doubled);
        }
    }
    None
}
