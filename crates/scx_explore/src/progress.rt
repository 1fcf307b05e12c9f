use scx_explore_findings::Finding;
use scx_explore_machines::{Between, Way};

/// A depth that a search has come to, with the states met and the events tried so far.
#[derive(Clone, Copy)]
pub struct Level {
    pub depth: usize,
    pub states: usize,
    pub events: u64,
    /// The number of revisits of states for which there was no room; none if all of them had room.
    pub again: Option<u64>,
    /// No state of that depth is new, so there is none beyond it.
    pub ended: bool,
}

/// The first finding of a sort, by that step in the state of that number.
#[derive(Clone, Copy)]
pub struct Found {
    pub finding: Finding,
    pub way: Way,
    /// The number of steps of the list.
    pub depth: usize,
    /// The number of events of its last step.
    pub part: usize,
    /// The steps from that state to the last one, where states between had no room.
    pub(crate) between: Between,
}

/// The last progress of a search.
#[derive(Clone, Copy)]
pub enum Progress {
    /// It went through one state.
    Going,
    /// It went through all lists of that many steps.
    Level(Level),
    /// The states that were met are more than there is room for, and too many of them were gone through again.
    Full,
}
