use scx_explore_findings::{Heard, Sort};
use scx_explore_machines::Seen;
use scx_explore_states::{Form, QueueNumbers};

/// The moves of which lists are made.
#[derive(Clone, Copy, PartialEq, Eq)]
pub enum Moves {
    /// Events: a wake or a sleep of a task, a tick of a CPU, or the clock.
    Events,
    /// Milliseconds: some tasks wake, each CPU ticks, some tasks go to sleep, and the clock grows.
    Milliseconds,
}

/// A table of states, and the claim that is audited.
#[derive(Clone, Copy)]
pub struct Table<'a> {
    /// The form in which states are written.
    pub form: Form,
    /// The numbers of queues in them.
    pub numbers: &'a QueueNumbers,
    /// The states.
    pub seen: &'a Seen,
    /// The sorts that none of them is to show: faults, stalls, or CPUs that are left idle.
    pub sorts: &'a [Sort],
    /// The moves of which lists are made.
    pub moves: Moves,
    /// The most moves of a list, if that is bounded.
    pub limit: Option<usize>,
}

/// A table, and how many moves lead to each of its states.
#[derive(Clone, Copy)]
pub(crate) struct Charted<'a> {
    pub(crate) table: Table<'a>,
    pub(crate) depths: &'a [usize],
}

/// The watch of an audit, and its place for words.
#[derive(Drop)]
pub(crate) struct Hand {
    /// The tasks that begin to run while another waits, as searches keep them.
    pub(crate) heard: Heard,
    /// A place for the words of one state.
    pub(crate) words: Vec<u64>,
}
