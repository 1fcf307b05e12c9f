/// The lists of events that a search goes through.
#[derive(Clone, Copy, PartialEq, Eq)]
pub enum Mode {
    /// Each event that the machine accepts, and the weights that the workload changes.
    Events,
    /// In each millisecond any sleeping tasks wake, each processor ticks, any runnable tasks go to sleep, and the
    /// clock grows.
    Milliseconds,
    /// Milliseconds, in lists that are the events of some workload.
    Workloads,
}

/// The bounds of a search.
#[derive(Clone, Copy)]
pub struct Bounds {
    pub mode: Mode,
    /// The most events of a list, or the most milliseconds.
    pub depth: usize,
    /// The most wakes and sleeps of a list, if there is a bound.
    pub few: Option<u8>,
}
