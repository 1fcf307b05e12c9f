ghost use Rattle.std.specs.Prelude.{◌≡◌};
ghost use Rattle.scx_sched_tasks.specs.Waits.{time_since};

/// The slice of a task at the start, and where nothing else is said, in nanoseconds.
pub const DEFAULT_SLICE: u64 = 20_000_000;

/// The record of a task.
#[derive(Clone, Copy, Debug, PartialEq, Eq)]
pub struct Task {
    /// While it waits, the clock at which it began to: at which it woke or was stopped last.
    pub since: Option<u64>,
    /// The remaining slice, in nanoseconds; 2^64 - 1 never ends.
    pub slice: u64,
    pub vtime: u64,
    /// The CPU on which it ran last.
    pub prev_cpu: u32,
    /// The time that it has run, in nanoseconds.
    pub run_ns: u64,
    /// Its virtual time under the built-in scheduler, 0 up to an ejection.
    pub builtin: u64,
}

impl Task {
    pub(crate) const NEW: Task = Task {
        since: None,
        slice: DEFAULT_SLICE,
        vtime: 0,
        prev_cpu: 0,
        run_ns: 0,
        builtin: 0,
    };

    /// The record that is read where there is no task.
    pub(crate) const NONE: Task = Task {
        since: None,
        slice: 0,
        vtime: 0,
        prev_cpu: 0,
        run_ns: 0,
        builtin: 0,
    };

    /// The length of its wait at that clock; 0 if it isn't waiting.
    pub fn wait(&self, clock: u64) -> u64
        ensures { result ≡ time_since clock self.now.since }
    {
        match self.since {
            Some(since) => clock.saturating_sub(since),
            None => 0,
        }
    }
}
