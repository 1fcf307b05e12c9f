use crate::faults::Fault;

/// One thing that happened, and at which clock.
#[derive(Clone, Copy, Debug, PartialEq, Eq)]
pub struct Note {
    pub clock: u64,
    pub what: What,
}

/// Tasks, processors and groups go by their numbers, queues by their ids.
#[derive(Clone, Copy, Debug, PartialEq, Eq)]
pub enum What {
    /// A task wakes: it is runnable from now on.
    Wake(u16),
    /// A task goes to sleep: it is runnable no more.
    Sleep(u16),
    /// A task comes to wait in that queue.
    Insert(u16, u64),
    /// A task goes from another queue to the local queue of that processor.
    Move(u16, u32),
    /// A task begins to run on that processor.
    Run(u16, u32),
    /// A task leaves that processor.
    Stop(u16, u32),
    /// No task runs any more on that processor, where one ran as the event began.
    Idle(u32),
    /// A group has that weight from now on.
    Weight(u32, u32),
    /// A task has that weight of its own from now on.
    TaskWeight(u16, u32),
    /// The policy is ejected: that task waited too long.
    Stall(u16),
    /// The policy is ejected: that was the first fault of a callback.
    Fault(Fault),
    /// The policy is ejected: a callback ended it, with that code.
    Exit(i64),
}
