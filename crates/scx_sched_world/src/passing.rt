/// A CPU that goes over from one task to another, and the task that ran there as the last cycle on it ended.
#[derive(Clone, Copy)]
pub struct Switch {
    pub cpu: u32,
    pub from: Option<u16>,
}

/// Facts that an event by Linux rules keeps until it ends.
#[derive(Clone, Copy)]
pub struct Passing {
    /// The task that went to sleep from the CPU on which a cycle is to begin, or is under way.
    pub slept: Option<u16>,
    /// The CPU on which a task leaves, or a cycle is under way.
    pub switching: Option<Switch>,
    /// The CPU from which a task is woken.
    pub waker: Option<u32>,
    /// The timer whose callback is at hand.
    pub timer: Option<u32>,
}

impl Passing {
    pub(crate) const NOTHING: Passing = Passing {
        slept: None,
        switching: None,
        waker: None,
        timer: None,
    };
}
