ghost use Rattle.std.specs.Prelude.{◌≡◌};
ghost use Rattle.scxsim_template.specs.Pieces.{moment_of, length_of, ran_in, waited_in, parked_in};

/// The CPU of a stretch that isn't a run.
pub const NOWHERE: u8 = 255;

/// The queue of a stretch in which a task is parked.
pub const PARKED_NUMBER: u16 = 19;

/// The end of a stretch.
#[derive(Clone, Copy)]
pub enum End {
    /// With the run of the workload.
    RunOver,
    /// The task was stopped, and had work to do.
    Stopped,
    Slept,
    /// Its group had used up its quota.
    Parked,
    /// It began to run.
    Ran,
    /// It went on to another queue.
    WentOn,
    /// A new period of its group let it go.
    LetGo,
    /// It went on after the part of the run that is shown.
    CutOff,
}

/// The beginning of a stretch.
#[derive(Clone, Copy)]
pub enum Beginning {
    /// Something else ended, or it had begun before the part of the run that is shown.
    GoesOn,
    Woke,
    /// The task had been stopped.
    WasStopped,
    /// It had been let go.
    WasLetGo,
    /// It had been stopped, and had waited without a tick before: for a millisecond by the clock.
    HadWaited,
}

/// From one moment to another a task ran on a CPU, or waited.
#[derive(Clone, Copy)]
pub struct Stretch {
    /// Both are sums of a moment and its clock, which is one less where a millisecond ends: the sum is odd then.
    pub since: u64,
    pub until: u64,
    pub task: u16,
    /// The number of the queue in which it waited, or from which it came.
    pub queue: u16,
    /// The CPU on which it ran.
    pub place: u8,
    pub beginning: Beginning,
    pub end: End,
}

/// A stretch of no time, in place of one that isn't there.
pub const NOTHING: Stretch = Stretch {
    since: 0,
    until: 0,
    task: 0,
    queue: 0,
    place: 0,
    beginning: Beginning::GoesOn,
    end: End::RunOver,
};

impl Stretch {
    /// The time for which the task ran in it.
    pub fn ran(self) -> u64
        ensures { result ≡ ran_in self }
    {
        if self.place == NOWHERE {
            0
        } else {
            self.length()
        }
    }

    /// The time for which the task waited in it, and wasn't parked.
    pub fn waited(self) -> u64
        ensures { result ≡ waited_in self }
    {
        if self.place != NOWHERE || self.queue == PARKED_NUMBER {
            0
        } else {
            self.length()
        }
    }

    /// The time for which the task was parked in it.
    pub fn parked(self) -> u64
        ensures { result ≡ parked_in self }
    {
        if self.place != NOWHERE || self.queue != PARKED_NUMBER {
            0
        } else {
            self.length()
        }
    }

    fn length(self) -> u64
        ensures { result ≡ length_of self }
    {
        moment_of(self.until).saturating_sub(moment_of(self.since))
    }
}

/// The moment in a sum of a moment and its clock.
pub fn moment_of(sum: u64) -> u64
    ensures { result ≡ moment_of sum }
{
    sum.div_ceil(2)
}
