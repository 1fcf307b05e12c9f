ghost use Rattle.std.specs.Prelude.{◌≡◌};
ghost use Rattle.scx_sched_world.specs.Faults.{fault_number};

/// A fault of a callback. A helper call with a fault changes nothing else.
#[derive(Clone, Copy, Debug, PartialEq, Eq)]
pub enum Fault {
    /// It can't go on. No callback that was verified comes to that.
    Stuck,
    /// No such queue that may be named here.
    NoSuchQueue,
    /// The task can't be inserted here, or not a second time.
    CannotInsert,
    /// By virtual time where tasks wait in order of arrival, or the other way round.
    Mixed,
    /// By virtual time into one of the machine's own queues.
    BuiltinVtime,
    /// A processor that isn't there, or its local queue.
    NoSuchCpu,
    /// An insert has flags that are greater than 1.
    UnknownFlag,
    /// The id is no policy's, a queue has it, or there is no room for another.
    CannotCreate,
    /// The host was asked which CPUs are idle, and the policy keeps track of them itself.
    IdleUntracked,
    /// The task may not run on the processor to which it was to go.
    NotAllowed,
}

impl Fault {
    /// Its number, 0 to 9 in the order above.
    pub fn number(self) -> u8
        ensures { result ≡ fault_number self }
    {
        match self {
            Fault::Stuck => 0,
            Fault::NoSuchQueue => 1,
            Fault::CannotInsert => 2,
            Fault::Mixed => 3,
            Fault::BuiltinVtime => 4,
            Fault::NoSuchCpu => 5,
            Fault::UnknownFlag => 6,
            Fault::CannotCreate => 7,
            Fault::IdleUntracked => 8,
            Fault::NotAllowed => 9,
        }
    }
}
