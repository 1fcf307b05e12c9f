ghost use Rattle.std.specs.Prelude.{◌≡◌};
ghost use Rattle.scx_sched_world.specs.Ejecting.{eject_of, eject_note};

use crate::faults::Fault;
use crate::notes::What;

/// The reason for which a callback puts the policy out of force, as it ends.
#[derive(Clone, Copy, Debug, PartialEq, Eq)]
pub enum Cause {
    /// Its first fault.
    Fault(Fault),
    /// It called `exit`, with that code (`scx_bpf_exit`).
    Exit(i64),
}

impl Cause {
    /// The ejection for it, at that clock.
    pub fn at(self, clock: u64) -> Eject
        ensures { result ≡ eject_of self clock }
    {
        match self {
            Cause::Fault(fault) => Eject::Fault(fault, clock),
            Cause::Exit(code) => Eject::Exit(code, clock),
        }
    }
}

/// The cause of an ejection, and its clock.
#[derive(Clone, Copy, Debug, PartialEq, Eq)]
pub enum Eject {
    /// A task waited longer than the policy may let one wait.
    Stall(u16, u64),
    /// A callback had a fault; this was its first one.
    Fault(Fault, u64),
    /// A callback ended the policy, with that code.
    Exit(i64, u64),
}

impl Eject {
    /// The note of the ejection.
    pub fn what(self) -> What
        ensures { result ≡ eject_note self }
    {
        match self {
            Eject::Stall(task, _) => What::Stall(task),
            Eject::Fault(fault, _) => What::Fault(fault),
            Eject::Exit(code, _) => What::Exit(code),
        }
    }
}
