ghost use Rattle.std.specs.Prelude.{◌≡◌};
ghost use Rattle.scx_explore_findings.specs.Findings.{sort_number, sort_of};

use scx_isa::Callback;
use scx_sched::Fault;

/// A task that waits, and another one that runs.
#[derive(Clone, Copy)]
pub struct Pair {
    pub waits: u16,
    pub runs: u16,
}

/// A sort of finding that a search looks for.
#[derive(Clone, Copy)]
pub enum Sort {
    /// The policy is ejected for that fault of a callback.
    Fault(Fault),
    /// The policy is ejected because a task waited too long.
    Stall,
    /// A processor is idle after its own tick, while a task that may run there waits in a queue of the policy or is held,
    /// or, under Linux rules, is in GLOBAL.
    Idle,
    /// A task waits while another of its group began to run twice.
    Overtaken,
    /// A callback ended the policy.
    Exit,
}

/// All sorts, in the order in which they are told.
pub const SORTS: [Sort; 14] = [
    Sort::Fault(Fault::Stuck),
    Sort::Fault(Fault::NoSuchQueue),
    Sort::Fault(Fault::CannotInsert),
    Sort::Fault(Fault::Mixed),
    Sort::Fault(Fault::BuiltinVtime),
    Sort::Fault(Fault::NoSuchCpu),
    Sort::Fault(Fault::UnknownFlag),
    Sort::Fault(Fault::CannotCreate),
    Sort::Fault(Fault::IdleUntracked),
    Sort::Fault(Fault::NotAllowed),
    Sort::Stall,
    Sort::Idle,
    Sort::Overtaken,
    Sort::Exit,
];

/// A finding, at the last event of a list.
#[derive(Clone, Copy)]
pub enum Finding {
    /// The policy is ejected for that fault.
    Fault(Fault),
    /// The policy is ejected because that task waited too long.
    Stall(u16),
    /// The CPU is left idle by its own tick, while the task waits and may run there.
    Idle {
        cpu: u32,
        task: u16,
    },
    /// A task waits while another one, of the same group, began to run twice.
    Overtaken(Pair),
    /// A callback ended the policy, with that code.
    Exit(i64),
    /// After the list the task waits and has waited for `ms` milliseconds, with the policy in force.
    Waits {
        task: u16,
        ms: u64,
    },
    /// In the last event a run of that callback takes that many instructions.
    Takes {
        callback: Callback,
        instructions: u64,
    },
}

impl Sort {
    /// Its place in `SORTS`.
    pub fn number(self) -> u8
        ensures { result ≡ sort_number self }
    {
        match self {
            Sort::Fault(fault) => fault.number(),
            Sort::Stall => 10,
            Sort::Idle => 11,
            Sort::Overtaken => 12,
            Sort::Exit => 13,
        }
    }
}

impl Finding {
    /// Its sort; a wait and a count of instructions have none.
    pub fn sort(self) -> Option<Sort>
        ensures { result ≡ sort_of self }
    {
        match self {
            Finding::Fault(fault) => Some(Sort::Fault(fault)),
            Finding::Stall(_) => Some(Sort::Stall),
            Finding::Idle { .. } => Some(Sort::Idle),
            Finding::Overtaken(_) => Some(Sort::Overtaken),
            Finding::Exit(_) => Some(Sort::Exit),
            Finding::Waits { .. } | Finding::Takes { .. } => None,
        }
    }
}
