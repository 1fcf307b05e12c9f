ghost use Rattle.std.specs.Prelude.{◌≡◌};
ghost use Rattle.scx_sched.specs.Places.{queue_place, place_in};

use scx_sched_world::{BUILTIN, GLOBAL, HELD, PARKED, POLICY_END};

/// Where a task is.
#[derive(Clone, Copy, Debug, PartialEq, Eq)]
pub enum Place {
    Asleep,
    Cpu(u32),
    /// In a queue of the policy.
    Policy(u64),
    /// In the queue of all processors.
    Global,
    /// In the local queue of a processor.
    Local(u32),
    /// In the machine's own queue of tasks that the policy put nowhere.
    Held,
    /// In the queue of the built-in scheduler.
    Builtin,
    /// In the machine's own queue of tasks that are throttled: runnable, and without a wait.
    Parked,
}

/// The queue of that id.
fn queue_place(queue: u64) -> Place
    ensures { result ≡ queue_place queue }
{
    if queue < POLICY_END {
        Place::Policy(queue)
    } else if queue == GLOBAL {
        Place::Global
    } else if queue == HELD {
        Place::Held
    } else if queue == BUILTIN {
        Place::Builtin
    } else if queue == PARKED {
        Place::Parked
    } else {
        Place::Local((queue % 0x1_0000_0000) as u32)
    }
}

/// On a processor, in a queue, or in neither place.
pub(crate) fn place_in(cpu: Option<u32>, queue: Option<u64>) -> Place
    ensures { result ≡ place_in cpu queue }
{
    if let Some(cpu) = cpu {
        return Place::Cpu(cpu);
    }
    match queue {
        Some(queue) => queue_place(queue),
        None => Place::Asleep,
    }
}
