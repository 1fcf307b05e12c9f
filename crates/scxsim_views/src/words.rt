use scx_sched_world::{BUILTIN, Fault, GLOBAL, HELD, PARKED, POLICY_END};
use std::fmt;

/// A queue, by the name that a trace has for it.
#[derive(Clone, Copy)]
pub struct QueueName(pub u64);

impl fmt::Display for QueueName {
    fn fmt<W: fmt::Write>(&self, f: &mut fmt::Formatter<W>) -> fmt::Result {
        let queue = self.0;
        if queue < POLICY_END {
            write!(f, "queue {queue}")
        } else if queue == GLOBAL {
            f.write_str("global")
        } else if queue == HELD {
            f.write_str("held")
        } else if queue == BUILTIN {
            f.write_str("builtin")
        } else if queue == PARKED {
            f.write_str("parked")
        } else {
            let cpu = queue % 0x1_0000_0000;
            write!(f, "local {cpu}")
        }
    }
}

/// A fault in a few words.
pub fn fault_words(fault: Fault) -> &'static str {
    match fault {
        Fault::Stuck => "the callback can't go on",
        Fault::NoSuchQueue => "no such queue",
        Fault::CannotInsert => "the task can't be inserted here, or not a second time",
        Fault::Mixed => "by virtual time and in order of arrival into one queue",
        Fault::BuiltinVtime => "by virtual time into a queue of the machine",
        Fault::NoSuchCpu => "no such CPU",
        Fault::UnknownFlag => "flags other than 0 and 1",
        Fault::CannotCreate => "the queue can't be created",
        Fault::IdleUntracked => "the policy tracks idle CPUs itself",
        Fault::NotAllowed => "the task may not run on that CPU",
    }
}
