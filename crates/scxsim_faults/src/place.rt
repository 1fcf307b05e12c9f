use crate::policy_queues::PolicyQueues;
use scx_isa::{Callback, Helper, Pointer, Value};
use scx_sched_world::Cause;
use scx_vm::Arg;

/// A helper's call, with what r1 to r5 held.
#[derive(Clone, Copy)]
pub struct HelperCall {
    pub helper: Helper,
    /// The number by which the program calls it.
    pub number: i32,
    pub arguments: [Value; 5],
}

impl HelperCall {
    /// The number in the argument at that index, from 0; 0 where it is none.
    pub(crate) fn number_at(&self, index: usize) -> u64 {
        match self.arguments.get(index) {
            Some(Value::Number(n)) => *n,
            _ => 0,
        }
    }

    /// The task in the argument at that index, from 0.
    pub(crate) fn task_at(&self, index: usize) -> Option<u16> {
        match self.arguments.get(index) {
            Some(Value::Pointer(Pointer::Task(task))) => Some(task.0),
            _ => None,
        }
    }
}

/// Where a callback's first fault or exit came.
#[derive(Clone, Copy)]
pub struct FaultPlace {
    pub callback: Callback,
    /// The slot of the instruction, counted from 0.
    pub slot: usize,
    pub cause: Cause,
    /// The call that had the fault or was the exit. None where the callback's answer has the fault.
    pub call: Option<HelperCall>,
    /// The callback's answer.
    pub answer: u64,
    /// The callback's argument in r1.
    pub given: Arg,
    /// The number of CPUs.
    pub cpus: u32,
    /// The CPUs on which the task may run that the call was given first, one bit each; 0 where it was given none.
    pub allowed: u64,
    /// The policy's queues before that.
    pub(crate) queues: PolicyQueues,
}

impl FaultPlace {
    /// The task that the callback is about; in dispatch the one that ran before, if there is one.
    pub fn task(&self) -> Option<u16> {
        match self.given {
            Arg::Task(task) => Some(task.0),
            Arg::Unset | Arg::Num(_) => None,
        }
    }
}
