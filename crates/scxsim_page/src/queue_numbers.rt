use arrayvec::ArrayVec;
use scx_sched_world::{BUILTIN, GLOBAL, HELD, PARKED, POLICY_END};
use scxsim_template::PARKED_NUMBER;

/// The most queues of a policy.
pub(crate) const POLICY_QUEUES: usize = 16;

const GLOBAL_NUMBER: u16 = 16;

const HELD_NUMBER: u16 = 17;

const BUILTIN_NUMBER: u16 = 18;

/// The number of CPU 0's own queue; those of the others come after it.
pub(crate) const LOCAL_NUMBER: u16 = 20;

/// In place of a queue: the task has just woken.
pub(crate) const NO_QUEUE: u16 = 65_535;

/// The queues of a policy, in the order in which they were first used.
#[derive(Drop)]
pub(crate) struct QueueNumbers {
    ids: ArrayVec<u64, POLICY_QUEUES>,
}

impl QueueNumbers {
    pub(crate) fn new() -> QueueNumbers {
        QueueNumbers {
            ids: ArrayVec::new(),
        }
    }

    /// The number that the queue of that id has in a page.
    pub(crate) fn number(&mut self, id: u64) -> u16 {
        if id < POLICY_END {
            self.own_number(id)
        } else if id == GLOBAL {
            GLOBAL_NUMBER
        } else if id == HELD {
            HELD_NUMBER
        } else if id == BUILTIN {
            BUILTIN_NUMBER
        } else if id == PARKED {
            PARKED_NUMBER
        } else {
            local_number((id % 0x1_0000_0000) as u32)
        }
    }

    /// The number of a queue that the policy created.
    fn own_number(&mut self, id: u64) -> u16 {
        let mut number = 0u16;
        for known in self.ids.as_slice() {
            if *known == id {
                return number;
            }
            number = number.saturating_add(1);
        }
        // A policy has no more queues than there is room for.
        let _ = self.ids.try_push(id);
        number
    }

    /// The ids of those that were used.
    pub(crate) fn ids(&self) -> &[u64] {
        self.ids.as_slice()
    }
}

/// The number of the own queue of a CPU.
pub(crate) fn local_number(cpu: u32) -> u16 {
    LOCAL_NUMBER.saturating_add(cpu.min(u32::from(NO_QUEUE)) as u16)
}
