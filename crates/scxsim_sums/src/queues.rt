use scx_sched_world::{GLOBAL, HELD, LOCAL_ON, PARKED, POLICY_END};
use std::alloc::{AllocError, Global};

/// The most queues of a policy.
const MOST: usize = 16;

/// The queue of a task that neither runs nor sleeps.
#[derive(Clone, Copy)]
pub enum Queue {
    /// A queue of the policy, by its place among those it has used.
    Policy(usize),
    /// The queue of all CPUs.
    Global,
    /// With the tasks that the policy has put into no queue.
    Held,
    /// With the built-in scheduler.
    BuiltIn,
    /// In the local queue of that CPU.
    Local(u64),
    /// A group that it lies in has used up its quota.
    Parked,
}

impl Queue {
    pub(crate) fn is_parked(self) -> bool {
        match self {
            Queue::Parked => true,
            Queue::Policy(_) | Queue::Global | Queue::Held | Queue::BuiltIn | Queue::Local(_) => {
                false
            }
        }
    }
}

/// A queue of the policy, and whether a wait in it is drawn.
#[derive(Clone, Copy)]
pub struct Used {
    pub id: u64,
    pub is_drawn: bool,
}

/// The queues that a policy has used, in the order of their first use, and which queues are drawn.
#[derive(Drop)]
pub struct DrawnQueues {
    pub policy: Vec<Used>,
    pub global: bool,
    pub held: bool,
    pub built_in: bool,
    pub local: bool,
    pub parked: bool,
    /// True if some waits are too short to be drawn by themselves.
    pub short: bool,
}

impl DrawnQueues {
    pub(crate) fn new(alloc: Global) -> Result<DrawnQueues, AllocError> {
        Ok(DrawnQueues {
            policy: Vec::with_capacity(alloc, MOST)?,
            global: false,
            held: false,
            built_in: false,
            local: false,
            parked: false,
            short: false,
        })
    }

    /// The queue of that id.
    pub(crate) fn queue(&mut self, id: u64) -> Queue {
        if id < POLICY_END {
            return Queue::Policy(self.place(id));
        }
        if id >= LOCAL_ON {
            return Queue::Local(id.saturating_sub(LOCAL_ON));
        }
        if id == HELD {
            Queue::Held
        } else if id == PARKED {
            Queue::Parked
        } else if id == GLOBAL {
            Queue::Global
        } else {
            Queue::BuiltIn
        }
    }

    /// The place of a queue of the policy, which is kept if it is new.
    fn place(&mut self, id: u64) -> usize {
        let place = place_of(&self.policy, id);
        if place == self.policy.len() && place < MOST {
            // There is room for it.
            let _ = self.policy.push(Used {
                id,
                is_drawn: false,
            });
        }
        place
    }

    /// A wait in that queue is drawn.
    pub(crate) fn draw(&mut self, queue: Queue) {
        match queue {
            Queue::Policy(place) => {
                if let Some(used) = self.policy.get_mut(place) {
                    used.is_drawn = true;
                }
            }
            Queue::Global => self.global = true,
            Queue::Held => self.held = true,
            Queue::BuiltIn => self.built_in = true,
            Queue::Local(_) => self.local = true,
            Queue::Parked => self.parked = true,
        }
    }

    /// The id of the queue of the policy in a place.
    pub fn id(&self, place: usize) -> u64 {
        match self.policy.get(place) {
            Some(used) => used.id,
            None => 0,
        }
    }
}

/// The place of the queue of that id, or the first place after all.
fn place_of(used: &[Used], id: u64) -> usize {
    let mut place = 0usize;
    for one in used {
        if one.id == id {
            return place;
        }
        place = place.saturating_add(1);
    }
    place
}
