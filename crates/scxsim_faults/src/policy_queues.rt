ghost use Rattle.std.specs.Prelude.{◌≡◌, ◌≤◌, length, take};
ghost use Rattle.scxsim_faults.specs.Queues.{listed, with_queue, policy_queues};

use scx_sched_world::{POLICY_END, World};
use std::cmp;

/// The most queues that a policy may create.
const MOST: usize = 16;

/// The queues of the machine itself besides one for each CPU. These come first.
const OWN: usize = 4;

/// The number of the machine's own queues.
pub(crate) fn own_queues(world: &World) -> usize {
    OWN + world.cpus() as usize
}

/// The ids of a policy's queues, in the order in which it created them.
#[derive(Clone, Copy)]
pub struct PolicyQueues {
    ids: [u64; MOST],
    count: usize,
}

impl PolicyQueues {
    /// The number of queues that the policy has in that world.
    pub(crate) fn count_in(world: &World) -> usize
        ensures { length (policy_queues world.now) ≤ result }
    {
        let queues = PolicyQueues::of(world);
        let count = queues.count;
        count
    }

    /// The first of the queues that the policy has in that world, at most that many.
    pub(crate) fn first_in(world: &World, count: usize) -> PolicyQueues
        ensures { listed result ≡ take count (policy_queues world.now) }
    {
        let queues = PolicyQueues::of(world);
        queues.first(count)
    }

    /// The queues that the policy has in that world.
    fn of(world: &World) -> PolicyQueues
        ensures listed { listed result ≡ policy_queues world.now }
        ensures count { length (policy_queues world.now) ≤ result.count }
        ensures few { result.count ≤ 16 }
    {
        let mut queues = PolicyQueues {
            ids: [0; MOST],
            count: 0,
        };
        for place in 0..MOST + OWN + world.cpus() as usize {
            if let Some(id) = world.queue_at(place) {
                queues.add(id);
            }
        }
        queues
    }

    /// Adds a queue, if it is a policy's.
    fn add(&mut self, id: u64)
        requires { self.old.count ≤ 16 }
        ensures listed { listed self.new ≡ with_queue (listed self.old) id }
        ensures few { self.new.count ≤ 16 }
    {
        if id < POLICY_END && self.count < MOST {
            self.ids[self.count] = id;
            self.count += 1;
        }
    }

    /// The first of the queues, at most that many.
    fn first(self, count: usize) -> PolicyQueues
        ensures { listed result ≡ take count (listed self) }
    {
        let ids = self.ids;
        let count = cmp::min(count, self.count);
        PolicyQueues { ids, count }
    }

    /// The ids of the queues.
    pub(crate) fn ids(&self) -> &[u64] {
        match self.ids.get(..self.count) {
            Some(ids) => ids,
            None => &[],
        }
    }

    pub(crate) fn has(&self, id: u64) -> bool {
        self.ids().contains(&id)
    }
}
