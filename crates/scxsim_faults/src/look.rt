ghost use Rattle.std.specs.Prelude.{◌≡◌, is_some};

use crate::policy_queues::own_queues;
use scx_sched_world::World;
use scx_vm_tagged::{Core, Watch};

/// Awaits the first fault or exit of a callback, and counts the policy's queues that were created before it.
#[derive(Drop)]
pub(crate) struct Look {
    /// The number of the machine's own queues, which come before the policy's.
    own: usize,
    count: usize,
}

impl Look {
    /// A look at a callback that begins in that world, in which the policy has that many queues.
    pub(crate) fn new(world: &World, count: usize) -> Look {
        let own = own_queues(world);
        Look { own, count }
    }

    /// The number of the policy's queues before the fault or exit.
    pub(crate) fn count(&self) -> usize {
        let count = self.count;
        count
    }
}

impl Watch<World> for Look {
    ghost awaited = { λ w. is_some w.call.cause };

    fn has_come(&self, env: &World) -> bool {
        env.cause().is_some()
    }

    /// An instruction creates at most one queue, which has the next place.
    fn see(&mut self, _slot: usize, _core: &Core, env: &World) {
        let next = self.own.saturating_add(self.count);
        if env.cause().is_none() && env.queue_at(next).is_some() {
            self.count = self.count.saturating_add(1);
        }
    }
}
