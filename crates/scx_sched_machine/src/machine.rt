ghost use Rattle.std.specs.Prelude.{◌≡◌, IfOk};
ghost use Rattle.scx_sched_world.specs.World.{IsLike};
ghost use Rattle.scx_sched_machine.specs.Steps.{is_by_linux, kicked, kicked_if_idle};
ghost use Rattle.scx_sched_machine.specs.Cycle.{has_local, keeps_slice, told_of, moved_in_vain, asks_again};

use scx_maps::Maps;
use scx_sched_policy::Policy;
use scx_sched_world::World;
use scx_vm_run::Core;
use std::alloc::{AllocError, Global};
use std::marker::Model;

/// A policy, its maps, and the world that its programs see.
#[derive(Drop)]
pub struct Machine {
    pub(crate) policy: Policy,
    pub(crate) maps: Maps,
    pub(crate) world: World,
    /// The core on which programs run, one after another.
    pub(crate) core: Core,
}

impl Model for Machine {
    ghost use Rattle.scx_maps.specs.Contents.{HasShapes};
    ghost use Rattle.scx_sched_machine.specs.Steps.{State};

    ghost Value = { State };

    ghost view = { λ m. record { policy = m.policy; maps = m.maps; world = m.world } };

    // The maps keep the shapes that the policy's programs were verified for.
    ghost invariant = { λ m. HasShapes m.policy.shapes m.maps };
}

impl Machine {
    pub fn policy(&self) -> &Policy
        ensures { result.now ≡ self.now.policy }
    {
        &self.policy
    }

    pub fn world(&self) -> &World
        ensures { result.now ≡ self.now.world }
    {
        &self.world
    }

    pub fn maps(&self) -> &Maps
        ensures { result.now ≡ self.now.maps }
    {
        &self.maps
    }

    /// Becomes a copy of the other machine, which has the same policy. No memory is taken.
    pub fn copy_from(&mut self, other: &Machine)
        requires policy { self.old.policy ≡ other.now.policy }
        requires world { IsLike self.old.world other.now.world }
        ensures { self.new ≡ other.now }
    {
        self.maps.copy_from(&other.maps);
        self.world.copy_from(&other.world);
    }

    /// A copy of the machine, in memory of its own.
    pub fn duplicate(&self, alloc: Global) -> Result<Machine, AllocError>
        ensures { IfOk result (λ copy. copy ≡ self.now) }
    {
        let policy = self.policy.duplicate(alloc);
        let maps = self.maps.duplicate(alloc);
        let world = self.world.duplicate(alloc);
        match (policy, maps, world) {
            (Ok(policy), Ok(maps), Ok(world)) => Ok(Machine {
                policy,
                maps,
                world,
                core: Core::new(),
            }),
            (policy, maps, world) => {
                drop(policy);
                drop(maps);
                drop(world);
                Err(AllocError)
            }
        }
    }

    /// True if a task waits in the CPU's local queue.
    pub(crate) fn has_local(&self, cpu: u32) -> bool
        ensures { result ≡ has_local self.now cpu }
    {
        self.world.has_local(cpu)
    }

    /// True if the machine goes by Linux rules: the policy does, and is in force.
    #[inline(always)]
    pub(crate) fn is_by_linux(&self) -> bool
        ensures { result ≡ is_by_linux self.now }
    {
        self.world.is_by_linux()
    }

    /// True if the task keeps the CPU on which it ran, as some of its slice is left: under Linux rules alone.
    #[inline(always)]
    pub(crate) fn keeps_slice(&self, before: Option<u16>) -> bool
        ensures { result ≡ keeps_slice self.now before }
    {
        match before {
            Some(task) => self.is_by_linux() && self.world.task(task).slice != 0,
            None => false,
        }
    }

    /// The task that dispatch is told of: the one before, or the one that went to sleep.
    #[inline(always)]
    pub(crate) fn told_of(&self, before: Option<u16>) -> Option<u16>
        ensures { result ≡ told_of self.now before }
    {
        match before {
            Some(task) => Some(task),
            None => self.world.slept(),
        }
    }

    /// True if dispatch moved a task, and the local queue is still empty.
    #[inline(always)]
    pub(crate) fn moved_in_vain(&self, cpu: u32) -> bool
        ensures { result ≡ moved_in_vain self.now cpu }
    {
        self.world.is_local_empty(cpu) && self.world.has_moved()
    }

    /// True if dispatch is called again: it moved a task, the local queue is still empty, and no task keeps the
    /// CPU.
    #[inline(always)]
    pub(crate) fn asks_again(&self, cpu: u32, before: Option<u16>) -> bool
        ensures { result ≡ asks_again self.now cpu before }
    {
        !self.keeps_slice(before) && self.moved_in_vain(cpu)
    }

    /// The CPU looks for work as the event ends.
    pub(crate) fn kick(&mut self, cpu: u32)
        ensures state { self.new ≡ kicked self.old cpu }
        ensures few { self.new.world.queues.pushes ≡ self.old.world.queues.pushes }
    {
        self.world.kick(cpu);
    }

    /// The CPU looks for work as the event ends, if it is idle: under Linux rules alone.
    #[inline(always)]
    pub(crate) fn kick_if_idle(&mut self, cpu: u32)
        ensures state { self.new ≡ kicked_if_idle self.old cpu }
        ensures few { self.new.world.queues.pushes ≡ self.old.world.queues.pushes }
    {
        if self.is_by_linux() && self.world.is_idle(cpu) {
            self.kick(cpu);
        }
    }
}
