ghost use Rattle.std.specs.Prelude.{◌≡◌, ◌+◌, ◌^◌, ◌<◌, ◌≤◌, length, is_some};
ghost use Rattle.scx_sched_world.specs.World.{running};
ghost use Rattle.scx_sched_world.specs.Ejecting.{builtin_vtime, put_builtin, after_catch_up, used_vtime, after_charge, put_out, evict, cut_task, after_cut};

use crate::eject::Eject;
use crate::ids::BUILTIN;
use crate::passing::Passing;
use crate::world::World;
use scx_dsq::Rank;
use scx_sched_tasks::DEFAULT_SLICE;
use std::cmp;

/// The ejection of a policy, and the built-in scheduler that takes its place.
impl World {
    /// Why and when the policy was put out of force.
    pub fn ejected(&self) -> Option<Eject>
        ensures { result ≡ self.now.ejected }
    {
        let ejected = self.ejected;
        ejected
    }

    pub fn is_ejected(&self) -> bool
        ensures { result ≡ is_some self.now.ejected }
    {
        self.ejected.is_some()
    }

    /// The policy is out of force. What the callback at hand wanted and what Linux rules keep of the event are
    /// forgotten, and the host tracks idle CPUs again.
    pub fn put_out(&mut self, why: Eject)
        ensures world { self.new ≡ put_out self.old why }
        ensures few { self.new.queues.pushes ≡ self.old.queues.pushes }
    {
        self.ejected = Some(why);
        self.call.has_insert = false;
        self.call.has_moved = false;
        self.passing = Passing::NOTHING;
        self.tracks_idle = true;
        self.by_linux = false;
    }

    /// A task that waits in any queue waits for the built-in scheduler.
    pub fn evict(&mut self, task: u16)
        requires few { self.old.queues.pushes < 2 ^ 63 }
        ensures world { self.new ≡ evict self.old task }
        ensures few { self.new.queues.pushes ≤ self.old.queues.pushes + 1 }
    {
        if self.waits(task) {
            self.leave_queue(task);
            self.put_builtin(task);
        }
    }

    /// The tasks that run keep no more of their slices than the built-in scheduler gives.
    pub fn cut(&mut self)
        ensures world { self.new ≡ after_cut (length self.old.cpus) self.old }
        ensures few { self.new.queues.pushes ≡ self.old.queues.pushes }
    {
        for cpu in 0..self.cpus() {
            let task = self.running(cpu);
            self.cut_task(task);
        }
    }

    fn cut_task(&mut self, task: Option<u16>)
        ensures world { self.new ≡ cut_task task self.old }
        ensures few { self.new.queues.pushes ≡ self.old.queues.pushes }
    {
        if let Some(task) = task {
            let mut facts = self.task(task);
            facts.slice = cmp::min(facts.slice, DEFAULT_SLICE);
            self.set_task(task, facts);
        }
    }

    /// The task waits for the built-in scheduler, at most a slice before its clock.
    pub fn put_builtin(&mut self, task: u16)
        requires few { self.old.queues.pushes < 2 ^ 63 }
        ensures world { self.new ≡ put_builtin self.old task }
        ensures few { self.new.queues.pushes ≤ self.old.queues.pushes + 1 }
    {
        if (task as usize) < self.tasks.len() {
            let vtime = self.builtin_vtime(task);
            let mut facts = self.task(task);
            facts.builtin = vtime;
            facts.slice = DEFAULT_SLICE;
            self.set_task(task, facts);
            self.push(BUILTIN, task, Rank::Vtime(vtime));
        }
    }

    /// The virtual time by which the task waits for the built-in scheduler.
    fn builtin_vtime(&self, task: u16) -> u64
        ensures { result ≡ builtin_vtime self.now task }
    {
        let earliest = self.builtin_clock.saturating_sub(DEFAULT_SLICE);
        cmp::max(self.task(task).builtin, earliest)
    }

    /// The task runs under the built-in scheduler, whose clock is no earlier from now on.
    pub fn overtake(&mut self, task: u16)
        ensures world { self.new ≡ after_catch_up self.old task }
        ensures few { self.new.queues.pushes ≡ self.old.queues.pushes }
    {
        self.builtin_clock = cmp::max(self.builtin_clock, self.task(task).builtin);
    }

    /// The task stops under the built-in scheduler, and has used what is gone of its slice.
    pub fn charge(&mut self, task: u16)
        ensures world { self.new ≡ after_charge self.old task }
        ensures few { self.new.queues.pushes ≡ self.old.queues.pushes }
    {
        let mut facts = self.task(task);
        facts.builtin = facts.builtin.saturating_add(self.used(task));
        self.set_task(task, facts);
    }

    /// The time that the task used of its slice, times 100 over its weight.
    fn used(&self, task: u16) -> u64
        ensures number { result ≡ used_vtime self.now task }
        ensures most { result ≤ 2_000_000_000 }
    {
        let gone = DEFAULT_SLICE.saturating_sub(self.task(task).slice);
        gone * 100 / cmp::max(self.weight(task), 1)
    }
}
