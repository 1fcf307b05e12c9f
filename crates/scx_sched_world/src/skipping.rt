//! Milliseconds in which nothing happens but that tasks run and the clock grows: any number of them at once.
ghost use Rattle.std.specs.Prelude.{◌≡◌, ℕ, ◌+◌, ◌^◌, ◌<◌, ◌≤◌, length, Some};
ghost use Rattle.scx_weights.specs.Limits.{usage_of, with_uses};
ghost use Rattle.scx_sched_tasks.specs.Tasks.{after_many};
ghost use Rattle.scx_sched_world.specs.declared.timers.Alarm.{Alarm};
ghost use Rattle.scx_sched_world.specs.World.{task_at, with_task, with_tree, running};
ghost use Rattle.scx_sched_world.specs.Helpers.{alarm_at};
ghost use Rattle.scx_sched_world.specs.Quiet.{ran_for, ticked_for, all_ticked, skipped, SlicesLast, StaysCalm};

use crate::world::World;
use scx_isa::Callback;
use std::cmp;

/// A millisecond, in nanoseconds.
const MS_NS: u64 = 1_000_000;

/// Quiet milliseconds.
impl World {
    /// A task that there is ran for `ms` milliseconds, which are charged to its groups.
    #[inline(always)]
    #[tactic(auto, using(crate::proofs::Parked::known_used_for))]
    fn charge_for(&mut self, task: u16, ms: u64)
        requires known { task < length self.old.tasks }
        requires used { (g : ℕ) → usage_of self.old.tree g + ms ≤ 2 ^ 63 }
        ensures { self.new ≡ with_tree self.old (with_uses self.old.tree task ms) }
    {
        self.tree.charge_for(u32::from(task), ms);
    }

    /// A task that there is has run for that many milliseconds.
    #[inline(always)]
    fn run_task_for(&mut self, task: u16, ms: u64)
        requires known { task < length self.old.tasks }
        requires few { ms ≤ 2 ^ 32 }
        requires early { (task_at self.old task).run_ns < 2 ^ 63 }
        ensures { self.new ≡ with_task self.old task (after_many ms (task_at self.old task)) }
    {
        self.tasks.run_for(task, ms);
    }

    /// The task has run for that many milliseconds, which its groups have used.
    #[inline(always)]
    #[tactic(auto, using(crate::proofs::Quiet::ran_known, crate::proofs::Quiet::ran_past))]
    fn run_for(&mut self, task: u16, ms: u64)
        requires few { ms ≤ 2 ^ 32 }
        requires early { (task_at self.old task).run_ns < 2 ^ 63 }
        requires used { (g : ℕ) → usage_of self.old.tree g + ms ≤ 2 ^ 63 }
        ensures { self.new ≡ ran_for ms self.old task }
    {
        if (task as usize) < self.tasks.len() {
            self.run_task_for(task, ms);
            self.charge_for(task, ms);
        }
    }

    /// The CPU has ticked that many times. The task that runs there ran all the while, or none came.
    #[inline(always)]
    fn tick_for(&mut self, cpu: u32, ms: u64)
        requires few { ms ≤ 2 ^ 32 }
        requires early { (t : ℕ) → (task_at self.old t).run_ns < 2 ^ 63 }
        requires used { (g : ℕ) → usage_of self.old.tree g + ms ≤ 2 ^ 63 }
        ensures { self.new ≡ ticked_for ms self.old cpu (running self.old cpu) }
    {
        match self.running(cpu) {
            Some(task) => self.run_for(task, ms),
            None => {
                if !self.by_linux {
                    self.begin(Callback::Dispatch, 0, cpu);
                }
            }
        }
    }

    /// Each CPU has ticked that many times.
    #[tactic(auto, using(crate::proofs::Quiet::all_ticked_next, crate::proofs::Quiet::ticked_ran, crate::proofs::Quiet::ticked_used))]
    fn tick_all_for(&mut self, ms: u64)
        requires few { ms ≤ 2 ^ 32 }
        requires early { (t : ℕ) → (task_at self.old t).run_ns ≤ 2 ^ 56 }
        requires used { (g : ℕ) → usage_of self.old.tree g ≤ 2 ^ 56 }
        ensures { self.new ≡ all_ticked ms (length self.old.cpus) self.old }
    {
        for cpu in 0..self.cpus() {
            self.tick_for(cpu, ms);
        }
    }

    /// `ms` milliseconds have passed. Periods begin at the last one.
    pub fn skip(&mut self, ms: u64)
        requires few { ms ≤ 2 ^ 32 }
        requires clock { self.old.clock + ms ≤ 2 ^ 32 }
        requires early { (t : ℕ) → (task_at self.old t).run_ns ≤ 2 ^ 56 }
        requires used { (g : ℕ) → usage_of self.old.tree g ≤ 2 ^ 56 }
        ensures world { self.new ≡ skipped ms self.old }
        ensures few { self.new.queues.pushes ≡ self.old.queues.pushes }
    {
        self.tick_all_for(ms);
        self.clock += ms;
        self.begin_periods();
    }

    /// The milliseconds, at most that many, after which each running task has some of its slice left.
    #[inline(always)]
    pub fn slices_last(&self, most: u64) -> u64
        ensures most { result ≤ most }
        ensures last { 0 < result → SlicesLast result self.now }
    {
        let mut ms = most;
        for cpu in 0..self.cpus() {
            if let Some(task) = self.running(cpu) {
                ms = cmp::min(ms, self.task(task).slice.saturating_sub(1) / MS_NS);
                if ms == 0 {
                    return 0;
                }
            }
        }
        ms
    }

    /// A clock up to which no task waits longer than the limit and no timer is due, and before which no period
    /// begins; or one that is over.
    #[inline(always)]
    pub fn calm_clock(&self, limit: u64) -> u64
        requires { limit ≤ 2 ^ 32 }
        ensures { self.now.clock < result → StaysCalm self.now limit result }
    {
        let clock = cmp::min(
            self.tree.next_turn(self.clock),
            self.tasks.oldest_wait().saturating_add(limit),
        );
        self.before_timers(clock)
    }

    /// The greatest clock, at most that one, at which no timer is due.
    fn before_timers(&self, most: u64) -> u64
        ensures most { result ≤ most }
        ensures early { 0 < result → (k : ℕ) (a : Alarm) → alarm_at self.now k ≡ Some a → result < a.due }
    {
        let mut clock = most;
        for timer in 0..self.timers() {
            if let Some(alarm) = self.alarm(timer) {
                clock = cmp::min(clock, alarm.due.saturating_sub(1));
            }
        }
        clock
    }
}
