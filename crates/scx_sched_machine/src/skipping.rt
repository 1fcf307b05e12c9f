//! Milliseconds in which nothing happens but that tasks run and the clock grows: any number of them at once.
ghost use Rattle.std.specs.Prelude.{◌≡◌, ℕ, ◌+◌, ◌^◌, ◌&&◌, ◌<◌, ◌≤◌, true, length, is_some};
ghost use Rattle.scx_isa_semantics.specs.declared.callbacks.Callback.TheVariants.{Tick};
ghost use Rattle.scx_weights.specs.Limits.{usage_of};
ghost use Rattle.scx_sched_world.specs.World.{task_at};
ghost use Rattle.scx_sched_policy.specs.Policy.{program_of};
ghost use Rattle.scx_sched_machine.specs.Steps.{is_by_linux};
ghost use Rattle.scx_sched_machine.specs.Quiet.{FindsNone, IsAtRest, IsQuiet, skipped};

use crate::machine::Machine;
use scx_isa::Callback;
use scx_sched_world::PARKED;
use std::cmp;

/// Quiet milliseconds.
impl Machine {
    /// The number of milliseconds, at most that many, in which nothing happens but that tasks run, if no event comes
    /// but ticks and the clock. It may be less than it could.
    pub fn quiet_ms(&mut self, most: u64) -> u64
        ensures most { result ≤ most }
        ensures quiet { 0 < result → IsQuiet result self.old }
        ensures same { self.new ≡ self.old }
    {
        let ms = self.world.slices_last(most);
        if ms == 0 {
            return 0;
        }
        let _timely = self.policy.defs();
        let calm = self.world.calm_clock(self.policy.timeout_ms());
        let ms = cmp::min(ms, calm.saturating_sub(self.world.clock()));
        if self.is_at_rest() { ms } else { 0 }
    }

    /// True if no task is throttled or parked, no CPU is to look for work, and none finds a task that has none.
    #[tactic(auto, using(crate::proofs::Quiet::at_rest))]
    fn is_at_rest(&mut self) -> bool
        ensures rest { result ≡ true → IsAtRest self.old }
        ensures same { self.new ≡ self.old }
    {
        if self.is_ejected() {
            return false;
        }
        if self.world.is_limited() {
            return false;
        }
        if self.hears_ticks() {
            return false;
        }
        if self.world.len(PARKED) != 0 {
            return false;
        }
        if !self.finds_none() {
            return false;
        }
        self.next_to_look().is_none()
    }

    /// True if the policy hears of ticks: under Linux rules, if it has `tick`.
    fn hears_ticks(&self) -> bool
        ensures { result ≡ (is_by_linux self.now && is_some (program_of self.now.policy Tick)) }
    {
        self.is_by_linux() && self.policy.has_program(Callback::Tick)
    }

    /// True if no CPU on which no task runs finds one.
    fn finds_none(&self) -> bool
        ensures { result ≡ true → (c : ℕ) → c < length self.now.world.cpus → FindsNone self.now c }
    {
        if self.is_by_linux() {
            return true;
        }
        for cpu in 0..self.world.cpus() {
            if self.world.running(cpu).is_none() && !self.stays_idle(cpu) {
                return false;
            }
        }
        true
    }

    /// `ms` quiet milliseconds have passed.
    #[inline(always)]
    pub fn skip(&mut self, ms: u64)
        requires few { ms ≤ 2 ^ 32 }
        requires clock { self.old.world.clock + ms ≤ 2 ^ 32 }
        requires early { (t : ℕ) → (task_at self.old.world t).run_ns ≤ 2 ^ 56 }
        requires used { (g : ℕ) → usage_of self.old.world.tree g ≤ 2 ^ 56 }
        ensures state { self.new ≡ skipped ms self.old }
        ensures few { self.new.world.queues.pushes ≡ self.old.world.queues.pushes }
    {
        self.world.skip(ms);
    }
}
