//! Under Linux rules a policy that has `update_idle` hears which CPUs are idle.
ghost use Rattle.std.specs.Prelude.{◌≡◌, true, false, None};
ghost use Rattle.scx_sched_machine.specs.Budgets.{HasRoom, builtin_cycle_pushes, callback_pushes, fall_idle_pushes};
ghost use Rattle.scx_sched_machine.specs.Does.{Goes};
ghost use Rattle.scx_sched_machine.specs.Cycle.{cycling, hears_idle, tells_idle, tells_busy, rest, builtin_cycle, ends, falls_idle, notes_idle, idle_or_anew, becomes_idle, concluded};

use crate::callbacks::two_numbers;
use crate::machine::Machine;
use crate::sink::Hearer;
use scx_isa::Callback;
use scx_sched_world::What;

impl Machine {
    /// True if the policy hears which CPUs are idle: under Linux rules, if it has `update_idle`.
    #[inline(always)]
    #[tactic(auto, unfolding(crate::specs::Cycle::hears_idle))]
    fn hears_idle(&self) -> bool
        ensures { result ≡ hears_idle self.now }
    {
        self.is_by_linux() && self.policy.has_program(Callback::UpdateIdle)
    }

    /// The policy hears that the CPU is idle (1), or idle no more (0).
    #[inline(always)]
    #[tactic(auto, unfolding(crate::specs::Cycle::tells_idle), using(crate::proofs::Taking::takings))]
    fn tell_idle<H: Hearer>(&mut self, cpu: u32, number: u64, hearer: &mut H)
        requires { HasRoom callback_pushes self.old }
        ensures { Goes H.noted H.takes H.told H.hears callback_pushes
            (tells_idle self.old cpu number) self.old hearer.old self.new hearer.new }
    {
        let arguments = two_numbers(u64::from(cpu), number);
        self.call_by_linux(Callback::UpdateIdle, arguments, 0, cpu, hearer);
    }

    /// The policy hears that a CPU that was idle isn't any more.
    #[inline(always)]
    #[tactic(auto, unfolding(crate::specs::Cycle::tells_busy), using(crate::proofs::Taking::takings))]
    pub(crate) fn tell_busy<H: Hearer>(
        &mut self,
        cpu: u32,
        before: Option<u16>,
        ran: bool,
        hearer: &mut H,
    )
        requires { HasRoom callback_pushes self.old }
        ensures { Goes H.noted H.takes H.told H.hears callback_pushes
            (tells_busy self.old cpu before ran) self.old hearer.old self.new hearer.new }
    {
        if before.is_none() && !ran {
            self.tell_idle(cpu, 0, hearer);
        }
    }

    /// No task comes: the one before stays, or the CPU is idle.
    #[inline(always)]
    #[tactic(auto, unfolding(crate::specs::Cycle::rest), using(crate::proofs::Taking::takings))]
    pub(crate) fn rest<H: Hearer>(
        &mut self,
        cpu: u32,
        before: Option<u16>,
        ran: bool,
        hearer: &mut H,
    )
        requires { HasRoom 0 self.old }
        ensures { Goes H.noted H.takes H.told H.hears 0 (rest self.old cpu before ran)
            self.old hearer.old self.new hearer.new }
    {
        if before.is_none() && ran && !self.hears_idle() {
            hearer.note(self.world.note(What::Idle(cpu)));
        }
        self.world.keep(before);
        self.lengthen_kept(before);
    }

    /// True if no task came to a CPU on which one ran, and the policy hears of that.
    #[inline(always)]
    #[tactic(auto, unfolding(crate::specs::Cycle::falls_idle))]
    fn falls_idle(&self, cpu: u32, ran: bool) -> bool
        ensures { result ≡ falls_idle self.now cpu ran }
    {
        ran && self.hears_idle() && self.world.running(cpu).is_none()
    }

    /// The CPU is idle, and that is noted.
    #[tactic(auto, unfolding(crate::specs::Cycle::notes_idle), using(crate::proofs::Taking::takings))]
    fn note_idle<H: Hearer>(&mut self, cpu: u32, hearer: &mut H)
        requires { HasRoom 0 self.old }
        ensures { Goes H.noted H.takes H.told H.hears 0 (notes_idle self.old cpu)
            self.old hearer.old self.new hearer.new }
    {
        hearer.note(self.world.note(What::Idle(cpu)));
        self.world.set_cycling(None);
    }

    /// The cycle begins anew by the built-in scheduler.
    #[tactic(auto, using(crate::proofs::Taking::takings))]
    fn cycle_anew<H: Hearer>(&mut self, cpu: u32, hearer: &mut H)
        requires { HasRoom builtin_cycle_pushes self.old }
        ensures { Goes H.noted H.takes H.told H.hears builtin_cycle_pushes
            (ends (builtin_cycle (cycling self.old (Some cpu)) cpu None true))
            self.old hearer.old self.new hearer.new }
    {
        self.world.set_cycling(Some(cpu));
        self.builtin_cycle(cpu, None, true, hearer);
        self.world.set_cycling(None);
    }

    /// The CPU is idle, and that is noted. If the policy was ejected, the cycle begins anew.
    #[tactic(auto, unfolding(crate::specs::Cycle::idle_or_anew), using(crate::proofs::Taking::takings))]
    fn idle_or_anew<H: Hearer>(&mut self, cpu: u32, hearer: &mut H)
        requires { HasRoom builtin_cycle_pushes self.old }
        ensures { Goes H.noted H.takes H.told H.hears builtin_cycle_pushes
            (idle_or_anew self.old cpu) self.old hearer.old self.new hearer.new }
    {
        if self.is_ejected() {
            self.cycle_anew(cpu, hearer);
        } else {
            self.note_idle(cpu, hearer);
        }
    }

    /// The policy hears that the CPU is idle. The task that was there last is the current one until then.
    #[inline(never)]
    #[tactic(auto, unfolding(crate::specs::Cycle::becomes_idle), using(crate::proofs::Taking::takings))]
    fn become_idle<H: Hearer>(&mut self, cpu: u32, hearer: &mut H)
        requires { HasRoom fall_idle_pushes self.old }
        ensures { Goes H.noted H.takes H.told H.hears fall_idle_pushes (becomes_idle self.old cpu)
            self.old hearer.old self.new hearer.new }
    {
        self.world.end_cycle();
        self.tell_idle(cpu, 1, hearer);
        self.idle_or_anew(cpu, hearer);
    }

    /// The cycle ends. A policy that has `update_idle` hears of a CPU to which no task came.
    #[inline(always)]
    #[tactic(auto, unfolding(crate::specs::Cycle::concluded), using(crate::proofs::Taking::takings))]
    pub(crate) fn end_cycle<H: Hearer>(&mut self, cpu: u32, ran: bool, hearer: &mut H)
        requires { HasRoom fall_idle_pushes self.old }
        ensures { Goes H.noted H.takes H.told H.hears fall_idle_pushes
            (concluded self.old cpu ran) self.old hearer.old self.new hearer.new }
    {
        if self.falls_idle(cpu, ran) {
            self.become_idle(cpu, hearer);
        } else {
            self.world.set_cycling(None);
        }
    }
}
