//! Timers: each that is due runs once, as the clock grows.
ghost use Rattle.std.specs.Prelude.{◌≡◌, ◌≤◌, Some};
ghost use Rattle.scx_sched_machine.specs.Budgets.{HasRoom, callback_pushes, calm_pushes, pushes_due};
ghost use Rattle.scx_sched_machine.specs.Does.{Goes};
ghost use Rattle.scx_sched_machine.specs.Firing.{due, fires, fire, fire_all};

use crate::callbacks::one_number;
use crate::machine::Machine;
use crate::sink::Hearer;
use scx_isa::Callback;
use scx_sched_world::Alarm;

impl Machine {
    /// The alarm of the timer, if it is due by now and the policy is in force.
    #[tactic(auto, unfolding(crate::specs::Firing::due))]
    fn due(&self, timer: u32) -> Option<Alarm>
        ensures { result ≡ due self.now timer }
    {
        if self.is_by_linux() {
            self.world.due(timer)
        } else {
            None
        }
    }

    /// The timer isn't started any more, and its callback runs on the CPU on which it was started.
    #[tactic(auto, unfolding(crate::specs::Budgets::eject_left), using(crate::proofs::Taking::takings))]
    fn run_timer<H: Hearer>(&mut self, alarm: Alarm, timer: u32, hearer: &mut H)
        requires { HasRoom callback_pushes self.old }
        ensures does { Goes H.noted H.takes H.told H.hears callback_pushes
            (fires (Some alarm) self.old timer) self.old hearer.old self.new hearer.new }
        ensures calm { pushes_due self.new ≤ pushes_due self.old }
    {
        self.world.fire(timer);
        let arguments = one_number(u64::from(timer));
        self.call_by_linux(Callback::Timer, arguments, 0, alarm.cpu, hearer);
        self.world.fired();
    }

    /// The timer runs, if it is due.
    #[tactic(auto, unfolding(crate::specs::Firing::fire), using(crate::proofs::Taking::takings))]
    fn fire<H: Hearer>(&mut self, timer: u32, hearer: &mut H)
        requires { HasRoom callback_pushes self.old }
        ensures does { Goes H.noted H.takes H.told H.hears callback_pushes
            (fire self.old timer) self.old hearer.old self.new hearer.new }
        ensures calm { pushes_due self.new ≤ pushes_due self.old }
    {
        if let Some(alarm) = self.due(timer) {
            self.run_timer(alarm, timer, hearer);
        }
    }

    /// All timers that are due run, by number.
    #[inline(never)]
    #[tactic(auto, unfolding(crate::specs::Firing::fire_all), using(crate::proofs::Taking::takings))]
    fn fire_each<H: Hearer>(&mut self, hearer: &mut H)
        requires { HasRoom calm_pushes self.old }
        ensures { Goes H.noted H.takes H.told H.hears calm_pushes (fire_all self.old)
            self.old hearer.old self.new hearer.new }
    {
        for timer in 0..self.world.timers() {
            self.fire(timer, hearer);
        }
    }

    /// All timers that are due run. Most policies have none.
    #[inline(always)]
    #[tactic(auto, using(crate::proofs::Taking::takings, crate::proofs::Alarms::fire_none))]
    pub(crate) fn fire_all<H: Hearer>(&mut self, hearer: &mut H)
        requires { HasRoom calm_pushes self.old }
        ensures { Goes H.noted H.takes H.told H.hears calm_pushes (fire_all self.old)
            self.old hearer.old self.new hearer.new }
    {
        if self.world.timers() != 0 {
            self.fire_each(hearer);
        }
    }
}
