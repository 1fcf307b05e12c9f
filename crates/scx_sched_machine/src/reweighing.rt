//! The weight of a task changes.
ghost use Rattle.std.specs.Prelude.{◌≡◌, ◌+◌, ◌*◌, true};
ghost use Rattle.scx_sched_machine.specs.Budgets.{HasRoom, callback_pushes, put_pushes, reweigh_pushes};
ghost use Rattle.scx_sched_machine.specs.Does.{Goes};
ghost use Rattle.scx_sched_machine.specs.Steps.{is_by_linux};
ghost use Rattle.scx_sched_machine.specs.Events.{takes_weight, changes_weight, reweigh_running, reweigh_waiting, reweigh_off_cpu, reweigh_at, reweigh_by_linux, reweigh};

use crate::callbacks::{one_task, task_and_number};
use crate::machine::Machine;
use crate::sink::Hearer;
use scx_isa::Callback;

/// The flag with which a task that was changed is runnable again: RESTORE of Linux.
const RESTORE: u64 = 2;

/// The flags of a task that leaves to be changed: SAVE and SCHED_CHANGE of Linux.
const CHANGE: u64 = (1 << 33) + 2;

impl Machine {
    /// The task has that weight, and the policy hears it.
    #[tactic(auto, unfolding(crate::specs::Events::takes_weight), using(crate::proofs::Taking::takings))]
    fn take_weight<H: Hearer>(&mut self, task: u16, cpu: u32, weight: u32, hearer: &mut H)
        requires { HasRoom callback_pushes self.old }
        ensures { Goes H.noted H.takes H.told H.hears callback_pushes
            (takes_weight self.old task cpu weight) self.old hearer.old self.new hearer.new }
    {
        self.world.set_task_weight(task, weight);
        let arguments = task_and_number(task, u64::from(weight));
        self.call_by_linux(Callback::SetWeight, arguments, task, cpu, hearer);
    }

    /// The policy hears that the task isn't runnable, its weight, and that it is runnable again.
    #[tactic(auto, unfolding(crate::specs::Events::changes_weight), using(crate::proofs::Taking::takings))]
    fn change_weight<H: Hearer>(&mut self, task: u16, cpu: u32, weight: u32, hearer: &mut H)
        requires { HasRoom (callback_pushes * 3) self.old }
        ensures { Goes H.noted H.takes H.told H.hears (callback_pushes * 3)
            (changes_weight self.old task cpu weight) self.old hearer.old self.new hearer.new }
    {
        let change = task_and_number(task, CHANGE);
        self.call_by_linux(Callback::Quiescent, change, task, cpu, hearer);
        self.take_weight(task, cpu, weight, hearer);
        let restore = task_and_number(task, RESTORE);
        self.call_by_linux(Callback::Runnable, restore, task, cpu, hearer);
    }

    /// A task that runs stays on its CPU. The policy hears that it stops before the change and runs again after it.
    #[tactic(auto, unfolding(crate::specs::Events::reweigh_running), using(crate::proofs::Taking::takings))]
    fn reweigh_running<H: Hearer>(&mut self, task: u16, cpu: u32, weight: u32, hearer: &mut H)
        requires { HasRoom reweigh_pushes self.old }
        ensures { Goes H.noted H.takes H.told H.hears reweigh_pushes
            (reweigh_running self.old task cpu weight) self.old hearer.old self.new hearer.new }
    {
        let arguments = task_and_number(task, 0);
        self.call_by_linux(Callback::Stopping, arguments, task, cpu, hearer);
        self.change_weight(task, cpu, weight, hearer);
        self.call_by_linux(Callback::Running, one_task(task), task, cpu, hearer);
    }

    /// A task that waits leaves its queue, and is put again. Its wait goes on.
    #[tactic(auto, unfolding(crate::specs::Events::reweigh_waiting), using(crate::proofs::Taking::takings))]
    fn reweigh_waiting<H: Hearer>(&mut self, task: u16, cpu: u32, weight: u32, hearer: &mut H)
        requires { HasRoom reweigh_pushes self.old }
        ensures { Goes H.noted H.takes H.told H.hears reweigh_pushes
            (reweigh_waiting self.old task cpu weight) self.old hearer.old self.new hearer.new }
    {
        self.leave_queue(task, cpu, CHANGE, hearer);
        self.change_weight(task, cpu, weight, hearer);
        self.put(task, cpu, 0, hearer);
    }

    /// A task that doesn't run: one that sleeps or is parked stays where it is.
    #[tactic(auto, unfolding(crate::specs::Events::reweigh_off_cpu), using(crate::proofs::Taking::takings))]
    fn reweigh_off_cpu<H: Hearer>(&mut self, task: u16, prev: u32, weight: u32, hearer: &mut H)
        requires { HasRoom reweigh_pushes self.old }
        ensures { Goes H.noted H.takes H.told H.hears reweigh_pushes
            (reweigh_off_cpu self.old task prev weight) self.old hearer.old self.new hearer.new }
    {
        if self.world.waits(task) {
            self.reweigh_waiting(task, prev, weight, hearer);
        } else {
            self.take_weight(task, prev, weight, hearer);
        }
    }

    /// A task on that CPU, or off.
    #[tactic(auto, using(crate::proofs::Taking::takings))]
    fn reweigh_at<H: Hearer>(&mut self, at: Option<u32>, task: u16, weight: u32, hearer: &mut H)
        requires { HasRoom reweigh_pushes self.old }
        ensures { Goes H.noted H.takes H.told H.hears reweigh_pushes
            (reweigh_at at self.old task weight) self.old hearer.old self.new hearer.new }
    {
        match at {
            Some(cpu) => self.reweigh_running(task, cpu, weight, hearer),
            None => {
                let prev = self.world.task(task).prev_cpu;
                self.reweigh_off_cpu(task, prev, weight, hearer);
            }
        }
    }

    /// The weight of a task changes by Linux rules, with all callbacks on CPU 0.
    #[inline(never)]
    #[tactic(auto, unfolding(crate::specs::Events::reweigh_by_linux), using(crate::proofs::Taking::takings))]
    fn reweigh_by_linux<H: Hearer>(&mut self, task: u16, weight: u32, hearer: &mut H)
        requires { HasRoom reweigh_pushes self.old }
        ensures { Goes H.noted H.takes H.told H.hears reweigh_pushes
            (reweigh_by_linux self.old task weight) self.old hearer.old self.new hearer.new }
    {
        let at = self.world.cpu_of(task);
        self.world.tell_waker(Some(0));
        self.reweigh_at(at, task, weight, hearer);
        self.world.tell_waker(None);
    }

    /// The weight of a task changes. A policy that is out of force hears nothing of it, nor does one by plain rules.
    #[tactic(auto, unfolding(crate::specs::Events::reweigh), using(crate::proofs::Taking::takings))]
    pub(crate) fn reweigh<H: Hearer>(&mut self, task: u16, weight: u32, hearer: &mut H)
        requires { HasRoom reweigh_pushes self.old }
        ensures { Goes H.noted H.takes H.told H.hears reweigh_pushes
            (reweigh self.old task weight) self.old hearer.old self.new hearer.new }
    {
        if self.is_by_linux() {
            self.reweigh_by_linux(task, weight, hearer);
        } else {
            self.world.set_task_weight(task, weight);
        }
    }
}
