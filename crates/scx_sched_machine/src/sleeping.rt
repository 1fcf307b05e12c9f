//! A task goes to sleep, from its CPU or from its queue.
ghost use Rattle.std.specs.Prelude.{◌≡◌};
ghost use Rattle.scx_sched_machine.specs.Budgets.{HasRoom, callback_pushes, cycle_pushes, sleep_pushes};
ghost use Rattle.scx_sched_machine.specs.Does.{Goes};
ghost use Rattle.scx_isa_semantics.specs.declared.callbacks.Callback.TheVariants.{Quiescent};
ghost use Rattle.scx_sched_machine.specs.Callbacks.{call_by_linux, task_and_number};
ghost use Rattle.scx_sched_machine.specs.Events.{told_of_sleep, falls_asleep, looks_after_sleep, leaves_cpu, sleep_from_cpu, sleep_from_queue, sleep};

use crate::callbacks::task_and_number;
use crate::machine::Machine;
use crate::sink::Hearer;
use scx_isa::Callback;
use scx_sched_world::What;

impl Machine {
    /// Under Linux rules dispatch is told of the task that goes to sleep.
    #[inline(always)]
    #[tactic(auto, unfolding(crate::specs::Events::told_of_sleep))]
    fn tell_sleep(&mut self, task: u16)
        ensures state { self.new ≡ told_of_sleep self.old task }
        ensures few { self.new.world.queues.pushes ≡ self.old.world.queues.pushes }
    {
        if self.is_by_linux() {
            self.world.tell_slept(task);
        }
    }

    /// The task sleeps, and a policy that has `quiescent` hears that it isn't runnable any more.
    #[inline(always)]
    #[tactic(auto, unfolding(crate::specs::Events::falls_asleep, crate::specs::Callbacks::call_by_linux), using(crate::proofs::Taking::takings))]
    fn fall_asleep<H: Hearer>(&mut self, task: u16, cpu: u32, hearer: &mut H)
        requires { HasRoom callback_pushes self.old }
        ensures { Goes H.noted H.takes H.told H.hears callback_pushes
            (falls_asleep self.old task cpu) self.old hearer.old self.new hearer.new }
    {
        self.world.sleep(task);
        if self.is_by_linux() {
            self.tell_quiescent(task, cpu, hearer);
        }
    }

    /// A policy that has `quiescent` hears that the task went to sleep.
    #[inline(always)]
    #[tactic(auto, using(crate::proofs::Taking::takings))]
    fn tell_quiescent<H: Hearer>(&mut self, task: u16, cpu: u32, hearer: &mut H)
        requires { HasRoom callback_pushes self.old }
        ensures { Goes H.noted H.takes H.told H.hears callback_pushes
            (call_by_linux self.old Quiescent (task_and_number task 1) task cpu)
            self.old hearer.old self.new hearer.new }
    {
        let arguments = task_and_number(task, 1);
        self.call_by_linux(Callback::Quiescent, arguments, task, cpu, hearer);
    }

    /// The CPU of a task that sleeps now looks for another.
    #[inline(always)]
    #[tactic(auto, unfolding(crate::specs::Events::looks_after_sleep), using(crate::proofs::Taking::takings))]
    fn look_after_sleep<H: Hearer>(&mut self, task: u16, cpu: u32, hearer: &mut H)
        requires { HasRoom cycle_pushes self.old }
        ensures { Goes H.noted H.takes H.told H.hears cycle_pushes
            (looks_after_sleep self.old task cpu) self.old hearer.old self.new hearer.new }
    {
        self.tell_sleep(task);
        self.cycle(cpu, None, true, hearer);
    }

    /// A task leaves its CPU. The number says whether it stays runnable.
    #[inline(always)]
    #[tactic(auto, unfolding(crate::specs::Events::leaves_cpu), using(crate::proofs::Taking::takings))]
    pub(crate) fn leave_cpu<H: Hearer>(
        &mut self,
        cpu: u32,
        task: u16,
        runnable: u64,
        hearer: &mut H,
    )
        requires { HasRoom callback_pushes self.old }
        ensures { Goes H.noted H.takes H.told H.hears callback_pushes
            (leaves_cpu self.old cpu task runnable) self.old hearer.old self.new hearer.new }
    {
        hearer.note(self.world.note(What::Stop(task, cpu)));
        self.world.begin_switch(cpu);
        self.world.stop(cpu, task);
        self.call_stopping(cpu, task, runnable, hearer);
    }

    /// A task that runs goes to sleep.
    #[tactic(auto, unfolding(crate::specs::Events::sleep_from_cpu), using(crate::proofs::Taking::takings))]
    fn sleep_from_cpu<H: Hearer>(&mut self, task: u16, cpu: u32, hearer: &mut H)
        requires { HasRoom sleep_pushes self.old }
        ensures { Goes H.noted H.takes H.told H.hears sleep_pushes
            (sleep_from_cpu self.old task cpu) self.old hearer.old self.new hearer.new }
    {
        self.leave_cpu(cpu, task, 0, hearer);
        self.fall_asleep(task, cpu, hearer);
        self.look_after_sleep(task, cpu, hearer);
    }

    /// A task that waits leaves its queue, and sleeps.
    #[inline(always)]
    #[tactic(auto, unfolding(crate::specs::Events::sleep_from_queue), using(crate::proofs::Taking::takings))]
    fn sleep_from_queue<H: Hearer>(&mut self, task: u16, prev: u32, hearer: &mut H)
        requires { HasRoom sleep_pushes self.old }
        ensures { Goes H.noted H.takes H.told H.hears sleep_pushes
            (sleep_from_queue self.old task prev) self.old hearer.old self.new hearer.new }
    {
        self.leave_queue(task, prev, 1, hearer);
        self.fall_asleep(task, prev, hearer);
    }

    /// A task goes to sleep.
    #[inline(never)]
    #[tactic(auto, unfolding(crate::specs::Events::sleep), using(crate::proofs::Taking::takings))]
    pub(crate) fn sleep<H: Hearer>(&mut self, task: u16, hearer: &mut H)
        requires { HasRoom sleep_pushes self.old }
        ensures { Goes H.noted H.takes H.told H.hears sleep_pushes (sleep self.old task)
            self.old hearer.old self.new hearer.new }
    {
        hearer.note(self.world.note(What::Sleep(task)));
        match self.world.cpu_of(task) {
            Some(cpu) => self.sleep_from_cpu(task, cpu, hearer),
            None => {
                let prev = self.world.task(task).prev_cpu;
                self.sleep_from_queue(task, prev, hearer);
            }
        }
    }
}
