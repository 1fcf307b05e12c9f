//! Tasks leave and come to CPUs.
ghost use Rattle.std.specs.Prelude.{◌≡◌, false};
ghost use Rattle.scx_sched_machine.specs.Budgets.{HasRoom, callback_pushes, leave_pushes, put_pushes};
ghost use Rattle.scx_sched_machine.specs.Does.{Goes};
ghost use Rattle.scx_sched_machine.specs.Steps.{is_by_linux};
ghost use Rattle.scx_sched_machine.specs.Cycle.{after_stopping, after_running, put_back, leave, switched, kept, start, start_picked};

use crate::callbacks::{one_task, task_and_number};
use crate::machine::Machine;
use crate::sink::Hearer;
use scx_isa::Callback;
use scx_sched_world::{Insert, What};

impl Machine {
    /// A task has left its CPU. The number says whether it stays runnable.
    #[inline(always)]
    #[tactic(auto, unfolding(crate::specs::Cycle::after_stopping), using(crate::proofs::Taking::takings))]
    pub(crate) fn call_stopping<H: Hearer>(
        &mut self,
        cpu: u32,
        task: u16,
        runnable: u64,
        hearer: &mut H,
    )
        requires { HasRoom callback_pushes self.old }
        ensures { Goes H.noted H.takes H.told H.hears callback_pushes
            (after_stopping self.old cpu task runnable) self.old hearer.old self.new hearer.new }
    {
        if self.is_ejected() {
            self.world.charge(task);
        } else {
            let arguments = task_and_number(task, runnable);
            self.call_back(Callback::Stopping, arguments, task, cpu, hearer);
        }
    }

    /// A task has come to its CPU.
    #[inline(always)]
    #[tactic(auto, unfolding(crate::specs::Cycle::after_running), using(crate::proofs::Taking::takings))]
    fn call_running<H: Hearer>(&mut self, cpu: u32, task: u16, hearer: &mut H)
        requires { HasRoom callback_pushes self.old }
        ensures { Goes H.noted H.takes H.told H.hears callback_pushes
            (after_running self.old cpu task) self.old hearer.old self.new hearer.new }
    {
        if self.is_ejected() {
            self.world.overtake(task);
        } else {
            self.call_back(Callback::Running, one_task(task), task, cpu, hearer);
        }
    }

    /// A task that was stopped is put. Under Linux rules one with some of its slice left goes to the front of the
    /// local queue.
    #[inline(always)]
    #[tactic(auto, unfolding(crate::specs::Cycle::put_back), using(crate::proofs::Taking::takings))]
    fn put_back<H: Hearer>(&mut self, cpu: u32, task: u16, hearer: &mut H)
        requires { HasRoom put_pushes self.old }
        ensures { Goes H.noted H.takes H.told H.hears put_pushes (put_back self.old cpu task)
            self.old hearer.old self.new hearer.new }
    {
        if self.keeps_slice(Some(task)) {
            self.enter(task, Insert::front(cpu), hearer);
        } else {
            self.put(task, cpu, 0, hearer);
        }
    }

    /// The task before leaves the CPU, and is put.
    #[inline(always)]
    #[tactic(auto, unfolding(crate::specs::Cycle::leave), using(crate::proofs::Taking::takings))]
    pub(crate) fn leave<H: Hearer>(&mut self, cpu: u32, before: Option<u16>, hearer: &mut H)
        requires { HasRoom leave_pushes self.old }
        ensures { Goes H.noted H.takes H.told H.hears leave_pushes (leave self.old cpu before)
            self.old hearer.old self.new hearer.new }
    {
        if let Some(task) = before {
            hearer.note(self.world.note(What::Stop(task, cpu)));
            self.world.stop(cpu, task);
            self.call_stopping(cpu, task, 1, hearer);
            self.put_back(cpu, task, hearer);
        }
    }

    /// By plain rules the task before leaves the CPU, and is put.
    #[inline(always)]
    #[tactic(auto, using(crate::proofs::Taking::takings, crate::proofs::Plainly::leaves))]
    pub(crate) fn leave_plainly<H: Hearer>(&mut self, cpu: u32, before: Option<u16>, hearer: &mut H)
        requires plain { is_by_linux self.old ≡ false }
        requires room { HasRoom leave_pushes self.old }
        ensures { Goes H.noted H.takes H.told H.hears leave_pushes (leave self.old cpu before)
            self.old hearer.old self.new hearer.new }
    {
        if let Some(task) = before {
            hearer.note(self.world.note(What::Stop(task, cpu)));
            self.world.stop(cpu, task);
            self.call_stopping(cpu, task, 1, hearer);
            self.put(task, cpu, 0, hearer);
        }
    }

    /// Under Linux rules with ticks, a task that begins to run has a slice one nanosecond longer.
    #[inline(always)]
    #[tactic(auto, unfolding(crate::specs::Cycle::switched))]
    fn switch(&mut self, task: u16)
        ensures state { self.new ≡ switched self.old task }
        ensures few { self.new.world.queues.pushes ≡ self.old.world.queues.pushes }
    {
        if self.is_by_linux() && self.policy.tick_ms() != 0 {
            self.world.lengthen_slice(task);
        }
    }

    /// A task that keeps the CPU got its slice in this cycle, which is a nanosecond longer too.
    #[inline(always)]
    pub(crate) fn lengthen_kept(&mut self, before: Option<u16>)
        ensures state { self.new ≡ kept self.old before }
        ensures few { self.new.world.queues.pushes ≡ self.old.world.queues.pushes }
    {
        if let Some(task) = before {
            self.switch(task);
        }
    }

    /// The front of the local queue runs.
    #[inline(always)]
    #[tactic(auto, unfolding(crate::specs::Cycle::start), using(crate::proofs::Taking::takings))]
    pub(crate) fn start<H: Hearer>(&mut self, cpu: u32, hearer: &mut H)
        requires { HasRoom callback_pushes self.old }
        ensures { Goes H.noted H.takes H.told H.hears callback_pushes (start self.old cpu)
            self.old hearer.old self.new hearer.new }
    {
        if let Some(task) = self.world.start(cpu) {
            hearer.note(self.world.note(What::Run(task, cpu)));
            self.switch(task);
            self.call_running(cpu, task, hearer);
        }
    }

    /// `start` by plain rules, by which slices stay as long as they are.
    #[inline(always)]
    #[tactic(auto, using(crate::proofs::Taking::takings, crate::proofs::Plainly::starts))]
    pub(crate) fn start_plainly<H: Hearer>(&mut self, cpu: u32, hearer: &mut H)
        requires plain { is_by_linux self.old ≡ false }
        requires room { HasRoom callback_pushes self.old }
        ensures { Goes H.noted H.takes H.told H.hears callback_pushes (start self.old cpu)
            self.old hearer.old self.new hearer.new }
    {
        if let Some(front) = self.world.start(cpu) {
            hearer.note(self.world.note(What::Run(front, cpu)));
            self.call_running(cpu, front, hearer);
        }
    }

    /// The task that was picked runs, from wherever it waits in the local queue.
    #[inline(always)]
    #[tactic(auto, unfolding(crate::specs::Cycle::start_picked), using(crate::proofs::Taking::takings))]
    pub(crate) fn start_picked<H: Hearer>(&mut self, cpu: u32, task: u16, hearer: &mut H)
        requires { HasRoom callback_pushes self.old }
        ensures { Goes H.noted H.takes H.told H.hears callback_pushes (start_picked self.old cpu task)
            self.old hearer.old self.new hearer.new }
    {
        hearer.note(self.world.note(What::Run(task, cpu)));
        self.world.run(cpu, task);
        self.switch(task);
        self.call_running(cpu, task, hearer);
    }
}
