ghost use Rattle.std.specs.Prelude.{◌≡◌, ◌+◌, ◌≤◌};
ghost use Rattle.scx_sched_machine.specs.Budgets.{HasRoom, pushes_due, enter_pushes, put_pushes};
ghost use Rattle.scx_sched_machine.specs.Does.{Goes};
ghost use Rattle.scx_sched_machine.specs.Put.{enters, enqueue_choice, enters_builtin, comes_in, put};

use crate::callbacks::task_and_number;
use crate::machine::Machine;
use crate::sink::Hearer;
use scx_isa::Callback;
use scx_sched_world::{BUILTIN, Insert, What};

impl Machine {
    /// The task comes to wait as the insert wants it to.
    #[inline(always)]
    #[tactic(auto, unfolding(crate::specs::Put::enters), using(crate::proofs::Taking::takings))]
    pub(crate) fn enter<H: Hearer>(&mut self, task: u16, insert: Insert, hearer: &mut H)
        requires { HasRoom enter_pushes self.old }
        ensures { Goes H.noted H.takes H.told H.hears enter_pushes (enters self.old task insert)
            self.old hearer.old self.new hearer.new }
    {
        hearer.note(self.world.note(What::Insert(task, insert.queue)));
        self.world.enter(task, insert);
    }

    /// Where enqueue wanted the task at hand to wait, for that CPU.
    #[inline(always)]
    fn enqueue_choice(&self, cpu: u32) -> Insert
        ensures { result
            ≡ enqueue_choice self.now.policy.callbacks.enqueue cpu self.now.world.call.insert }
    {
        if self.policy.program(Callback::Enqueue).is_none() {
            return Insert::global();
        }
        match self.world.insert() {
            Some(insert) => insert.for_cpu(cpu),
            None => Insert::held(),
        }
    }

    /// The task comes to wait for the built-in scheduler.
    #[inline(never)]
    #[tactic(auto, unfolding(crate::specs::Put::enters_builtin), using(crate::proofs::Taking::takings))]
    fn enter_builtin<H: Hearer>(&mut self, task: u16, hearer: &mut H)
        requires { HasRoom enter_pushes self.old }
        ensures { Goes H.noted H.takes H.told H.hears enter_pushes (enters_builtin self.old task)
            self.old hearer.old self.new hearer.new }
    {
        hearer.note(self.world.note(What::Insert(task, BUILTIN)));
        self.world.put_builtin(task);
    }

    /// The task comes to wait where enqueue wanted it to, or for the built-in scheduler.
    #[inline(always)]
    #[tactic(auto, unfolding(crate::specs::Put::comes_in), using(crate::proofs::Taking::takings))]
    fn come_in<H: Hearer>(&mut self, task: u16, cpu: u32, hearer: &mut H)
        requires { HasRoom enter_pushes self.old }
        ensures { Goes H.noted H.takes H.told H.hears enter_pushes (comes_in self.old task cpu)
            self.old hearer.old self.new hearer.new }
    {
        if self.is_ejected() {
            self.enter_builtin(task, hearer);
        } else {
            self.enter(task, self.enqueue_choice(cpu), hearer);
        }
    }

    /// Asks enqueue where the task is to wait, and puts it there.
    #[inline(always)]
    #[tactic(auto, unfolding(crate::specs::Put::put), using(crate::proofs::Taking::takings))]
    pub(crate) fn put<H: Hearer>(&mut self, task: u16, cpu: u32, flags: u64, hearer: &mut H)
        requires { HasRoom put_pushes self.old }
        ensures does { Goes H.noted H.takes H.told H.hears put_pushes (put self.old task cpu flags)
            self.old hearer.old self.new hearer.new }
        ensures committed { pushes_due self.new ≤ pushes_due self.old + enter_pushes }
    {
        self.call_back(
            Callback::Enqueue,
            task_and_number(task, flags),
            task,
            cpu,
            hearer,
        );
        self.come_in(task, cpu, hearer);
    }
}
