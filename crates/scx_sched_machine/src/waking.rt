//! A task wakes: a CPU is chosen for it, and it comes to wait.
ghost use Rattle.std.specs.Prelude.{◌≡◌, ◌<◌, true, false, length, Some, None};
ghost use Rattle.scx_isa_semantics.specs.declared.callbacks.Callback.TheVariants.{SelectCpu};
ghost use Rattle.scx_sched_machine.specs.Budgets.{HasRoom, cycle_pushes, put_pushes, runnable_pushes, settle_pushes, wake_pushes};
ghost use Rattle.scx_sched_machine.specs.Does.{Goes};
ghost use Rattle.scx_sched_machine.specs.Steps.{is_by_linux};
ghost use Rattle.scx_sched_machine.specs.Callbacks.{acting};
ghost use Rattle.scx_sched_machine.specs.Events.{cpu_or_home, target, insert_or_put, wake_target, comes_to, while_in_force, told_runnable, settle, settle_at_home, chosen, ask_target, select, from_waker, wake};

use crate::callbacks::{task_and_number, task_cpu_and_0};
use crate::machine::Machine;
use crate::sink::Hearer;
use scx_isa::Callback;
use scx_sched_world::{Insert, What};

impl Machine {
    /// The CPU for which a task that wakes is put, if select_cpu answered that number.
    #[inline(always)]
    fn target(&self, task: u16, answer: u64) -> u32
        ensures { result ≡ target (acting self.now SelectCpu) self.now.world task (Some answer) }
    {
        if self.is_ejected() || self.policy.program(Callback::SelectCpu).is_none() {
            return self.world.default_choice(task);
        }
        if answer < u64::from(self.world.cpus()) {
            self.cpu_or_home(task, answer as u32)
        } else {
            self.world.default_choice(task)
        }
    }

    /// The CPU, or the lowest one on which the task may run, if it may not run on that.
    fn cpu_or_home(&self, task: u16, cpu: u32) -> u32
        ensures { result ≡ cpu_or_home self.now.world task cpu }
    {
        if self.world.may_run(task, cpu) {
            cpu
        } else {
            self.world.first_home(task)
        }
    }

    /// Applies that insert of select_cpu, or puts the task.
    #[inline(always)]
    #[tactic(auto, using(crate::proofs::Taking::takings))]
    fn apply_or_put<H: Hearer>(
        &mut self,
        insert: Option<Insert>,
        task: u16,
        cpu: u32,
        hearer: &mut H,
    )
        requires { HasRoom put_pushes self.old }
        ensures { Goes H.noted H.takes H.told H.hears put_pushes
            (insert_or_put insert self.old task cpu)
            self.old hearer.old self.new hearer.new }
    {
        match insert {
            Some(insert) => self.enter(task, insert.for_cpu(cpu), hearer),
            None => self.put(task, cpu, 1, hearer),
        }
    }

    /// If the target is idle it looks for a task: under Linux rules as the event ends, else at once.
    #[inline(always)]
    #[tactic(auto, unfolding(crate::specs::Events::wake_target), using(crate::proofs::Taking::takings))]
    fn wake_target<H: Hearer>(&mut self, cpu: u32, hearer: &mut H)
        requires { HasRoom cycle_pushes self.old }
        ensures { Goes H.noted H.takes H.told H.hears cycle_pushes (wake_target self.old cpu)
            self.old hearer.old self.new hearer.new }
    {
        if self.is_by_linux() {
            self.world.tell_waker(None);
            self.kick_if_idle(cpu);
        } else if self.world.is_idle(cpu) {
            self.cycle(cpu, None, false, hearer);
        }
    }

    /// The task comes to wait for the target, and a target that is idle looks for a task.
    #[tactic(auto, unfolding(crate::specs::Events::comes_to), using(crate::proofs::Taking::takings))]
    fn come_to<H: Hearer>(&mut self, insert: Option<Insert>, task: u16, cpu: u32, hearer: &mut H)
        requires { HasRoom settle_pushes self.old }
        ensures { Goes H.noted H.takes H.told H.hears settle_pushes
            (comes_to insert self.old task cpu) self.old hearer.old self.new hearer.new }
    {
        self.apply_or_put(insert, task, cpu, hearer);
        self.wake_target(cpu, hearer);
    }

    /// The insert, unless the policy is out of force.
    fn while_in_force(&self, insert: Option<Insert>) -> Option<Insert>
        ensures { result ≡ while_in_force self.now insert }
    {
        if !self.is_ejected() { insert } else { None }
    }

    /// A policy that has `runnable` hears that the task woke, and the task comes to wait for the target.
    #[tactic(auto, unfolding(crate::specs::Events::told_runnable), using(crate::proofs::Taking::takings))]
    fn tell_runnable<H: Hearer>(
        &mut self,
        insert: Option<Insert>,
        task: u16,
        cpu: u32,
        hearer: &mut H,
    )
        requires { HasRoom runnable_pushes self.old }
        ensures { Goes H.noted H.takes H.told H.hears runnable_pushes
            (told_runnable insert self.old task cpu) self.old hearer.old self.new hearer.new }
    {
        let arguments = task_and_number(task, 1);
        self.call_by_linux(Callback::Runnable, arguments, task, cpu, hearer);
        let insert = self.while_in_force(insert);
        self.come_to(insert, task, cpu, hearer);
    }

    /// A task that woke comes to wait for the target by plain rules.
    #[inline(always)]
    #[tactic(auto, using(crate::proofs::Taking::takings, crate::proofs::Plainly::settles))]
    fn settle_plainly<H: Hearer>(&mut self, task: u16, cpu: u32, hearer: &mut H)
        requires plain { is_by_linux self.old ≡ false }
        requires room { HasRoom settle_pushes self.old }
        ensures { Goes H.noted H.takes H.told H.hears settle_pushes (settle self.old task cpu)
            self.old hearer.old self.new hearer.new }
    {
        let insert = self.world.insert();
        self.apply_or_put(insert, task, cpu, hearer);
        let is_idle = self.world.is_idle(cpu);
        if is_idle {
            self.cycle(cpu, None, false, hearer);
        }
    }

    /// A task that woke comes to wait for the target, which is its CPU from then on, by Linux rules.
    #[inline(always)]
    #[tactic(auto, using(crate::proofs::Taking::takings, crate::proofs::Plainly::settles_by_linux))]
    fn settle_by_linux<H: Hearer>(&mut self, task: u16, cpu: u32, hearer: &mut H)
        requires linux { is_by_linux self.old ≡ true }
        requires room { HasRoom runnable_pushes self.old }
        ensures { Goes H.noted H.takes H.told H.hears runnable_pushes (settle self.old task cpu)
            self.old hearer.old self.new hearer.new }
    {
        self.world.set_home(task, cpu);
        let insert = self.world.insert();
        self.tell_runnable(insert, task, cpu, hearer);
    }

    /// A task that woke comes to wait for the target.
    #[inline(always)]
    #[tactic(auto, using(crate::proofs::Taking::takings))]
    fn settle<H: Hearer>(&mut self, task: u16, cpu: u32, hearer: &mut H)
        requires { HasRoom runnable_pushes self.old }
        ensures { Goes H.noted H.takes H.told H.hears runnable_pushes (settle self.old task cpu)
            self.old hearer.old self.new hearer.new }
    {
        if self.is_by_linux() {
            self.settle_by_linux(task, cpu, hearer);
        } else {
            self.settle_plainly(task, cpu, hearer);
        }
    }

    /// If no program was asked, Linux rules claim the CPU that is chosen by default, and insert the task into its
    /// local queue.
    #[inline(always)]
    fn choose(&mut self, task: u16)
        ensures state { self.new ≡ chosen (acting self.old SelectCpu) self.old task }
        ensures few { self.new.world.queues.pushes ≡ self.old.world.queues.pushes }
    {
        if self.is_by_linux() && !self.policy.has_program(Callback::SelectCpu) {
            self.choose_by_default(task);
        }
    }

    /// Claims the CPU that is chosen for the task, if one is, and inserts the task into its local queue.
    fn choose_by_default(&mut self, task: u16)
        requires { is_by_linux self.old ≡ true }
        ensures state { self.new ≡ chosen None self.old task }
        ensures few { self.new.world.queues.pushes ≡ self.old.world.queues.pushes }
    {
        if let Some(cpu) = self.world.choice(task) {
            self.world.claim(Some(cpu));
            self.world.keep_insert(Insert::local(cpu));
        }
    }

    /// Asks select_cpu for the target of the task.
    #[tactic(auto, unfolding(crate::specs::Events::ask_target), using(crate::proofs::Taking::takings))]
    fn ask_target<H: Hearer>(&mut self, task: u16, hearer: &mut H)
        requires { HasRoom wake_pushes self.old }
        ensures { Goes H.noted H.takes H.told H.hears wake_pushes (ask_target self.old task)
            self.old hearer.old self.new hearer.new }
    {
        let prev = self.world.task(task).prev_cpu;
        let arguments = task_cpu_and_0(task, prev);
        let answer = self.call_back(Callback::SelectCpu, arguments, task, prev, hearer);
        let cpu = self.target(task, answer);
        self.choose(task);
        self.settle(task, cpu, hearer);
    }

    /// Asks select_cpu for the target of a task that wakes by plain rules.
    #[inline(always)]
    #[tactic(auto, using(crate::proofs::Taking::takings, crate::proofs::Plainly::selects, crate::proofs::Steady::plain_called))]
    fn select_plainly<H: Hearer>(&mut self, task: u16, hearer: &mut H)
        requires plain { is_by_linux self.old ≡ false }
        requires room { HasRoom wake_pushes self.old }
        ensures { Goes H.noted H.takes H.told H.hears wake_pushes
            (select (from_waker self.old task) task) self.old hearer.old self.new hearer.new }
    {
        let prev = self.world.task(task).prev_cpu;
        let arguments = task_cpu_and_0(task, prev);
        let answer = self.call_back(Callback::SelectCpu, arguments, task, prev, hearer);
        let cpu = self.target(task, answer);
        self.settle_plainly(task, cpu, hearer);
    }

    /// Asks for the target of a task that wakes by Linux rules, unless it may run on one CPU alone.
    #[inline(always)]
    #[tactic(auto, unfolding(crate::specs::Events::select, crate::specs::Events::from_waker), using(crate::proofs::Taking::takings))]
    fn select_by_linux<H: Hearer>(&mut self, task: u16, hearer: &mut H)
        requires linux { is_by_linux self.old ≡ true }
        requires room { HasRoom wake_pushes self.old }
        ensures { Goes H.noted H.takes H.told H.hears wake_pushes
            (select (from_waker self.old task) task) self.old hearer.old self.new hearer.new }
    {
        let prev = self.world.task(task).prev_cpu;
        self.world.tell_waker(Some(prev));
        if self.world.has_one_cpu(task) {
            let home = self.world.first_home(task);
            self.settle_at_home(task, home, hearer);
        } else {
            self.ask_target(task, hearer);
        }
    }

    /// A task that woke comes to wait for that CPU, the only one on which it may run, and nobody is asked.
    #[inline(never)]
    #[tactic(auto, unfolding(crate::specs::Events::settle_at_home), using(crate::proofs::Taking::takings))]
    fn settle_at_home<H: Hearer>(&mut self, task: u16, cpu: u32, hearer: &mut H)
        requires { HasRoom runnable_pushes self.old }
        ensures { Goes H.noted H.takes H.told H.hears runnable_pushes
            (settle_at_home self.old task cpu) self.old hearer.old self.new hearer.new }
    {
        self.world.begin(Callback::SelectCpu, task, cpu);
        self.settle(task, cpu, hearer);
    }

    /// A task wakes.
    #[inline(never)]
    #[tactic(auto, unfolding(crate::specs::Events::wake), using(crate::proofs::Taking::takings))]
    pub(crate) fn wake<H: Hearer>(&mut self, task: u16, hearer: &mut H)
        requires known { task < length self.old.world.tasks }
        requires room { HasRoom wake_pushes self.old }
        ensures { Goes H.noted H.takes H.told H.hears wake_pushes (wake self.old task)
            self.old hearer.old self.new hearer.new }
    {
        hearer.note(self.world.note(What::Wake(task)));
        self.world.wake(task);
        if self.is_by_linux() {
            self.select_by_linux(task, hearer);
        } else {
            self.select_plainly(task, hearer);
        }
    }
}
