ghost use Rattle.std.specs.Prelude.{◌≡◌, ◌+◌, ◌≤◌, ◌<◌, ◌^◌, ◌++◌, ◌||◌, true, false, Some, None, Ok, Err, length, IfOk, IfErr, OnOk};
ghost use Rattle.scx_isa_semantics.specs.Arguments.{FitsCallback};
ghost use Rattle.scx_isa_semantics.specs.declared.callbacks.Callback.TheVariants.{Enable};
ghost use Rattle.scx_vm.specs.Arguments.{program_arguments};
ghost use Rattle.scx_weights.specs.Counting.{any_below};
ghost use Rattle.scx_weights.specs.Hierarchy.{is_active_task, is_in_mask};
ghost use Rattle.scx_sched_machine.specs.declared.start.NewError.TheVariants.{OutOfMemory};
ghost use Rattle.scx_sched_policy.specs.Policy.{IsTimeout, AreAs};
ghost use Rattle.scx_sched_machine.specs.Budgets.{HasRoom, enable_pushes, idle_pushes, program_pushes, start_pushes};
ghost use Rattle.scx_sched_machine.specs.Callbacks.{AreAnswered, one_task};
ghost use Rattle.scx_sched_machine.specs.Hearing.{Hears};
ghost use Rattle.scx_sched_machine.specs.Start.{is_nowhere, is_bad_shape, blank, cause_answer, after_init, begin_with, has_by_linux, begin_by_linux, enable, then_weigh, then_enable, after_enables, then_idle, after_idles, all_idle, all_enabled, first_state, IsRefusal, init_calls, begin_calls, begin_calls_by_linux, weigh_calls, enable_calls, calls_below, idle_calls, idle_calls_below, calls_after_enables, calls_after_init, start_calls, calls_before, AreAnsweredBefore};

use crate::callbacks::{one_task, run_callback, task_and_number, two_numbers};
use crate::machine::Machine;
use crate::sink::Hearer;
use scx_isa::Callback;
use scx_maps::Maps;
use scx_sched_policy::Policy;
use scx_sched_world::{Cause, World};
use scx_vm::Args;
use scx_vm_run::Core;
use scx_weights::Tree;
use std::alloc::{AllocError, Global};
use thiserror::Error;

/// The reason why a machine isn't made.
#[derive(Clone, Copy, Debug, PartialEq, Eq, Error)]
pub enum NewError {
    /// init answered that number, or a callback called `exit` with it as the policy began; -22 if one had a fault.
    #[error("init answered {0}")]
    InitFailed(i64),
    /// The number of CPUs is out of range, a task is active before anything has happened, or may run on no CPU.
    #[error("there must be 1 to 64 processors, and no task may be active")]
    BadShape,
    /// Memory ran out, after the shape was looked at and before any callback ran.
    #[error("out of memory")]
    OutOfMemory,
}

impl From<AllocError> for NewError {
    ghost from_gives = { λ _ e. e ≡ OutOfMemory };

    fn from(_error: AllocError) -> NewError {
        NewError::OutOfMemory
    }
}

/// The answer for a fault as the policy begins: Linux's EINVAL.
const FAULT_ANSWER: i64 = -22;

impl Machine {
    /// The machine of a policy, after its init, and what it hears of each task and each CPU.
    ///
    /// The shape is checked first: 1 to 64 CPUs, and no active task. Then all memory is taken, and then init
    /// runs. The hearer runs the programs, but takes no notes.
    pub fn new<H: Hearer>(
        alloc: Global,
        policy: Policy,
        tree: Tree,
        cpus: usize,
        hearer: &mut H,
    ) -> Result<Machine, NewError>
        ensures shape { OnOk result (is_bad_shape tree cpus ≡ false) }
        ensures made { IfOk result (λ machine. first_state policy tree cpus ≡ Ok machine) }
        ensures few { IfOk result (λ machine. machine.world.queues.pushes ≤ start_pushes) }
        ensures flags { OnOk result (length tree.active ≡ length tree.homes) }
        ensures timeout { OnOk result (IsTimeout policy.timeout_ms) }
        ensures programs { OnOk result (AreAs policy.callbacks) }
        ensures refused { IfErr result (IsRefusal policy tree cpus) }
        ensures answered { OnOk result (AreAnswered (start_calls policy tree cpus)) }
        ensures answered_before { IfErr result (AreAnsweredBefore policy tree cpus) }
        ensures calls { OnOk result
            (Hears H.hears (H.told hearer.old) (start_calls policy tree cpus) (H.told hearer.new)) }
        ensures calls_before { IfErr result (λ error.
            Hears H.hears (H.told hearer.old) (calls_before policy tree cpus error)
            (H.told hearer.new)) }
        ensures notes { H.noted hearer.new ≡ H.noted hearer.old }
    {
        if is_bad_shape(&tree, cpus) {
            drop(policy);
            drop(tree);
            return Err(NewError::BadShape);
        }
        let mut machine = Machine::blank(alloc, policy, tree, cpus)?;
        match machine.begin(hearer) {
            Ok(()) => Ok(machine),
            Err(answer) => {
                drop(machine);
                Err(NewError::InitFailed(answer))
            }
        }
    }

    /// Before any callback. All memory is taken here.
    fn blank(alloc: Global, policy: Policy, tree: Tree, cpus: usize) -> Result<Machine, AllocError>
        requires { cpus ≤ 64 }
        ensures blank { IfOk result (λ machine. machine ≡ blank policy tree cpus) }
        ensures few { IfOk result (λ machine. machine.world.queues.pushes ≡ 0) }
        ensures flags { OnOk result (length tree.active ≡ length tree.homes) }
        ensures timeout { OnOk result (IsTimeout policy.timeout_ms) }
        ensures programs { OnOk result (AreAs policy.callbacks) }
    {
        let maps = Maps::new(alloc, policy.defs());
        match (maps, World::new(alloc, tree, cpus, policy.timers())) {
            (Ok(maps), Ok(mut world)) => {
                world.set_rules(policy.rules());
                world.set_tracking(policy.tracks_idle());
                world.set_seed(policy.seed());
                world.begin_periods();
                world.place_at_first_homes();
                Ok(Machine {
                    policy,
                    maps,
                    world,
                    core: Core::new(),
                })
            }
            (maps, world) => {
                drop(policy);
                drop(maps);
                drop(world);
                Err(AllocError)
            }
        }
    }

    /// Runs init, and then what follows it. If a callback fails, its number is the error.
    #[tactic(auto, using(crate::proofs::Taking::answered_append, crate::proofs::Taking::takings))]
    fn begin<H: Hearer>(&mut self, hearer: &mut H) -> Result<(), i64>
        requires { self.old.world.queues.pushes ≡ 0 }
        ensures done { OnOk result (all_enabled (after_init self.old) ≡ Ok self.new) }
        ensures failed { IfErr result (λ answer. all_enabled (after_init self.old) ≡ Err answer) }
        ensures few { self.new.world.queues.pushes ≤ start_pushes }
        ensures answered { AreAnswered
            (init_calls self.old ++ calls_after_init (after_init self.old)) }
        ensures calls { Hears H.hears (H.told hearer.old)
            (init_calls self.old ++ calls_after_init (after_init self.old)) (H.told hearer.new) }
        ensures notes { H.noted hearer.new ≡ H.noted hearer.old }
    {
        self.initialize(hearer)?;
        self.enable_and_tell(hearer)
    }

    /// Runs enable and `set_weight` of each task, and then `update_idle` of each CPU. If one fails, its number is
    /// the error.
    #[tactic(auto, using(crate::proofs::Taking::answered_append, crate::proofs::Taking::takings))]
    fn enable_and_tell<H: Hearer>(&mut self, hearer: &mut H) -> Result<(), i64>
        requires { HasRoom (enable_pushes + idle_pushes) self.old }
        ensures done { OnOk result (all_enabled (Ok self.old) ≡ Ok self.new) }
        ensures failed { IfErr result (λ answer. all_enabled (Ok self.old) ≡ Err answer) }
        ensures few { self.new.world.queues.pushes
            ≤ self.old.world.queues.pushes + (enable_pushes + idle_pushes) }
        ensures answered { AreAnswered (calls_after_init (Ok self.old)) }
        ensures calls { Hears H.hears (H.told hearer.old) (calls_after_init (Ok self.old))
            (H.told hearer.new) }
        ensures notes { H.noted hearer.new ≡ H.noted hearer.old }
    {
        self.enable_all(hearer)?;
        self.tell_all_idle(hearer)
    }

    /// Runs init. If it fails, its number is the error.
    #[tactic(auto, unfolding(crate::specs::Start::after_init))]
    fn initialize<H: Hearer>(&mut self, hearer: &mut H) -> Result<(), i64>
        requires { HasRoom program_pushes self.old }
        ensures done { OnOk result (after_init self.old ≡ Ok self.new) }
        ensures failed { IfErr result (λ answer. after_init self.old ≡ Err answer) }
        ensures few { self.new.world.queues.pushes ≤ self.old.world.queues.pushes + program_pushes }
        ensures answered { AreAnswered (init_calls self.old) }
        ensures calls { Hears H.hears (H.told hearer.old) (init_calls self.old)
            (H.told hearer.new) }
        ensures notes { H.noted hearer.new ≡ H.noted hearer.old }
    {
        self.world.begin(Callback::Init, 0, 0);
        let answer = run_callback(
            &mut self.core,
            &self.policy,
            Callback::Init,
            Args::NONE,
            &mut self.maps,
            &mut self.world,
            hearer,
        );
        if let Some(cause) = self.world.cause() {
            return Err(cause_answer(cause));
        }
        if answer != 0 {
            return Err(answer.cast_signed());
        }
        self.world.quiet();
        Ok(())
    }

    /// Runs enable and `set_weight` of each task, by number, up to the first that fails: its number is the error.
    #[tactic(auto, using(crate::proofs::Enabling::answered_next, crate::proofs::Enabling::heard_next))]
    fn enable_all<H: Hearer>(&mut self, hearer: &mut H) -> Result<(), i64>
        requires { HasRoom enable_pushes self.old }
        ensures done { OnOk result
            (after_enables (length self.old.world.tasks) self.old ≡ Ok self.new) }
        ensures failed { IfErr result
            (λ answer. after_enables (length self.old.world.tasks) self.old ≡ Err answer) }
        ensures few { self.new.world.queues.pushes ≤ self.old.world.queues.pushes + enable_pushes }
        ensures answered { AreAnswered (calls_below (length self.old.world.tasks) self.old) }
        ensures calls { Hears H.hears (H.told hearer.old)
            (calls_below (length self.old.world.tasks) self.old) (H.told hearer.new) }
        ensures notes { H.noted hearer.new ≡ H.noted hearer.old }
    {
        for task in 0..self.world.tasks() {
            if let Err(answer) = self.enable_and_weigh(task, hearer) {
                return Err(answer);
            }
        }
        Ok(())
    }

    /// Runs enable of a task, and then `set_weight`. If one fails, its number is the error.
    #[tactic(auto, using(crate::proofs::Taking::answered_append, crate::proofs::Taking::takings))]
    fn enable_and_weigh<H: Hearer>(&mut self, task: u16, hearer: &mut H) -> Result<(), i64>
        requires { HasRoom (program_pushes + program_pushes) self.old }
        ensures done { OnOk result (then_enable (Ok self.old) task ≡ Ok self.new) }
        ensures failed { IfErr result (λ answer. then_enable (Ok self.old) task ≡ Err answer) }
        ensures few { self.new.world.queues.pushes
            ≤ self.old.world.queues.pushes + (program_pushes + program_pushes) }
        ensures answered { AreAnswered (enable_calls (Ok self.old) task) }
        ensures calls { Hears H.hears (H.told hearer.old) (enable_calls (Ok self.old) task)
            (H.told hearer.new) }
        ensures notes { H.noted hearer.new ≡ H.noted hearer.old }
    {
        self.enable(task, hearer)?;
        self.weigh(task, hearer)
    }

    /// Runs enable of a task. If it fails, the number is the error.
    fn enable<H: Hearer>(&mut self, task: u16, hearer: &mut H) -> Result<(), i64>
        requires { HasRoom program_pushes self.old }
        ensures done { OnOk result (enable self.old task ≡ Ok self.new) }
        ensures failed { IfErr result (λ answer. enable self.old task ≡ Err answer) }
        ensures few { self.new.world.queues.pushes ≤ self.old.world.queues.pushes + program_pushes }
        ensures answered { AreAnswered (begin_calls self.old Enable (one_task task) task 0) }
        ensures calls { Hears H.hears (H.told hearer.old) (begin_calls self.old Enable (one_task task) task 0)
            (H.told hearer.new) }
        ensures notes { H.noted hearer.new ≡ H.noted hearer.old }
    {
        self.begin_with(Callback::Enable, one_task(task), task, 0, hearer)
    }

    /// Runs `set_weight` of a task, if the policy hears of weights. If it fails, the number is the error.
    fn weigh<H: Hearer>(&mut self, task: u16, hearer: &mut H) -> Result<(), i64>
        requires { HasRoom program_pushes self.old }
        ensures done { OnOk result (then_weigh (Ok self.old) task ≡ Ok self.new) }
        ensures failed { IfErr result (λ answer. then_weigh (Ok self.old) task ≡ Err answer) }
        ensures few { self.new.world.queues.pushes ≤ self.old.world.queues.pushes + program_pushes }
        ensures answered { AreAnswered (weigh_calls (Ok self.old) task) }
        ensures calls { Hears H.hears (H.told hearer.old) (weigh_calls (Ok self.old) task)
            (H.told hearer.new) }
        ensures notes { H.noted hearer.new ≡ H.noted hearer.old }
    {
        let weight = u64::from(self.world.own_weight(task));
        let arguments = task_and_number(task, weight);
        self.begin_by_linux(Callback::SetWeight, arguments, task, 0, hearer)
    }

    /// Runs a callback as the policy begins. If it fails, the number is the error.
    #[tactic(auto, unfolding(crate::specs::Start::begin_with))]
    fn begin_with<H: Hearer>(
        &mut self,
        callback: Callback,
        arguments: Args,
        task: u16,
        cpu: u32,
        hearer: &mut H,
    ) -> Result<(), i64>
        requires arguments { FitsCallback callback (program_arguments arguments) }
        requires room { HasRoom program_pushes self.old }
        ensures done { OnOk result
            (begin_with self.old callback arguments task cpu ≡ Ok self.new) }
        ensures failed { IfErr result
            (λ answer. begin_with self.old callback arguments task cpu ≡ Err answer) }
        ensures few { self.new.world.queues.pushes ≤ self.old.world.queues.pushes + program_pushes }
        ensures answered { AreAnswered
            (begin_calls self.old callback arguments task cpu) }
        ensures calls { Hears H.hears (H.told hearer.old)
            (begin_calls self.old callback arguments task cpu) (H.told hearer.new) }
        ensures notes { H.noted hearer.new ≡ H.noted hearer.old }
    {
        self.world.begin(callback, task, cpu);
        run_callback(
            &mut self.core,
            &self.policy,
            callback,
            arguments,
            &mut self.maps,
            &mut self.world,
            hearer,
        );
        match self.world.cause() {
            Some(cause) => Err(cause_answer(cause)),
            None => {
                self.world.quiet();
                Ok(())
            }
        }
    }

    /// True if the policy has a callback that Linux rules call more.
    fn has_by_linux(&self, callback: Callback) -> bool
        ensures { result ≡ has_by_linux self.now callback }
    {
        self.is_by_linux() && self.policy.has_program(callback)
    }

    /// Runs a callback that Linux rules call more, as the policy begins, if the policy has it. If it fails, the
    /// number is the error.
    #[tactic(auto, unfolding(crate::specs::Start::begin_by_linux))]
    fn begin_by_linux<H: Hearer>(
        &mut self,
        callback: Callback,
        arguments: Args,
        task: u16,
        cpu: u32,
        hearer: &mut H,
    ) -> Result<(), i64>
        requires arguments { FitsCallback callback (program_arguments arguments) }
        requires room { HasRoom program_pushes self.old }
        ensures done { OnOk result
            (begin_by_linux self.old callback arguments task cpu ≡ Ok self.new) }
        ensures failed { IfErr result
            (λ answer. begin_by_linux self.old callback arguments task cpu ≡ Err answer) }
        ensures few { self.new.world.queues.pushes ≤ self.old.world.queues.pushes + program_pushes }
        ensures answered { AreAnswered
            (begin_calls_by_linux self.old callback arguments task cpu) }
        ensures calls { Hears H.hears (H.told hearer.old)
            (begin_calls_by_linux self.old callback arguments task cpu) (H.told hearer.new) }
        ensures notes { H.noted hearer.new ≡ H.noted hearer.old }
    {
        if self.has_by_linux(callback) {
            self.begin_with(callback, arguments, task, cpu, hearer)
        } else {
            Ok(())
        }
    }

    /// A policy that has `update_idle` hears of each CPU that it is idle. If a call fails, its number is the error.
    fn tell_all_idle<H: Hearer>(&mut self, hearer: &mut H) -> Result<(), i64>
        requires { HasRoom idle_pushes self.old }
        ensures done { OnOk result (all_idle self.old ≡ Ok self.new) }
        ensures failed { IfErr result (λ answer. all_idle self.old ≡ Err answer) }
        ensures few { self.new.world.queues.pushes ≤ self.old.world.queues.pushes + idle_pushes }
        ensures answered { AreAnswered (calls_after_enables (Ok self.old)) }
        ensures calls { Hears H.hears (H.told hearer.old) (calls_after_enables (Ok self.old))
            (H.told hearer.new) }
        ensures notes { H.noted hearer.new ≡ H.noted hearer.old }
    {
        if !self.has_by_linux(Callback::UpdateIdle) {
            return Ok(());
        }
        self.tell_each_idle(hearer)?;
        self.world.forget_marks();
        Ok(())
    }

    /// Runs `update_idle` of each CPU, by number, up to the first that fails: its number is the error.
    #[tactic(auto, using(crate::proofs::Telling::idle_answered_next, crate::proofs::Telling::idle_heard_next))]
    fn tell_each_idle<H: Hearer>(&mut self, hearer: &mut H) -> Result<(), i64>
        requires { HasRoom idle_pushes self.old }
        ensures done { OnOk result (after_idles (length self.old.world.cpus) self.old ≡ Ok self.new) }
        ensures failed { IfErr result (λ answer. after_idles (length self.old.world.cpus) self.old ≡ Err answer) }
        ensures few { self.new.world.queues.pushes ≤ self.old.world.queues.pushes + idle_pushes }
        ensures answered { AreAnswered (idle_calls_below (length self.old.world.cpus) self.old) }
        ensures calls { Hears H.hears (H.told hearer.old) (idle_calls_below (length self.old.world.cpus) self.old)
            (H.told hearer.new) }
        ensures notes { H.noted hearer.new ≡ H.noted hearer.old }
    {
        for cpu in 0..self.world.cpus() {
            if let Err(answer) = self.begin_idle(cpu, hearer) {
                return Err(answer);
            }
        }
        Ok(())
    }

    /// Runs `update_idle` of a CPU as the policy begins. If it fails, the number is the error.
    fn begin_idle<H: Hearer>(&mut self, cpu: u32, hearer: &mut H) -> Result<(), i64>
        requires { HasRoom program_pushes self.old }
        ensures done { OnOk result (then_idle (Ok self.old) cpu ≡ Ok self.new) }
        ensures failed { IfErr result (λ answer. then_idle (Ok self.old) cpu ≡ Err answer) }
        ensures few { self.new.world.queues.pushes ≤ self.old.world.queues.pushes + program_pushes }
        ensures answered { AreAnswered (idle_calls (Ok self.old) cpu) }
        ensures calls { Hears H.hears (H.told hearer.old) (idle_calls (Ok self.old) cpu)
            (H.told hearer.new) }
        ensures notes { H.noted hearer.new ≡ H.noted hearer.old }
    {
        let arguments = two_numbers(u64::from(cpu), 1);
        self.begin_by_linux(Callback::UpdateIdle, arguments, 0, cpu, hearer)
    }
}

/// The answer for a cause: the code of an exit, or that of a fault.
fn cause_answer(cause: Cause) -> i64
    ensures { result ≡ cause_answer cause }
{
    match cause {
        Cause::Fault(_) => FAULT_ANSWER,
        Cause::Exit(code) => code,
    }
}

/// True if no machine can have this number of CPUs and these tasks.
fn is_bad_shape(tree: &Tree, cpus: usize) -> bool
    ensures { result ≡ is_bad_shape tree.now cpus }
{
    cpus < 1 || cpus > 64 || has_bad_task(tree, cpus as u32)
}

/// True if a task is active, or may run on none of the CPUs.
#[tactic(auto, using(crate::proofs::Active::none_below_next))]
fn has_bad_task(tree: &Tree, cpus: u32) -> bool
    ensures { result
        ≡ any_below (length tree.now.homes)
        (λ t. is_active_task tree.now t || is_nowhere tree.now cpus t) }
{
    for task in 0..tree.tasks() {
        if is_bad_task(tree, cpus, task) {
            return true;
        }
    }
    false
}

/// True if the task is active, or may run on none of the CPUs.
fn is_bad_task(tree: &Tree, cpus: u32, task: u32) -> bool
    requires { task < length tree.now.homes }
    ensures { result ≡ (is_active_task tree.now task || is_nowhere tree.now cpus task) }
{
    tree.is_active(task) || is_nowhere(tree, cpus, task)
}

/// True if the task is bound, and to none of the CPUs.
fn is_nowhere(tree: &Tree, cpus: u32, task: u32) -> bool
    ensures { result ≡ is_nowhere tree.now cpus task }
{
    tree.binds() && !is_somewhere(tree, cpus, task)
}

/// True if one of the CPUs is in the task's mask.
#[tactic(auto, using(crate::proofs::Active::none_below_next))]
fn is_somewhere(tree: &Tree, cpus: u32, task: u32) -> bool
    ensures { result ≡ any_below cpus (is_in_mask tree.now task) }
{
    for cpu in 0..cpus {
        if tree.is_in_mask(task, cpu) {
            return true;
        }
    }
    false
}
