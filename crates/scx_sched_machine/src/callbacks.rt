ghost use Rattle.std.specs.Prelude.{◌≡◌, ◌+◌, ◌≤◌, ◌^◌, [], true, Some, option_map};
ghost use Rattle.scx_maps.specs.Contents.{HasShapes};
ghost use Rattle.scx_isa_semantics.specs.Arguments.{FitsCallback};
ghost use Rattle.scx_isa_semantics.specs.declared.callbacks.Callback.TheVariants.{Enable, SelectCpu, Enqueue, Dispatch, Running, Stopping, Tick, Dequeue, Runnable, Quiescent, UpdateIdle, SetWeight, Timer};
ghost use Rattle.scx_isa_semantics.specs.Endings.{run_of};
ghost use Rattle.scx_vm.specs.Arguments.{program_arguments};
ghost use Rattle.scx_vm.specs.Host.{answer_to, after_query};
ghost use Rattle.scx_sched_world.specs.World.{quiet};
ghost use Rattle.scx_sched_world.specs.Helpers.{world_functions};
ghost use Rattle.scx_sched_machine.specs.Budgets.{CanPush, HasRoom, callback_pushes, pushes_due, eject_pushes, program_pushes};
ghost use Rattle.scx_sched_machine.specs.Does.{Goes};
ghost use Rattle.scx_sched_machine.specs.Hearing.{Hears};
ghost use Rattle.scx_sched_machine.specs.Notes.{Takes};
ghost use Rattle.scx_sched_policy.specs.Policy.{IsAs, HasMaps, program_of};
ghost use Rattle.scx_sched_machine.specs.Ejecting.{ejected_for};
ghost use Rattle.scx_sched_machine.specs.Custody.{ended};
ghost use Rattle.scx_sched_machine.specs.Callbacks.{call_ending, call_back, call_by_linux, end_fault, as_cause, or_cause, unless_ejected, answered_by, calls_of, IsAnswered, AreAnswered, is_calm, one_task, task_cpu_and_0, task_and_number, one_number, two_numbers, task_or_0, cpu_and_task};

use crate::machine::Machine;
use crate::sink::Hearer;
use scx_isa::Callback;
use scx_maps::Maps;
use scx_sched_policy::Policy;
use scx_sched_world::{Cause, Fault, World};
use scx_verify::Verified;
use scx_vm::{Arg, Args};
use scx_vm_run::{Core, answer_on};

/// The program of a callback, while the policy is in force.
#[inline(always)]
fn acting<'a>(policy: &'a Policy, world: &World, callback: Callback) -> Option<&'a Verified>
    ensures program { option_map (λ p. p.now) result
        ≡ unless_ejected world.now.ejected (program_of policy.now callback) }
    ensures callback { IsAs callback
        (unless_ejected world.now.ejected (program_of policy.now callback)) }
    ensures maps { HasMaps policy.now.shapes
        (unless_ejected world.now.ejected (program_of policy.now callback)) }
{
    if world.is_ejected() {
        None
    } else {
        policy.program(callback)
    }
}

/// Runs a callback of the policy, and returns its program's answer; 0 if there is no program, or the policy is
/// ejected.
#[inline(always)]
#[tactic(auto, unfolding(crate::specs::Callbacks::call_ending))]
pub(crate) fn run_callback<H: Hearer>(
    core: &mut Core,
    policy: &Policy,
    callback: Callback,
    arguments: Args,
    maps: &mut Maps,
    world: &mut World,
    hearer: &mut H,
) -> u64
    requires shapes { HasShapes policy.now.shapes maps.old }
    requires arguments { FitsCallback callback (program_arguments arguments) }
    requires quiet { world.old.notes ≡ [] }
    requires room { CanPush program_pushes world.old }
    ensures ended { record { answer = Some result; maps = maps.new; outside = world.new }
        ≡ call_ending (unless_ejected world.old.ejected (program_of policy.now callback)) callback
        arguments maps.old world.old }
    ensures answered { AreAnswered
        (calls_of (unless_ejected world.old.ejected (program_of policy.now callback)) callback
        arguments maps.old world.old) }
    ensures shapes { HasShapes policy.now.shapes maps.new }
    ensures few { world.new.queues.pushes ≤ world.old.queues.pushes + program_pushes }
    ensures notes { H.noted hearer.new ≡ H.noted hearer.old }
    ensures calls { Hears H.hears (H.told hearer.old)
        (calls_of (unless_ejected world.old.ejected (program_of policy.now callback)) callback
        arguments maps.old world.old) (H.told hearer.new) }
{
    match acting(policy, world, callback) {
        Some(program) => hearer.call(core, program, arguments, maps, world),
        None => 0,
    }
}

/// Runs a program as the callback that it was verified for.
#[inline(always)]
pub(crate) fn run_program(
    core: &mut Core,
    program: &Verified,
    arguments: Args,
    maps: &mut Maps,
    world: &mut World,
) -> u64
    requires shapes { HasShapes program.now.context.defs maps.old }
    requires arguments { FitsCallback program.now.context.callback (program_arguments arguments) }
    requires quiet { world.old.notes ≡ [] }
    requires room { CanPush program_pushes world.old }
    ensures ended { record { answer = Some result; maps = maps.new; outside = world.new }
        ≡ run_of (answer_to world_functions) (after_query world_functions)
        program.now.context.callback program.now.code (program_arguments arguments) maps.old world.old }
    ensures answered { IsAnswered
        (record {
          callback = program.now.context.callback;
          program = program.now;
          arguments = arguments;
          maps = maps.old;
          world = world.old;
        }) }
    ensures shapes { HasShapes program.now.context.defs maps.new }
    ensures few { world.new.queues.pushes ≤ world.old.queues.pushes + program_pushes }
{
    let _short = program.instructions();
    answer_on(core, program, arguments, maps, world)
}

/// Hands the notes that wait to the hearer.
#[inline(never)]
#[tactic(auto, using(crate::proofs::Taking::takings))]
fn flush<H: Hearer>(world: &mut World, hearer: &mut H)
    ensures world { world.new ≡ quiet world.old }
    ensures notes { Takes H.takes (H.noted hearer.old) world.old.notes (H.noted hearer.new) }
    ensures calls { H.told hearer.new ≡ H.told hearer.old }
{
    for note in world.notes() {
        hearer.note(*note);
    }
    world.quiet();
}

/// `flush`, with a call only if there are notes.
#[inline(always)]
#[tactic(auto, using(crate::proofs::Silent::quiet_already))]
fn flush_any<H: Hearer>(world: &mut World, hearer: &mut H)
    ensures world { world.new ≡ quiet world.old }
    ensures notes { Takes H.takes (H.noted hearer.old) world.old.notes (H.noted hearer.new) }
    ensures calls { H.told hearer.new ≡ H.told hearer.old }
{
    if !world.notes().is_empty() {
        flush(world, hearer);
    }
}

/// A task, for a callback that takes no more.
pub(crate) fn one_task(task: u16) -> Args
    ensures task { result ≡ one_task task }
    ensures enable { FitsCallback Enable (program_arguments result) }
    ensures running { FitsCallback Running (program_arguments result) }
    ensures tick { FitsCallback Tick (program_arguments result) }
{
    Args {
        first: World::pointer(task),
        second: Arg::Unset,
        third: Arg::Unset,
    }
}

/// A task, the CPU on which it ran last, and 0.
pub(crate) fn task_cpu_and_0(task: u16, cpu: u32) -> Args
    ensures all { result ≡ task_cpu_and_0 task cpu }
    ensures select_cpu { FitsCallback SelectCpu (program_arguments result) }
{
    Args {
        first: World::pointer(task),
        second: Arg::Num(u64::from(cpu)),
        third: Arg::Num(0),
    }
}

/// A task and a number.
pub(crate) fn task_and_number(task: u16, number: u64) -> Args
    ensures both { result ≡ task_and_number task number }
    ensures enqueue { FitsCallback Enqueue (program_arguments result) }
    ensures stopping { FitsCallback Stopping (program_arguments result) }
    ensures dequeue { FitsCallback Dequeue (program_arguments result) }
    ensures runnable { FitsCallback Runnable (program_arguments result) }
    ensures set_weight { FitsCallback SetWeight (program_arguments result) }
    ensures quiescent { FitsCallback Quiescent (program_arguments result) }
{
    Args {
        first: World::pointer(task),
        second: Arg::Num(number),
        third: Arg::Unset,
    }
}

/// A number.
pub(crate) fn one_number(number: u64) -> Args
    ensures number { result ≡ one_number number }
    ensures timer { FitsCallback Timer (program_arguments result) }
{
    Args {
        first: Arg::Num(number),
        second: Arg::Unset,
        third: Arg::Unset,
    }
}

/// Two numbers.
pub(crate) fn two_numbers(first: u64, second: u64) -> Args
    ensures both { result ≡ two_numbers first second }
    ensures update_idle { FitsCallback UpdateIdle (program_arguments result) }
{
    Args {
        first: Arg::Num(first),
        second: Arg::Num(second),
        third: Arg::Unset,
    }
}

fn task_or_0(task: Option<u16>) -> Arg
    ensures { result ≡ task_or_0 task }
{
    match task {
        Some(task) => World::pointer(task),
        None => Arg::Num(0),
    }
}

/// A CPU, and the task before or 0.
pub(crate) fn cpu_and_task(cpu: u32, before: Option<u16>) -> Args
    ensures both { result ≡ cpu_and_task cpu before }
    ensures dispatch { FitsCallback Dispatch (program_arguments result) }
{
    Args {
        first: Arg::Num(u64::from(cpu)),
        second: task_or_0(before),
        third: Arg::Unset,
    }
}

impl Machine {
    /// The reason for which the policy is ejected as a callback ends with that answer, if there is one.
    pub(crate) fn cause(&self, callback: Callback, answer: u64) -> Option<Cause>
        ensures { result ≡ or_cause self.now.world.call.cause
            (as_cause (end_fault callback self.now.world (Some answer))) }
    {
        if let Some(cause) = self.world.cause() {
            return Some(cause);
        }
        if callback == Callback::SelectCpu && answer >= u64::from(self.world.cpus()) {
            return Some(Cause::Fault(Fault::NoSuchCpu));
        }
        None
    }

    /// Ejects the policy if there is a cause.
    #[tactic(auto, using(crate::proofs::Taking::takings))]
    fn eject_for<H: Hearer>(&mut self, cause: Option<Cause>, hearer: &mut H)
        requires { HasRoom eject_pushes self.old }
        ensures { Goes H.noted H.takes H.told H.hears eject_pushes (ejected_for cause self.old)
            self.old hearer.old self.new hearer.new }
    {
        if let Some(cause) = cause {
            let clock = self.world.clock();
            self.eject(cause.at(clock), hearer);
        }
    }

    /// Hands on what the callback noted, and ejects the policy if there is a cause.
    #[tactic(auto, unfolding(crate::specs::Custody::ended), using(crate::proofs::Taking::takings))]
    pub(crate) fn end_callback<H: Hearer>(&mut self, cause: Option<Cause>, hearer: &mut H)
        requires { HasRoom eject_pushes self.old }
        ensures does { Goes H.noted H.takes H.told H.hears eject_pushes (ended cause self.old)
            self.old hearer.old self.new hearer.new }
        ensures committed { pushes_due self.new ≤ self.old.world.queues.pushes + eject_pushes }
    {
        flush_any(&mut self.world, hearer);
        self.eject_for(cause, hearer);
    }

    /// Runs a callback of the policy, with that task and CPU at hand, and answers what its program
    /// does. If it has a cause the policy is ejected. Once it is ejected, none runs, and the answer is 0.
    #[inline(always)]
    #[tactic(auto, unfolding(crate::specs::Callbacks::call_back, crate::specs::Callbacks::answered_by), using(crate::proofs::Taking::takings))]
    pub(crate) fn call_back<H: Hearer>(
        &mut self,
        callback: Callback,
        arguments: Args,
        task: u16,
        cpu: u32,
        hearer: &mut H,
    ) -> u64
        requires arguments { FitsCallback callback (program_arguments arguments) }
        requires room { HasRoom callback_pushes self.old }
        ensures answer { Some result ≡ answered_by self.old callback arguments task cpu }
        ensures does { Goes H.noted H.takes H.told H.hears callback_pushes
            (call_back self.old callback arguments task cpu)
            self.old hearer.old self.new hearer.new }
        ensures calm { is_calm callback ≡ true → pushes_due self.new ≤ pushes_due self.old }
    {
        self.world.begin(callback, task, cpu);
        let answer = run_callback(
            &mut self.core,
            &self.policy,
            callback,
            arguments,
            &mut self.maps,
            &mut self.world,
            hearer,
        );
        flush_any(&mut self.world, hearer);
        let cause = self.cause(callback, answer);
        self.eject_for(cause, hearer);
        answer
    }

    /// `call_back` as a call of its own, for callbacks that few policies have.
    #[inline(never)]
    pub(crate) fn call_apart<H: Hearer>(
        &mut self,
        callback: Callback,
        arguments: Args,
        task: u16,
        cpu: u32,
        hearer: &mut H,
    )
        requires arguments { FitsCallback callback (program_arguments arguments) }
        requires room { HasRoom callback_pushes self.old }
        ensures does { Goes H.noted H.takes H.told H.hears callback_pushes
            (call_back self.old callback arguments task cpu)
            self.old hearer.old self.new hearer.new }
        ensures calm { is_calm callback ≡ true → pushes_due self.new ≤ pushes_due self.old }
    {
        self.call_back(callback, arguments, task, cpu, hearer);
    }

    /// Runs a callback that Linux rules call more, if the policy has it.
    #[inline(always)]
    #[tactic(auto, unfolding(crate::specs::Callbacks::call_by_linux), using(crate::proofs::Taking::takings))]
    pub(crate) fn call_by_linux<H: Hearer>(
        &mut self,
        callback: Callback,
        arguments: Args,
        task: u16,
        cpu: u32,
        hearer: &mut H,
    )
        requires arguments { FitsCallback callback (program_arguments arguments) }
        requires room { HasRoom callback_pushes self.old }
        ensures does { Goes H.noted H.takes H.told H.hears callback_pushes
            (call_by_linux self.old callback arguments task cpu)
            self.old hearer.old self.new hearer.new }
        ensures calm { is_calm callback ≡ true → pushes_due self.new ≤ pushes_due self.old }
    {
        if self.is_by_linux() && self.policy.has_program(callback) {
            self.call_apart(callback, arguments, task, cpu, hearer);
        }
    }
}
