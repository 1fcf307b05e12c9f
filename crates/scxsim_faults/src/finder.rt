ghost use Rattle.std.specs.Prelude.{◌≡◌, ◌≤◌, ⊤, false, true, is_some, Some, None, IfSome};
ghost use Rattle.scx_isa_semantics.specs.declared.callbacks.Callback.TheVariants.{SelectCpu};
ghost use Rattle.scx_isa_semantics.specs.declared.instructions.Insn.TheVariants.{Call};
ghost use Rattle.scx_isa_semantics.specs.Code.{at};
ghost use Rattle.scx_isa_semantics.specs.HostTables.{helper_at};
ghost use Rattle.scx_sched_world.specs.declared.eject.Cause.TheVariants as reason;
ghost use Rattle.scx_sched_world.specs.declared.faults.Fault.TheVariants.{NoSuchCpu};
ghost use Rattle.scxsim_faults.specs.Places.{allowed_at, allowed_in, allowed_to};
ghost use Rattle.scxsim_faults.specs.Finding.{IsCallAt, IsToldAt, IsTold, Finds, IsForCause};
ghost use Rattle.scxsim_faults.specs.declared.finder.Finder.{Finder};

use crate::look::Look;
use crate::place::{FaultPlace, HelperCall};
use crate::policy_queues::PolicyQueues;
use crate::running::{Answered, run_seen};
use scx_isa::{Callback, Field, Helper, Insn, Pointer, Program, Value};
use scx_maps::Maps;
use scx_sched::{Eject, Fault, Hearer, Note};
use scx_sched_world::{Cause, World};
use scx_verify::Verified;
use scx_vm::{Args, Env};
use scx_vm_run::Core;
use scx_vm_tagged::Site;

/// Runs callbacks instruction by instruction, and keeps the place of the first fault or exit of the last one.
#[derive(Drop)]
pub(crate) struct Finder {
    found: Option<FaultPlace>,
}

impl Finder {
    /// A finder that has heard no callback.
    pub(crate) fn new() -> Finder
        ensures { result.found ≡ None }
    {
        Finder { found: None }
    }

    /// The place of the last callback's first fault or exit, if it had one.
    pub(crate) fn found(&self) -> Option<FaultPlace>
        ensures { result ≡ self.now.found }
    {
        self.found
    }

    /// The place of that fault or exit, if the last callback had it.
    fn found_of(&self, cause: Cause) -> Option<FaultPlace>
        ensures kept { IfSome result (λ p. self.now.found ≡ Some p) }
        ensures cause { IfSome result (λ p. p.cause ≡ cause) }
    {
        let found = self.found?;
        if found.cause == cause {
            Some(found)
        } else {
            None
        }
    }

    /// The place of the fault or exit of that ejection, if the last callback had it.
    pub(crate) fn found_for(&self, why: Eject) -> Option<FaultPlace>
        ensures kept { IfSome result (λ p. self.now.found ≡ Some p) }
        ensures cause { IfSome result (λ p. IsForCause p.cause why) }
    {
        match why {
            Eject::Fault(fault, _) => self.found_of(Cause::Fault(fault)),
            Eject::Exit(code, _) => self.found_of(Cause::Exit(code)),
            Eject::Stall(_, _) => None,
        }
    }
}

/// The first fault or exit of a callback, with its slot and the helper's call.
#[derive(Clone, Copy)]
struct Told {
    slot: usize,
    cause: Cause,
    call: Option<HelperCall>,
}

/// The place of the first fault or exit of a callback that ran to that end, if it had one.
fn place_of(
    program: &Verified,
    arguments: Args,
    ran: Answered,
    world: &World,
    queues: PolicyQueues,
) -> Option<FaultPlace>
    ensures { IfSome result (IsTold program.now arguments ran world.now queues) }
{
    let told = told_of(program, ran, world)?;
    Some(FaultPlace {
        callback: program.callback(),
        slot: told.slot,
        cause: told.cause,
        call: told.call,
        answer: ran.answer,
        given: arguments.first,
        cpus: world.cpus(),
        allowed: allowed_in(world, told.call),
        queues,
    })
}

/// The CPUs on which the task may run that a call was given first, one bit each.
fn allowed_in(world: &World, call: Option<HelperCall>) -> u64
    ensures { result ≡ allowed_in world.now call }
{
    match call {
        Some(call) => allowed_to(world, call.arguments.first().copied()),
        None => 0,
    }
}

/// The CPUs on which a task may run, one bit each; 0 of a value that is no task.
fn allowed_to(world: &World, value: Option<Value>) -> u64
    ensures { result ≡ allowed_to world.now value }
{
    match value {
        Some(Value::Pointer(pointer)) => allowed_at(world, pointer),
        Some(Value::Unset | Value::Number(_)) | None => 0,
    }
}

/// The CPUs on which the task at that pointer may run, one bit each.
fn allowed_at(world: &World, pointer: Pointer) -> u64
    ensures { result ≡ allowed_at world.now pointer }
{
    match pointer {
        Pointer::Task(task) => world.load(task, Field::Cpus),
        Pointer::Stack(_) | Pointer::Map(_) | Pointer::Element { .. } => 0,
    }
}

/// The first fault or exit of a callback that ran to that end.
fn told_of(program: &Verified, ran: Answered, world: &World) -> Option<Told>
    ensures { IfSome result
        (λ told. IsToldAt program.now ran world.now told.cause told.slot told.call) }
{
    match world.cause() {
        Some(cause) => told_of_call(program, ran, cause),
        None => told_of_answer(program.callback(), ran, world.cpus()),
    }
}

/// The fault or exit, with the call that had it.
fn told_of_call(program: &Verified, ran: Answered, cause: Cause) -> Option<Told>
    ensures cause { IfSome result (λ told. told.cause ≡ cause) }
    ensures call { IfSome result (λ told. IfSome told.call (IsCallAt program.now ran told.slot)) }
    ensures some { IfSome result (λ told. is_some told.call ≡ true) }
{
    let site = ran.came?;
    let call = call_at(program.program(), site)?;
    Some(Told {
        slot: site.slot,
        cause,
        call: Some(call),
    })
}

/// The fault of an answer that is no CPU, with the slot of the exit.
fn told_of_answer(callback: Callback, ran: Answered, cpus: u32) -> Option<Told>
    ensures none { IfSome result (λ told. told.call ≡ None) }
    ensures cause { IfSome result (λ told. told.cause ≡ reason.Fault NoSuchCpu) }
    ensures slot { IfSome result (λ told. told.slot ≡ ran.last) }
    ensures callback { IfSome result (λ told. callback ≡ SelectCpu) }
    ensures past { IfSome result (λ told. cpus ≤ ran.answer) }
{
    if callback == Callback::SelectCpu && ran.answer >= u64::from(cpus) {
        Some(Told {
            slot: ran.last,
            cause: Cause::Fault(Fault::NoSuchCpu),
            call: None,
        })
    } else {
        None
    }
}

/// The helper's call at that site.
fn call_at(program: &Program, site: Site) -> Option<HelperCall>
    ensures number { IfSome result (λ call. at program.now site.slot ≡ Some (Call call.number)) }
    ensures helper { IfSome result (λ call. helper_at call.number ≡ Some call.helper) }
    ensures arguments { IfSome result (λ call. call.arguments ≡ site.arguments) }
{
    let Some(Insn::Call(number)) = program.at(site.slot) else {
        return None;
    };
    let helper = Helper::new(number)?;
    let arguments = site.arguments;
    Some(HelperCall {
        helper,
        number,
        arguments,
    })
}

/// The count, or the least one if that is greater.
fn at_least(least: usize, count: usize) -> usize
    ensures { least ≤ result }
{
    if count < least { least } else { count }
}

impl Hearer for Finder {
    ghost Noted = { ⊤ };

    ghost noted = { λ s. tt };

    ghost takes = { λ s n t. ⊤ };

    ghost Told = { Finder };

    ghost told = { λ s. s };

    ghost hears = { Finds };

    fn note(&mut self, _note: Note) {}

    fn call(
        &mut self,
        _core: &mut Core,
        program: &Verified,
        arguments: Args,
        maps: &mut Maps,
        world: &mut World,
    ) -> u64 {
        let before = PolicyQueues::count_in(world);
        let mut look = Look::new(world, before);
        let ran = run_seen(program, arguments, maps, world, &mut look);
        let count = at_least(before, look.count());
        let queues = PolicyQueues::first_in(world, count);
        self.found = place_of(program, arguments, ran, world, queues);
        ran.answer
    }
}
