ghost use Rattle.std.specs.Prelude.{◌≡◌, ◌+◌, ◌≤◌, ⊤, Bool, true, false, [], Some};
ghost use Rattle.scx_isa_semantics.specs.Arguments.{FitsCallback};
ghost use Rattle.scx_isa_semantics.specs.Endings.{run_of};
ghost use Rattle.scx_maps.specs.Contents.{HasShapes};
ghost use Rattle.scx_vm.specs.Arguments.{program_arguments};
ghost use Rattle.scx_vm.specs.Host.{answer_to, after_query};
ghost use Rattle.scx_sched_world.specs.Helpers.{world_functions};
ghost use Rattle.scx_sched_world.specs.declared.notes.Note.{Note};
ghost use Rattle.scx_sched_machine.specs.Budgets.{CanPush, program_pushes};
ghost use Rattle.scx_sched_machine.specs.Callbacks.{IsAnswered};
ghost use Rattle.scx_sched_machine.specs.Steps.{CallMade};

use crate::callbacks::run_program;
use scx_maps::Maps;
use scx_sched_world::{Note, World};
use scx_verify::Verified;
use scx_vm::Args;
use scx_vm_run::Core;

/// A sink takes notes, one after another.
pub trait Sink {
    /// From the first state, taking the note may lead to the last.
    ghost takes: { Self → Note → Self → Type 0 };

    ghost has_failed: { Self → Bool };

    fn take(&mut self, note: Note)
        ensures { takes self.old note self.new };

    /// True if it has failed, and takes no more notes.
    fn failed(&self) -> bool
        ensures { result ≡ has_failed self.now };

    /// Runs a program of the policy as the callback that it was verified for. One that wants to see more
    /// of it than notes may run it itself, to the same end.
    fn run(
        &mut self,
        core: &mut Core,
        program: &Verified,
        arguments: Args,
        maps: &mut Maps,
        world: &mut World,
    ) -> u64
        requires shapes { HasShapes program.now.context.defs maps.old }
        requires arguments { FitsCallback program.now.context.callback
            (program_arguments arguments) }
        requires quiet { world.old.notes ≡ [] }
        requires room { CanPush program_pushes world.old }
        ensures sink { self.new ≡ self.old }
        ensures ended { record { answer = Some result; maps = maps.new; outside = world.new }
            ≡ run_of (answer_to world_functions) (after_query world_functions)
            program.now.context.callback program.now.code (program_arguments arguments) maps.old
            world.old }
        ensures answered { IsAnswered
            (record {
              callback = program.now.context.callback;
              program = program.now;
              arguments = arguments;
              maps = maps.old;
              world = world.old;
            }) }
        ensures shapes { HasShapes program.now.context.defs maps.new }
        ensures few { world.new.queues.pushes ≤ world.old.queues.pushes + program_pushes }
    {
        run_program(core, program, arguments, maps, world)
    }

    /// True if it wants to run each program of the policy itself. Else it may not be asked to run one of which nothing
    /// comes.
    #[inline(always)]
    fn heeds_runs(&self) -> bool {
        true
    }

    /// A failed sink is left as it was.
    ghost failed_stays: { (s t : Self) (n : Note) → has_failed s ≡ true → takes s n t → t ≡ s };
}

/// Where notes go, and what is told of each callback that is called. Notes may change one part of it, and
/// calls another one.
pub trait Hearer {
    /// The part that notes may change.
    ghost Noted: { Type 0 };

    ghost noted: { Self → Noted };

    /// From the first state, taking the note may lead to the last.
    ghost takes: { Noted → Note → Noted → Type 0 };

    /// The part that calls may change.
    ghost Told: { Type 0 };

    ghost told: { Self → Told };

    /// From the first state, being told of the call may lead to the last.
    ghost hears: { Told → CallMade → Told → Type 0 };

    fn note(&mut self, note: Note)
        ensures notes { takes (noted self.old) note (noted self.new) }
        ensures calls { told self.new ≡ told self.old };

    /// Runs a program of the policy as the callback that it was verified for.
    fn call(
        &mut self,
        core: &mut Core,
        program: &Verified,
        arguments: Args,
        maps: &mut Maps,
        world: &mut World,
    ) -> u64
        requires shapes { HasShapes program.now.context.defs maps.old }
        requires arguments { FitsCallback program.now.context.callback
            (program_arguments arguments) }
        requires quiet { world.old.notes ≡ [] }
        requires room { CanPush program_pushes world.old }
        ensures notes { noted self.new ≡ noted self.old }
        ensures calls { hears (told self.old)
            (record {
              callback = program.now.context.callback;
              program = program.now;
              arguments = arguments;
              maps = maps.old;
              world = world.old;
            }) (told self.new) }
        ensures ended { record { answer = Some result; maps = maps.new; outside = world.new }
            ≡ run_of (answer_to world_functions) (after_query world_functions)
            program.now.context.callback program.now.code (program_arguments arguments) maps.old
            world.old }
        ensures answered { IsAnswered
            (record {
              callback = program.now.context.callback;
              program = program.now;
              arguments = arguments;
              maps = maps.old;
              world = world.old;
            }) }
        ensures shapes { HasShapes program.now.context.defs maps.new }
        ensures few { world.new.queues.pushes ≤ world.old.queues.pushes + program_pushes };

    /// True if being told of a call may change it. Else it may not be told of one of which nothing comes.
    #[inline(always)]
    fn heeds_calls(&self) -> bool
        ensures { result ≡ false → (c : CallMade) → hears (told self.now) c (told self.now) }
    {
        true
    }
}

/// A sink may run the programs itself, and stays as it is.
impl<S: Sink> Hearer for S {
    ghost Noted = { S };

    ghost noted = { λ s. s };

    ghost takes = { S.Sink.takes };

    ghost Told = { ⊤ };

    ghost told = { λ s. tt };

    ghost hears = { λ s c t. ⊤ };

    #[inline(always)]
    fn note(&mut self, note: Note) {
        Sink::take(self, note);
    }

    #[inline(always)]
    fn call(
        &mut self,
        core: &mut Core,
        program: &Verified,
        arguments: Args,
        maps: &mut Maps,
        world: &mut World,
    ) -> u64 {
        Sink::run(self, core, program, arguments, maps, world)
    }

    #[inline(always)]
    fn heeds_calls(&self) -> bool {
        Sink::heeds_runs(self)
    }
}

/// A sink that drops the notes.
#[derive(Drop)]
pub struct Unseen;

impl Sink for Unseen {
    ghost takes = { λ s n t. t ≡ s };

    ghost has_failed = { λ s. false };

    ghost failed_stays = { λ s t n failed takes. takes };

    fn take(&mut self, _note: Note) {}

    fn failed(&self) -> bool {
        false
    }

    #[inline(always)]
    fn heeds_runs(&self) -> bool {
        false
    }
}
