ghost use Rattle.std.specs.Prelude.{◌≡◌, ◌+◌, ◌≤◌, [], Some, IfSome};
ghost use Rattle.scx_isa_semantics.specs.Arguments.{FitsCallback};
ghost use Rattle.scx_isa_semantics.specs.Endings.{run_of};
ghost use Rattle.scx_maps.specs.Contents.{HasShapes};
ghost use Rattle.scx_vm.specs.Arguments.{program_arguments};
ghost use Rattle.scx_vm.specs.Host.{host, answer_to, after_query};
ghost use Rattle.scx_vm_tagged.specs.Outcome.{answer_of};
ghost use Rattle.scx_vm_tagged.specs.Run.{IfStuck};
ghost use Rattle.scx_vm_tagged.specs.Watched.{Came, EndsAt};
ghost use Rattle.scx_sched_world.specs.Helpers.{world_functions};
ghost use Rattle.scx_sched_machine.specs.Budgets.{CanPush, program_pushes};
ghost use Rattle.scx_sched_machine.specs.Callbacks.{IsAnswered};
ghost use Rattle.scx_sched.specs.Causes.{EndsIn};
ghost use Rattle.scxsim_faults.specs.Places.{call_of};

use scx_maps::Maps;
use scx_sched_world::World;
use scx_verify::Verified;
use scx_vm::Args;
use scx_vm_tagged::{Ending, Site, Watch, run_watched};

/// The end of a callback that was shown to a `Watch`.
#[derive(Clone, Copy)]
pub struct Answered {
    pub answer: u64,
    /// The instruction by which what was awaited came about.
    pub came: Option<Site>,
    /// The slot of the exit.
    pub last: usize,
}

/// Runs a program as the callback that it was verified for, instruction by instruction.
pub fn run_seen<W: Watch<World>>(
    program: &Verified,
    arguments: Args,
    maps: &mut Maps,
    world: &mut World,
    watch: &mut W,
) -> Answered
    requires shapes { HasShapes program.now.context.defs maps.old }
    requires arguments { FitsCallback program.now.context.callback (program_arguments arguments) }
    requires quiet { world.old.notes ≡ [] }
    requires room { CanPush program_pushes world.old }
    ensures ended { record { answer = Some result.answer; maps = maps.new; outside = world.new }
        ≡ run_of (answer_to world_functions) (after_query world_functions)
        program.now.context.callback program.now.code (program_arguments arguments) maps.old world.old }
    ensures answered { IsAnswered (call_of program.now arguments maps.old world.old) }
    ensures shapes { HasShapes program.now.context.defs maps.new }
    ensures few { world.new.queues.pushes ≤ world.old.queues.pushes + program_pushes }
    ensures ends { EndsIn (call_of program.now arguments maps.old world.old) result.answer
        world.new }
    ensures came { IfSome result.came
        (Came (host world_functions) W.awaited program.now.context.callback program.now.code
        (program_arguments arguments) maps.old world.old world.new) }
    ensures last { EndsAt (host world_functions) program.now.context.callback program.now.code
        (program_arguments arguments) maps.old world.old result.answer world.new result.last }
{
    let _code = program.code();
    let _short = program.instructions();
    let watched = run_watched(
        program.program(),
        program.callback(),
        arguments,
        maps,
        world,
        watch,
    );
    Answered {
        answer: answer_of(watched.ran),
        came: watched.came,
        last: watched.last,
    }
}

/// The answer of a run that wasn't stuck.
fn answer_of(ran: Ending) -> u64
    requires { IfStuck ran (λ slot. ⊥) }
    ensures { answer_of ran ≡ Some result }
{
    match ran {
        Ending::Done(done) => done.r0,
        Ending::Stuck(_) => unreachable!(),
    }
}
