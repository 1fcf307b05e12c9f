ghost use Rattle.std.specs.Prelude.{◌≡◌, ◌+◌, ◌≤◌, [], Some};
ghost use Rattle.scx_isa_semantics.specs.Arguments.{FitsCallback};
ghost use Rattle.scx_isa_semantics.specs.Endings.{run_of};
ghost use Rattle.scx_maps.specs.Contents.{HasShapes};
ghost use Rattle.scx_vm.specs.Arguments.{program_arguments};
ghost use Rattle.scx_vm.specs.Host.{answer_to, after_query};
ghost use Rattle.scx_sched_world.specs.Helpers.{world_functions};
ghost use Rattle.scx_sched_machine.specs.Budgets.{CanPush, program_pushes};
ghost use Rattle.scx_sched_machine.specs.Callbacks.{IsAnswered};
ghost use Rattle.scx_explore_findings.specs.Running.{IsRunOf, call_as};

use scx_maps::Maps;
use scx_sched_world::World;
use scx_verify::Verified;
use scx_vm::{Args, Done};
use scx_vm_run::{Core, run_on};

/// Runs a program as the callback that it was verified for, and says how many instructions it took.
#[inline(always)]
pub fn run_counted(
    core: &mut Core,
    program: &Verified,
    arguments: Args,
    maps: &mut Maps,
    world: &mut World,
) -> Done
    requires shapes { HasShapes program.now.context.defs maps.old }
    requires arguments { FitsCallback program.now.context.callback (program_arguments arguments) }
    requires quiet { world.old.notes ≡ [] }
    requires room { CanPush program_pushes world.old }
    ensures ended { record { answer = Some result.r0; maps = maps.new; outside = world.new }
        ≡ run_of (answer_to world_functions) (after_query world_functions)
        program.now.context.callback program.now.code (program_arguments arguments) maps.old world.old }
    ensures answered { IsAnswered (call_as program.now arguments maps.old world.old) }
    ensures run { IsRunOf (call_as program.now arguments maps.old world.old)
        program.now.context.callback result.steps }
    ensures shapes { HasShapes program.now.context.defs maps.new }
    ensures few { world.new.queues.pushes ≤ world.old.queues.pushes + program_pushes }
{
    let _short = program.instructions();
    run_on(core, program, arguments, maps, world)
}
