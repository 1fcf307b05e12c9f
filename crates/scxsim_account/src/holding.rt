ghost use Rattle.std.specs.Prelude.{⊤};

use crate::call_end::{CallEnd, end_of, is_near};
use scx_isa::Callback;
use scx_load_driver::Events;
use scx_maps::Maps;
use scx_sched::{Event, Hearer, MAX_EVENTS, Note, Sim, Sink, Unseen};
use scx_sched_world::World;
use scx_verify::Verified;
use scx_vm::{Arg, Args};
use scx_vm_run::Core;
use scxsim_faults::{MapReads, run_seen};

/// Runs the calls of enqueue for a task at a clock instruction by instruction, and keeps the end of the last one that
/// put the task nowhere.
#[derive(Drop)]
struct Holding {
    task: u16,
    clock: u64,
    end: Option<CallEnd>,
}

impl Holding {
    /// True if a callback that is about to run may put the task nowhere.
    fn awaits(&self, callback: Callback, arguments: Args, clock: u64) -> bool {
        clock == self.clock
            && callback == Callback::Enqueue
            && task_of(arguments.first) == Some(self.task)
    }
}

fn task_of(argument: Arg) -> Option<u16> {
    match argument {
        Arg::Task(task) => Some(task.0),
        Arg::Unset | Arg::Num(_) => None,
    }
}

impl Hearer for Holding {
    ghost Noted = { ⊤ };

    ghost noted = { λ s. tt };

    ghost takes = { λ s n t. ⊤ };

    ghost Told = { ⊤ };

    ghost told = { λ s. tt };

    ghost hears = { λ s c t. ⊤ };

    fn note(&mut self, _note: Note) {}

    fn call(
        &mut self,
        core: &mut Core,
        program: &Verified,
        arguments: Args,
        maps: &mut Maps,
        world: &mut World,
    ) -> u64 {
        if !self.awaits(program.callback(), arguments, world.clock()) {
            return Unseen.run(core, program, arguments, maps, world);
        }
        let mut reads = MapReads::new(program.program());
        let ran = run_seen(program, arguments, maps, world, &mut reads);
        let end = end_of(program, ran, &reads, maps);
        if world.insert().is_none() {
            self.end = Some(end);
        }
        ran.answer
    }
}

/// The end of the last call of enqueue that put the task nowhere at that clock, in a run of these events, up to the end
/// of that millisecond or to the policy's ejection.
pub fn hold_of<E: Events>(events: &mut E, sim: &mut Sim, task: u16, clock: u64) -> Option<CallEnd> {
    let mut hearer = Holding {
        task,
        clock,
        end: None,
    };
    for _ in 0..MAX_EVENTS {
        if clock < sim.clock() || sim.ejected().is_some() {
            return hearer.end;
        }
        let Some(event) = events.next(sim) else {
            return hearer.end;
        };
        step(sim, event, &mut hearer);
    }
    hearer.end
}

/// Gives the machine one event. Its callbacks are heard if they may come at the clock.
fn step(sim: &mut Sim, event: Event, hearer: &mut Holding) {
    if is_near(sim, hearer.clock) {
        let _ = sim.step_heard(event, hearer);
    } else {
        let _ = sim.step(event, &mut Unseen);
    }
}
