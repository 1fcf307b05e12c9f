ghost use Rattle.std.specs.Prelude.{◌≡◌, ⊤, Option, IfSome};
ghost use Rattle.scx_sched.specs.Sim.{after_event, calls_of};
ghost use Rattle.scxsim_account.specs.declared.call_end.CallEnd.{CallEnd};
ghost use Rattle.scxsim_account.specs.LastCalls.{IsEndOf, IsEndAfter, IsLastBeforeEjection};

use crate::call_end::{CallEnd, end_of, is_near};
use scx_load_driver::Events;
use scx_maps::Maps;
use scx_sched::{Event, Hearer, MAX_EVENTS, Note, Sim, Unseen};
use scx_sched_world::World;
use scx_verify::Verified;
use scx_vm::Args;
use scx_vm_run::Core;
use scxsim_faults::{MapReads, run_seen};

/// Runs callbacks instruction by instruction, and keeps the end of the last one.
#[derive(Drop)]
struct LastCall {
    end: Option<CallEnd>,
}

impl Hearer for LastCall {
    ghost Noted = { ⊤ };

    ghost noted = { λ s. tt };

    ghost takes = { λ s n t. ⊤ };

    ghost Told = { Option CallEnd };

    ghost told = { λ s. s.end };

    ghost hears = { λ s m t. IfSome t (IsEndOf m) };

    fn note(&mut self, _note: Note) {}

    fn call(
        &mut self,
        _core: &mut Core,
        program: &Verified,
        arguments: Args,
        maps: &mut Maps,
        world: &mut World,
    ) -> u64 {
        let mut reads = MapReads::new(program.program());
        let ran = run_seen(program, arguments, maps, world, &mut reads);
        self.end = Some(end_of(program, ran, &reads, maps));
        ran.answer
    }
}

/// The end of the last callback before the policy is ejected, in a run of these events, if it is called at that clock
/// or later.
pub fn last_end<E: Events>(events: &mut E, sim: &mut Sim, from: u64) -> Option<CallEnd>
    ensures { IfSome result (IsLastBeforeEjection sim.old (E.remaining events.old sim.old)) }
{
    let mut end = None;
    for _ in 0..MAX_EVENTS {
        if sim.ejected().is_some() {
            return end;
        }
        let Some(event) = events.next(sim) else {
            return None;
        };
        end = step(sim, event, from, end);
    }
    None
}

/// Gives the machine one event, and returns the end of the last callback up to there. Callbacks before that clock
/// aren't heard.
fn step(sim: &mut Sim, event: Event, from: u64, end: Option<CallEnd>) -> Option<CallEnd>
    ensures state { sim.new ≡ after_event sim.old event }
    ensures end { IfSome result (IsEndAfter end (calls_of sim.old event)) }
{
    if is_near(sim, from) {
        hear(sim, event, end)
    } else {
        let _ = sim.step(event, &mut Unseen);
        None
    }
}

/// Gives the machine one event, and hears its callbacks.
fn hear(sim: &mut Sim, event: Event, end: Option<CallEnd>) -> Option<CallEnd>
    ensures state { sim.new ≡ after_event sim.old event }
    ensures end { IfSome result (IsEndAfter end (calls_of sim.old event)) }
{
    let mut hearer = LastCall { end };
    let _ = sim.step_heard(event, &mut hearer);
    hearer.end
}
