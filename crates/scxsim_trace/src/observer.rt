ghost use Rattle.std.specs.Prelude.{◌≡◌, ℕ, ⊤, Bool};
ghost use Rattle.scx_sched_world.specs.declared.notes.What.{What};
ghost use Rattle.scx_sched_machine.specs.declared.events.Event.{Event};
ghost use Rattle.scx_sched.specs.Sim.{SimState};
ghost use Rattle.scxsim_trace.specs.Observing.{is_at_end, Watches, HandsOn, ComesTo};

use crate::event_sink::EventSink;
use crate::run::go_through;
use scx_isa::Callback;
use scx_load_driver::Events;
use scx_maps::Maps;
use scx_sched::{Event, Note, Sim, Sink, Unseen, What};
use scx_sched_world::World;
use scx_verify::Verified;
use scx_vm::Args;
use scx_vm_run::Core;

/// An observer of a run: it is shown each event before the machine takes it, then the event's notes, and each
/// callback that has run.
///
/// A moment is a number of milliseconds from the start. Changes, wakes and the clock come as a millisecond
/// begins, ticks and sleeps as it ends: the notes of a tick at clock 3 have the moment 4. So a task that runs
/// from one moment to another has run for as long as the machine counts.
pub trait Observer {
    // From the first state, the event may lead to the last.
    ghost expects: { Self → SimState → Event → Self → Type 0 } = { λ _ _ _ _. ⊤ };

    // From the first state, a note of that moment and that clock may lead to the last.
    ghost shows: { Self → ℕ → ℕ → What → Self → Type 0 } = { λ _ _ _ _ _. ⊤ };

    ghost has_failed: { Self → Bool };

    /// Shows an event that comes next, for a machine in this state.
    fn expect(&mut self, sim: &Sim, event: Event)
        ensures { expects self.old sim.now event self.new };

    /// Shows a note of this moment and this clock.
    fn show(&mut self, moment: u64, clock: u64, what: What)
        ensures { shows self.old moment clock what self.new };

    /// Shows a callback that was called with these arguments and has run. Its notes are still in the world.
    #[inline(always)]
    fn show_call(&mut self, _callback: Callback, _arguments: Args, _world: &World)
        ensures { self.new ≡ self.old }
    {}

    /// True if nothing more can be shown.
    fn failed(&self) -> bool
        ensures { result ≡ has_failed self.now };
}

/// A sink that shows events, notes and calls to an observer, up to where the observer fails.
#[derive(Drop)]
struct Showing<'a, O> {
    observer: &'a mut O,
    is_at_end: bool,
}

impl<O: Observer> Sink for Showing<'_, O> {
    ghost takes = { HandsOn (λ s. s.observer.ghost_name) (λ s. s.is_at_end) (λ s. s.observer.now)
        O.has_failed O.shows };

    ghost has_failed = { λ s. O.has_failed s.observer.now };

    ghost failed_stays = { λ s t n failed takes. takes.0 failed };

    fn take(&mut self, note: Note) {
        if self.observer.failed() {
            return;
        }
        let moment = if self.is_at_end {
            note.clock.saturating_add(1)
        } else {
            note.clock
        };
        self.observer.show(moment, note.clock, note.what);
    }

    fn failed(&self) -> bool {
        self.observer.failed()
    }

    fn run(
        &mut self,
        core: &mut Core,
        program: &Verified,
        arguments: Args,
        maps: &mut Maps,
        world: &mut World,
    ) -> u64 {
        let answer = Unseen.run(core, program, arguments, maps, world);
        self.observer
            .show_call(program.callback(), arguments, world);
        answer
    }
}

impl<O: Observer> EventSink for Showing<'_, O> {
    ghost comes = { ComesTo (λ s. s.observer.ghost_name) (λ s. s.is_at_end) (λ s. s.observer.now)
        O.expects };

    #[inline(always)]
    fn event(&mut self, sim: &Sim, event: Event) {
        self.is_at_end = is_at_end(event);
        self.observer.expect(sim, event);
    }
}

/// Gives the events to the machine, one after another, and shows them, their notes and calls to the observer, up to
/// the end or until the observer has failed.
pub fn observe<E: Events, O: Observer>(sim: &mut Sim, events: &mut E, observer: &mut O)
    ensures { Watches O.expects O.has_failed O.shows (E.remaining events.old sim.old)
        sim.old observer.old sim.new observer.new }
{
    let mut showing = Showing {
        observer,
        is_at_end: false,
    };
    go_through(sim, events, &mut showing);
}

/// True for an event that comes as its millisecond ends.
fn is_at_end(event: Event) -> bool
    ensures { result ≡ is_at_end event }
{
    match event {
        Event::Tick(_) | Event::Sleep(_) => true,
        Event::Wake(_) | Event::SetWeight(_, _) | Event::SetTaskWeight(_, _) | Event::Clock =>
            false,
    }
}
