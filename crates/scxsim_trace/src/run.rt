ghost use Rattle.std.specs.Prelude.{◌≡◌, OnOk, OnErr};
ghost use Rattle.std.specs.Io.KnownBytes.{Appends};
ghost use Rattle.scxsim_output.specs.Output.{AppendsBeginning, Counts};
ghost use Rattle.scxsim_trace.specs.Lines.{note_lines};
ghost use Rattle.scx_load_driver.specs.Runs.{notes_of_all, stepped_all};
ghost use Rattle.scx_sched_machine.specs.Notes.{Takes};
ghost use Rattle.scx_sched.specs.Sim.{after_event, notes_of};
ghost use Rattle.scxsim_trace.specs.Runs.{IsInOrder, GoesWell, StaysInOrder, Observed, PassesBy, StopsAtFailure};

use crate::event_sink::EventSink;
use crate::names::Names;
use crate::trace::Trace;
use scx_load_driver::Events;
use scx_sched::{Event, Sim, Sink, Unseen};
use scxsim_output::{Failed, Out};

/// Gives an event to the machine.
#[inline(always)]
fn step<S: Sink>(sim: &mut Sim, event: Event, sink: &mut S)
    ensures state { sim.new ≡ after_event sim.old event }
    ensures notes { Takes S.takes sink.old (notes_of sim.old event) sink.new }
    ensures well { GoesWell sim.old event }
    ensures order { IsInOrder sim.new }
{
    let _ = sim.step(event, sink);
    sim.is_sound();
}

/// Gives an event to the machine. Most events are ticks and clocks; each has a call of its own, which is compiled
/// for that event. All three are compiled anew for each list of events: each time they have one caller, and become
/// part of it.
#[inline(always)]
fn take<E: Events, S: Sink>(sim: &mut Sim, event: Event, sink: &mut S)
    ensures state { sim.new ≡ after_event sim.old event }
    ensures notes { Takes S.takes sink.old (notes_of sim.old event) sink.new }
    ensures well { GoesWell sim.old event }
    ensures order { IsInOrder sim.new }
{
    match event {
        Event::Tick(cpu) => step(sim, Event::Tick(cpu), sink),
        Event::Clock => step(sim, Event::Clock, sink),
        other => step(sim, other, sink),
    }
}

/// After the clock, gives the machine at once events that come next and of which nothing is noted, unless the sink is
/// to be shown them.
#[inline(always)]
#[tactic(auto, using(crate::proofs::Going::none_by, crate::proofs::Going::skips_by))]
fn pass_by<E: Events, S: EventSink>(sim: &mut Sim, event: Event, events: &mut E, sink: &S)
    ensures { PassesBy S.comes (E.remaining events.old sim.old) sim.old
        (E.remaining events.new sim.new) sim.new sink.now }
{
    if event == Event::Clock && !sink.heeds_time() {
        events.skip(sim);
    }
}

/// Gives the events to the machine, one after another, and shows them and their notes to the sink, up to the end or
/// until it has failed.
#[tactic(auto, using(crate::proofs::Going::gone_to_end))]
pub fn go_through<E: Events, S: EventSink>(sim: &mut Sim, events: &mut E, sink: &mut S)
    ensures { Observed S.comes S.takes S.has_failed (E.remaining events.old sim.old) sim.old
        sink.old sim.new sink.new }
{
    sim.is_sound();
    while let Some(event) = events.next(sim) {
        sink.event(sim, event);
        take::<E, S>(sim, event, sink);
        if sink.failed() {
            return;
        }
        pass_by(sim, event, events, sink);
    }
}

/// Gives the events to the machine, one after another, and writes a line for each of their notes.
///
/// # Errors
///
/// Writing failed. The lines are cut off there, and no further event is given to the machine.
pub fn write_run<E: Events, N: Names, W: Out>(
    sim: &mut Sim,
    events: &mut E,
    names: &N,
    out: &mut W,
) -> Result<(), Failed>
    ensures ok { OnOk result (Appends (W.contents out.old) (W.contents out.new)
        (note_lines (N.lists names.now) (notes_of_all sim.old (E.remaining events.old sim.old)))) }
    ensures ok_state { OnOk result
        (sim.new ≡ stepped_all sim.old (E.remaining events.old sim.old)) }
    ensures ok_in_order { OnOk result (StaysInOrder sim.old (E.remaining events.old sim.old)) }
    ensures err { OnErr result (AppendsBeginning (W.contents out.old) (W.contents out.new)
        (note_lines (N.lists names.now) (notes_of_all sim.old (E.remaining events.old sim.old)))) }
    ensures failures { Counts result (W.failure_count out.old) (W.failure_count out.new) }
    ensures err_stopped { OnErr result
        (StopsAtFailure (N.lists names.now) (E.remaining events.old sim.old) sim.old sim.new
        (W.contents out.old) (W.contents out.new)) }
{
    let mut trace = Trace::new(names, out);
    go_through(sim, events, &mut trace);
    if trace.failed() {
        return Err(Failed);
    }
    Ok(())
}

/// Gives the events to the machine, one after another, up to the end.
pub fn run_silently<E: Events>(sim: &mut Sim, events: &mut E)
    ensures state { sim.new ≡ stepped_all sim.old (E.remaining events.old sim.old) }
    ensures in_order { StaysInOrder sim.old (E.remaining events.old sim.old) }
{
    go_through(sim, events, &mut Unseen);
}
