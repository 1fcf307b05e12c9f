ghost use Rattle.std.specs.Prelude.{◌≡◌, ◌++◌, ℕ, List, OnOk};
ghost use Rattle.std.specs.Io.KnownBytes.{Appends};
ghost use Rattle.scxsim_output.specs.Output.{Counts};
ghost use Rattle.scxsim_trace.specs.Lines.{NameLists};
ghost use Rattle.scxsim_pictures.specs.Sketching.{Grows, GrowsBy, KeepsOutput, TakesSketch};

use scx_load_driver::Events;
use scx_sched::{Event, Note, Sim, Sink, What};
use scxsim_output::{Failed, Out, write_all};
use scxsim_trace::{EventSink, Names, go_through};

/// Makes a text of a run as it goes, a part after each note.
pub trait Sketch {
    // The texts that may be written of a state, with these names.
    ghost writes: { Self → NameLists → List ℕ → Type 0 };

    /// The text before the first note.
    fn beginning(&self) -> &str;

    /// Makes the text of a note.
    fn show(&mut self, moment: u64, clock: u64, what: What);

    /// Makes the text of a CPU as the run ends.
    fn end_cpu(&mut self, moment: u64, cpu: u32);

    /// Makes the text of a task as the run ends.
    fn end_task(&mut self, moment: u64, task: u16);

    /// Makes the last text.
    fn end(&mut self, moment: u64);

    /// Writes the text that was made last. It may be kept for later, except the last one.
    fn write<N: Names, W: Out>(&self, names: &N, out: &mut W) -> Result<(), Failed>
        ensures ok { OnOk result (GrowsBy (writes self.now (N.lists names.now))
            (W.contents out.old) (W.contents out.new)) }
        ensures failures { Counts result (W.failure_count out.old) (W.failure_count out.new) };
}

/// A sketch and its output, up to the first write that fails.
#[derive(Drop)]
struct Sketching<'a, 'n, S, N, W> {
    sketch: &'a mut S,
    names: &'n N,
    out: &'a mut W,
    /// True if the event of the notes comes as its millisecond ends.
    is_at_end: bool,
    failed: bool,
}

impl<S: Sketch, N: Names, W: Out> Sink for Sketching<'_, '_, S, N, W> {
    ghost takes = { λ s _ t. TakesSketch (λ x. x.out.ghost_name)
        (λ x. record {
          contents = W.contents x.out.now;
          failures = W.failure_count x.out.now;
          failed
              = x.failed;
        }) (λ x. S.writes x.sketch.now (N.lists x.names.now)) s t };

    ghost has_failed = { λ s. s.failed };

    ghost failed_stays = { λ s t n failed takes. takes.0 failed };

    fn take(&mut self, note: Note) {
        if self.failed {
            return;
        }
        let moment = if self.is_at_end {
            note.clock.saturating_add(1)
        } else {
            note.clock
        };
        self.sketch.show(moment, note.clock, note.what);
        if self.sketch.write(self.names, self.out).is_err() {
            self.failed = true;
        }
    }

    fn failed(&self) -> bool {
        let failed = self.failed;
        failed
    }

    #[inline(always)]
    fn heeds_runs(&self) -> bool {
        false
    }
}

impl<S: Sketch, N: Names, W: Out> EventSink for Sketching<'_, '_, S, N, W> {
    ghost comes = { λ s _ _ t. KeepsOutput (λ x. x.out.ghost_name)
        (λ x. record {
          contents = W.contents x.out.now;
          failures = W.failure_count x.out.now;
          failed
              = x.failed;
        }) s t };

    #[inline(always)]
    fn event(&mut self, _sim: &Sim, event: Event) {
        self.is_at_end = matches!(event, Event::Tick(_) | Event::Sleep(_));
    }

    #[inline(always)]
    fn heeds_time(&self) -> bool {
        false
    }
}

/// Gives the events to the machine, one after another, and writes what the sketch makes of the run, between
/// a head and an end: its beginning, and then the text of each note, and of all that ends with the run.
///
/// # Errors
///
/// Writing failed. The text is cut off there.
pub fn write_sketch<E: Events, S: Sketch, N: Names, W: Out>(
    sim: &mut Sim,
    events: &mut E,
    sketch: &mut S,
    names: &N,
    head: &str,
    end: &str,
    out: &mut W,
) -> Result<(), Failed>
    ensures ok { OnOk result ((made : List ℕ)
        × Appends (W.contents out.old) (W.contents out.new) (head.now ++ made ++ end.now)) }
    ensures failures { Counts result (W.failure_count out.old) (W.failure_count out.new) }
{
    write_all(out, head.as_bytes())?;
    write_all(out, sketch.beginning().as_bytes())?;
    write_notes(sim, events, sketch, names, out)?;
    write_ends(sim, sketch, names, out)?;
    write_all(out, end.as_bytes())
}

/// Gives the events to the machine, one after another, and writes the texts of their notes.
fn write_notes<E: Events, S: Sketch, N: Names, W: Out>(
    sim: &mut Sim,
    events: &mut E,
    sketch: &mut S,
    names: &N,
    out: &mut W,
) -> Result<(), Failed>
    ensures ok { OnOk result (Grows (W.contents out.old) (W.contents out.new)) }
    ensures failures { Counts result (W.failure_count out.old) (W.failure_count out.new) }
{
    let mut sketching = Sketching {
        sketch,
        names,
        out,
        is_at_end: false,
        failed: false,
    };
    go_through(sim, events, &mut sketching);
    if sketching.failed {
        return Err(Failed);
    }
    Ok(())
}

/// Writes the text of each CPU and then of each task, as the run ends, and the last text.
fn write_ends<S: Sketch, N: Names, W: Out>(
    sim: &Sim,
    sketch: &mut S,
    names: &N,
    out: &mut W,
) -> Result<(), Failed>
    ensures ok { OnOk result (Grows (W.contents out.old) (W.contents out.new)) }
    ensures failures { Counts result (W.failure_count out.old) (W.failure_count out.new) }
{
    for place in 0..sim.cpus().saturating_add(u32::from(sim.tasks())) {
        end_one(sketch, sim.clock(), sim.cpus(), place);
        sketch.write(names, out)?;
    }
    sketch.end(sim.clock());
    sketch.write(names, out)
}

/// Makes the text of the CPU in that place, or of the task in a place after all CPUs.
fn end_one<S: Sketch>(sketch: &mut S, moment: u64, cpus: u32, place: u32) {
    if place < cpus {
        sketch.end_cpu(moment, place);
    } else {
        let task = place.saturating_sub(cpus).min(u32::from(u16::MAX));
        sketch.end_task(moment, task as u16);
    }
}
