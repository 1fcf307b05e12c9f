ghost use Rattle.std.specs.Prelude.{◌≡◌, true, false};
ghost use Rattle.scxsim_trace.specs.Tracing.{TakesLine};

use crate::clock_text::ClockText;
use crate::event_sink::EventSink;
use crate::lines::write_note;
use crate::names::Names;
use scx_sched::{Event, Sim};
use scx_sched_machine::Sink;
use scx_sched_world::Note;
use scxsim_output::Out;

/// A sink that writes a line for each note, up to the first write that fails.
#[derive(Drop)]
pub struct Trace<'a, N, W> {
    names: &'a N,
    out: &'a mut W,
    failed: bool,
    clock: ClockText,
}

impl<'a, N: Names, W: Out> Trace<'a, N, W> {
    pub fn new(names: &'a N, out: &'a mut W) -> Self
        ensures same_reference { result.out.ghost_name ≡ out.entry.ghost_name }
        ensures out { result.out.now ≡ out.old }
        ensures names { result.names.now ≡ names.now }
        ensures failed { result.failed ≡ false }
    {
        Trace {
            names,
            out,
            failed: false,
            clock: ClockText::new(0),
        }
    }
}

impl<N: Names, W: Out> Sink for Trace<'_, N, W> {
    ghost takes = { TakesLine (λ s. s.out.ghost_name) (λ s. N.lists s.names.now)
        (λ s. record {
          contents = W.contents s.out.now;
          failures = W.failure_count s.out.now;
          failed
              = s.failed;
        }) };

    ghost has_failed = { λ s. s.failed };

    ghost failed_stays = { λ s t n failed takes. takes.0 failed };

    #[inline(always)]
    fn take(&mut self, note: Note) {
        if self.failed {
            return;
        }
        if write_note(self.names, &mut self.clock, note, self.out).is_err() {
            self.failed = true;
        }
    }

    fn failed(&self) -> bool {
        let failed = self.failed;
        failed
    }

    #[inline(always)]
    fn heeds_runs(&self) -> bool {
        false
    }
}

impl<N: Names, W: Out> EventSink for Trace<'_, N, W> {
    ghost comes = { λ s m e t. t ≡ s };

    #[inline(always)]
    fn event(&mut self, _sim: &Sim, _event: Event) {}

    #[inline(always)]
    fn heeds_time(&self) -> bool {
        false
    }
}
