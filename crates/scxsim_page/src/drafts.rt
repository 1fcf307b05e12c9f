ghost use Rattle.std.specs.Prelude.{OnOk};
ghost use Rattle.scxsim_output.specs.Output.{Counts};
ghost use Rattle.scxsim_pictures.specs.Sketching.{Grows};

use crate::heads::{Paths, head};
use crate::recording::Recording;
use crate::tails::{end_text, ids_text};
use scx_load_replay::Scenario;
use scx_sched::What;
use scxsim_commands::Window;
use scxsim_output::{Failed, Out, write_all};
use scxsim_pictures::Sketch;
use scxsim_trace::Names;
use std::alloc::{AllocError, Global};

/// A page without the text that all pages have: the head of its data, the stretches of its run, and the data that
/// are known at the end.
#[derive(Drop)]
pub(crate) struct Draft {
    head: String,
    recording: Recording,
    is_over: bool,
}

impl Draft {
    /// A draft before the first event. Takes all of its memory. Stretches that are together no longer than `width` are
    /// drawn together, if it is given.
    pub(crate) fn new(
        alloc: Global,
        paths: Paths<'_>,
        scenario: &Scenario,
        window: Window,
        width: Option<u64>,
    ) -> Result<Draft, AllocError> {
        let tasks = scenario.workload().tasks().len();
        Ok(Draft {
            head: head(alloc, paths, scenario, window, width)?,
            recording: Recording::new(alloc, tasks, window, width)?,
            is_over: false,
        })
    }

    /// Writes the last lines, and then the ejection and the ids of queues.
    fn write_rest<W: Out>(&self, out: &mut W) -> Result<(), Failed>
        ensures ok { OnOk result (Grows (W.contents out.old) (W.contents out.new)) }
        ensures failures { Counts result (W.failure_count out.old) (W.failure_count out.new) }
    {
        let ids = self.recording.queue_ids();
        write_all(out, self.recording.lines.letters())?;
        write_all(out, end_text(self.recording.ejection).as_bytes())?;
        write_all(out, ids_text(ids, true).as_bytes())?;
        write_all(out, ids_text(ids, false).as_bytes())
    }
}

impl Sketch for Draft {
    ghost use Rattle.std.specs.Prelude.{⊤};

    // Any text.
    ghost writes = { λ _ _ _. ⊤ };

    fn beginning(&self) -> &str {
        self.head.as_str()
    }

    #[inline(always)]
    fn show(&mut self, moment: u64, clock: u64, what: What) {
        self.recording.lines.clear_if_full();
        self.recording.show(moment, clock, what);
    }

    fn end_cpu(&mut self, _moment: u64, _cpu: u32) {
        self.recording.lines.clear_if_full();
    }

    fn end_task(&mut self, moment: u64, task: u16) {
        self.recording.lines.clear_if_full();
        self.recording.end_task(moment, task);
    }

    fn end(&mut self, _moment: u64) {
        self.recording.lines.clear_if_full();
        self.recording.lines.end();
        self.is_over = true;
    }

    /// Writes the lines that aren't written yet, if there is no room for another, or the rest, if the run is over.
    #[inline(always)]
    #[tactic(auto, using(crate::proofs::Written::grown_by_text, crate::proofs::Written::grown_by_any, crate::proofs::Written::grown_by_nothing))]
    fn write<N: Names, W: Out>(&self, _names: &N, out: &mut W) -> Result<(), Failed> {
        if self.is_over {
            self.write_rest(out)
        } else if self.recording.lines.is_full() {
            write_all(out, self.recording.lines.letters())
        } else {
            Ok(())
        }
    }
}
