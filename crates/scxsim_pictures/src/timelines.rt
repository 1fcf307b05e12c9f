ghost use Rattle.std.specs.Prelude.{◌≡◌, ℕ, List, true, Err, IfOk, OnOk, IfSome, IfNone};
ghost use Rattle.std.specs.Io.KnownBytes.{Appends};
ghost use Rattle.scxsim_output.specs.Output.{HasFailed};
ghost use Rattle.scxsim_commands.specs.Outcome.{IfRefused, IsRefused};
ghost use Rattle.scxsim_runs.specs.ScenarioParts.{IsScenarioPartCause};
ghost use Rattle.scxsim_pictures.specs.Documents.{document};
ghost use Rattle.scxsim_pictures.specs.Bars.{IsPartOf, HasNoTime};

use crate::arrows::Arrows;
use crate::documents::write_document;
use crate::note_lines::{NoteLines, write_note_lines};
use crate::objects::{Bar, Object};
use crate::queue_lengths::{Count, Lengths, Stay};
use crate::runners::{Runners, Running};
use crate::sketches::Sketch;
use crate::track_titles::{END, HEAD, has_weights, titles};
use scx_load_workloads::Workload;
use scx_sched::What;
use scx_sched_world::{LOCAL_ON, PARKED};
use scxsim_commands::{Fault, Span, Window};
use scxsim_output::{Failed, Out};
use scxsim_runs::{Listener, ScenarioPart, prepare_scenario_part};
use scxsim_trace::Names;
use std::alloc::{AllocError, Global};

/// Writes the timeline of the run of a policy file and of a workload or a file of events, or of a part of it, with that
/// title. The answer is true.
///
/// # Errors
///
/// The texts or the words of the part are refused, or memory runs out, and then nothing is written, or writing the
/// timeline fails.
pub fn timeline<L: Listener, W: Out>(
    alloc: Global,
    title: &str,
    policy: &str,
    scenario: &str,
    span: Option<Span<'_>>,
    listener: &mut L,
    out: &mut W,
) -> Result<bool, Fault>
    ensures done { IfOk result (λ answer. (answer ≡ true) × (objects : List ℕ)
        × Appends (W.contents out.old) (W.contents out.new) (document objects)) }
    ensures unfailed { OnOk result (W.failure_count out.new ≡ W.failure_count out.old) }

    // A refusal has its cause in the texts or in the words, and comes before any byte is written.
    ensures refused { IfRefused result (IsScenarioPartCause policy.now scenario.now span.entry) }
    ensures quiet { IsRefused result → out.new ≡ out.old }
    ensures counted { result ≡ Err Fault.WriteFailed
        → HasFailed (W.failure_count out.old) (W.failure_count out.new) }
{
    let ScenarioPart { run, window } = prepare_scenario_part(alloc, policy, scenario, span)?;
    let sketch = TimelineSketch::new(alloc, title, run.scenario.workload(), window);
    write_document(run, sketch, HEAD, END, listener, out)
}

/// A timeline of a part of a run while the run goes on.
#[derive(Drop)]
struct TimelineSketch {
    window: Window,
    titles: String,
    lines: NoteLines,
    runners: Runners,
    lengths: Lengths,
    arrows: Arrows,
    /// True if the weights of groups are told.
    has_weights: bool,
}

impl TimelineSketch {
    /// A timeline before the first event. Takes all of its memory.
    fn new(
        alloc: Global,
        title: &str,
        workload: &Workload,
        window: Window,
    ) -> Result<Self, AllocError> {
        Ok(TimelineSketch {
            window,
            titles: titles(alloc, title, workload, window.from)?,
            lines: NoteLines::new(),
            runners: Runners::new(alloc, workload.cpus())?,
            lengths: Lengths::new(alloc, workload.tasks().len())?,
            arrows: Arrows::new(alloc, workload.tasks().len())?,
            has_weights: has_weights(workload),
        })
    }

    /// Puts the wait that ends first, the note itself second, and lengths of queues third and fourth.
    fn put(&mut self, moment: u64, what: What) {
        match what {
            What::Wake(task) => self.wake(moment, task),
            What::Sleep(task) => self.place(moment, task, None),
            What::Insert(task, queue) => self.place(moment, task, Some(queue)),
            What::Move(task, cpu) => {
                let queue = LOCAL_ON.saturating_add(u64::from(cpu));
                self.place(moment, task, Some(queue));
            }
            What::Run(task, cpu) => {
                self.runners.run(moment, task, cpu);
                self.place(moment, task, None);
            }
            What::Stop(_, cpu) => self.stop(moment, cpu),
            What::Weight(group, weight) => self.weigh(moment, group, weight),
            What::Idle(_) | What::TaskWeight(_, _) => {}
            What::Stall(task) => self.eject(moment, Object::Stall { moment, task }),
            What::Fault(reason) => {
                let number = reason.number();
                self.eject(moment, Object::Fault { moment, number });
            }
            What::Exit(code) => self.eject(moment, Object::Exit { moment, code }),
        }
    }

    fn wake(&mut self, moment: u64, task: u16) {
        self.arrows.wake(task, moment);
        if self.window.from <= moment && moment < self.window.to {
            self.lines.second = Some(Object::Wake { moment, task });
        }
    }

    fn weigh(&mut self, moment: u64, group: u32, weight: u32) {
        if !self.has_weights {
            return;
        }
        if let Some(moment) = told_at(self.window, moment) {
            self.lines.second = Some(Object::Weight {
                moment,
                group,
                weight,
            });
        }
    }

    fn eject(&mut self, moment: u64, ejection: Object) {
        if self.window.from <= moment && moment <= self.window.to {
            self.lines.second = Some(ejection);
        }
    }

    /// The CPU becomes idle. The run that ends is put second, unless it has no time in the part.
    fn stop(&mut self, moment: u64, cpu: u32) {
        let Some(running) = self.runners.stop(cpu) else {
            return;
        };
        let Running { task, since } = running;
        let arrow = self.arrows.stop(task);
        if let Some(bar) = bar_within(self.window, since, moment) {
            self.lines.second = Some(Object::Run {
                cpu,
                task,
                bar,
                arrow,
            });
        }
    }

    /// The task waits in that queue from now on, or in none.
    fn place(&mut self, moment: u64, task: u16, queue: Option<u64>) {
        let stay = stay_in(queue, moment);
        if let Some(before) = self.lengths.replace(task, stay) {
            self.lines.third = self.one_less(moment, before.queue);
            self.leave(moment, task, before);
        }
        if let Some(queue) = queue {
            self.lines.fourth = self.one_more(moment, queue);
        }
    }

    /// The wait in a queue is over. It is put first, unless it has no time in the part.
    fn leave(&mut self, moment: u64, task: u16, stay: Stay) {
        let Some(bar) = bar_within(self.window, stay.since, moment) else {
            return;
        };
        let Stay { queue, since } = stay;
        self.lines.first = Some(if queue == PARKED {
            Object::Parked { task, bar }
        } else {
            let arrow = self.arrows.begin(task, since);
            Object::Wait {
                task,
                queue,
                bar,
                arrow,
            }
        });
    }

    fn one_less(&mut self, moment: u64, queue: u64) -> Option<Object> {
        let moment = told_at(self.window, moment)?;
        line_of(self.lengths.take(moment, queue))
    }

    fn one_more(&mut self, moment: u64, queue: u64) -> Option<Object> {
        let moment = told_at(self.window, moment)?;
        line_of(self.lengths.add(moment, queue))
    }

    /// Puts lengths that changed before that moment third and fourth, where there is room.
    fn tell_before(&mut self, moment: u64) {
        if self.lines.third.is_none() {
            self.lines.third = line_of(self.lengths.tell_before(moment));
        }
        if self.lines.fourth.is_none() {
            self.lines.fourth = line_of(self.lengths.tell_before(moment));
        }
    }
}

/// The moment at which a part tells a change of a weight or a queue: where it begins, if that was before. A later one isn't
/// told.
fn told_at(window: Window, moment: u64) -> Option<u64> {
    if moment < window.to {
        Some(moment.max(window.from))
    } else {
        None
    }
}

/// The time of a part between two moments, if there is some.
fn bar_within(window: Window, since: u64, until: u64) -> Option<Bar>
    ensures some { IfSome result (λ bar. IsPartOf window since until bar) }
    ensures none { IfNone result (HasNoTime window since until) }
{
    let since = since.max(window.from);
    let until = until.min(window.to);
    if since < until {
        Some(Bar { since, until })
    } else {
        None
    }
}

/// A stay in that queue that begins at that moment, or none.
fn stay_in(queue: Option<u64>, moment: u64) -> Option<Stay> {
    let queue = queue?;
    Some(Stay {
        queue,
        since: moment,
    })
}

fn line_of(told: Option<Count>) -> Option<Object> {
    Some(Object::Length(told?))
}

impl Sketch for TimelineSketch {
    ghost use Rattle.std.specs.Prelude.{◌≡◌};
    ghost use Rattle.scxsim_pictures.specs.NoteLines.{lines_text};

    ghost writes = { λ c x text. text ≡ lines_text x c.lines };

    fn beginning(&self) -> &str {
        self.titles.as_str()
    }

    fn show(&mut self, moment: u64, _clock: u64, what: What) {
        self.lines.clear();
        self.put(moment, what);
        self.tell_before(moment);
    }

    fn end_cpu(&mut self, moment: u64, cpu: u32) {
        self.lines.clear();
        self.stop(moment, cpu);
        self.tell_before(u64::MAX);
    }

    fn end_task(&mut self, moment: u64, task: u16) {
        self.lines.clear();
        if let Some(stay) = self.lengths.stay(task) {
            self.leave(moment, task, stay);
        }
        self.tell_before(u64::MAX);
    }

    fn end(&mut self, _moment: u64) {
        self.lines.clear();
        self.lines.first = line_of(self.lengths.tell_before(u64::MAX));
        self.lines.second = line_of(self.lengths.tell_before(u64::MAX));
        self.tell_before(u64::MAX);
    }

    #[tactic(auto, using(crate::proofs::Growing::written_as_made))]
    fn write<N: Names, W: Out>(&self, names: &N, out: &mut W) -> Result<(), Failed> {
        write_note_lines(names, &self.lines, out)
    }
}
