ghost use Rattle.std.specs.Prelude.{◌≡◌, ◌++◌, false, is_err, None, Some, OnOk, string_bytes};
ghost use Rattle.scxsim_story.specs.Occurrences.{concerns, line, Writes, ExpectsEvent, HearsNote};

use crate::life::Life;
use crate::subject::Subject;
use crate::words::{Occurrence, write_words};
use itoa::Buffer;
use scx_load_workloads::Workload;
use scx_sched::{Event, Note, Sim, What};
use scxsim_output::Text;
use scxsim_trace::Observer;
use std::alloc::{AllocError, Global};

/// An observer that writes the story of a task.
#[derive(Drop)]
pub(crate) struct Storyteller<'w> {
    subject: Subject,
    workload: &'w Workload,
    pub(crate) text: String,
    /// The occurrence whose line isn't in the text yet.
    pending: Option<Note>,
    /// The moment of that occurrence, and the state of the task before it.
    moment: u64,
    life: Life,
    /// The words of a line.
    words: Text,
    /// An error once memory has run out.
    pub(crate) result: Result<(), AllocError>,
}

impl<'w> Storyteller<'w> {
    /// A story that has this opening, and no lines yet.
    pub(crate) fn new(
        alloc: Global,
        workload: &'w Workload,
        subject: Subject,
        opening: String,
    ) -> Storyteller<'w>
        ensures subject { result.subject ≡ subject }
        ensures text { result.text ≡ opening }
        ensures pending { result.pending ≡ None }
        ensures well { is_err result.result ≡ false }
    {
        Storyteller {
            subject,
            workload,
            text: opening,
            pending: None,
            moment: 0,
            life: Life::new(),
            words: Text::new(alloc),
            result: Ok(()),
        }
    }

    /// Writes the last line, as the run ends.
    pub(crate) fn end(&mut self, sim: &Sim) -> Result<(), AllocError>
        ensures written { OnOk result
            (Writes self.old.pending (string_bytes self.old.text) (string_bytes self.new.text)) }
    {
        self.settle(None, Some(sim))
    }

    pub(crate) fn into_text(self) -> String
        ensures { result ≡ self.entry.text }
    {
        let Storyteller { text, words, .. } = self;
        drop(words);
        text
    }

    /// Writes the line that is missing, if one is: the next occurrence comes of the same event, or none does.
    fn settle(&mut self, next: Option<What>, sim: Option<&Sim>) -> Result<(), AllocError>
        ensures subject { self.new.subject ≡ self.old.subject }
        ensures result { self.new.result ≡ self.old.result }
        ensures written { OnOk result
            (Writes self.old.pending (string_bytes self.old.text) (string_bytes self.new.text)) }
        ensures pending { OnOk result (self.new.pending ≡ None) }
    {
        match self.pending {
            Some(note) => self.write(note, next, sim),
            None => Ok(()),
        }
    }

    /// Writes the line of that occurrence.
    fn write(&mut self, note: Note, next: Option<What>, sim: Option<&Sim>) -> Result<(), AllocError>
        ensures subject { self.new.subject ≡ self.old.subject }
        ensures result { self.new.result ≡ self.old.result }
        ensures written { OnOk result (Writes (Some note) (string_bytes self.old.text)
            (string_bytes self.new.text)) }
        ensures pending { OnOk result (self.new.pending ≡ None) }
    {
        let Note { clock, what } = note;
        let occurrence = Occurrence {
            task: self.subject.task,
            moment: self.moment,
            clock,
            what,
            life: self.life,
            next,
            sim,
        };
        self.words.clear();
        write_words(self.workload, occurrence, &mut self.words);
        if self.words.is_cut() {
            return Err(AllocError);
        }
        push_line(&mut self.text, clock, self.words.as_str())?;
        self.life = self.life.after(self.moment, clock, what);
        self.pending = None;
        Ok(())
    }

    /// True for a note of the task, of its own or its group's weight, or of the policy's ejection.
    fn concerns(&self, what: What) -> bool
        ensures { result ≡ concerns self.now.subject what }
    {
        let Subject { task, group } = self.subject;
        match what {
            What::Wake(of)
            | What::Sleep(of)
            | What::Insert(of, _)
            | What::Move(of, _)
            | What::Run(of, _)
            | What::Stop(of, _)
            | What::TaskWeight(of, _) => of == task,
            What::Weight(of, _) => of == group,
            What::Stall(_) | What::Fault(_) | What::Exit(_) => true,
            What::Idle(_) => false,
        }
    }

    /// Takes an occurrence, whose line is missing from then on.
    fn hear(&mut self, moment: u64, note: Note) -> Result<(), AllocError>
        ensures subject { self.new.subject ≡ self.old.subject }
        ensures result { self.new.result ≡ self.old.result }
        ensures written { OnOk result
            (Writes self.old.pending (string_bytes self.old.text) (string_bytes self.new.text)) }
        ensures pending { OnOk result (self.new.pending ≡ Some note) }
    {
        self.settle(Some(note.what), None)?;
        self.pending = Some(note);
        self.moment = moment;
        Ok(())
    }
}

/// Appends a line of a story.
fn push_line(text: &mut String, clock: u64, words: &str) -> Result<(), AllocError>
    ensures { OnOk result (string_bytes text.new ≡ string_bytes text.old ++ line clock words.now) }
{
    let mut digits = Buffer::new();
    text.push_str(digits.format(clock))?;
    text.push_str(" ")?;
    text.push_str(words)?;
    text.push_str("\n")
}

impl Observer for Storyteller<'_> {
    ghost expects = { λ v _ _ w. ExpectsEvent (λ x. is_err x.result) (λ x. x.subject)
        (λ x. record {
          text = string_bytes x.text;
          pending = x.pending;
        }) v w };

    ghost shows = { λ v _ clock what w. HearsNote (λ x. is_err x.result) (λ x. x.subject)
        (λ x. record {
          text = string_bytes x.text;
          pending = x.pending;
        }) v clock what w };

    ghost has_failed = { λ v. is_err v.result };

    fn expect(&mut self, sim: &Sim, event: Event) {
        if self.result.is_err() {
            return;
        }
        match self.settle(None, Some(sim)) {
            Ok(()) => self.life = self.life.expecting(sim, event, self.subject.task),
            Err(error) => self.result = Err(error),
        }
    }

    fn show(&mut self, moment: u64, clock: u64, what: What) {
        if self.concerns(what) {
            if let Err(error) = self.hear(moment, Note { clock, what }) {
                self.result = Err(error);
            }
        }
    }

    fn failed(&self) -> bool {
        self.result.is_err()
    }
}
