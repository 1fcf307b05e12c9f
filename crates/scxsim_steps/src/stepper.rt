ghost use Rattle.std.specs.Prelude.{◌≡◌, ◌==◌, ℕ, List, [], ◌++◌, false, OnOk};
ghost use Rattle.scxsim_trace.specs.Lines.{names_of, note_line};
ghost use Rattle.scxsim_steps.specs.Stepping.{TakesNote};

use crate::account::Account;
use crate::lines::Lines;
use crate::page::Page;
use scx_load_workloads::Workload;
use scx_maps::Maps;
use scx_sched::{Event, Note, Sim, Sink, Unseen};
use scx_sched_world::World;
use scx_verify::Verified;
use scx_vm::Args;
use scx_vm_run::Core;
use scxsim_faults::run_seen;
use scxsim_output::{Failed, Text, write_all};
use scxsim_trace::{EventSink, Trace};
use std::alloc::{AllocError, Global};
use std::marker::Model;

/// A sink that runs the programs of one millisecond instruction by instruction, and writes each of them and each
/// note of it on a page.
///
/// In a contract it is the page up to the last line of a note, and whether there was no memory for one.
#[derive(Drop)]
pub(crate) struct Stepper<'a> {
    names: &'a Workload,
    ms: u64,
    page: Page,
    lost: bool,
    /// The text that comes after the page.
    account: Account<'a>,
}

impl<'a> Model for Stepper<'a> {
    ghost use Rattle.scxsim_trace.specs.Lines.{names_of};
    ghost use Rattle.scxsim_steps.specs.Stepping.{Kept};

    ghost Value = { Kept };

    ghost view = { λ s. record {
      ms = s.ms;
      names = names_of s.names.now;
      text = s.page.bytes.items;
      lost = s.lost;
    } };
}

impl<'a> Stepper<'a> {
    /// A stepper that has written nothing but the first text.
    pub(crate) fn new(alloc: Global, names: &'a Workload, ms: u64, first: Text) -> Stepper<'a>
        ensures ms { result.ms ≡ ms }
        ensures names { result.names ≡ names_of names.now }
        ensures text { result.text ≡ [] }
        ensures well { result.lost ≡ false }
    {
        Stepper {
            names,
            ms,
            page: Page::new(alloc),
            lost: false,
            account: Account::new(alloc, names, ms, first),
        }
    }

    /// Writes a note of that millisecond.
    fn hear(&mut self, note: Note)
        ensures ms { self.new.ms ≡ self.old.ms }
        ensures names { self.new.names ≡ self.old.names }
        ensures well { self.new.lost ≡ false → self.old.lost ≡ false }
        ensures text { self.new.lost ≡ false → (words : List ℕ)
            × (self.new.text ≡ self.old.text ++ (words ++ note_line self.old.names note)) }
    {
        self.account.begin();
        let names = self.names;
        let words = self.account.text.as_str();
        match push_note(&mut self.page, names, words, note) {
            Ok(()) => self.account.text.clear(),
            Err(_) => self.lost = true,
        }
    }

    /// True if the note is of that millisecond.
    fn is_now(&self, note: Note) -> bool
        ensures { result ≡ (note.clock == self.now.ms) }
    {
        note.clock == self.ms
    }

    /// Ends the run: the remaining text is written.
    pub(crate) fn end(&mut self, sim: &Sim) -> Result<(), AllocError>
        ensures names { self.new.names ≡ self.old.names }
        ensures well { OnOk result (self.old.lost ≡ false) }
        ensures text { OnOk result ((rest : List ℕ) × (self.new.text ≡ self.old.text ++ rest)) }
    {
        self.account.end(sim);
        if self.lost || self.account.text.is_cut() {
            return Err(AllocError);
        }
        push_rest(&mut self.page, self.account.text.as_str())?;
        Ok(())
    }

    /// The text that was written, if there were no notes.
    pub(crate) fn into_text(self) -> Text {
        let Stepper { page, account, .. } = self;
        drop(page);
        let Account { text, .. } = account;
        text
    }

    /// The bytes of the page.
    pub(crate) fn into_page(self) -> Vec<u8>
        ensures { result.items ≡ self.entry.text }
    {
        let Stepper { page, account, .. } = self;
        drop(account);
        page.into_bytes()
    }
}

impl Sink for Stepper<'_> {
    ghost takes = { TakesNote };

    ghost has_failed = { λ s. s.lost };

    ghost failed_stays = { λ s t n failed takes. takes.0 failed };

    fn take(&mut self, note: Note) {
        if self.lost {
            return;
        }
        if self.is_now(note) {
            self.hear(note);
        }
    }

    fn failed(&self) -> bool {
        let lost = self.lost;
        lost
    }

    fn run(
        &mut self,
        core: &mut Core,
        program: &Verified,
        arguments: Args,
        maps: &mut Maps,
        world: &mut World,
    ) -> u64 {
        if world.clock() != self.ms {
            return Unseen.run(core, program, arguments, maps, world);
        }
        self.account.push_callback(program.callback(), arguments);
        let alloc = self.account.alloc;
        let text = &mut self.account.text;
        let mut lines = Lines::new(alloc, self.names, program.program(), text);
        let ran = run_seen(program, arguments, maps, world, &mut lines);
        lines.end(program.callback(), arguments.first, ran.answer, world);
        ran.answer
    }
}

impl EventSink for Stepper<'_> {
    ghost comes = { λ a s e b. b ≡ a };

    fn event(&mut self, sim: &Sim, event: Event) {
        self.account.expect(sim, event);
    }
}

/// Writes the remaining text.
fn push_rest(page: &mut Page, rest: &str) -> Result<(), AllocError>
    ensures { OnOk result (page.new.bytes.items ≡ page.old.bytes.items ++ rest.now) }
{
    match write_all(page, rest.as_bytes()) {
        Ok(()) => Ok(()),
        Err(_) => Err(AllocError),
    }
}

/// Writes words, and then the line of a note.
fn push_note(page: &mut Page, names: &Workload, words: &str, note: Note) -> Result<(), Failed>
    ensures { OnOk result
        (page.new.bytes.items
        ≡ page.old.bytes.items ++ (words.now ++ note_line (names_of names.now) note)) }
{
    write_all(page, words.as_bytes())?;
    let mut trace = Trace::new(names, page);
    trace.take(note);
    if trace.failed() {
        return Err(Failed);
    }
    Ok(())
}
