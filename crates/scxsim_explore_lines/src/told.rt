ghost use Rattle.std.specs.Prelude.{◌≡◌, ◌≢◌, false, Some, IfOk, option_map, string_bytes};
ghost use Rattle.scx_explore_findings.specs.Findings.{sort_of};

use scx_explore::{Finding, Sort};
use scx_sched::Event;
use std::alloc::{AllocError, Global};
use std::marker::Model;

/// A list of events, what is found at its end, the words of its cause, if they are told, and the workload file whose
/// events begin with it, if there is one.
#[derive(Drop)]
pub struct Told {
    finding: Finding,
    events: Vec<Event>,
    cause: Option<String>,
    file: Option<String>,
}

impl Model for Told {
    ghost use Rattle.std.specs.Prelude.{option_map, string_bytes};
    ghost use Rattle.scxsim_explore_lines.specs.Found.{ToldList};

    ghost Value = { ToldList };

    ghost view = { λ t. record {
      finding = t.finding;
      events = t.events.items;
      cause = option_map string_bytes t.cause;
      file = option_map string_bytes t.file;
    } };
}

impl Told {
    /// A copy of the events as a list with that finding, its cause and its workload file.
    ///
    /// # Errors
    ///
    /// Memory runs out.
    pub fn new(
        alloc: Global,
        finding: Finding,
        events: &[Event],
        cause: Option<String>,
        file: Option<String>,
    ) -> Result<Told, AllocError>
        ensures { IfOk result (λ told. told ≡ record {
          finding = finding;
          events = events.now;
          cause = option_map string_bytes cause;
          file = option_map string_bytes file;
        }) }
    {
        let mut copy = Vec::new(alloc);
        match copy.extend_from_slice(events) {
            Ok(()) => Ok(Told {
                finding,
                events: copy,
                cause,
                file,
            }),
            Err(AllocError) => {
                drop(copy);
                drop(cause);
                drop(file);
                Err(AllocError)
            }
        }
    }

    /// False if what is found isn't of that sort.
    pub fn is_of(&self, sort: Sort) -> bool
        ensures { result ≡ false → sort_of self.now.finding ≢ Some sort }
    {
        match self.finding.sort() {
            Some(found) => found.number() == sort.number(),
            None => false,
        }
    }

    /// The sort of what is found, if it has one.
    pub(crate) fn sort(&self) -> Option<Sort>
        ensures { result ≡ sort_of self.now.finding }
    {
        self.finding.sort()
    }

    pub(crate) fn finding(&self) -> Finding
        ensures { result ≡ self.now.finding }
    {
        self.finding
    }

    pub(crate) fn events(&self) -> &[Event]
        ensures { result.now ≡ self.now.events }
    {
        self.events.as_slice()
    }

    /// The words of the cause of what is found, if they are told.
    pub(crate) fn cause(&self) -> Option<&str>
        ensures { option_map (λ text. text.now) result ≡ self.now.cause }
    {
        text_in(&self.cause)
    }

    /// The workload file, if there is one.
    pub(crate) fn file(&self) -> Option<&str>
        ensures { option_map (λ text. text.now) result ≡ self.now.file }
    {
        text_in(&self.file)
    }
}

/// The text, if there is one.
fn text_in(text: &Option<String>) -> Option<&str>
    ensures { option_map (λ text. text.now) result ≡ option_map string_bytes text.now }
{
    match text {
        Some(text) => Some(text.as_str()),
        None => None,
    }
}
