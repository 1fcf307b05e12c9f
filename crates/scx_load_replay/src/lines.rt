ghost use Rattle.std.specs.Prelude.{◌≡◌};
ghost use Rattle.scx_load_files.specs.declared.event_fault.EventFault.TheVariants.{BadWeight};
ghost use Rattle.scx_load_replay.specs.Events.{is_sleep};
ghost use Rattle.scx_load_replay.specs.Lines.{or_fault, within, number_in, task_in, weight_in, own_weight_in, own_weight_by, event_in, line_at, line_in};

use scx_isa_semantics::Rules;
use scx_load_files::EventFault;
use scx_load_workloads::{Workload, numeral};
use scx_sched::Event;

/// An event, and its millisecond.
#[derive(Clone, Copy)]
pub struct Line {
    /// In ms.
    pub at: u32,
    pub event: Event,
}

impl Line {
    /// True if it comes after the ticks of its millisecond.
    pub(crate) fn is_sleep(self) -> bool
        ensures { result ≡ is_sleep self.event }
    {
        match self.event {
            Event::Sleep(_) => true,
            Event::Wake(_)
            | Event::Tick(_)
            | Event::Clock
            | Event::SetWeight(_, _)
            | Event::SetTaskWeight(_, _) => false,
        }
    }
}

/// The event of a line, and its millisecond.
pub(crate) fn line_in(rules: Rules, workload: &Workload, text: &str) -> Result<Line, EventFault>
    ensures { result ≡ line_in rules workload.now text.now }
{
    workload.is_whole();
    let Some((time, rest)) = text.split_once(' ') else {
        return Err(EventFault::Syntax);
    };
    let Some(at) = number_in(time, 0, workload.ms() - 1) else {
        return Err(EventFault::BadTime);
    };
    line_at(rules, workload, at, rest)
}

/// The line of that millisecond whose text after it says the event.
fn line_at(rules: Rules, workload: &Workload, at: u32, text: &str) -> Result<Line, EventFault>
    ensures { result ≡ line_at rules workload.now at text.now }
{
    let Some((verb, rest)) = text.split_once(' ') else {
        return Err(EventFault::Syntax);
    };
    let event = event_in(rules, workload, verb, rest)?;
    Ok(Line { at, event })
}

fn event_in(rules: Rules, workload: &Workload, verb: &str, rest: &str) -> Result<Event, EventFault>
    ensures { result ≡ event_in rules workload.now verb.now rest.now }
{
    match verb {
        "wake" => Ok(Event::Wake(task_in(workload, rest)?)),
        "sleep" => Ok(Event::Sleep(task_in(workload, rest)?)),
        "weight" => weight_in(workload, rest),
        "task_weight" => own_weight_by(rules, workload, rest),
        _ => Err(EventFault::Syntax),
    }
}

/// The number of the task of that name.
fn task_in(workload: &Workload, name: &str) -> Result<u16, EventFault>
    ensures { result ≡ task_in workload.now name.now }
{
    match workload.task_named(name) {
        Some(task) => Ok(task),
        None => Err(EventFault::NoSuchTask),
    }
}

fn weight_in(workload: &Workload, text: &str) -> Result<Event, EventFault>
    ensures { result ≡ weight_in workload.now text.now }
{
    let Some((name, weight)) = text.split_once(' ') else {
        return Err(EventFault::Syntax);
    };
    let Some(group) = workload.group_named(name) else {
        return Err(EventFault::NoSuchGroup);
    };
    let weight = weight_said(weight)?;
    Ok(Event::SetWeight(group, weight))
}

/// The weight that digits say.
fn weight_said(text: &str) -> Result<u32, EventFault>
    ensures { result ≡ or_fault BadWeight (number_in 1 10000 text.now) }
{
    match number_in(text, 1, 10_000) {
        Some(weight) => Ok(weight),
        None => Err(EventFault::BadWeight),
    }
}

/// A task's own weight, where those rules know of it.
fn own_weight_by(rules: Rules, workload: &Workload, text: &str) -> Result<Event, EventFault>
    ensures { result ≡ own_weight_by rules workload.now text.now }
{
    match rules {
        Rules::Plain => Err(EventFault::Syntax),
        Rules::Linux => own_weight_in(workload, text),
    }
}

fn own_weight_in(workload: &Workload, text: &str) -> Result<Event, EventFault>
    ensures { result ≡ own_weight_in workload.now text.now }
{
    let Some((name, weight)) = text.split_once(' ') else {
        return Err(EventFault::Syntax);
    };
    let task = task_in(workload, name)?;
    let weight = weight_said(weight)?;
    Ok(Event::SetTaskWeight(task, weight))
}

/// The number from the least to the greatest that digits say.
#[tactic(auto, using(crate::proofs::Numbers::no_numeral, crate::proofs::Numbers::numeral_is))]
fn number_in(text: &str, least: u32, most: u32) -> Option<u32>
    ensures { result ≡ number_in least most text.now }
{
    within(numeral(text)?, least, most)
}

fn within(number: u32, least: u32, most: u32) -> Option<u32>
    ensures { result ≡ within least most number }
{
    if least <= number && number <= most {
        return Some(number);
    }
    None
}
