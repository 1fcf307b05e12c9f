ghost use Rattle.std.specs.Prelude.{◌≡◌, [], map, codes, IfOk};
ghost use Rattle.std.specs.Str.Lines.{lines};
ghost use Rattle.toml.specs.View.{table_view};
ghost use Rattle.scx_load_files.specs.declared.fault.Cause.TheVariants.{Event};
ghost use Rattle.scx_load_files.specs.Faults.{Gives, refusal};
ghost use Rattle.scx_load_files.specs.Unknown.{words};
ghost use Rattle.scx_load_replay.specs.Lines.{line_behind, text_behind};
ghost use Rattle.scx_load_replay.specs.Kept.{progress_of};
ghost use Rattle.scx_load_replay.specs.Reading.{at_line, lines_in, file_keys, task_keys, replay_by, replay_of, replay_file, known_file_keys, replay_with, has_key_events, has_events};

use crate::lines::{Line, line_in};
use crate::progress::Progress;
use crate::replay::Replay;
use scx_isa_semantics::Rules;
use scx_load_files::{Cause, EventFault, LoadError, Section, Unknown, read_document, refused};
use scx_load_workloads::{Workload, read_known_keys_by};
use std::alloc::{AllocError, Global};
use toml::Table;

/// Reads a file of events for a policy by plain rules, as `read_replay_by` does.
pub fn read_replay(alloc: Global, text: &str) -> Result<Replay, LoadError>
    ensures { Gives (λ replay. replay) result (replay_of text.now) }
{
    read_replay_by(alloc, Rules::Plain, text)
}

/// Reads a file of events for a policy by those rules, or names its first fault.
///
/// Unknown keys are faults before all others, the least path by bytes first. Then the order is `cpus`, `ms`,
/// `seed`, the groups and the tasks, as in a workload, and `events`, line by line.
pub fn read_replay_by(alloc: Global, rules: Rules, text: &str) -> Result<Replay, LoadError>
    ensures { Gives (λ replay. replay) result (replay_by rules text.now) }
{
    let table = read_document(alloc, text)?;
    let replay = read_table(alloc, rules, Section::whole(&table));
    drop(table);
    replay
}

/// True if a text is meant as a file of events, and not as a workload: its top table has a key `events`. A text
/// that is no TOML document isn't.
///
/// # Errors
///
/// Memory runs out.
#[tactic(auto, using(crate::proofs::Meaning::no_document, crate::proofs::Meaning::document_is))]
pub fn is_events(alloc: Global, text: &str) -> Result<bool, AllocError>
    ensures { IfOk result (λ found. found ≡ has_events text.now) }
{
    match read_document(alloc, text) {
        Ok(table) => {
            let found = has_key_events(&table);
            drop(table);
            Ok(found)
        }
        Err(LoadError::NoMemory) => Err(AllocError),
        Err(_) => Ok(false),
    }
}

#[tactic(auto, using(crate::proofs::Meaning::some_in_view))]
fn has_key_events(table: &Table) -> bool
    ensures { result ≡ has_key_events (table_view table.now) }
{
    Section::whole(table).value("events").is_some()
}

fn read_table(alloc: Global, rules: Rules, file: Section<'_>) -> Result<Replay, LoadError>
    requires { file.path.now ≡ [] }
    ensures { Gives (λ replay. replay) result
        (replay_file rules (table_view file.entry.table.now)) }
{
    check_keys(alloc, rules, file)?;
    let workload = read_known_keys_by(alloc, rules, file)?;
    match file.text(alloc, "events") {
        Ok(text) => read_events(alloc, rules, workload, text),
        Err(error) => {
            drop(workload);
            Err(error)
        }
    }
}

/// The keys that a file may have.
fn file_keys(rules: Rules) -> &'static [&'static str]
    ensures { words result.now ≡ file_keys rules }
{
    match rules {
        Rules::Plain => &["cpus", "ms", "group", "task", "events"],
        Rules::Linux => &["cpus", "ms", "seed", "group", "task", "events"],
    }
}

/// The keys that a task may have.
fn task_keys(rules: Rules) -> &'static [&'static str]
    ensures { words result.now ≡ task_keys rules }
{
    match rules {
        Rules::Plain => &["name", "group"],
        Rules::Linux => &["name", "group", "weight", "cpus"],
    }
}

/// Refuses the unknown key of the least path.
fn check_keys(alloc: Global, rules: Rules, file: Section<'_>) -> Result<(), LoadError>
    requires { file.path.now ≡ [] }
    ensures { Gives (λ t. t) result (known_file_keys rules (table_view file.entry.table.now)) }
{
    let unknown = Unknown::none()
        .in_section(alloc, file, file_keys(rules))?
        .below_each(
            alloc,
            file,
            "group",
            &["name", "weight", "parent", "cpu_max"],
        )?
        .below_each(alloc, file, "task", task_keys(rules))?;
    unknown.refuse()
}

/// The file of events of that workload, with the lines of a text.
fn read_events(
    alloc: Global,
    rules: Rules,
    workload: Workload,
    text: &str,
) -> Result<Replay, LoadError>
    ensures { Gives (λ replay. replay) result (replay_with rules workload text.now) }
{
    workload.is_whole();
    match read_lines(alloc, rules, &workload, text) {
        Ok(Progress { lines, .. }) => Ok(Replay { workload, lines }),
        Err(error) => {
            drop(workload);
            Err(error)
        }
    }
}

fn lines_of<'a>(alloc: Global, text: &'a str) -> Result<Vec<&'a str>, AllocError>
    ensures { IfOk result (λ found. map (λ l. l.now) found.items ≡ lines text.now) }
{
    text.lines().collect(alloc)
}

/// Reads the lines of a text, one after another.
fn read_lines(
    alloc: Global,
    rules: Rules,
    workload: &Workload,
    text: &str,
) -> Result<Progress, LoadError>
    ensures { Gives (λ progress. progress_of progress) result
        (lines_in rules workload.now text.now) }
{
    let texts = lines_of(alloc, text)?;
    let mut progress = Progress::none(alloc, workload)?;
    for index in 0..texts.len() {
        match read_line(
            alloc,
            rules,
            workload,
            &mut progress,
            index + 1,
            texts[index],
        ) {
            Ok(()) => {}
            Err(error) => return Err(error),
        }
    }
    Ok(progress)
}

/// Reads the line of that number, from 1, after others; an empty one says nothing.
fn read_line(
    alloc: Global,
    rules: Rules,
    workload: &Workload,
    progress: &mut Progress,
    number: usize,
    text: &str,
) -> Result<(), LoadError>
    ensures { Gives (λ _. progress_of progress.new) result
        (at_line number (text_behind rules workload.now (progress_of progress.old) text.now)) }
{
    if text.is_empty() {
        return Ok(());
    }
    match line_in(rules, workload, text) {
        Ok(line) => push_line(alloc, progress, number, line),
        Err(fault) => refused_at_line(alloc, fault, number),
    }
}

fn push_line(
    alloc: Global,
    progress: &mut Progress,
    number: usize,
    line: Line,
) -> Result<(), LoadError>
    ensures { Gives (λ _. progress_of progress.new) result
        (at_line number (line_behind (progress_of progress.old) line)) }
{
    match progress.fault(line) {
        Some(fault) => refused_at_line(alloc, fault, number),
        None => Ok(progress.push(line)?),
    }
}

fn refused_at_line<T: Drop>(alloc: Global, fault: EventFault, line: usize) -> Result<T, LoadError>
    ensures { Gives (λ t. t) result (refusal (codes "events") (Event fault line)) }
{
    refused(alloc, "", "events", Cause::Event { fault, line })
}
