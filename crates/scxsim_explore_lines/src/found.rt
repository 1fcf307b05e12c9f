ghost use Rattle.std.specs.Prelude.{◌≡◌, ◌++◌, OnOk, codes, option_map};
ghost use Rattle.std.specs.Io.KnownBytes.{Appends};
ghost use Rattle.scxsim_output.specs.Output.{Counts};
ghost use Rattle.scx_load_driver.specs.Runs.{notes_of_all, stepped_all};
ghost use Rattle.scxsim_trace.specs.Lines.{names_of, note_lines};
ghost use Rattle.scxsim_explore_lines.specs.Found.{event_line, event_lines, file_text, finding_words, found_line, head_word, idle_words, length_in, length_words, list_text, most_words, overtaken_words, own_weight_line, told_text, unit, wait_words, weight_line, workload_text};

use crate::lengths::length_in;
use crate::listed::Listed;
use crate::pieces::{write_number, write_signed, write_task, write_text};
use crate::told::Told;
use scx_explore::{Finding, Mode};
use scx_isa::Callback;
use scx_load_workloads::Workload;
use scx_sched::{Event, Sim};
use scxsim_output::{Failed, Out, write_named};
use scxsim_trace::{Names, write_run};

/// Writes what was found, a line for each event, the list's trace, and the workload file if there is one. The machine
/// is given the events.
pub fn write_told<W: Out>(
    sim: &mut Sim,
    about: &Workload,
    mode: Mode,
    told: &Told,
    out: &mut W,
) -> Result<(), Failed>
    ensures text { OnOk result (Appends (W.contents out.old) (W.contents out.new)
        (told_text (names_of about.now) sim.old mode told.now)) }
    ensures there { OnOk result (sim.new ≡ stepped_all sim.old told.now.events) }
    ensures failures { Counts result (W.failure_count out.old) (W.failure_count out.new) }
{
    write_list(sim, about, mode, told, out)?;
    write_file(told.file(), out)
}

/// Writes what was found, a line for each event, and the list's trace.
fn write_list<W: Out>(
    sim: &mut Sim,
    about: &Workload,
    mode: Mode,
    told: &Told,
    out: &mut W,
) -> Result<(), Failed>
    ensures text { OnOk result (Appends (W.contents out.old) (W.contents out.new)
        (list_text (names_of about.now) sim.old told.now.finding mode told.now.events)) }
    ensures there { OnOk result (sim.new ≡ stepped_all sim.old told.now.events) }
    ensures failures { Counts result (W.failure_count out.old) (W.failure_count out.new) }
{
    write_found(about, told.finding(), mode, told.events(), out)?;
    write_events(about, told.events(), out)?;
    write_trace(sim, about, told.events(), out)
}

/// Writes a line `found fault 2 after 4 events`, `found idle cpu 1 while c waits after 5 events` or
/// `found overtaken c by a after 7 events`, with the length of the list.
fn write_found<W: Out>(
    about: &Workload,
    finding: Finding,
    mode: Mode,
    events: &[Event],
    out: &mut W,
) -> Result<(), Failed>
    ensures ok { OnOk result (Appends (W.contents out.old) (W.contents out.new)
        (found_line (names_of about.now) finding mode (length_in mode events.now))) }
    ensures failures { Counts result (W.failure_count out.old) (W.failure_count out.new) }
{
    write_text(out, head_word(finding))?;
    write_length(about, finding, mode, events, out)?;
    write_text(out, "\n")
}

/// The words before what was found, at the head of a list.
fn head_word(finding: Finding) -> &'static str
    ensures { result.now ≡ head_word finding }
{
    match finding {
        Finding::Fault(_)
        | Finding::Stall(_)
        | Finding::Exit(_)
        | Finding::Idle { .. }
        | Finding::Overtaken(_) => "found ",
        Finding::Waits { .. } | Finding::Takes { .. } => "",
    }
}

/// Writes what was found, with the length of the list.
pub(crate) fn write_length<W: Out>(
    about: &Workload,
    finding: Finding,
    mode: Mode,
    events: &[Event],
    out: &mut W,
) -> Result<(), Failed>
    ensures ok { OnOk result (Appends (W.contents out.old) (W.contents out.new)
        (length_words (names_of about.now) finding mode (length_in mode events.now))) }
    ensures failures { Counts result (W.failure_count out.old) (W.failure_count out.new) }
{
    write_finding(about, finding, out)?;
    let length = length_in(mode, events);
    write_number(out, " after ", length as u64, unit(mode, length))
}

/// The unit of a length, after its number.
fn unit(mode: Mode, length: usize) -> &'static str
    ensures { result.now ≡ unit mode length }
{
    match mode {
        Mode::Events if length == 1 => " event",
        Mode::Events => " events",
        Mode::Milliseconds | Mode::Workloads => " ms",
    }
}

fn write_finding<W: Out>(about: &Workload, finding: Finding, out: &mut W) -> Result<(), Failed>
    ensures ok { OnOk result (Appends (W.contents out.old) (W.contents out.new)
        (finding_words (names_of about.now) finding)) }
    ensures failures { Counts result (W.failure_count out.old) (W.failure_count out.new) }
{
    match finding {
        Finding::Fault(fault) => write_number(out, "fault ", u64::from(fault.number()), ""),
        Finding::Stall(task) => write_task(about, "stall of ", task, "", out),
        Finding::Exit(code) => write_signed(out, "exit ", code),
        Finding::Idle { cpu, task } => write_idle(about, cpu, task, out),
        Finding::Overtaken(pair) => write_overtaken(about, pair.waits, pair.runs, out),
        Finding::Waits { task, ms } => write_wait(about, task, ms, out),
        Finding::Takes {
            callback,
            instructions,
        } => write_most(callback, instructions, out),
    }
}

fn write_idle<W: Out>(about: &Workload, cpu: u32, task: u16, out: &mut W) -> Result<(), Failed>
    ensures ok { OnOk result (Appends (W.contents out.old) (W.contents out.new)
        (idle_words (names_of about.now) cpu task)) }
    ensures failures { Counts result (W.failure_count out.old) (W.failure_count out.new) }
{
    write_number(out, "idle cpu ", u64::from(cpu), " while ")?;
    write_task(about, "", task, " waits", out)
}

fn write_overtaken<W: Out>(
    about: &Workload,
    waits: u16,
    runs: u16,
    out: &mut W,
) -> Result<(), Failed>
    ensures ok { OnOk result (Appends (W.contents out.old) (W.contents out.new)
        (overtaken_words (names_of about.now) waits runs)) }
    ensures failures { Counts result (W.failure_count out.old) (W.failure_count out.new) }
{
    write_task(about, "overtaken ", waits, " by ", out)?;
    write_task(about, "", runs, "", out)
}

fn write_wait<W: Out>(about: &Workload, task: u16, ms: u64, out: &mut W) -> Result<(), Failed>
    ensures ok { OnOk result (Appends (W.contents out.old) (W.contents out.new)
        (wait_words (names_of about.now) task ms)) }
    ensures failures { Counts result (W.failure_count out.old) (W.failure_count out.new) }
{
    write_number(out, "longest wait ", ms, " ms of ")?;
    write_task(about, "", task, "", out)
}

/// Writes how many instructions a callback takes.
pub(crate) fn write_most<W: Out>(
    callback: Callback,
    instructions: u64,
    out: &mut W,
) -> Result<(), Failed>
    ensures ok { OnOk result (Appends (W.contents out.old) (W.contents out.new)
        (most_words callback instructions)) }
    ensures failures { Counts result (W.failure_count out.old) (W.failure_count out.new) }
{
    write_number(out, "most instructions ", instructions, " of ")?;
    write_text(out, callback.name())
}

/// Writes a line for each event.
fn write_events<W: Out>(about: &Workload, events: &[Event], out: &mut W) -> Result<(), Failed>
    ensures ok { OnOk result (Appends (W.contents out.old) (W.contents out.new)
        (event_lines (names_of about.now) events.now)) }
    ensures failures { Counts result (W.failure_count out.old) (W.failure_count out.new) }
{
    for event in events {
        write_event(about, *event, out)?;
    }
    Ok(())
}

fn write_event<W: Out>(about: &Workload, event: Event, out: &mut W) -> Result<(), Failed>
    ensures ok { OnOk result (Appends (W.contents out.old) (W.contents out.new)
        (event_line (names_of about.now) event)) }
    ensures failures { Counts result (W.failure_count out.old) (W.failure_count out.new) }
{
    match event {
        Event::Wake(task) => write_task(about, "wake ", task, "\n", out),
        Event::Sleep(task) => write_task(about, "sleep ", task, "\n", out),
        Event::Tick(cpu) => write_number(out, "tick ", u64::from(cpu), "\n"),
        Event::Clock => write_text(out, "clock\n"),
        Event::SetWeight(group, weight) => write_weight(about, group, weight, out),
        Event::SetTaskWeight(task, weight) => write_own_weight(about, task, weight, out),
    }
}

fn write_weight<W: Out>(
    about: &Workload,
    group: u32,
    weight: u32,
    out: &mut W,
) -> Result<(), Failed>
    ensures ok { OnOk result (Appends (W.contents out.old) (W.contents out.new)
        (weight_line (names_of about.now) group weight)) }
    ensures failures { Counts result (W.failure_count out.old) (W.failure_count out.new) }
{
    write_named(out, "weight ", Names::group(about, group), " ")?;
    write_number(out, "", u64::from(weight), "\n")
}

fn write_own_weight<W: Out>(
    about: &Workload,
    task: u16,
    weight: u32,
    out: &mut W,
) -> Result<(), Failed>
    ensures ok { OnOk result (Appends (W.contents out.old) (W.contents out.new)
        (own_weight_line (names_of about.now) task weight)) }
    ensures failures { Counts result (W.failure_count out.old) (W.failure_count out.new) }
{
    write_task(about, "task_weight ", task, " ", out)?;
    write_number(out, "", u64::from(weight), "\n")
}

/// Writes the trace of a list after a line that says so.
fn write_trace<W: Out>(
    sim: &mut Sim,
    about: &Workload,
    events: &[Event],
    out: &mut W,
) -> Result<(), Failed>
    ensures text { OnOk result (Appends (W.contents out.old) (W.contents out.new)
        (codes "trace\n" ++ note_lines (names_of about.now) (notes_of_all sim.old events.now))) }
    ensures there { OnOk result (sim.new ≡ stepped_all sim.old events.now) }
    ensures failures { Counts result (W.failure_count out.old) (W.failure_count out.new) }
{
    write_text(out, "trace\n")?;
    write_run(sim, &mut Listed::new(events), about, out)
}

/// Writes the workload file, if there is one, and an empty line.
fn write_file<W: Out>(file: Option<&str>, out: &mut W) -> Result<(), Failed>
    ensures ok { OnOk result (Appends (W.contents out.old) (W.contents out.new)
        (file_text (option_map (λ text. text.now) file.entry))) }
    ensures failures { Counts result (W.failure_count out.old) (W.failure_count out.new) }
{
    match file {
        Some(text) => write_workload(text, out),
        None => write_text(out, "\n"),
    }
}

fn write_workload<W: Out>(text: &str, out: &mut W) -> Result<(), Failed>
    ensures ok { OnOk result (Appends (W.contents out.old) (W.contents out.new)
        (workload_text text.now)) }
    ensures failures { Counts result (W.failure_count out.old) (W.failure_count out.new) }
{
    write_text(out, "workload\n")?;
    write_text(out, text)?;
    write_text(out, "\n")
}
