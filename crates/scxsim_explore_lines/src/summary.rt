ghost use Rattle.std.specs.Prelude.{◌≡◌, ◌++◌, IfOk, OnOk, Some, flat_map, option_map};
ghost use Rattle.std.specs.Io.KnownBytes.{Appends};
ghost use Rattle.scxsim_output.specs.Output.{Counts};
ghost use Rattle.scxsim_trace.specs.Lines.{names_of};
ghost use Rattle.scxsim_explore_lines.specs.Summary.{alike_line, answer_line, answer_lines, cause_end, depth_lines, depth_unit, depths_of, kept_line, level_line, memory_line, misfit_end, misfit_line, nones_of, run_line, search_text, start_line, start_lines, summary_text, task_start_lines, tried_words};

use crate::found::{write_length, write_most};
use crate::nones::write_nones;
use crate::pieces::{write_number, write_text};
use crate::told::Told;
use scx_explore::{Bounds, Level, Mode, Sort, Starts};
use scx_explore_audit::Moves;
use scx_isa::Callback;
use scx_load_workloads::Workload;
use scxsim_output::{Failed, Out, write_named};

/// The depths that a search reached.
#[derive(Clone, Copy)]
pub struct Reached<'a> {
    /// True if tasks of a group may change places in a state.
    pub are_tasks_alike: bool,
    /// The depths before the last one that are told.
    pub levels: &'a [Option<Level>],
    /// The last depth of which all lists were tried.
    pub last: Option<Level>,
    /// The depth whose states don't fit, if one is too large.
    pub misfit: Option<u64>,
}

/// The sorts of findings that are in none of the lists.
#[derive(Clone, Copy)]
pub struct Unfound<'a> {
    /// The mode and the wakes and sleeps of the lists.
    pub bounds: Bounds,
    /// The most events or milliseconds of a list; none for lists of any length.
    pub reach: Option<usize>,
    /// The sorts, without overtaken tasks.
    pub sorts: &'a [Sort],
    /// True if each fault that the lists are asked about is one of the sorts or was found.
    pub has_all_faults: bool,
    /// True if overtaken tasks are one of them.
    pub is_overtaken: bool,
    /// The moves that an audit of the states tried, if there was one.
    pub again: Option<Moves>,
}

/// Writes the first lines: what was found in each of the lists, what is in none, and an empty line.
pub fn write_summary<W: Out>(
    about: &Workload,
    found: &[Told],
    unfound: Unfound<'_>,
    out: &mut W,
) -> Result<(), Failed>
    ensures ok { OnOk result (Appends (W.contents out.old) (W.contents out.new)
        (summary_text (names_of about.now) found.now (nones_of unfound.entry))) }
    ensures failures { Counts result (W.failure_count out.old) (W.failure_count out.new) }
{
    write_answers(about, unfound.bounds.mode, found, out)?;
    write_nones(found, unfound, out)?;
    write_text(out, "\n")
}

/// Writes a line for each list.
fn write_answers<W: Out>(
    about: &Workload,
    mode: Mode,
    found: &[Told],
    out: &mut W,
) -> Result<(), Failed>
    ensures ok { OnOk result (Appends (W.contents out.old) (W.contents out.new)
        (answer_lines (names_of about.now) mode found.now)) }
    ensures failures { Counts result (W.failure_count out.old) (W.failure_count out.new) }
{
    for told in found {
        write_answer(about, mode, told, out)?;
    }
    Ok(())
}

/// Writes a line `found: idle cpu 1 while c waits after 5 events`, for a fault or an exit with its cause.
fn write_answer<W: Out>(
    about: &Workload,
    mode: Mode,
    told: &Told,
    out: &mut W,
) -> Result<(), Failed>
    ensures ok { OnOk result (Appends (W.contents out.old) (W.contents out.new)
        (answer_line (names_of about.now) mode told.now)) }
    ensures failures { Counts result (W.failure_count out.old) (W.failure_count out.new) }
{
    write_text(out, "found: ")?;
    write_length(about, told.finding(), mode, told.events(), out)?;
    write_cause_end(told.cause(), out)
}

/// Writes the end of a list's line: the words of the cause, if they are told.
fn write_cause_end<W: Out>(cause: Option<&str>, out: &mut W) -> Result<(), Failed>
    ensures ok { OnOk result (Appends (W.contents out.old) (W.contents out.new)
        (cause_end (option_map (λ text. text.now) cause.entry))) }
    ensures failures { Counts result (W.failure_count out.old) (W.failure_count out.new) }
{
    match cause {
        Some(words) => write_named(out, ": ", words, "\n"),
        None => write_text(out, "\n"),
    }
}

/// Writes the last lines: instructions before any event, and how far the search came.
pub fn write_search<W: Out>(
    starts: Starts,
    mode: Mode,
    reached: Reached<'_>,
    out: &mut W,
) -> Result<(), Failed>
    ensures ok { OnOk result (Appends (W.contents out.old) (W.contents out.new)
        (search_text starts mode (depths_of reached.entry))) }
    ensures failures { Counts result (W.failure_count out.old) (W.failure_count out.new) }
{
    write_starts(starts, out)?;
    write_reached(mode, reached, out)
}

/// Writes the most instructions of the callbacks that ran before any event.
fn write_starts<W: Out>(starts: Starts, out: &mut W) -> Result<(), Failed>
    ensures ok { OnOk result
        (Appends (W.contents out.old) (W.contents out.new) (start_lines starts)) }
    ensures failures { Counts result (W.failure_count out.old) (W.failure_count out.new) }
{
    write_start(Callback::Init, starts.init, out)?;
    write_task_starts(starts, out)?;
    write_start(Callback::UpdateIdle, starts.update_idle, out)
}

/// Writes them of the callbacks that run for each task.
fn write_task_starts<W: Out>(starts: Starts, out: &mut W) -> Result<(), Failed>
    ensures ok { OnOk result
        (Appends (W.contents out.old) (W.contents out.new) (task_start_lines starts)) }
    ensures failures { Counts result (W.failure_count out.old) (W.failure_count out.new) }
{
    write_start(Callback::Enable, starts.enable, out)?;
    write_start(Callback::SetWeight, starts.set_weight, out)
}

/// Writes the most instructions of a callback before any event, if it ran.
fn write_start<W: Out>(
    callback: Callback,
    instructions: Option<u64>,
    out: &mut W,
) -> Result<(), Failed>
    ensures ok { OnOk result (Appends (W.contents out.old) (W.contents out.new)
        (start_line callback instructions)) }
    ensures failures { Counts result (W.failure_count out.old) (W.failure_count out.new) }
{
    match instructions {
        Some(instructions) => write_run(callback, instructions, out),
        None => write_text(out, ""),
    }
}

fn write_run<W: Out>(callback: Callback, instructions: u64, out: &mut W) -> Result<(), Failed>
    ensures ok { OnOk result (Appends (W.contents out.old) (W.contents out.new)
        (run_line callback instructions)) }
    ensures failures { Counts result (W.failure_count out.old) (W.failure_count out.new) }
{
    write_most(callback, instructions, out)?;
    write_text(out, " before any event\n")
}

/// Writes how many states and events each depth has.
fn write_reached<W: Out>(mode: Mode, reached: Reached<'_>, out: &mut W) -> Result<(), Failed>
    ensures ok { OnOk result (Appends (W.contents out.old) (W.contents out.new)
        (depth_lines mode (depths_of reached.entry))) }
    ensures failures { Counts result (W.failure_count out.old) (W.failure_count out.new) }
{
    write_text(out, alike_text(reached.are_tasks_alike))?;
    write_depths(mode, reached.levels, reached.last, out)?;
    write_misfit(mode, reached.misfit, out)
}

/// The line on tasks that may change places, if they may.
fn alike_text(are_alike: bool) -> &'static str
    ensures { result.now ≡ alike_line are_alike }
{
    if are_alike {
        "tasks of a group count as alike\n"
    } else {
        ""
    }
}

/// Writes the lines of all depths that are told, the last one at the end.
fn write_depths<W: Out>(
    mode: Mode,
    levels: &[Option<Level>],
    last: Option<Level>,
    out: &mut W,
) -> Result<(), Failed>
    ensures ok { OnOk result (Appends (W.contents out.old) (W.contents out.new)
        (flat_map (kept_line mode) levels.now ++ kept_line mode last)) }
    ensures failures { Counts result (W.failure_count out.old) (W.failure_count out.new) }
{
    write_levels(mode, levels, out)?;
    write_kept(mode, last, out)
}

fn write_levels<W: Out>(mode: Mode, levels: &[Option<Level>], out: &mut W) -> Result<(), Failed>
    ensures ok { OnOk result (Appends (W.contents out.old) (W.contents out.new)
        (flat_map (kept_line mode) levels.now)) }
    ensures failures { Counts result (W.failure_count out.old) (W.failure_count out.new) }
{
    for level in levels {
        write_kept(mode, *level, out)?;
    }
    Ok(())
}

/// Writes the line of a depth, if it is told.
fn write_kept<W: Out>(mode: Mode, level: Option<Level>, out: &mut W) -> Result<(), Failed>
    ensures ok { OnOk result (Appends (W.contents out.old) (W.contents out.new)
        (kept_line mode level)) }
    ensures failures { Counts result (W.failure_count out.old) (W.failure_count out.new) }
{
    match level {
        Some(level) => write_level(mode, level, out),
        None => write_text(out, ""),
    }
}

/// Writes how many states were met and events tried up to a depth.
fn write_level<W: Out>(mode: Mode, level: Level, out: &mut W) -> Result<(), Failed>
    ensures ok { OnOk result (Appends (W.contents out.old) (W.contents out.new)
        (level_line mode level)) }
    ensures failures { Counts result (W.failure_count out.old) (W.failure_count out.new) }
{
    write_number(out, "depth ", level.depth as u64, depth_unit(mode))?;
    write_number(out, " states ", level.states as u64, "")?;
    write_tried(level.events, level.again, out)
}

/// Writes the number of events tried and, if states had no room, the number of visits to such states.
fn write_tried<W: Out>(events: u64, again: Option<u64>, out: &mut W) -> Result<(), Failed>
    ensures ok { OnOk result (Appends (W.contents out.old) (W.contents out.new)
        (tried_words events again)) }
    ensures failures { Counts result (W.failure_count out.old) (W.failure_count out.new) }
{
    match again {
        Some(again) => write_tried_again(events, again, out),
        None => write_number(out, " events ", events, "\n"),
    }
}

fn write_tried_again<W: Out>(events: u64, again: u64, out: &mut W) -> Result<(), Failed>
    ensures ok { OnOk result (Appends (W.contents out.old) (W.contents out.new)
        (tried_words events (Some again))) }
    ensures failures { Counts result (W.failure_count out.old) (W.failure_count out.new) }
{
    write_number(out, " events ", events, "")?;
    write_number(out, " again ", again, "\n")
}

/// The unit of a depth, after its number.
pub(crate) fn depth_unit(mode: Mode) -> &'static str
    ensures { result.now ≡ depth_unit mode }
{
    match mode {
        Mode::Events => "",
        Mode::Milliseconds | Mode::Workloads => " ms",
    }
}

/// Writes which depth doesn't fit, if one is too large.
fn write_misfit<W: Out>(mode: Mode, depth: Option<u64>, out: &mut W) -> Result<(), Failed>
    ensures ok { OnOk result (Appends (W.contents out.old) (W.contents out.new)
        (misfit_line mode depth)) }
    ensures failures { Counts result (W.failure_count out.old) (W.failure_count out.new) }
{
    match depth {
        Some(depth) => write_number(out, "depth ", depth, misfit_end(mode)),
        None => write_text(out, ""),
    }
}

/// The end of the line of a depth that doesn't fit.
fn misfit_end(mode: Mode) -> &'static str
    ensures { result.now ≡ misfit_end mode }
{
    match mode {
        Mode::Events => " does not fit\n",
        Mode::Milliseconds | Mode::Workloads => " ms does not fit\n",
    }
}

/// Writes that memory ran out, unless all is whole. The answer is the flag.
pub fn write_memory<W: Out>(is_whole: bool, out: &mut W) -> Result<bool, Failed>
    ensures ok { IfOk result (λ whole.
        Appends (W.contents out.old) (W.contents out.new) (memory_line whole)) }
    ensures whole { IfOk result (λ whole. whole ≡ is_whole) }
    ensures failures { Counts result (W.failure_count out.old) (W.failure_count out.new) }
{
    write_text(out, memory_text(is_whole))?;
    Ok(is_whole)
}

/// The last line, if memory ran out.
fn memory_text(is_whole: bool) -> &'static str
    ensures { result.now ≡ memory_line is_whole }
{
    if is_whole {
        ""
    } else {
        "incomplete: out of memory\n"
    }
}
