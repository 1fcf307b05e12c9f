use scx_load_workloads::Workload;
use scx_sched::{Event, Fault, Note, Sink};
use scxsim_output::{Counted, Text};
use scxsim_trace::{Names, Trace};
use scxsim_views::fault_words;
use scxsim_why_lines::Length;
use std::alloc::Global;

/// The most tasks that a short page names.
const NAMED: usize = 10;

/// An ejection's task and CPU, as far as it has them, and the last notes of both.
#[derive(Clone, Copy)]
pub(crate) struct Ejected<'a> {
    pub task: Option<u16>,
    pub cpu: Option<u32>,
    pub notes: &'a [Note],
}

/// Writes that a policy was ejected because that task had waited too long.
pub(crate) fn write_stall(workload: &Workload, task: u16, page: &mut Text) {
    page.push(workload.task(task));
    page.push(" had waited too long (stall)\n");
}

/// Writes a fault whose place isn't known.
pub(crate) fn write_unplaced(workload: &Workload, fault: Fault, event: Event, page: &mut Text) {
    page.push(", ");
    page.push(fault_words(fault));
    page.push(", ");
    write_event(workload, event, page);
    page.push("\n");
}

/// Writes the end of a line on an exit whose place isn't known.
pub(crate) fn write_unplaced_exit(workload: &Workload, event: Event, page: &mut Text) {
    page.push(", ");
    write_event(workload, event, page);
    page.push("\n");
}

/// Writes the event at which a policy was ejected.
pub(crate) fn write_event(workload: &Workload, event: Event, page: &mut Text) {
    match event {
        Event::Wake(task) => {
            page.push("as ");
            page.push(workload.task(task));
            page.push(" woke");
        }
        Event::Sleep(task) => {
            page.push("as ");
            page.push(workload.task(task));
            page.push(" went to sleep");
        }
        Event::Tick(cpu) => page.number("at a tick of CPU ", u64::from(cpu)),
        Event::Clock => page.push("as the clock grew"),
        Event::SetWeight(_, _) => page.push("as a weight changed"),
        Event::SetTaskWeight(task, _) => {
            page.push("as the weight of ");
            page.push(workload.task(task));
            page.push(" changed");
        }
    }
}

/// Writes the tasks that never ran, and those that began to run and ran for 0 ms.
pub(crate) fn write_never(
    workload: &Workload,
    never_ran: &[u16],
    ran_briefly: &[u16],
    length: Length,
    page: &mut Text,
) {
    write_names(workload, "never ran: ", never_ran, length, page);
    if !never_ran.is_empty() && !ran_briefly.is_empty() {
        page.push("; ");
    }
    write_names(workload, "ran for 0 ms: ", ran_briefly, length, page);
    if never_ran.is_empty() && ran_briefly.is_empty() {
        page.push("each task ran");
    }
    page.push("\n");
}

/// Writes the names of some tasks after these words, or nothing if there are none. A short page has the first ones, and
/// the number of the others.
fn write_names(
    workload: &Workload,
    words: &'static str,
    tasks: &[u16],
    length: Length,
    page: &mut Text,
) {
    let named = match length {
        Length::Short => tasks.len().min(NAMED),
        Length::Whole => tasks.len(),
    };
    let mut before = words;
    for task in tasks.iter().take(named) {
        page.push(before);
        page.push(workload.task(*task));
        before = ", ";
    }
    if named < tasks.len() {
        page.number(" and ", tasks.len().saturating_sub(named) as u64);
        page.push(" more");
    }
}

/// Writes the last lines of the trace up to an ejection, of its task and its CPU.
pub(crate) fn write_last_lines(
    alloc: Global,
    workload: &Workload,
    of: Ejected<'_>,
    page: &mut Text,
) {
    page.push("\nthe last lines of the trace up to there");
    if let Some(task) = of.task {
        page.push(", of ");
        page.push(workload.task(task));
    }
    if let Some(cpu) = of.cpu {
        page.number(", of CPU ", u64::from(cpu));
    }
    page.push("\n");
    write_lines(alloc, workload, of.notes, page);
}

/// Writes the lines that a trace has for these notes.
fn write_lines(alloc: Global, workload: &Workload, notes: &[Note], page: &mut Text) {
    let mut bytes = Vec::new(alloc);
    let mut out = Counted::new(&mut bytes);
    let mut trace = Trace::new(workload, &mut out);
    for note in notes {
        trace.take(*note);
    }
    if trace.failed() {
        page.cut();
    } else if let Ok(text) = std::str::from_utf8(bytes.as_slice()) {
        page.push(text);
    }
}
