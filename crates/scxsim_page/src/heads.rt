use scx_load_replay::{Line, Replay, Scenario};
use scx_load_workloads::{Change, MAX_CPUS, Weighed, Workload};
use scx_sched::Event;
use scxsim_commands::Window;
use scxsim_output::Text;
use scxsim_trace::Names;
use scxsim_views::{bound_mask, has_cpu};
use std::alloc::{AllocError, Global};

/// The paths of the two files, of which a page has the names.
#[derive(Clone, Copy)]
pub struct Paths<'a> {
    pub policy: &'a str,
    pub workload: &'a str,
}

/// The most characters of a file's name in a page.
const MOST: usize = 40;

/// The names of the files, and the contents of the workload or of the file of events, as JSON, and up to what length
/// stretches are drawn together, if they are. No name of a task or a group has a character that would have to be quoted.
pub(crate) fn head(
    alloc: Global,
    paths: Paths<'_>,
    scenario: &Scenario,
    window: Window,
    width: Option<u64>,
) -> Result<String, AllocError> {
    let mut text = Text::new(alloc);
    push_head(&mut text, paths, scenario, window, width);
    text.finish()
}

fn push_head(
    text: &mut Text,
    paths: Paths<'_>,
    scenario: &Scenario,
    window: Window,
    width: Option<u64>,
) {
    let contents = scenario.workload();
    text.push("<script id=\"head\" type=\"application/json\">{\"policy\":\"");
    push_name(text, paths.policy);
    text.push("\",\"workload\":\"");
    push_name(text, paths.workload);
    push_lengths(text, contents, window);
    if let Some(width) = width {
        text.number(",\"together\":", width);
    }
    text.push(",\"groups\":[");
    push_groups(text, contents);
    text.push("],\"tasks\":[");
    push_tasks(text, contents);
    text.push("],\"changes\":[");
    push_changes(text, scenario, window);
    text.push("]}</script>\n<script id=\"stretches\" type=\"text/plain\">\n");
}

/// The number of CPUs, the length of the run, and the part of it that is shown.
fn push_lengths(text: &mut Text, contents: &Workload, window: Window) {
    text.number("\",\"processors\":", u64::from(contents.cpus()));
    text.number(",\"ms\":", u64::from(contents.ms()));
    text.number(",\"from\":", window.from);
    text.number(",\"to\":", window.to);
}

/// The name of a file: the last part of its path, without `.toml`.
fn push_name(text: &mut Text, path: &str) {
    let base = match path.rsplit_once('/') {
        Some((_, base)) => base,
        None => path,
    };
    let name = base.strip_suffix(".toml").unwrap_or(base);
    for letter in name.chars().take(MOST) {
        text.show("", &plain(letter));
    }
}

/// A character that needn't be quoted in JSON or in a page.
fn plain(letter: char) -> char {
    match letter {
        '"' | '\\' | '<' | '>' | '&' => '?',
        letter if letter.is_ascii_graphic() || letter == ' ' => letter,
        _ => '?',
    }
}

fn push_comma(text: &mut Text, number: usize) {
    if number > 0 {
        text.push(",");
    }
}

fn push_groups(text: &mut Text, contents: &Workload) {
    for (number, group) in contents.groups().iter().enumerate() {
        push_comma(text, number);
        text.push("{\"name\":\"");
        text.push(group_name(contents, number));
        text.number("\",\"weight\":", u64::from(group.weight));
        match group.parent {
            Some(parent) => text.number(",\"parent\":", u64::from(parent)),
            None => text.push(",\"parent\":-1"),
        }
        if let Some(quota) = group.quota_ms {
            text.number(",\"quota\":", u64::from(quota));
            text.number(",\"period\":", u64::from(group.period_ms));
        }
        text.push("}");
    }
}

fn push_tasks(text: &mut Text, contents: &Workload) {
    for (number, group) in contents.tasks().iter().enumerate() {
        push_comma(text, number);
        text.push("{\"name\":\"");
        text.push(task_name(contents, number));
        text.number("\",\"group\":", u64::from(*group));
        if let Some(mask) = mask_of(contents, number) {
            push_cpus(text, mask);
        }
        text.push("}");
    }
}

/// The CPUs on which a task may run, if it may not run on all.
fn mask_of(contents: &Workload, number: usize) -> Option<u64> {
    bound_mask(contents, u16::try_from(number).ok()?)
}

fn push_cpus(text: &mut Text, mask: u64) {
    let mut before = ",\"cpus\":[";
    for cpu in 0..MAX_CPUS {
        if has_cpu(mask, cpu) {
            text.number(before, u64::from(cpu));
            before = ",";
        }
    }
    text.push("]");
}

fn group_name(contents: &Workload, number: usize) -> &str {
    match u32::try_from(number) {
        Ok(group) => contents.group(group),
        Err(_) => "",
    }
}

fn task_name(contents: &Workload, number: usize) -> &str {
    match u16::try_from(number) {
        Ok(task) => contents.task(task),
        Err(_) => "",
    }
}

/// A group has another weight from a millisecond on.
#[derive(Clone, Copy)]
struct Reweighed {
    at: u32,
    group: u32,
    weight: u32,
}

/// The changes of groups' weights that come before the end of what is shown.
fn push_changes(text: &mut Text, scenario: &Scenario, window: Window) {
    match scenario {
        Scenario::Workload(workload) => push_changes_of(text, workload, window),
        Scenario::Events(replay) => push_changes_in(text, replay, window),
    }
}

fn push_changes_of(text: &mut Text, workload: &Workload, window: Window) {
    let mut number = 0usize;
    for change in workload.changes() {
        if let Some(reweighed) = reweighed_by(*change) {
            number = push_change(text, number, reweighed, window);
        }
    }
}

fn push_changes_in(text: &mut Text, replay: &Replay, window: Window) {
    let mut number = 0usize;
    for line in replay.lines() {
        if let Some(reweighed) = reweighed_in(*line) {
            number = push_change(text, number, reweighed, window);
        }
    }
}

/// Adds a change to that many others, if it comes before the end of what is shown. Returns their number then.
fn push_change(text: &mut Text, number: usize, change: Reweighed, window: Window) -> usize {
    if u64::from(change.at) >= window.to {
        return number;
    }
    push_comma(text, number);
    text.number("[", u64::from(change.at));
    text.number(",", u64::from(change.group));
    text.number(",", u64::from(change.weight));
    text.push("]");
    number.saturating_add(1)
}

/// The change of a group's weight, if it is one.
fn reweighed_by(change: Change) -> Option<Reweighed> {
    match change.weighed {
        Weighed::Group(group) => Some(Reweighed {
            at: change.at,
            group,
            weight: change.weight,
        }),
        Weighed::Task(_) => None,
    }
}

/// The change of a group's weight that a line of a file of events says, if it says one.
fn reweighed_in(line: Line) -> Option<Reweighed> {
    match line.event {
        Event::SetWeight(group, weight) => Some(Reweighed {
            at: line.at,
            group,
            weight,
        }),
        Event::Wake(_)
        | Event::Tick(_)
        | Event::Sleep(_)
        | Event::Clock
        | Event::SetTaskWeight(_, _) => None,
    }
}
