use crate::tracks::{CPUS, EJECTIONS, PARKED, QUEUES, TASKS, WAITS, WAKES, WEIGHTS};
use arrayvec::ArrayString;
use scx_load_workloads::Workload;
use scxsim_output::Text;
use scxsim_trace::Names;
use std::alloc::{AllocError, Global};
use std::fmt::Write;

/// The text of a document in the Chrome trace format before its first object, and after the last one.
pub(crate) const HEAD: &str = "{\"displayTimeUnit\":\"ms\",\"traceEvents\":[\n";

pub(crate) const END: &str = "\n]}\n";

/// The titles of all tracks, which are the first objects of a document, and the first weights of groups, at the moment
/// with which it begins.
pub(crate) fn titles(
    alloc: Global,
    title: &str,
    workload: &Workload,
    from: u64,
) -> Result<String, AllocError> {
    let mut text = Text::new(alloc);
    push_cpus(&mut text, title, workload.cpus());
    push_tasks(&mut text);
    push_group(&mut text, QUEUES, 3, "queues");
    if has_quotas(workload) {
        push_group(&mut text, PARKED, 2, "parked");
        push_names(&mut text, PARKED, workload);
    }
    push_group(&mut text, WAITS, 1, "waits");
    push_names(&mut text, WAITS, workload);
    if has_weights(workload) {
        push_group(&mut text, WEIGHTS, 5, "weights");
        push_weights(&mut text, workload, from);
    }
    text.finish()
}

/// True if the weights of groups are shown: if there are several.
pub(crate) fn has_weights(workload: &Workload) -> bool {
    workload.groups().len() > 1
}

/// Appends the weight of each group at the beginning, as of that moment.
fn push_weights(text: &mut Text, workload: &Workload, from: u64) {
    let mut number = 0u32;
    for group in workload.groups() {
        text.number(",\n{\"ph\":\"C\",\"pid\":", u64::from(WEIGHTS));
        text.number(",\"ts\":", from.saturating_mul(1000));
        text.push(",\"name\":\"");
        text.push(workload.group(number));
        text.number("\",\"args\":{\"weight\":", u64::from(group.weight));
        text.push("}}");
        number = number.saturating_add(1);
    }
}

/// True if a group of the workload has a quota.
fn has_quotas(workload: &Workload) -> bool {
    workload
        .groups()
        .iter()
        .any(|group| group.quota_ms.is_some())
}

/// Appends a track for each CPU. The title of the timeline is in that of their group.
fn push_cpus(text: &mut Text, title: &str, cpus: u32) {
    push_head(text, "process_name", CPUS, 0);
    text.push("\"name\":\"CPUs: ");
    for letter in title.chars() {
        text.character(plain(letter));
    }
    text.push("\"}}");
    push_place(text, "process_sort_index", CPUS, 0, 0);
    for cpu in 0..cpus {
        push_title(text, "thread_name", CPUS, cpu, cpu_name(cpu).as_str());
        push_place(text, "thread_sort_index", CPUS, cpu, cpu);
    }
}

/// A character that needn't be quoted in JSON.
fn plain(letter: char) -> char {
    match letter {
        '"' | '\\' => '?',
        letter if letter.is_ascii_graphic() || letter == ' ' => letter,
        _ => '?',
    }
}

fn cpu_name(cpu: u32) -> ArrayString<16> {
    let mut name = ArrayString::new();
    let _ = write!(name, "CPU {cpu}");
    name
}

fn push_tasks(text: &mut Text) {
    push_group(text, TASKS, 4, "tasks");
    push_title(text, "thread_name", TASKS, WAKES, "wakes");
    push_title(text, "thread_name", TASKS, EJECTIONS, "ejections");
}

/// Appends a track for each task to that group, in the workload's order.
fn push_names(text: &mut Text, pid: u32, workload: &Workload) {
    let mut task = 0u16;
    for _group in workload.tasks() {
        let track = u32::from(task);
        push_title(text, "thread_name", pid, track, workload.task(task));
        push_place(text, "thread_sort_index", pid, track, track);
        task = task.saturating_add(1);
    }
}

/// Appends the title of a group of tracks, and its place among the others.
fn push_group(text: &mut Text, pid: u32, place: u32, title: &str) {
    push_title(text, "process_name", pid, 0, title);
    push_place(text, "process_sort_index", pid, 0, place);
}

/// Appends the place of a group of tracks among the others, or of a track in its group, after a title.
fn push_place(text: &mut Text, what: &str, pid: u32, tid: u32, place: u32) {
    text.push(",\n");
    push_head(text, what, pid, tid);
    text.number("\"sort_index\":", u64::from(place));
    text.push("}}");
}

/// Appends that a group of tracks, or a track, as `what` says, has that title. No title has a character that
/// would have to be quoted.
fn push_title(text: &mut Text, what: &str, pid: u32, tid: u32, title: &str) {
    if !text.is_empty() {
        text.push(",\n");
    }
    push_head(text, what, pid, tid);
    text.push("\"name\":\"");
    text.push(title);
    text.push("\"}}");
}

/// Appends the beginning of the object of a group of tracks, or of a track.
fn push_head(text: &mut Text, what: &str, pid: u32, tid: u32) {
    text.number("{\"ph\":\"M\",\"pid\":", u64::from(pid));
    text.number(",\"tid\":", u64::from(tid));
    text.push(",\"name\":\"");
    text.push(what);
    text.push("\",\"args\":{");
}
