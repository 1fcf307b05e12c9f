use crate::words::{tasks_of, write_count};
use scx_load_workloads::Workload;
use scxsim_output::Text;
use scxsim_trace::Names;
use scxsim_waits::WatchedWait;
use std::alloc::{AllocError, Global};

/// The most tasks that are named.
const NAMED: usize = 10;

/// A task, and the milliseconds that it ran.
#[derive(Clone, Copy)]
struct Runner {
    task: u16,
    ms: u64,
}

/// The tasks that ran, from the milliseconds of each: in their order, or the longest first if they are many.
fn runners(alloc: Global, tasks: u16, each: &[u64]) -> Result<Vec<Runner>, AllocError> {
    let mut ran = Vec::new(alloc);
    for task in 0..tasks {
        let ms = ms_at(each, task);
        if 0 < ms {
            ran.push(Runner { task, ms })?;
        }
    }
    if NAMED < ran.len() {
        ran.sort_by_key(|runner| u64::MAX - runner.ms)?;
    }
    Ok(ran)
}

/// Writes the tasks that ran and their milliseconds, and the number and milliseconds of those that aren't named. Returns
/// the text that comes before more.
fn write_ran(workload: &Workload, ran: &[Runner], page: &mut Text) -> &'static str {
    for (place, runner) in ran.iter().enumerate() {
        if place < NAMED {
            page.push(before_place(place));
            page.push(workload.task(runner.task));
            page.number(" ran ", runner.ms);
            page.push(" ms");
        }
    }
    if NAMED < ran.len() {
        let others = ran.len().saturating_sub(NAMED) as u64;
        write_count(", ", others, "other", page);
        page.number(" ran ", sum(ran, NAMED));
        page.push(" ms");
    }
    before_place(ran.len())
}

/// Writes the milliseconds that each task ran, and those in which CPUs were idle.
pub(crate) fn write_runners(
    alloc: Global,
    workload: &Workload,
    each: &[u64],
    idlers: &str,
    page: &mut Text,
) {
    let tasks = tasks_of(workload);
    let Ok(ran) = runners(alloc, tasks, each) else {
        page.cut();
        return;
    };
    let before = write_ran(workload, ran.as_slice(), page);
    let idle = ms_at(each, tasks);
    if 0 < idle {
        page.push(before);
        page.push(idlers);
        page.number("idle for ", idle);
        page.push(" ms");
    }
}

/// Writes the tasks that ran on a CPU during a wait.
pub(crate) fn write_cpu(
    alloc: Global,
    workload: &Workload,
    wait: &WatchedWait,
    cpu: u32,
    page: &mut Text,
) {
    page.number("  CPU ", u64::from(cpu));
    page.push(":");
    write_runners(alloc, workload, wait.ran_on(cpu), "", page);
}

/// The milliseconds of a task, or of none, which come after those of all tasks.
pub(crate) fn ms_at(each: &[u64], task: u16) -> u64 {
    match each.get(task as usize) {
        Some(ms) => *ms,
        None => 0,
    }
}

/// The text before the runner at that place.
fn before_place(place: usize) -> &'static str {
    if place == 0 { " " } else { ", " }
}

/// The milliseconds that all but the first ran.
fn sum(ran: &[Runner], first: usize) -> u64 {
    let mut sum = 0u64;
    for runner in ran.iter().skip(first) {
        sum = sum.saturating_add(runner.ms);
    }
    sum
}
