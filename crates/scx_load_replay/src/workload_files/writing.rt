use crate::workload_files::drafts::Drafts;
use itoa::Buffer;
use scx_load_workloads::{MAX_CPUS, Timing, Workload};
use scx_weights::{DEFAULT_PERIOD_MS, Group};
use std::alloc::{AllocError, Global};

/// The weight of a group or a task that names none.
const DEFAULT_WEIGHT: u32 = 100;

/// The text of the workload with these times, without its changes of weights.
pub(crate) fn text_of(
    alloc: Global,
    workload: &Workload,
    drafts: &Drafts,
) -> Result<String, AllocError> {
    let mut text = String::new(alloc);
    put_number(&mut text, "cpus", workload.cpus())?;
    put_number(&mut text, "ms", drafts.ms())?;
    put_seed(&mut text, workload.seed())?;
    put_groups(&mut text, workload)?;
    put_tasks(&mut text, workload, drafts)?;
    Ok(text)
}

/// Adds the seed, where it isn't that of a workload that names none.
fn put_seed(text: &mut String, seed: u64) -> Result<(), AllocError> {
    if seed == 0 {
        return Ok(());
    }
    let mut digits = Buffer::new();
    text.push_str("seed = ")?;
    text.push_str(digits.format(seed))?;
    text.push_str("\n")
}

fn put_groups(text: &mut String, workload: &Workload) -> Result<(), AllocError> {
    let mut number = 0u32;
    for group in workload.groups() {
        put_group(text, workload, number, *group)?;
        number = number.saturating_add(1);
    }
    Ok(())
}

fn put_group(
    text: &mut String,
    workload: &Workload,
    number: u32,
    group: Group,
) -> Result<(), AllocError> {
    text.push_str("\n[[group]]\n")?;
    put_text(text, "name", group_name(workload, number))?;
    if group.weight != DEFAULT_WEIGHT {
        put_number(text, "weight", group.weight)?;
    }
    if let Some(parent) = group.parent {
        put_text(text, "parent", group_name(workload, parent))?;
    }
    put_limit(text, group)
}

/// Adds the group's `cpu_max`, where it has one.
fn put_limit(text: &mut String, group: Group) -> Result<(), AllocError> {
    if group.quota_ms.is_none() && group.period_ms == DEFAULT_PERIOD_MS {
        return Ok(());
    }
    text.push_str("cpu_max = \"")?;
    match group.quota_ms {
        Some(quota_ms) => put_microseconds(text, quota_ms)?,
        None => text.push_str("max")?,
    }
    text.push_str(" ")?;
    put_microseconds(text, group.period_ms)?;
    text.push_str("\"\n")
}

fn put_microseconds(text: &mut String, ms: u32) -> Result<(), AllocError> {
    put_digits(text, ms)?;
    text.push_str("000")
}

fn put_tasks(text: &mut String, workload: &Workload, drafts: &Drafts) -> Result<(), AllocError> {
    let mut number = 0u16;
    for home in workload.tasks() {
        put_task(text, workload, number, *home, drafts)?;
        number = number.saturating_add(1);
    }
    Ok(())
}

fn put_task(
    text: &mut String,
    workload: &Workload,
    number: u16,
    home: u32,
    drafts: &Drafts,
) -> Result<(), AllocError> {
    text.push_str("\n[[task]]\n")?;
    put_text(text, "name", task_name(workload, number))?;
    put_text(text, "group", group_name(workload, home))?;
    put_own_weight(text, workload, number)?;
    put_cpus(text, workload, number)?;
    put_timing(text, drafts.timing(number))
}

/// Adds the weight of a task itself, where it isn't that of one that names none.
fn put_own_weight(text: &mut String, workload: &Workload, task: u16) -> Result<(), AllocError> {
    match workload.own_weights().get(usize::from(task)) {
        Some(weight) if *weight != DEFAULT_WEIGHT => put_number(text, "weight", *weight),
        _ => Ok(()),
    }
}

/// Adds the CPUs of a task that may not run on all.
fn put_cpus(text: &mut String, workload: &Workload, task: u16) -> Result<(), AllocError> {
    match workload.masks().get(usize::from(task)) {
        Some(mask) if mask.count_ones() != workload.cpus() => put_mask(text, *mask),
        _ => Ok(()),
    }
}

/// Adds a line with the CPUs of a mask: each run of them as its first and its last.
fn put_mask(text: &mut String, mask: u64) -> Result<(), AllocError> {
    text.push_str("cpus = \"")?;
    let mut before = "";
    for cpu in 0..MAX_CPUS {
        if begins(mask, cpu) {
            text.push_str(before)?;
            put_digits(text, cpu)?;
            before = ",";
        } else if ends(mask, cpu) {
            text.push_str("-")?;
            put_digits(text, cpu)?;
        }
    }
    text.push_str("\"\n")
}

/// True if the CPU is the first of a run of a mask's CPUs.
fn begins(mask: u64, cpu: u32) -> bool {
    has(mask, cpu) && (cpu == 0 || !has(mask, cpu - 1))
}

/// True if the CPU is the last of a run of a mask's CPUs.
fn ends(mask: u64, cpu: u32) -> bool {
    has(mask, cpu) && !has(mask, cpu.saturating_add(1))
}

fn has(mask: u64, cpu: u32) -> bool {
    cpu < MAX_CPUS && mask >> cpu & 1 == 1
}

/// Adds a task's times that aren't 0.
fn put_timing(text: &mut String, timing: Timing) -> Result<(), AllocError> {
    if timing.start != 0 {
        put_number(text, "start", timing.start)?;
    }
    if timing.run != 0 {
        put_number(text, "run", timing.run)?;
    }
    if timing.sleep != 0 {
        put_number(text, "sleep", timing.sleep)?;
    }
    Ok(())
}

/// Adds a line with a key and a name, which needs no escapes.
fn put_text(text: &mut String, key: &str, name: &str) -> Result<(), AllocError> {
    text.push_str(key)?;
    text.push_str(" = \"")?;
    text.push_str(name)?;
    text.push_str("\"\n")
}

/// Adds a line with a key and a number.
fn put_number(text: &mut String, key: &str, number: u32) -> Result<(), AllocError> {
    text.push_str(key)?;
    text.push_str(" = ")?;
    put_digits(text, number)?;
    text.push_str("\n")
}

fn put_digits(text: &mut String, number: u32) -> Result<(), AllocError> {
    let mut digits = Buffer::new();
    text.push_str(digits.format(number))
}

/// The name of a group; none where there is no such group.
fn group_name(workload: &Workload, group: u32) -> &str {
    if (group as usize) < workload.groups().len() {
        workload.group_name(group)
    } else {
        ""
    }
}

/// The name of a task; none where there is no such task.
fn task_name(workload: &Workload, task: u16) -> &str {
    if usize::from(task) < workload.tasks().len() {
        workload.task_name(task)
    } else {
        ""
    }
}
