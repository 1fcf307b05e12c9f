ghost use Rattle.std.specs.Prelude.{◌≡◌, length, IfOk};
ghost use Rattle.std.specs.List.{list_any};
ghost use Rattle.scx_weights.specs.Hierarchy.{lies_in};
ghost use Rattle.scxsim_statistics.specs.Groups.{is_level, is_in, group_waits, group_latencies, waits_in, waits_below};

use crate::latencies::LatencyFigures;
use crate::tally::TaskFigures;
use scx_load_workloads::Workload;
use scx_weights::{Group, path_of};
use scxsim_views::LengthCounts;
use std::alloc::{AllocError, Global};

/// The waits of the tasks of a group and of groups below it.
#[derive(Drop)]
pub struct GroupWaits {
    pub waits: LengthCounts,
    /// The wake-to-run latencies.
    pub latencies: LengthCounts,
}

/// The waits of all groups, from those of their tasks.
#[tactic(auto, using(crate::proofs::Merging::waits_next))]
pub(crate) fn waits_of_groups(
    alloc: Global,
    workload: &Workload,
    tasks: &[TaskFigures],
    latencies: &[LatencyFigures],
) -> Result<Vec<GroupWaits>, AllocError>
    ensures { IfOk result (λ groups. groups.items
        ≡ waits_below workload.now tasks.now latencies.now (length workload.now.groups)) }
{
    let count = workload.groups().len();
    let mut groups = Vec::with_capacity(alloc, count)?;
    for group in 0..count {
        groups.push(waits_of_group(alloc, workload, group, tasks, latencies)?)?;
    }
    Ok(groups)
}

fn waits_of_group(
    alloc: Global,
    workload: &Workload,
    group: usize,
    tasks: &[TaskFigures],
    latencies: &[LatencyFigures],
) -> Result<GroupWaits, AllocError>
    ensures { IfOk result (λ waits. waits ≡ waits_in workload.now tasks.now latencies.now group) }
{
    Ok(GroupWaits {
        waits: merged_waits(alloc, workload, group, tasks)?,
        latencies: merged_latencies(alloc, workload, group, latencies)?,
    })
}

#[tactic(auto, using(crate::proofs::Merging::merged_step))]
fn merged_waits(
    alloc: Global,
    workload: &Workload,
    group: usize,
    tasks: &[TaskFigures],
) -> Result<LengthCounts, AllocError>
    ensures { IfOk result (λ waits. waits ≡ group_waits workload.now group tasks.now) }
{
    let mut waits = LengthCounts::new(alloc);
    for task in 0..tasks.len() {
        waits.add_if(is_in(workload, group, task), &tasks[task].waits)?;
    }
    Ok(waits)
}

#[tactic(auto, using(crate::proofs::Merging::merged_step))]
fn merged_latencies(
    alloc: Global,
    workload: &Workload,
    group: usize,
    latencies: &[LatencyFigures],
) -> Result<LengthCounts, AllocError>
    ensures { IfOk result (λ merged. merged ≡ group_latencies workload.now group latencies.now) }
{
    let mut merged = LengthCounts::new(alloc);
    for task in 0..latencies.len() {
        merged.add_if(is_in(workload, group, task), &latencies[task].lengths)?;
    }
    Ok(merged)
}

/// True if the task's group is that one or lies below it.
fn is_in(workload: &Workload, group: usize, task: usize) -> bool
    ensures { result ≡ is_in workload.now group task }
{
    match workload.tasks().get(task) {
        Some(home) => lies_in(workload.groups(), *home, group),
        None => false,
    }
}

/// True if the group `home` is that one or lies below it.
fn lies_in(groups: &[Group], home: u32, group: usize) -> bool
    ensures { result ≡ lies_in groups.now home group }
{
    let levels = path_of(groups, home);
    is_among(&levels, group)
}

/// True if one of these groups is that one.
fn is_among(levels: &[Option<u32>], group: usize) -> bool
    ensures { result ≡ list_any (is_level group) levels.now }
{
    levels.iter().any(|level| is_level(*level, group))
}

fn is_level(level: Option<u32>, group: usize) -> bool
    ensures { result ≡ is_level group level }
{
    match level {
        Some(level) => level as usize == group,
        None => false,
    }
}
