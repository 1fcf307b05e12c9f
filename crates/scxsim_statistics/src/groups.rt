ghost use Rattle.std.specs.Prelude.{◌≡◌};
ghost use Rattle.scxsim_statistics.specs.Shares.{percent, due_percent};

use crate::tally::TaskFigures;
use scx_load_workloads::Workload;
use scx_weights::{WHOLE, path_of};
use std::alloc::{AllocError, Global};

/// The share that a group reached and the one that was due to it, in hundredths of a percent of all run time.
#[derive(Clone, Copy)]
pub struct GroupFigures {
    pub reached: u64,
    pub due: u64,
}

/// The figures of all groups, from the sum of shares that was due to each: milliseconds times its share of them.
pub(crate) fn group_figures(
    alloc: Global,
    workload: &Workload,
    tasks: &[TaskFigures],
    due: &[u128],
) -> Result<Vec<GroupFigures>, AllocError> {
    let runs = group_runs(alloc, workload, tasks)?;
    let total = total_run(tasks);
    let mut groups = Vec::with_capacity(alloc, runs.len())?;
    for (run, due) in runs.iter().zip(due) {
        groups.push(GroupFigures {
            reached: percent(*run, total),
            due: due_percent(*due, total),
        })?;
    }
    Ok(groups)
}

/// The milliseconds that tasks of each group ran.
fn group_runs(
    alloc: Global,
    workload: &Workload,
    tasks: &[TaskFigures],
) -> Result<Vec<u64>, AllocError> {
    let mut runs = vec![in alloc; 0u64; workload.groups().len()]?;
    for (task, group) in tasks.iter().zip(workload.tasks()) {
        add_run(workload, runs.as_mut_slice(), *group, task.run);
    }
    Ok(runs)
}

/// The milliseconds that all tasks ran.
fn total_run(tasks: &[TaskFigures]) -> u64 {
    let mut total = 0u64;
    for task in tasks {
        total = total.saturating_add(task.run);
    }
    total
}

/// A part of a whole in hundredths of a percent, rounded down; 0 of nothing.
fn percent(part: u64, whole: u64) -> u64
    ensures { result ≡ percent part whole }
{
    if whole == 0 {
        return 0;
    }
    part.saturating_mul(10_000) / whole
}

/// A due sum of shares of a total, in hundredths of a percent, rounded down; 0 of nothing.
fn due_percent(due: u128, total: u64) -> u64
    ensures { result ≡ due_percent due total }
{
    if total == 0 {
        return 0;
    }
    let parts = due / (WHOLE / 10_000) / u128::from(total);
    parts.min(u128::from(u64::MAX)) as u64
}

/// Adds the run time of a task to its group and to each group above that.
fn add_run(workload: &Workload, runs: &mut [u64], group: u32, run: u64) {
    for level in &path_of(workload.groups(), group) {
        if let Some(group) = *level {
            add_at(runs, group as usize, run);
        }
    }
}

/// Adds to the sum of that group.
fn add_at(sums: &mut [u64], group: usize, more: u64) {
    if let Some(sum) = sums.get_mut(group) {
        *sum = sum.saturating_add(more);
    }
}
