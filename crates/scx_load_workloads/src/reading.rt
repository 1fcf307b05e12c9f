ghost use Rattle.std.specs.Prelude.{◌≡◌, ℕ, ◌^◌, ◌<◌, ◌≤◌, [], codes, length, IfOk};
ghost use Rattle.toml.specs.Data.{get_member};
ghost use Rattle.toml.specs.View.{view, table_view, items_view};
ghost use Rattle.scx_load_files.specs.Faults.{Gives};
ghost use Rattle.scx_load_files.specs.Paths.{below};
ghost use Rattle.scx_load_files.specs.Unknown.{known_alone, words};
ghost use Rattle.scx_load_workloads.specs.Workload.{IsWeighed, IsChange, change_at};
ghost use Rattle.scx_isa_semantics.specs.declared.rules.Rules.TheVariants.{Plain};
ghost use Rattle.scx_load_workloads.specs.Reading.{file_keys, task_keys, change_keys, unknown_keys, seed_in, workload_in, workload_file, workload_by, workload_of, changes_in, change_from, with_change, weighed_in, group_weighed, task_weighed, fold_from};

use crate::elements::{elements, integer};
use crate::groups::{Groups, WEIGHT};
use crate::tasks::{TIME, Tasks};
use crate::workload::{Change, MAX_CHANGES, MAX_CPUS, MAX_MS, Weighed, Workload};
use scx_isa_semantics::Rules;
use scx_load_files::{
    Cause, Limits, LoadError, Section, Unknown, element_path, read_document, refused,
};
use std::alloc::Global;
use toml::Value;

const CPUS: Limits = Limits {
    least: 1,
    most: MAX_CPUS,
};

const LENGTH: Limits = Limits {
    least: 1,
    most: MAX_MS,
};

/// Reads a workload file for a policy by plain rules, as `read_workload_by` does.
pub fn read_workload(alloc: Global, text: &str) -> Result<Workload, LoadError>
    ensures { Gives (λ workload. workload) result (workload_of text.now) }
{
    read_workload_by(alloc, Rules::Plain, text)
}

/// Reads a workload file for a policy by those rules, or names its first fault.
///
/// Unknown keys are faults before all others, the least path by bytes first. Then the order is `cpus`,
/// `ms`, `seed`, the groups, the tasks, the changes; of each array its type and count, then its elements
/// one by one.
pub fn read_workload_by(alloc: Global, rules: Rules, text: &str) -> Result<Workload, LoadError>
    ensures { Gives (λ workload. workload) result (workload_by rules text.now) }
{
    let table = read_document(alloc, text)?;
    let file = Section::whole(&table);
    check_keys(alloc, rules, file)?;
    read_known_keys_by(alloc, rules, file)
}

/// The keys that a file may have.
fn file_keys(rules: Rules) -> &'static [&'static str]
    ensures { words result.now ≡ file_keys rules }
{
    match rules {
        Rules::Plain => &["cpus", "ms", "group", "task", "change"],
        Rules::Linux => &["cpus", "ms", "seed", "group", "task", "change"],
    }
}

/// The keys that a task may have.
fn task_keys(rules: Rules) -> &'static [&'static str]
    ensures { words result.now ≡ task_keys rules }
{
    match rules {
        Rules::Plain => &["name", "group", "start", "run", "sleep"],
        Rules::Linux => &["name", "group", "weight", "cpus", "start", "run", "sleep"],
    }
}

/// The keys that a change may have.
fn change_keys(rules: Rules) -> &'static [&'static str]
    ensures { words result.now ≡ change_keys rules }
{
    match rules {
        Rules::Plain => &["at", "group", "weight"],
        Rules::Linux => &["at", "group", "task", "weight"],
    }
}

/// Refuses the unknown key of the least path.
fn check_keys(alloc: Global, rules: Rules, file: Section<'_>) -> Result<(), LoadError>
    requires { file.path.now ≡ [] }
    ensures { Gives (λ t. t) result
        (known_alone (unknown_keys rules (table_view file.entry.table.now))) }
{
    let unknown = Unknown::none()
        .in_section(alloc, file, file_keys(rules))?
        .below_each(
            alloc,
            file,
            "group",
            &["name", "weight", "parent", "cpu_max"],
        )?
        .below_each(alloc, file, "task", task_keys(rules))?
        .below_each(alloc, file, "change", change_keys(rules))?;
    unknown.refuse()
}

/// Reads the keys of the table of a file that are known under plain rules, as `read_known_keys_by` does.
pub fn read_known_keys(alloc: Global, file: Section<'_>) -> Result<Workload, LoadError>
    requires { file.path.now ≡ [] }
    ensures { Gives (λ workload. workload) result
        (workload_in Plain (table_view file.entry.table.now)) }
{
    read_known_keys_by(alloc, Rules::Plain, file)
}

/// Reads the keys of the table of a file that are known under those rules: `cpus`, `ms`, `seed`, the groups, the
/// tasks and the changes, in this order. Other keys aren't looked at.
pub fn read_known_keys_by(
    alloc: Global,
    rules: Rules,
    file: Section<'_>,
) -> Result<Workload, LoadError>
    requires { file.path.now ≡ [] }
    ensures { Gives (λ workload. workload) result
        (workload_in rules (table_view file.entry.table.now)) }
{
    let cpus = integer(alloc, file, "cpus", CPUS)?;
    let ms = integer(alloc, file, "ms", LENGTH)?;
    let seed = read_seed(alloc, file, rules)?;
    let groups = Groups::read(alloc, file)?;
    let tasks = Tasks::read(alloc, file, rules, cpus, &groups)?;
    match read_changes(alloc, file, rules, &groups, &tasks) {
        Ok(changes) => {
            let (groups, group_names) = groups.into_parts();
            let (homes, task_names, own_weights, masks, timings) = tasks.into_parts();
            Ok(Workload {
                cpus,
                ms,
                seed,
                groups,
                group_names,
                homes,
                task_names,
                own_weights,
                masks,
                timings,
                changes,
            })
        }
        Err(error) => {
            drop(groups);
            drop(tasks);
            Err(error)
        }
    }
}

/// Where random numbers begin. Under plain rules no key says it.
fn read_seed(alloc: Global, file: Section<'_>, rules: Rules) -> Result<u64, LoadError>
    requires { file.path.now ≡ [] }
    ensures seed { Gives (λ seed. seed) result (seed_in rules (table_view file.entry.table.now)) }
    ensures few { IfOk result (λ seed. seed < 2 ^ 63) }
{
    match rules {
        Rules::Plain => Ok(0),
        Rules::Linux => file.natural_or(alloc, "seed", 0),
    }
}

#[tactic(auto, using(crate::proofs::Each::goes_on, crate::proofs::Each::ends, crate::proofs::Each::is_done, crate::proofs::Values::changes_more))]
fn read_changes(
    alloc: Global,
    file: Section<'_>,
    rules: Rules,
    groups: &Groups,
    tasks: &Tasks,
) -> Result<Vec<Change>, LoadError>
    requires whole { file.path.now ≡ [] }
    requires few_tasks { length tasks.now.homes ≤ 1024 }
    ensures changes { Gives (λ changes. changes.items) result
        (changes_in rules groups.now tasks.now (table_view file.entry.table.now)) }
    ensures few { IfOk result (λ changes. length changes.items ≤ MAX_CHANGES) }
    ensures valid { IfOk result
        (λ changes. (i : ℕ) → i < length changes.items
        → IsChange (length groups.now.groups) (length tasks.now.homes)
        (change_at changes.items i)) }
{
    let values = elements(alloc, file, "change", MAX_CHANGES)?;
    let mut changes = Vec::with_capacity(alloc, values.len())?;
    for (number, value) in values.iter().enumerate() {
        changes.push(read_change(alloc, rules, groups, tasks, number, value)?)?;
    }
    Ok(changes)
}

fn read_change(
    alloc: Global,
    rules: Rules,
    groups: &Groups,
    tasks: &Tasks,
    number: usize,
    value: &Value,
) -> Result<Change, LoadError>
    requires { length tasks.now.homes ≤ 1024 }
    ensures change { Gives (λ change. change) result
        (change_from rules groups.now tasks.now number (view value.now)) }
    ensures valid { IfOk result (IsChange (length groups.now.groups) (length tasks.now.homes)) }
{
    let path = element_path(alloc, "change", number)?;
    let section = Section::of(alloc, &path, value)?;
    let at = integer(alloc, section, "at", TIME)?;
    let weighed = read_weighed(alloc, rules, groups, tasks, section)?;
    let weight = integer(alloc, section, "weight", WEIGHT)?;
    Ok(Change {
        at,
        weighed,
        weight,
    })
}

/// The group or the task whose weight changes. Under plain rules no key says a task.
fn read_weighed(
    alloc: Global,
    rules: Rules,
    groups: &Groups,
    tasks: &Tasks,
    section: Section<'_>,
) -> Result<Weighed, LoadError>
    requires { length tasks.now.homes ≤ 1024 }
    ensures weighed { Gives (λ w. w) result
        (weighed_in rules groups.now tasks.now section.entry.path.now
        (table_view section.entry.table.now)) }
    ensures valid { IfOk result (IsWeighed (length groups.now.groups) (length tasks.now.homes)) }
{
    match rules {
        Rules::Plain => read_group(alloc, groups, section),
        Rules::Linux => match section.value("task") {
            Some(value) => read_task(alloc, tasks, section, value),
            None => read_group(alloc, groups, section),
        },
    }
}

/// The group whose weight changes.
fn read_group(alloc: Global, groups: &Groups, section: Section<'_>) -> Result<Weighed, LoadError>
    ensures weighed { Gives (λ w. w) result
        (group_weighed groups.now section.entry.path.now (table_view section.entry.table.now)) }
    ensures valid { (tasks : ℕ) → IfOk result (IsWeighed (length groups.now.groups) tasks) }
{
    let group = groups.named(alloc, section)?;
    Ok(Weighed::Group(group))
}

/// The task whose weight changes, which the value names. `Twice` where there is a group too.
fn read_task(
    alloc: Global,
    tasks: &Tasks,
    section: Section<'_>,
    value: &Value,
) -> Result<Weighed, LoadError>
    requires { length tasks.now.homes ≤ 1024 }
    ensures weighed { Gives (λ w. w) result
        (task_weighed tasks.now (below section.entry.path.now (codes "task"))
        (get_member (codes "group") (table_view section.entry.table.now)) (view value.now)) }
    ensures valid { (groups : ℕ) → IfOk result (IsWeighed groups (length tasks.now.homes)) }
{
    if section.value("group").is_some() {
        return refused(alloc, section.path, "task", Cause::Twice);
    }
    let task = tasks.named(alloc, section, value)?;
    Ok(Weighed::Task(task))
}
