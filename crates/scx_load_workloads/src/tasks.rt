//! The tasks of a workload file.
ghost use Rattle.std.specs.Prelude.{◌≡◌, ℕ, ◌+◌, ◌<◌, ◌≤◌, ◌++◌, ◌∷◌, [], None, codes, length, IfOk, OnOk, IfErr};
ghost use Rattle.toml.specs.View.{view, table_view, items_view};
ghost use Rattle.scx_load_files.specs.declared.fault.LoadError.TheVariants.{NoMemory};
ghost use Rattle.scx_load_files.specs.Faults.{Gives};
ghost use Rattle.scx_load_files.specs.Paths.{below};
ghost use Rattle.scx_load_workloads.specs.Workload.{IsOwnWeight, own_weight_at, IsTiming, timing_at};
ghost use Rattle.scx_load_workloads.specs.Reading.{index_of, own_weight_in, timing_in, fold_from};
ghost use Rattle.scx_load_workloads.specs.KeptNames.{texts};

use crate::cpu_lists::read_mask;
use crate::elements::{integer_or, some_elements};
use crate::groups::{Groups, WEIGHT, new_name};
use crate::names::Names;
use crate::workload::{MAX_MS, Timing};
use scx_isa_semantics::Rules;
use scx_load_files::{Cause, Limits, LoadError, Section, element_path, refused};
use scx_weights::{DEFAULT_OWN_WEIGHT, MAX_TASKS};
use std::alloc::Global;
use std::marker::Model;
use toml::Value;

/// Times, in milliseconds.
pub(crate) const TIME: Limits = Limits {
    least: 0,
    most: MAX_MS,
};

/// The tasks that were read so far.
#[derive(Drop)]
pub struct Tasks {
    pub(crate) names: Names,
    pub(crate) homes: Vec<u32>,
    pub(crate) own_weights: Vec<u32>,
    pub(crate) masks: Vec<u64>,
    pub(crate) timings: Vec<Timing>,
}

impl Model for Tasks {
    ghost use Rattle.scx_load_workloads.specs.Reading.{TaskList};
    ghost use Rattle.scx_load_workloads.specs.Kept.{tasks_of, AreTasks};

    ghost Value = { TaskList };

    ghost view = { tasks_of };

    ghost invariant = { AreTasks };
}

impl Tasks {
    ghost use Rattle.scx_load_workloads.specs.Reading.{no_tasks, tasks_in, task_at, with_task, task_named};

    /// The tasks of a file with that number of CPUs, for a policy by those rules.
    #[tactic(auto, using(crate::proofs::Each::goes_on, crate::proofs::Each::ends, crate::proofs::Each::is_done))]
    pub(crate) fn read(
        alloc: Global,
        file: Section<'_>,
        rules: Rules,
        cpus: u32,
        groups: &Groups,
    ) -> Result<Tasks, LoadError>
        requires whole { file.path.now ≡ [] }
        requires some_cpus { 1 ≤ cpus }
        requires few_cpus { cpus ≤ 64 }
        ensures tasks { Gives (λ t. t) result
            (tasks_in rules cpus groups.now (table_view file.entry.table.now)) }
        ensures some { IfOk result (λ t. 1 ≤ length t.homes) }
        ensures few { IfOk result (λ t. length t.homes ≤ 1024) }
    {
        let values = some_elements(alloc, file, "task", MAX_TASKS)?;
        let mut tasks = Tasks::none(alloc);
        for (number, value) in values.iter().enumerate() {
            tasks.push_element(alloc, rules, cpus, groups, number, value)?;
        }
        Ok(tasks)
    }

    fn none(alloc: Global) -> Tasks
        ensures { result ≡ no_tasks }
    {
        Tasks {
            names: Names::none(alloc),
            homes: Vec::new(alloc),
            own_weights: Vec::new(alloc),
            masks: Vec::new(alloc),
            timings: Vec::new(alloc),
        }
    }

    /// Adds the task that an element says.
    fn push_element(
        &mut self,
        alloc: Global,
        rules: Rules,
        cpus: u32,
        groups: &Groups,
        number: usize,
        value: &Value,
    ) -> Result<(), LoadError>
        requires some_cpus { 1 ≤ cpus }
        requires few_cpus { cpus ≤ 64 }
        ensures tasks { Gives (λ _. self.new) result
            (task_at rules cpus groups.now self.old number (view value.now)) }
        ensures count { OnOk result (length self.new.homes ≡ length self.old.homes + 1) }
    {
        let path = element_path(alloc, "task", number)?;
        let section = Section::of(alloc, &path, value)?;
        let name = new_name(alloc, &self.names, section)?;
        let home = groups.leaf(alloc, section)?;
        let weight = read_own_weight(alloc, section, rules)?;
        let mask = read_mask(alloc, section, rules, cpus)?;
        let timing = read_timing(alloc, section)?;
        self.push(alloc, name, home, weight, mask, timing)
    }

    #[tactic(auto, using(crate::proofs::Values::timings_more, crate::proofs::Values::weights_more))]
    fn push(
        &mut self,
        alloc: Global,
        name: &str,
        home: u32,
        weight: u32,
        mask: u64,
        timing: Timing,
    ) -> Result<(), LoadError>
        requires new { index_of self.old.names name.now ≡ None }
        requires weight { IsOwnWeight weight }
        requires timing { IsTiming timing }
        ensures tasks { OnOk result
            (self.new
            ≡ (record {
              names = self.old.names ++ name.now ∷ [];
              homes = self.old.homes ++ home
                  ∷ [];
              own_weights = self.old.own_weights ++ weight ∷ [];
              masks = self.old.masks ++ mask ∷ [];
              timings = self.old.timings ++ timing ∷ [];
            })) }
        ensures memory { IfErr result (λ e. e ≡ NoMemory) }
    {
        self.homes.reserve(1)?;
        self.own_weights.reserve(1)?;
        self.masks.reserve(1)?;
        self.timings.reserve(1)?;
        self.names.push(alloc, name)?;
        self.homes.push_reserved(home);
        self.own_weights.push_reserved(weight);
        self.masks.push_reserved(mask);
        self.timings.push_reserved(timing);
        Ok(())
    }

    /// The task that the value at the key `task` names. `WrongType` or `NoSuchTask`.
    pub(crate) fn named(
        &self,
        alloc: Global,
        section: Section<'_>,
        value: &Value,
    ) -> Result<u16, LoadError>
        requires { length self.now.homes ≤ 1024 }
        ensures number { Gives (λ n. n) result
            (task_named self.now.names (below section.entry.path.now (codes "task"))
            (view value.now)) }
        ensures known { IfOk result (λ n. n < length self.now.homes) }
    {
        let name = section.text_in(alloc, "task", value)?;
        match self.names.index_of(name) {
            Some(task) => Ok(task as u16),
            None => refused(alloc, section.path, "task", Cause::NoSuchTask),
        }
    }

    pub(crate) fn into_parts(self) -> (Vec<u32>, Vec<String>, Vec<u32>, Vec<u64>, Vec<Timing>)
        ensures homes { result.0.items ≡ self.homes }
        ensures names { texts result.1.items ≡ self.names }
        ensures own_weights { result.2.items ≡ self.own_weights }
        ensures masks { result.3.items ≡ self.masks }
        ensures timings { result.4.items ≡ self.timings }
        ensures named { length self.names ≡ length self.homes }
        ensures weighed { length self.own_weights ≡ length self.homes }
        ensures masked { length self.masks ≡ length self.homes }
        ensures timed { length self.timings ≡ length self.homes }
        ensures weights { (t : ℕ)
            → t < length self.own_weights → IsOwnWeight (own_weight_at self.own_weights t) }
        ensures times { (t : ℕ) → t < length self.timings → IsTiming (timing_at self.timings t) }
    {
        (
            self.homes,
            self.names.into_list(),
            self.own_weights,
            self.masks,
            self.timings,
        )
    }
}

/// The weight of a task itself. Under plain rules no key says it.
fn read_own_weight(alloc: Global, section: Section<'_>, rules: Rules) -> Result<u32, LoadError>
    ensures weight { Gives (λ w. w) result
        (own_weight_in rules section.entry.path.now (table_view section.entry.table.now)) }
    ensures valid { IfOk result IsOwnWeight }
{
    match rules {
        Rules::Plain => Ok(DEFAULT_OWN_WEIGHT),
        Rules::Linux => integer_or(alloc, section, "weight", WEIGHT, DEFAULT_OWN_WEIGHT),
    }
}

fn read_timing(alloc: Global, section: Section<'_>) -> Result<Timing, LoadError>
    ensures timing { Gives (λ t. t) result
        (timing_in section.entry.path.now (table_view section.entry.table.now)) }
    ensures times { IfOk result IsTiming }
{
    let start = integer_or(alloc, section, "start", TIME, 0)?;
    let run = integer_or(alloc, section, "run", TIME, 0)?;
    let sleep = integer_or(alloc, section, "sleep", TIME, 0)?;
    Ok(Timing { start, run, sleep })
}
