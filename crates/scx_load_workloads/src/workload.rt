ghost use Rattle.std.specs.Prelude.{◌≡◌, ◌<◌, ◌==◌, not, length, slice_index_or, [], IfOk};
ghost use Rattle.std.specs.List.{list_any};
ghost use Rattle.scx_load_workloads.specs.Reading.{index_of};

use crate::cpu_lists::all_cpus;
use crate::elements::index_of;
use scx_weights::{Group, Tree};
use std::alloc::{AllocError, Global};
use std::marker::Model;

/// The most CPUs of a workload; the least is 1.
pub const MAX_CPUS: u32 = 64;

/// The most milliseconds, of a whole workload and of each time in it.
pub const MAX_MS: u32 = 1_000_000;

/// The most changes of weights in a workload.
pub const MAX_CHANGES: usize = 1024;

/// The times of a task, in milliseconds, each at most `MAX_MS`.
#[derive(Clone, Copy)]
pub struct Timing {
    /// Its first wake.
    pub start: u32,
    /// The time it runs before it sleeps; 0 where it never sleeps.
    pub run: u32,
    /// The time it sleeps.
    pub sleep: u32,
}

/// A group or a task, by its number.
#[derive(Clone, Copy, PartialEq, Eq)]
pub enum Weighed {
    Group(u32),
    Task(u16),
}

/// A change of a weight at some millisecond.
#[derive(Clone, Copy)]
pub struct Change {
    pub at: u32,
    /// The group or the task whose weight changes.
    pub weighed: Weighed,
    pub weight: u32,
}

/// Groups, tasks in them, the weights, CPUs and times of the tasks, and changes of weights of groups and tasks.
///
/// Groups and tasks go by their numbers in the file. In a contract a workload is its lists: names are
/// lists of bytes.
#[derive(Drop)]
pub struct Workload {
    pub(crate) cpus: u32,
    pub(crate) ms: u32,
    pub(crate) seed: u64,
    pub(crate) groups: Vec<Group>,
    pub(crate) group_names: Vec<String>,
    pub(crate) homes: Vec<u32>,
    pub(crate) task_names: Vec<String>,
    pub(crate) own_weights: Vec<u32>,
    pub(crate) masks: Vec<u64>,
    pub(crate) timings: Vec<Timing>,
    pub(crate) changes: Vec<Change>,
}

impl Model for Workload {
    ghost use Rattle.scx_load_workloads.specs.Workload.{WorkloadState, IsWorkload};
    ghost use Rattle.scx_load_workloads.specs.Kept.{state_of};

    ghost Value = { WorkloadState };

    ghost view = { state_of };

    ghost invariant = { λ w. IsWorkload (state_of w) };
}

impl Workload {
    ghost use Rattle.scx_load_workloads.specs.Workload.{IsWorkload, first_tree, is_bound};
    ghost use Rattle.scx_weights.specs.Hierarchy.{idle, with_own_weights};

    /// Every workload is whole. The function does nothing: its contract is the law.
    pub fn is_whole(&self)
        ensures { IsWorkload self.now }
    {
        let _cpus = self.cpus;
    }

    /// The number of CPUs, 1 to 64.
    pub fn cpus(&self) -> u32
        ensures { result ≡ self.now.cpus }
    {
        let cpus = self.cpus;
        cpus
    }

    /// Its length in milliseconds, 1 to 1,000,000.
    pub fn ms(&self) -> u32
        ensures { result ≡ self.now.ms }
    {
        let ms = self.ms;
        ms
    }

    /// Where random numbers begin, 0 to 2^63 - 1.
    pub fn seed(&self) -> u64
        ensures { result ≡ self.now.seed }
    {
        let seed = self.seed;
        seed
    }

    /// The groups, each with its weight at the start.
    pub fn groups(&self) -> &[Group]
        ensures { result.now ≡ self.now.groups }
    {
        &self.groups
    }

    /// The number of each task's group.
    pub fn tasks(&self) -> &[u32]
        ensures { result.now ≡ self.now.homes }
    {
        &self.homes
    }

    /// The weight of each task itself, 1 to 10000.
    pub fn own_weights(&self) -> &[u32]
        ensures { result.now ≡ self.now.own_weights }
    {
        &self.own_weights
    }

    /// The CPUs on which each task may run, one bit a CPU.
    pub fn masks(&self) -> &[u64]
        ensures { result.now ≡ self.now.masks }
    {
        &self.masks
    }

    /// True if there is a task that may not run on all CPUs.
    pub fn is_bound(&self) -> bool
        ensures { result ≡ is_bound self.now.cpus self.now.masks }
    {
        let all = all_cpus(self.cpus);
        has_other_mask(&self.masks, all)
    }

    /// The times of each task.
    pub fn timings(&self) -> &[Timing]
        ensures { result.now ≡ self.now.timings }
    {
        &self.timings
    }

    /// The changes of weights, in the order of the file.
    pub fn changes(&self) -> &[Change]
        ensures { result.now ≡ self.now.changes }
    {
        &self.changes
    }

    /// The tree of its groups and tasks, each task with its own weight and bound to its CPUs; no task is active.
    pub fn tree(&self, alloc: Global) -> Result<Tree, AllocError>
        ensures { IfOk result (λ tree. tree ≡ first_tree self.now) }
    {
        let mut tree = self.unbound_tree(alloc)?;
        if !self.is_bound() {
            return Ok(tree);
        }
        match tree.bind(&self.masks) {
            Ok(()) => Ok(tree),
            Err(_) => unreachable!(),
        }
    }

    /// Its tree, in which each task may run on all CPUs.
    fn unbound_tree(&self, alloc: Global) -> Result<Tree, AllocError>
        ensures { IfOk result
            (λ tree. tree
            ≡ with_own_weights (idle self.now.groups self.now.homes) self.now.own_weights) }
    {
        let mut tree = match Tree::new(alloc, &self.groups, &self.homes) {
            Ok(tree) => tree,
            Err(_) => return Err(AllocError),
        };
        match tree.set_own_weights(&self.own_weights) {
            Ok(()) => Ok(tree),
            Err(_) => unreachable!(),
        }
    }

    /// The number of the group of that name, if there is one.
    #[tactic(auto, using(crate::proofs::Numbers::few_groups))]
    pub fn group_named(&self, name: &str) -> Option<u32>
        ensures number { result ≡ index_of self.now.group_names name.now }
    {
        Some(index_of(&self.group_names, name)? as u32)
    }

    /// The number of the task of that name, if there is one.
    pub fn task_named(&self, name: &str) -> Option<u16>
        ensures number { result ≡ index_of self.now.task_names name.now }
    {
        Some(index_of(&self.task_names, name)? as u16)
    }

    /// The name of a group.
    pub fn group_name(&self, group: u32) -> &str
        requires { group < length self.now.groups }
        ensures { result.now ≡ slice_index_or self.now.group_names group [] }
    {
        self.group_names[group as usize].as_str()
    }

    /// The name of a task.
    pub fn task_name(&self, task: u16) -> &str
        requires { task < length self.now.homes }
        ensures { result.now ≡ slice_index_or self.now.task_names task [] }
    {
        self.task_names[task as usize].as_str()
    }
}

/// True if a mask isn't that one.
fn has_other_mask(masks: &[u64], all: u64) -> bool
    ensures { result ≡ list_any (λ mask. not (mask == all)) masks.now }
{
    masks.iter().any(|mask| *mask != all)
}
