ghost use Rattle.std.specs.Prelude.{◌≡◌, ℕ, ◌+◌, ◌^◌, ◌<◌, ◌≤◌, true, false, length, IfOk, IfErr, OnOk, OnErr};
ghost use Rattle.scx_weights.specs.Hierarchy.{masks_in};

use crate::admission::{first_fault, has_bad_own_weight, has_empty_mask};
use crate::copying::copy_all;
use crate::error::TreeError;
use crate::group::{DEFAULT_OWN_WEIGHT, Group, MAX_GROUPS, MAX_TASKS, is_weight};
use crate::share::weight_in;
use crate::sums::Sums;
use crate::usage::Usages;
use std::alloc::{AllocError, Global};
use std::marker::Model;

/// Groups with weights and limits, tasks in them, which tasks are active, and what groups have used.
///
/// Groups and tasks go by their numbers in the lists that the tree was made of. In a contract a tree is
/// those two lists, the weight of each task itself, where it may run, whether it is active, and the usage of each
/// group.
#[derive(Drop)]
pub struct Tree {
    groups: Vec<Group>,
    homes: Vec<u32>,
    own_weights: Vec<u32>,
    /// For each task the processors on which it may run, one bit each, where tasks are bound.
    masks: Vec<u64>,
    bound: bool,
    active: Vec<bool>,
    sums: Sums,
    usages: Usages,
}

impl Model for Tree {
    ghost use Rattle.std.specs.Prelude.{◌≡◌, length};
    ghost use Rattle.scx_weights.specs.Hierarchy.{Hierarchy, masks_in};
    ghost use Rattle.scx_weights.specs.Pending.{usages_in, AreUsages};
    ghost use Rattle.scx_weights.specs.RunningSums.{HasRunningSums, KnowsLimits, HasOwnWeights};

    ghost Value = { Hierarchy };

    ghost view = { λ t. record { groups = t.groups.items; homes = t.homes.items; own_weights = t.own_weights.items; masks = masks_in t.bound t.masks.items; active = t.active.items; usages = usages_in t.groups.items t.usages.used.items t.usages.pending.items } };

    ghost invariant = { λ t.
        HasRunningSums
        (record { groups = t.groups.items; homes = t.homes.items; own_weights = t.own_weights.items; masks = masks_in t.bound t.masks.items; active = t.active.items; usages = usages_in t.groups.items t.usages.used.items t.usages.pending.items })
        t.sums.tasks.items t.sums.weights.items
        × KnowsLimits t.groups.items t.usages.beat t.usages.since t.usages.next t.usages.limited
        × AreUsages t.groups.items t.usages.used.items t.usages.pending.items t.usages.limited
        × HasOwnWeights t.homes.items t.own_weights.items
        × (length t.masks.items ≡ length t.homes.items) };
}

impl Tree {
    ghost use Rattle.scx_weights.specs.Hierarchy.{home_of, is_active_task, with_task, with_weight, own_weight, with_own_weight, with_own_weights, binds, mask_of, is_in_mask, with_masks, idle};
    ghost use Rattle.scx_weights.specs.Weights.{active_tasks, task_weight};
    ghost use Rattle.scx_weights.specs.Limits.{usage_of, has_quota, is_throttled, with_use, with_uses, with_turn, NoneBegins, frees};
    ghost use Rattle.scx_weights.specs.Hierarchy.{lies_in};
    ghost use Rattle.scx_weights.specs.Refusals.{max_tasks, max_weight, first_fault, weight_fault, own_weight_fault, own_weights_fault, masks_fault, Names};

    /// A tree of these groups, and of tasks in the groups that `tasks` names; no task is active, and each has the
    /// default weight itself.
    ///
    /// A parent is earlier in the list than its children. Memory is taken here alone.
    pub fn new(alloc: Global, groups: &[Group], tasks: &[u32]) -> Result<Tree, TreeError>
        ensures made { IfOk result (λ tree. tree ≡ idle groups.now tasks.now) }
        ensures valid { OnOk result (first_fault groups.now tasks.now ≡ None) }
        // Want of memory comes only where the lists have no fault.
        ensures refused { IfErr result (Names (first_fault groups.now tasks.now)) }
    {
        if let Some(fault) = first_fault(groups, tasks) {
            return Err(fault);
        }
        Ok(Tree {
            groups: Vec::from_slice(alloc, groups)?,
            homes: Vec::from_slice(alloc, tasks)?,
            own_weights: vec![in alloc; DEFAULT_OWN_WEIGHT; tasks.len()]?,
            masks: vec![in alloc; 0; tasks.len()]?,
            bound: false,
            active: vec![in alloc; false; tasks.len()]?,
            sums: Sums::new(alloc, groups.len())?,
            usages: Usages::new(alloc, groups)?,
        })
    }

    /// The number of groups, 1 to 256.
    pub fn groups(&self) -> u32
        ensures groups { result ≡ length self.now.groups }
        ensures some { 0 < result }
        ensures few { result ≤ MAX_GROUPS }
    {
        self.groups.len() as u32
    }

    /// The number of tasks, 1 to 1024.
    pub fn tasks(&self) -> u32
        ensures tasks { result ≡ length self.now.homes }
        ensures flags { length self.now.active ≡ length self.now.homes }
        ensures some { 0 < result }
        ensures few { result ≤ MAX_TASKS }
    {
        self.homes.len() as u32
    }

    /// The number of the task's group.
    pub fn group_of(&self, task: u32) -> u32
        requires { task < length self.now.homes }
        ensures group { result ≡ home_of self.now task }
        ensures known { result < length self.now.groups }
    {
        self.homes[task as usize]
    }

    pub fn is_active(&self, task: u32) -> bool
        requires { task < length self.now.homes }
        ensures { result ≡ is_active_task self.now task }
    {
        self.active[task as usize]
    }

    /// Sets the weight of a group.
    pub fn set_weight(&mut self, group: u32, weight: u32) -> Result<(), TreeError>
        ensures set { OnOk result (self.new ≡ with_weight self.old group weight) }
        ensures valid { OnOk result (weight_fault self.old group weight ≡ None) }
        ensures refused { IfErr result (λ error. weight_fault self.old group weight ≡ Some error) }
        ensures kept { OnErr result (self.new ≡ self.old) }
    {
        if self.groups.len() <= group as usize {
            return Err(TreeError::UnknownGroup);
        }
        if !is_weight(weight) {
            return Err(TreeError::OutOfRange);
        }
        self.sums.reweigh(&self.groups, group, weight);
        self.groups[group as usize].weight = weight;
        Ok(())
    }

    /// The weight that the task has itself: 0 if there is no such task.
    pub fn own_weight(&self, task: u32) -> u32
        ensures weight { result ≡ own_weight self.now task }
        ensures some { task < length self.now.homes → 1 ≤ result }
        ensures few { result ≤ max_weight }
    {
        match self.own_weights.get(task as usize) {
            Some(weight) => *weight,
            None => 0,
        }
    }

    /// Sets the weight that a task has itself. No share changes.
    pub fn set_own_weight(&mut self, task: u32, weight: u32) -> Result<(), TreeError>
        ensures set { OnOk result (self.new ≡ with_own_weight self.old task weight) }
        ensures valid { OnOk result (own_weight_fault self.old task weight ≡ None) }
        ensures refused { IfErr result (λ error. own_weight_fault self.old task weight ≡ Some error) }
        ensures kept { OnErr result (self.new ≡ self.old) }
    {
        if self.homes.len() <= task as usize {
            return Err(TreeError::UnknownTask);
        }
        if !is_weight(weight) {
            return Err(TreeError::OutOfRange);
        }
        self.own_weights[task as usize] = weight;
        Ok(())
    }

    /// Sets the weights that all tasks have themselves, one for each. No share changes.
    pub fn set_own_weights(&mut self, weights: &[u32]) -> Result<(), TreeError>
        ensures set { OnOk result (self.new ≡ with_own_weights self.old weights.now) }
        ensures valid { OnOk result (own_weights_fault self.old weights.now ≡ None) }
        ensures refused { IfErr result
            (λ error. own_weights_fault self.old weights.now ≡ Some error) }
        ensures kept { OnErr result (self.new ≡ self.old) }
    {
        if weights.len() != self.homes.len() {
            return Err(TreeError::UnknownTask);
        }
        if has_bad_own_weight(weights) {
            return Err(TreeError::OutOfRange);
        }
        self.own_weights.copy_from_slice(weights);
        Ok(())
    }

    /// Binds tasks to processors: to each task a mask, one bit a processor. `UnknownTask` if there isn't one for each
    /// task, `OutOfRange` if a mask is 0.
    pub fn bind(&mut self, masks: &[u64]) -> Result<(), TreeError>
        ensures set { OnOk result (self.new ≡ with_masks self.old masks.now) }
        ensures valid { OnOk result (masks_fault self.old masks.now ≡ None) }
        ensures refused { IfErr result (λ error. masks_fault self.old masks.now ≡ Some error) }
        ensures kept { OnErr result (self.new ≡ self.old) }
    {
        if masks.len() != self.homes.len() {
            return Err(TreeError::UnknownTask);
        }
        if has_empty_mask(masks) {
            return Err(TreeError::OutOfRange);
        }
        self.masks.copy_from_slice(masks);
        self.bound = true;
        Ok(())
    }

    /// True if tasks are bound to processors.
    #[inline(always)]
    pub fn binds(&self) -> bool
        ensures { result ≡ binds self.now }
    {
        let bound = self.bound;
        bound
    }

    /// The processors on which a bound task may run, one bit each: none if there is no such task.
    pub fn mask_of(&self, task: u32) -> u64
        ensures { result ≡ mask_of self.now task }
    {
        if self.bound && (task as usize) < self.masks.len() {
            self.masks[task as usize]
        } else {
            0
        }
    }

    /// True if the processor is in the task's mask.
    #[tactic(auto, using(crate::proofs::Masks::has_here, crate::proofs::Masks::has_past))]
    pub fn is_in_mask(&self, task: u32, cpu: u32) -> bool
        ensures { result ≡ is_in_mask self.now task cpu }
    {
        let mask = self.mask_of(task);
        cpu < 64 && mask >> cpu & 1 == 1
    }

    /// The task is active from now on; nothing changes if it is already.
    pub fn activate(&mut self, task: u32)
        requires { task < length self.old.homes }
        ensures { self.new ≡ with_task self.old task true }
    {
        let active = &mut self.active[task as usize];
        if !*active {
            *active = true;
            self.sums.raise(&self.groups, self.homes[task as usize]);
        }
    }

    /// The task is not active from now on; nothing changes if it isn't now.
    pub fn deactivate(&mut self, task: u32)
        requires { task < length self.old.homes }
        ensures { self.new ≡ with_task self.old task false }
    {
        let active = &mut self.active[task as usize];
        if *active {
            *active = false;
            self.sums.lower(&self.groups, self.homes[task as usize]);
        }
    }

    /// The task's share of processor time, itself counted as active, in parts of 10000: rounded down,
    /// but at least 1. `cpu.weight` of cgroup-v2.rst makes the shares.
    pub fn weight_of(&self, task: u32) -> u32
        requires { task < length self.now.homes }
        ensures weight { result ≡ task_weight self.now task }
        ensures least { 1 ≤ result }
        ensures greatest { result ≤ 10000 }
    {
        let tasks = self.active_beside(task);
        weight_in(&self.groups, &self.sums, self.homes[task as usize], tasks)
    }

    /// The task ran for a millisecond: its group used it, and so did each that this lies below.
    #[inline(always)]
    pub fn charge(&mut self, task: u32)
        requires known { task < length self.old.homes }
        requires room { (g : ℕ) → lies_in self.old.groups (home_of self.old task) g ≡ true
            → usage_of self.old g < 2 ^ 63 }
        ensures { self.new ≡ with_use self.old task }
    {
        self.charge_for(task, 1);
    }

    /// The task ran for that many milliseconds: its group used them, and so did each that this lies below.
    #[inline(always)]
    pub fn charge_for(&mut self, task: u32, ms: u64)
        requires known { task < length self.old.homes }
        requires room { (g : ℕ) → lies_in self.old.groups (home_of self.old task) g ≡ true
            → usage_of self.old g + ms ≤ 2 ^ 63 }
        ensures { self.new ≡ with_uses self.old task ms }
    {
        self.usages
            .charge_for(&self.groups, self.homes[task as usize], ms);
    }

    /// A clock before which, from this one on, no period begins.
    #[inline(always)]
    pub fn next_turn(&self, clock: u64) -> u64
        ensures none { NoneBegins self.now clock result }
        ensures even { length self.now.usages ≡ length self.now.groups }
    {
        self.usages.next_turn(clock)
    }

    /// True if a group has a quota. Without one, no task is ever throttled.
    pub fn is_limited(&self) -> bool
        ensures { result ≡ has_quota self.now.groups }
    {
        self.usages.is_limited()
    }

    /// True if the task's group, or one that it lies below, has used all of its quota.
    pub fn throttled(&self, task: u32) -> bool
        requires { task < length self.now.homes }
        ensures { result ≡ is_throttled self.now task }
    {
        self.usages
            .is_throttled(&self.groups, self.homes[task as usize])
    }

    /// The clock shows that many ms: a group whose period begins has used nothing. Returns whether one of them had
    /// used up its quota.
    #[inline(always)]
    pub fn turn(&mut self, clock: u64) -> bool
        ensures turned { self.new ≡ with_turn self.old clock }
        ensures freed { result ≡ frees self.old clock }
    {
        self.usages.turn(&self.groups, clock)
    }

    /// The processor time in ms that the group's tasks and those below it have used in its period.
    pub fn usage(&self, group: u32) -> u64
        requires { group < length self.now.groups }
        ensures { result ≡ usage_of self.now group }
    {
        self.usages.of(&self.groups, group)
    }

    /// Becomes what the other one is, which has as many groups and tasks. No memory is taken.
    pub fn copy_from(&mut self, other: &Tree)
        requires groups { length self.old.groups ≡ length other.now.groups }
        requires tasks { length self.old.homes ≡ length other.now.homes }
        ensures { self.new ≡ other.now }
    {
        copy_all(&mut self.groups, &other.groups);
        self.homes.copy_from_slice(&other.homes);
        self.own_weights.copy_from_slice(&other.own_weights);
        copy_masks(&mut self.masks, &other.masks, other.bound);
        self.bound = other.bound;
        self.active.copy_from_slice(&other.active);
        self.sums.copy_from(&other.sums);
        self.usages.copy_from(&other.usages);
    }

    /// A copy of the tree, in memory of its own.
    pub fn duplicate(&self, alloc: Global) -> Result<Tree, AllocError>
        ensures { IfOk result (λ copy. copy ≡ self.now) }
    {
        Ok(Tree {
            groups: Vec::from_slice(alloc, &self.groups)?,
            homes: Vec::from_slice(alloc, &self.homes)?,
            own_weights: Vec::from_slice(alloc, &self.own_weights)?,
            masks: Vec::from_slice(alloc, &self.masks)?,
            bound: self.bound,
            active: Vec::from_slice(alloc, &self.active)?,
            sums: self.sums.duplicate(alloc)?,
            usages: self.usages.duplicate(alloc)?,
        })
    }

    /// The number of active tasks in the task's group, the task itself counted as active.
    fn active_beside(&self, task: u32) -> u32
        requires { task < length self.now.homes }
        ensures tasks { result
            ≡ active_tasks (with_task self.now task true) (home_of self.now task) }
        ensures some { 1 ≤ result }
        ensures few { result ≤ max_tasks }
    {
        let tasks = self.sums.tasks_in(self.homes[task as usize]);
        if self.active[task as usize] {
            tasks
        } else {
            tasks + 1
        }
    }
}

/// Replaces the masks by the others, of which there are as many, where tasks are bound.
fn copy_masks(masks: &mut Vec<u64>, others: &[u64], are_bound: bool)
    requires { length masks.old.items ≡ length others.now }
    ensures masks { masks_in are_bound masks.new.items ≡ masks_in are_bound others.now }
    ensures count { length masks.new.items ≡ length masks.old.items }
{
    if are_bound {
        masks.copy_from_slice(others);
    }
}
