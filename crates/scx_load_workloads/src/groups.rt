//! The groups of a workload file.
ghost use Rattle.std.specs.Prelude.{◌≡◌, ◌+◌, ◌<◌, ◌≤◌, ◌++◌, ◌∷◌, ◌||◌, [], None, Some, ℕ, false, codes, length, slice_index_or, IfOk, IfSome, OnOk, IfErr};
ghost use Rattle.toml.specs.View.{view, table_view, items_view};
ghost use Rattle.scx_load_files.specs.declared.fault.LoadError.TheVariants.{NoMemory};
ghost use Rattle.scx_load_files.specs.Faults.{Gives};
ghost use Rattle.scx_load_files.specs.Paths.{below};
ghost use Rattle.scx_load_files.specs.Values.{required, optional};
ghost use Rattle.scx_weights.specs.Hierarchy.{parent_of};
ghost use Rattle.scx_weights.specs.Refusals.{above, is_parent};
ghost use Rattle.scx_load_workloads.specs.Reading.{index_of, new_name, is_deep, fold_from};
ghost use Rattle.scx_load_workloads.specs.KeptNames.{texts};

use crate::elements::{integer_or, some_elements};
use crate::limit::read_limit;
use crate::names::Names;
use scx_load_files::{Cause, Limits, LoadError, Section, element_path, refused};
use scx_weights::{Group, MAX_GROUPS, MAX_WEIGHT, MIN_WEIGHT};
use std::alloc::Global;
use std::marker::Model;
use toml::Value;

/// Weights of groups (Linux Documentation/admin-guide/cgroup-v2.rst, `cpu.weight`).
pub(crate) const WEIGHT: Limits = Limits {
    least: MIN_WEIGHT,
    most: MAX_WEIGHT,
};

const DEFAULT_WEIGHT: u32 = 100;

/// The groups that were read so far.
#[derive(Drop)]
pub struct Groups {
    names: Names,
    groups: Vec<Group>,
    /// True at the number of each group that is the parent of another.
    parents: Vec<bool>,
}

impl Model for Groups {
    ghost use Rattle.scx_load_workloads.specs.Reading.{GroupList};
    ghost use Rattle.scx_load_workloads.specs.Kept.{groups_of, AreGroups};

    ghost Value = { GroupList };

    ghost view = { groups_of };

    ghost invariant = { AreGroups };
}

impl Groups {
    ghost use Rattle.scx_load_workloads.specs.Reading.{no_groups, groups_in, group_at, with_group, group_named, parent_named, leaf_named};

    /// The groups of a file.
    #[tactic(auto, using(crate::proofs::Each::goes_on, crate::proofs::Each::ends, crate::proofs::Each::is_done))]
    pub(crate) fn read(alloc: Global, file: Section<'_>) -> Result<Groups, LoadError>
        requires { file.path.now ≡ [] }
        ensures { Gives (λ g. g) result (groups_in (table_view file.entry.table.now)) }
    {
        let values = some_elements(alloc, file, "group", MAX_GROUPS)?;
        let mut groups = Groups::none(alloc);
        for (number, value) in values.iter().enumerate() {
            groups.push_element(alloc, number, value)?;
        }
        Ok(groups)
    }

    fn none(alloc: Global) -> Groups
        ensures { result ≡ no_groups }
    {
        Groups {
            names: Names::none(alloc),
            groups: Vec::new(alloc),
            parents: Vec::new(alloc),
        }
    }

    /// Adds the group that an element says.
    fn push_element(&mut self, alloc: Global, number: usize, value: &Value) -> Result<(), LoadError>
        requires { length self.old.groups < 256 }
        ensures groups { Gives (λ _. self.new) result
            (group_at self.old number (view value.now)) }
        ensures count { OnOk result (length self.new.groups ≡ length self.old.groups + 1) }
    {
        let path = element_path(alloc, "group", number)?;
        let section = Section::of(alloc, &path, value)?;
        let (name, group) = self.read_group(alloc, section)?;
        self.push(alloc, name, group)
    }

    /// The name and the group that an element says.
    fn read_group<'a>(
        &self,
        alloc: Global,
        section: Section<'a>,
    ) -> Result<(&'a str, Group), LoadError>
        ensures group { Gives (λ read. (record {
          names = self.now.names ++ read.0.now ∷ [];
          groups = self.now.groups ++ read.1 ∷ [];
        })) result
            (with_group self.now section.entry.path.now (table_view section.entry.table.now)) }
        ensures new { IfOk result (λ read. index_of self.now.names read.0.now ≡ None) }
        ensures parent { IfOk result
            (λ read. IfSome read.1.parent (λ p. p < length self.now.groups)) }
    {
        let name = new_name(alloc, &self.names, section)?;
        let weight = integer_or(alloc, section, "weight", WEIGHT, DEFAULT_WEIGHT)?;
        let parent = self.parent(alloc, section)?;
        let limit = read_limit(alloc, section)?;
        let group = Group {
            parent,
            weight,
            quota_ms: limit.quota_ms,
            period_ms: limit.period_ms,
        };
        Ok((name, group))
    }

    #[tactic(auto, using(crate::proofs::Parents::one_more))]
    fn push(&mut self, alloc: Global, name: &str, group: Group) -> Result<(), LoadError>
        requires few { length self.old.groups < 256 }
        requires new { index_of self.old.names name.now ≡ None }
        requires parent { IfSome group.parent (λ p. p < length self.old.groups) }
        ensures groups { OnOk result
            (self.new
            ≡ (record {
              names = self.old.names ++ name.now ∷ [];
              groups = self.old.groups ++ group
                  ∷ [];
            })) }
        ensures memory { IfErr result (λ e. e ≡ NoMemory) }
    {
        self.groups.reserve(1)?;
        self.parents.reserve(1)?;
        self.names.push(alloc, name)?;
        mark(&mut self.parents, group.parent);
        self.parents.push_reserved(false);
        self.groups.push_reserved(group);
        Ok(())
    }

    /// The parent that an element names; it may have none. `NoSuchGroup` or `TooDeep`.
    fn parent(&self, alloc: Global, section: Section<'_>) -> Result<Option<u32>, LoadError>
        ensures parent { Gives (λ p. p) result
            (optional (parent_named self.now) None section.entry.path.now (codes "parent")
            (table_view section.entry.table.now)) }
        ensures known { IfOk result (λ p. IfSome p (λ n. n < length self.now.groups)) }
    {
        match section.value("parent") {
            Some(value) => {
                let parent = self.named_by(alloc, section, "parent", value)?;
                if is_deep(&self.groups, parent) {
                    return refused(alloc, section.path, "parent", Cause::TooDeep);
                }
                Ok(Some(parent))
            }
            None => Ok(None),
        }
    }

    /// The group that the value at a key names. `WrongType` or `NoSuchGroup`.
    fn named_by(
        &self,
        alloc: Global,
        section: Section<'_>,
        key: &str,
        value: &Value,
    ) -> Result<u32, LoadError>
        ensures number { Gives (λ n. n) result
            (group_named self.now.names (below section.entry.path.now key.now) (view value.now)) }
        ensures known { IfOk result (λ n. n < length self.now.groups) }
    {
        let name = section.text_in(alloc, key, value)?;
        match self.names.index_of(name) {
            Some(group) => Ok(group as u32),
            None => refused(alloc, section.path, key, Cause::NoSuchGroup),
        }
    }

    /// The group that an element names. `Missing`, `WrongType` or `NoSuchGroup`.
    pub(crate) fn named(&self, alloc: Global, section: Section<'_>) -> Result<u32, LoadError>
        ensures number { Gives (λ n. n) result
            (required (group_named self.now.names) section.entry.path.now (codes "group")
            (table_view section.entry.table.now)) }
        ensures known { IfOk result (λ n. n < length self.now.groups) }
    {
        match section.value("group") {
            Some(value) => self.named_by(alloc, section, "group", value),
            None => refused(alloc, section.path, "group", Cause::Missing),
        }
    }

    /// The group that a task names, which has no groups below it. `Missing`, `WrongType`, `NoSuchGroup`
    /// or `NotALeaf`.
    pub(crate) fn leaf(&self, alloc: Global, section: Section<'_>) -> Result<u32, LoadError>
        ensures { Gives (λ n. n) result
            (required (leaf_named self.now) section.entry.path.now (codes "group")
            (table_view section.entry.table.now)) }
    {
        let group = self.named(alloc, section)?;
        if self.parents[group as usize] {
            return refused(alloc, section.path, "group", Cause::NotALeaf);
        }
        Ok(group)
    }

    pub(crate) fn into_parts(self) -> (Vec<Group>, Vec<String>)
        ensures groups { result.0.items ≡ self.groups }
        ensures names { texts result.1.items ≡ self.names }
        ensures even { length self.names ≡ length self.groups }
    {
        let Groups {
            names,
            groups,
            parents: _parents,
        } = self;
        (groups, names.into_list())
    }
}

/// The name of an element, which is none of these names. `Missing`, `WrongType`, `BadName` or `Twice`.
pub(crate) fn new_name<'a>(
    alloc: Global,
    names: &Names,
    section: Section<'a>,
) -> Result<&'a str, LoadError>
    ensures name { Gives (λ t. t.now) result
        (new_name names.now section.entry.path.now (table_view section.entry.table.now)) }
    ensures new { IfOk result (λ t. index_of names.now t.now ≡ None) }
{
    let name = section.name(alloc, "name")?;
    match names.index_of(name) {
        Some(_) => refused(alloc, section.path, "name", Cause::Twice),
        None => Ok(name),
    }
}

fn parent_of(groups: &[Group], group: u32) -> Option<u32>
    ensures { result ≡ parent_of groups.now group }
{
    groups.get(group as usize)?.parent
}

/// The group two levels above.
fn two_above(groups: &[Group], group: u32) -> Option<u32>
    ensures { result ≡ above groups.now 2 (Some group) }
{
    let parent = parent_of(groups, group)?;
    parent_of(groups, parent)
}

/// True if a group below this one would be too deep.
fn is_deep(groups: &[Group], parent: u32) -> bool
    ensures { result ≡ is_deep groups.now parent }
{
    two_above(groups, parent).is_some()
}

/// Marks a parent.
#[tactic(auto, using(crate::proofs::Parents::marked))]
fn mark(parents: &mut [bool], parent: Option<u32>)
    requires { IfSome parent (λ p. p < length parents.old) }
    ensures marks { (k : ℕ)
        → slice_index_or parents.new k false
        ≡ (slice_index_or parents.old k false || is_parent k parent) }
    ensures count { length parents.new ≡ length parents.old }
{
    if let Some(parent) = parent {
        parents[parent as usize] = true;
    }
}
