ghost use Rattle.std.specs.Prelude.{◌≡◌, ◌<◌, true, length, slice_index_or};
ghost use Rattle.scx_weights.specs.declared.group.Group.{Group};
ghost use Rattle.scx_load_replay.specs.WorkloadFiles.{HasSameParts};

use scx_load_workloads::Workload;
use scx_weights::Group;

/// True if both have the same CPUs, seed, groups and tasks in groups, and each task the same weight and mask.
pub(crate) fn has_same_parts(file: &Workload, workload: &Workload) -> bool
    ensures { result ≡ true → HasSameParts file.now workload.now }
{
    file.cpus() == workload.cpus()
        && file.seed() == workload.seed()
        && are_same_groups(file.groups(), workload.groups())
        && file.tasks() == workload.tasks()
        && file.own_weights() == workload.own_weights()
        && file.masks() == workload.masks()
}

#[tactic(auto, using(crate::proofs::SameParts::same_lists))]
fn are_same_groups(groups: &[Group], others: &[Group]) -> bool
    ensures { result ≡ true → groups.now ≡ others.now }
{
    if groups.len() != others.len() {
        return false;
    }
    for at in 0..groups.len() {
        if !are_same_at(groups, others, at) {
            return false;
        }
    }
    true
}

/// True if the group of that number is the same in both lists.
fn are_same_at(groups: &[Group], others: &[Group], at: usize) -> bool
    ensures first { result ≡ true → at < length groups.now }
    ensures second { result ≡ true → at < length others.now }
    ensures same { result ≡ true → (d : Group) →
        slice_index_or groups.now at d ≡ slice_index_or others.now at d }
{
    at < groups.len() && at < others.len() && is_same_group(groups[at], others[at])
}

#[tactic(auto, using(crate::proofs::SameParts::same_group))]
fn is_same_group(group: Group, other: Group) -> bool
    ensures { result ≡ true → group ≡ other }
{
    group.parent == other.parent
        && group.weight == other.weight
        && group.quota_ms == other.quota_ms
        && group.period_ms == other.period_ms
}
