use crate::same::expect_same;
use scx_weights::{Group, Tree, TreeError};
use std::process::Abort;

macro_rules! group {
    ($parent:expr, $weight:expr) => {
        Group {
            parent: $parent,
            weight: $weight,
            quota_ms: None,
            period_ms: 100,
        }
    };
}

/// Makes a task active or inactive.
fn set_task(rt: &impl Abort, tree: &mut Tree, task: u32, is_active: bool) {
    assert!(rt; task < tree.tasks());
    if is_active {
        tree.activate(task);
    } else {
        tree.deactivate(task);
    }
}

fn weight_of(rt: &impl Abort, tree: &Tree, task: u32) -> u32 {
    assert!(rt; task < tree.tasks());
    tree.weight_of(task)
}

/// Compares the weights of all tasks.
fn check_weights(rt: &impl Abort, tree: &Tree, weights: &[u32]) {
    assert!(rt; tree.tasks() as usize == weights.len());
    for (task, weight) in weights.iter().enumerate() {
        expect_same(rt, weight_of(rt, tree, task as u32), *weight, task);
    }
}

/// A tree all of whose tasks are asleep.
fn asleep<R: AllocGlobal + Abort>(rt: &R, groups: &[Group], tasks: &[u32]) -> Tree {
    Tree::new(rt.alloc(), groups, tasks).expect(rt, "each task is in a group")
}

fn wake_all(rt: &impl Abort, tree: &mut Tree) {
    for task in 0..tree.tasks() {
        set_task(rt, tree, task, true);
    }
}

/// A tree all of whose tasks are active.
fn awake<R: AllocGlobal + Abort>(rt: &R, groups: &[Group], tasks: &[u32]) -> Tree {
    let mut tree = asleep(rt, groups, tasks);
    wake_all(rt, &mut tree);
    tree
}

/// A group, and one that weighs three times as much.
const ONE_TO_THREE: [Group; 2] = [group!(None, 100), group!(None, 300)];

/// The tree of these groups and tasks is refused for that reason, or made.
pub(crate) fn expect_refusal<R: AllocGlobal + Abort>(
    rt: &R,
    groups: &[Group],
    tasks: &[u32],
    wanted: Option<TreeError>,
    case: usize,
) {
    expect_same(rt, Tree::new(rt.alloc(), groups, tasks).err(), wanted, case);
}

/// A group, the group of a task, and why they are refused: of several faults the first in the order of their
/// numbers.
type Fault = (Group, u32, TreeError);

/// One group and one task that make no tree.
const FAULTY: [Fault; 5] = [
    (group!(None, 1), 1, TreeError::UnknownGroup),
    (group!(Some(0), 1), 0, TreeError::UnknownGroup),
    (group!(Some(7), 1), 0, TreeError::UnknownGroup),
    (group!(None, 0), 0, TreeError::OutOfRange),
    (group!(None, 0), 5, TreeError::UnknownGroup),
];

#[test]
fn a_faulty_group_is_refused(rt: HostRuntime) {
    for (number, &(group, task, error)) in FAULTY.iter().enumerate() {
        expect_refusal(&rt, &[group], &[task], Some(error), number);
    }
}

/// Two groups and one task that make no tree.
const FAULTY_PAIRS: [([Group; 2], u32, TreeError); 3] = [
    (
        [group!(Some(1), 1), group!(None, 1)],
        0,
        TreeError::UnknownGroup,
    ),
    (
        [group!(None, 1), group!(None, 10_001)],
        0,
        TreeError::OutOfRange,
    ),
    (
        [group!(None, 1), group!(Some(0), 0)],
        0,
        TreeError::OutOfRange,
    ),
];

#[test]
fn faulty_pairs_of_groups_are_refused(rt: HostRuntime) {
    for (number, &(groups, task, error)) in FAULTY_PAIRS.iter().enumerate() {
        expect_refusal(&rt, &groups, &[task], Some(error), number);
    }
}

const CHAIN: [Group; 4] = [
    group!(None, 1),
    group!(Some(0), 1),
    group!(Some(1), 1),
    group!(Some(2), 1),
];

/// Four groups, of which the last is too deep, and one task.
const FAULTY_CHAINS: [([Group; 4], u32, TreeError); 3] = [
    (CHAIN, 3, TreeError::TooDeep),
    (CHAIN, 0, TreeError::TooDeep),
    (
        [
            group!(None, 0),
            group!(Some(0), 1),
            group!(Some(1), 1),
            group!(Some(2), 1),
        ],
        3,
        TreeError::OutOfRange,
    ),
];

#[test]
fn faulty_chains_of_groups_are_refused(rt: HostRuntime) {
    for (number, &(groups, task, error)) in FAULTY_CHAINS.iter().enumerate() {
        expect_refusal(&rt, &groups, &[task], Some(error), number);
    }
}

/// Groups, the groups of tasks, and what is wrong with them.
const FAULTY_LISTS: [(&[Group], &[u32], TreeError); 4] = [
    (&[], &[0], TreeError::UnknownGroup),
    (&[], &[], TreeError::OutOfRange),
    (&[group!(None, 1)], &[], TreeError::OutOfRange),
    (
        &[group!(None, 1), group!(Some(0), 1), group!(Some(1), 1)],
        &[2, 1],
        TreeError::NotLeaf,
    ),
];

#[test]
fn faulty_lists_are_refused(rt: HostRuntime) {
    for (number, &(groups, tasks, error)) in FAULTY_LISTS.iter().enumerate() {
        expect_refusal(&rt, groups, tasks, Some(error), number);
    }
}

/// Groups and tasks, and what is wrong with their number, if anything.
type Size = (&'static [Group], &'static [u32], Option<TreeError>);

const HEAVY: Group = group!(None, 10_000);

/// Numbers of groups and of tasks at their limits and past them.
const SIZES: [Size; 3] = [
    (&[HEAVY; 256], &[0; 1024], None),
    (&[HEAVY; 257], &[0], Some(TreeError::OutOfRange)),
    (&[HEAVY], &[0; 1025], Some(TreeError::OutOfRange)),
];

#[test]
fn groups_and_tasks_are_limited(rt: HostRuntime) {
    for &(groups, tasks, wanted) in &SIZES {
        expect_refusal(&rt, groups, tasks, wanted, tasks.len());
    }
}

/// A weight for a group, and what is answered.
type Setting = (u32, u32, Result<(), TreeError>);

fn set_weights(rt: &impl Abort, tree: &mut Tree, rows: &[Setting]) {
    for &(group, weight, wanted) in rows {
        expect_same(rt, tree.set_weight(group, weight), wanted, (group, weight));
    }
}

const REFUSED: [Setting; 4] = [
    (2, 100, Err(TreeError::UnknownGroup)),
    (2, 0, Err(TreeError::UnknownGroup)),
    (0, 0, Err(TreeError::OutOfRange)),
    (0, 10_001, Err(TreeError::OutOfRange)),
];

const MOST_AND_LEAST: [Setting; 2] = [(0, 10_000, Ok(())), (1, 1, Ok(()))];

fn reach_limits(rt: &impl Abort, tree: &mut Tree) {
    set_weights(rt, tree, &REFUSED);
    check_weights(rt, tree, &[2500, 7500]);
    set_weights(rt, tree, &MOST_AND_LEAST);
    check_weights(rt, tree, &[9999, 1]);
}

#[test]
fn weights_are_limited(rt: HostRuntime) {
    let mut tree = awake(&rt, &ONE_TO_THREE, &[0, 1]);
    reach_limits(&rt, &mut tree);
    drop(tree);
}
