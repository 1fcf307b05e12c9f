ghost use Rattle.std.specs.Prelude.{◌≡◌, ◌<◌, None, length, not};
ghost use Rattle.scx_weights.specs.Hierarchy.{parent_of};
ghost use Rattle.scx_weights.specs.Refusals.{max_weight, is_outside};

/// The most groups of a tree.
pub const MAX_GROUPS: usize = 256;

/// The most tasks of a tree.
pub const MAX_TASKS: usize = 1024;

/// The greatest depth of a group; those at the top have depth 1.
pub const MAX_DEPTH: usize = 3;

/// The least weight of a group, and of a task itself. Weights have no unit: they are compared with those of the groups beside it.
pub const MIN_WEIGHT: u32 = 1;

/// The greatest weight of a group, and of a task itself.
pub const MAX_WEIGHT: u32 = 10_000;

/// The weight of a task for which none is given: a kernel's for nice 0.
pub const DEFAULT_OWN_WEIGHT: u32 = 100;

/// The greatest quota of a group, in ms; the least is 1.
pub const MAX_QUOTA_MS: u32 = 1_000_000;

/// The longest period of a group, in ms; the shortest is 1.
pub const MAX_PERIOD_MS: u32 = 1000;

/// The length of the periods of a group that names none, in ms.
pub const DEFAULT_PERIOD_MS: u32 = 100;

/// A group of tasks, or of groups.
#[derive(Clone, Copy)]
pub struct Group {
    /// The number of its parent in the list of groups; none at the top.
    pub parent: Option<u32>,
    /// Its `cpu.weight`, 1 to 10000.
    pub weight: u32,
    /// The most processor time that its tasks and those below it may use in a period, in ms, 1 to
    /// 1,000,000; none for any time. With the period it is the group's `cpu.max`.
    pub quota_ms: Option<u32>,
    /// The length of its periods in ms, 1 to 1000.
    pub period_ms: u32,
}

impl Group {
    /// A group without a quota, whose periods are of the default length.
    pub fn new(parent: Option<u32>, weight: u32) -> Group
        ensures { result
            ≡ (record { parent = parent; weight = weight; quota_ms = None; period_ms = 100 }) }
    {
        Group {
            parent,
            weight,
            quota_ms: None,
            period_ms: DEFAULT_PERIOD_MS,
        }
    }
}

/// True if a group may have that weight, or a task itself.
pub fn is_weight(weight: u32) -> bool
    ensures { result ≡ not (is_outside max_weight weight) }
{
    MIN_WEIGHT <= weight && weight <= MAX_WEIGHT
}

/// The parent of the group, if the group is in the list and has one.
pub(crate) fn parent_of(groups: &[Group], group: u32) -> Option<u32>
    ensures { result ≡ parent_of groups.now group }
{
    groups.get(group as usize)?.parent
}
