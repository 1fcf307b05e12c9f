use crate::weights::expect_refusal;
use scx_weights::{Group, TreeError};

macro_rules! limited {
    ($parent:expr, $quota_ms:expr, $period_ms:expr) => {
        Group {
            parent: $parent,
            weight: 100,
            quota_ms: $quota_ms,
            period_ms: $period_ms,
        }
    };
}

/// A group, and what is wrong with it.
type Verdict = (Group, Option<TreeError>);

const LIMITS: [Verdict; 12] = [
    (limited!(None, Some(0), 100), Some(TreeError::OutOfRange)),
    (limited!(None, Some(1), 100), None),
    (limited!(None, Some(1_000_000), 100), None),
    (
        limited!(None, Some(1_000_001), 100),
        Some(TreeError::OutOfRange),
    ),
    (
        limited!(None, Some(u32::MAX), 100),
        Some(TreeError::OutOfRange),
    ),
    (limited!(None, Some(1), 0), Some(TreeError::OutOfRange)),
    (limited!(None, Some(1), 1), None),
    (limited!(None, Some(1), 1000), None),
    (limited!(None, Some(1), 1001), Some(TreeError::OutOfRange)),
    // A group without a quota has periods too.
    (limited!(None, None, 0), Some(TreeError::OutOfRange)),
    (limited!(None, None, 1001), Some(TreeError::OutOfRange)),
    // Of several faults the first in the order of their numbers.
    (limited!(Some(0), Some(0), 0), Some(TreeError::UnknownGroup)),
];

#[test]
fn quotas_and_periods_are_limited(rt: HostRuntime) {
    for (number, &(group, wanted)) in LIMITS.iter().enumerate() {
        expect_refusal(&rt, &[group], &[0], wanted, number);
    }
}

/// The last of four levels has no quota that it may have.
const DEEP: [Group; 4] = [
    limited!(None, None, 100),
    limited!(Some(0), None, 100),
    limited!(Some(1), None, 100),
    limited!(Some(2), Some(0), 100),
];

#[test]
fn a_bad_limit_goes_before_depth(rt: HostRuntime) {
    expect_refusal(&rt, &DEEP, &[0], Some(TreeError::OutOfRange), 0);
}
