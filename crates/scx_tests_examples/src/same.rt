use std::fmt::Debug;
use std::process::Abort;

/// Compares what a case gives with what is wanted of it.
pub(crate) fn expect_same<T: PartialEq + Debug + Drop, C: Debug + Drop>(
    rt: &impl Abort,
    found: T,
    wanted: T,
    case: C,
) {
    assert_eq!(rt; found, wanted, "{case:?}");
}
