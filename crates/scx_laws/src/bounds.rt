ghost use Rattle.scx_laws.specs.Bounds.{WaitsAtMost, StaysInForce};

/// On one CPU with n tasks, under a policy of one line with slices of s ms and a timeout of at least
/// (n - 2) * s + max(s, 20) ms, by plain rules and without quotas: no task waits longer than that, and the policy stays
/// in force, if each millisecond has a tick and then the clock. It has no `select_cpu`, as `fifo` and `short_slices`. The
/// function does nothing: its contract is the law.
pub fn waits_are_bounded()
    ensures wait { WaitsAtMost }
    ensures force { StaysInForce }
{}
