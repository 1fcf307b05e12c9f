//! Outputs that fail at any of their writes, by an error or by taking nothing, and ones that take byte by byte.

use super::memory::{Limits, Memory};
use super::texts::{SHORT_SLICES, TWO_TASKS};
use scxsim_commands::Fault;
use scxsim_output::Counted;
use scxsim_runs::Nobody;
use scxsim_simulation::{report, simulate};
use std::alloc::Global;
use std::process::Abort;

const TRACE: &str = "0 wake a
0 insert a queue 0
0 move a local 0
0 run a cpu 0
0 wake b
0 insert b queue 0
1 move b local 0
1 stop a cpu 0
1 insert a queue 0
1 run b cpu 0
3 move a local 0
3 stop b cpu 0
3 insert b queue 0
3 run a cpu 0
";

const REPORT: &str = "task a run 2 share 5000
task b run 2 share 5000
total 4
policy in force
";

/// The trace of the two tasks, or their report.
fn write_all(alloc: Global, is_trace: bool, memory: &mut Memory) -> Result<bool, Fault> {
    let mut out = Counted::new(memory);
    if is_trace {
        simulate(alloc, SHORT_SLICES, TWO_TASKS, &mut Nobody, &mut out)
    } else {
        report(alloc, SHORT_SLICES, TWO_TASKS, &mut Nobody, &mut out)
    }
}

/// The number of calls that write the whole text to an output that never fails.
fn count_calls<R: AllocGlobal + Abort>(rt: &R, is_trace: bool, most: usize, whole: &[u8]) -> usize {
    let mut memory = Memory::by(rt.alloc(), Limits::taking(most));
    let outcome = write_all(rt.alloc(), is_trace, &mut memory);
    assert!(rt; outcome == Ok(true) && memory.bytes.as_slice() == whole);
    memory.calls
}

/// One that fails has a beginning of it.
fn expect_cut<R: AllocGlobal + Abort>(rt: &R, is_trace: bool, limits: Limits, whole: &[u8]) {
    let mut memory = Memory::by(rt.alloc(), limits);
    let outcome = write_all(rt.alloc(), is_trace, &mut memory);
    let bytes = memory.bytes.as_slice();
    assert!(rt; outcome == Err(Fault::WriteFailed));
    assert!(rt; bytes.len() < whole.len() && whole.starts_with(bytes));
}

fn cut_everywhere<R: AllocGlobal + Abort>(rt: &R, is_trace: bool, most: usize, whole: &[u8]) {
    let calls = count_calls(rt, is_trace, most, whole);
    for fails_at in 0..calls {
        for has_error in [true, false] {
            let limits = Limits {
                most,
                fails_at,
                has_error,
            };
            expect_cut(rt, is_trace, limits, whole);
        }
    }
}

#[test]
fn each_write_may_fail(rt: HostRuntime) {
    for most in [1, 7, usize::MAX] {
        cut_everywhere(&rt, true, most, TRACE.as_bytes());
        cut_everywhere(&rt, false, most, REPORT.as_bytes());
    }
}
