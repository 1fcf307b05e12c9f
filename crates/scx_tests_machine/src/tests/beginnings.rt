//! Files that end too early.

use super::memory::Memory;
use scxsim_commands::{Fault, finish, text};
use scxsim_output::{Counted, Out};
use scxsim_runs::Nobody;
use scxsim_simulation::simulate;
use std::alloc::Global;
use std::process::Abort;

/// A policy with each sort of key, and letters of two bytes.
const POLICY: &str = "# é
name = \"s2\"
timeout_ms = 5
map = [{ entries = 1, value_size = 8 }]
[code]
init = \"\"\"
r1 = 0 # ü
call 1001
exit
\"\"\"
[slots]
running = '95 00 00 00 00 00 00 00'
";

/// A workload with each sort of key.
const WORKLOAD: &str = "# é
cpus = 2
ms = 10
[[group]]
name = \"g\"
[[group]]
name = \"h\"
parent = \"g\"
weight = 1_000
[[task]]
name = \"a\"
group = \"h\"
start = 1
run = 2
sleep = 3
[[change]]
at = 4
group = \"g\"
weight = 5
";

/// Simulates as the program does with the bytes of its files.
fn simulate_bytes<W: Out>(
    alloc: Global,
    policy: &[u8],
    workload: &[u8],
    out: &mut W,
) -> Result<bool, Fault> {
    let policy = text(policy)?;
    let workload = text(workload)?;
    simulate(alloc, policy, workload, &mut Nobody, out)
}

/// The status, and what was written.
pub(crate) fn run<R: AllocGlobal + Abort>(rt: &R, policy: &[u8], workload: &[u8]) -> (u8, Memory) {
    let mut memory = Memory::new(rt.alloc());
    let mut out = Counted::new(&mut memory);
    let outcome = simulate_bytes(rt.alloc(), policy, workload, &mut out);
    let status = finish(outcome, &mut out);
    (status, memory)
}

fn is_refusal(bytes: &[u8]) -> bool {
    let lines = bytes.iter().filter(|byte| **byte == b'\n').count();
    bytes.starts_with(b"refused: ") && bytes.ends_with(b"\n") && lines == 1
}

/// The files are accepted, or refused in one line, but not as out of memory.
fn expect_answer<R: AllocGlobal + Abort>(rt: &R, policy: &[u8], workload: &[u8]) {
    let (status, memory) = run(rt, policy, workload);
    let bytes = memory.bytes.as_slice();
    let is_refused = is_refusal(bytes);
    assert!(rt; is_refused == (status == 1) && status <= 1);
    assert!(rt; bytes != b"refused: no memory\n".as_slice());
}

#[test]
fn each_beginning_is_answered(rt: HostRuntime) {
    let (policy, workload) = (POLICY.as_bytes(), WORKLOAD.as_bytes());
    for length in 0..=policy.len() {
        expect_answer(&rt, &policy[..length], workload);
    }
    for length in 0..=workload.len() {
        expect_answer(&rt, policy, &workload[..length]);
    }
}
