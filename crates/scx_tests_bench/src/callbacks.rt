//! The callbacks of scx_simple and a program that counts, with one map of one element of eight bytes: each
//! is verified, or run, as often as is wanted.

ghost use Rattle.scx_isa_semantics.specs.Arguments.{FitsCallback};
ghost use Rattle.scx_vm.specs.Arguments as values;

use crate::Sum;
use crate::programs::{accepted, assembled, encoded, verify_times};
use scx_isa::{Callback, TaskId};
use scx_maps::{MapKind, Maps, Shape};
use scx_tests_examples::{OneTask, WITHOUT_SELECT_CPU};
use scx_verify::Verified;
use scx_vm::{Arg, Args};
use scx_vm_run::{Core, run_on};
use std::alloc::Global;

/// Adds to the value of map 0, eight times.
pub const COUNTING: &str = "*(u32 *)(r10 - 4) = 0
r2 = r10
r2 += -4
r1 = map 0
call 1
if r0 == 0 goto out
r1 = *(u64 *)(r0 + 0)
r1 += 1
*(u64 *)(r0 + 0) = r1
r1 = *(u64 *)(r0 + 0)
r1 += 2
*(u64 *)(r0 + 0) = r1
r1 = *(u64 *)(r0 + 0)
r1 += 3
*(u64 *)(r0 + 0) = r1
r1 = *(u64 *)(r0 + 0)
r1 += 4
*(u64 *)(r0 + 0) = r1
r1 = *(u64 *)(r0 + 0)
r1 += 5
*(u64 *)(r0 + 0) = r1
r1 = *(u64 *)(r0 + 0)
r1 += 6
*(u64 *)(r0 + 0) = r1
r1 = *(u64 *)(r0 + 0)
r1 += 7
*(u64 *)(r0 + 0) = r1
r1 = *(u64 *)(r0 + 0)
r1 += 8
*(u64 *)(r0 + 0) = r1
out:
r0 = 0
exit
";

/// One map of one element of eight bytes.
const CLOCK: [Shape; 1] = [Shape {
    entries: 1,
    value_size: 8,
    kind: MapKind::Array,
}];

/// Verifies each callback `times` times.
pub(crate) fn verify_callbacks(alloc: Global, times: u64) -> Sum {
    let mut sum = 0u64;
    for (callback, text) in WITHOUT_SELECT_CPU {
        sum = sum.wrapping_add(verify_one(alloc, callback, text, times)?);
    }
    Some(sum)
}

/// Verifies a callback `times` times.
fn verify_one(alloc: Global, callback: Callback, text: &str, times: u64) -> Sum {
    let bytes = slots_of(alloc, text)?;
    verify_times(alloc, bytes.as_slice(), callback, &CLOCK, times)
}

/// The raw slots of the program of a text.
fn slots_of(alloc: Global, text: &str) -> Option<Vec<u8>> {
    let program = assembled(alloc, text)?;
    encoded(alloc, &program)
}

/// Runs each callback `times` times.
pub(crate) fn run_callbacks(alloc: Global, times: u64) -> Sum {
    let mut sum = 0u64;
    for (callback, text) in WITHOUT_SELECT_CPU {
        sum = sum.wrapping_add(run_one(alloc, callback, text, times)?);
    }
    Some(sum)
}

/// Runs the program that counts `times` times.
pub(crate) fn run_counting(alloc: Global, times: u64) -> Sum {
    run_one(alloc, Callback::Init, COUNTING, times)
}

/// Runs a callback `times` times.
fn run_one(alloc: Global, callback: Callback, text: &str, times: u64) -> Sum {
    let program = assembled(alloc, text)?;
    let verified = accepted(alloc, program, callback, &CLOCK)?;
    run_times(alloc, &verified, times)
}

/// Runs a program `times` times, over maps and a host of its own, which keep what a run leaves.
fn run_times(alloc: Global, verified: &Verified, times: u64) -> Sum {
    let mut maps = Maps::new(alloc, verified.defs()).ok()?;
    let mut host = OneTask::new();
    let mut core = Core::new();
    let arguments = given(verified.callback());
    // The host has room for as many calls as can be counted.
    let _instructions = verified.instructions();
    let mut sum = 0u64;
    for _ in 0..times {
        let done = run_on(&mut core, verified, arguments, &mut maps, &mut host);
        sum = sum.wrapping_add(done.steps as u64).wrapping_add(host.vtime);
    }
    Some(sum)
}

/// The arguments of a callback.
fn given(callback: Callback) -> Args
    ensures { FitsCallback callback (values.program_arguments result) }
{
    let first = match callback {
        Callback::Init => return Args::NONE,
        Callback::Dispatch | Callback::UpdateIdle | Callback::Timer => Arg::Num(0),
        _ => Arg::Task(TaskId(3)),
    };
    Args {
        first,
        second: Arg::Num(0),
        third: Arg::Num(0),
    }
}
