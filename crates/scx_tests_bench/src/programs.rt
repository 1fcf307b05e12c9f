//! Programs as raw slots and as text: how they are decoded, encoded, assembled, disassembled, verified and
//! run.

ghost use Rattle.std.specs.Prelude.{◌≡◌, [], IfSome};
ghost use Rattle.scx_isa_semantics.specs.declared.callbacks.Callback.TheVariants.{Plain};
ghost use Rattle.scx_vm.specs.Programs.{context};

use crate::Sum;
use scx_asm::{assemble, disassemble};
use scx_isa::{Callback, Program, decode, encode};
use scx_maps::{MapDefs, MapKind, Shape};
use scx_verify::{Fault, Verified, verify};
use scx_vm_run::run_alone;
use std::alloc::Global;

/// One map of one value of 64 bytes.
const VALUE: [Shape; 1] = [Shape {
    entries: 1,
    value_size: 64,
    kind: MapKind::Array,
}];

fn decoded(alloc: Global, bytes: &[u8]) -> Option<Program> {
    decode(alloc, bytes).ok()
}

pub(crate) fn assembled(alloc: Global, text: &str) -> Option<Program> {
    assemble(alloc, text).ok()
}

pub(crate) fn encoded(alloc: Global, program: &Program) -> Option<Vec<u8>> {
    encode(alloc, program).ok()
}

/// The program, if it is accepted for that callback and maps of these shapes.
pub(crate) fn accepted(
    alloc: Global,
    program: Program,
    callback: Callback,
    shapes: &[Shape],
) -> Option<Verified>
    ensures { IfSome result (λ verified. verified.context ≡ context callback shapes.now) }
{
    let defs = MapDefs::new(shapes).ok()?;
    verify(alloc, program, callback, &defs).ok()
}

pub(crate) fn decode_times(alloc: Global, bytes: &[u8], times: u64) -> Sum {
    let mut sum = 0u64;
    for _ in 0..times {
        sum = sum.wrapping_add(decoded(alloc, bytes)?.instructions() as u64);
    }
    Some(sum)
}

pub(crate) fn assemble_times(alloc: Global, text: &str, times: u64) -> Sum {
    let mut sum = 0u64;
    for _ in 0..times {
        sum = sum.wrapping_add(assembled(alloc, text)?.instructions() as u64);
    }
    Some(sum)
}

pub(crate) fn encode_times(alloc: Global, bytes: &[u8], times: u64) -> Sum {
    let program = decoded(alloc, bytes)?;
    encode_again(alloc, &program, times)
}

fn encode_again(alloc: Global, program: &Program, times: u64) -> Sum {
    let mut sum = 0u64;
    for _ in 0..times {
        sum = sum.wrapping_add(encoded(alloc, program)?.len() as u64);
    }
    Some(sum)
}

pub(crate) fn disassemble_times(alloc: Global, bytes: &[u8], times: u64) -> Sum {
    let program = decoded(alloc, bytes)?;
    disassemble_again(alloc, &program, times)
}

fn disassemble_again(alloc: Global, program: &Program, times: u64) -> Sum {
    let mut sum = 0u64;
    for _ in 0..times {
        let text = disassemble(alloc, program).ok()?;
        sum = sum.wrapping_add(text.len() as u64);
    }
    Some(sum)
}

/// Verifies the program that the bytes spell, as init with a map of one value of 64 bytes.
pub(crate) fn verify_init_times(alloc: Global, bytes: &[u8], times: u64) -> Sum {
    verify_times(alloc, bytes, Callback::Init, &VALUE, times)
}

/// Verifies a program `times` times. It is decoded anew each time, since `verify` takes it.
pub(crate) fn verify_times(
    alloc: Global,
    bytes: &[u8],
    callback: Callback,
    shapes: &[Shape],
    times: u64,
) -> Sum {
    let defs = MapDefs::new(shapes).ok()?;
    let mut sum = 0u64;
    for _ in 0..times {
        let program = decoded(alloc, bytes)?;
        sum = sum.wrapping_add(verdict(alloc, program, callback, &defs)?);
    }
    Some(sum)
}

/// A number that depends on the verdict on a program.
fn verdict(alloc: Global, program: Program, callback: Callback, defs: &MapDefs) -> Sum {
    match verify(alloc, program, callback, defs) {
        Ok(verified) => Some(verified.instructions() as u64),
        Err(error) if matches!(error.fault, Fault::NoMemory) => None,
        Err(error) => Some(error.slot as u64),
    }
}

/// Runs the program of the bytes `times` times, as a plain one.
pub(crate) fn run_times(alloc: Global, bytes: &[u8], times: u64) -> Sum {
    let program = decoded(alloc, bytes)?;
    let verified = accepted(alloc, program, Callback::Plain, &[])?;
    run_beside(alloc, &verified, bytes, times)
}

/// Runs it and itself once more in turn, so that no run can be taken for the one before.
fn run_beside(alloc: Global, verified: &Verified, bytes: &[u8], times: u64) -> Sum
    requires { verified.now.context ≡ context Plain [] }
{
    let program = decoded(alloc, bytes)?;
    let again = accepted(alloc, program, Callback::Plain, &[])?;
    let mut sum = 0u64;
    for time in 0..times {
        let done = if time % 2 == 0 {
            run_alone(alloc, verified)
        } else {
            run_alone(alloc, &again)
        };
        sum = sum.wrapping_add(done.r0);
    }
    Some(sum)
}
