ghost use Rattle.std.specs.Prelude.{◌≡◌, ℕ, ◌<◌, length, true, Err, IfOk, IfErr, OnOk};
ghost use Rattle.std.specs.Io.KnownBytes.{Appends};
ghost use Rattle.scx_vm.specs.declared.ending.Done.{Done};
ghost use Rattle.scxsim_output.specs.Output.{HasFailed, AppendsBeginning};
ghost use Rattle.scxsim_commands.specs.Outcome.{IfRefused, IsRefused};
ghost use Rattle.scxsim_commands.specs.Exec.{HasRun, IsExecCause};
ghost use Rattle.scxsim_commands.specs.Lines as lines;

use crate::file::FILE_LIMIT;
use crate::lines::done_line;
use crate::refusal::{Fault, Refusal};
use scx_isa::{Callback, decode};
use scx_maps::MapDefs;
use scx_verify::verify;
use scx_vm::Done;
use scx_vm_run::run_alone;
use scxsim_output::{Out, write_all};
use std::alloc::Global;

/// Verifies the program that `bytes` spell as a plain one with no maps, runs it, and writes the line
/// that says what it answered. The answer is true.
///
/// # Errors
///
/// The bytes are refused, and then nothing is written, or writing the line fails.
pub fn exec<W: Out>(alloc: Global, bytes: &[u8], out: &mut W) -> Result<bool, Fault>
    ensures done { IfOk result (λ answer. (answer ≡ true) × (done : Done) × HasRun bytes.now done
        × Appends (W.contents out.old) (W.contents out.new) (lines.done_line done.r0 done.steps)) }
    ensures unfailed { OnOk result (W.failure_count out.new ≡ W.failure_count out.old) }

    // A refusal has its cause in the bytes, and comes before any byte is written.
    ensures refused { IfRefused result (IsExecCause bytes.now) }
    ensures too_large { FILE_LIMIT < length bytes.now
        → result ≡ Err (Fault.Refused Refusal.TooLarge) }
    ensures quiet { IsRefused result → out.new ≡ out.old }

    // The line of the run is cut off where writing fails.
    ensures cut { result ≡ Err Fault.WriteFailed → (done : Done) × HasRun bytes.now done
        × AppendsBeginning (W.contents out.old) (W.contents out.new)
        (lines.done_line done.r0 done.steps) }
    ensures counted { result ≡ Err Fault.WriteFailed
        → HasFailed (W.failure_count out.old) (W.failure_count out.new) }
{
    let done = run(alloc, bytes)?;
    write_all(out, done_line(done.r0, done.steps).as_str().as_bytes())?;
    Ok(true)
}

/// Runs the program that `bytes` spell, once it is verified.
#[tactic(auto, using(scx_isa::proofs::Programs::program_has_length))]
fn run(alloc: Global, bytes: &[u8]) -> Result<Done, Refusal>
    ensures done { IfOk result (HasRun bytes.now) }
    ensures refused { IfErr result (IsExecCause bytes.now) }
    ensures too_large { FILE_LIMIT < length bytes.now → result ≡ Err Refusal.TooLarge }
{
    if bytes.len() > FILE_LIMIT {
        return Err(Refusal::TooLarge);
    }
    let program = decode(alloc, bytes)?;
    let verified = verify(alloc, program, Callback::Plain, &MapDefs::none())?;
    Ok(run_alone(alloc, &verified))
}
