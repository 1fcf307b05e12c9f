ghost use Rattle.std.specs.Prelude.{◌≡◌, ◌<◌, length, Err, IfOk, IfErr, OnOk};
ghost use Rattle.std.specs.Io.KnownBytes.{Appends};
ghost use Rattle.scxsim_output.specs.Output.{HasFailed, AppendsBeginning};
ghost use Rattle.scxsim_commands.specs.declared.file.TheConstants.{FILE_LIMIT};
ghost use Rattle.scxsim_commands.specs.Outcome.{IfRefused, IsRefused};
ghost use Rattle.scxsim_commands.specs.Text.{IsText};
ghost use Rattle.scxsim_explain.specs.VerdictObjects.{verdict_objects};
ghost use Rattle.scxsim_commands.specs.Verdicts.{are_accepted};
ghost use Rattle.scxsim_commands.specs.Check.{AreVerdicts, IsCheckCause};

use crate::explained::ExplainedPolicy;
use crate::explaining::explained_in;
use crate::verdict_objects::objects_of;
use scxsim_commands::{Fault, Refusal, Verdicts, are_accepted, text};
use scxsim_output::{Out, write_all};
use std::alloc::Global;

/// Verifies each program of the policy file in `bytes`, and writes for each what `check` writes, as one JSON object
/// on a line. The answer is whether all are safe. The verdicts are left for the caller.
///
/// # Errors
///
/// The bytes are refused as a policy file, and then nothing is written, or writing the objects fails.
pub fn check_json<W: Out>(
    alloc: Global,
    bytes: &[u8],
    verdicts: &mut Verdicts,
    out: &mut W,
) -> Result<bool, Fault>
    ensures done { IfOk result (λ answer. AreVerdicts bytes.now verdicts.new
        × (answer ≡ are_accepted verdicts.new)
        × Appends (W.contents out.old) (W.contents out.new) (verdict_objects verdicts.new)) }
    ensures unfailed { OnOk result (W.failure_count out.new ≡ W.failure_count out.old) }

    // A refusal has its cause in the bytes, and comes before any byte is written.
    ensures refused { IfRefused result (IsCheckCause bytes.now) }
    ensures too_large { FILE_LIMIT < length bytes.now
        → result ≡ Err (Fault.Refused Refusal.TooLarge) }
    ensures quiet { IsRefused result → out.new ≡ out.old }

    // The objects are cut off where writing fails.
    ensures cut { result ≡ Err Fault.WriteFailed
        → AreVerdicts bytes.now verdicts.new
        × AppendsBeginning (W.contents out.old) (W.contents out.new)
        (verdict_objects verdicts.new) }
    ensures counted { result ≡ Err Fault.WriteFailed
        → HasFailed (W.failure_count out.old) (W.failure_count out.new) }
{
    let text = text(bytes)?;
    *verdicts = verdicts_in(alloc, text)?;
    let objects = objects_in(alloc, verdicts)?;
    write_all(out, objects.as_slice())?;
    Ok(are_accepted(verdicts))
}

/// The verdicts on the programs of a policy file.
fn verdicts_in(alloc: Global, text: &str) -> Result<Verdicts, Refusal>
    requires { IsText text.now }
    ensures verdicts { IfOk result (AreVerdicts text.now) }
    ensures refused { IfErr result (IsCheckCause text.now) }
{
    match explained_in(alloc, text) {
        Ok(policy) => Ok(verdicts_of(policy)),
        Err(refusal) => Err(refusal),
    }
}

/// The verdicts on the programs of an explained policy.
fn verdicts_of(policy: ExplainedPolicy) -> Verdicts
    ensures { result ≡ policy.verdicts }
{
    policy.verdicts
}

/// The objects of verdicts.
fn objects_in(alloc: Global, verdicts: &Verdicts) -> Result<Vec<u8>, Refusal>
    ensures objects { IfOk result (λ lines. lines.items ≡ verdict_objects verdicts.now) }
    ensures memory { IfErr result (λ refusal. refusal ≡ Refusal.NoMemory) }
{
    match objects_of(alloc, verdicts) {
        Ok(objects) => Ok(objects),
        Err(_) => Err(Refusal::NoMemory),
    }
}
