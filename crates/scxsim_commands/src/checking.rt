ghost use Rattle.std.specs.Prelude.{◌≡◌, ◌<◌, length, Err, IfOk, IfErr, OnOk};
ghost use Rattle.std.specs.Io.KnownBytes.{Appends};
ghost use Rattle.scxsim_output.specs.Output.{HasFailed, AppendsBeginning};
ghost use Rattle.scxsim_commands.specs.declared.file.TheConstants.{FILE_LIMIT};
ghost use Rattle.scxsim_commands.specs.Outcome.{IfRefused, IsRefused};
ghost use Rattle.scxsim_commands.specs.Text.{IsText};
ghost use Rattle.scxsim_commands.specs.VerdictLines.{verdict_lines};
ghost use Rattle.scxsim_commands.specs.Verdicts.{are_accepted};
ghost use Rattle.scxsim_commands.specs.Check.{AreVerdicts, IsCheckCause};

use crate::refusal::{Fault, FileKind, Refusal};
use crate::texts::text;
use crate::verdict::{Verdicts, are_accepted, verdicts_of};
use crate::verdict_lines::lines_of;
use scx_load_policies::read_policy;
use scxsim_output::{Out, write_all};
use std::alloc::Global;

/// Verifies each program of the policy file in `bytes`, and writes a line for each: that it is safe, with
/// the number of its instructions, or its first fault and the slot. The answer is whether all are safe.
/// The verdicts are left for the caller.
///
/// # Errors
///
/// The bytes are refused as a policy file, and then nothing is written, or writing the lines fails.
pub fn check<W: Out>(
    alloc: Global,
    bytes: &[u8],
    verdicts: &mut Verdicts,
    out: &mut W,
) -> Result<bool, Fault>
    ensures done { IfOk result (λ answer. AreVerdicts bytes.now verdicts.new
        × (answer ≡ are_accepted verdicts.new)
        × Appends (W.contents out.old) (W.contents out.new) (verdict_lines verdicts.new)) }
    ensures unfailed { OnOk result (W.failure_count out.new ≡ W.failure_count out.old) }

    // A refusal has its cause in the bytes, and comes before any byte is written.
    ensures refused { IfRefused result (IsCheckCause bytes.now) }
    ensures too_large { FILE_LIMIT < length bytes.now
        → result ≡ Err (Fault.Refused Refusal.TooLarge) }
    ensures quiet { IsRefused result → out.new ≡ out.old }

    // The lines are cut off where writing fails.
    ensures cut { result ≡ Err Fault.WriteFailed
        → AreVerdicts bytes.now verdicts.new
        × AppendsBeginning (W.contents out.old) (W.contents out.new)
        (verdict_lines verdicts.new) }
    ensures counted { result ≡ Err Fault.WriteFailed
        → HasFailed (W.failure_count out.old) (W.failure_count out.new) }
{
    let text = text(bytes)?;
    *verdicts = verdicts_in(alloc, text)?;
    write_all(out, lines_of(verdicts).as_str().as_bytes())?;
    Ok(are_accepted(verdicts))
}

/// The verdicts on the programs of a policy file.
fn verdicts_in(alloc: Global, text: &str) -> Result<Verdicts, Refusal>
    requires { IsText text.now }
    ensures verdicts { IfOk result (AreVerdicts text.now) }
    ensures refused { IfErr result (IsCheckCause text.now) }
{
    match read_policy(alloc, text) {
        Ok(policy) => verdicts_of(alloc, policy),
        Err(error) => Err(Refusal::of_file(FileKind::Policy, error)),
    }
}
