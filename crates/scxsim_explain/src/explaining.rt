ghost use Rattle.std.specs.Prelude.{◌≡◌, ◌<◌, ℕ, List, length, map, Err, IfOk, IfErr, OnOk, OnErr};
ghost use Rattle.std.specs.Io.KnownBytes.{Appends};
ghost use Rattle.scxsim_output.specs.Output.{HasFailed};
ghost use Rattle.scxsim_commands.specs.declared.file.TheConstants.{FILE_LIMIT};
ghost use Rattle.scxsim_commands.specs.Outcome.{IfRefused, IsRefused};
ghost use Rattle.scxsim_commands.specs.Text.{IsText};
ghost use Rattle.scxsim_commands.specs.Verdicts.{Verdicts, are_accepted};
ghost use Rattle.scxsim_commands.specs.Check.{AreVerdicts, IsCheckCause};
ghost use Rattle.scxsim_explain.specs.Explained.{ArePrograms, first_line};
ghost use Rattle.scxsim_explain.specs.Listed.{IsListed, first_lines};

use crate::explained::{ExplainedPolicy, explain_policy};
use crate::writing::write_programs;
use scx_load_policies::read_policy;
use scxsim_commands::{Fault, FileKind, Refusal, are_accepted, text};
use scxsim_output::Out;
use std::alloc::Global;

/// Verifies each program of the policy file in `bytes`, and writes of each the verdict and the
/// instructions, with what is known before them, and at a refusal why. The answer is whether all are
/// safe.
///
/// # Errors
///
/// The bytes are refused as a policy file, and then nothing is written, or writing fails.
pub fn explain<W: Out>(alloc: Global, bytes: &[u8], out: &mut W) -> Result<bool, Fault>
    ensures done { IfOk result (λ answer. (verdicts : Verdicts) × AreVerdicts bytes.now verdicts
        × (answer ≡ are_accepted verdicts)
        × (text : List ℕ) × IsListed (first_lines verdicts) text
        × Appends (W.contents out.old) (W.contents out.new) text) }
    ensures unfailed { OnOk result (W.failure_count out.new ≡ W.failure_count out.old) }

    // A refusal has its cause in the bytes, and comes before any byte is written.
    ensures refused { IfRefused result (IsCheckCause bytes.now) }
    ensures too_large { FILE_LIMIT < length bytes.now
        → result ≡ Err (Fault.Refused Refusal.TooLarge) }
    ensures quiet { IsRefused result → out.new ≡ out.old }
    ensures counted { result ≡ Err Fault.WriteFailed
        → HasFailed (W.failure_count out.old) (W.failure_count out.new) }
{
    let text = text(bytes)?;
    let mut policy = explained_in(alloc, text)?;
    let written = write_explained(&mut policy, out);
    drop(policy);
    written
}

/// Explains the programs of a policy file. All memory is taken here, so that none runs out once a line
/// is written.
pub(crate) fn explained_in(alloc: Global, text: &str) -> Result<ExplainedPolicy, Refusal>
    requires { IsText text.now }
    ensures verdicts { IfOk result (λ policy. AreVerdicts text.now policy.verdicts) }
    ensures programs { IfOk result ArePrograms }
    ensures refused { IfErr result (IsCheckCause text.now) }
{
    match read_policy(alloc, text) {
        Ok(policy) => explain_policy(alloc, policy),
        Err(error) => Err(Refusal::of_file(FileKind::Policy, error)),
    }
}

/// Writes the programs, and answers whether all are safe.
fn write_explained<W: Out>(policy: &mut ExplainedPolicy, out: &mut W) -> Result<bool, Fault>
    ensures done { IfOk result (λ answer. (answer ≡ are_accepted policy.old.verdicts)
        × (text : List ℕ) × IsListed (map first_line policy.old.programs.items) text
        × Appends (W.contents out.old) (W.contents out.new) text) }
    ensures unfailed { OnOk result (W.failure_count out.new ≡ W.failure_count out.old) }
    ensures failed { IfErr result (λ fault. fault ≡ Fault.WriteFailed) }
    ensures counted { OnErr result
        (HasFailed (W.failure_count out.old) (W.failure_count out.new)) }
{
    let ExplainedPolicy {
        verdicts,
        programs,
        line,
    } = policy;
    write_programs(programs.as_slice(), line, out)?;
    Ok(are_accepted(verdicts))
}
