ghost use Rattle.std.specs.Prelude.{◌≡◌, ◌<◌, ℕ, List, length, Err, Some, IfOk, IfErr, OnOk, OnErr};
ghost use Rattle.std.specs.Io.KnownBytes.{Appends};
ghost use Rattle.scxsim_output.specs.Output.{HasFailed};
ghost use Rattle.scxsim_commands.specs.declared.file.TheConstants.{FILE_LIMIT};
ghost use Rattle.scxsim_commands.specs.declared.refusal.Refusal.TheVariants.{NoMemory};
ghost use Rattle.scxsim_commands.specs.Outcome.{IfRefused, IsRefused};
ghost use Rattle.scxsim_commands.specs.Text.{IsText};
ghost use Rattle.scxsim_commands.specs.Verdicts.{is_accepted};
ghost use Rattle.scxsim_commands.specs.Check.{IsCheckCause};
ghost use Rattle.scxsim_explain.specs.One.{IsChosen, IsChosenOf, IsOneOf, IsTold, callback_named};

use crate::explained::{Explained, explain_taken};
use crate::writing::{room_for_line, write_program};
use scx_isa::{CALLBACKS, Callback};
use scx_load_policies::{PolicyText, read_policy};
use scxsim_commands::{Fault, FileKind, Refusal, Verdict, text};
use scxsim_output::{Out, Text, write_all};
use std::alloc::Global;

/// The line of a name that no program of the policy has.
const NO_SUCH_CALLBACK: &str = "refused: word CALLBACK: no such callback\n";

/// The program that a name chose, if there is one, and room for a line.
#[derive(Drop)]
struct Chosen {
    explained: Option<Explained>,
    line: Text,
}

/// Verifies the program of one callback of the policy file in `bytes`, and writes of it what `explain` writes. The
/// answer is whether it is safe. If no program of the policy has that name, a line says so, and the answer is false.
///
/// # Errors
///
/// The bytes are refused as a policy file, and then nothing is written, or writing fails.
#[tactic(auto, using(crate::proofs::Telling::told_of))]
pub fn explain_one<W: Out>(
    alloc: Global,
    bytes: &[u8],
    name: &str,
    out: &mut W,
) -> Result<bool, Fault>
    ensures done { IfOk result (λ answer. (text : List ℕ) × IsOneOf bytes.now name.now answer text
        × Appends (W.contents out.old) (W.contents out.new) text) }
    ensures unfailed { OnOk result (W.failure_count out.new ≡ W.failure_count out.old) }

    // A refusal has its cause in the bytes, and comes before any byte is written.
    ensures refused { IfRefused result (IsCheckCause bytes.now) }
    ensures too_large { FILE_LIMIT < length bytes.now
        → result ≡ Err (Fault.Refused Refusal.TooLarge) }
    ensures quiet { IsRefused result → out.new ≡ out.old }
    ensures counted { result ≡ Err Fault.WriteFailed
        → HasFailed (W.failure_count out.old) (W.failure_count out.new) }
{
    let text = text(bytes)?;
    let mut chosen = chosen_in(alloc, text, name)?;
    write_chosen(&mut chosen, out)
}

/// The program of the callback of that name in a policy file.
fn chosen_in(alloc: Global, text: &str, name: &str) -> Result<Chosen, Refusal>
    requires { IsText text.now }
    ensures chosen { IfOk result (λ chosen. IsChosenOf text.now name.now chosen.explained) }
    ensures refused { IfErr result (IsCheckCause text.now) }
{
    match read_policy(alloc, text) {
        Ok(policy) => choose(alloc, policy, name),
        Err(error) => Err(Refusal::of_file(FileKind::Policy, error)),
    }
}

/// Explains the program of the callback of that name, if the policy has one.
///
/// # Errors
///
/// Memory ran out.
fn choose(alloc: Global, policy: PolicyText, name: &str) -> Result<Chosen, Refusal>
    ensures chosen { IfOk result
        (λ chosen. IsChosen policy (callback_named name.now) chosen.explained) }
    ensures memory { IfErr result (λ refusal. refusal ≡ NoMemory) }
{
    let mut policy = policy;
    let chosen = chosen_of(alloc, &mut policy, callback_named(name));
    drop(policy);
    chosen
}

fn chosen_of(
    alloc: Global,
    policy: &mut PolicyText,
    callback: Option<Callback>,
) -> Result<Chosen, Refusal>
    ensures chosen { IfOk result (λ chosen. IsChosen policy.old callback chosen.explained) }
    ensures memory { IfErr result (λ refusal. refusal ≡ NoMemory) }
{
    let line = room_for_line(alloc)?;
    match explained_of(alloc, policy, callback) {
        Ok(explained) => Ok(Chosen { explained, line }),
        Err(refusal) => {
            drop(line);
            Err(refusal)
        }
    }
}

fn explained_of(
    alloc: Global,
    policy: &mut PolicyText,
    callback: Option<Callback>,
) -> Result<Option<Explained>, Refusal>
    ensures chosen { IfOk result (IsChosen policy.old callback) }
    ensures memory { IfErr result (λ refusal. refusal ≡ NoMemory) }
{
    match callback {
        Some(callback) => explain_taken(alloc, policy, callback),
        None => Ok(None),
    }
}

/// The callback of that name, if a policy may have one.
#[tactic(auto, using(scx_asm_text::proofs::Names::named_here, scx_asm_text::proofs::Names::named_later, scx_asm_text::proofs::Names::named_none))]
fn callback_named(name: &str) -> Option<Callback>
    ensures { result ≡ callback_named name.now }
{
    for callback in CALLBACKS {
        if name == callback.name() {
            return Some(callback);
        }
    }
    None
}

/// Writes the program that was chosen, and answers whether it is safe.
fn write_chosen<W: Out>(chosen: &mut Chosen, out: &mut W) -> Result<bool, Fault>
    ensures done { IfOk result (λ answer. (text : List ℕ) × IsTold chosen.old.explained answer text
        × Appends (W.contents out.old) (W.contents out.new) text) }
    ensures unfailed { OnOk result (W.failure_count out.new ≡ W.failure_count out.old) }
    ensures failed { IfErr result (λ fault. fault ≡ Fault.WriteFailed) }
    ensures counted { OnErr result
        (HasFailed (W.failure_count out.old) (W.failure_count out.new)) }
{
    let Chosen { explained, line } = chosen;
    match explained {
        Some(explained) => {
            write_program(explained, line, out)?;
            Ok(is_accepted(explained.verdict))
        }
        None => {
            write_all(out, NO_SUCH_CALLBACK.as_bytes())?;
            Ok(false)
        }
    }
}

/// True if a program is safe by its verdict.
fn is_accepted(verdict: Verdict) -> bool
    ensures { result ≡ is_accepted (Some verdict) }
{
    match verdict {
        Verdict::Accepted(_) => true,
        Verdict::Refused(_, _) => false,
    }
}
