ghost use Rattle.std.specs.Prelude.{◌≡◌, ◌⊎◌, Bool, true, false, Ok, Err, Result, OnOk};
ghost use Rattle.std.specs.Io.KnownBytes.{Appends};
ghost use Rattle.scxsim_output.specs.Output.{HasFailed, AppendsBeginning};
ghost use Rattle.scxsim_commands.specs.RefusalLines.{refusal_line};
ghost use Rattle.scxsim_commands.specs.Outcome.{IfRefused, IsRefused};

use crate::refusal::Fault;
use crate::refusal_lines::write_refusal;
use crate::status::{DONE, FAILED, REFUSED};
use scxsim_output::Out;

/// Ends a command: writes the line of a refusal, and answers the status of the process. `Ok(false)` is
/// the outcome of a command that wrote what it refused itself.
pub fn finish<W: Out>(outcome: Result<bool, Fault>, out: &mut W) -> u8
    ensures done { outcome ≡ Ok true → result ≡ DONE }
    ensures done_in_part { outcome ≡ Ok false → result ≡ REFUSED }
    ensures failed { outcome ≡ Err Fault.WriteFailed → result ≡ FAILED }
    ensures quiet { ¬ IsRefused outcome → out.new ≡ out.old }

    // A refusal's line is written, or its writing fails and the status says so.
    ensures refused { IfRefused outcome (λ _. (result ≡ REFUSED) ⊎ (result ≡ FAILED)) }
    ensures written { IfRefused outcome (λ refusal. result ≡ REFUSED
        → Appends (W.contents out.old) (W.contents out.new) (refusal_line refusal)) }
    ensures unfailed { IfRefused outcome (λ _. result ≡ REFUSED
        → W.failure_count out.new ≡ W.failure_count out.old) }
    ensures cut { IfRefused outcome (λ refusal. result ≡ FAILED
        → AppendsBeginning (W.contents out.old) (W.contents out.new) (refusal_line refusal)) }
    ensures counted { IfRefused outcome (λ _. result ≡ FAILED
        → HasFailed (W.failure_count out.old) (W.failure_count out.new)) }
{
    match outcome {
        Ok(true) => DONE,
        Ok(false) => REFUSED,
        Err(Fault::Refused(refusal)) => match write_refusal(&refusal, out) {
            Ok(()) => REFUSED,
            Err(_) => FAILED,
        },
        Err(Fault::WriteFailed) => FAILED,
    }
}
