ghost use Rattle.std.specs.Prelude.{◌≡◌, ℕ, ◌<◌, List, length, true, Err, IfOk, IfErr, OnOk};
ghost use Rattle.std.specs.Io.KnownBytes.{Appends};
ghost use Rattle.scxsim_commands.specs.declared.file.TheConstants.{FILE_LIMIT};
ghost use Rattle.scxsim_output.specs.Output.{HasFailed, AppendsBeginning};
ghost use Rattle.scxsim_commands.specs.Outcome.{IfRefused, IsRefused};
ghost use Rattle.scxsim_commands.specs.Text.{IsText};
ghost use Rattle.scxsim_commands.specs.Asm.{IsAssembled, IsAsmCause};

use crate::refusal::{Fault, Refusal};
use crate::texts::text;
use scx_asm::assemble;
use scx_isa::encode;
use scxsim_output::{Out, write_all};
use std::alloc::Global;

/// Writes the raw slots of the program in the text in `bytes`. The answer is true.
///
/// # Errors
///
/// The bytes are refused, and then nothing is written, or writing the slots fails.
pub fn asm<W: Out>(alloc: Global, bytes: &[u8], out: &mut W) -> Result<bool, Fault>
    ensures done { IfOk result
        (λ answer. (answer ≡ true) × (slots : List ℕ) × IsAssembled bytes.now slots
        × Appends (W.contents out.old) (W.contents out.new) slots) }
    ensures unfailed { OnOk result (W.failure_count out.new ≡ W.failure_count out.old) }

    // A refusal has its cause in the bytes, and comes before any byte is written.
    ensures refused { IfRefused result (IsAsmCause bytes.now) }
    ensures too_large { FILE_LIMIT < length bytes.now
        → result ≡ Err (Fault.Refused Refusal.TooLarge) }
    ensures quiet { IsRefused result → out.new ≡ out.old }

    // The slots are cut off where writing fails.
    ensures cut { result ≡ Err Fault.WriteFailed → (slots : List ℕ) × IsAssembled bytes.now slots
        × AppendsBeginning (W.contents out.old) (W.contents out.new) slots }
    ensures counted { result ≡ Err Fault.WriteFailed
        → HasFailed (W.failure_count out.old) (W.failure_count out.new) }
{
    let text = text(bytes)?;
    let slots = slots_of(alloc, text)?;
    write_all(out, slots.as_slice())?;
    Ok(true)
}

/// The raw slots of the program in a text.
fn slots_of(alloc: Global, text: &str) -> Result<Vec<u8>, Refusal>
    requires { IsText text.now }
    ensures assembled { IfOk result (λ slots. IsAssembled text.now slots.items) }
    ensures refused { IfErr result (IsAsmCause text.now) }
{
    let program = assemble(alloc, text)?;
    Ok(encode(alloc, &program)?)
}
