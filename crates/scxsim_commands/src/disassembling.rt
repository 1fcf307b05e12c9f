ghost use Rattle.std.specs.Prelude.{◌≡◌, ℕ, ◌<◌, List, length, true, Err, IfOk, IfErr, OnOk};
ghost use Rattle.std.specs.Io.KnownBytes.{Appends};
ghost use Rattle.std.specs.String.{string_bytes};
ghost use Rattle.scxsim_output.specs.Output.{HasFailed, AppendsBeginning};
ghost use Rattle.scxsim_commands.specs.Outcome.{IfRefused, IsRefused};
ghost use Rattle.scxsim_commands.specs.Dis.{IsDisassembled, IsDisCause};

use crate::file::FILE_LIMIT;
use crate::refusal::{Fault, Refusal};
use scx_asm::disassemble;
use scx_isa::decode;
use scxsim_output::{Out, write_all};
use std::alloc::Global;

/// Writes the canonical text of the program that `bytes` spell. The answer is true.
///
/// # Errors
///
/// The bytes are refused, and then nothing is written, or writing the text fails.
pub fn dis<W: Out>(alloc: Global, bytes: &[u8], out: &mut W) -> Result<bool, Fault>
    ensures done { IfOk result
        (λ answer. (answer ≡ true) × (text : List ℕ) × IsDisassembled bytes.now text
        × Appends (W.contents out.old) (W.contents out.new) text) }
    ensures unfailed { OnOk result (W.failure_count out.new ≡ W.failure_count out.old) }

    // A refusal has its cause in the bytes, and comes before any byte is written.
    ensures refused { IfRefused result (IsDisCause bytes.now) }
    ensures too_large { FILE_LIMIT < length bytes.now
        → result ≡ Err (Fault.Refused Refusal.TooLarge) }
    ensures quiet { IsRefused result → out.new ≡ out.old }

    // The text is cut off where writing fails.
    ensures cut { result ≡ Err Fault.WriteFailed → (text : List ℕ) × IsDisassembled bytes.now text
        × AppendsBeginning (W.contents out.old) (W.contents out.new) text }
    ensures counted { result ≡ Err Fault.WriteFailed
        → HasFailed (W.failure_count out.old) (W.failure_count out.new) }
{
    let text = text_of(alloc, bytes)?;
    write_all(out, text.as_str().as_bytes())?;
    Ok(true)
}

/// The canonical text of the program that `bytes` spell.
#[tactic(auto, using(scx_isa::proofs::Programs::program_has_length))]
fn text_of(alloc: Global, bytes: &[u8]) -> Result<String, Refusal>
    ensures disassembled { IfOk result (λ text. IsDisassembled bytes.now (string_bytes text)) }
    ensures refused { IfErr result (IsDisCause bytes.now) }
    ensures too_large { FILE_LIMIT < length bytes.now → result ≡ Err Refusal.TooLarge }
{
    if bytes.len() > FILE_LIMIT {
        return Err(Refusal::TooLarge);
    }
    let program = decode(alloc, bytes)?;
    Ok(disassemble(alloc, &program)?)
}
