ghost use Rattle.std.specs.Prelude.{◌≡◌, IfOk, IfErr};
ghost use Rattle.scxsim_commands.specs.Text.{IsText, IsNoText};

use crate::file::FILE_LIMIT;
use crate::refusal::{Fault, Refusal};
use std::str;

/// The text that the bytes of a file are.
///
/// # Errors
///
/// There are more bytes than a file may have, or else they aren't UTF-8.
pub fn text(bytes: &[u8]) -> Result<&str, Fault>
    ensures text { IfOk result (λ text. (text.now ≡ bytes.now) × IsText bytes.now) }
    ensures refused { IfErr result (IsNoText bytes.now) }
{
    if bytes.len() > FILE_LIMIT {
        return Err(Fault::Refused(Refusal::TooLarge));
    }
    match str::from_utf8(bytes) {
        Ok(text) => Ok(text),
        Err(_) => Err(Fault::Refused(Refusal::NotUtf8)),
    }
}
