ghost use Rattle.std.specs.Prelude.{◌≡◌, true, false, ℕ, ◌-◌, ◌^◌, ◌<◌, ◌≤◌, ◌++◌, List, length, take, Option, None, IsErr, IfOk, OnOk, OnErr};
ghost use Rattle.std.specs.Io.KnownBytes.{Appends, WriteAppends};
ghost use Rattle.scxsim_output.specs.Output.{IsFailure, Counts, HasFailed, AppendsBeginning};

use crate::short::{SHORT, Short};
use thiserror::Error;

/// An output that took no more bytes.
#[derive(Clone, Copy, Debug, PartialEq, Eq, Error)]
#[error("writing failed")]
pub struct Failed;

/// Where a program's output goes, with a count of the writes that failed.
pub trait Out {
    // The bytes that the output holds, where they are known.
    ghost contents: { Self → Option (List ℕ) } = { λ _. None };

    ghost failure_count: { Self → ℕ };

    /// Takes bytes from the front of `bytes`, and answers how many it took.
    ///
    /// An error, and an answer of 0 for bytes that are there, each count as one failure. An output
    /// whose count is at its greatest answers an error, and the count stays.
    fn write(&mut self, bytes: &[u8]) -> Result<usize, Failed>
        ensures bound { IfOk result (λ count. count ≤ length bytes.now) }
        ensures grows { WriteAppends (contents self.old) (contents self.new) result bytes.now }
        ensures failed { IsFailure result bytes.now
            → HasFailed (failure_count self.old) (failure_count self.new) }
        ensures worked { ¬ IsFailure result bytes.now
            → failure_count self.new ≡ failure_count self.old }
        ensures at_limit { failure_count self.old ≡ 2 ^ 64 - 1 → IsErr result };

    /// The number of writes that have failed.
    fn failures(&self) -> u64
        ensures { result ≡ failure_count self.now };

    /// Takes a short text, the first `count` bytes of a field, up to the first write that fails.
    fn write_short(&mut self, text: &[u8; SHORT], count: usize) -> Result<(), Failed>
        requires some { 0 < count }
        requires room { count ≤ 80 }
        ensures ok { OnOk result
            (Appends (contents self.old) (contents self.new) (take count text.now)) }
        ensures err { OnErr result
            (AppendsBeginning (contents self.old) (contents self.new) (take count text.now)) }
        ensures failures { Counts result (failure_count self.old) (failure_count self.new) }
    {
        let bytes = &text[..count];
        let mut done = 0;
        while done < bytes.len() {
            let taken = self.write(&bytes[done..])?;
            if taken == 0 {
                return Err(Failed);
            }
            done += taken;
        }
        Ok(())
    }

    /// Takes a text if it can do so with no write, and answers whether it did. Else nothing changes.
    #[inline(always)]
    fn hold_text<T: Short>(&mut self, text: &T) -> bool
        ensures held { result ≡ true
            → Appends (contents self.old) (contents self.new) (T.text text.now) }
        ensures left { result ≡ false → self.new ≡ self.old }
        ensures failures { failure_count self.new ≡ failure_count self.old }
    {
        let _ = text;
        false
    }
}

/// Writes all of `bytes`, in as many writes as it takes, up to the first one that fails.
pub fn write_all<W: Out>(out: &mut W, bytes: &[u8]) -> Result<(), Failed>
    ensures ok { OnOk result (Appends (W.contents out.old) (W.contents out.new) bytes.now) }
    ensures err { OnErr result
        (AppendsBeginning (W.contents out.old) (W.contents out.new) bytes.now) }
    ensures failures { Counts result (W.failure_count out.old) (W.failure_count out.new) }
{
    write_front(out, bytes).1
}

/// Writes all of `bytes`, up to the first write that fails, and answers how many were written.
pub(crate) fn write_front<W: Out>(out: &mut W, bytes: &[u8]) -> (usize, Result<(), Failed>)
    ensures bound { result.0 ≤ length bytes.now }
    ensures all { OnOk result.1 (result.0 ≡ length bytes.now) }
    ensures some { OnErr result.1 (result.0 < length bytes.now) }
    ensures bytes { Appends (W.contents out.old) (W.contents out.new) (take result.0 bytes.now) }
    ensures failures { Counts result.1 (W.failure_count out.old) (W.failure_count out.new) }
{
    let mut done = 0;
    while done < bytes.len() {
        match out.write(&bytes[done..]) {
            Ok(0) => return (done, Err(Failed)),
            Ok(count) => done += count,
            Err(error) => return (done, Err(error)),
        }
    }
    (done, Ok(()))
}

/// Writes a name between two texts, up to the first write that fails.
pub fn write_named<W: Out>(out: &mut W, start: &str, name: &str, end: &str) -> Result<(), Failed>
    ensures ok { OnOk result
        (Appends (W.contents out.old) (W.contents out.new) (start.now ++ name.now ++ end.now)) }
    ensures err { OnErr result
        (AppendsBeginning (W.contents out.old) (W.contents out.new)
        (start.now ++ name.now ++ end.now)) }
    ensures failures { Counts result (W.failure_count out.old) (W.failure_count out.new) }
{
    write_parts(out, start.as_bytes(), name.as_bytes(), end.as_bytes())
}

/// Writes a name between two texts, all of them in bytes, up to the first write that fails.
pub fn write_parts<W: Out>(out: &mut W, start: &[u8], name: &[u8], end: &[u8]) -> Result<(), Failed>
    ensures ok { OnOk result
        (Appends (W.contents out.old) (W.contents out.new) (start.now ++ name.now ++ end.now)) }
    ensures err { OnErr result
        (AppendsBeginning (W.contents out.old) (W.contents out.new)
        (start.now ++ name.now ++ end.now)) }
    ensures failures { Counts result (W.failure_count out.old) (W.failure_count out.new) }
{
    write_all(out, start)?;
    write_all(out, name)?;
    write_all(out, end)?;
    Ok(())
}
