ghost use Rattle.std.specs.Prelude.{◌≡◌, ◌⊎◌};
ghost use Rattle.std.specs.Io.KnownBytes.{Appends};
ghost use Rattle.scxsim_output.specs.Output.{HasFailed};

use crate::ending::end_without_memory;
use clap::error::ErrorKind;
use scxsim_commands::{DONE, FAILED, Out, USAGE, write_all};
use std::alloc::Global;

/// Writes why `clap` refused the words, or the help or the version that they ask for.
pub(crate) fn explain_usage<W: Out>(alloc: Global, error: &clap::Error, out: &mut W) -> u8 {
    if error.kind() == ErrorKind::OutOfMemory {
        return end_without_memory(out);
    }
    match (error.to_string(alloc), error.kind()) {
        (Ok(text), ErrorKind::DisplayVersion) => write_version(text.as_str(), out),
        (Ok(text), _) => write_usage(text.as_str(), out),
        (Err(_), _) => end_without_memory(out),
    }
}

fn write_version<W: Out>(text: &str, out: &mut W) -> u8
    ensures status { (result ≡ DONE) ⊎ (result ≡ FAILED) }
    ensures written { result ≡ DONE → Appends (W.contents out.old) (W.contents out.new) text.now }
    ensures failed { result ≡ FAILED
        → HasFailed (W.failure_count out.old) (W.failure_count out.new) }
{
    match write_all(out, text.as_bytes()) {
        Ok(()) => DONE,
        Err(_) => FAILED,
    }
}

pub(crate) fn write_usage<W: Out>(text: &str, out: &mut W) -> u8
    ensures status { (result ≡ USAGE) ⊎ (result ≡ FAILED) }
    ensures written { result ≡ USAGE → Appends (W.contents out.old) (W.contents out.new) text.now }
    ensures failed { result ≡ FAILED
        → HasFailed (W.failure_count out.old) (W.failure_count out.new) }
{
    match write_all(out, text.as_bytes()) {
        Ok(()) => USAGE,
        Err(_) => FAILED,
    }
}
