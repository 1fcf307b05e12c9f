ghost use Rattle.std.specs.Prelude.{◌≡◌, ◌++◌, ℕ, List, true, Err, IfOk, IfErr, OnOk};
ghost use Rattle.std.specs.Io.KnownBytes.{Appends};
ghost use Rattle.scxsim_output.specs.Output.{Counts, HasFailed};
ghost use Rattle.scxsim_commands.specs.Outcome.{IfRefused, IsRefused};
ghost use Rattle.scxsim_runs.specs.Scenarios.{IsScenarioCause};
ghost use Rattle.scxsim_why.specs.Pages.{page};

use crate::finding::{Findings, examine};
use crate::page::write_page;
use scxsim_commands::{Fault, Refusal};
use scxsim_output::{Failed, Out, Text, write_all};
use scxsim_runs::Listener;
use scxsim_why_lines::Length;
use std::alloc::{AllocError, Global};

/// The page's first word.
const POLICY: &str = "policy ";

/// Writes why the run of a policy file's text and of a workload's or of a file of events went as it did, on a page of
/// that length: how it ended, which tasks waited longest, which CPUs were idle meanwhile, and what never happened. The
/// answer is true.
///
/// # Errors
///
/// The texts are refused, or memory runs out, and then nothing is written, or writing the page fails.
pub fn why<L: Listener, W: Out>(
    alloc: Global,
    length: Length,
    policy: &str,
    scenario: &str,
    listener: &mut L,
    out: &mut W,
) -> Result<bool, Fault>
    ensures done { IfOk result (λ answer. (answer ≡ true) × (rest : List ℕ)
        × Appends (W.contents out.old) (W.contents out.new) (page rest)) }
    ensures unfailed { OnOk result (W.failure_count out.new ≡ W.failure_count out.old) }

    // A refusal has its cause in the texts, and comes before any byte is written.
    ensures refused { IfRefused result (IsScenarioCause policy.now scenario.now) }
    ensures quiet { IsRefused result → out.new ≡ out.old }
    ensures counted { result ≡ Err Fault.WriteFailed
        → HasFailed (W.failure_count out.old) (W.failure_count out.new) }
{
    let rest = rest_of_page(alloc, length, policy, scenario, listener)?;
    write_both(POLICY, rest.as_str(), out)?;
    Ok(true)
}

/// Writes a text, and then another.
pub(crate) fn write_both<W: Out>(first: &str, rest: &str, out: &mut W) -> Result<(), Failed>
    ensures ok { OnOk result
        (Appends (W.contents out.old) (W.contents out.new) (first.now ++ rest.now)) }
    ensures failures { Counts result (W.failure_count out.old) (W.failure_count out.new) }
{
    write_all(out, first.as_bytes())?;
    write_all(out, rest.as_bytes())
}

/// The page after its first word. All memory is taken before the first byte is written.
fn rest_of_page<L: Listener>(
    alloc: Global,
    length: Length,
    policy: &str,
    scenario: &str,
    listener: &mut L,
) -> Result<String, Refusal>
    ensures { IfErr result (IsScenarioCause policy.now scenario.now) }
{
    let found = examine(alloc, policy, scenario, listener)?;
    Ok(page_of(alloc, length, policy, &found)?)
}

fn page_of(
    alloc: Global,
    length: Length,
    policy: &str,
    found: &Findings,
) -> Result<String, AllocError> {
    let mut page = Text::new(alloc);
    write_page(alloc, policy, found, length, &mut page);
    page.finish()
}
