ghost use Rattle.std.specs.Prelude.{◌≡◌, false, Err, IfOk, OnOk};
ghost use Rattle.std.specs.Io.KnownBytes.{Appends};
ghost use Rattle.scxsim_output.specs.Output.{HasFailed};
ghost use Rattle.scx_explore_bounds.specs.declared.bounds.Bounds.{Bounds};
ghost use Rattle.scxsim_commands.specs.Outcome.{IfRefused, IsRefused};
ghost use Rattle.scxsim_runs.specs.Runs.{IsCause};
ghost use Rattle.scxsim_explore.specs.Telling.{IsAnswer};
ghost use Rattle.scxsim_explore.specs.Words.{IsBoundsOf, limit_line};

use crate::beginning::{Start, start_of_texts};
use crate::limits::{Limit, Lists, bounds_of};
use crate::telling::tell;
use crate::watcher::Watcher;
use scxsim_commands::Fault;
use scxsim_output::{Out, write_all};
use std::alloc::Global;

/// Tries all lists of events that the words name and that the machine of a policy file and of a workload file accepts,
/// and writes what it finds. Nothing is written before the search and its audit are over. The answer is true. It is false
/// if the words or the machine are past a limit, which is written instead, and if memory ran out for a list, its cause, a
/// workload file or the audit, which the last line says.
///
/// # Errors
///
/// The texts are refused, or memory runs out before anything is written, or writing fails.
pub fn explore<V: Watcher, W: Out>(
    alloc: Global,
    policy: &str,
    workload: &str,
    lists: Lists<'_>,
    watcher: &mut V,
    out: &mut W,
) -> Result<bool, Fault>
    // What was found in lists within the bounds that the words name is written, and what was found in none. Then
    // follow these lists, which the machine of the texts shows, each with its trace, and whether memory ran out. Or the
    // first limit is written that the words or the machine are past.
    ensures done { IfOk result (λ answer. IsAnswer answer policy.now workload.now lists.entry
        (W.contents out.old) (W.contents out.new)) }
    ensures unfailed { OnOk result (W.failure_count out.new ≡ W.failure_count out.old) }

    // A refusal has its cause in the texts, and comes before any byte is written, where the words name bounds.
    ensures refused { IfRefused result (IsCause policy.now workload.now) }
    ensures named { IsRefused result → (b : Bounds) × IsBoundsOf lists.entry b }
    ensures quiet { IsRefused result → out.new ≡ out.old }
    ensures counted { result ≡ Err Fault.WriteFailed
        → HasFailed (W.failure_count out.old) (W.failure_count out.new) }
{
    let bounds = match bounds_of(lists) {
        Ok(bounds) => bounds,
        Err(limit) => return refuse(limit, out),
    };
    match start_of_texts(alloc, policy, workload, bounds)? {
        Start::Past(limit) => refuse(limit, out),
        Start::Within {
            begun,
            teller,
            about,
            form,
        } => {
            let mut begun = begun;
            let mut teller = teller;
            about.is_whole();
            begun.machines.first().is_sound();
            let told = tell(&mut begun, &mut teller, form, &about, bounds, watcher, out);
            drop(begun);
            drop(teller);
            drop(about);
            Ok(told?)
        }
    }
}

/// Writes the line of a limit. The answer is false.
fn refuse<W: Out>(limit: Limit, out: &mut W) -> Result<bool, Fault>
    ensures done { IfOk result (λ answer. (answer ≡ false)
        × Appends (W.contents out.old) (W.contents out.new) (limit_line limit)) }
    ensures unfailed { OnOk result (W.failure_count out.new ≡ W.failure_count out.old) }
    ensures refused { ¬ IsRefused result }
    ensures counted { result ≡ Err Fault.WriteFailed
        → HasFailed (W.failure_count out.old) (W.failure_count out.new) }
{
    write_all(out, limit.line().as_bytes())?;
    Ok(false)
}
