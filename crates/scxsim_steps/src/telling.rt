ghost use Rattle.std.specs.Prelude.{◌≡◌, ℕ, List, Err, IfOk, IfErr, OnOk, IfSome, IfNone};
ghost use Rattle.std.specs.Io.KnownBytes.{Appends};
ghost use Rattle.scx_load_replay.specs.Scenarios.{workload_of};
ghost use Rattle.scx_load_replay.specs.Sources.{remaining};
ghost use Rattle.scxsim_trace.specs.Lines.{names_of};
ghost use Rattle.scxsim_output.specs.Output.{HasFailed};
ghost use Rattle.scxsim_commands.specs.Outcome.{IfRefused, IsRefused};
ghost use Rattle.scxsim_runs.specs.Scenarios.{IsScenarioCause};
ghost use Rattle.scxsim_steps.specs.Stepping.{notes_within, HasLines, IsStepped, IsOutside, IsAnswer};

use crate::moments::moment_in;
use crate::starting::text_of_start;
use crate::stepper::Stepper;
use crate::until::go_until;
use scx_load_driver::Events;
use scx_load_workloads::Workload;
use scx_sched::Sim;
use scxsim_commands::{Fault, Refusal};
use scxsim_output::{Out, write_all};
use scxsim_runs::{Heard, Listener, ScenarioRun, give_back, prepare_scenario};
use std::alloc::{AllocError, Global};

/// Writes what happens in that millisecond, by the clock of a trace, of the run of a policy file and of a workload file
/// or a file of events: each callback that is called, instruction by instruction, and each note. The result is true, or
/// false if the word is refused.
///
/// # Errors
///
/// The texts are refused, or memory runs out, and then nothing is written, or writing fails.
pub fn step<L: Listener, W: Out>(
    alloc: Global,
    policy: &str,
    scenario: &str,
    ms: &str,
    listener: &mut L,
    out: &mut W,
) -> Result<bool, Fault>
    // The page has the lines of the trace in that millisecond, or the argument names no millisecond of the run.
    ensures done { IfOk result (λ answer. (text : List ℕ)
        × IsAnswer answer policy.now scenario.now ms.now text
        × Appends (W.contents out.old) (W.contents out.new) text) }
    ensures unfailed { OnOk result (W.failure_count out.new ≡ W.failure_count out.old) }

    // A refusal has its cause in the texts, and comes before any byte is written.
    ensures refused { IfRefused result (IsScenarioCause policy.now scenario.now) }
    ensures quiet { IsRefused result → out.new ≡ out.old }
    ensures counted { result ≡ Err Fault.WriteFailed
        → HasFailed (W.failure_count out.old) (W.failure_count out.new) }
{
    match page_of(alloc, policy, scenario, ms, listener)? {
        Some(page) => {
            write_all(out, page.as_slice())?;
            Ok(true)
        }
        None => {
            write_all(out, "refused: word MS: out of range\n".as_bytes())?;
            Ok(false)
        }
    }
}

/// The page, if the word names a millisecond of the run. All memory is taken before the first byte is written.
#[tactic(auto, using(crate::proofs::Refusing::stepped_of_run))]
fn page_of<L: Listener>(
    alloc: Global,
    policy: &str,
    scenario: &str,
    ms: &str,
    listener: &mut L,
) -> Result<Option<Vec<u8>>, Refusal>
    ensures page { IfOk result
        (λ page. IfSome page (λ page. IsStepped policy.now scenario.now ms.now page.items)) }
    ensures none { IfOk result (λ page. IfNone page (IsOutside policy.now scenario.now ms.now)) }
    ensures refused { IfErr result (IsScenarioCause policy.now scenario.now) }
{
    let run = prepare_scenario(alloc, policy, scenario)?;
    match moment_in(ms, run.scenario.workload().ms()) {
        Some(ms) => Ok(Some(page_at(alloc, policy, run, ms, listener)?)),
        None => {
            run.give_back();
            Ok(None)
        }
    }
}

/// The page of that millisecond of this run, whose policy's text that is.
fn page_at<L: Listener>(
    alloc: Global,
    policy: &str,
    run: ScenarioRun,
    ms: u64,
    listener: &mut L,
) -> Result<Vec<u8>, AllocError>
    ensures { IfOk result (λ page. HasLines (names_of (workload_of run.scenario))
        (notes_within ms run.sim (remaining run.events run.sim)) page.items) }
{
    let ScenarioRun {
        scenario,
        events,
        mut sim,
        ..
    } = run;
    let workload = scenario.workload();
    let mut events = Heard::new(events, workload.ms(), listener);
    let page = page_from(alloc, policy, workload, ms, &mut events, &mut sim);
    give_back(events, sim);
    drop(scenario);
    page
}

/// The page of that millisecond of a run that is lent.
#[tactic(auto, using(crate::proofs::Growing::lines_of_end))]
fn page_from<E: Events>(
    alloc: Global,
    policy: &str,
    workload: &Workload,
    ms: u64,
    events: &mut E,
    sim: &mut Sim,
) -> Result<Vec<u8>, AllocError>
    ensures { IfOk result (λ page. HasLines (names_of workload.now)
        (notes_within ms sim.old (E.remaining events.old sim.old)) page.items) }
{
    let first = text_of_start(alloc, policy, workload, ms)?;
    let mut stepper = Stepper::new(alloc, workload, ms, first);
    go_until(sim, events, ms, &mut stepper);
    stepper.end(sim)?;
    Ok(stepper.into_page())
}
