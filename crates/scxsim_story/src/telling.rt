ghost use Rattle.std.specs.Prelude.{◌≡◌, ◌⊎◌, ℕ, List, true, Err, IfOk, IfErr, OnOk, string_bytes};
ghost use Rattle.std.specs.Io.KnownBytes.{Appends};
ghost use Rattle.scx_load_driver.specs.Runs.{notes_of_all};
ghost use Rattle.scx_load_replay.specs.Scenarios.{workload_of};
ghost use Rattle.scx_load_replay.specs.Sources.{remaining};
ghost use Rattle.scxsim_output.specs.Output.{HasFailed};
ghost use Rattle.scxsim_commands.specs.Outcome.{IfRefused, IsRefused};
ghost use Rattle.scxsim_commands.specs.declared.refusal.Refusal.TheVariants.{NoMemory, NoSuchTask};
ghost use Rattle.scxsim_views.specs.BoundTasks.{bound_mask};
ghost use Rattle.scxsim_story.specs.Stories.{IsNoTask, IsStory, IsStoryCause, IsToldIn, TellsAll};

use crate::opening::opening_of;
use crate::storyteller::Storyteller;
use crate::subject::{Subject, subject_of};
use scx_load_driver::Events;
use scx_load_workloads::Workload;
use scx_sched::Sim;
use scxsim_commands::{Fault, Refusal};
use scxsim_output::{Out, write_all};
use scxsim_runs::{Heard, Listener, ScenarioRun, give_back, prepare_scenario};
use scxsim_trace::observe;
use std::alloc::{AllocError, Global};

/// Writes the story of the task of that name in the run of the texts of a policy file and of a workload file or a file
/// of events. The answer is true.
///
/// # Errors
///
/// The texts are refused, or no task has that name, or memory runs out, and then nothing is written, or writing the
/// story fails.
pub fn story<L: Listener, W: Out>(
    alloc: Global,
    policy: &str,
    scenario: &str,
    task: &str,
    listener: &mut L,
    out: &mut W,
) -> Result<bool, Fault>
    // An opening, and a line for each occurrence of the task in the run.
    ensures done { IfOk result (λ answer. (answer ≡ true) × (text : List ℕ)
        × IsStory policy.now scenario.now task.now text
        × Appends (W.contents out.old) (W.contents out.new) text) }
    ensures unfailed { OnOk result (W.failure_count out.new ≡ W.failure_count out.old) }

    // A refusal has its cause in the texts or in the name, and comes before any byte is written.
    ensures refused { IfRefused result (IsStoryCause policy.now scenario.now task.now) }
    ensures quiet { IsRefused result → out.new ≡ out.old }
    ensures counted { result ≡ Err Fault.WriteFailed
        → HasFailed (W.failure_count out.old) (W.failure_count out.new) }
{
    let text = told(alloc, policy, scenario, task, listener)?;
    write_all(out, text.as_bytes())?;
    Ok(true)
}

/// The story. All memory is taken before the first byte is written.
#[tactic(auto, using(crate::proofs::Refusing::cause_of_run, crate::proofs::Refusing::story_of_run))]
fn told<L: Listener>(
    alloc: Global,
    policy: &str,
    scenario: &str,
    task: &str,
    listener: &mut L,
) -> Result<String, Refusal>
    ensures told { IfOk result
        (λ text. IsStory policy.now scenario.now task.now (string_bytes text)) }
    ensures refused { IfErr result (IsStoryCause policy.now scenario.now task.now) }
{
    let run = prepare_scenario(alloc, policy, scenario)?;
    told_of_run(alloc, run, task, listener)
}

/// The story of the task of that name in this run.
#[tactic(auto, using(crate::proofs::Refusing::told_of_subject))]
fn told_of_run<L: Listener>(
    alloc: Global,
    run: ScenarioRun,
    task: &str,
    listener: &mut L,
) -> Result<String, Refusal>
    ensures told { IfOk result (λ text. IsToldIn (workload_of run.scenario) task.now
        (notes_of_all run.sim (remaining run.events run.sim)) (string_bytes text)) }
    ensures refused { IfErr result (λ refusal. (refusal ≡ NoMemory)
        ⊎ ((refusal ≡ NoSuchTask) × IsNoTask (workload_of run.scenario) task.now)) }
{
    match subject_of(run.scenario.workload(), task) {
        Some(subject) => Ok(tell(alloc, run, task, subject, listener)?),
        None => {
            run.give_back();
            Err(Refusal::NoSuchTask)
        }
    }
}

/// The story of this task, by its name, in this run.
fn tell<L: Listener>(
    alloc: Global,
    run: ScenarioRun,
    name: &str,
    subject: Subject,
    listener: &mut L,
) -> Result<String, AllocError>
    ensures { IfOk result (λ text.
        TellsAll name.now (bound_mask (workload_of run.scenario) subject.task) subject
        (notes_of_all run.sim (remaining run.events run.sim)) (string_bytes text)) }
{
    let ScenarioRun {
        scenario,
        events,
        mut sim,
        ..
    } = run;
    let workload = scenario.workload();
    let mut events = Heard::new(events, workload.ms(), listener);
    let text = tell_from(alloc, workload, name, subject, &mut events, &mut sim);
    give_back(events, sim);
    drop(scenario);
    text
}

/// The story of this task in a run that is lent.
fn tell_from<E: Events>(
    alloc: Global,
    workload: &Workload,
    name: &str,
    subject: Subject,
    events: &mut E,
    sim: &mut Sim,
) -> Result<String, AllocError>
    ensures { IfOk result (λ text. TellsAll name.now (bound_mask workload.now subject.task) subject
        (notes_of_all sim.old (E.remaining events.old sim.old)) (string_bytes text)) }
{
    let opening = opening_of(alloc, workload, name, subject.task)?;
    let mut storyteller = Storyteller::new(alloc, workload, subject, opening);
    observe(sim, events, &mut storyteller);
    storyteller.result?;
    storyteller.end(sim)?;
    Ok(storyteller.into_text())
}
