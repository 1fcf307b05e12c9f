ghost use Rattle.std.specs.Prelude.{◌≡◌, IfOk, IfErr};
ghost use Rattle.scx_load_replay.specs.declared.scenario.Scenario.{Scenario};
ghost use Rattle.scx_load_replay.specs.Scenarios.{workload_of, scenario_events};
ghost use Rattle.scx_load_replay.specs.Sources.{remaining};
ghost use Rattle.scxsim_runs.specs.Scenarios.{IsScenarioRun, IsScenarioCause};
ghost use Rattle.scxsim_runs.specs.Replays.{IsReplayCause};
ghost use Rattle.scxsim_statistics.specs.Figures.{AreOfRun, AreOfTexts, AreOfEvents, of_figures};

use crate::gathering::{Figures, gather};
use scx_load_replay::Source;
use scx_sched::Sim;
use scxsim_commands::Refusal;
use scxsim_runs::{Listener, Run, ScenarioRun, give_back_start, prepare_replay, prepare_scenario};
use std::alloc::{AllocError, Global};

/// The figures of the run of a policy file's text and of a workload's or of a file of events.
///
/// # Errors
///
/// The texts are refused, or memory runs out.
pub fn figures<L: Listener>(
    alloc: Global,
    policy: &str,
    scenario: &str,
    listener: &mut L,
) -> Result<Figures, Refusal>
    ensures of_texts { IfOk result (AreOfTexts policy.now scenario.now) }
    ensures refused { IfErr result (IsScenarioCause policy.now scenario.now) }
{
    let run = prepare_scenario(alloc, policy, scenario)?;
    Ok(gather(alloc, run.into_run(), listener)?)
}

/// A run before its first event: its machine, and the source of its events.
pub struct Start {
    pub events: Source,
    pub sim: Sim,
}

/// The figures of a run, and its start, for a caller that goes through the run again.
pub struct FiguresAndStart {
    pub figures: Figures,
    pub start: Start,
}

/// The figures of the run of a policy file's text and of a workload's or of a file of events, and its start.
///
/// # Errors
///
/// The texts are refused, or memory runs out.
pub fn figures_and_start<L: Listener>(
    alloc: Global,
    policy: &str,
    scenario: &str,
    listener: &mut L,
) -> Result<FiguresAndStart, Refusal>
    ensures of_texts { IfOk result (λ both. AreOfTexts policy.now scenario.now both.figures) }
    ensures start { IfOk result (λ both. (x : Scenario)
        × IsScenarioRun policy.now scenario.now x both.start.sim
        × (both.figures.workload ≡ workload_of x)
        × (remaining both.start.events both.start.sim ≡ scenario_events x both.start.sim)) }
    ensures refused { IfErr result (IsScenarioCause policy.now scenario.now) }
{
    let run = prepare_scenario(alloc, policy, scenario)?;
    Ok(gather_beside(alloc, run, listener)?)
}

/// Gathers the figures of a run, beside its start.
fn gather_beside<L: Listener>(
    alloc: Global,
    run: ScenarioRun,
    listener: &mut L,
) -> Result<FiguresAndStart, AllocError>
    ensures name { IfOk result (λ both. both.figures.policy_name ≡ run.policy_name) }
    ensures workload { IfOk result (λ both. both.figures.workload ≡ workload_of run.scenario) }
    ensures of_run { IfOk result (λ both. AreOfRun (workload_of run.scenario) run.sim
        (remaining run.events run.sim) (of_figures both.figures)) }
    ensures start { IfOk result (λ both. both.start.sim ≡ run.sim) }
    ensures events { IfOk result (λ both. remaining both.start.events both.start.sim
        ≡ scenario_events run.scenario both.start.sim) }
{
    match run.duplicate(alloc) {
        Ok((events, sim)) => {
            let start = Start { events, sim };
            gather_with(alloc, run.into_run(), start, listener)
        }
        Err(error) => {
            run.give_back();
            Err(error)
        }
    }
}

/// Gathers the figures of a run, and returns them with this start.
fn gather_with<L: Listener>(
    alloc: Global,
    run: Run<Source>,
    start: Start,
    listener: &mut L,
) -> Result<FiguresAndStart, AllocError>
    ensures name { IfOk result (λ both. both.figures.policy_name ≡ run.policy_name) }
    ensures workload { IfOk result (λ both. both.figures.workload ≡ run.workload) }
    ensures of_run { IfOk result (λ both.
        AreOfRun run.workload run.sim (remaining run.driver run.sim) (of_figures both.figures)) }
    ensures start { IfOk result (λ both. both.start ≡ start) }
{
    match gather(alloc, run, listener) {
        Ok(figures) => Ok(FiguresAndStart { figures, start }),
        Err(error) => {
            let Start { events, sim } = start;
            give_back_start(events, sim);
            Err(error)
        }
    }
}

/// The figures of the run of a policy file's text and a file of events.
///
/// # Errors
///
/// The texts are refused, or memory runs out.
pub fn replay_figures<L: Listener>(
    alloc: Global,
    policy: &str,
    events: &str,
    listener: &mut L,
) -> Result<Figures, Refusal>
    ensures of_events { IfOk result (AreOfEvents policy.now events.now) }
    ensures refused { IfErr result (IsReplayCause policy.now events.now) }
{
    let run = prepare_replay(alloc, policy, events)?;
    Ok(gather(alloc, run, listener)?)
}
