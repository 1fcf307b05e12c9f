ghost use Rattle.std.specs.Prelude.{◌≡◌, IfOk, IfErr};
ghost use Rattle.scx_load_replay.specs.Scenarios.{workload_of, scenario_events};
ghost use Rattle.scx_load_replay.specs.Sources.{remaining};
ghost use Rattle.scxsim_commands.specs.Windows.{IsWindow, IsBadSpan};
ghost use Rattle.scxsim_runs.specs.Scenarios.{IsScenarioRun};
ghost use Rattle.scxsim_runs.specs.ScenarioParts.{IsScenarioPartCause};

use crate::scenarios::{ScenarioRun, prepare_scenario};
use scxsim_commands::{Refusal, Span, Window};
use std::alloc::Global;

/// A run that is about to begin, of a workload or of a file of events, and a part of it.
#[derive(Drop)]
pub struct ScenarioPart {
    pub run: ScenarioRun,
    pub window: Window,
}

/// The run of a policy file and of a workload or a file of events, and the part of it that words name: all of it,
/// if there are none.
///
/// # Errors
///
/// The texts are refused, or the words are.
#[tactic(auto, using(crate::proofs::PartCauses::bad_span_of_scenario))]
pub fn prepare_scenario_part(
    alloc: Global,
    policy: &str,
    scenario: &str,
    span: Option<Span<'_>>,
) -> Result<ScenarioPart, Refusal>
    ensures run { IfOk result
        (λ part. IsScenarioRun policy.now scenario.now part.run.scenario part.run.sim) }
    ensures events { IfOk result (λ part.
        remaining part.run.events part.run.sim ≡ scenario_events part.run.scenario part.run.sim) }
    ensures window { IfOk result
        (λ part. IsWindow (workload_of part.run.scenario).ms span.entry part.window) }
    ensures refused { IfErr result (IsScenarioPartCause policy.now scenario.now span.entry) }
{
    let run = prepare_scenario(alloc, policy, scenario)?;
    part_of(run, span)
}

/// This run, and the part of it that words name.
fn part_of(run: ScenarioRun, span: Option<Span<'_>>) -> Result<ScenarioPart, Refusal>
    ensures run { IfOk result (λ part. part.run ≡ run) }
    ensures window { IfOk result
        (λ part. IsWindow (workload_of run.scenario).ms span.entry part.window) }
    ensures refused { IfErr result (IsBadSpan (workload_of run.scenario).ms span.entry) }
{
    match Window::of(span, run.scenario.workload().ms()) {
        Ok(window) => Ok(ScenarioPart { run, window }),
        Err(refusal) => {
            drop(run);
            Err(refusal)
        }
    }
}
