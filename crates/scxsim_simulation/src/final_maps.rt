ghost use Rattle.std.specs.Prelude.{◌≡◌, true, Err, IfOk, IfErr, OnOk, string_bytes};
ghost use Rattle.std.specs.Io.KnownBytes.{Appends};
ghost use Rattle.scx_sched.specs.Sim.{SimState};
ghost use Rattle.scx_load_replay.specs.declared.scenario.Scenario.{Scenario};
ghost use Rattle.scx_load_replay.specs.Scenarios.{scenario_events};
ghost use Rattle.scx_load_replay.specs.Sources.{remaining};
ghost use Rattle.scxsim_output.specs.Output.{HasFailed, AppendsBeginning};
ghost use Rattle.scxsim_commands.specs.Outcome.{IfRefused, IsRefused};
ghost use Rattle.scxsim_runs.specs.Scenarios.{IsScenarioRun, IsScenarioCause};
ghost use Rattle.scxsim_simulation.specs.MapLines.{map_lines, maps_text};

use crate::map_lines::push_maps;
use scx_maps::Maps;
use scxsim_commands::{Fault, Refusal};
use scxsim_output::{Out, Text, write_all};
use scxsim_runs::{Heard, Listener, ScenarioRun, give_back, prepare_scenario};
use scxsim_trace::run_silently;
use std::alloc::{AllocError, Global};

/// Writes what the policy's maps hold at the end of the run of a policy file's text and of a workload's or of a file
/// of events. The answer is true.
///
/// # Errors
///
/// The texts are refused, or memory runs out, and then nothing is written, or writing fails.
pub fn maps_at_end<L: Listener, W: Out>(
    alloc: Global,
    policy: &str,
    scenario: &str,
    listener: &mut L,
    out: &mut W,
) -> Result<bool, Fault>
    // The lines are of the maps after the last event of a run.
    ensures done { IfOk result (λ answer. (answer ≡ true)
        × (x : Scenario) × (s : SimState) × IsScenarioRun policy.now scenario.now x s
        × Appends (W.contents out.old) (W.contents out.new) (maps_text x s)) }
    ensures unfailed { OnOk result (W.failure_count out.new ≡ W.failure_count out.old) }

    // A refusal has its cause in the texts, and comes before any byte is written.
    ensures refused { IfRefused result (IsScenarioCause policy.now scenario.now) }
    ensures quiet { IsRefused result → out.new ≡ out.old }

    // The lines are cut off where writing fails.
    ensures cut { result ≡ Err Fault.WriteFailed
        → (x : Scenario) × (s : SimState) × IsScenarioRun policy.now scenario.now x s
        × AppendsBeginning (W.contents out.old) (W.contents out.new) (maps_text x s) }
    ensures counted { result ≡ Err Fault.WriteFailed
        → HasFailed (W.failure_count out.old) (W.failure_count out.new) }
{
    let text = text_of_run(alloc, policy, scenario, listener)?;
    write_all(out, text.as_str().as_bytes())?;
    Ok(true)
}

/// The lines of the maps. All memory is taken before the first byte is written.
fn text_of_run<L: Listener>(
    alloc: Global,
    policy: &str,
    scenario: &str,
    listener: &mut L,
) -> Result<String, Refusal>
    ensures text { IfOk result (λ text. (x : Scenario) × (s : SimState)
        × IsScenarioRun policy.now scenario.now x s × (string_bytes text ≡ maps_text x s)) }
    ensures refused { IfErr result (IsScenarioCause policy.now scenario.now) }
{
    let run = prepare_scenario(alloc, policy, scenario)?;
    Ok(text_after(alloc, run, listener)?)
}

/// Goes through the run, and makes the lines of the maps.
fn text_after<L: Listener>(
    alloc: Global,
    run: ScenarioRun,
    listener: &mut L,
) -> Result<String, AllocError>
    requires { remaining run.events run.sim ≡ scenario_events run.scenario run.sim }
    ensures { IfOk result (λ text. string_bytes text ≡ maps_text run.scenario run.sim) }
{
    let ScenarioRun {
        scenario,
        events,
        mut sim,
        ..
    } = run;
    let mut events = Heard::new(events, scenario.workload().ms(), listener);
    run_silently(&mut sim, &mut events);
    let text = text_of(alloc, sim.maps());
    give_back(events, sim);
    drop(scenario);
    text
}

fn text_of(alloc: Global, maps: &Maps) -> Result<String, AllocError>
    ensures { IfOk result (λ text. string_bytes text ≡ map_lines maps.now) }
{
    let mut text = Text::new(alloc);
    push_maps(maps, &mut text);
    text.finish()
}
