ghost use Rattle.std.specs.Prelude.{◌≡◌, Ok, IfOk, IfErr, OnOk, string_bytes};
ghost use Rattle.scx_sched_machine.specs.Callbacks.{AreAnswered};
ghost use Rattle.scx_sched_machine.specs.Start.{start_calls};
ghost use Rattle.scx_sched.specs.Sim.{IsFirstState};
ghost use Rattle.scx_load_workloads.specs.Workload.{first_tree};
ghost use Rattle.scx_load_driver.specs.Runs.{AreAccepted};
ghost use Rattle.scx_load_replay.specs.Reading.{has_events};
ghost use Rattle.scx_load_replay.specs.Scenarios.{workload_of, scenario_events, scenario_if, scenario_by};
ghost use Rattle.scx_load_replay.specs.Sources.{remaining};
ghost use Rattle.scxsim_runs.specs.Runs.{name_in, IsStartFault};
ghost use Rattle.scxsim_runs.specs.Scenarios.{IsScenarioRun, IsScenarioCause, IsScenarioFault, IsFaultIf};
ghost use Rattle.scxsim_runs.specs.ScenarioLaws.{TextsWithoutEventsAreWorkloads, TextsWithEventsAreFilesOfEvents};

use crate::preparing::{Run, policy_in, start, workload_in};
use crate::replays::events_in;
use scx_isa_semantics::Rules;
use scx_load_driver::{give_back_machine, give_back_policy};
use scx_load_policies::build_seeded;
use scx_load_replay::{Scenario, Source, is_events};
use scx_sched::{Policy, Sim};
use scxsim_commands::Refusal;
use std::alloc::{AllocError, Global};

/// A run that is about to begin, of a workload or of a file of events.
#[derive(Drop)]
pub struct ScenarioRun {
    /// The policy's name, empty where its file gives none.
    pub policy_name: String,
    pub scenario: Scenario,
    /// The source of its events.
    pub events: Source,
    pub sim: Sim,
}

impl ScenarioRun {
    /// The machine once more, with all events of the scenario: for a caller who goes through the run twice.
    ///
    /// # Errors
    ///
    /// Memory ran out.
    pub fn duplicate(&self, alloc: Global) -> Result<(Source, Sim), AllocError>
        ensures machine { IfOk result (λ copy. copy.1 ≡ self.now.sim) }
        ensures events { IfOk result
            (λ copy. remaining copy.0 copy.1 ≡ scenario_events self.now.scenario copy.1) }
    {
        let events = self.scenario.events(alloc)?;
        let sim = self.sim.duplicate(alloc)?;
        Ok((events, sim))
    }

    /// Gives back the run's memory.
    pub fn give_back(self) {
        let ScenarioRun {
            policy_name,
            scenario,
            events,
            sim,
        } = self;
        drop(policy_name);
        drop(scenario);
        give_back_start(events, sim);
    }

    /// The run, without the lines of a file of events.
    pub fn into_run(self) -> Run<Source>
        ensures name { result.policy_name ≡ self.policy_name }
        ensures workload { result.workload ≡ workload_of self.scenario }
        ensures events { result.driver ≡ self.events }
        ensures machine { result.sim ≡ self.sim }
    {
        let ScenarioRun {
            policy_name,
            scenario,
            events,
            sim,
        } = self;
        Run {
            policy_name,
            workload: scenario.into_workload(),
            driver: events,
            sim,
        }
    }
}

/// Gives back the memory of a machine and of its events.
pub fn give_back_start(events: Source, sim: Sim) {
    drop(events);
    give_back_machine(sim);
}

/// The run of a policy file's text and of a workload's or of a file of events.
///
/// A text is read as a file of events if its top table has a key `events`, and else as a workload.
///
/// # Errors
///
/// The texts are refused.
pub fn prepare_scenario(alloc: Global, policy: &str, scenario: &str) -> Result<ScenarioRun, Refusal>
    ensures run { IfOk result
        (λ run. IsScenarioRun policy.now scenario.now run.scenario run.sim) }
    ensures events { IfOk result
        (λ run. remaining run.events run.sim ≡ scenario_events run.scenario run.sim) }
    ensures named { IfOk result (λ run. name_in policy.now ≡ Ok (string_bytes run.policy_name)) }
    ensures refused { IfErr result (IsScenarioCause policy.now scenario.now) }
{
    let text = policy_in(alloc, policy)?;
    let scenario = read_scenario(alloc, text.rules(), scenario)?;
    let name = String::from_str(alloc, text.name())?;
    let policy = build_seeded(alloc, text, scenario.workload().seed())?;
    begin_scenario(alloc, name, policy, scenario)
}

/// Reads a workload or a file of events for a policy by those rules.
///
/// # Errors
///
/// The text is refused.
pub fn read_scenario(alloc: Global, rules: Rules, text: &str) -> Result<Scenario, Refusal>
    ensures read { IfOk result (λ scenario. scenario_by rules text.now ≡ Ok scenario) }
    ensures refused { IfErr result (IsScenarioFault rules text.now) }
{
    let as_events = is_events(alloc, text)?;
    read_as(alloc, rules, text, as_events)
}

/// Reads a file of events, or else a workload.
fn read_as(alloc: Global, rules: Rules, text: &str, as_events: bool) -> Result<Scenario, Refusal>
    ensures read { IfOk result (λ scenario. scenario_if as_events rules text.now ≡ Ok scenario) }
    ensures refused { IfErr result (IsFaultIf as_events rules text.now) }
{
    if as_events {
        Ok(Scenario::Events(events_in(alloc, rules, text)?))
    } else {
        Ok(Scenario::Workload(workload_in(alloc, rules, text)?))
    }
}

/// The run of a scenario under a policy. All of its memory is taken here.
#[tactic(auto, using(scx_load_replay::proofs::Scenarios::none_of_either))]
fn begin_scenario(
    alloc: Global,
    name: String,
    policy: Policy,
    scenario: Scenario,
) -> Result<ScenarioRun, Refusal>
    ensures name { IfOk result (λ run. run.policy_name ≡ name) }
    ensures scenario { IfOk result (λ run. run.scenario ≡ scenario) }
    ensures first { IfOk result
        (λ run. IsFirstState policy (first_tree (workload_of scenario))
        (workload_of scenario).cpus run.sim) }
    ensures events { IfOk result
        (λ run. remaining run.events run.sim ≡ scenario_events scenario run.sim) }
    ensures accepted { IfOk result (λ run. AreAccepted run.sim (scenario_events scenario run.sim)) }
    ensures answered { OnOk result (AreAnswered
        (start_calls policy (first_tree (workload_of scenario))
        (workload_of scenario).cpus)) }
    ensures refused { IfErr result
        (IsStartFault policy (first_tree (workload_of scenario))
        (workload_of scenario).cpus) }
{
    scenario.is_whole();
    match scenario.events(alloc) {
        Ok(events) => begin_events(alloc, name, policy, scenario, events),
        Err(AllocError) => {
            drop(name);
            give_back_policy(policy);
            drop(scenario);
            Err(Refusal::NoMemory)
        }
    }
}

/// The run of a scenario under a policy, with the source of its events.
fn begin_events(
    alloc: Global,
    name: String,
    policy: Policy,
    scenario: Scenario,
    events: Source,
) -> Result<ScenarioRun, Refusal>
    ensures name { IfOk result (λ run. run.policy_name ≡ name) }
    ensures scenario { IfOk result (λ run. run.scenario ≡ scenario) }
    ensures events { IfOk result (λ run. run.events ≡ events) }
    ensures first { IfOk result
        (λ run. IsFirstState policy (first_tree (workload_of scenario))
        (workload_of scenario).cpus run.sim) }
    ensures answered { OnOk result (AreAnswered
        (start_calls policy (first_tree (workload_of scenario))
        (workload_of scenario).cpus)) }
    ensures refused { IfErr result
        (IsStartFault policy (first_tree (workload_of scenario))
        (workload_of scenario).cpus) }
{
    match start(alloc, policy, scenario.workload()) {
        Ok(sim) => Ok(ScenarioRun {
            policy_name: name,
            scenario,
            events,
            sim,
        }),
        Err(refusal) => {
            drop(name);
            drop(scenario);
            drop(events);
            Err(refusal)
        }
    }
}

/// A text without a key `events` is a workload as it is for `prepare`. The function does nothing: its
/// contract is the law.
#[tactic(auto, using(crate::proofs::Either::without_events))]
pub fn texts_without_events_are_workloads()
    ensures { TextsWithoutEventsAreWorkloads }
{}

/// A text with a key `events` is a file of events as it is for `prepare_replay`. The function does nothing, as
/// the one above.
#[tactic(auto, using(crate::proofs::Either::with_events))]
pub fn texts_with_events_are_files_of_events()
    ensures { TextsWithEventsAreFilesOfEvents }
{}
