ghost use Rattle.std.specs.Prelude.{◌≡◌, Ok, IfOk, IfErr, OnOk, string_bytes};
ghost use Rattle.scx_sched_machine.specs.Callbacks.{AreAnswered};
ghost use Rattle.scx_sched_machine.specs.Start.{start_calls};
ghost use Rattle.scx_sched.specs.Sim.{IsFirstState};
ghost use Rattle.scx_load_driver.specs.Runs.{AreAccepted};
ghost use Rattle.scx_load_workloads.specs.Workload.{first_tree};
ghost use Rattle.scx_load_replay.specs.Events.{replay_events};
ghost use Rattle.scx_load_replay.specs.Reading.{replay_by};
ghost use Rattle.scx_load_replay.specs.Replay.{ReplayState};
ghost use Rattle.scx_load_replay.specs.Replayer.{remaining};
ghost use Rattle.scxsim_runs.specs.Runs.{name_in, IsStartFault};
ghost use Rattle.scxsim_runs.specs.Replays.{IsReplayRun, IsReplayCause, IsEventsFault};

use crate::preparing::{Run, begin_with, or_refusal, policy_in};
use scx_isa_semantics::Rules;
use scx_load_policies::build_seeded;
use scx_load_replay::{Replay, Replayer, read_replay_by};
use scx_sched::Policy;
use scxsim_commands::{FileKind, Refusal};
use std::alloc::Global;

/// The run of a policy file's text and a file of events.
///
/// # Errors
///
/// The texts are refused.
pub fn prepare_replay(alloc: Global, policy: &str, events: &str) -> Result<Run<Replayer>, Refusal>
    ensures run { IfOk result (λ run. (r : ReplayState)
        × IsReplayRun policy.now events.now r run.sim
        × (run.workload ≡ r.workload) × (remaining run.driver ≡ replay_events r)) }
    ensures named { IfOk result (λ run. name_in policy.now ≡ Ok (string_bytes run.policy_name)) }
    ensures refused { IfErr result (IsReplayCause policy.now events.now) }
{
    let text = policy_in(alloc, policy)?;
    let replay = events_in(alloc, text.rules(), events)?;
    let name = String::from_str(alloc, text.name())?;
    let policy = build_seeded(alloc, text, replay.workload().seed())?;
    begin_replay(alloc, name, policy, replay)
}

/// The file of events of a text, for a policy by those rules.
pub(crate) fn events_in(alloc: Global, rules: Rules, text: &str) -> Result<Replay, Refusal>
    ensures read { IfOk result (λ replay. replay_by rules text.now ≡ Ok replay) }
    ensures refused { IfErr result (IsEventsFault rules text.now) }
{
    or_refusal(FileKind::Events, read_replay_by(alloc, rules, text))
}

/// The run of a file of events under a policy.
#[tactic(auto, using(scx_load_replay::proofs::Accepting::none_is_refused))]
fn begin_replay(
    alloc: Global,
    name: String,
    policy: Policy,
    replay: Replay,
) -> Result<Run<Replayer>, Refusal>
    ensures name { IfOk result (λ run. run.policy_name ≡ name) }
    ensures workload { IfOk result (λ run. run.workload ≡ replay.workload) }
    ensures events { IfOk result (λ run. remaining run.driver ≡ replay_events replay) }
    ensures first { IfOk result
        (λ run. IsFirstState policy (first_tree replay.workload)
        replay.workload.cpus run.sim) }
    ensures accepted { IfOk result (λ run. AreAccepted run.sim (replay_events replay)) }
    ensures answered { OnOk result (AreAnswered
        (start_calls policy (first_tree replay.workload)
        replay.workload.cpus)) }
    ensures refused { IfErr result
        (IsStartFault policy (first_tree replay.workload)
        replay.workload.cpus) }
{
    replay.is_whole();
    let (workload, replayer) = replay.into_parts();
    begin_with(alloc, name, policy, workload, replayer)
}
