ghost use Rattle.std.specs.Prelude.{◌≡◌, true, Err, IfOk, OnOk};
ghost use Rattle.std.specs.Io.KnownBytes.{Appends};
ghost use Rattle.scx_sched.specs.Sim.{SimState};
ghost use Rattle.scx_load_replay.specs.Events.{replay_events};
ghost use Rattle.scx_load_replay.specs.Replay.{ReplayState};
ghost use Rattle.scxsim_output.specs.Output.{HasFailed, AppendsBeginning};
ghost use Rattle.scxsim_commands.specs.Outcome.{IfRefused, IsRefused};
ghost use Rattle.scxsim_runs.specs.Replays.{IsReplayRun, IsReplayCause};
ghost use Rattle.scxsim_simulation.specs.Traces.{IsOfHeadline, IsCutOff, replay_text};

use crate::simulating::write_trace;
use scxsim_commands::Fault;
use scxsim_output::Out;
use scxsim_runs::{Listener, prepare_replay};
use std::alloc::Global;

/// Writes the trace of the run of a policy file's text and a file of events. The answer is true.
///
/// # Errors
///
/// The texts are refused, and then nothing is written, or writing the trace fails.
pub fn replay<L: Listener, W: Out>(
    alloc: Global,
    policy: &str,
    events: &str,
    listener: &mut L,
    out: &mut W,
) -> Result<bool, Fault>
    // The trace is written of a run, and the headline holds of it.
    ensures done { IfOk result (λ answer. (answer ≡ true)
        × (r : ReplayState) × (s : SimState) × (run : IsReplayRun policy.now events.now r s)
        × IsOfHeadline run.begun (replay_events r)
        × Appends (W.contents out.old) (W.contents out.new) (replay_text r s)) }
    ensures unfailed { OnOk result (W.failure_count out.new ≡ W.failure_count out.old) }

    // A refusal has its cause in the texts, and comes before any byte is written.
    ensures refused { IfRefused result (IsReplayCause policy.now events.now) }
    ensures quiet { IsRefused result → out.new ≡ out.old }

    // The trace is cut off where writing fails, and the run ends there.
    ensures cut { result ≡ Err Fault.WriteFailed
        → (r : ReplayState) × (s : SimState) × (run : IsReplayRun policy.now events.now r s)
        × IsCutOff run.begun (replay_events r) (W.contents out.old) (W.contents out.new)
        × AppendsBeginning (W.contents out.old) (W.contents out.new) (replay_text r s) }
    ensures counted { result ≡ Err Fault.WriteFailed
        → HasFailed (W.failure_count out.old) (W.failure_count out.new) }
{
    let run = prepare_replay(alloc, policy, events)?;
    run.workload.is_whole();
    run.sim.is_sound();
    write_trace(run, listener, out)?;
    Ok(true)
}
