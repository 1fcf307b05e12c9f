ghost use Rattle.std.specs.Prelude.{◌≡◌, true, Err, IfOk, OnOk, OnErr};
ghost use Rattle.std.specs.Io.KnownBytes.{Appends};
ghost use Rattle.scx_sched.specs.Sim.{SimState};
ghost use Rattle.scx_load_workloads.specs.Workload.{WorkloadState};
ghost use Rattle.scx_load_driver.specs.Events.{workload_events};
ghost use Rattle.scx_load_driver.specs.Runs.{notes_of_all};
ghost use Rattle.scxsim_output.specs.Output.{Counts, HasFailed, AppendsBeginning};
ghost use Rattle.scxsim_commands.specs.Outcome.{IfRefused, IsRefused};
ghost use Rattle.scxsim_trace.specs.Lines.{names_of, note_lines};
ghost use Rattle.scxsim_trace.specs.Runs.{StaysInOrder, StopsAtFailure};
ghost use Rattle.scxsim_runs.specs.Runs.{IsRun, IsCause};
ghost use Rattle.scxsim_simulation.specs.Traces.{IsOfHeadline, IsCutOff, trace_text};

use scx_load_driver::Events;
use scxsim_commands::Fault;
use scxsim_output::{Failed, Out};
use scxsim_runs::{Heard, Listener, Run, give_back, prepare};
use scxsim_trace::write_run;
use std::alloc::Global;

/// Writes the trace of the run of a policy file's text and a workload file's. The answer is true.
///
/// # Errors
///
/// The texts are refused, and then nothing is written, or writing the trace fails.
pub fn simulate<L: Listener, W: Out>(
    alloc: Global,
    policy: &str,
    workload: &str,
    listener: &mut L,
    out: &mut W,
) -> Result<bool, Fault>
    // The trace is written of a run, and the headline holds of it.
    ensures done { IfOk result (λ answer. (answer ≡ true)
        × (w : WorkloadState) × (s : SimState) × (run : IsRun policy.now workload.now w s)
        × IsOfHeadline run.begun (workload_events w s)
        × Appends (W.contents out.old) (W.contents out.new) (trace_text w s)) }
    ensures unfailed { OnOk result (W.failure_count out.new ≡ W.failure_count out.old) }

    // A refusal has its cause in the texts, and comes before any byte is written.
    ensures refused { IfRefused result (IsCause policy.now workload.now) }
    ensures quiet { IsRefused result → out.new ≡ out.old }

    // The trace is cut off where writing fails, and the run ends there.
    ensures cut { result ≡ Err Fault.WriteFailed
        → (w : WorkloadState) × (s : SimState) × (run : IsRun policy.now workload.now w s)
        × IsCutOff run.begun (workload_events w s) (W.contents out.old) (W.contents out.new)
        × AppendsBeginning (W.contents out.old) (W.contents out.new) (trace_text w s) }
    ensures counted { result ≡ Err Fault.WriteFailed
        → HasFailed (W.failure_count out.old) (W.failure_count out.new) }
{
    let run = prepare(alloc, policy, workload)?;
    run.workload.is_whole();
    run.sim.is_sound();
    write_trace(run, listener, out)?;
    Ok(true)
}

/// Writes a line for each note of the run.
pub(crate) fn write_trace<E: Events + Drop, L: Listener, W: Out>(
    run: Run<E>,
    listener: &mut L,
    out: &mut W,
) -> Result<(), Failed>
    ensures ok { OnOk result (Appends (W.contents out.old) (W.contents out.new)
        (note_lines (names_of run.workload)
        (notes_of_all run.sim (E.remaining run.driver run.sim)))) }
    ensures ok_in_order { OnOk result (StaysInOrder run.sim (E.remaining run.driver run.sim)) }
    ensures err { OnErr result (AppendsBeginning (W.contents out.old) (W.contents out.new)
        (note_lines (names_of run.workload)
        (notes_of_all run.sim (E.remaining run.driver run.sim)))) }
    ensures err_stopped { OnErr result ((end : SimState) ×
        StopsAtFailure (names_of run.workload) (E.remaining run.driver run.sim) run.sim end
        (W.contents out.old) (W.contents out.new)) }
    ensures failures { Counts result (W.failure_count out.old) (W.failure_count out.new) }
{
    let Run {
        workload,
        driver,
        mut sim,
        ..
    } = run;
    let mut events = Heard::new(driver, workload.ms(), listener);
    let written = write_run(&mut sim, &mut events, &workload, out);
    give_back(events, sim);
    drop(workload);
    written
}
