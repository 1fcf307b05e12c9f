ghost use Rattle.std.specs.Prelude.{◌≡◌, true, Err, IfOk, OnOk, OnErr};
ghost use Rattle.std.specs.Io.KnownBytes.{Appends};
ghost use Rattle.scx_sched.specs.Sim.{SimState};
ghost use Rattle.scx_load_workloads.specs.Workload.{WorkloadState};
ghost use Rattle.scx_load_driver.specs.Driver.{remaining};
ghost use Rattle.scx_load_driver.specs.Events.{workload_events};
ghost use Rattle.scxsim_output.specs.Output.{Counts, HasFailed, AppendsBeginning};
ghost use Rattle.scxsim_commands.specs.Outcome.{IfRefused, IsRefused};
ghost use Rattle.scxsim_trace.specs.Runs.{StaysInOrder};
ghost use Rattle.scxsim_runs.specs.Runs.{IsRun, IsCause};
ghost use Rattle.scxsim_simulation.specs.Traces.{IsOfHeadline, report_text};

use scxsim_commands::Fault;
use scxsim_output::{Failed, Out};
use scxsim_runs::{Heard, Listener, Run, give_back, prepare};
use scxsim_trace::{run_silently, write_report};
use std::alloc::Global;

/// Writes how long each task ran in the run of a policy file's text and a workload file's, and whether the
/// policy is in force at its end. The answer is true.
///
/// # Errors
///
/// The texts are refused, and then nothing is written, or writing the report fails.
pub fn report<L: Listener, W: Out>(
    alloc: Global,
    policy: &str,
    workload: &str,
    listener: &mut L,
    out: &mut W,
) -> Result<bool, Fault>
    // The report is written of a run, and the headline holds of it.
    ensures done { IfOk result (λ answer. (answer ≡ true)
        × (w : WorkloadState) × (s : SimState) × (run : IsRun policy.now workload.now w s)
        × IsOfHeadline run.begun (workload_events w s)
        × Appends (W.contents out.old) (W.contents out.new) (report_text w s)) }
    ensures unfailed { OnOk result (W.failure_count out.new ≡ W.failure_count out.old) }

    // A refusal has its cause in the texts, and comes before any byte is written.
    ensures refused { IfRefused result (IsCause policy.now workload.now) }
    ensures quiet { IsRefused result → out.new ≡ out.old }

    // The report is cut off where writing fails.
    ensures cut { result ≡ Err Fault.WriteFailed
        → (w : WorkloadState) × (s : SimState) × (run : IsRun policy.now workload.now w s)
        × IsOfHeadline run.begun (workload_events w s)
        × AppendsBeginning (W.contents out.old) (W.contents out.new) (report_text w s) }
    ensures counted { result ≡ Err Fault.WriteFailed
        → HasFailed (W.failure_count out.old) (W.failure_count out.new) }
{
    let run = prepare(alloc, policy, workload)?;
    run.workload.is_whole();
    run.sim.is_sound();
    write_end(run, listener, out)?;
    Ok(true)
}

/// Goes through the run, and writes how long each task ran.
fn write_end<L: Listener, W: Out>(run: Run, listener: &mut L, out: &mut W) -> Result<(), Failed>
    requires { remaining run.driver run.sim ≡ workload_events run.workload run.sim }
    ensures ok { OnOk result
        (Appends (W.contents out.old) (W.contents out.new) (report_text run.workload run.sim)) }
    ensures err { OnErr result
        (AppendsBeginning (W.contents out.old) (W.contents out.new)
        (report_text run.workload run.sim)) }
    ensures failures { Counts result (W.failure_count out.old) (W.failure_count out.new) }
    ensures in_order { StaysInOrder run.sim (workload_events run.workload run.sim) }
{
    let Run {
        workload,
        driver,
        mut sim,
        ..
    } = run;
    let mut events = Heard::new(driver, workload.ms(), listener);
    run_silently(&mut sim, &mut events);
    let written = write_report(&sim, &workload, out);
    give_back(events, sim);
    drop(workload);
    written
}
