ghost use Rattle.std.specs.Prelude.{◌≡◌, ◌++◌, ℕ, List, true, Err, IfOk, OnOk};
ghost use Rattle.std.specs.Io.KnownBytes.{Appends};
ghost use Rattle.scxsim_output.specs.Output.{HasFailed};
ghost use Rattle.scxsim_commands.specs.Outcome.{IfRefused, IsRefused};
ghost use Rattle.scxsim_commands.specs.declared.refusal.Refusal.TheVariants.{NoMemory};

use crate::sketches::{Sketch, write_sketch};
use scxsim_commands::{Fault, Refusal};
use scxsim_output::Out;
use scxsim_runs::{Heard, Listener, ScenarioRun, give_back};
use std::alloc::AllocError;

/// Goes through the run, and writes its sketch between a head and an end, if there was memory for the sketch. The
/// answer is true.
///
/// # Errors
///
/// There was no memory for a sketch, and then nothing is written, or writing fails.
pub fn write_document<S: Sketch + Drop, L: Listener, W: Out>(
    run: ScenarioRun,
    sketch: Result<S, AllocError>,
    head: &str,
    end: &str,
    listener: &mut L,
    out: &mut W,
) -> Result<bool, Fault>
    ensures done { IfOk result (λ answer. (answer ≡ true) × (made : List ℕ)
        × Appends (W.contents out.old) (W.contents out.new) (head.now ++ made ++ end.now)) }
    ensures unfailed { OnOk result (W.failure_count out.new ≡ W.failure_count out.old) }
    ensures refused { IfRefused result (λ refusal. refusal ≡ NoMemory) }
    ensures quiet { IsRefused result → out.new ≡ out.old }
    ensures counted { result ≡ Err Fault.WriteFailed
        → HasFailed (W.failure_count out.old) (W.failure_count out.new) }
{
    let Ok(mut sketch) = sketch else {
        run.give_back();
        return Err(Fault::Refused(Refusal::NoMemory));
    };
    let ScenarioRun {
        scenario,
        events,
        mut sim,
        ..
    } = run;
    let mut events = Heard::new(events, scenario.workload().ms(), listener);
    let written = write_sketch(
        &mut sim,
        &mut events,
        &mut sketch,
        scenario.workload(),
        head,
        end,
        out,
    );
    drop(sketch);
    give_back(events, sim);
    drop(scenario);
    written?;
    Ok(true)
}
