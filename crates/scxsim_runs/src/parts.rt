ghost use Rattle.std.specs.Prelude.{◌≡◌, IfOk, IfErr};
ghost use Rattle.scxsim_commands.specs.Windows.{IsWindow, IsBadSpan};
ghost use Rattle.scxsim_runs.specs.Runs.{IsRun};
ghost use Rattle.scxsim_runs.specs.Parts.{IsPartCause};

use crate::preparing::{Run, prepare};
use scxsim_commands::{Refusal, Span, Window};
use std::alloc::Global;

/// A run that is about to begin, and a part of it.
#[derive(Drop)]
pub struct RunPart {
    pub run: Run,
    pub window: Window,
}

/// The run of a policy file and a workload file, and the part of it that words name: all of it, if there are none.
///
/// # Errors
///
/// The texts are refused, or the words are.
#[tactic(auto, using(crate::proofs::PartCauses::bad_span))]
pub fn prepare_part(
    alloc: Global,
    policy: &str,
    workload: &str,
    span: Option<Span<'_>>,
) -> Result<RunPart, Refusal>
    ensures run { IfOk result
        (λ part. IsRun policy.now workload.now part.run.workload part.run.sim) }
    ensures window { IfOk result
        (λ part. IsWindow part.run.workload.ms span.entry part.window) }
    ensures refused { IfErr result (IsPartCause policy.now workload.now span.entry) }
{
    let run = prepare(alloc, policy, workload)?;
    part_of(run, span)
}

/// This run, and the part of it that words name.
fn part_of(run: Run, span: Option<Span<'_>>) -> Result<RunPart, Refusal>
    ensures run { IfOk result (λ part. part.run ≡ run) }
    ensures window { IfOk result (λ part. IsWindow run.workload.ms span.entry part.window) }
    ensures refused { IfErr result (IsBadSpan run.workload.ms span.entry) }
{
    match Window::of(span, run.workload.ms()) {
        Ok(window) => Ok(RunPart { run, window }),
        Err(refusal) => {
            drop(run);
            Err(refusal)
        }
    }
}
