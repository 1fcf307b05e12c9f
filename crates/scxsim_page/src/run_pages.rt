ghost use Rattle.std.specs.Prelude.{◌≡◌, ◌⊎◌, ℕ, List, true, Err, IfOk, IfErr, OnOk};
ghost use Rattle.std.specs.Io.KnownBytes.{Appends};
ghost use Rattle.scxsim_output.specs.Output.{HasFailed};
ghost use Rattle.scxsim_commands.specs.Outcome.{IfRefused, IsRefused};
ghost use Rattle.scxsim_commands.specs.declared.refusal.Refusal.TheVariants.{NoMemory};
ghost use Rattle.scxsim_page.specs.Pages.{page, IsPast, IsPastPart, IsPageCause, IsWidth, surely_fits, window_length};

use crate::drafts::Draft;
use crate::heads::Paths;
use crate::passes::{PassListener, RunPass};
use crate::stretch_count::count_stretches;
use scx_load_workloads::Workload;
use scxsim_commands::{Fault, MOST_STRETCHES, Refusal, Span, Window};
use scxsim_output::Out;
use scxsim_pictures::write_document;
use scxsim_runs::{Listener, ScenarioPart, ScenarioRun, prepare_scenario_part};
use scxsim_template::{CODE, TOP, shortest_width};
use std::alloc::Global;

/// Writes the page of the run of a policy file and of a workload or a file of events, or of a part of it. The answer
/// is true. Of a whole run with more stretches than a page holds, short ones are drawn together.
///
/// # Errors
///
/// The texts or the words of the part are refused, or the page of the part would hold too many stretches, or memory runs
/// out, and then nothing is written, or writing the page fails.
#[tactic(auto, using(crate::proofs::Refusing::out_of_memory))]
pub fn view<L: Listener, W: Out>(
    alloc: Global,
    paths: Paths<'_>,
    policy: &str,
    scenario: &str,
    span: Option<Span<'_>>,
    listener: &mut L,
    out: &mut W,
) -> Result<bool, Fault>
    ensures done { IfOk result (λ answer. (answer ≡ true) × (made : List ℕ)
        × Appends (W.contents out.old) (W.contents out.new) (page made)) }
    ensures unfailed { OnOk result (W.failure_count out.new ≡ W.failure_count out.old) }

    // A refusal has its cause in the texts or in the words, and comes before any byte is written.
    ensures refused { IfRefused result (IsPageCause policy.now scenario.now span.entry) }
    ensures quiet { IsRefused result → out.new ≡ out.old }
    ensures counted { result ≡ Err Fault.WriteFailed
        → HasFailed (W.failure_count out.old) (W.failure_count out.new) }
{
    let Fitted { part, width } = part_of_texts(alloc, policy, scenario, span, listener)?;
    let ScenarioPart { run, window } = part;
    let draft = Draft::new(alloc, paths, &run.scenario, window, width);
    let pass = last_pass(run.scenario.workload(), window);
    let mut heard = PassListener { listener, pass };
    write_document(run, draft, TOP, CODE, &mut heard, out)
}

/// A part of a run, and up to what length its stretches are drawn together, if a page doesn't hold all of them.
#[derive(Drop)]
struct Fitted {
    part: ScenarioPart,
    width: Option<u64>,
}

/// The run of the two texts, and the part of it that words name. It fits a page.
#[tactic(auto, using(crate::proofs::Refusing::too_many_of))]
fn part_of_texts<L: Listener>(
    alloc: Global,
    policy: &str,
    scenario: &str,
    span: Option<Span<'_>>,
    listener: &mut L,
) -> Result<Fitted, Refusal>
    ensures { IfErr result (IsPageCause policy.now scenario.now span.entry) }
{
    let part = prepare_scenario_part(alloc, policy, scenario, span)?;
    fitting(alloc, part, span.is_some(), listener)
}

/// This part of a run, or the whole, if its stretches fit a page.
fn fitting<L: Listener>(
    alloc: Global,
    part: ScenarioPart,
    is_part: bool,
    listener: &mut L,
) -> Result<Fitted, Refusal>
    ensures width { IfOk result (λ fitted.
        IsWidth is_part part.window part.run.scenario part.run.sim fitted.width) }
    ensures refused { IfErr result (λ refusal. (refusal ≡ NoMemory)
        ⊎ IsPastPart is_part part.window part.run.scenario part.run.sim refusal) }
{
    match fitting_width(alloc, &part.run, part.window, is_part, listener) {
        Ok(width) => Ok(Fitted { part, width }),
        Err(refusal) => {
            drop(part);
            Err(refusal)
        }
    }
}

/// Up to what length the stretches of a part of this run are drawn together, if a page doesn't hold all of them. They
/// are counted where it may not. Only those of a whole run are drawn together.
fn fitting_width<L: Listener>(
    alloc: Global,
    run: &ScenarioRun,
    window: Window,
    is_part: bool,
    listener: &mut L,
) -> Result<Option<u64>, Refusal>
    ensures width { IfOk result
        (IsWidth is_part window run.now.scenario run.now.sim) }
    ensures refused { IfErr result (λ refusal. (refusal ≡ NoMemory)
        ⊎ IsPastPart is_part window run.now.scenario run.now.sim refusal) }
{
    let tasks = run.scenario.workload().tasks().len() as u64;
    let span = window_length(window);
    if surely_fits(tasks, span) {
        return Ok(None);
    }
    let pass = RunPass::First;
    let mut heard = PassListener { listener, pass };
    let count = count_stretches(alloc, run, window, &mut heard)?;
    if count <= MOST_STRETCHES {
        return Ok(None);
    }
    if is_part {
        return Err(Refusal::TooManyStretches(count));
    }
    Ok(Some(shortest_width(tasks, span, MOST_STRETCHES)))
}

/// The pass that writes the page.
fn last_pass(workload: &Workload, window: Window) -> RunPass {
    if surely_fits(workload.tasks().len() as u64, window_length(window)) {
        RunPass::Only
    } else {
        RunPass::Second
    }
}

/// True if a page holds all stretches whatever the tasks do: a task has at most one for each millisecond.
fn surely_fits(tasks: u64, span: u64) -> bool
    ensures { result ≡ surely_fits tasks span }
{
    span.saturating_mul(tasks) <= MOST_STRETCHES
}

fn window_length(window: Window) -> u64
    ensures { result ≡ window_length window }
{
    window.to.saturating_sub(window.from)
}
