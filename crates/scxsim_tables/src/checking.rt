ghost use Rattle.std.specs.Prelude.{◌≡◌, ℕ, List, Err, IfOk, IfErr, OnOk, string_bytes};
ghost use Rattle.std.specs.Io.KnownBytes.{Appends};
ghost use Rattle.scxsim_output.specs.Output.{HasFailed, AppendsBeginning};
ghost use Rattle.scxsim_commands.specs.Outcome.{IfRefused, IsRefused};
ghost use Rattle.scxsim_runs.specs.Scenarios.{IsScenarioCause};
ghost use Rattle.scxsim_statistics.specs.Figures.{AreOfTexts};
ghost use Rattle.scxsim_statistics.specs.declared.gathering.Figures.{Figures as AllFigures};
ghost use Rattle.scxsim_tables.specs.Tables.{check_line, is_in_force};

use crate::tables::write_check;
use crate::telling::figures_and_words;
use scxsim_commands::{Fault, Refusal};
use scxsim_output::{Out, Text, write_all};
use scxsim_runs::Listener;
use scxsim_statistics::Figures;
use std::alloc::{AllocError, Global};

/// The line of a run, and whether its policy is in force at the end.
#[derive(Drop)]
struct Checked {
    line: String,
    is_in_force: bool,
}

/// Writes one line on the run of a policy file's text and of a workload's or of a file of events: that the policy is in
/// force at the end, or when and why it was ejected. The answer is whether it is in force.
///
/// # Errors
///
/// The texts are refused, or memory runs out, and then nothing is written, or writing the line fails.
pub fn check_run<L: Listener, W: Out>(
    alloc: Global,
    policy: &str,
    scenario: &str,
    listener: &mut L,
    out: &mut W,
) -> Result<bool, Fault>
    // The line is of the run's figures, with some words to a fault or exit.
    ensures done { IfOk result (λ answer. (f : AllFigures)
        × AreOfTexts policy.now scenario.now f × (answer ≡ is_in_force f) × (words : List ℕ)
        × Appends (W.contents out.old) (W.contents out.new) (check_line f words)) }
    ensures unfailed { OnOk result (W.failure_count out.new ≡ W.failure_count out.old) }

    // A refusal has its cause in the texts, and comes before any byte is written.
    ensures refused { IfRefused result (IsScenarioCause policy.now scenario.now) }
    ensures quiet { IsRefused result → out.new ≡ out.old }

    // The line is cut off where writing fails.
    ensures cut { result ≡ Err Fault.WriteFailed
        → (f : AllFigures) × AreOfTexts policy.now scenario.now f × (words : List ℕ)
        × AppendsBeginning (W.contents out.old) (W.contents out.new) (check_line f words) }
    ensures counted { result ≡ Err Fault.WriteFailed
        → HasFailed (W.failure_count out.old) (W.failure_count out.new) }
{
    let checked = checked_of(alloc, policy, scenario, listener)?;
    write_all(out, checked.line.as_str().as_bytes())?;
    Ok(checked.is_in_force)
}

/// The line of the run. All memory is taken before the first byte is written.
fn checked_of<L: Listener>(
    alloc: Global,
    policy: &str,
    scenario: &str,
    listener: &mut L,
) -> Result<Checked, Refusal>
    ensures checked { IfOk result (λ checked. (f : AllFigures)
        × AreOfTexts policy.now scenario.now f × (checked.is_in_force ≡ is_in_force f)
        × (words : List ℕ) × (string_bytes checked.line ≡ check_line f words)) }
    ensures refused { IfErr result (IsScenarioCause policy.now scenario.now) }
{
    let found = figures_and_words(alloc, policy, scenario, listener)?;
    let is_in_force = stays_in_force(&found.figures);
    let line = line_of(alloc, &found.figures, found.words.as_str());
    drop(found);
    let line = line?;
    Ok(Checked { line, is_in_force })
}

/// True if the policy is in force at the end.
fn stays_in_force(figures: &Figures) -> bool
    ensures { result ≡ is_in_force figures.now }
{
    match figures.ejected {
        None => true,
        Some(_) => false,
    }
}

/// The line of these figures, with these words to the fault or exit.
fn line_of(alloc: Global, figures: &Figures, words: &str) -> Result<String, AllocError>
    ensures { IfOk result (λ line. string_bytes line ≡ check_line figures.now words.now) }
{
    let mut line = Text::new(alloc);
    write_check(figures, words, &mut line);
    line.finish()
}
