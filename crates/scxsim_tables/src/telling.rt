ghost use Rattle.std.specs.Prelude.{◌≡◌, ◌++◌, ℕ, List, true, is_some, Err, IfOk, IfErr, OnOk, OnErr, string_bytes};
ghost use Rattle.std.specs.Io.KnownBytes.{Appends};
ghost use Rattle.scxsim_output.specs.Output.{Counts, HasFailed, AppendsBeginning};
ghost use Rattle.scxsim_commands.specs.declared.refusal.Refusal.TheVariants.{NoMemory};
ghost use Rattle.scxsim_commands.specs.Outcome.{IfRefused, IsRefused};
ghost use Rattle.scxsim_runs.specs.Scenarios.{IsScenarioCause};
ghost use Rattle.scxsim_runs.specs.Replays.{IsReplayCause};
ghost use Rattle.scxsim_statistics.specs.Figures.{AreOfTexts, AreOfEvents};
ghost use Rattle.scxsim_statistics.specs.declared.gathering.Figures.{Figures as AllFigures};
ghost use Rattle.scxsim_tables.specs.Tables.{table_rows, tables, is_for_callback};
ghost use Rattle.scxsim_tables.specs.Values.{value_rows, values};

use crate::tables::{TASKS, write_cause, write_tables};
use crate::values::{COLUMNS, write_list};
use scx_sched::Eject;
use scxsim_commands::{Fault, Refusal};
use scxsim_faults::{FaultPlace, find_fault_among};
use scxsim_output::{Failed, Out, Text, write_all};
use scxsim_runs::{Listener, give_back_start};
use scxsim_statistics::{
    Figures, FiguresAndStart, Start, figures, figures_and_start, replay_figures,
};
use std::alloc::{AllocError, Global};

/// Writes tables of the figures of the run of a policy file's text and of a workload's or of a file of events. The
/// answer is true.
///
/// # Errors
///
/// The texts are refused, or memory runs out, and then nothing is written, or writing the tables fails.
pub fn stats<L: Listener, W: Out>(
    alloc: Global,
    policy: &str,
    scenario: &str,
    listener: &mut L,
    out: &mut W,
) -> Result<bool, Fault>
    // The tables are those of the run's figures, with some words to a fault or exit.
    ensures done { IfOk result (λ answer. (answer ≡ true)
        × (f : AllFigures) × AreOfTexts policy.now scenario.now f × (words : List ℕ)
        × Appends (W.contents out.old) (W.contents out.new) (tables f words)) }
    ensures unfailed { OnOk result (W.failure_count out.new ≡ W.failure_count out.old) }

    // A refusal has its cause in the texts, and comes before any byte is written.
    ensures refused { IfRefused result (IsScenarioCause policy.now scenario.now) }
    ensures quiet { IsRefused result → out.new ≡ out.old }

    // The tables are cut off where writing fails.
    ensures cut { result ≡ Err Fault.WriteFailed
        → (f : AllFigures) × AreOfTexts policy.now scenario.now f × (words : List ℕ)
        × AppendsBeginning (W.contents out.old) (W.contents out.new) (tables f words) }
    ensures counted { result ≡ Err Fault.WriteFailed
        → HasFailed (W.failure_count out.old) (W.failure_count out.new) }
{
    let rows = tables_of(alloc, policy, scenario, listener)?;
    write_rows(TASKS, rows.as_str(), out)?;
    Ok(true)
}

/// Writes the figures of the run of a policy file's text and of a workload's or of a file of events as
/// comma-separated values. The answer is true.
///
/// # Errors
///
/// The texts are refused, or memory runs out, and then nothing is written, or writing the values fails.
pub fn stats_csv<L: Listener, W: Out>(
    alloc: Global,
    policy: &str,
    scenario: &str,
    listener: &mut L,
    out: &mut W,
) -> Result<bool, Fault>
    // The values are those of the run's figures.
    ensures done { IfOk result (λ answer. (answer ≡ true)
        × (f : AllFigures) × AreOfTexts policy.now scenario.now f
        × Appends (W.contents out.old) (W.contents out.new) (values f)) }
    ensures unfailed { OnOk result (W.failure_count out.new ≡ W.failure_count out.old) }

    // A refusal has its cause in the texts, and comes before any byte is written.
    ensures refused { IfRefused result (IsScenarioCause policy.now scenario.now) }
    ensures quiet { IsRefused result → out.new ≡ out.old }

    // The values are cut off where writing fails.
    ensures cut { result ≡ Err Fault.WriteFailed
        → (f : AllFigures) × AreOfTexts policy.now scenario.now f
        × AppendsBeginning (W.contents out.old) (W.contents out.new) (values f) }
    ensures counted { result ≡ Err Fault.WriteFailed
        → HasFailed (W.failure_count out.old) (W.failure_count out.new) }
{
    let all = figures(alloc, policy, scenario, listener)?;
    write_values(alloc, all, out)
}

/// Writes the figures of the run of a policy file's text and a file of events as comma-separated values. The answer is
/// true.
///
/// # Errors
///
/// The texts are refused, or memory runs out, and then nothing is written, or writing the values fails.
pub fn replay_csv<L: Listener, W: Out>(
    alloc: Global,
    policy: &str,
    events: &str,
    listener: &mut L,
    out: &mut W,
) -> Result<bool, Fault>
    // The values are those of the run's figures.
    ensures done { IfOk result (λ answer. (answer ≡ true)
        × (f : AllFigures) × AreOfEvents policy.now events.now f
        × Appends (W.contents out.old) (W.contents out.new) (values f)) }
    ensures unfailed { OnOk result (W.failure_count out.new ≡ W.failure_count out.old) }

    // A refusal has its cause in the texts, and comes before any byte is written.
    ensures refused { IfRefused result (IsReplayCause policy.now events.now) }
    ensures quiet { IsRefused result → out.new ≡ out.old }

    // The values are cut off where writing fails.
    ensures cut { result ≡ Err Fault.WriteFailed
        → (f : AllFigures) × AreOfEvents policy.now events.now f
        × AppendsBeginning (W.contents out.old) (W.contents out.new) (values f) }
    ensures counted { result ≡ Err Fault.WriteFailed
        → HasFailed (W.failure_count out.old) (W.failure_count out.new) }
{
    let all = replay_figures(alloc, policy, events, listener)?;
    write_values(alloc, all, out)
}

/// Writes these figures as comma-separated values. The answer is true.
fn write_values<W: Out>(alloc: Global, figures: Figures, out: &mut W) -> Result<bool, Fault>
    ensures done { IfOk result (λ answer. (answer ≡ true)
        × Appends (W.contents out.old) (W.contents out.new) (values figures)) }
    ensures unfailed { OnOk result (W.failure_count out.new ≡ W.failure_count out.old) }
    ensures refused { IfRefused result (λ refusal. refusal ≡ NoMemory) }
    ensures quiet { IsRefused result → out.new ≡ out.old }
    ensures cut { result ≡ Err Fault.WriteFailed
        → AppendsBeginning (W.contents out.old) (W.contents out.new) (values figures) }
    ensures counted { result ≡ Err Fault.WriteFailed
        → HasFailed (W.failure_count out.old) (W.failure_count out.new) }
{
    let rows = rows_of_values(alloc, figures)?;
    write_rows(COLUMNS, rows.as_str(), out)?;
    Ok(true)
}

/// The rows of the values of these figures.
fn rows_of_values(alloc: Global, figures: Figures) -> Result<String, Refusal>
    ensures rows { IfOk result (λ rows. string_bytes rows ≡ value_rows figures) }
    ensures refused { IfErr result (λ refusal. refusal ≡ NoMemory) }
{
    let rows = value_rows(alloc, &figures);
    drop(figures);
    Ok(rows?)
}

/// Writes the heads of columns, and then the rows.
fn write_rows<W: Out>(head: &str, rows: &str, out: &mut W) -> Result<(), Failed>
    ensures ok { OnOk result
        (Appends (W.contents out.old) (W.contents out.new) (head.now ++ rows.now)) }
    ensures err { OnErr result
        (AppendsBeginning (W.contents out.old) (W.contents out.new) (head.now ++ rows.now)) }
    ensures failures { Counts result (W.failure_count out.old) (W.failure_count out.new) }
{
    write_all(out, head.as_bytes())?;
    write_all(out, rows.as_bytes())
}

/// The rows of the tables. All memory is taken before the first byte is written.
fn tables_of<L: Listener>(
    alloc: Global,
    policy: &str,
    scenario: &str,
    listener: &mut L,
) -> Result<String, Refusal>
    ensures rows { IfOk result (λ rows. (f : AllFigures) × AreOfTexts policy.now scenario.now f
        × (words : List ℕ) × (string_bytes rows ≡ table_rows f words)) }
    ensures refused { IfErr result (IsScenarioCause policy.now scenario.now) }
{
    let found = figures_and_words(alloc, policy, scenario, listener)?;
    let rows = table_rows(alloc, &found.figures, found.words.as_str());
    drop(found);
    Ok(rows?)
}

/// The rows of the tables of these figures, with these words to the fault or exit.
fn table_rows(alloc: Global, figures: &Figures, words: &str) -> Result<String, AllocError>
    ensures { IfOk result (λ rows. string_bytes rows ≡ table_rows figures.now words.now) }
{
    let mut rows = Text::new(alloc);
    write_tables(figures, words, &mut rows);
    rows.finish()
}

/// The figures of a run, and the words to the fault or exit for which its policy was ejected, if it was ejected for
/// one.
#[derive(Drop)]
pub(crate) struct FiguresAndWords {
    pub(crate) figures: Figures,
    pub(crate) words: String,
}

/// The figures of the run of a policy file's text and of a workload's or of a file of events, and the words to its
/// fault or exit.
pub(crate) fn figures_and_words<L: Listener>(
    alloc: Global,
    policy: &str,
    scenario: &str,
    listener: &mut L,
) -> Result<FiguresAndWords, Refusal>
    ensures of_texts { IfOk result (λ found. AreOfTexts policy.now scenario.now found.figures) }
    ensures refused { IfErr result (IsScenarioCause policy.now scenario.now) }
{
    let FiguresAndStart { figures, start } = figures_and_start(alloc, policy, scenario, listener)?;
    match words_of_cause(alloc, &figures, start) {
        Ok(words) => Ok(FiguresAndWords { figures, words }),
        Err(AllocError) => {
            drop(figures);
            Err(Refusal::NoMemory)
        }
    }
}

/// The words to the fault or exit for which the policy was ejected, if it was ejected for one.
fn words_of_cause(alloc: Global, figures: &Figures, start: Start) -> Result<String, AllocError> {
    let place = place_of_cause(figures, start);
    let mut words = Text::new(alloc);
    write_cause(figures, place, &mut words);
    words.finish()
}

/// The place of the fault or exit for which the policy was ejected, if it was ejected for one.
fn place_of_cause(figures: &Figures, start: Start) -> Option<FaultPlace>
    ensures { is_some result ≡ true → is_for_callback figures.now.ejected ≡ true }
{
    let Start {
        mut events,
        mut sim,
    } = start;
    let ejected = figures.ejected;
    let place = match ejected {
        Some(Eject::Fault(_, clock) | Eject::Exit(_, clock)) => {
            find_fault_among(&mut events, &mut sim, clock)
        }
        Some(Eject::Stall(_, _)) | None => None,
    };
    give_back_start(events, sim);
    place
}

fn value_rows(alloc: Global, figures: &Figures) -> Result<String, AllocError>
    ensures { IfOk result (λ rows. string_bytes rows ≡ value_rows figures.now) }
{
    let mut rows = Text::new(alloc);
    write_list(figures, &mut rows);
    rows.finish()
}
