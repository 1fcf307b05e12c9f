ghost use Rattle.std.specs.Prelude.{◌≡◌, ℕ, List, true, Err, IfOk, IfErr, OnOk};
ghost use Rattle.std.specs.Io.KnownBytes.{Appends};
ghost use Rattle.scxsim_output.specs.Output.{Counts, HasFailed};
ghost use Rattle.scxsim_commands.specs.Outcome.{IfRefused, IsRefused};
ghost use Rattle.scxsim_runs.specs.ScenarioParts.{IsScenarioPartCause};
ghost use Rattle.scxsim_charts.specs.Charts.{chart};

use crate::chart_sums::{Chart, gather};
use crate::chart_text::write_chart;
use crate::scales::Scale;
use crate::sheets::{Sheet, cells_of};
use scxsim_commands::{Fault, Refusal, Span};
use scxsim_output::{Failed, Out, Text, write_all};
use scxsim_runs::{Listener, ScenarioPart, prepare_scenario_part};
use std::alloc::{AllocError, Global};

/// Writes the chart of the run of a policy file and of a workload or a file of events, or of a part of it. The answer
/// is true. Its lines are at most as wide as the sheet, between 72 and 1,000 columns, but for a long title.
///
/// # Errors
///
/// The texts or the words of the part are refused, or memory runs out, and then nothing is written, or writing
/// the chart fails.
pub fn gantt<L: Listener, W: Out>(
    alloc: Global,
    sheet: Sheet<'_>,
    policy: &str,
    scenario: &str,
    span: Option<Span<'_>>,
    listener: &mut L,
    out: &mut W,
) -> Result<bool, Fault>
    ensures done { IfOk result (λ answer. (answer ≡ true) × (lines : List ℕ)
        × Appends (W.contents out.old) (W.contents out.new) (chart sheet.entry.title.now lines)) }
    ensures unfailed { OnOk result (W.failure_count out.new ≡ W.failure_count out.old) }

    // A refusal has its cause in the texts or in the words, and comes before any byte is written.
    ensures refused { IfRefused result (IsScenarioPartCause policy.now scenario.now span.entry) }
    ensures quiet { IsRefused result → out.new ≡ out.old }
    ensures counted { result ≡ Err Fault.WriteFailed
        → HasFailed (W.failure_count out.old) (W.failure_count out.new) }
{
    let lines = lines_of(alloc, sheet.columns, policy, scenario, span, listener)?;
    write_lines(sheet.title, lines.as_str(), out)?;
    Ok(true)
}

/// Writes the title of a chart, and then its lines.
fn write_lines<W: Out>(title: &str, lines: &str, out: &mut W) -> Result<(), Failed>
    ensures ok { OnOk result
        (Appends (W.contents out.old) (W.contents out.new) (chart title.now lines.now)) }
    ensures failures { Counts result (W.failure_count out.old) (W.failure_count out.new) }
{
    write_all(out, title.as_bytes())?;
    write_all(out, b": ")?;
    write_all(out, lines.as_bytes())
}

/// The lines of the chart of a run, or of a part of it. All memory is taken before the first byte is written.
#[tactic(auto, using(scxsim_runs::proofs::PartCauses::out_of_memory_of_scenario))]
fn lines_of<L: Listener>(
    alloc: Global,
    columns: u64,
    policy: &str,
    scenario: &str,
    span: Option<Span<'_>>,
    listener: &mut L,
) -> Result<String, Refusal>
    ensures { IfErr result (IsScenarioPartCause policy.now scenario.now span.entry) }
{
    let ScenarioPart { run, window } = prepare_scenario_part(alloc, policy, scenario, span)?;
    let chart = gather(alloc, run, Scale::new(window, cells_of(columns)), listener)?;
    let lines = lines_of_chart(alloc, &chart);
    drop(chart);
    Ok(lines?)
}

fn lines_of_chart(alloc: Global, chart: &Chart) -> Result<String, AllocError> {
    let mut lines = Text::new(alloc);
    write_chart(chart, &mut lines);
    lines.finish()
}
