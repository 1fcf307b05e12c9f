ghost use Rattle.std.specs.Prelude.{◌≡◌, ℕ, List, true, Err, IfOk, IfErr, OnOk, string_bytes};
ghost use Rattle.std.specs.Io.KnownBytes.{Appends};
ghost use Rattle.scxsim_why.specs.Findings.{IsIdleOfTexts};
ghost use Rattle.scxsim_account.specs.declared.idling.IdleFigures.{IdleFigures as Idle};
ghost use Rattle.scxsim_output.specs.Output.{Counts, HasFailed};
ghost use Rattle.scxsim_output.specs.Texts.{Puts};
ghost use Rattle.scxsim_commands.specs.Outcome.{IfRefused, IsRefused};
ghost use Rattle.scxsim_runs.specs.Scenarios.{IsScenarioCause};
ghost use Rattle.scxsim_why.specs.Json.{idle_line, objects};

use crate::ending_json::write_ending;
use crate::finding::{Findings, examine};
use crate::objects::write_objects;
use crate::telling::write_both;
use scxsim_account::IdleFigures;
use scxsim_commands::{Fault, Refusal};
use scxsim_output::{Failed, Out, Text};
use scxsim_runs::Listener;
use std::alloc::{AllocError, Global};

/// The beginning of the first line.
const ENDING: &str = "{\"kind\":\"ending\"";

/// Writes what `why` finds as JSON, an object on each line, of which `kind` says what it is about. The answer is true.
///
/// # Errors
///
/// The texts are refused, or memory runs out, and then nothing is written, or writing fails.
pub fn why_json<L: Listener, W: Out>(
    alloc: Global,
    policy: &str,
    scenario: &str,
    listener: &mut L,
    out: &mut W,
) -> Result<bool, Fault>
    // The second line is of the CPUs that were idle in a run of the texts.
    ensures done { IfOk result (λ answer. (answer ≡ true)
        × (idle : Idle) × IsIdleOfTexts policy.now scenario.now idle
        × (ending : List ℕ) × (rest : List ℕ)
        × Appends (W.contents out.old) (W.contents out.new) (objects ending (idle_line idle) rest)) }
    ensures unfailed { OnOk result (W.failure_count out.new ≡ W.failure_count out.old) }

    // A refusal has its cause in the texts, and comes before any byte is written.
    ensures refused { IfRefused result (IsScenarioCause policy.now scenario.now) }
    ensures quiet { IsRefused result → out.new ≡ out.old }
    ensures counted { result ≡ Err Fault.WriteFailed
        → HasFailed (W.failure_count out.old) (W.failure_count out.new) }
{
    let lines = lines_of_run(alloc, policy, scenario, listener)?;
    write_lines(&lines, out)?;
    Ok(true)
}

/// The lines of a run: how it ended, after the beginning of that line, the idle CPUs, and the rest.
#[derive(Drop)]
struct Lines {
    ending: String,
    idle: String,
    rest: String,
}

fn write_lines<W: Out>(lines: &Lines, out: &mut W) -> Result<(), Failed>
    ensures ok { OnOk result (Appends (W.contents out.old) (W.contents out.new)
        (objects (string_bytes lines.now.ending) (string_bytes lines.now.idle)
        (string_bytes lines.now.rest))) }
    ensures failures { Counts result (W.failure_count out.old) (W.failure_count out.new) }
{
    write_both(ENDING, lines.ending.as_str(), out)?;
    write_both(lines.idle.as_str(), lines.rest.as_str(), out)
}

/// The lines. All memory is taken before the first byte is written.
fn lines_of_run<L: Listener>(
    alloc: Global,
    policy: &str,
    scenario: &str,
    listener: &mut L,
) -> Result<Lines, Refusal>
    ensures idle { IfOk result (λ lines. (idle : Idle) × IsIdleOfTexts policy.now scenario.now idle
        × (string_bytes lines.idle ≡ idle_line idle)) }
    ensures refused { IfErr result (IsScenarioCause policy.now scenario.now) }
{
    let found = examine(alloc, policy, scenario, listener)?;
    Ok(lines_of(alloc, policy, &found)?)
}

fn lines_of(alloc: Global, policy: &str, found: &Findings) -> Result<Lines, AllocError>
    ensures { IfOk result (λ lines. string_bytes lines.idle ≡ idle_line found.now.idle) }
{
    let idle = idle_line(alloc, found.idle)?;
    let ending = ending_of(alloc, policy, found)?;
    let rest = rest_of(alloc, found)?;
    Ok(Lines { ending, idle, rest })
}

fn idle_line(alloc: Global, idle: IdleFigures) -> Result<String, AllocError>
    ensures { IfOk result (λ line. string_bytes line ≡ idle_line idle) }
{
    let mut line = Text::new(alloc);
    push_idle(idle, &mut line);
    line.finish()
}

#[tactic(auto, unfolding(crate::specs::Json::idle_line))]
fn push_idle(idle: IdleFigures, line: &mut Text)
    ensures { Puts line.old (idle_line idle) line.new }
{
    line.number("{\"kind\":\"idle\",\"ms\":", idle.lost);
    line.number(",\"times\":", idle.count);
    line.push("}\n");
}

fn ending_of(alloc: Global, policy: &str, found: &Findings) -> Result<String, AllocError> {
    let mut line = Text::new(alloc);
    write_ending(alloc, policy, found, &mut line);
    line.finish()
}

fn rest_of(alloc: Global, found: &Findings) -> Result<String, AllocError> {
    let mut lines = Text::new(alloc);
    write_objects(found, &mut lines);
    lines.finish()
}
