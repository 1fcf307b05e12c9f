ghost use Rattle.std.specs.Prelude.{◌≡◌, ℕ, List, true, Err, IfOk, IfErr, OnOk};
ghost use Rattle.std.specs.Io.KnownBytes.{Appends};
ghost use Rattle.scxsim_output.specs.Output.{Counts, HasFailed};
ghost use Rattle.scxsim_commands.specs.Outcome.{IfRefused, IsRefused};
ghost use Rattle.scxsim_runs.specs.ScenarioParts.{IsScenarioPartCause};
ghost use Rattle.scxsim_pictures.specs.Pictures.{svg};

use crate::gathering::gather;
use scxsim_commands::{Fault, Refusal, Span};
use scxsim_output::{Failed, Out, write_named};
use scxsim_runs::{Listener, ScenarioPart, prepare_scenario_part};
use scxsim_shapes::draw;
use std::alloc::Global;

/// Writes the picture of the run of a policy file and of a workload or a file of events, or of a part of it, in SVG
/// of at most 2 MB. The answer is true.
///
/// # Errors
///
/// The texts or the words of the part are refused, or memory runs out, and then nothing is written, or writing
/// the picture fails.
pub fn picture<L: Listener, W: Out>(
    alloc: Global,
    title: &str,
    policy: &str,
    scenario: &str,
    span: Option<Span<'_>>,
    listener: &mut L,
    out: &mut W,
) -> Result<bool, Fault>
    ensures done { IfOk result (λ answer. (answer ≡ true) × (drawn : List ℕ)
        × Appends (W.contents out.old) (W.contents out.new) (svg drawn)) }
    ensures unfailed { OnOk result (W.failure_count out.new ≡ W.failure_count out.old) }

    // A refusal has its cause in the texts or in the words, and comes before any byte is written.
    ensures refused { IfRefused result (IsScenarioPartCause policy.now scenario.now span.entry) }
    ensures quiet { IsRefused result → out.new ≡ out.old }
    ensures counted { result ≡ Err Fault.WriteFailed
        → HasFailed (W.failure_count out.old) (W.failure_count out.new) }
{
    let drawn = drawn_of(alloc, title, policy, scenario, span, listener)?;
    write_picture(drawn.as_str(), out)?;
    Ok(true)
}

/// The text of a picture before the drawing, and after it.
const HEAD: &str = "<svg xmlns=\"http://www.w3.org/2000/svg\" ";

const END: &str = "</svg>\n";

/// Writes a picture with that drawing, from its first byte to its last.
fn write_picture<W: Out>(drawn: &str, out: &mut W) -> Result<(), Failed>
    ensures ok { OnOk result
        (Appends (W.contents out.old) (W.contents out.new) (svg drawn.now)) }
    ensures failures { Counts result (W.failure_count out.old) (W.failure_count out.new) }
{
    write_named(out, HEAD, drawn, END)
}

/// The drawing of a run, or of a part of it. All memory is taken before the first byte is written.
#[tactic(auto, using(scxsim_runs::proofs::PartCauses::out_of_memory_of_scenario))]
fn drawn_of<L: Listener>(
    alloc: Global,
    title: &str,
    policy: &str,
    scenario: &str,
    span: Option<Span<'_>>,
    listener: &mut L,
) -> Result<String, Refusal>
    ensures { IfErr result (IsScenarioPartCause policy.now scenario.now span.entry) }
{
    let ScenarioPart { run, window } = prepare_scenario_part(alloc, policy, scenario, span)?;
    let picture = gather(alloc, run, window, listener)?;
    let drawn = draw(alloc, &picture, title);
    drop(picture);
    Ok(drawn?)
}
