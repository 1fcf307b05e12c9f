ghost use Rattle.std.specs.Prelude.{◌≡◌, [], ◌∷◌, ◌++◌, codes, decimal, option_map, IfOk, OnOk};
ghost use Rattle.json.specs.Json.{object};
ghost use Rattle.json.specs.Tree.{json_tokens, members_tokens};
ghost use Rattle.json.specs.Token.{key, string, number};
ghost use Rattle.scxsim_explain.specs.VerdictObjects.{verdict_object, verdict_objects, object_of};
ghost use Rattle.scxsim_explain.specs.VerdictObjects.{verdict_members, accepted_members, refused_members};
ghost use Rattle.scxsim_explain.specs.VerdictObjects.{json_line};

use json::Writer;
use scx_isa::{CALLBACKS, Callback};
use scx_verify::Fault;
use scxsim_commands::{Verdict, Verdicts};
use std::alloc::{AllocError, Global};

/// The objects of all verdicts, each on a line, in the order of callbacks.
///
/// # Errors
///
/// Memory ran out.
pub(crate) fn objects_of(alloc: Global, verdicts: &Verdicts) -> Result<Vec<u8>, AllocError>
    ensures { IfOk result (λ lines. lines.items ≡ verdict_objects verdicts.now) }
{
    let mut lines = Vec::new(alloc);
    for callback in CALLBACKS {
        lines = with_object(lines, callback, verdicts.get(callback))?;
    }
    Ok(lines)
}

/// Adds the line of a callback after the others, if it has a verdict.
fn with_object(
    lines: Vec<u8>,
    callback: Callback,
    verdict: Option<&Verdict>,
) -> Result<Vec<u8>, AllocError>
    ensures { IfOk result (λ longer. longer.items
        ≡ lines.items ++ object_of callback (option_map (λ v. v.now) verdict.entry)) }
{
    match verdict {
        Some(verdict) => with_line(lines, callback, *verdict),
        None => Ok(lines),
    }
}

fn with_line(lines: Vec<u8>, callback: Callback, verdict: Verdict) -> Result<Vec<u8>, AllocError>
    ensures { IfOk result (λ longer. longer.items
        ≡ lines.items ++ json_line (verdict_object callback verdict)) }
{
    let mut writer = Writer::new(lines);
    write_object(&mut writer, callback, verdict)?;
    let mut longer = writer.into_inner();
    longer.push(b'\n')?;
    Ok(longer)
}

/// Writes the object of a callback and its verdict.
fn write_object(writer: &mut Writer, callback: Callback, verdict: Verdict) -> Result<(), AllocError>
    ensures tokens { OnOk result (writer.new.tokens
        ≡ writer.old.tokens ++ json_tokens (verdict_object callback verdict)) }
    ensures before { writer.new.before ≡ writer.old.before }
{
    writer.begin_object()?;
    write_text(writer, "callback", callback.name())?;
    write_verdict(writer, verdict)
}

/// Writes the members that say a verdict, and the end of the object.
fn write_verdict(writer: &mut Writer, verdict: Verdict) -> Result<(), AllocError>
    ensures tokens { OnOk result (writer.new.tokens
        ≡ writer.old.tokens ++ members_tokens (verdict_members verdict)) }
    ensures before { writer.new.before ≡ writer.old.before }
{
    match verdict {
        Verdict::Accepted(instructions) => write_accepted(writer, instructions),
        Verdict::Refused(fault, slot) => write_refused(writer, fault, slot),
    }
}

fn write_accepted(writer: &mut Writer, instructions: usize) -> Result<(), AllocError>
    ensures tokens { OnOk result (writer.new.tokens
        ≡ writer.old.tokens ++ members_tokens (accepted_members instructions)) }
    ensures before { writer.new.before ≡ writer.old.before }
{
    write_text(writer, "verdict", "accepted")?;
    write_number(writer, "instructions", instructions as u64)?;
    writer.end_object()
}

fn write_refused(writer: &mut Writer, fault: Fault, slot: usize) -> Result<(), AllocError>
    ensures tokens { OnOk result (writer.new.tokens
        ≡ writer.old.tokens ++ members_tokens (refused_members fault slot)) }
    ensures before { writer.new.before ≡ writer.old.before }
{
    write_text(writer, "verdict", "refused")?;
    write_number(writer, "fault", u64::from(fault.number()))?;
    write_text(writer, "name", fault.name())?;
    write_number(writer, "slot", slot as u64)?;
    writer.end_object()
}

/// Writes a member that is a text.
fn write_text(writer: &mut Writer, name: &str, text: &str) -> Result<(), AllocError>
    ensures tokens { OnOk result (writer.new.tokens
        ≡ writer.old.tokens ++ key name.now ∷ string text.now ∷ []) }
    ensures before { writer.new.before ≡ writer.old.before }
{
    writer.key(name)?;
    writer.string(text)
}

/// Writes a member that is a number.
fn write_number(writer: &mut Writer, name: &str, value: u64) -> Result<(), AllocError>
    ensures tokens { OnOk result (writer.new.tokens
        ≡ writer.old.tokens ++ key name.now ∷ number (decimal value) ∷ []) }
    ensures before { writer.new.before ≡ writer.old.before }
{
    writer.key(name)?;
    writer.u64(value)
}
