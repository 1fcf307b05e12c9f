use crate::assembler::{remark_on_code, remark_on_line};
use crate::faults::remark_on_fault;
use crate::meant::{Format, choices_of, is_known_by_linux, nearest_key};
use crate::named_text::NamedText;
use crate::natures::{Nature, hint_on_nature};
use crate::word_hints::hint_on_bound;
use scx_isa::{Callback, Rules};
use scx_load_files::{Cause, Place, first_toml_fault, line_at, place_of_key, place_of_line};
use scx_load_policies::read_policy;
use scx_verify::Fault;
use scxsim_commands::Refusal;
use scxsim_explain::reason_of_refusal;
use scxsim_output::Text;
use std::alloc::Global;

/// A remark on a refusal of a run's files, of which the second may be a file of events: its place,
/// and what may have been meant. None where it has no place in a text, or memory ran out.
pub fn remark_on_run(
    alloc: Global,
    refusal: &Refusal,
    policy: NamedText<'_>,
    workload: NamedText<'_>,
) -> Option<String> {
    match refusal {
        Refusal::Policy { path, cause } => remark_on_policy(alloc, policy, path, *cause),
        Refusal::Workload { path, cause } => {
            let format = Format::Workload(rules_of(alloc, policy.text));
            remark_on_second(alloc, workload, format, path, *cause)
        }
        Refusal::Events { path, cause } => {
            let format = Format::Events(rules_of(alloc, policy.text));
            remark_on_second(alloc, workload, format, path, *cause)
        }
        Refusal::Callback {
            callback,
            fault,
            slot,
        } => remark_on_callback(alloc, policy, *callback, *fault, *slot),
        Refusal::Init(_) => remark_on_fault(alloc, policy, workload, 0),
        Refusal::OutOfRange(word) => hint_on_bound(alloc, policy, workload, *word),
        _ => None,
    }
}

/// The rules by which a policy's text says that the machine goes; plain ones if the text is refused.
pub(crate) fn rules_of(alloc: Global, policy: &str) -> Rules {
    match read_policy(alloc, policy) {
        Ok(text) => {
            let rules = text.rules();
            drop(text);
            rules
        }
        Err(_) => Rules::Plain,
    }
}

/// The rules that a refused policy's text names, as far as its line for them says so.
fn rules_named(alloc: Global, policy: &str) -> Rules {
    match line_of_rules(alloc, policy) {
        Some(line) if line.starts_with("rules") && line.contains("linux") => Rules::Linux,
        _ => Rules::Plain,
    }
}

fn line_of_rules(alloc: Global, policy: &str) -> Option<&str> {
    let place = place_of_key(alloc, policy, "rules")?;
    line_at(policy, place.line)
}

/// A remark on a refusal of a policy's file alone, or of a text for the assembler; as
/// `remark_on_run`.
pub fn remark_on_file(alloc: Global, refusal: &Refusal, file: NamedText<'_>) -> Option<String> {
    match refusal {
        Refusal::Policy { path, cause } => remark_on_policy(alloc, file, path, *cause),
        Refusal::Assemble { fault, line } => remark_on_line(alloc, file, *fault, *line),
        _ => None,
    }
}

/// A remark on a key of a policy file. A text that is no policy may be another file.
fn remark_on_policy(
    alloc: Global,
    policy: NamedText<'_>,
    path: &str,
    cause: Cause,
) -> Option<String> {
    match hint_on_nature(alloc, policy, Nature::Policy) {
        Some(hint) => Some(hint),
        None => {
            let format = Format::Policy(rules_named(alloc, policy.text));
            remark_on_key(alloc, policy, format, path, cause)
        }
    }
}

/// A remark on a key of a workload or of a file of events. A text that is neither may be another file.
fn remark_on_second(
    alloc: Global,
    file: NamedText<'_>,
    format: Format,
    path: &str,
    cause: Cause,
) -> Option<String> {
    match hint_on_nature(alloc, file, nature_in(format)) {
        Some(hint) => Some(hint),
        None => remark_on_key(alloc, file, format, path, cause),
    }
}

/// The kind of file of a format.
fn nature_in(format: Format) -> Nature {
    match format {
        Format::Policy(_) => Nature::Policy,
        Format::Workload(_) => Nature::Workload,
        Format::Events(_) => Nature::Events,
    }
}

/// A remark on a key of a file.
fn remark_on_key(
    alloc: Global,
    file: NamedText<'_>,
    format: Format,
    path: &str,
    cause: Cause,
) -> Option<String> {
    match cause {
        Cause::NotToml => remark_on_toml(alloc, file),
        Cause::Unknown => remark_on_unknown(alloc, file, format, path),
        Cause::Asm { fault, line } => remark_on_code(alloc, file, path, fault, line),
        Cause::Event { line, .. } => {
            let place = place_of_line(alloc, file.text, path, line);
            remark_at(alloc, file, place, path, cause, "")
        }
        Cause::OutOfRange => {
            let place = place_of_key(alloc, file.text, path);
            remark_at(alloc, file, place, path, cause, choices_of(format, path))
        }
        _ => {
            let place = place_of_key(alloc, file.text, path);
            remark_at(alloc, file, place, path, cause, "")
        }
    }
}

fn remark_at(
    alloc: Global,
    file: NamedText<'_>,
    place: Option<Place>,
    path: &str,
    cause: Cause,
    choices: &str,
) -> Option<String> {
    let place = place?;
    let mut what = Text::new(alloc);
    what.push(path);
    what.show(": ", &cause);
    what.push(choices);
    file.error_at(alloc, place, &what).ok()
}

/// A remark on a text that is no TOML document.
fn remark_on_toml(alloc: Global, file: NamedText<'_>) -> Option<String> {
    let fault = first_toml_fault(alloc, file.text)?;
    let mut what = Text::new(alloc);
    what.push(fault.message());
    file.error_at(alloc, fault.place, &what).ok()
}

/// A remark on a key that its table doesn't take.
fn remark_on_unknown(
    alloc: Global,
    file: NamedText<'_>,
    format: Format,
    path: &str,
) -> Option<String> {
    let place = place_of_key(alloc, file.text, path)?;
    let mut what = Text::new(alloc);
    what.push(path);
    what.push(": unknown");
    if is_known_by_linux(format, path) {
        what.push("; it is known under rules = \"linux\"");
    } else if let Some(known) = nearest_key(alloc, format, path) {
        what.push("; is ");
        what.push(known);
        what.push(" meant?");
    }
    file.error_at(alloc, place, &what).ok()
}

/// A remark on a callback that the verifier refuses, with the reason below it. One that is given as slots has no line.
pub(crate) fn remark_on_callback(
    alloc: Global,
    policy: NamedText<'_>,
    callback: Callback,
    fault: Fault,
    slot: usize,
) -> Option<String> {
    let place = policy.line_of(alloc, callback, slot);
    let mut what = Text::new(alloc);
    what.push(callback.name());
    what.number(": ", u64::from(fault.number()));
    what.push(" ");
    what.push(fault.name());
    what.number(" at ", slot as u64);
    match reason_of_refusal(alloc, policy.text, callback) {
        Some(reason) => policy
            .error_below(alloc, place, &what, reason.as_str())
            .ok(),
        None => policy.error_below(alloc, place, &what, "").ok(),
    }
}
