use crate::named_text::NamedText;
use scx_isa::{CALLBACKS, Rules};
use scx_load_policies::{Programs, read_policy};
use scx_load_replay::read_replay_by;
use scx_load_workloads::read_workload_by;
use scxsim_commands::push_shown;
use scxsim_output::Text;
use std::alloc::Global;

/// A kind of file that a command takes, or that is given in its place.
#[derive(Clone, Copy, PartialEq, Eq)]
pub(crate) enum Nature {
    Policy,
    Workload,
    Events,
    /// C, of which a policy can be made.
    C,
}

/// A hint if a file that was refused is one of another kind than is wanted there.
pub(crate) fn hint_on_nature(alloc: Global, file: NamedText<'_>, wanted: Nature) -> Option<String> {
    let found = nature_of(alloc, file)?;
    if found == wanted {
        return None;
    }
    let mut said = Text::new(alloc);
    said.push("hint: ");
    push_shown(&mut said, file.path);
    said.push(words_of(found, wanted));
    said.push("\n");
    said.finish().ok()
}

/// The words after the path.
fn words_of(found: Nature, wanted: Nature) -> &'static str {
    match (found, wanted) {
        (Nature::C, _) => " is C: scxsim-build makes a policy of it",
        (Nature::Workload, Nature::Events) => " is a workload: scxsim run takes it",
        (Nature::Events, Nature::Workload) =>
            " is a file of events: replay and replay-csv run it; stats, why, view and the others take it as it is",
        (Nature::Policy, Nature::Workload) => " is a policy, and a workload is wanted there",
        (Nature::Policy, _) => " is a policy, and a file of events is wanted there",
        (Nature::Workload, _) => " is a workload, and a policy is wanted there",
        (Nature::Events, _) => " is a file of events, and a policy is wanted there",
    }
}

fn nature_of(alloc: Global, file: NamedText<'_>) -> Option<Nature> {
    if is_c(file) {
        Some(Nature::C)
    } else if is_policy(alloc, file.text) {
        Some(Nature::Policy)
    } else if is_workload(alloc, file.text) {
        Some(Nature::Workload)
    } else if is_events(alloc, file.text) {
        Some(Nature::Events)
    } else {
        None
    }
}

/// True if the file is named as C is, and includes another.
fn is_c(file: NamedText<'_>) -> bool {
    file.path.ends_with(".c") && file.text.contains("#include")
}

/// True if a text is a policy that has a program.
fn is_policy(alloc: Global, text: &str) -> bool {
    match read_policy(alloc, text) {
        Ok(policy) => {
            let programs = policy.into_programs();
            let found = has_program(&programs);
            drop(programs);
            found
        }
        Err(_) => false,
    }
}

fn has_program(programs: &Programs) -> bool {
    CALLBACKS
        .iter()
        .any(|callback| programs.get(*callback).is_some())
}

fn is_workload(alloc: Global, text: &str) -> bool {
    match read_workload_by(alloc, Rules::Linux, text) {
        Ok(workload) => {
            drop(workload);
            true
        }
        Err(_) => false,
    }
}

fn is_events(alloc: Global, text: &str) -> bool {
    match read_replay_by(alloc, Rules::Linux, text) {
        Ok(replay) => {
            drop(replay);
            true
        }
        Err(_) => false,
    }
}
