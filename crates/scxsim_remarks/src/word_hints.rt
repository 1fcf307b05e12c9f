ghost use Rattle.std.specs.Prelude.{◌≤◌, length};

use crate::named_text::NamedText;
use crate::nearest::Nearest;
use crate::remarks::rules_of;
use scx_isa::CALLBACKS;
use scx_load_policies::{Programs, read_policy};
use scx_load_workloads::{Workload, numeral};
use scxsim_commands::{Word, push_shown};
use scxsim_explore::Lists;
use scxsim_output::Text;
use scxsim_runs::read_scenario;
use std::alloc::{AllocError, Global};

/// The most names that are listed.
const LISTED: usize = 8;

/// A hint at a word that names no task of the scenario: the name that may be meant, or the names that there are. None
/// if the scenario is refused, or memory ran out.
pub fn hint_on_task(
    alloc: Global,
    policy: NamedText<'_>,
    scenario: NamedText<'_>,
    word: &str,
) -> Option<String> {
    let rules = rules_of(alloc, policy.text);
    let scenario = read_scenario(alloc, rules, scenario.text).ok()?;
    let hint = hint_of_tasks(alloc, scenario.workload(), word);
    drop(scenario);
    hint.ok()
}

fn hint_of_tasks(alloc: Global, workload: &Workload, word: &str) -> Result<String, AllocError> {
    let mut nearest = Nearest::none();
    for number in 0..count_of(workload) {
        nearest = nearest.or_nearer(alloc, word, workload.task_name(number))?;
    }
    let mut said = Text::new(alloc);
    match nearest.word() {
        Some(known) => push_meant(&mut said, "task", word, known),
        None => push_tasks(&mut said, workload),
    }
    said.finish()
}

/// The number of tasks.
fn count_of(workload: &Workload) -> u16
    ensures { result ≤ length workload.now.homes }
{
    u16::try_from(workload.tasks().len()).unwrap_or(u16::MAX)
}

/// `hint: no KIND WORD; is KNOWN meant?`
fn push_meant(said: &mut Text, kind: &str, word: &str, known: &str) {
    said.push("hint: no ");
    said.push(kind);
    said.push(" ");
    push_shown(said, word);
    said.push("; is ");
    said.push(known);
    said.push(" meant?\n");
}

/// `hint: TASK is one of NAMES`, of which there are a few.
fn push_tasks(said: &mut Text, workload: &Workload) {
    said.push("hint: TASK is one of ");
    let mut before = "";
    for number in 0..count_of(workload) {
        if usize::from(number) == LISTED {
            said.push(" and others");
            break;
        }
        said.push(before);
        said.push(workload.task_name(number));
        before = ", ";
    }
    said.push("\n");
}

/// A hint at a word that names no callback of the policy: the name that may be meant, or the names that there are. None
/// if it names one, the policy is refused, or memory ran out.
pub fn hint_on_callback(alloc: Global, policy: NamedText<'_>, word: &str) -> Option<String> {
    let programs = read_policy(alloc, policy.text).ok()?.into_programs();
    let hint = if is_name_of_one(&programs, word) {
        None
    } else {
        hint_of_callbacks(alloc, &programs, word).ok()
    };
    drop(programs);
    hint
}

/// True if a program of the policy has that name.
fn is_name_of_one(programs: &Programs, word: &str) -> bool {
    for callback in CALLBACKS {
        if callback.name() == word {
            return programs.get(callback).is_some();
        }
    }
    false
}

fn hint_of_callbacks(alloc: Global, programs: &Programs, word: &str) -> Result<String, AllocError> {
    let mut nearest = Nearest::none();
    for callback in CALLBACKS {
        if programs.get(callback).is_some() {
            nearest = nearest.or_nearer(alloc, word, callback.name())?;
        }
    }
    let mut said = Text::new(alloc);
    match nearest.word() {
        Some(known) => push_meant(&mut said, "callback", word, known),
        None => push_callbacks(&mut said, programs),
    }
    said.finish()
}

/// `hint: CALLBACK is one of NAMES`.
fn push_callbacks(said: &mut Text, programs: &Programs) {
    said.push("hint: CALLBACK is one of ");
    let mut before = "";
    for callback in CALLBACKS {
        if programs.get(callback).is_some() {
            said.push(before);
            said.push(callback.name());
            before = ", ";
        }
    }
    if before.is_empty() {
        said.push("none: the policy has no callback");
    }
    said.push("\n");
}

/// A hint at a word that names no millisecond of the run: the range. None if the scenario is refused, or memory ran
/// out.
pub fn hint_on_moment(
    alloc: Global,
    policy: NamedText<'_>,
    scenario: NamedText<'_>,
) -> Option<String> {
    let ms = length_of(alloc, policy, scenario)?;
    let mut said = Text::new(alloc);
    said.number("hint: MS is 0 to ", u64::from(ms));
    said.push("\n");
    said.finish().ok()
}

/// A hint at a bound of a part of a run: the range. None if the scenario is refused, or memory ran out.
pub(crate) fn hint_on_bound(
    alloc: Global,
    policy: NamedText<'_>,
    scenario: NamedText<'_>,
    word: Word,
) -> Option<String> {
    let ms = length_of(alloc, policy, scenario)?;
    let mut said = Text::new(alloc);
    match word {
        Word::From => {
            said.number("hint: FROM is 0 to ", u64::from(ms.saturating_sub(1)));
            said.push(", and less than TO\n");
        }
        Word::To => {
            said.number("hint: TO is 1 to ", u64::from(ms));
            said.push(", and more than FROM\n");
        }
    }
    said.finish().ok()
}

/// The milliseconds of the run.
fn length_of(alloc: Global, policy: NamedText<'_>, scenario: NamedText<'_>) -> Option<u32> {
    let rules = rules_of(alloc, policy.text);
    let scenario = read_scenario(alloc, rules, scenario.text).ok()?;
    let ms = scenario.workload().ms();
    drop(scenario);
    Some(ms)
}

/// A hint at the first of the words of a search that is wrong: the choices, or the range. None if none is, or memory
/// ran out.
pub fn hint_on_lists(alloc: Global, lists: Lists<'_>) -> Option<String> {
    String::from_str(alloc, advice_on_lists(lists)?).ok()
}

fn advice_on_lists(lists: Lists<'_>) -> Option<&'static str> {
    let is_events = lists.mode == "events";
    if !is_events && lists.mode != "ms" && lists.mode != "workloads" {
        return Some("hint: MODE is one of events, ms, workloads\n");
    }
    if is_events && !is_within(lists.depth, 1, 64) {
        return Some("hint: DEPTH is 1 to 64 in the mode events\n");
    }
    if !is_within(lists.depth, 1, 65_535) {
        return Some("hint: DEPTH is 1 to 65535 in the modes ms and workloads\n");
    }
    if !is_within(lists.few?, 0, 64) {
        return Some("hint: K is 0 to 64\n");
    }
    None
}

/// True if a word says a number in digits from `least` to `most`.
fn is_within(word: &str, least: u32, most: u32) -> bool {
    match numeral(word) {
        Some(number) => least <= number && number <= most,
        None => false,
    }
}
