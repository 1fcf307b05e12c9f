use crate::ending::write_event;
use crate::finding::Findings;
use crate::json::{end, number, push_name, string, text, truth};
use scx_load_workloads::Workload;
use scx_sched::Event;
use scxsim_account::{Cause, Ejection};
use scxsim_faults::{FaultPlace, write_call, write_policy_queues, write_reason};
use scxsim_output::Text;
use scxsim_trace::Names;
use scxsim_why_lines::comment_at;
use std::alloc::Global;

/// Writes the members of the object that says how a run ended.
pub(crate) fn write_ending(alloc: Global, policy: &str, found: &Findings, lines: &mut Text) {
    match found.account.ejection {
        Some(ejection) => {
            number("ms", ejection.clock, lines);
            truth("ejected", true, lines);
            write_cause(alloc, policy, found, ejection, lines);
        }
        None => {
            number("ms", u64::from(found.figures.workload.ms()), lines);
            truth("ejected", false, lines);
        }
    }
    end(lines);
}

/// Writes why a policy was ejected.
fn write_cause(
    alloc: Global,
    policy: &str,
    found: &Findings,
    ejection: Ejection,
    lines: &mut Text,
) {
    let workload = &found.figures.workload;
    match ejection.cause {
        Cause::Stall(task) => {
            string("cause", "stall", lines);
            string("task", workload.task(task), lines);
        }
        Cause::Fault(fault, event) => {
            string("cause", "fault", lines);
            number("fault", u64::from(fault.number()), lines);
            write_place(alloc, workload, event, found.fault, lines);
        }
        Cause::Exit(code, event) => {
            string("cause", "exit", lines);
            push_name("code", lines);
            lines.show("", &code);
            write_place(alloc, workload, event, found.fault, lines);
            write_comment(alloc, policy, found.fault, lines);
        }
    }
}

/// Writes the event of a fault or an exit, and its place, if that is known.
fn write_place(
    alloc: Global,
    workload: &Workload,
    event: Event,
    place: Option<FaultPlace>,
    lines: &mut Text,
) {
    let mut words = Text::new(alloc);
    write_event(workload, event, &mut words);
    text("event", &words, lines);
    if let Some(place) = place {
        string("callback", place.callback.name(), lines);
        number("slot", place.slot as u64, lines);
        write_words(alloc, workload, place, lines);
    }
}

/// Writes the call of a fault or an exit, and the reason.
fn write_words(alloc: Global, workload: &Workload, place: FaultPlace, lines: &mut Text) {
    let mut words = Text::new(alloc);
    write_call(&place, workload, &mut words);
    text("call", &words, lines);
    words.clear();
    write_reason(&place, workload, &mut words);
    write_policy_queues(&place, &mut words);
    text("reason", &words, lines);
}

/// Writes the comment at an exit, if there is one.
fn write_comment(alloc: Global, policy: &str, place: Option<FaultPlace>, lines: &mut Text) {
    let Some(place) = place else {
        return;
    };
    if let Some(comment) = comment_at(alloc, policy, place.callback, place.slot) {
        string("comment", comment, lines);
    }
}
