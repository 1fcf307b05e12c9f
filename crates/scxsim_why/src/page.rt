use crate::calls::{write_calls, write_short_slice};
use crate::ending::{
    Ejected, write_event, write_last_lines, write_never, write_stall, write_unplaced,
    write_unplaced_exit,
};
use crate::finding::Findings;
use crate::lines::{append_up_to, line_count};
use scx_isa::Callback;
use scx_load_workloads::Workload;
use scx_sched::Event;
use scxsim_account::{Account, Cause};
use scxsim_faults::{FaultPlace, write_call, write_policy_queues, write_reason};
use scxsim_output::Text;
use scxsim_why_lines::{
    Length, write_held_task, write_idle, write_last_reads, write_message, write_queues,
    write_reads, write_scale, write_stretches, write_throttled, write_undrained, write_waits,
    write_worst,
};
use std::alloc::{AllocError, Global};

/// The most lines of a short page.
const MOST_LINES: usize = 60;

/// The most lines of a page after each section of its details.
#[derive(Clone, Copy)]
struct Limits {
    waits: usize,
    stretches: usize,
    calls: usize,
    queues: usize,
}

/// The limits of a short page on which not all sections have room. One line is left for the last.
const SHARED: Limits = Limits {
    waits: 38,
    stretches: 44,
    calls: 50,
    queues: 59,
};

/// No limits.
const UNLIMITED: Limits = Limits {
    waits: usize::MAX,
    stretches: usize::MAX,
    calls: usize::MAX,
    queues: usize::MAX,
};

/// The details of a page, the most telling section first.
#[derive(Drop)]
struct Details {
    waits: Text,
    stretches: Text,
    calls: Text,
    queues: Text,
}

impl Details {
    /// The number of lines of all sections.
    fn line_count(&self) -> usize {
        line_count(&self.waits)
            .saturating_add(line_count(&self.stretches))
            .saturating_add(line_count(&self.calls))
            .saturating_add(line_count(&self.queues))
    }

    /// Appends all sections, as far as the limits allow.
    fn append(&self, limits: Limits, page: &mut Text) {
        append_up_to(&self.waits, limits.waits, page);
        append_up_to(&self.stretches, limits.stretches, page);
        append_up_to(&self.calls, limits.calls, page);
        append_up_to(&self.queues, limits.queues, page);
    }
}

/// Makes the page after its first word, of that policy's text.
pub(crate) fn write_page(
    alloc: Global,
    policy: &str,
    found: &Findings,
    length: Length,
    page: &mut Text,
) {
    write_summary(alloc, policy, found, length, page);
    write_up_to_ejection(alloc, &found.figures.workload, &found.account, page);
    let details = details_of(alloc, found, length);
    match length {
        Length::Short => write_short(&found.figures.workload, &details, page),
        Length::Whole => details.append(UNLIMITED, page),
    }
}

/// Writes details in at most 60 lines of the page. If more is known, the last line says where it is.
fn write_short(workload: &Workload, details: &Details, page: &mut Text) {
    let joins = Length::Short.joins_cpus(workload);
    let lines = line_count(page).saturating_add(details.line_count());
    let room = if joins { MOST_LINES - 1 } else { MOST_LINES };
    let has_room = lines <= room;
    details.append(if has_room { UNLIMITED } else { SHARED }, page);
    if joins || !has_room {
        page.push("all of it: scxsim why-all POLICY WORKLOAD\n");
    }
}

/// Writes the first lines: how the run ended, and what went wrong on the way.
fn write_summary(alloc: Global, policy: &str, found: &Findings, length: Length, page: &mut Text) {
    let account = &found.account;
    let workload = &found.figures.workload;
    write_ending(alloc, policy, found, page);
    write_worst(alloc, workload, &account.waits, found.idle.has_waited, page);
    let rules = account.waits.rules;
    write_idle(workload, found.idle.lost, rules, &account.stretches, page);
    write_undrained(&account.queues, page);
    write_unrun(alloc, found, length, page);
    write_more(alloc, policy, found, page);
}

/// Writes the lines that come only if there is something to say.
fn write_more(alloc: Global, policy: &str, found: &Findings, page: &mut Text) {
    let workload = &found.figures.workload;
    let calls = &found.account.calls;
    if let Some(held) = found.held {
        write_held_task(alloc, policy, workload, held, page);
    }
    if let Some(end) = found.last {
        if found.fault.is_some() {
            write_reads(end, page);
        } else {
            write_last_reads(end, page);
        }
    }
    write_throttled(&found.figures, page);
    write_short_slice(workload, calls, page);
    write_scale(&found.programs, found.account.waits.rules, page);
}

fn details_of(alloc: Global, found: &Findings, length: Length) -> Details {
    let account = &found.account;
    let workload = &found.figures.workload;
    let has_dispatch = found.programs.get(Callback::Dispatch).is_some();
    let mut details = Details {
        waits: Text::new(alloc),
        stretches: Text::new(alloc),
        calls: Text::new(alloc),
        queues: Text::new(alloc),
    };
    write_waits(
        alloc,
        &found.figures,
        &account.waits,
        length,
        &mut details.waits,
    );
    write_stretches(
        workload,
        found.idle.count,
        account.waits.rules,
        &account.stretches,
        has_dispatch,
        length,
        &mut details.stretches,
    );
    write_calls(&found.programs, &account.calls, &mut details.calls);
    write_queues(workload, &account.queues, length, &mut details.queues);
    details
}

/// Writes how the run ended.
fn write_ending(alloc: Global, policy: &str, found: &Findings, page: &mut Text) {
    let workload = &found.figures.workload;
    let Some(ejection) = found.account.ejection else {
        page.number("in force to the end, at ", u64::from(workload.ms()));
        page.push(" ms\n");
        return;
    };
    page.number("ejected at ", ejection.clock);
    page.push(" ms: ");
    match ejection.cause {
        Cause::Stall(task) => write_stall(workload, task, page),
        Cause::Fault(fault, event) => {
            page.number("fault ", u64::from(fault.number()));
            match found.fault {
                Some(place) => {
                    write_place(workload, place, event, page);
                    page.push("\n");
                }
                None => write_unplaced(workload, fault, event, page),
            }
        }
        Cause::Exit(code, event) => {
            page.show("exit ", &code);
            match found.fault {
                Some(place) => {
                    write_place(workload, place, event, page);
                    write_message(alloc, policy, place.callback, place.slot, page);
                    page.push("\n");
                }
                None => write_unplaced_exit(workload, event, page),
            }
        }
    }
}

/// Writes the callback, the slot and the call of a fault or an exit.
fn write_place(workload: &Workload, place: FaultPlace, event: Event, page: &mut Text) {
    page.push(" in ");
    page.push(place.callback.name());
    page.number(" at slot ", place.slot as u64);
    page.push(", ");
    write_event(workload, event, page);
    page.push(": ");
    write_call(&place, workload, page);
    page.push(": ");
    write_reason(&place, workload, page);
    write_policy_queues(&place, page);
}

/// The tasks that ran for 0 ms.
#[derive(Drop)]
struct Unrun {
    /// The tasks that never began to run.
    never: Vec<u16>,
    /// The tasks that did, and were stopped before a tick of their CPU, or were running as the run ended.
    briefly: Vec<u16>,
}

/// Writes the tasks that never ran, or ran for 0 ms.
fn write_unrun(alloc: Global, found: &Findings, length: Length, page: &mut Text) {
    match tasks_without_time(alloc, found) {
        Ok(tasks) => write_never(
            &found.figures.workload,
            tasks.never.as_slice(),
            tasks.briefly.as_slice(),
            length,
            page,
        ),
        Err(_) => page.cut(),
    }
}

fn tasks_without_time(alloc: Global, found: &Findings) -> Result<Unrun, AllocError> {
    let mut tasks = Unrun {
        never: Vec::new(alloc),
        briefly: Vec::new(alloc),
    };
    for (number, figures) in found.figures.tasks.iter().enumerate() {
        let task = u16::try_from(number).unwrap_or(u16::MAX);
        if figures.run == 0 && found.account.idling.has_begun(task) {
            tasks.briefly.push(task)?;
        } else if figures.run == 0 {
            tasks.never.push(task)?;
        }
    }
    Ok(tasks)
}

/// Writes the last lines of the trace up to the ejection, if there is one.
fn write_up_to_ejection(alloc: Global, workload: &Workload, account: &Account, page: &mut Text) {
    let Some(ejection) = account.ejection else {
        return;
    };
    let Some(recent) = &account.recent else {
        return;
    };
    match recent.of_ejection(alloc, ejection) {
        Ok(notes) => {
            let of = Ejected {
                task: ejection.task,
                cpu: ejection.cpu,
                notes: notes.as_slice(),
            };
            write_last_lines(alloc, workload, of, page);
        }
        Err(_) => page.cut(),
    }
}
