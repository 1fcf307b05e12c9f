use crate::finding::Findings;
use crate::json::{begin, end, number, push_name, push_queue, queue, string, truth};
use scx_isa::{CALLBACKS, Callback};
use scxsim_account::{CallEnd, ElementRead, HeldTask, MOST_READS};
use scxsim_output::Text;
use scxsim_statistics::QuotaFigures;
use scxsim_trace::Names;
use scxsim_waits::{SeenStretch, WatchedWait};
use scxsim_why_lines::misscaled;

/// Writes the objects after the first two.
pub(crate) fn write_objects(found: &Findings, lines: &mut Text) {
    for wait in found.account.waits.waits.as_slice() {
        write_wait(found, wait, lines);
    }
    for stretch in found.account.stretches.longest.as_slice() {
        write_stretch(found, *stretch, lines);
    }
    write_causes(found, lines);
    write_groups(found, lines);
    write_slice(found, lines);
    write_scale(found, lines);
    write_tasks(found, lines);
    write_calls(found, lines);
    write_timers(found, lines);
    write_queues(found, lines);
}

fn write_wait(found: &Findings, wait: &WatchedWait, lines: &mut Text) {
    let since = wait.wait.since;
    begin("wait", lines);
    string("task", found.figures.workload.task(wait.wait.task), lines);
    number("from", since, lines);
    number("to", since.saturating_add(wait.wait.length), lines);
    number("ms", wait.wait.length, lines);
    push_name("queues", lines);
    lines.push("[");
    for (place, station) in wait.stations.as_slice().iter().enumerate() {
        if 0 < place {
            lines.push(",");
        }
        push_queue(station.queue, lines);
    }
    lines.push("]");
    end(lines);
}

fn write_stretch(found: &Findings, seen: SeenStretch, lines: &mut Text) {
    begin("stretch", lines);
    number("cpu", u64::from(seen.stretch.cpu), lines);
    number("from", seen.stretch.since, lines);
    number("to", seen.stretch.until, lines);
    number("ms", seen.stretch.length(), lines);
    number("asked", seen.vain(), lines);
    if let Some(waiting) = seen.beginning.waiting {
        string("task", found.figures.workload.task(waiting.task), lines);
        if let Some(of_task) = waiting.queue {
            queue("queue", of_task, lines);
        }
    }
    end(lines);
}

/// Writes the held task, and what the last callback had read.
fn write_causes(found: &Findings, lines: &mut Text) {
    if let Some(held) = found.held {
        write_held(found, held, lines);
    }
    if let Some(end) = found.last {
        write_reads(end, lines);
    }
}

fn write_held(found: &Findings, held: HeldTask, lines: &mut Text) {
    begin("held", lines);
    string("task", found.figures.workload.task(held.task), lines);
    number("ms", held.clock, lines);
    number("slot", held.end.slot as u64, lines);
    if let Some(missed) = held.end.missed {
        number("map", u64::from(missed.map), lines);
        if let Some(key) = missed.key {
            number("key", key, lines);
        }
    }
    end(lines);
}

fn write_reads(call: CallEnd, lines: &mut Text) {
    for place in 0..MOST_READS {
        if let Some(read) = call.reads.at(place) {
            write_read(call.callback, read, lines);
        }
    }
}

fn write_read(callback: Callback, read: ElementRead, lines: &mut Text) {
    begin("read", lines);
    string("callback", callback.name(), lines);
    number("map", u64::from(read.map), lines);
    number("element", u64::from(read.index), lines);
    number("byte", read.byte, lines);
    number("number", read.number, lines);
    end(lines);
}

/// Writes the groups that have a quota.
fn write_groups(found: &Findings, lines: &mut Text) {
    for (group, quota) in found.figures.quotas.groups.iter().enumerate() {
        if let Some(ms) = quota.quota_ms {
            write_group(found, group, ms, *quota, lines);
        }
    }
}

fn write_group(found: &Findings, group: usize, ms: u32, quota: QuotaFigures, lines: &mut Text) {
    let number_of = u32::try_from(group).unwrap_or(u32::MAX);
    begin("group", lines);
    string("group", found.figures.workload.group(number_of), lines);
    number("quota", u64::from(ms), lines);
    number("period", u64::from(quota.period_ms), lines);
    number("throttled", quota.throttled, lines);
    number("periods", quota.periods, lines);
    number("throttled_periods", quota.throttled_periods, lines);
    end(lines);
}

/// Writes the shortest slice below 1 ms.
fn write_slice(found: &Findings, lines: &mut Text) {
    if let Some(short) = found.account.calls.shortest {
        begin("slice", lines);
        string("task", found.figures.workload.task(short.task), lines);
        number("ns", short.slice, lines);
        number("ms", short.clock, lines);
        end(lines);
    }
}

/// Writes the callback that scales by the kernel's weights where weights are others.
fn write_scale(found: &Findings, lines: &mut Text) {
    if let Some(callback) = misscaled(&found.programs, found.account.waits.rules) {
        begin("weight", lines);
        string("callback", callback.name(), lines);
        end(lines);
    }
}

fn write_tasks(found: &Findings, lines: &mut Text) {
    for (place, figures) in found.figures.tasks.iter().enumerate() {
        let task = u16::try_from(place).unwrap_or(u16::MAX);
        begin("task", lines);
        string("task", found.figures.workload.task(task), lines);
        number("ran", figures.run, lines);
        number("longest_wait", figures.waits.longest(), lines);
        number("parked", figures.parked, lines);
        truth("held", found.account.queues.is_held(task), lines);
        end(lines);
    }
}

/// Writes the number of calls of each callback of the policy, except init and enable.
fn write_calls(found: &Findings, lines: &mut Text) {
    for callback in CALLBACKS {
        let is_of_start = callback == Callback::Init || callback == Callback::Enable;
        if !is_of_start && found.programs.get(callback).is_some() {
            begin("callback", lines);
            string("callback", callback.name(), lines);
            number("calls", found.account.calls.calls(callback), lines);
            end(lines);
        }
    }
}

fn write_timers(found: &Findings, lines: &mut Text) {
    for (timer, figures) in found
        .account
        .calls
        .timers
        .figures
        .as_slice()
        .iter()
        .enumerate()
    {
        if 0 < figures.runs {
            begin("timer", lines);
            number("timer", timer as u64, lines);
            number("runs", figures.runs, lines);
            number("kicks", figures.kicks, lines);
            end(lines);
        }
    }
}

fn write_queues(found: &Findings, lines: &mut Text) {
    for figures in found.account.queues.figures.as_slice() {
        begin("queue", lines);
        queue("queue", figures.queue, lines);
        number("came", figures.came, lines);
        number("left", figures.left, lines);
        number("there", figures.there(), lines);
        end(lines);
    }
}
