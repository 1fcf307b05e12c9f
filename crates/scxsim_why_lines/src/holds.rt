use crate::messages::write_message;
use scx_load_workloads::Workload;
use scxsim_account::{CallEnd, ElementRead, HeldTask, MOST_READS, MissedKey};
use scxsim_output::Text;
use scxsim_trace::Names;
use std::alloc::Global;

/// Writes where enqueue ended as it put a task nowhere, and the look-up that found nothing.
pub fn write_held_task(
    alloc: Global,
    policy: &str,
    workload: &Workload,
    held: HeldTask,
    page: &mut Text,
) {
    page.number("at ", held.clock);
    page.push(" enqueue put ");
    page.push(workload.task(held.task));
    page.number(" nowhere, and ended at slot ", held.end.slot as u64);
    write_message(alloc, policy, held.end.callback, held.end.slot, page);
    if let Some(missed) = held.end.missed {
        write_missed(missed, page);
    }
    page.push("\n");
}

/// Writes a look-up that found nothing: `; its look-up at slot 7 found no key 2 in map 0`.
fn write_missed(missed: MissedKey, page: &mut Text) {
    page.number("; its look-up at slot ", missed.slot as u64);
    page.push(" found no ");
    match missed.key {
        Some(key) => page.number("key ", key),
        None => page.push("such key"),
    }
    page.number(" in map ", u64::from(missed.map));
}

/// Writes the numbers that the faulting callback had read from maps, if it read some.
pub fn write_reads(end: CallEnd, page: &mut Text) {
    write_reads_of(end, "", " had read ", page);
}

/// Writes the numbers that the last callback had read from maps, if it read some.
pub fn write_last_reads(end: CallEnd, page: &mut Text) {
    write_reads_of(end, "the last callback, ", ", had read ", page);
}

/// Writes the numbers that a callback had read, with these words before its name and after it.
fn write_reads_of(end: CallEnd, before: &'static str, after: &'static str, page: &mut Text) {
    if end.reads.at(0).is_none() {
        return;
    }
    page.push(before);
    page.push(end.callback.name());
    page.push(after);
    for place in 0..MOST_READS {
        if let Some(read) = end.reads.at(place) {
            page.push(if place == 0 { "" } else { ", " });
            write_read(read, page);
        }
    }
    if 0 < end.reads.more {
        page.number(", and ", end.reads.more);
        page.push(" more");
    }
    page.push("\n");
}

/// Writes a number that was read: `7 from element 3 of map 0 + 8`.
fn write_read(read: ElementRead, page: &mut Text) {
    page.number("", read.number);
    page.number(" from element ", u64::from(read.index));
    page.number(" of map ", u64::from(read.map));
    if 0 < read.byte {
        page.number(" + ", read.byte);
    }
}
