use crate::alike::write_alike;
use crate::bound_waits::{may_run_on, write_bound, write_elsewhere, write_not_there};
use crate::length::Length;
use crate::likewise::write_likewise;
use crate::runners::{write_cpu, write_runners};
use crate::spells::write_spell;
use crate::words::write_time;
use scx_isa::Rules;
use scx_load_workloads::Workload;
use scx_sched::Rank;
use scxsim_output::Text;
use scxsim_statistics::Figures;
use scxsim_trace::Names;
use scxsim_views::{QueueName, time_of_key};
use scxsim_waits::{Station, Waits, WatchedWait};
use std::alloc::Global;

/// Writes the longest wait, its queues, and the tasks that ran meanwhile. If no wait took time by the clock, a task may
/// still have waited for a millisecond and have begun to run as that ended.
pub fn write_worst(
    alloc: Global,
    workload: &Workload,
    waits: &Waits,
    has_waited: bool,
    page: &mut Text,
) {
    let Some(wait) = waits.waits.as_slice().first() else {
        page.push(if has_waited {
            "no wait lasted beyond the millisecond in which it began\n"
        } else {
            "no task waited\n"
        });
        return;
    };
    write_wait(workload, wait, page);
    write_places(wait, page);
    page.push("; meanwhile");
    match wait.ran(alloc, workload.cpus()) {
        Ok(each) => write_runners(alloc, workload, each.as_slice(), "CPUs were ", page),
        Err(_) => page.cut(),
    }
    write_elsewhere(workload, wait, page);
    page.push("\n");
}

fn write_wait(workload: &Workload, told: &WatchedWait, page: &mut Text) {
    let length = told.wait.length;
    let since = told.wait.since;
    page.push(workload.task(told.wait.task));
    page.number(" waited ", length);
    page.number(" ms, from ", since);
    page.number(" to ", since.saturating_add(length));
}

/// Writes the queues of a task, without one that it left at once.
fn write_places(wait: &WatchedWait, page: &mut Text) {
    let mut before = ", in ";
    for station in wait.stations.as_slice() {
        page.show(before, &QueueName(station.queue));
        before = ", then ";
    }
}

/// Writes of each of the longest waits the queues of the task, why it wasn't taken, and the tasks that ran meanwhile.
pub fn write_waits(
    alloc: Global,
    figures: &Figures,
    waits: &Waits,
    length: Length,
    page: &mut Text,
) {
    let workload = &figures.workload;
    for wait in waits.waits.as_slice() {
        page.push("\n");
        write_wait(workload, wait, page);
        page.push("\n");
        write_likewise(workload, figures.tasks.as_slice(), wait.wait, page);
        write_bound(workload, wait.wait.task, page);
        write_causes(wait, waits.rules, page);
        if length.joins_cpus(workload) {
            write_alike(alloc, workload, wait, page);
        } else {
            write_each_cpu(alloc, workload, wait, page);
        }
    }
}

/// Writes the queues of a task, and why it wasn't taken there.
fn write_causes(wait: &WatchedWait, rules: Rules, page: &mut Text) {
    for station in wait.stations.as_slice() {
        write_station(*station, rules, page);
    }
    for spell in wait.spells.as_slice() {
        write_spell(wait, spell, rules, page);
    }
}

/// Writes the tasks that ran on each CPU.
fn write_each_cpu(alloc: Global, workload: &Workload, wait: &WatchedWait, page: &mut Text) {
    for cpu in 0..workload.cpus() {
        write_cpu(alloc, workload, wait, cpu, page);
        if !may_run_on(workload, wait.wait.task, cpu) {
            write_not_there(workload, wait.wait.task, page);
        }
        page.push("\n");
    }
}

/// Writes the clock at which a task came into a queue, its virtual time, and the number of tasks before it.
fn write_station(station: Station, rules: Rules, page: &mut Text) {
    page.number("  at ", station.clock);
    page.show(" it came into ", &QueueName(station.queue));
    if let Some(Rank::Vtime(key)) = station.rank {
        write_time(" by virtual time ", time_of_key(rules, key), page);
    }
    match station.ahead {
        Some(0) => page.push(", at its front"),
        Some(ahead) => page.number(", behind ", ahead),
        None => {}
    }
    page.push("\n");
}
