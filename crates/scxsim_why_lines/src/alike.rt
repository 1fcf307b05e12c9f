use crate::bound_waits::{may_run_on, write_not_there};
use crate::runners::{ms_at, write_cpu};
use crate::words::{bit_of, tasks_of};
use scx_load_workloads::Workload;
use scxsim_output::Text;
use scxsim_views::write_cpus;
use scxsim_waits::WatchedWait;
use std::alloc::Global;

/// A sort of use of a CPU during a wait.
#[derive(Clone, Copy, PartialEq, Eq)]
enum Usage {
    OneTask,
    SeveralTasks,
    IdleInPart,
    Idle,
}

const USAGES: [Usage; 4] = [
    Usage::OneTask,
    Usage::SeveralTasks,
    Usage::IdleInPart,
    Usage::Idle,
];

/// The CPUs of one sort of use, and the least and the most milliseconds that one of them was idle.
#[derive(Clone, Copy)]
struct Alike {
    cpus: u64,
    least: u64,
    most: u64,
}

impl Alike {
    fn with(self, cpu: u32, idle: u64) -> Alike {
        Alike {
            cpus: self.cpus | bit_of(cpu),
            least: self.least.min(idle),
            most: self.most.max(idle),
        }
    }
}

/// Writes what CPUs did during a wait: a line for each sort of use, of those on which the task may run and of others.
pub(crate) fn write_alike(alloc: Global, workload: &Workload, wait: &WatchedWait, page: &mut Text) {
    for usage in USAGES {
        write_usage(alloc, workload, wait, usage, true, page);
        write_usage(alloc, workload, wait, usage, false, page);
    }
}

/// Writes the CPUs of one sort of use, on which the task may run, or may not.
fn write_usage(
    alloc: Global,
    workload: &Workload,
    wait: &WatchedWait,
    usage: Usage,
    is_allowed: bool,
    page: &mut Text,
) {
    let alike = cpus_with(workload, wait, usage, is_allowed);
    if alike.cpus == 0 {
        return;
    }
    if alike.cpus.count_ones() == 1 {
        write_cpu(alloc, workload, wait, alike.cpus.trailing_zeros(), page);
    } else {
        page.push("  ");
        write_cpus(alike.cpus, page);
        write_words(usage, alike, page);
    }
    if !is_allowed {
        write_not_there(workload, wait.wait.task, page);
    }
    page.push("\n");
}

fn cpus_with(workload: &Workload, wait: &WatchedWait, usage: Usage, is_allowed: bool) -> Alike {
    let mut alike = Alike {
        cpus: 0,
        least: u64::MAX,
        most: 0,
    };
    let tasks = tasks_of(workload);
    for cpu in 0..workload.cpus() {
        let row = wait.ran_on(cpu);
        if usage_of(row, tasks) == Some(usage)
            && may_run_on(workload, wait.wait.task, cpu) == is_allowed
        {
            alike = alike.with(cpu, ms_at(row, tasks));
        }
    }
    alike
}

/// The use of a CPU, from the milliseconds of each task there, unless no tick of it came.
fn usage_of(row: &[u64], tasks: u16) -> Option<Usage> {
    let ran = ran_count(row, tasks);
    let idle = ms_at(row, tasks);
    if ran == 0 && idle == 0 {
        None
    } else if ran == 0 {
        Some(Usage::Idle)
    } else if 0 < idle {
        Some(Usage::IdleInPart)
    } else if ran == 1 {
        Some(Usage::OneTask)
    } else {
        Some(Usage::SeveralTasks)
    }
}

/// The number of tasks that ran.
fn ran_count(row: &[u64], tasks: u16) -> u64 {
    let mut count = 0u64;
    for task in 0..tasks {
        if 0 < ms_at(row, task) {
            count = count.saturating_add(1);
        }
    }
    count
}

/// Writes what several CPUs did.
fn write_words(usage: Usage, alike: Alike, page: &mut Text) {
    match usage {
        Usage::OneTask => page.push(": one task each, throughout"),
        Usage::SeveralTasks => page.push(": several tasks each, never idle"),
        Usage::IdleInPart => write_idle(alike, page),
        Usage::Idle => page.push(": idle throughout"),
    }
}

/// Writes for how long CPUs were idle.
fn write_idle(alike: Alike, page: &mut Text) {
    page.number(": idle for ", alike.least);
    if alike.least < alike.most {
        page.number(" to ", alike.most);
    }
    page.push(" ms");
}
