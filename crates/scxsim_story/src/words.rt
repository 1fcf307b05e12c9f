use crate::life::{Life, slice_of};
use crate::queue_place::{entry_in, write_behind, write_place};
use scx_load_workloads::Workload;
use scx_sched::{Fault, Sim, What};
use scx_sched_world::{HELD, LOCAL_ON, PARKED};
use scxsim_output::Text;
use scxsim_trace::Names;
use scxsim_views::{QueueName, fault_words};

/// An occurrence, and its outcome.
#[derive(Clone, Copy)]
pub(crate) struct Occurrence<'a> {
    pub(crate) task: u16,
    pub(crate) moment: u64,
    pub(crate) clock: u64,
    pub(crate) what: What,
    /// The state of the task before it.
    pub(crate) life: Life,
    /// The next occurrence, where it came of the same event.
    pub(crate) next: Option<What>,
    /// The machine after the event, where the event has no further occurrence.
    pub(crate) sim: Option<&'a Sim>,
}

/// Writes an occurrence, and its reason.
pub(crate) fn write_words(workload: &Workload, of: Occurrence<'_>, words: &mut Text) {
    match of.what {
        What::Wake(_) => write_wake(workload, of, words),
        What::Sleep(_) => write_sleep(of, words),
        What::Insert(_, queue) => write_insert(workload, of, queue, words),
        What::Move(_, cpu) => write_move(workload, of, cpu, words),
        What::Run(_, cpu) => write_run(of, cpu, words),
        What::Stop(_, cpu) => write_stop(of, cpu, words),
        What::Weight(group, weight) => write_weight(workload, group, weight, words),
        What::TaskWeight(_, weight) => write_own_weight(of.life, weight, words),
        What::Stall(task) => write_stall(workload, of.task, task, words),
        What::Fault(fault) => write_fault(fault, words),
        What::Exit(code) => words.show("the policy is ejected: exit ", &code),
        What::Idle(cpu) => {
            words.number("cpu ", u64::from(cpu));
            words.push(" is idle");
        }
    }
}

fn write_wake(workload: &Workload, of: Occurrence<'_>, words: &mut Text) {
    words.push("wakes");
    if let Some(since) = of.life.sleeps_since {
        words.number(" after sleeping ", of.moment.saturating_sub(since));
        words.push(" ms");
    }
    if let Some(cpu) = of.life.cpu {
        words.number(", last on cpu ", u64::from(cpu));
    }
    words.number(", ", u64::from(of.life.idle_cpus));
    words.number(" of ", u64::from(workload.cpus()));
    words.push(" CPUs idle");
}

fn write_sleep(of: Occurrence<'_>, words: &mut Text) {
    words.push("goes to sleep");
    if let Some(queue) = of.life.queue {
        words.show(" out of ", &QueueName(queue));
    }
}

fn write_insert(workload: &Workload, of: Occurrence<'_>, queue: u64, words: &mut Text) {
    write_leaving(of.life, queue, words);
    if queue == PARKED {
        write_parked(workload, of, words);
    } else if queue == HELD {
        words.push("is held, since enqueue put it nowhere");
    } else {
        write_coming(workload, of, queue, words);
    }
}

/// Writes that the task was parked or held up to now, if it was and goes elsewhere.
fn write_leaving(life: Life, queue: u64, words: &mut Text) {
    if life.queue == Some(queue) {
        return;
    }
    if life.queue == Some(PARKED) {
        words.push("is let go, and ");
    } else if life.queue == Some(HELD) {
        words.push("is held no more, and ");
    }
}

/// Writes the place of the task in a queue that it comes into.
fn write_coming(workload: &Workload, of: Occurrence<'_>, queue: u64, words: &mut Text) {
    if let Some(sim) = of.sim {
        if let Some(entry) = entry_in(sim, of.task, queue) {
            write_place(workload, sim, entry, words);
            return;
        }
    }
    words.show("comes into ", &QueueName(queue));
}

/// Writes that the task is parked, and the group of its that may not run.
fn write_parked(workload: &Workload, of: Occurrence<'_>, words: &mut Text) {
    words.push("is parked, since ");
    match spent_group(workload, of) {
        Some(group) => {
            words.push("group ");
            words.push(workload.group(group));
            words.push(" has used up its quota");
        }
        None => words.push("a quota is used up"),
    }
}

/// The first group on the way up from the task's own that has used up its quota.
fn spent_group(workload: &Workload, of: Occurrence<'_>) -> Option<u32> {
    let sim = of.sim?;
    let mut at = Some(*workload.tasks().get(of.task as usize)?);
    for _ in 0..workload.groups().len() {
        let group = at?;
        if is_spent(workload, sim, group) {
            return Some(group);
        }
        at = workload.groups().get(group as usize)?.parent;
    }
    None
}

/// True if the group has used up its quota.
fn is_spent(workload: &Workload, sim: &Sim, group: u32) -> bool {
    if sim.groups() <= group {
        return false;
    }
    match workload.groups().get(group as usize) {
        Some(of) => match of.quota_ms {
            Some(quota) => u64::from(quota) <= sim.usage(group),
            None => false,
        },
        None => false,
    }
}

fn write_move(workload: &Workload, of: Occurrence<'_>, cpu: u32, words: &mut Text) {
    words.push("moves");
    if let Some(queue) = of.life.queue {
        words.show(" from ", &QueueName(queue));
    }
    words.number(" to local ", u64::from(cpu));
    if let Some(sim) = of.sim {
        let local = LOCAL_ON.saturating_add(u64::from(cpu));
        if let Some(entry) = entry_in(sim, of.task, local) {
            write_behind(workload, sim, entry, words);
        }
    }
}

fn write_run(of: Occurrence<'_>, cpu: u32, words: &mut Text) {
    words.number("runs on cpu ", u64::from(cpu));
    words.number(
        " after waiting ",
        of.clock.saturating_sub(of.life.waits_since),
    );
    words.push(" ms");
    if let Some(sim) = of.sim {
        words.number(", slice ", slice_of(sim, of.task));
        words.push(" ns");
    }
}

fn write_stop(of: Occurrence<'_>, cpu: u32, words: &mut Text) {
    words.number("stops on cpu ", u64::from(cpu));
    words.number(" after ", of.moment.saturating_sub(of.life.runs_since));
    words.push(" ms: ");
    words.push(if of.life.is_leaving {
        "it sleeps"
    } else if is_spent_at(of) {
        "a quota is used up"
    } else if 0 < of.life.left {
        "it is preempted"
    } else {
        "its slice is used up"
    });
}

/// True if the task stops since a group of its may not run, and not since its slice is used up or taken.
fn is_spent_at(of: Occurrence<'_>) -> bool {
    let may_not_run = 0 < of.life.left && !of.life.is_preemptible();
    match of.next {
        Some(What::Insert(_, queue)) => queue == PARKED || may_not_run,
        Some(_) | None => may_not_run,
    }
}

fn write_weight(workload: &Workload, group: u32, weight: u32, words: &mut Text) {
    words.push("its group ");
    words.push(workload.group(group));
    words.number(" weighs ", u64::from(weight));
    words.push(" from now on");
}

/// Writes the task's own weight. A task that waits in a queue leaves it and is put again.
fn write_own_weight(life: Life, weight: u32, words: &mut Text) {
    words.number("weighs ", u64::from(weight));
    words.push(" from now on");
    if let Some(queue) = life.left_for_weight() {
        words.show(", and leaves ", &QueueName(queue));
        words.push(" to be put again");
    }
}

fn write_stall(workload: &Workload, own: u16, task: u16, words: &mut Text) {
    words.push("the policy is ejected, since ");
    words.push(if task == own {
        "it"
    } else {
        workload.task(task)
    });
    words.push(" has waited too long");
}

fn write_fault(fault: Fault, words: &mut Text) {
    words.number("the policy is ejected: fault ", u64::from(fault.number()));
    words.push(", ");
    words.push(fault_words(fault));
}
