use crate::length::Length;
use crate::words::{bit_of, write_count};
use scx_isa::Rules;
use scx_load_workloads::Workload;
use scx_sched_world::{GLOBAL, POLICY_END};
use scxsim_output::Text;
use scxsim_trace::Names;
use scxsim_views::{QueueName, write_cpus};
use scxsim_waits::{CpuCalls, IdleStretches, LastCall, SeenStretch, WaitingTask};

/// Writes the milliseconds in which CPUs were idle while a task waited, and the longest stretch of them.
pub fn write_idle(
    workload: &Workload,
    lost: u64,
    rules: Rules,
    stretches: &IdleStretches,
    page: &mut Text,
) {
    let Some(longest) = stretches.longest.as_slice().first() else {
        page.push("no CPU was idle while a task waited");
        write_if_bound(workload, page);
        page.push("\n");
        return;
    };
    page.push("idle while tasks waited");
    write_if_bound(workload, page);
    page.number(": ", lost);
    page.push(" ms in all; ");
    match unwoken_for(*longest, rules) {
        Some((waiting, queue)) => write_sleep(workload, longest, waiting, queue, page),
        None => write_stretch(workload, longest, page),
    }
    page.push("\n");
}

/// Writes that the tasks of idle CPUs may run there, where tasks are bound.
fn write_if_bound(workload: &Workload, page: &mut Text) {
    if workload.is_bound() {
        page.push(" that may run there");
    }
}

/// The task that waited as a stretch began, and its queue, where the CPU slept and nothing woke it for that queue.
fn unwoken_for(seen: SeenStretch, rules: Rules) -> Option<(WaitingTask, u64)> {
    let waiting = seen.beginning.waiting?;
    let queue = waiting.queue?;
    if idle_cpus_sleep(rules) && seen.vain() == 0 && wakes_no_cpu(queue) {
        Some((waiting, queue))
    } else {
        None
    }
}

/// True if an idle CPU looks for a task only once it is woken.
fn idle_cpus_sleep(rules: Rules) -> bool {
    match rules {
        Rules::Plain => false,
        Rules::Linux => true,
    }
}

/// True for a queue of the policy, and for that of all CPUs.
fn wakes_no_cpu(queue: u64) -> bool {
    queue < POLICY_END || queue == GLOBAL
}

/// Writes that a CPU slept while a task waited that no CPU was woken for.
fn write_sleep(
    workload: &Workload,
    seen: &SeenStretch,
    waiting: WaitingTask,
    queue: u64,
    page: &mut Text,
) {
    let stretch = seen.stretch;
    page.number("CPU ", u64::from(stretch.cpu));
    page.number(" slept from ", stretch.since);
    page.number(" to ", stretch.until);
    page.push(" ms while ");
    page.push(workload.task(waiting.task));
    page.show(" waited in ", &QueueName(queue));
    page.push(if queue == GLOBAL {
        ": an insert into global wakes no CPU; kick one"
    } else {
        ": an insert into a policy's queue wakes no CPU; kick one"
    });
    write_claim(seen, page);
    write_kick(seen, page);
}

/// Writes that a CPU was claimed for a task that didn't come, if it was.
fn write_claim(seen: &SeenStretch, page: &mut Text) {
    if seen.beginning.is_claimed {
        page.push("; a callback had claimed this one, and sent no task there");
    }
}

/// Writes the timer that kicked the CPU, if one did.
fn write_kick(seen: &SeenStretch, page: &mut Text) {
    if let Some(kick) = seen.kick() {
        page.number("; timer ", kick.timer);
        page.number(" kicked it at ", kick.clock);
    }
}

fn write_stretch(workload: &Workload, seen: &SeenStretch, page: &mut Text) {
    let stretch = seen.stretch;
    page.number("CPU ", u64::from(stretch.cpu));
    page.number(" for ", stretch.length());
    page.number(" ms from ", stretch.since);
    page.number(" to ", stretch.until);
    if let Some(waiting) = seen.beginning.waiting {
        page.push(", as ");
        page.push(workload.task(waiting.task));
        page.push(" waited");
        if let Some(queue) = waiting.queue {
            page.show(" in ", &QueueName(queue));
        }
    }
}

/// Writes the longest stretches in which a CPU was idle while a task waited, and the calls of dispatch then.
pub fn write_stretches(
    workload: &Workload,
    count: u64,
    rules: Rules,
    stretches: &IdleStretches,
    has_dispatch: bool,
    length: Length,
    page: &mut Text,
) {
    let longest = stretches.longest.as_slice();
    if longest.is_empty() {
        return;
    }
    page.push("\nidle while tasks waited");
    write_if_bound(workload, page);
    write_count(", ", count, "time", page);
    page.push("; the longest are\n");
    for (place, seen) in longest.iter().enumerate() {
        if !length.joins_cpus(workload) {
            write_seen(workload, *seen, 0, rules, has_dispatch, page);
        } else if !is_told(longest, place, rules) {
            let others = others_of(longest, place, rules);
            write_seen(workload, *seen, others, rules, has_dispatch, page);
        }
    }
}

/// Writes a stretch, and the other CPUs that slept alike.
fn write_seen(
    workload: &Workload,
    seen: SeenStretch,
    others: u64,
    rules: Rules,
    has_dispatch: bool,
    page: &mut Text,
) {
    page.push("  ");
    match unwoken_for(seen, rules) {
        Some((waiting, queue)) => {
            write_sleep(workload, &seen, waiting, queue, page);
            if others != 0 {
                page.push("; so did ");
                write_cpus(others, page);
            }
            page.push("\n");
        }
        None => {
            write_stretch(workload, &seen, page);
            write_asked(seen, has_dispatch, page);
        }
    }
}

/// True if a stretch before that one is told for it.
fn is_told(longest: &[SeenStretch], place: usize, rules: Rules) -> bool {
    let Some(seen) = longest.get(place) else {
        return false;
    };
    for other in longest.iter().take(place) {
        if are_alike(*other, *seen, rules) {
            return true;
        }
    }
    false
}

/// The CPUs of the stretches after that one that are like it, one bit each.
fn others_of(longest: &[SeenStretch], place: usize, rules: Rules) -> u64 {
    let Some(seen) = longest.get(place) else {
        return 0;
    };
    let mut others = 0u64;
    for other in longest.iter().skip(place.saturating_add(1)) {
        if are_alike(*seen, *other, rules) {
            others |= bit_of(other.stretch.cpu);
        }
    }
    others
}

/// True if two CPUs slept at the same time, while the same task waited, and the same is told of both.
fn are_alike(one: SeenStretch, other: SeenStretch, rules: Rules) -> bool {
    let waiting = waiting_for(one, rules);
    waiting.is_some()
        && waiting == waiting_for(other, rules)
        && one.stretch.since == other.stretch.since
        && one.stretch.until == other.stretch.until
        && one.beginning.is_claimed == other.beginning.is_claimed
        && kicked_by(one) == kicked_by(other)
}

/// The task that waited while a CPU slept that nothing woke for it.
fn waiting_for(seen: SeenStretch, rules: Rules) -> Option<u16> {
    let (waiting, _queue) = unwoken_for(seen, rules)?;
    Some(waiting.task)
}

/// The timer that kicked the CPU.
fn kicked_by(seen: SeenStretch) -> Option<u64> {
    Some(seen.kick()?.timer)
}

/// Writes the calls of dispatch that left a CPU idle.
fn write_asked(seen: SeenStretch, has_dispatch: bool, page: &mut Text) {
    let vain = seen.vain();
    if vain == 0 {
        write_before(seen.beginning.calls, has_dispatch, page);
        return;
    }
    write_count("; ", vain, "call", page);
    page.push(" of dispatch for it took no task");
    if let Some(clock) = seen.calls.last_vain {
        page.number(", the last at ", clock);
    }
    page.push("\n");
}

/// Writes the last call of dispatch for a CPU before it was idle.
fn write_before(calls: CpuCalls, has_dispatch: bool, page: &mut Text) {
    if !has_dispatch {
        page.push("; there is no dispatch\n");
        return;
    }
    let Some(LastCall { clock, took }) = calls.last else {
        page.push("; dispatch hadn't been called for it before\n");
        return;
    };
    page.number("; the last call of dispatch for it before, at ", clock);
    page.push(if took {
        ", took a task\n"
    } else {
        ", took no task\n"
    });
}
