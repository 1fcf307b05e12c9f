use crate::words::{write_count, write_time};
use scx_isa::Rules;
use scx_sched::Rank;
use scx_sched_world::{HELD, POLICY_END};
use scxsim_output::Text;
use scxsim_views::{QueueName, time_of_key};
use scxsim_waits::{KeyRange, Spell, WatchedWait};

/// Writes why a task wasn't taken while it was in a queue.
pub(crate) fn write_spell(wait: &WatchedWait, spell: &Spell, rules: Rules, page: &mut Text) {
    if spell.queue < POLICY_END || spell.queue == HELD {
        write_asked(wait, spell, rules, page);
    } else {
        write_passed(spell, page);
    }
}

/// Writes the calls of dispatch that might have taken the task.
fn write_asked(wait: &WatchedWait, spell: &Spell, rules: Rules, page: &mut Text) {
    let calls = spell.calls();
    if calls == 0 && wait.stood_in(spell.queue) == 0 {
        return;
    }
    if calls == 0 {
        page.push("  no call");
    } else {
        write_count("  ", calls, "call", page);
    }
    page.push(" of dispatch");
    write_where(spell.queue, page);
    write_took(spell, rules, page);
    write_others(spell, page);
    write_vain(spell, page);
}

fn write_where(queue: u64, page: &mut Text) {
    if queue == HELD {
        page.push(" while it was held\n");
        return;
    }
    page.show(" while it was in ", &QueueName(queue));
    page.push("\n");
}

/// Writes the number of calls that took others out of the queue of the task.
fn write_took(spell: &Spell, rules: Rules, page: &mut Text) {
    let took = spell.took;
    if took == 0 {
        return;
    }
    page.number("    ", took);
    if took == spell.taken {
        page.push(" took another from there");
    } else {
        page.number(" took ", spell.taken);
        page.push(" others from there");
    }
    if spell.queue != HELD {
        write_keys(spell, rules, page);
    }
    page.push("\n");
}

/// Writes why those that were taken came before the task.
fn write_keys(spell: &Spell, rules: Rules, page: &mut Text) {
    match spell.rank {
        Some(Rank::Fifo | Rank::Front) => page.push(", which came before it"),
        Some(Rank::Vtime(own)) => write_times(spell, own, rules, page),
        None => {}
    }
}

/// Writes the virtual times of those that were taken, and the task's own, of their keys.
fn write_times(spell: &Spell, own: u64, rules: Rules, page: &mut Text) {
    if !spell.is_known {
        return;
    }
    let Some(KeyRange { low, high }) = spell.theirs else {
        return;
    };
    write_time(", of virtual time ", time_of_key(rules, low), page);
    if low < high {
        write_time(" to ", time_of_key(rules, high), page);
    }
    write_time("; its own is ", time_of_key(rules, own), page);
}

/// Writes the number of calls that took tasks of other queues alone, and the queues of the first ones.
fn write_others(spell: &Spell, page: &mut Text) {
    let passed = spell.passed;
    if passed == 0 {
        return;
    }
    page.number("    ", passed);
    page.push(" took another from");
    let mut before = " ";
    for share in spell.shares.as_slice() {
        page.show(before, &QueueName(share.queue));
        if share.calls < passed {
            page.number(" (", share.calls);
            page.push(")");
        }
        before = ", ";
    }
    write_unasked(spell, page);
}

fn write_vain(spell: &Spell, page: &mut Text) {
    if spell.vain == 0 {
        return;
    }
    page.number("    ", spell.vain);
    page.push(" took no task");
    write_unasked(spell, page);
}

/// Writes that a call didn't ask the queue of the task. It would have taken a task from there.
fn write_unasked(spell: &Spell, page: &mut Text) {
    if spell.queue < POLICY_END {
        page.show(", and didn't ask ", &QueueName(spell.queue));
    }
    page.push("\n");
}

/// Writes the tasks that were taken out of a queue that CPUs empty by themselves, and calls that couldn't take from it.
fn write_passed(spell: &Spell, page: &mut Text) {
    let queue = QueueName(spell.queue);
    if 0 < spell.taken {
        write_count("  ", spell.taken, "other", page);
        page.push(if spell.taken == 1 { " was" } else { " were" });
        page.show(" taken out of ", &queue);
        page.push(" while it was there\n");
    }
    let calls = spell.calls();
    if 0 < calls {
        write_count("  ", calls, "call", page);
        page.show(" of dispatch while it was in ", &queue);
        page.push(", out of which no call takes a task\n");
    }
}
