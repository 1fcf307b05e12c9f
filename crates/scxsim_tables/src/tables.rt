ghost use Rattle.std.specs.Prelude.{◌<◌, length};
ghost use Rattle.scxsim_output.specs.Texts.{Puts};
ghost use Rattle.scxsim_output.specs.Texts.{all_below};
ghost use Rattle.scxsim_tables.specs.Tables.{wait_cells, task_cells, parked_cell, task_row, task_heads, task_table, cpu_line, cpu_row, cpu_table, group_line, group_row, group_table, quota_cells, quota_row, quota_rows, quota_table, when_ejected, stall_end, fault_end, exit_end, policy_end, policy_row, check_line, last_rows, lower_rows, table_rows};

use crate::wait_tables::{write_group_percents, write_task_percents};
use scx_sched::{Eject, Fault};
use scx_sched_world::Cause;
use scxsim_faults::{FaultPlace, write_call, write_reason};
use scxsim_output::Text;
use scxsim_statistics::{
    CpuFigures, Figures, GroupFigures, LengthCounts, QuotaFigures, TaskFigures, group_name,
    has_quota, limit_of, task_name, write_hundredths_right, write_left, write_number_left,
    write_number_right, write_numbers,
};
use scxsim_views::fault_words;

/// The line of heads above the tasks, up to the column of parked times.
pub(crate) const TASKS: &str =
    "task                  run    waits        mean      99%  longest    since    wakes  stopped";

/// The head of parked times, if a group has a quota.
const PARKED: &str = "   parked";

const CPUS: &str = "cpu                  busy     idle     changes\n";

const GROUPS: &str = "group               share      due\n";

const QUOTAS: &str =
    "\ngroup               quota   period     most  periods   throttled      for\n";

/// Writes the figures as tables for people, from the end of the first line on, with these words to the fault or exit
/// for which the policy was ejected, if it was for one.
#[tactic(auto, unfolding(crate::specs::Tables::table_rows))]
pub(crate) fn write_tables(figures: &Figures, words: &str, page: &mut Text)
    ensures { Puts page.old (table_rows figures.now words.now) page.new }
{
    write_tasks(figures, page);
    page.push("\n");
    write_cpus(figures, page);
    page.push("\n");
    write_lower(figures, words, page);
}

/// Writes the tables of groups and quotas, those of waits by percent, and the line of the policy.
#[tactic(auto, unfolding(crate::specs::Tables::lower_rows))]
fn write_lower(figures: &Figures, words: &str, page: &mut Text)
    ensures { Puts page.old (lower_rows figures.now words.now) page.new }
{
    write_groups(figures, page);
    write_quotas(figures, page);
    write_last(figures, words, page);
}

/// Writes the tables of waits by percent, and the line of the policy.
#[tactic(auto, unfolding(crate::specs::Tables::last_rows))]
fn write_last(figures: &Figures, words: &str, page: &mut Text)
    ensures { Puts page.old (last_rows figures.now words.now) page.new }
{
    write_task_percents(figures, page);
    write_group_percents(figures, page);
    page.push("\n");
    write_policy(figures, words, page);
}

/// Writes that the policy is in force at the end, or the clock and the cause of its ejection.
#[tactic(auto, unfolding(crate::specs::Tables::policy_row))]
fn write_policy(figures: &Figures, words: &str, page: &mut Text)
    ensures { Puts page.old (policy_row figures.now words.now) page.new }
{
    page.push("policy  ");
    write_end(figures, figures.ejected, words, page);
}

/// Writes the line of `check`: that the policy is in force at the end, or the clock and the cause of its ejection.
#[tactic(auto, unfolding(crate::specs::Tables::check_line))]
pub(crate) fn write_check(figures: &Figures, words: &str, page: &mut Text)
    ensures { Puts page.old (check_line figures.now words.now) page.new }
{
    page.push("policy ");
    write_end(figures, figures.ejected, words, page);
}

fn write_end(figures: &Figures, ejected: Option<Eject>, words: &str, page: &mut Text)
    ensures { Puts page.old (policy_end figures.now ejected words.now) page.new }
{
    match ejected {
        None => page.push("in force\n"),
        Some(Eject::Stall(task, clock)) => {
            write_stall(task_name(figures, task as usize), clock, page);
        }
        Some(Eject::Fault(fault, clock)) => write_fault_end(fault.number(), clock, words, page),
        Some(Eject::Exit(code, clock)) => write_exit_end(code, clock, words, page),
    }
}

#[tactic(auto, unfolding(crate::specs::Tables::stall_end))]
fn write_stall(name: &str, clock: u64, page: &mut Text)
    ensures { Puts page.old (stall_end name.now clock) page.new }
{
    write_when(clock, page);
    page.push("stall ");
    page.push(name);
    page.push("\n");
}

#[tactic(auto, unfolding(crate::specs::Tables::fault_end))]
fn write_fault_end(number: u8, clock: u64, words: &str, page: &mut Text)
    ensures { Puts page.old (fault_end number clock words.now) page.new }
{
    write_when(clock, page);
    page.number("fault ", u64::from(number));
    page.push(words);
}

#[tactic(auto, unfolding(crate::specs::Tables::exit_end))]
fn write_exit_end(code: i64, clock: u64, words: &str, page: &mut Text)
    ensures { Puts page.old (exit_end code clock words.now) page.new }
{
    write_when(clock, page);
    page.show("exit ", &code);
    page.push(words);
}

#[tactic(auto, unfolding(crate::specs::Tables::when_ejected))]
fn write_when(clock: u64, page: &mut Text)
    ensures { Puts page.old (when_ejected clock) page.new }
{
    page.number("ejected at ", clock);
    page.push(" ms: ");
}

/// Writes the words to the fault or exit for which the policy was ejected: its place, if that is known, and its
/// meaning.
pub(crate) fn write_cause(figures: &Figures, place: Option<FaultPlace>, words: &mut Text) {
    let ejected = figures.ejected;
    match ejected {
        None | Some(Eject::Stall(_, _)) => {}
        Some(Eject::Fault(fault, _)) => match place {
            Some(place) => write_place(figures, place, words),
            None => write_words(fault, words),
        },
        Some(Eject::Exit(_, _)) => match place {
            Some(place) => write_place(figures, place, words),
            None => words.push("\n"),
        },
    }
}

/// Writes the callback and the slot of a fault or exit, and its meaning: of a fault of a call in a few words, else the
/// answer, or the number of the text that goes with an exit.
fn write_place(figures: &Figures, place: FaultPlace, page: &mut Text) {
    page.push(" in ");
    page.push(place.callback.name());
    page.number(" at slot ", place.slot as u64);
    match place.cause {
        Cause::Fault(fault) if place.call.is_some() => write_words(fault, page),
        Cause::Fault(_) => write_answer(figures, place, page),
        Cause::Exit(_) => {
            page.push(" (");
            write_reason(&place, &figures.workload, page);
            page.push(")\n");
        }
    }
}

/// Writes an answer that is no CPU.
fn write_answer(figures: &Figures, place: FaultPlace, page: &mut Text) {
    page.push(" (");
    write_call(&place, &figures.workload, page);
    page.push(": ");
    write_reason(&place, &figures.workload, page);
    page.push(")\n");
}

/// Writes the meaning of a fault.
fn write_words(fault: Fault, page: &mut Text) {
    page.push(" (");
    page.push(fault_words(fault));
    page.push(")\n");
}

#[tactic(auto, unfolding(crate::specs::Tables::task_table))]
fn write_tasks(figures: &Figures, page: &mut Text)
    ensures { Puts page.old (task_table figures.now) page.new }
{
    write_heads(figures, page);
    write_task_rows(figures, page);
}

/// Writes the end of the heads above the tasks.
#[tactic(auto, unfolding(crate::specs::Tables::task_heads))]
fn write_heads(figures: &Figures, page: &mut Text)
    ensures { Puts page.old (task_heads figures.now) page.new }
{
    if has_quota(figures) {
        page.push(PARKED);
        page.push("\n");
    } else {
        page.push("\n");
    }
}

#[tactic(auto, using(scxsim_output::proofs::Pieces::puts_next))]
fn write_task_rows(figures: &Figures, page: &mut Text)
    ensures { Puts page.old
        (all_below (task_row figures.now) (length figures.now.tasks.items)) page.new }
{
    for number in 0..figures.tasks.len() {
        write_task(figures, number, page);
    }
}

/// Writes the line of the task of that number.
#[tactic(auto, unfolding(crate::specs::Tables::task_row))]
fn write_task(figures: &Figures, number: usize, page: &mut Text)
    requires { number < length figures.now.tasks.items }
    ensures { Puts page.old (task_row figures.now number) page.new }
{
    let task = &figures.tasks[number];
    write_cells(task_name(figures, number), task, page);
    write_parked(has_quota(figures), task, page);
    page.push("\n");
}

#[tactic(auto, unfolding(crate::specs::Tables::task_cells))]
fn write_cells(name: &str, task: &TaskFigures, page: &mut Text)
    ensures { Puts page.old (task_cells name.now task.now) page.new }
{
    write_left(name, 16, page);
    write_numbers(&[task.run, task.waits.count()], page);
    write_waits(&task.waits, page);
    write_numbers(&[task.wakes, task.stopped], page);
}

/// Writes the lengths of a task's waits.
#[tactic(auto, unfolding(crate::specs::Tables::wait_cells))]
fn write_waits(waits: &LengthCounts, page: &mut Text)
    ensures { Puts page.old (wait_cells waits.now) page.new }
{
    write_hundredths_right(waits.mean(), 12, page);
    let waited = [waits.percentile(99), waits.longest(), waits.longest_since()];
    write_numbers(&waited, page);
}

/// Writes the parked time of a task, if a group has a quota.
#[tactic(auto, unfolding(crate::specs::Tables::parked_cell), using(scxsim_output::proofs::Pieces::puts_nothing))]
fn write_parked(are_parked: bool, task: &TaskFigures, page: &mut Text)
    ensures { Puts page.old (parked_cell are_parked task.now) page.new }
{
    if are_parked {
        write_numbers(&[task.parked], page);
    }
}

#[tactic(auto, unfolding(crate::specs::Tables::cpu_table))]
fn write_cpus(figures: &Figures, page: &mut Text)
    ensures { Puts page.old (cpu_table figures.now) page.new }
{
    page.push(CPUS);
    write_cpu_rows(figures, page);
}

#[tactic(auto, using(scxsim_output::proofs::Pieces::puts_next))]
fn write_cpu_rows(figures: &Figures, page: &mut Text)
    ensures { Puts page.old
        (all_below (cpu_row figures.now) (length figures.now.cpus.items)) page.new }
{
    for number in 0..figures.cpus.len() {
        write_cpu(number as u64, figures.cpus[number], page);
    }
}

#[tactic(auto, unfolding(crate::specs::Tables::cpu_line))]
fn write_cpu(number: u64, cpu: CpuFigures, page: &mut Text)
    ensures { Puts page.old (cpu_line number cpu) page.new }
{
    write_number_left(number, 16, page);
    write_numbers(&[cpu.busy, cpu.idle], page);
    write_number_right(cpu.changes, 12, page);
    page.push("\n");
}

#[tactic(auto, unfolding(crate::specs::Tables::group_table))]
fn write_groups(figures: &Figures, page: &mut Text)
    ensures { Puts page.old (group_table figures.now) page.new }
{
    page.push(GROUPS);
    write_group_rows(figures, page);
}

#[tactic(auto, using(scxsim_output::proofs::Pieces::puts_next))]
fn write_group_rows(figures: &Figures, page: &mut Text)
    ensures { Puts page.old
        (all_below (group_row figures.now) (length figures.now.groups.items)) page.new }
{
    for number in 0..figures.groups.len() {
        write_group(group_name(figures, number), figures.groups[number], page);
    }
}

#[tactic(auto, unfolding(crate::specs::Tables::group_line))]
fn write_group(name: &str, group: GroupFigures, page: &mut Text)
    ensures { Puts page.old (group_line name.now group) page.new }
{
    write_left(name, 16, page);
    write_hundredths_right(group.reached, 8, page);
    page.push("%");
    write_hundredths_right(group.due, 8, page);
    page.push("%\n");
}

/// Writes a line for each group that has a quota, if one has.
#[tactic(auto, unfolding(crate::specs::Tables::quota_table), using(scxsim_output::proofs::Pieces::puts_nothing))]
fn write_quotas(figures: &Figures, page: &mut Text)
    ensures { Puts page.old (quota_table figures.now) page.new }
{
    if has_quota(figures) {
        write_quota_table(figures, page);
    }
}

#[tactic(auto, unfolding(crate::specs::Tables::quota_rows))]
fn write_quota_table(figures: &Figures, page: &mut Text)
    ensures { Puts page.old (quota_rows figures.now) page.new }
{
    page.push(QUOTAS);
    write_quota_rows(figures, page);
}

#[tactic(auto, using(scxsim_output::proofs::Pieces::puts_next))]
fn write_quota_rows(figures: &Figures, page: &mut Text)
    ensures { Puts page.old
        (all_below (quota_row figures.now) (length figures.now.quotas.groups.items)) page.new }
{
    for number in 0..figures.quotas.groups.len() {
        write_quota(figures, number, page);
    }
}

/// Writes the line of the quota of the group of that number, if it has one.
#[tactic(auto, using(scxsim_output::proofs::Pieces::puts_nothing))]
fn write_quota(figures: &Figures, number: usize, page: &mut Text)
    ensures { Puts page.old (quota_row figures.now number) page.new }
{
    if let Some((quota_ms, group)) = limit_of(figures, number) {
        write_quota_cells(group_name(figures, number), quota_ms, group, page);
    }
}

#[tactic(auto, unfolding(crate::specs::Tables::quota_cells))]
fn write_quota_cells(name: &str, quota_ms: u32, group: QuotaFigures, page: &mut Text)
    ensures { Puts page.old (quota_cells name.now quota_ms group) page.new }
{
    let limits = [
        u64::from(quota_ms),
        u64::from(group.period_ms),
        group.most,
        group.periods,
    ];
    write_left(name, 16, page);
    write_numbers(&limits, page);
    write_number_right(group.throttled_periods, 12, page);
    write_number_right(group.throttled, 9, page);
    page.push("\n");
}
