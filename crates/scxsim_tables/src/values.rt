ghost use Rattle.std.specs.Prelude.{◌<◌, length, codes, decimal};
ghost use Rattle.scxsim_output.specs.Texts.{Puts};
ghost use Rattle.scxsim_output.specs.Texts.{all_below};
ghost use Rattle.scxsim_statistics.specs.Cells.{hundredths};
ghost use Rattle.scxsim_statistics.specs.Numbered.{bursts_of};
ghost use Rattle.scxsim_tables.specs.Values.{start, line, wait_lines, longest_lines, stop_lines, most_lines, percent_lines, length_lines, burst_lines, burst_lines_of, task_values, cpu_lines, lost_line, cpu_values, group_lines, group_values, parked_value, use_lines, throttle_lines, period_lines, quota_lines, quota_values, limit_values, ending, ejected_line, policy_values, value_rows};

use crate::wait_values::list_wait_values;
use itoa::Buffer;
use scx_sched::Eject;
use scxsim_output::Text;
use scxsim_statistics::{
    BurstFigures, CpuFigures, Figures, GroupFigures, QuotaFigures, TaskFigures, group_name,
    has_quota, limit_of, task_name, write_hundredths,
};

/// The line of the columns' names.
pub(crate) const COLUMNS: &str = "kind,name,figure,value\n";

/// Writes the figures as comma-separated values, a line for each figure. No name has a character that would have to be
/// quoted.
#[tactic(auto, unfolding(crate::specs::Values::value_rows))]
pub(crate) fn write_list(figures: &Figures, page: &mut Text)
    ensures { Puts page.old (value_rows figures.now) page.new }
{
    list_tasks(figures, page);
    list_cpus(figures, page);
    list_groups(figures, page);
    list_limits(figures, page);
    list_policy(figures, page);
    list_wait_values(figures, page);
}

#[tactic(auto, using(scxsim_output::proofs::Pieces::puts_next))]
fn list_tasks(figures: &Figures, page: &mut Text)
    ensures { Puts page.old
        (all_below (task_values figures.now) (length figures.now.tasks.items)) page.new }
{
    for number in 0..figures.tasks.len() {
        list_task(figures, number, page);
    }
}

#[tactic(auto, using(scxsim_output::proofs::Pieces::puts_next))]
fn list_cpus(figures: &Figures, page: &mut Text)
    ensures { Puts page.old
        (all_below (cpu_values figures.now) (length figures.now.cpus.items)) page.new }
{
    for number in 0..figures.cpus.len() {
        list_cpu(figures, number, page);
    }
}

#[tactic(auto, using(scxsim_output::proofs::Pieces::puts_next))]
fn list_groups(figures: &Figures, page: &mut Text)
    ensures { Puts page.old
        (all_below (group_values figures.now) (length figures.now.groups.items)) page.new }
{
    for number in 0..figures.groups.len() {
        list_group(group_name(figures, number), figures.groups[number], page);
    }
}

/// Writes the parked time of each task, and the figures of quotas, if a group has one.
#[tactic(auto, unfolding(crate::specs::Values::limit_values), using(scxsim_output::proofs::Pieces::puts_nothing))]
fn list_limits(figures: &Figures, page: &mut Text)
    ensures { Puts page.old (limit_values figures.now) page.new }
{
    if has_quota(figures) {
        list_parked(figures, page);
        list_quotas(figures, page);
    }
}

/// Writes the parked time of each task.
#[tactic(auto, using(scxsim_output::proofs::Pieces::puts_next))]
fn list_parked(figures: &Figures, page: &mut Text)
    ensures { Puts page.old
        (all_below (parked_value figures.now) (length figures.now.tasks.items)) page.new }
{
    for number in 0..figures.tasks.len() {
        let parked = figures.tasks[number].parked;
        list(
            page,
            "task",
            task_name(figures, number),
            "parked_ms",
            parked,
        );
    }
}

/// Writes the figures of each group that has a quota.
#[tactic(auto, using(scxsim_output::proofs::Pieces::puts_next))]
fn list_quotas(figures: &Figures, page: &mut Text)
    ensures { Puts page.old
        (all_below (quota_values figures.now) (length figures.now.quotas.groups.items)) page.new }
{
    for number in 0..figures.quotas.groups.len() {
        list_quota(figures, number, page);
    }
}

/// Writes the figures of the task of that number.
#[tactic(auto, unfolding(crate::specs::Values::task_values))]
fn list_task(figures: &Figures, number: usize, page: &mut Text)
    requires { number < length figures.now.tasks.items }
    ensures { Puts page.old (task_values figures.now number) page.new }
{
    let name = task_name(figures, number);
    let task = &figures.tasks[number];
    list_waits(name, task, page);
    list_stops(name, task, page);
    list_bursts_of(name, figures, number, page);
}

#[tactic(auto, unfolding(crate::specs::Values::wait_lines))]
fn list_waits(name: &str, task: &TaskFigures, page: &mut Text)
    ensures { Puts page.old (wait_lines name.now task.now) page.new }
{
    let waits = &task.waits;
    let nearly_all = waits.percentile(99);
    list(page, "task", name, "run_ms", task.run);
    list(page, "task", name, "waits", waits.count());
    list_hundredths(page, "task", name, "mean_wait_ms", waits.mean());
    list(page, "task", name, "wait_99_percent_ms", nearly_all);
}

#[tactic(auto, unfolding(crate::specs::Values::stop_lines))]
fn list_stops(name: &str, task: &TaskFigures, page: &mut Text)
    ensures { Puts page.old (stop_lines name.now task.now) page.new }
{
    list_longest(name, task, page);
    list(page, "task", name, "wakes", task.wakes);
    list(page, "task", name, "stopped", task.stopped);
}

#[tactic(auto, unfolding(crate::specs::Values::longest_lines))]
fn list_longest(name: &str, task: &TaskFigures, page: &mut Text)
    ensures { Puts page.old (longest_lines name.now task.now) page.new }
{
    let longest = task.waits.longest();
    let since = task.waits.longest_since();
    list(page, "task", name, "longest_wait_ms", longest);
    list(page, "task", name, "longest_wait_since_ms", since);
}

/// Writes the figures of the bursts of the task of that number, if they are there.
#[tactic(auto, using(scxsim_output::proofs::Pieces::puts_nothing))]
fn list_bursts_of(name: &str, figures: &Figures, number: usize, page: &mut Text)
    ensures { Puts page.old (burst_lines_of name.now (bursts_of figures.now number)) page.new }
{
    if let Some(bursts) = figures.bursts.get(number) {
        list_bursts(name, bursts, page);
    }
}

/// Writes the figures of a task's finished bursts; if there are none, only their number.
#[tactic(auto, unfolding(crate::specs::Values::burst_lines), using(scxsim_output::proofs::Pieces::puts_nothing))]
fn list_bursts(name: &str, bursts: &BurstFigures, page: &mut Text)
    ensures { Puts page.old (burst_lines name.now bursts.now) page.new }
{
    let count = bursts.lengths.count();
    list(page, "task", name, "bursts", count);
    if count == 0 {
        return;
    }
    list_lengths(name, bursts, page);
}

/// Writes the lengths of a task's bursts.
#[tactic(auto, unfolding(crate::specs::Values::length_lines))]
fn list_lengths(name: &str, bursts: &BurstFigures, page: &mut Text)
    ensures { Puts page.old (length_lines name.now bursts.now) page.new }
{
    let lengths = &bursts.lengths;
    list_hundredths(page, "task", name, "mean_burst_ms", lengths.mean());
    list_percents(name, bursts, page);
    list(page, "task", name, "longest_burst_ms", lengths.longest());
    list_hundredths(page, "task", name, "slowdown", bursts.slowdown());
}

#[tactic(auto, unfolding(crate::specs::Values::percent_lines))]
fn list_percents(name: &str, bursts: &BurstFigures, page: &mut Text)
    ensures { Puts page.old (percent_lines name.now bursts.now) page.new }
{
    let half = bursts.lengths.percentile(50);
    list(page, "task", name, "burst_50_percent_ms", half);
    list_most(name, bursts, page);
}

#[tactic(auto, unfolding(crate::specs::Values::most_lines))]
fn list_most(name: &str, bursts: &BurstFigures, page: &mut Text)
    ensures { Puts page.old (most_lines name.now bursts.now) page.new }
{
    let most = bursts.lengths.percentile(90);
    let nearly_all = bursts.lengths.percentile(99);
    list(page, "task", name, "burst_90_percent_ms", most);
    list(page, "task", name, "burst_99_percent_ms", nearly_all);
}

/// Writes the figures of the CPU of that number.
#[tactic(auto, unfolding(crate::specs::Values::cpu_values))]
fn list_cpu(figures: &Figures, number: usize, page: &mut Text)
    requires { number < length figures.now.cpus.items }
    ensures { Puts page.old (cpu_values figures.now number) page.new }
{
    let mut digits = Buffer::new();
    let name = digits.format(number);
    list_times(name, figures.cpus[number], page);
    list_lost(name, figures.losses.cpus.get(number).copied(), page);
}

#[tactic(auto, unfolding(crate::specs::Values::cpu_lines))]
fn list_times(name: &str, cpu: CpuFigures, page: &mut Text)
    ensures { Puts page.old (cpu_lines name.now cpu) page.new }
{
    list(page, "cpu", name, "busy_ms", cpu.busy);
    list(page, "cpu", name, "idle_ms", cpu.idle);
    list(page, "cpu", name, "changes", cpu.changes);
}

#[tactic(auto, unfolding(crate::specs::Values::lost_line), using(scxsim_output::proofs::Pieces::puts_nothing))]
fn list_lost(name: &str, lost: Option<u64>, page: &mut Text)
    ensures { Puts page.old (lost_line name.now lost) page.new }
{
    if let Some(lost) = lost {
        list(page, "cpu", name, "idle_while_waiting_ms", lost);
    }
}

#[tactic(auto, unfolding(crate::specs::Values::group_lines))]
fn list_group(name: &str, group: GroupFigures, page: &mut Text)
    ensures { Puts page.old (group_lines name.now group) page.new }
{
    list_hundredths(page, "group", name, "share_percent", group.reached);
    list_hundredths(page, "group", name, "due_percent", group.due);
}

/// Writes the figures of the quota of the group of that number, if it has one.
#[tactic(auto, using(scxsim_output::proofs::Pieces::puts_nothing))]
fn list_quota(figures: &Figures, number: usize, page: &mut Text)
    ensures { Puts page.old (quota_values figures.now number) page.new }
{
    if let Some((quota_ms, group)) = limit_of(figures, number) {
        list_limit(group_name(figures, number), quota_ms, group, page);
    }
}

#[tactic(auto, unfolding(crate::specs::Values::quota_lines))]
fn list_limit(name: &str, quota_ms: u32, group: QuotaFigures, page: &mut Text)
    ensures { Puts page.old (quota_lines name.now quota_ms group) page.new }
{
    list_use(name, quota_ms, group, page);
    list_periods(name, group, page);
}

#[tactic(auto, unfolding(crate::specs::Values::use_lines))]
fn list_use(name: &str, quota_ms: u32, group: QuotaFigures, page: &mut Text)
    ensures { Puts page.old (use_lines name.now quota_ms group) page.new }
{
    list(page, "group", name, "quota_ms", u64::from(quota_ms));
    list(page, "group", name, "period_ms", u64::from(group.period_ms));
    list(page, "group", name, "most_in_a_period_ms", group.most);
}

#[tactic(auto, unfolding(crate::specs::Values::period_lines))]
fn list_periods(name: &str, group: QuotaFigures, page: &mut Text)
    ensures { Puts page.old (period_lines name.now group) page.new }
{
    list(page, "group", name, "periods", group.periods);
    list_throttled(name, group, page);
}

#[tactic(auto, unfolding(crate::specs::Values::throttle_lines))]
fn list_throttled(name: &str, group: QuotaFigures, page: &mut Text)
    ensures { Puts page.old (throttle_lines name.now group) page.new }
{
    let periods = group.throttled_periods;
    list(page, "group", name, "throttled_periods", periods);
    list(page, "group", name, "throttled_ms", group.throttled);
}

/// Writes the milliseconds in which some CPU was idle while a task waited, and the end of the policy.
#[tactic(auto, unfolding(crate::specs::Values::policy_values))]
fn list_policy(figures: &Figures, page: &mut Text)
    ensures { Puts page.old (policy_values figures.now) page.new }
{
    let name = figures.policy_name.as_str();
    let lost = figures.losses.anywhere;
    list(page, "policy", name, "idle_while_waiting_ms", lost);
    list_ending(figures, name, page);
    list_ejected(name, figures.ejected, page);
}

/// Writes that the policy is in force at the end, or the task, fault or exit for which it was ejected.
#[tactic(auto, unfolding(crate::specs::Values::line))]
fn list_ending(figures: &Figures, name: &str, page: &mut Text)
    ensures { Puts page.old (line (codes "policy") name.now (codes "ended")
        (ending figures.now figures.now.ejected)) page.new }
{
    begin(page, "policy", name, "ended");
    write_ending(figures, figures.ejected, page);
    page.push("\n");
}

fn write_ending(figures: &Figures, ejected: Option<Eject>, page: &mut Text)
    ensures { Puts page.old (ending figures.now ejected) page.new }
{
    match ejected {
        None => page.push("in force"),
        Some(Eject::Stall(task, _)) => {
            page.push("stall ");
            page.push(task_name(figures, task as usize));
        }
        Some(Eject::Fault(fault, _)) => page.number("fault ", u64::from(fault.number())),
        Some(Eject::Exit(code, _)) => page.show("exit ", &code),
    }
}

/// Writes the clock at which the policy was ejected, if it was.
#[tactic(auto, unfolding(crate::specs::Values::ejected_line), using(scxsim_output::proofs::Pieces::puts_nothing))]
fn list_ejected(name: &str, ejected: Option<Eject>, page: &mut Text)
    ensures { Puts page.old (ejected_line name.now ejected) page.new }
{
    match ejected {
        None => {}
        Some(Eject::Stall(_, clock)) => list(page, "policy", name, "ejected_at_ms", clock),
        Some(Eject::Fault(_, clock)) => list(page, "policy", name, "ejected_at_ms", clock),
        Some(Eject::Exit(_, clock)) => list(page, "policy", name, "ejected_at_ms", clock),
    }
}

/// Writes the line of a figure.
#[tactic(auto, unfolding(crate::specs::Values::line))]
pub(crate) fn list(page: &mut Text, kind: &str, name: &str, figure: &str, value: u64)
    ensures { Puts page.old (line kind.now name.now figure.now (decimal value)) page.new }
{
    begin(page, kind, name, figure);
    page.number("", value);
    page.push("\n");
}

/// Writes the line of a figure that is counted in hundredths.
#[tactic(auto, unfolding(crate::specs::Values::line))]
fn list_hundredths(page: &mut Text, kind: &str, name: &str, figure: &str, value: u64)
    ensures { Puts page.old (line kind.now name.now figure.now (hundredths value)) page.new }
{
    begin(page, kind, name, figure);
    write_hundredths(value, page);
    page.push("\n");
}

/// Writes the columns before a value.
#[tactic(auto, unfolding(crate::specs::Values::start))]
fn begin(page: &mut Text, kind: &str, name: &str, figure: &str)
    ensures { Puts page.old (start kind.now name.now figure.now) page.new }
{
    page.push(kind);
    page.push(",");
    page.push(name);
    page.push(",");
    page.push(figure);
    page.push(",");
}
