ghost use Rattle.std.specs.Prelude.{◌<◌, ◌++◌, length, codes};
ghost use Rattle.scxsim_output.specs.Texts.{Puts};
ghost use Rattle.scxsim_output.specs.Texts.{all_below};
ghost use Rattle.scxsim_statistics.specs.Numbered.{latencies_of};
ghost use Rattle.scxsim_tables.specs.Values.{labels, group_wait_labels, group_latency_labels, half_lines, percentile_lines, counted_lines, latency_lines, latency_lines_of, task_waits, group_waits, wait_values};

use crate::values::list;
use scxsim_output::Text;
use scxsim_statistics::{Figures, GroupWaits, LengthCounts, group_name, task_name};

/// The names of the lines of some lengths: their count, three percentiles and the longest.
#[derive(Clone, Copy)]
pub(crate) struct LengthNames {
    count: &'static str,
    half: &'static str,
    most: &'static str,
    nearly_all: &'static str,
    longest: &'static str,
}

const TASK_LATENCIES: LengthNames = LengthNames {
    count: "wakes_to_run",
    half: "wake_to_run_50_percent_ms",
    most: "wake_to_run_90_percent_ms",
    nearly_all: "wake_to_run_99_percent_ms",
    longest: "longest_wake_to_run_ms",
};

const GROUP_WAITS: LengthNames = LengthNames {
    count: "group_waits",
    half: "group_wait_50_percent_ms",
    most: "group_wait_90_percent_ms",
    nearly_all: "group_wait_99_percent_ms",
    longest: "group_longest_wait_ms",
};

const GROUP_LATENCIES: LengthNames = LengthNames {
    count: "group_wakes_to_run",
    half: "group_wake_to_run_50_percent_ms",
    most: "group_wake_to_run_90_percent_ms",
    nearly_all: "group_wake_to_run_99_percent_ms",
    longest: "group_longest_wake_to_run_ms",
};

/// Writes the waits of all tasks and groups by percent, and their wake-to-run latencies.
#[tactic(auto, unfolding(crate::specs::Values::wait_values))]
pub(crate) fn list_wait_values(figures: &Figures, page: &mut Text)
    ensures { Puts page.old (wait_values figures.now) page.new }
{
    list_task_waits(figures, page);
    list_group_waits(figures, page);
}

#[tactic(auto, using(scxsim_output::proofs::Pieces::puts_next))]
fn list_task_waits(figures: &Figures, page: &mut Text)
    ensures { Puts page.old
        (all_below (task_waits figures.now) (length figures.now.tasks.items)) page.new }
{
    for number in 0..figures.tasks.len() {
        list_waits_of_task(figures, number, page);
    }
}

#[tactic(auto, using(scxsim_output::proofs::Pieces::puts_next))]
fn list_group_waits(figures: &Figures, page: &mut Text)
    ensures { Puts page.old
        (all_below (group_waits figures.now) (length figures.now.groups.items)) page.new }
{
    for number in 0..figures.groups.len() {
        list_waits_of_group(figures, number, page);
    }
}

/// Writes the waits of the task of that number by percent, and its wake-to-run latencies.
#[tactic(auto, unfolding(crate::specs::Values::task_waits))]
fn list_waits_of_task(figures: &Figures, number: usize, page: &mut Text)
    requires { number < length figures.now.tasks.items }
    ensures { Puts page.old (task_waits figures.now number) page.new }
{
    let name = task_name(figures, number);
    list_halves(name, &figures.tasks[number].waits, page);
    list_latencies_of(name, figures, number, page);
}

#[tactic(auto, unfolding(crate::specs::Values::half_lines))]
fn list_halves(name: &str, waits: &LengthCounts, page: &mut Text)
    ensures { Puts page.old (half_lines name.now waits.now) page.new }
{
    let half = waits.percentile(50);
    let most = waits.percentile(90);
    list(page, "task", name, "wait_50_percent_ms", half);
    list(page, "task", name, "wait_90_percent_ms", most);
}

/// Writes the wake-to-run latencies of the task of that number, if they are there.
#[tactic(auto, using(scxsim_output::proofs::Pieces::puts_nothing))]
fn list_latencies_of(name: &str, figures: &Figures, number: usize, page: &mut Text)
    ensures { Puts page.old (latency_lines_of name.now (latencies_of figures.now number)) page.new }
{
    if let Some(latencies) = figures.latencies.get(number) {
        list_latencies(name, &latencies.lengths, page);
    }
}

#[tactic(auto, unfolding(crate::specs::Values::latency_lines))]
fn list_latencies(name: &str, latencies: &LengthCounts, page: &mut Text)
    ensures { Puts page.old (latency_lines name.now latencies.now) page.new }
{
    list_counted("task", name, TASK_LATENCIES, latencies, page);
}

/// Writes the waits and wake-to-run latencies of the group of that number, if they are there.
#[tactic(auto, using(scxsim_output::proofs::Pieces::puts_nothing))]
fn list_waits_of_group(figures: &Figures, number: usize, page: &mut Text)
    ensures { Puts page.old (group_waits figures.now number) page.new }
{
    if let Some(waits) = figures.group_waits.get(number) {
        list_both(group_name(figures, number), waits, page);
    }
}

fn list_both(name: &str, waits: &GroupWaits, page: &mut Text)
    ensures { Puts page.old
        (counted_lines (codes "group") name.now group_wait_labels waits.now.waits
        ++ counted_lines (codes "group") name.now group_latency_labels waits.now.latencies)
        page.new }
{
    list_counted("group", name, GROUP_WAITS, &waits.waits, page);
    list_counted("group", name, GROUP_LATENCIES, &waits.latencies, page);
}

/// Writes lengths of that name; if there are none, only their number.
#[tactic(auto, unfolding(crate::specs::Values::counted_lines), using(scxsim_output::proofs::Pieces::puts_nothing))]
fn list_counted(kind: &str, name: &str, names: LengthNames, lengths: &LengthCounts, page: &mut Text)
    ensures { Puts page.old (counted_lines kind.now name.now (labels names) lengths.now) page.new }
{
    let count = lengths.count();
    list(page, kind, name, names.count, count);
    if count == 0 {
        return;
    }
    list_percentiles(kind, name, names, lengths, page);
}

fn list_percentiles(
    kind: &str,
    name: &str,
    names: LengthNames,
    lengths: &LengthCounts,
    page: &mut Text,
)
    ensures { Puts page.old
        (percentile_lines kind.now name.now (labels names) lengths.now) page.new }
{
    let half = lengths.percentile(50);
    let most = lengths.percentile(90);
    let nearly_all = lengths.percentile(99);
    let longest = lengths.longest();
    list(page, kind, name, names.half, half);
    list(page, kind, name, names.most, most);
    list(page, kind, name, names.nearly_all, nearly_all);
    list(page, kind, name, names.longest, longest);
}
