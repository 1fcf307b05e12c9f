ghost use Rattle.std.specs.Prelude.{◌<◌, length};
ghost use Rattle.scxsim_output.specs.Texts.{Puts};
ghost use Rattle.scxsim_output.specs.Texts.{all_below};
ghost use Rattle.scxsim_tables.specs.Tables.{percent_cells, percent_line, task_percents, group_percents, task_percent_table, group_percent_table};

use scxsim_output::Text;
use scxsim_statistics::{Figures, LengthCounts, group_name, task_name, write_left, write_numbers};

const TASKS: &str =
    "\ntask             wait 50%      90%      99% wake-run      50%      90%      99%  longest\n";

const GROUPS: &str =
    "\ngroup            wait 50%      90%      99% wake-run      50%      90%      99%  longest\n";

/// Writes the waits of tasks by percent, and their wake-to-run latencies.
#[tactic(auto, unfolding(crate::specs::Tables::task_percent_table))]
pub(crate) fn write_task_percents(figures: &Figures, page: &mut Text)
    ensures { Puts page.old (task_percent_table figures.now) page.new }
{
    page.push(TASKS);
    write_task_lines(figures, page);
}

#[tactic(auto, using(scxsim_output::proofs::Pieces::puts_next))]
fn write_task_lines(figures: &Figures, page: &mut Text)
    ensures { Puts page.old
        (all_below (task_percents figures.now) (length figures.now.tasks.items)) page.new }
{
    for number in 0..figures.tasks.len() {
        write_task_line(figures, number, page);
    }
}

/// Writes the line of the task of that number.
#[tactic(auto, using(scxsim_output::proofs::Pieces::puts_nothing))]
fn write_task_line(figures: &Figures, number: usize, page: &mut Text)
    requires { number < length figures.now.tasks.items }
    ensures { Puts page.old (task_percents figures.now number) page.new }
{
    let name = task_name(figures, number);
    let waits = &figures.tasks[number].waits;
    if let Some(latencies) = figures.latencies.get(number) {
        write_percents(name, waits, &latencies.lengths, page);
    }
}

/// Writes the waits of groups by percent, and their wake-to-run latencies.
#[tactic(auto, unfolding(crate::specs::Tables::group_percent_table))]
pub(crate) fn write_group_percents(figures: &Figures, page: &mut Text)
    ensures { Puts page.old (group_percent_table figures.now) page.new }
{
    page.push(GROUPS);
    write_group_lines(figures, page);
}

#[tactic(auto, using(scxsim_output::proofs::Pieces::puts_next))]
fn write_group_lines(figures: &Figures, page: &mut Text)
    ensures { Puts page.old
        (all_below (group_percents figures.now) (length figures.now.groups.items)) page.new }
{
    for number in 0..figures.groups.len() {
        write_group_line(figures, number, page);
    }
}

/// Writes the line of the group of that number, if its waits are there.
#[tactic(auto, using(scxsim_output::proofs::Pieces::puts_nothing))]
fn write_group_line(figures: &Figures, number: usize, page: &mut Text)
    ensures { Puts page.old (group_percents figures.now number) page.new }
{
    if let Some(both) = figures.group_waits.get(number) {
        let name = group_name(figures, number);
        write_percents(name, &both.waits, &both.latencies, page);
    }
}

/// Writes the line of a task or group.
#[tactic(auto, unfolding(crate::specs::Tables::percent_line))]
fn write_percents(name: &str, waits: &LengthCounts, latencies: &LengthCounts, page: &mut Text)
    ensures { Puts page.old (percent_line name.now waits.now latencies.now) page.new }
{
    write_left(name, 16, page);
    write_percent_cells(waits, page);
    write_numbers(&[latencies.count()], page);
    write_percent_cells(latencies, page);
    write_numbers(&[latencies.longest()], page);
    page.push("\n");
}

/// Writes the lengths that 50, 90 and 99 of 100 don't exceed.
#[tactic(auto, unfolding(crate::specs::Tables::percent_cells))]
fn write_percent_cells(lengths: &LengthCounts, page: &mut Text)
    ensures { Puts page.old (percent_cells lengths.now) page.new }
{
    let percents = [
        lengths.percentile(50),
        lengths.percentile(90),
        lengths.percentile(99),
    ];
    write_numbers(&percents, page);
}
