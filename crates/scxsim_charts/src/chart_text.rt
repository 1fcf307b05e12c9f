use crate::chart_sums::Chart;
use crate::legends::write_legend;
use crate::marks::letter;
use scxsim_commands::Ejection;
use scxsim_output::Text;
use scxsim_trace::Names;

/// The number of characters before those of time: the name of a row, and a bar.
const NAME: usize = 19;

/// The most characters of a number of the axis.
const NUMBER: usize = 8;

/// The number of characters in the words of an ejection.
const EJECTED: usize = 9;

/// The characters of the time that a line ran, and of the time that it waited.
const RAN: usize = 9;

const WAITED: usize = 11;

impl Chart {
    /// The name of the task of that number; an empty one where there is none.
    fn task_name(&self, number: usize) -> &str {
        match u16::try_from(number) {
            Ok(task) => self.workload.task(task),
            Err(_) => "",
        }
    }

    /// The time that tasks ran on a line of CPUs.
    fn ran_on(&self, line: usize) -> u64 {
        if self.rows.by_group {
            return self.sums.cpus.total(0);
        }
        let mut ran = 0u64;
        for task in 0..self.rows.tasks {
            ran = ran.saturating_add(self.sums.cpus.total(self.rows.of_cpu(line, task)));
        }
        ran
    }

    /// The name of the group of that number; an empty one where there is none.
    fn group_name(&self, number: usize) -> &str {
        match u32::try_from(number) {
            Ok(group) => self.workload.group(group),
            Err(_) => "",
        }
    }
}

/// Adds the lines of a chart, from the end of its title on.
pub(crate) fn write_chart(chart: &Chart, page: &mut Text) {
    write_end(chart, page);
    write_axis(chart, page);
    for line in 0..chart.rows.cpu_lines() {
        write_cpus(chart, line, page);
    }
    for row in 0..chart.rows.of_tasks() {
        write_row(chart, row, page);
    }
    write_ejection(chart, page);
    write_legend(chart, page);
}

/// Adds that the policy is in force at the end of the run, or when and why it was ejected.
fn write_end(chart: &Chart, page: &mut Text) {
    match chart.ejection {
        None => page.push("in force to the end\n"),
        Some(Ejection::Stall { moment, task }) => {
            page.number("ejected at ", moment);
            page.push(" ms, stall of ");
            page.push(chart.workload.task(task));
            page.push("\n");
        }
        Some(Ejection::Fault { moment, number }) => {
            page.number("ejected at ", moment);
            page.number(" ms, fault ", u64::from(number));
            page.push("\n");
        }
        Some(Ejection::Exit { moment, code }) => {
            page.number("ejected at ", moment);
            page.show(" ms, exit ", &code);
            page.push("\n");
        }
    }
}

/// Adds the line above the chart: the moments with which some characters begin, and what is at the right.
fn write_axis(chart: &Chart, page: &mut Text) {
    let cells = chart.scale.cells();
    page.left("ms", NAME);
    let start = page.len();
    let apart = chart.scale.apart().max(1);
    for number in 0..cells {
        let cell = number.saturating_mul(apart);
        if cell >= chart.scale.used() || cell.saturating_add(NUMBER) > cells {
            break;
        }
        let wide = page.len().saturating_sub(start);
        page.spaces(cell.saturating_sub(wide));
        page.number("", chart.scale.moment(cell));
    }
    page.spaces(cells.saturating_sub(page.len().saturating_sub(start)));
    page.right("ran ms", RAN);
    page.right("waited ms", WAITED);
    page.push("\n");
}

/// Adds the line of a CPU, or of all: its characters, and the time that tasks ran there.
fn write_cpus(chart: &Chart, line: usize, page: &mut Text) {
    if chart.rows.by_group {
        page.left("all cpus", NAME - 1);
    } else {
        page.push("cpu ");
        page.number_left(line as u64, 14);
    }
    page.push("|");
    for cell in 0..chart.scale.used() {
        page.character(chart.cpu_character(line, cell));
    }
    page.spaces(chart.scale.unused());
    page.number_right(chart.scale.ms(chart.ran_on(line)), RAN);
    page.push("\n");
}

/// Adds the line of a task or of a group, with the time that it ran and waited. A group without tasks is left out.
fn write_row(chart: &Chart, row: usize, page: &mut Text) {
    if !has_tasks(chart, row) {
        return;
    }
    write_name(chart, row, page);
    for cell in 0..chart.scale.used() {
        page.character(chart.task_character(row, cell));
    }
    page.spaces(chart.scale.unused());
    page.number_right(chart.scale.ms(chart.sums.ran.total(row)), RAN);
    page.number_right(chart.sums.waited_by_clock(row), WAITED);
    page.push("\n");
}

/// True if the row is that of a task, or of a group with tasks.
fn has_tasks(chart: &Chart, row: usize) -> bool {
    !chart.rows.by_group
        || chart
            .workload
            .tasks()
            .iter()
            .any(|group| *group as usize == row)
}

fn write_name(chart: &Chart, row: usize, page: &mut Text) {
    if chart.rows.by_group {
        page.left(chart.group_name(row), 18);
    } else {
        write_task_name(row, chart.task_name(row), page);
    }
    page.push("|");
}

/// Adds the name of a task, after its letter if it has one.
fn write_task_name(task: usize, name: &str, page: &mut Text) {
    match letter(task) {
        Some(letter) => {
            page.character(letter);
            page.push(" ");
            page.left(name, 16);
        }
        None => page.left(name, 18),
    }
}

/// Adds the line of the ejection, if it lies in the window.
fn write_ejection(chart: &Chart, page: &mut Text) {
    match chart.ejection {
        Some(ejection) if chart.scale.has(ejection.moment()) => {
            let cell = chart.scale.cell(ejection.moment());
            write_mark(cell, chart.scale.cells(), page);
        }
        _ => {}
    }
}

/// Marks the character in which the policy was ejected.
fn write_mark(cell: usize, cells: usize, page: &mut Text) {
    let column = NAME.saturating_add(cell);
    if cell.saturating_add(EJECTED) <= cells {
        page.spaces(column);
        page.push("^ ejected\n");
    } else {
        page.spaces(column.saturating_sub(EJECTED - 1));
        page.push("ejected ^\n");
    }
}
