use crate::chart_sums::Chart;
use crate::sheets::BESIDE;
use scxsim_output::Text;

/// The columns before the meanings of characters.
const HEAD: usize = 7;

const CPU_MEANINGS: [&str; 4] = [
    "A letter: that task (half or more)",
    "* several",
    ". idle",
    "! idle while a task waited (: partly)",
];

const TASK_MEANINGS: [&str; 5] = [
    "# ran (+ less than half)",
    "- waited (, less than half)",
    "h held",
    "p parked",
    "blank slept",
];

const CPUS_MEANINGS: [&str; 4] = [
    "1-9 tenths of their time in use",
    "# all",
    ". idle",
    "! idle while a task waited (: partly)",
];

const GROUP_MEANINGS: [&str; 5] = [
    "0-9 tenths of what was due that its tasks ran",
    "# all",
    "- they waited",
    "p parked",
    "blank slept",
];

/// Adds the legend: the meaning of each character, and its length.
pub(crate) fn write_legend(chart: &Chart, page: &mut Text) {
    let columns = chart.scale.cells().saturating_add(BESIDE as usize);
    page.push("\n");
    if chart.rows.by_group {
        write_meanings("cpus:", &CPUS_MEANINGS, columns, page);
        write_meanings("group:", &GROUP_MEANINGS, columns, page);
    } else {
        write_meanings("cpu:", &CPU_MEANINGS, columns, page);
        write_meanings("task:", &TASK_MEANINGS, columns, page);
    }
    write_scale(chart, page);
}

/// Adds the meanings of characters, in lines of at most these columns.
fn write_meanings(head: &str, meanings: &[&str], columns: usize, page: &mut Text) {
    page.left(head, HEAD);
    let mut used = HEAD;
    for meaning in meanings.iter() {
        used = write_apart(used, meaning.len(), columns, page);
        page.push(meaning);
    }
    page.push("\n");
}

/// Adds what parts a meaning from that before it, which ended in column `used`. Returns the column in which it ends.
fn write_apart(used: usize, length: usize, columns: usize, page: &mut Text) -> usize {
    let end = used.saturating_add(length);
    if used == HEAD {
        end
    } else if end.saturating_add(3) <= columns {
        page.push("; ");
        end.saturating_add(2)
    } else {
        page.push(";\n");
        page.spaces(HEAD);
        HEAD.saturating_add(length)
    }
}

/// Adds the time of a character.
fn write_scale(chart: &Chart, page: &mut Text) {
    page.spaces(HEAD);
    match chart.scale.ms_a_cell() {
        Some(ms) => {
            page.number("a character is ", ms);
            page.push(" ms");
        }
        None => {
            page.number("", chart.scale.cells_a_ms());
            page.push(" characters are a millisecond");
        }
    }
    page.push(if chart.rows.by_group {
        "; CPUs are added up, and tasks by groups\n"
    } else {
        "\n"
    });
}
