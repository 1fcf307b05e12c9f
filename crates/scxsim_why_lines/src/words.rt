use scx_load_workloads::Workload;
use scxsim_output::Text;

/// Writes a number and its word, in the plural unless the number is 1.
pub fn write_count(before: &str, number: u64, word: &str, page: &mut Text) {
    page.number(before, number);
    page.push(" ");
    page.push(word);
    if number != 1 {
        page.push("s");
    }
}

/// Writes a virtual time, also as a signed number if it is one below 0 there.
pub(crate) fn write_time(before: &str, time: u64, page: &mut Text) {
    page.number(before, time);
    if 1 << 63 <= time {
        page.number(" (as a signed number -", time.wrapping_neg());
        page.push(")");
    }
}

/// The bit of a CPU in a mask.
pub fn bit_of(cpu: u32) -> u64 {
    if cpu < 64 { 1 << cpu } else { 0 }
}

/// The number of tasks.
pub fn tasks_of(workload: &Workload) -> u16 {
    u16::try_from(workload.tasks().len()).unwrap_or(u16::MAX)
}

/// Writes the number of those that aren't named, if more than `named` are there.
pub fn write_more(before: &str, named: u64, all: u64, page: &mut Text) {
    if named < all {
        page.number(before, all.saturating_sub(named));
        page.push(" more");
    }
}
