use crate::words::write_more;
use crate::worst::{is_of_moment, waits_of_moments};
use scx_load_workloads::Workload;
use scxsim_output::Text;
use scxsim_statistics::TaskFigures;
use scxsim_trace::Names;
use scxsim_waits::LongWait;

/// The most tasks that are named.
const NAMED: u64 = 10;

/// Writes the other tasks whose longest wait was at the time of one that is told, if it is told for these too.
pub(crate) fn write_likewise(
    workload: &Workload,
    tasks: &[TaskFigures],
    told: LongWait,
    page: &mut Text,
) {
    if !waits_of_moments(tasks) {
        return;
    }
    let mut before = "  ";
    let mut others = 0u64;
    for (number, figures) in tasks.iter().enumerate() {
        let task = u16::try_from(number).unwrap_or(u16::MAX);
        if task != told.task && is_of_moment(figures, told) {
            others = others.saturating_add(1);
            if others <= NAMED {
                page.push(before);
                page.push(workload.task(task));
                before = ", ";
            }
        }
    }
    write_more(" and ", NAMED, others, page);
    if 0 < others {
        page.push(" waited at the same time\n");
    }
}
