use crate::words::write_more;
use scxsim_output::Text;
use scxsim_statistics::{Figures, QuotaFigures};
use scxsim_trace::Names;

/// The most groups, and the most tasks, that are named.
const NAMED: u64 = 10;

/// Writes for how long groups were throttled and their tasks were parked, if a group was.
pub fn write_throttled(figures: &Figures, page: &mut Text) {
    let mut count = 0u64;
    for (group, quota) in figures.quotas.groups.iter().enumerate() {
        if 0 < quota.throttled {
            count = count.saturating_add(1);
            if count <= NAMED {
                page.push(if count == 1 { "throttled: " } else { ", " });
                write_group(figures, group, *quota, page);
            }
        }
    }
    if 0 < count {
        write_more(" and ", NAMED, count, page);
        write_parked(figures, page);
        page.push(
            "; a CPU that had none but parked tasks to run isn't idle by the policy's choice\n",
        );
    }
}

/// Writes for how long a group was throttled: `web for 84 ms (quota 20 ms in 100)`.
fn write_group(figures: &Figures, group: usize, quota: QuotaFigures, page: &mut Text) {
    page.push(
        figures
            .workload
            .group(u32::try_from(group).unwrap_or(u32::MAX)),
    );
    page.number(" for ", quota.throttled);
    page.number(
        " ms (quota ",
        u64::from(quota.quota_ms.unwrap_or(quota.period_ms)),
    );
    page.number(" ms in ", u64::from(quota.period_ms));
    page.push(")");
}

/// Writes for how long tasks were parked, if some were.
fn write_parked(figures: &Figures, page: &mut Text) {
    let mut count = 0u64;
    for (task, of_task) in figures.tasks.iter().enumerate() {
        if 0 < of_task.parked {
            count = count.saturating_add(1);
            if count <= NAMED {
                page.push(if count == 1 { "; parked: " } else { ", " });
                page.push(
                    figures
                        .workload
                        .task(u16::try_from(task).unwrap_or(u16::MAX)),
                );
                page.number(" for ", of_task.parked);
                page.push(" ms");
            }
        }
    }
    write_more(" and ", NAMED, count, page);
}
