use crate::runners::ms_at;
use crate::words::tasks_of;
use scx_load_workloads::Workload;
use scxsim_output::Text;
use scxsim_trace::Names;
use scxsim_views::{bound_mask, has_cpu, write_allowed};
use scxsim_waits::WatchedWait;

/// Writes how long CPUs were idle on which the task may not run, if it is bound and some were.
pub(crate) fn write_elsewhere(workload: &Workload, wait: &WatchedWait, page: &mut Text) {
    let Some(mask) = bound_mask(workload, wait.wait.task) else {
        return;
    };
    let mut idle = 0u64;
    for cpu in 0..workload.cpus() {
        if !has_cpu(mask, cpu) {
            idle = idle.saturating_add(ms_at(wait.ran_on(cpu), tasks_of(workload)));
        }
    }
    if 0 < idle {
        page.number(", ", idle);
        page.push(" ms of it where ");
        page.push(workload.task(wait.wait.task));
        page.push(" may not run");
    }
}

/// Writes the CPUs on which a bound task may run.
pub(crate) fn write_bound(workload: &Workload, task: u16, page: &mut Text) {
    if let Some(mask) = bound_mask(workload, task) {
        page.push("  ");
        page.push(workload.task(task));
        page.push(" may run on ");
        write_allowed(mask, page);
        page.push("\n");
    }
}

/// True if the task may run on the CPU.
pub(crate) fn may_run_on(workload: &Workload, task: u16, cpu: u32) -> bool {
    match bound_mask(workload, task) {
        Some(mask) => has_cpu(mask, cpu),
        None => true,
    }
}

/// Writes that the task may not run there.
pub(crate) fn write_not_there(workload: &Workload, task: u16, page: &mut Text) {
    page.push(" (");
    page.push(workload.task(task));
    page.push(" may not run there)");
}
