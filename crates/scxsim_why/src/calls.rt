use scx_isa::{CALLBACKS, Callback, PerCallback, Program};
use scx_load_workloads::Workload;
use scxsim_output::Text;
use scxsim_trace::Names;
use scxsim_views::write_cpus;
use scxsim_waits::{Calls, TimerFigures};
use scxsim_why_lines::write_count;

/// Writes the number of calls of each callback of the policy, except init and enable, and the CPUs that timers kicked.
pub(crate) fn write_calls(programs: &PerCallback<Option<Program>>, calls: &Calls, page: &mut Text) {
    page.push("\n    calls  callback\n");
    for callback in CALLBACKS {
        let is_of_start = callback == Callback::Init || callback == Callback::Enable;
        if !is_of_start && programs.get(callback).is_some() {
            page.number_right(calls.calls(callback), 9);
            page.push("  ");
            page.push(callback.name());
            page.push("\n");
        }
    }
    for (timer, figures) in calls.timers.figures.as_slice().iter().enumerate() {
        if 0 < figures.runs {
            write_timer(timer as u64, *figures, page);
        }
    }
}

/// Writes the shortest slice below 1 ms that a callback gave, if one did.
pub(crate) fn write_short_slice(workload: &Workload, calls: &Calls, page: &mut Text) {
    if let Some(short) = calls.shortest {
        page.push(workload.task(short.task));
        page.number(" was given a slice of ", short.slice);
        page.number(" ns at ", short.clock);
        page.push(" ms, which is below 1 ms: slices are in nanoseconds\n");
    }
}

/// Writes the number of runs of a timer, and the CPUs that it kicked.
fn write_timer(timer: u64, figures: TimerFigures, page: &mut Text) {
    page.number("           timer ", timer);
    write_count(" ran ", figures.runs, "time", page);
    if 0 < figures.kicks {
        page.push(" and kicked ");
        write_cpus(figures.kicked, page);
        write_kicks(figures, page);
    }
    page.push("\n");
}

/// Writes the number of kicks, unless it is that of the CPUs.
fn write_kicks(figures: TimerFigures, page: &mut Text) {
    if figures.kicks != u64::from(figures.kicked.count_ones()) {
        page.number(", ", figures.kicks);
        page.push(" times in all");
    }
}
