use crate::length::Length;
use crate::words::{tasks_of, write_count, write_more};
use scx_load_workloads::Workload;
use scx_sched_world::LOCAL_ON;
use scxsim_output::Text;
use scxsim_trace::Names;
use scxsim_views::QueueName;
use scxsim_waits::{QueueFigures, QueueTraffic};

/// The most queues, and the most held tasks, that are named.
const NAMED: u64 = 10;

/// Writes the queues that tasks came into and no task left.
pub fn write_undrained(queues: &QueueTraffic, page: &mut Text) {
    let mut undrained = 0u64;
    for figures in queues.figures.as_slice() {
        if figures.left == 0 {
            undrained = undrained.saturating_add(1);
            if undrained <= NAMED {
                page.push(if undrained == 1 {
                    "no task left "
                } else {
                    "; "
                });
                page.show("", &QueueName(figures.queue));
                write_count(", which received ", figures.came, "task", page);
            }
        }
    }
    if undrained == 0 {
        page.push("every queue that received tasks was drained");
    }
    write_more("; and ", NAMED, undrained, page);
    page.push("\n");
}

/// Writes the number of tasks that came into each queue and left it, and the tasks that were held at the end.
pub fn write_queues(workload: &Workload, queues: &QueueTraffic, length: Length, page: &mut Text) {
    page.push("\n     came     left    there  queue\n");
    let joins = length.joins_cpus(workload);
    for figures in queues.figures.as_slice() {
        if !joins || !is_local(figures.queue) {
            write_queue(*figures, page);
        }
    }
    if joins {
        write_locals(queues, page);
    }
    write_held(workload, queues, page);
}

/// True for a queue of one CPU.
fn is_local(queue: u64) -> bool {
    LOCAL_ON <= queue
}

/// Writes the sums of the queues of all CPUs.
fn write_locals(queues: &QueueTraffic, page: &mut Text) {
    let mut sums = QueueFigures::default();
    let mut count = 0u64;
    for figures in queues.figures.as_slice() {
        if is_local(figures.queue) {
            sums.came = sums.came.saturating_add(figures.came);
            sums.left = sums.left.saturating_add(figures.left);
            count = count.saturating_add(1);
        }
    }
    if 0 < count {
        write_numbers(sums, page);
        write_count("  ", count, "local queue", page);
        page.push("\n");
    }
}

fn write_held(workload: &Workload, queues: &QueueTraffic, page: &mut Text) {
    let mut before = "still held: ";
    let mut held = 0u64;
    for task in 0..tasks_of(workload) {
        if queues.is_held(task) {
            held = held.saturating_add(1);
            if held <= NAMED {
                page.push(before);
                page.push(workload.task(task));
                before = ", ";
            }
        }
    }
    write_more(" and ", NAMED, held, page);
    if 0 < held {
        page.push("\n");
    }
}

fn write_queue(figures: QueueFigures, page: &mut Text) {
    write_numbers(figures, page);
    page.show("  ", &QueueName(figures.queue));
    page.push("\n");
}

fn write_numbers(figures: QueueFigures, page: &mut Text) {
    page.number_right(figures.came, 9);
    page.number_right(figures.left, 9);
    page.number_right(figures.there(), 9);
}
