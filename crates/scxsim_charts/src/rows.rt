ghost use Rattle.std.specs.Prelude.{◌≡◌};
ghost use Rattle.scxsim_charts.specs.Times.{row_on};

use scx_load_workloads::Workload;

/// The most lines of a chart for CPUs and tasks; with more all CPUs share one, and the tasks of a group.
const MOST_ROWS: usize = 64;

/// The lines of a chart.
#[derive(Clone, Copy)]
pub(crate) struct Rows {
    pub(crate) cpus: usize,
    pub(crate) tasks: usize,
    groups: usize,
    /// True if CPUs are added up, and tasks by their groups.
    pub(crate) by_group: bool,
}

impl Rows {
    pub(crate) fn new(workload: &Workload) -> Rows {
        let cpus = workload.cpus() as usize;
        let tasks = workload.tasks().len();
        Rows {
            cpus,
            tasks,
            groups: workload.groups().len(),
            by_group: cpus.saturating_add(tasks) > MOST_ROWS,
        }
    }

    /// The number of rows of sums for tasks, or for groups.
    pub(crate) fn of_tasks(self) -> usize {
        if self.by_group {
            self.groups
        } else {
            self.tasks
        }
    }

    /// The number of lines for CPUs.
    pub(crate) fn cpu_lines(self) -> usize {
        if self.by_group { 1 } else { self.cpus }
    }

    /// The line of a CPU.
    pub(crate) fn line_of_cpu(self, cpu: usize) -> usize {
        if self.by_group { 0 } else { cpu }
    }

    /// The number of CPUs of a line.
    pub(crate) fn cpus_a_line(self) -> u64 {
        if self.by_group { self.cpus as u64 } else { 1 }
    }

    /// The number of rows of sums for CPUs: one for each task on each, unless they are added up.
    pub(crate) fn of_cpus(self) -> usize {
        if self.by_group {
            1
        } else {
            self.cpus.saturating_mul(self.tasks)
        }
    }

    /// The row of a task, or of its group.
    pub(crate) fn of_task(self, workload: &Workload, task: u16) -> usize {
        if !self.by_group {
            return task as usize;
        }
        match workload.tasks().get(task as usize) {
            Some(group) => *group as usize,
            None => usize::MAX,
        }
    }

    /// The row of a task on a CPU.
    pub(crate) fn of_cpu(self, cpu: usize, task: usize) -> usize
        ensures { result ≡ row_on self cpu task }
    {
        if self.by_group {
            0
        } else {
            cpu.saturating_mul(self.tasks).saturating_add(task)
        }
    }
}
