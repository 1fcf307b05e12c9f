ghost use Rattle.std.specs.Prelude.{◌≡◌, ◌<◌, IfSome, IfNone};
ghost use Rattle.scxsim_charts.specs.Times.{time_at, time_on};
ghost use Rattle.scxsim_charts.specs.Marks.{IsHalf, NoneAtHalf, all_ran, TellsCpu};

use crate::chart_sums::Chart;
use crate::marks::{CpuMark, Times, busy_mark, group_mark, is_half, task_mark, why_idle};

impl Chart {
    /// The character of a line of CPUs.
    pub(crate) fn cpu_character(&self, line: usize, cell: usize) -> char {
        let length = self.scale.length(cell);
        if self.rows.by_group {
            let whole = length.saturating_mul(self.rows.cpus as u64);
            let ran = self.sums.cpus.sum(0, cell);
            busy_mark(ran, whole, self.sums.lost.sum(0, cell)).character()
        } else {
            self.mark_of_cpu(line, cell, length).character()
        }
    }

    /// The mark of a CPU: the first task that ran for at least half of the time.
    fn mark_of_cpu(&self, cpu: usize, cell: usize, length: u64) -> CpuMark
        ensures { TellsCpu result self.now.rows.tasks (time_on self.now cpu cell) length
            (time_at self.now.sums.lost cpu cell) }
    {
        if let Some(task) = self.main_task(cpu, cell, length) {
            return CpuMark::Task(task);
        }
        let ran = self.time_of_cpu(cpu, cell);
        if is_half(u128::from(ran), length) {
            CpuMark::Several
        } else {
            let lost = self.sums.lost.sum(cpu, cell);
            CpuMark::Idle(why_idle(lost, length.saturating_sub(ran)))
        }
    }

    /// The first task that ran on the CPU for at least half of the time of a character.
    #[tactic(auto, using(crate::proofs::Halves::none_at_first, crate::proofs::Halves::none_more))]
    fn main_task(&self, cpu: usize, cell: usize, length: u64) -> Option<usize>
        ensures some { IfSome result (λ task. (task < self.now.rows.tasks)
            × IsHalf (time_on self.now cpu cell task) length) }
        ensures none { IfNone result
            (NoneAtHalf self.now.rows.tasks (time_on self.now cpu cell) length) }
    {
        for task in 0..self.rows.tasks {
            if is_half(u128::from(self.time_on(cpu, task, cell)), length) {
                return Some(task);
            }
        }
        None
    }

    /// The time that tasks ran on a CPU in a character.
    #[tactic(auto, using(crate::proofs::Halves::all_more))]
    fn time_of_cpu(&self, cpu: usize, cell: usize) -> u64
        ensures { result ≡ all_ran self.now.rows.tasks (time_on self.now cpu cell) }
    {
        let mut ran = 0u64;
        for task in 0..self.rows.tasks {
            ran = ran.saturating_add(self.time_on(cpu, task, cell));
        }
        ran
    }

    /// The time that a task ran on a CPU in a character.
    fn time_on(&self, cpu: usize, task: usize, cell: usize) -> u64
        ensures { result ≡ time_on self.now cpu cell task }
    {
        self.sums.cpus.sum(self.rows.of_cpu(cpu, task), cell)
    }

    /// The character of a task, or of a group.
    pub(crate) fn task_character(&self, row: usize, cell: usize) -> char {
        let times = self.times(row, cell);
        if self.rows.by_group {
            group_mark(times, self.sums.due.sum(row, cell)).character()
        } else {
            task_mark(times, self.scale.length(cell)).character()
        }
    }

    fn times(&self, row: usize, cell: usize) -> Times {
        Times {
            ran: self.sums.ran.sum(row, cell),
            waited: self.sums.waited.sum(row, cell),
            held: self.sums.held.sum(row, cell),
            parked: self.sums.parked.sum(row, cell),
        }
    }
}
