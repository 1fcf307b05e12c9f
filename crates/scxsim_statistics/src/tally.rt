ghost use Rattle.std.specs.Prelude.{◌≡◌, replicate, false, is_err, IfOk, OnOk};
ghost use Rattle.scxsim_views.specs.Pauses.{open_pause};
ghost use Rattle.scx_sched_world.specs.World.{task_at};
ghost use Rattle.scxsim_trace.specs.Report.{ran_ms};
ghost use Rattle.scxsim_statistics.specs.Counting.{counts_of, no_figures, unused_cpu, nothing, with_tick, with_begin, with_pause, with_wake_at, cut_off, has_run, with_pause_at, after_pause, stop_counted, with_tick_at, begun_on, pause_counted, counts_after_step, burst_counted, latency_counted, loss_counted, tick_counted, sleep_counted, counts_after_note, counts_at_end};

use crate::bursts::{BurstFigures, note_burst, sleep, unused_bursts};
use crate::latencies::{LatencyFigures, note_latency, unused_latencies};
use crate::losses::Losses;
use scx_sched::{Sim, What};
use scxsim_views::{LengthCounts, Pause, PauseKind, Pauses};
use std::alloc::{AllocError, Global};

/// A millisecond in nanoseconds.
const MS: u64 = 1_000_000;

/// The figures of a task.
#[derive(Drop)]
pub struct TaskFigures {
    /// The milliseconds that it ran.
    pub run: u64,
    pub waits: LengthCounts,
    pub wakes: u64,
    /// The number of times that it had to stop although it had work to do.
    pub stopped: u64,
    /// The milliseconds that it was parked.
    pub parked: u64,
}

impl TaskFigures {
    fn unused(alloc: Global) -> TaskFigures
        ensures { result ≡ no_figures }
    {
        TaskFigures {
            run: 0,
            waits: LengthCounts::new(alloc),
            wakes: 0,
            stopped: 0,
            parked: 0,
        }
    }

    fn add_pause(&mut self, pause: Pause) -> Result<(), AllocError>
        ensures { OnOk result (self.new ≡ with_pause pause self.old) }
    {
        match pause.kind {
            PauseKind::Wait => self.waits.add(pause.since, pause.length()),
            PauseKind::Parked => {
                self.parked = self.parked.saturating_add(pause.length());
                Ok(())
            }
        }
    }
}

/// The figures of a CPU.
#[derive(Clone, Copy)]
pub struct CpuFigures {
    /// The milliseconds in which it ran a task, and those in which it ran none.
    pub busy: u64,
    pub idle: u64,
    /// The number of times that another task began to run on it than the one that had run there last.
    pub changes: u64,
    last: Option<u16>,
}

impl CpuFigures {
    fn tick(&mut self, is_busy: bool)
        ensures { self.new ≡ with_tick is_busy self.old }
    {
        if is_busy {
            self.busy = self.busy.saturating_add(1);
        } else {
            self.idle = self.idle.saturating_add(1);
        }
    }

    fn begin(&mut self, task: u16)
        ensures { self.new ≡ with_begin task self.old }
    {
        if let Some(last) = self.last {
            if last != task {
                self.changes = self.changes.saturating_add(1);
            }
        }
        self.last = Some(task);
    }
}

fn unused_tasks(alloc: Global, count: usize) -> Result<Vec<TaskFigures>, AllocError>
    ensures { IfOk result (λ tasks. tasks.items ≡ replicate count no_figures) }
{
    let mut tasks = Vec::with_capacity(alloc, count)?;
    for _ in 0..count {
        tasks.push(TaskFigures::unused(alloc))?;
    }
    Ok(tasks)
}

fn unused_cpus(alloc: Global, count: usize) -> Result<Vec<CpuFigures>, AllocError>
    ensures { IfOk result (λ cpus. cpus.items ≡ replicate count unused_cpu) }
{
    let unused = CpuFigures {
        busy: 0,
        idle: 0,
        changes: 0,
        last: None,
    };
    vec![in alloc; unused; count]
}

/// The counts of tasks and CPUs of a run that goes on.
#[derive(Drop)]
pub(crate) struct RunTally {
    pub(crate) tasks: Vec<TaskFigures>,
    pub(crate) cpus: Vec<CpuFigures>,
    pub(crate) bursts: Vec<BurstFigures>,
    pub(crate) latencies: Vec<LatencyFigures>,
    pub(crate) losses: Losses,
    pauses: Pauses,
    /// An error once memory ran out.
    pub(crate) result: Result<(), AllocError>,
}

impl RunTally {
    pub(crate) fn new(alloc: Global, tasks: usize, cpus: usize) -> Result<RunTally, AllocError>
        ensures counts { IfOk result (λ tally. counts_of tally ≡ nothing tasks cpus) }
        ensures well { IfOk result (λ tally. is_err tally.result ≡ false) }
    {
        Ok(RunTally {
            tasks: unused_tasks(alloc, tasks)?,
            cpus: unused_cpus(alloc, cpus)?,
            bursts: unused_bursts(alloc, tasks)?,
            latencies: unused_latencies(alloc, tasks)?,
            losses: Losses::new(alloc, cpus)?,
            pauses: Pauses::new(alloc, tasks)?,
            result: Ok(()),
        })
    }

    /// Counts a tick of a CPU that runs a task, or none.
    pub(crate) fn tick(&mut self, cpu: u32, is_busy: bool)
        ensures counts { counts_of self.new ≡ tick_counted cpu is_busy (counts_of self.old) }
        ensures result { self.new.result ≡ self.old.result }
    {
        tick(&mut self.cpus, cpu, is_busy);
    }

    /// Counts what is lost of a millisecond, with the first of its ticks.
    pub(crate) fn lose(&mut self, sim: &Sim, cpu: u32)
        ensures counts { counts_of self.new
            ≡ loss_counted sim.now.state.world cpu (counts_of self.old) }
        ensures result { self.new.result ≡ self.old.result }
    {
        if cpu == 0 && self.pauses.somebody_waits() {
            self.losses.add(sim, &self.pauses);
        }
    }

    /// Keeps the run time of a task that is about to go to sleep.
    pub(crate) fn sleep(&mut self, sim: &Sim, task: u16)
        ensures counts { counts_of self.new
            ≡ sleep_counted sim.now.state.world task (counts_of self.old) }
        ensures result { self.new.result ≡ self.old.result }
    {
        let ran = run_ms(sim, task);
        sleep(&mut self.bursts, task, ran);
    }

    /// Counts a note. Once memory has run out, nothing is counted any more.
    pub(crate) fn show(&mut self, clock: u64, what: What)
        ensures { is_err self.new.result ≡ false
            → counts_of self.new ≡ counts_after_note clock what (counts_of self.old) }
    {
        self.count_pause(clock, what);
        self.count(what);
        self.count_burst(clock, what);
        self.count_latency(clock, what);
    }

    /// Counts the pause that ends, if one does.
    fn count_pause(&mut self, clock: u64, what: What)
        ensures { is_err self.new.result ≡ false
            → counts_of self.new ≡ pause_counted clock what (counts_of self.old) }
    {
        if let Some(pause) = self.pauses.show(clock, what) {
            self.result = add_pause(&mut self.tasks, pause);
        }
    }

    /// Counts the burst that ends, if one does.
    fn count_burst(&mut self, clock: u64, what: What)
        ensures counts { is_err self.new.result ≡ false
            → counts_of self.new ≡ burst_counted clock what (counts_of self.old) }
        ensures before { is_err self.new.result ≡ false → is_err self.old.result ≡ false }
    {
        if self.result.is_ok() {
            self.result = note_burst(&mut self.bursts, clock, what);
        }
    }

    /// Counts the latency that begins or ends, if one does.
    fn count_latency(&mut self, clock: u64, what: What)
        ensures counts { is_err self.new.result ≡ false
            → counts_of self.new ≡ latency_counted clock what (counts_of self.old) }
        ensures before { is_err self.new.result ≡ false → is_err self.old.result ≡ false }
    {
        if self.result.is_ok() {
            self.result = note_latency(&mut self.latencies, clock, what);
        }
    }

    fn count(&mut self, what: What)
        ensures counts { counts_of self.new ≡ counts_after_step what (counts_of self.old) }
        ensures result { self.new.result ≡ self.old.result }
    {
        match what {
            What::Wake(task) => wake(&mut self.tasks, task),
            What::Run(task, cpu) => begin(&mut self.cpus, task, cpu),
            What::Stop(task, _) => self.stop(task),
            _ => {}
        }
    }

    /// Counts a task that has to stop. One that sleeps doesn't have to; its sleep is noted first.
    fn stop(&mut self, task: u16)
        ensures tasks { self.new.tasks.items
            ≡ stop_counted self.old.pauses self.old.tasks.items task }
        ensures cpus { self.new.cpus ≡ self.old.cpus }
        ensures bursts { self.new.bursts ≡ self.old.bursts }
        ensures latencies { self.new.latencies ≡ self.old.latencies }
        ensures losses { self.new.losses ≡ self.old.losses }
        ensures pauses { self.new.pauses ≡ self.old.pauses }
        ensures result { self.new.result ≡ self.old.result }
    {
        if !self.pauses.is_asleep(task) {
            stop(&mut self.tasks, task);
        }
    }

    /// Adds the pauses that go on at the end, and the run time of each task.
    pub(crate) fn end(&mut self, sim: &Sim)
        ensures { is_err self.new.result ≡ false → (is_err self.old.result ≡ false)
            × (counts_of self.new ≡ counts_at_end sim.now.state.world (counts_of self.old)) }
    {
        for task in 0..sim.tasks() {
            set_run(&mut self.tasks, task, sim.run_ns(task) / MS);
            self.end_pause(task, sim.clock());
        }
    }

    /// Adds the pause that goes on at the end, if one does.
    fn end_pause(&mut self, task: u16, clock: u64)
        ensures tasks { is_err self.new.result ≡ false → self.new.tasks.items
            ≡ after_pause (open_pause clock self.old.pauses task) self.old.tasks.items }
        ensures cpus { self.new.cpus ≡ self.old.cpus }
        ensures bursts { self.new.bursts ≡ self.old.bursts }
        ensures latencies { self.new.latencies ≡ self.old.latencies }
        ensures losses { self.new.losses ≡ self.old.losses }
        ensures pauses { self.new.pauses ≡ self.old.pauses }
        ensures before { is_err self.new.result ≡ false → is_err self.old.result ≡ false }
    {
        if let Some(pause) = self.pauses.open_pause(task, clock) {
            if self.result.is_ok() {
                self.result = add_pause(&mut self.tasks, pause);
            }
        }
    }
}

/// The milliseconds that the task has run; 0 if there is no such task.
fn run_ms(sim: &Sim, task: u16) -> u64
    ensures { result ≡ ran_ms (task_at sim.now.state.world task) }
{
    if task < sim.tasks() {
        sim.run_ns(task) / MS
    } else {
        0
    }
}

fn tick(cpus: &mut Vec<CpuFigures>, cpu: u32, is_busy: bool)
    ensures { cpus.new.items ≡ with_tick_at cpus.old.items cpu is_busy }
{
    if let Some(figures) = cpus.get_mut(cpu as usize) {
        figures.tick(is_busy);
    }
}

fn begin(cpus: &mut Vec<CpuFigures>, task: u16, cpu: u32)
    ensures { cpus.new.items ≡ begun_on cpus.old.items task cpu }
{
    if let Some(figures) = cpus.get_mut(cpu as usize) {
        figures.begin(task);
    }
}

fn wake(tasks: &mut Vec<TaskFigures>, task: u16)
    ensures { tasks.new.items ≡ with_wake_at tasks.old.items task }
{
    if let Some(figures) = tasks.get_mut(task as usize) {
        figures.wakes = figures.wakes.saturating_add(1);
    }
}

fn stop(tasks: &mut Vec<TaskFigures>, task: u16)
    ensures { tasks.new.items ≡ cut_off tasks.old.items task }
{
    if let Some(figures) = tasks.get_mut(task as usize) {
        figures.stopped = figures.stopped.saturating_add(1);
    }
}

fn set_run(tasks: &mut Vec<TaskFigures>, task: u16, ms: u64)
    ensures { tasks.new.items ≡ has_run tasks.old.items task ms }
{
    if let Some(figures) = tasks.get_mut(task as usize) {
        figures.run = ms;
    }
}

fn add_pause(tasks: &mut Vec<TaskFigures>, pause: Pause) -> Result<(), AllocError>
    ensures { OnOk result (tasks.new.items ≡ with_pause_at tasks.old.items pause) }
{
    match tasks.get_mut(pause.task as usize) {
        Some(figures) => figures.add_pause(pause),
        None => Ok(()),
    }
}
