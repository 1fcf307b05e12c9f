use crate::activities::{Activities, Activity, Interval};
use crate::due_times::DueTimes;
use crate::grids::Grid;
use crate::rows::Rows;
use crate::scales::Scale;
use crate::waits::{Paused, Waits};
use scx_load_workloads::Workload;
use scx_sched::{Event, Sim, What};
use scxsim_commands::Ejection;
use scxsim_runs::{Heard, Listener, ScenarioRun, give_back};
use scxsim_trace::{Observer, observe};
use scxsim_views::{PauseKind, has_cpu};
use std::alloc::{AllocError, Global};

/// The time of each activity, by row and character.
#[derive(Drop)]
pub(crate) struct Sums {
    /// Rows of CPUs.
    pub(crate) cpus: Grid,
    /// Rows of tasks, or of groups.
    pub(crate) ran: Grid,
    pub(crate) waited: Grid,
    pub(crate) held: Grid,
    pub(crate) parked: Grid,
    /// The milliseconds of each of these rows that tasks waited by the clock.
    waits: Vec<u64>,
    /// Lines of CPUs: how long they were idle while a task waited that may run there.
    pub(crate) lost: Grid,
    /// Rows of all groups, where tasks are added up: the time that was due to each, in parts.
    pub(crate) due: Grid,
}

impl Sums {
    fn new(alloc: Global, rows: Rows, cells: usize) -> Result<Sums, AllocError> {
        let tasks = rows.of_tasks();
        let groups = if rows.by_group { tasks } else { 0 };
        Ok(Sums {
            cpus: Grid::new(alloc, rows.of_cpus(), cells)?,
            ran: Grid::new(alloc, tasks, cells)?,
            waited: Grid::new(alloc, tasks, cells)?,
            held: Grid::new(alloc, tasks, cells)?,
            parked: Grid::new(alloc, tasks, cells)?,
            waits: vec![in alloc; 0u64; tasks]?,
            lost: Grid::new(alloc, rows.cpu_lines(), cells)?,
            due: Grid::new(alloc, groups, cells)?,
        })
    }

    /// The milliseconds that the tasks of a row waited by the clock.
    pub(crate) fn waited_by_clock(&self, row: usize) -> u64 {
        self.waits.get(row).copied().unwrap_or(0)
    }

    fn add_wait(&mut self, row: usize, ms: u64) {
        if let Some(waited) = self.waits.get_mut(row) {
            *waited = waited.saturating_add(ms);
        }
    }
}

/// A chart, with the workload whose run it shows.
#[derive(Drop)]
pub(crate) struct Chart {
    pub(crate) workload: Workload,
    pub(crate) scale: Scale,
    pub(crate) rows: Rows,
    pub(crate) sums: Sums,
    pub(crate) ejection: Option<Ejection>,
}

/// Goes through the run, and returns its chart.
pub(crate) fn gather<L: Listener>(
    alloc: Global,
    run: ScenarioRun,
    scale: Scale,
    listener: &mut L,
) -> Result<Chart, AllocError> {
    let ScenarioRun {
        scenario,
        events,
        mut sim,
        ..
    } = run;
    let workload = scenario.into_workload();
    let mut gathering = Gathering::new(alloc, &workload, scale)?;
    let mut events = Heard::new(events, workload.ms(), listener);
    observe(&mut sim, &mut events, &mut gathering);
    gathering.end(&sim);
    let Gathering {
        gathered,
        activities,
        waits,
        dues,
        ..
    } = gathering;
    drop(activities);
    drop(waits);
    drop(dues);
    give_back(events, sim);
    Ok(chart_of(workload, scale, gathered))
}

fn chart_of(workload: Workload, scale: Scale, gathered: Gathered) -> Chart {
    let Gathered {
        rows,
        sums,
        ejection,
    } = gathered;
    Chart {
        workload,
        scale,
        rows,
        sums,
        ejection,
    }
}

/// The rows and sums of a chart, and the ejection.
#[derive(Drop)]
struct Gathered {
    rows: Rows,
    sums: Sums,
    ejection: Option<Ejection>,
}

/// A chart while its run goes on.
#[derive(Drop)]
struct Gathering<'a> {
    workload: &'a Workload,
    scale: Scale,
    activities: Activities,
    waits: Waits,
    /// The time due to groups, where tasks are added up.
    dues: Option<DueTimes>,
    gathered: Gathered,
}

impl<'a> Gathering<'a> {
    /// Takes all memory, before the first event.
    fn new(alloc: Global, workload: &'a Workload, scale: Scale) -> Result<Self, AllocError> {
        let rows = Rows::new(workload);
        let activities = Activities::new(alloc, workload)?;
        let waits = Waits::new(alloc, workload.tasks().len())?;
        let dues = dues_of(alloc, workload, rows)?;
        let sums = Sums::new(alloc, rows, scale.cells())?;
        Ok(Gathering {
            workload,
            scale,
            activities,
            waits,
            dues,
            gathered: Gathered {
                rows,
                sums,
                ejection: None,
            },
        })
    }

    /// Adds an interval, if there is one.
    fn add(&mut self, interval: Option<Interval>) {
        let Some(interval) = interval else {
            return;
        };
        let row = self.gathered.rows.of_task(self.workload, interval.task);
        self.gathered.add(self.scale, interval, row);
    }

    /// Adds the time of a pause, if there is one and it is a wait.
    fn add_pause(&mut self, pause: Option<Paused>) {
        let Some(pause) = pause else {
            return;
        };
        if let PauseKind::Wait = pause.bar.kind {
            let row = self.gathered.rows.of_task(self.workload, pause.bar.task);
            let ms = pause.within(self.scale.window);
            self.gathered.sums.add_wait(row, ms);
        }
    }

    /// Adds the current millisecond to the line of each CPU that runs no task, if a task waits that may run there.
    fn lose(&mut self, sim: &Sim) {
        let awaited = self.activities.awaited_cpus(self.workload.masks());
        let clock = sim.clock();
        let scale = self.scale;
        let rows = self.gathered.rows;
        let lost = &mut self.gathered.sums.lost;
        for cpu in 0..sim.cpus() {
            if has_cpu(awaited, cpu) && sim.running(cpu).is_none() {
                let line = rows.line_of_cpu(cpu as usize);
                lost.add(line, scale, clock, clock.saturating_add(1));
            }
        }
    }

    /// Adds the last interval and pause of each task.
    fn end(&mut self, sim: &Sim) {
        for task in 0..sim.tasks() {
            let interval = self.activities.end(sim.clock(), task);
            self.add(interval);
            let pause = self.waits.end(task, sim.clock());
            self.add_pause(pause);
        }
    }
}

impl Gathered {
    /// Adds an interval of the task of that row.
    fn add(&mut self, scale: Scale, interval: Interval, row: usize) {
        let Interval {
            task,
            doing,
            since,
            until,
        } = interval;
        let sums = &mut self.sums;
        match doing {
            Activity::Runs(cpu) => {
                let on_cpu = self.rows.of_cpu(cpu as usize, task as usize);
                sums.cpus.add(on_cpu, scale, since, until);
                sums.ran.add(row, scale, since, until);
            }
            Activity::Waits => sums.waited.add(row, scale, since, until),
            Activity::IsHeld => sums.held.add(row, scale, since, until),
            Activity::IsParked => sums.parked.add(row, scale, since, until),
        }
    }
}

/// The time due to groups, if tasks are added up by them.
fn dues_of(alloc: Global, workload: &Workload, rows: Rows) -> Result<Option<DueTimes>, AllocError> {
    if rows.by_group {
        Ok(Some(DueTimes::new(alloc, workload)?))
    } else {
        Ok(None)
    }
}

impl Observer for Gathering<'_> {
    ghost use Rattle.std.specs.Prelude.{false};

    ghost has_failed = { λ _. false };

    /// The ticks of a millisecond begin with that of CPU 0.
    fn expect(&mut self, sim: &Sim, event: Event) {
        if let Event::Tick(0) = event {
            self.lose(sim);
        }
        if let Some(dues) = &mut self.dues {
            dues.expect(sim, event, self.workload);
            if let Event::Clock = event {
                dues.pass(sim.clock(), self.scale, &mut self.gathered.sums.due);
            }
        }
    }

    fn show(&mut self, moment: u64, clock: u64, what: What) {
        let interval = self.activities.show(moment, what);
        self.add(interval);
        let pause = self.waits.show(moment, clock, what);
        self.add_pause(pause);
        if let Some(dues) = &mut self.dues {
            dues.show(self.workload, what);
        }
        if let Some(ejection) = Ejection::of(moment, what) {
            self.gathered.ejection = Some(ejection);
        }
    }

    fn failed(&self) -> bool {
        false
    }
}
