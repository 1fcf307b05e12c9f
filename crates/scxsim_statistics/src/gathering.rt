ghost use Rattle.std.specs.Prelude.{◌≡◌, false, length, is_err, IfOk, OnOk};
ghost use Rattle.scx_sched_world.specs.World.{running};
ghost use Rattle.scx_sched_machine.specs.declared.events.Event.TheVariants.{Sleep, Tick};
ghost use Rattle.scxsim_views.specs.Watching.{CountsEvent, CountsNote};
ghost use Rattle.scxsim_statistics.specs.Counting.{counts_of, nothing, counts_after_event, counts_after_note, counts_at_end};
ghost use Rattle.scxsim_statistics.specs.Groups.{waits_below};
ghost use Rattle.scxsim_statistics.specs.Figures.{AreOfRun, of_counts, of_figures, of_gathered};

use crate::bursts::BurstFigures;
use crate::group_waits::{GroupWaits, waits_of_groups};
use crate::groups::{GroupFigures, group_figures};
use crate::latencies::LatencyFigures;
use crate::losses::Losses;
use crate::tally::{CpuFigures, RunTally, TaskFigures};
use scx_load_driver::Events;
use scx_load_workloads::Workload;
use scx_sched::{Eject, Event, Sim, What};
use scxsim_runs::{Heard, Listener, Run, give_back};
use scxsim_trace::{Observer, observe};
use scxsim_views::{Dues, Quotas};
use std::alloc::{AllocError, Global};

/// The figures of a run.
#[derive(Drop)]
pub struct Figures {
    /// The policy's name, empty where its file gives none.
    pub policy_name: String,
    /// Why and when the policy was ejected, if it was.
    pub ejected: Option<Eject>,
    pub workload: Workload,
    pub tasks: Vec<TaskFigures>,
    pub bursts: Vec<BurstFigures>,
    /// The wake-to-run latencies of each task.
    pub latencies: Vec<LatencyFigures>,
    pub cpus: Vec<CpuFigures>,
    pub losses: Losses,
    /// The figures of each group, in the workload's order.
    pub groups: Vec<GroupFigures>,
    /// The waits of each group.
    pub group_waits: Vec<GroupWaits>,
    pub quotas: Quotas,
}

/// Goes through the run, and returns its figures.
pub(crate) fn gather<E: Events + Drop, L: Listener>(
    alloc: Global,
    run: Run<E>,
    listener: &mut L,
) -> Result<Figures, AllocError>
    ensures name { IfOk result (λ figures. figures.policy_name ≡ run.policy_name) }
    ensures workload { IfOk result (λ figures. figures.workload ≡ run.workload) }
    ensures of_run { IfOk result (λ figures.
        AreOfRun run.workload run.sim (E.remaining run.driver run.sim) (of_figures figures)) }
{
    let Run {
        policy_name,
        workload,
        driver,
        mut sim,
    } = run;
    let mut events = Heard::new(driver, workload.ms(), listener);
    let gathered = gather_from(alloc, &workload, &mut events, &mut sim);
    give_back(events, sim);
    match gathered {
        Ok(gathered) => Ok(figures_of(policy_name, workload, gathered)),
        Err(error) => {
            drop(policy_name);
            drop(workload);
            Err(error)
        }
    }
}

/// The gathered figures, with the policy's name and the workload.
fn figures_of(policy_name: String, workload: Workload, gathered: Gathered) -> Figures
    ensures name { result.policy_name ≡ policy_name }
    ensures workload { result.workload ≡ workload }
    ensures figures { of_figures result ≡ of_gathered gathered }
{
    let Gathered {
        ejected,
        tally,
        groups,
        waits,
        quotas,
    } = gathered;
    let RunTally {
        tasks,
        cpus,
        bursts,
        latencies,
        losses,
        ..
    } = tally;
    Figures {
        policy_name,
        ejected,
        workload,
        tasks,
        bursts,
        latencies,
        cpus,
        losses,
        groups,
        group_waits: waits,
        quotas,
    }
}

/// The figures of a run, without the policy's name and the workload.
#[derive(Drop)]
struct Gathered {
    ejected: Option<Eject>,
    tally: RunTally,
    groups: Vec<GroupFigures>,
    waits: Vec<GroupWaits>,
    quotas: Quotas,
}

fn gather_from<E: Events>(
    alloc: Global,
    workload: &Workload,
    events: &mut E,
    sim: &mut Sim,
) -> Result<Gathered, AllocError>
    ensures { IfOk result (λ gathered.
        AreOfRun workload.now sim.old (E.remaining events.old sim.old) (of_gathered gathered)) }
{
    let mut gathering = Gathering::new(alloc, workload)?;
    observe(sim, events, &mut gathering);
    gathering.end(sim);
    gathering.gathered(alloc, workload, sim.ejected())
}

/// The figures of a run that goes on.
#[derive(Drop)]
struct Gathering<'a> {
    workload: &'a Workload,
    tally: RunTally,
    dues: Dues,
}

impl<'a> Gathering<'a> {
    /// Takes all memory that a run takes before its first event.
    fn new(alloc: Global, workload: &'a Workload) -> Result<Self, AllocError>
        ensures counts { IfOk result (λ gathering. counts_of gathering.tally
            ≡ nothing (length workload.now.homes) workload.now.cpus) }
        ensures well { IfOk result (λ gathering. is_err gathering.tally.result ≡ false) }
    {
        let tally = RunTally::new(alloc, workload.tasks().len(), workload.cpus() as usize)?;
        let dues = Dues::new(alloc, workload)?;
        Ok(Gathering {
            workload,
            tally,
            dues,
        })
    }

    /// All figures, if there was memory for them.
    fn gathered(
        self,
        alloc: Global,
        workload: &Workload,
        ejected: Option<Eject>,
    ) -> Result<Gathered, AllocError>
        ensures figures { IfOk result (λ gathered. of_gathered gathered
            ≡ of_counts workload.now (counts_of self.entry.tally) ejected) }
        ensures well { OnOk result (is_err self.entry.tally.result ≡ false) }
    {
        let groups = self.groups(alloc)?;
        let waits = self.waits(alloc, workload)?;
        let Gathering { tally, dues, .. } = self;
        Ok(Gathered {
            ejected,
            tally,
            groups,
            waits,
            quotas: dues.into_quotas(),
        })
    }

    /// The figures of all groups, if memory hasn't run out before.
    fn groups(&self, alloc: Global) -> Result<Vec<GroupFigures>, AllocError>
        ensures { OnOk result (is_err self.now.tally.result ≡ false) }
    {
        self.tally.result?;
        let tasks = self.tally.tasks.as_slice();
        group_figures(alloc, self.workload, tasks, self.dues.due())
    }

    /// The waits of all groups of this workload.
    fn waits(&self, alloc: Global, workload: &Workload) -> Result<Vec<GroupWaits>, AllocError>
        ensures { IfOk result (λ waits. waits.items ≡ waits_below workload.now
            self.now.tally.tasks.items self.now.tally.latencies.items
            (length workload.now.groups)) }
    {
        let tasks = self.tally.tasks.as_slice();
        waits_of_groups(alloc, workload, tasks, self.tally.latencies.as_slice())
    }

    /// The group of a task.
    fn home(&self, task: u16) -> Option<u32> {
        self.workload.tasks().get(task as usize).copied()
    }

    /// Counts a tick of a CPU, before the machine takes it.
    fn tick(&mut self, sim: &Sim, cpu: u32)
        ensures { CountsEvent (λ g. is_err g.tally.result) (λ g. counts_of g.tally)
            counts_after_event self.old sim.now (Tick cpu) self.new }
    {
        let running = running_on(sim, cpu);
        self.tally.lose(sim, cpu);
        self.tally.tick(cpu, running.is_some());
        if let Some(task) = running {
            let group = self.home(task);
            self.dues.charge(self.workload, group);
        }
    }

    /// Counts a burst that ends, before its task goes to sleep.
    fn sleep(&mut self, sim: &Sim, task: u16)
        ensures { CountsEvent (λ g. is_err g.tally.result) (λ g. counts_of g.tally)
            counts_after_event self.old sim.now (Sleep task) self.new }
    {
        self.tally.sleep(sim, task);
        self.dues.settle();
    }

    /// Follows the runnable tasks and the weights of groups, on which due shares depend.
    fn weigh(&mut self, what: What)
        ensures { self.new.tally ≡ self.old.tally }
    {
        match what {
            What::Wake(task) => {
                if let Some(group) = self.home(task) {
                    self.dues.activate(group);
                }
            }
            What::Sleep(task) => {
                if let Some(group) = self.home(task) {
                    self.dues.deactivate(group);
                }
            }
            What::Weight(group, weight) => self.dues.weigh(group, weight),
            What::TaskWeight(_, _)
            | What::Insert(_, _)
            | What::Move(_, _)
            | What::Run(_, _)
            | What::Stop(_, _)
            | What::Idle(_)
            | What::Stall(_)
            | What::Fault(_)
            | What::Exit(_) => {}
        }
    }

    /// Adds the pauses that go on at the end, and periods that aren't over.
    fn end(&mut self, sim: &Sim)
        ensures { is_err self.new.tally.result ≡ false → (is_err self.old.tally.result ≡ false)
            × (counts_of self.new.tally ≡ counts_at_end sim.now.state.world (counts_of self.old.tally)) }
    {
        self.tally.end(sim);
        self.dues.end(sim.clock());
    }
}

impl Observer for Gathering<'_> {
    ghost expects = { CountsEvent (λ g. is_err g.tally.result) (λ g. counts_of g.tally) counts_after_event };

    ghost shows = { CountsNote (λ g. is_err g.tally.result) (λ g. counts_of g.tally) counts_after_note };

    ghost has_failed = { λ g. is_err g.tally.result };

    fn expect(&mut self, sim: &Sim, event: Event) {
        match event {
            Event::Tick(cpu) => self.tick(sim, cpu),
            Event::Sleep(task) => self.sleep(sim, task),
            Event::Clock => self.dues.pass(sim.clock().saturating_add(1)),
            Event::Wake(_) | Event::SetWeight(_, _) | Event::SetTaskWeight(_, _) => {}
        }
    }

    fn show(&mut self, _moment: u64, clock: u64, what: What) {
        self.tally.show(clock, what);
        self.weigh(what);
    }

    fn failed(&self) -> bool {
        self.tally.result.is_err()
    }
}

/// The task that runs on the CPU.
fn running_on(sim: &Sim, cpu: u32) -> Option<u16>
    ensures { result ≡ running sim.now.state.world cpu }
{
    if cpu < sim.cpus() {
        sim.running(cpu)
    } else {
        None
    }
}
