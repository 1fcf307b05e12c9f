ghost use Rattle.std.specs.Prelude.{◌≡◌, length, false, ◌&&◌, is_some, is_none, slice_index_or, slice_set, IfOk};
ghost use Rattle.scx_sched_world.specs.World.{may_run};
ghost use Rattle.scxsim_account.specs.Idling.{none_idle, since_at, waiting_at, first_waiting, first_bound, first_for, waiting_below, noticed, begun_after, ticks_begin, one_lost, closed, ticked, idle_after_event, idle_after_note, figures_of, since_of, waits_since};

use scx_sched::{Event, Sim, What};
use scx_sched_world::World;
use scxsim_views::{PauseKind, Pauses};
use std::alloc::{AllocError, Global};
use std::marker::Model;

/// The figures of CPUs that were idle while a task waited that may run there.
#[derive(Clone, Copy)]
pub struct IdleFigures {
    /// The number of stretches: each began on a CPU.
    pub count: u64,
    /// The milliseconds of all stretches, of all CPUs together.
    pub lost: u64,
    /// True if a task waited in some millisecond, idle CPU or not.
    pub has_waited: bool,
}

/// The CPUs that are idle while a task waits that may run there, and the tasks that have begun to run.
///
/// In a contract it is the sums of these stretches, with each task's state.
#[derive(Drop)]
pub struct Idling {
    pub(crate) pauses: Pauses,
    /// The first task that waited for each CPU as the ticks of the current millisecond began.
    waiting: Vec<Option<u16>>,
    /// True if a task waited in some millisecond.
    has_waited: bool,
    /// True for each task that has begun to run.
    begun: Vec<bool>,
    /// The clock since which each CPU has been idle while a task waited for it.
    since: Vec<Option<u64>>,
    /// The number of stretches that have begun.
    count: u64,
    /// The milliseconds of all stretches.
    lost: u64,
}

impl Model for Idling {
    ghost use Rattle.scxsim_account.specs.Idling.{Idle};

    ghost Value = { Idle };

    ghost view = { λ i. record {
      doing = i.pauses;
      waiting = i.waiting.items;
      has_waited = i.has_waited;
      begun = i.begun.items;
      since = i.since.items;
      count = i.count;
      lost = i.lost;
    } };
}

impl Idling {
    /// Nothing is idle yet, before a run of these tasks on these CPUs.
    pub(crate) fn new(alloc: Global, tasks: u16, cpus: u32) -> Result<Idling, AllocError>
        ensures { IfOk result (λ idling. idling ≡ none_idle tasks cpus) }
    {
        Ok(Idling {
            pauses: Pauses::new(alloc, tasks as usize)?,
            waiting: vec![in alloc; None; cpus as usize]?,
            has_waited: false,
            begun: vec![in alloc; false; tasks as usize]?,
            since: vec![in alloc; None; cpus as usize]?,
            count: 0,
            lost: 0,
        })
    }

    /// Takes an event that comes next.
    pub(crate) fn expect(&mut self, sim: &Sim, event: Event)
        ensures { self.new ≡ idle_after_event sim.now event self.old }
    {
        match event {
            Event::Tick(cpu) => {
                self.begin_ticks(sim.world(), cpu);
                self.tick(sim.clock(), cpu, sim.runner(cpu).is_none());
            }
            Event::Wake(_)
            | Event::Sleep(_)
            | Event::Clock
            | Event::SetWeight(_, _)
            | Event::SetTaskWeight(_, _) => {}
        }
    }

    /// Takes a note.
    pub(crate) fn show(&mut self, clock: u64, what: What)
        ensures { self.new ≡ idle_after_note clock what self.old }
    {
        let _ = self.pauses.show(clock, what);
        note_run(&mut self.begun, what);
    }

    /// The first task in the workload's order that waited for the CPU as the ticks of the current millisecond began.
    pub(crate) fn waiting(&self, cpu: u32) -> Option<u16>
        ensures { result ≡ waiting_at self.now.waiting cpu }
    {
        *self.waiting.get(cpu as usize)?
    }

    /// True if the task has begun to run.
    pub fn has_begun(&self, task: u16) -> bool
        ensures { result ≡ slice_index_or self.now.begun task false }
    {
        match self.begun.get(task as usize) {
            Some(begun) => *begun,
            None => false,
        }
    }

    /// The clock since which the CPU has been idle while a task waited for it, if it has.
    pub(crate) fn since(&self, cpu: u32) -> Option<u64>
        ensures { result ≡ since_at self.now.since cpu }
    {
        *self.since.get(cpu as usize)?
    }

    /// The figures of CPUs that were idle while a task waited.
    pub fn figures(&self) -> IdleFigures
        ensures { result ≡ figures_of self.now }
    {
        IdleFigures {
            count: self.count,
            lost: self.lost,
            has_waited: self.has_waited,
        }
    }

    /// Finds the tasks that wait, before the tick of CPU 0, since ticks may stop tasks.
    fn begin_ticks(&mut self, world: &World, cpu: u32)
        ensures { self.new ≡ ticks_begin world.now cpu self.old }
    {
        if cpu == 0 {
            self.notice(world);
        }
    }

    fn notice(&mut self, world: &World)
        ensures { self.new ≡ noticed world.now self.old }
    {
        let first = first_waiting(&self.pauses, world.tasks());
        self.has_waited = self.has_waited || first.is_some();
        find_waiting(&mut self.waiting, world, &self.pauses, first);
    }

    fn tick(&mut self, clock: u64, cpu: u32, is_idle: bool)
        ensures { self.new ≡ ticked clock cpu is_idle self.old }
    {
        if self.waiting(cpu).is_some() && is_idle {
            self.lose(clock, cpu);
        } else {
            self.close(cpu);
        }
    }

    /// Adds a millisecond in which the CPU is idle while a task waits for it.
    fn lose(&mut self, clock: u64, cpu: u32)
        ensures { self.new ≡ one_lost clock cpu self.old }
    {
        self.lost = self.lost.saturating_add(1);
        if self.since(cpu).is_none() {
            self.count = self.count.saturating_add(1);
            set(&mut self.since, cpu, Some(clock));
        }
    }

    fn close(&mut self, cpu: u32)
        ensures { self.new ≡ closed cpu self.old }
    {
        set(&mut self.since, cpu, None);
    }
}

/// Finds the first task that waits for each CPU, where `first` is the first that waits at all.
#[tactic(auto, using(crate::proofs::Waiting::waiting_more))]
fn find_waiting(waiting: &mut Vec<Option<u16>>, world: &World, pauses: &Pauses, first: Option<u16>)
    requires { first ≡ first_waiting (length world.now.tasks) 0 pauses.now }
    ensures { waiting.new.items
        ≡ waiting_below (length world.now.cpus) world.now pauses.now waiting.old.items }
{
    for cpu in 0..world.cpus() {
        let found = first_for(world, cpu, pauses, first);
        keep_waiting(waiting, cpu, found);
    }
}

fn keep_waiting(waiting: &mut Vec<Option<u16>>, cpu: u32, task: Option<u16>)
    ensures { waiting.new.items ≡ slice_set waiting.old.items cpu task }
{
    if let Some(place) = waiting.get_mut(cpu as usize) {
        *place = task;
    }
}

/// The first task that waits for the CPU, where `first` is the first that waits at all.
fn first_for(world: &World, cpu: u32, pauses: &Pauses, first: Option<u16>) -> Option<u16>
    requires { first ≡ first_waiting (length world.now.tasks) 0 pauses.now }
    ensures { result ≡ first_for world.now cpu pauses.now }
{
    if world.binds() {
        first_bound(world, cpu, pauses)
    } else {
        first
    }
}

/// The first task, in the workload's order, that waits and may run on the CPU.
#[tactic(auto, using(crate::proofs::Waiting::bound_here, crate::proofs::Waiting::bound_later))]
fn first_bound(world: &World, cpu: u32, pauses: &Pauses) -> Option<u16>
    ensures { result ≡ first_bound world.now cpu (length world.now.tasks) 0 pauses.now }
{
    for task in 0..world.tasks() {
        if waits_for(world, pauses, task, cpu) {
            return Some(task);
        }
    }
    None
}

/// True if the task waits, and may run on the CPU.
fn waits_for(world: &World, pauses: &Pauses, task: u16, cpu: u32) -> bool
    ensures { result ≡ (is_some (waits_since pauses.now task) && may_run world.now task cpu) }
{
    waits_since(pauses, task).is_some() && world.may_run(task, cpu)
}

fn set(since: &mut Vec<Option<u64>>, cpu: u32, value: Option<u64>)
    ensures { since.new.items ≡ slice_set since.old.items cpu value }
{
    if let Some(place) = since.get_mut(cpu as usize) {
        *place = value;
    }
}

/// Keeps that a task has begun to run, if a note says so.
fn note_run(begun: &mut Vec<bool>, what: What)
    ensures { begun.new.items ≡ begun_after what begun.old.items }
{
    if let What::Run(task, _) = what {
        if let Some(place) = begun.get_mut(task as usize) {
            *place = true;
        }
    }
}

/// The first task, in the workload's order, that waits for a CPU, if one of this number does.
#[tactic(auto, using(crate::proofs::Waiting::first_here, crate::proofs::Waiting::first_later))]
fn first_waiting(pauses: &Pauses, tasks: u16) -> Option<u16>
    ensures { result ≡ first_waiting tasks 0 pauses.now }
{
    for task in 0..tasks {
        if waits_since(pauses, task).is_some() {
            return Some(task);
        }
    }
    None
}

/// The clock since which the task has waited for a CPU, if it waits. A task that is parked doesn't.
pub(crate) fn waits_since(pauses: &Pauses, task: u16) -> Option<u64>
    ensures { result ≡ waits_since pauses.now task }
{
    let pause = pauses.open_pause(task, 0)?;
    since_of(pause.kind, pause.since)
}

fn since_of(kind: PauseKind, since: u64) -> Option<u64>
    ensures { result ≡ since_of kind since }
{
    match kind {
        PauseKind::Wait => Some(since),
        PauseKind::Parked => None,
    }
}
