ghost use Rattle.std.specs.Prelude.{◌≡◌, IfOk, None, slice_index_or};
ghost use Rattle.scxsim_page.specs.Stretches.{within, has_lasted, with_one, none_yet, turned, all_counted, stretches_of, stretches_in};

use scx_load_driver::{Events, give_back_machine};
use scx_sched::{Event, Sim, What};
use scxsim_commands::Window;
use scxsim_runs::{Heard, Listener, ScenarioRun};
use scxsim_trace::{Observer, observe};
use std::alloc::{AllocError, Global};
use std::marker::Model;

/// Counts the stretches of a part of this run. A copy of its machine goes through the events.
pub(crate) fn count_stretches<L: Listener>(
    alloc: Global,
    run: &ScenarioRun,
    window: Window,
    listener: &mut L,
) -> Result<u64, AllocError>
    ensures { IfOk result (λ count. count ≡ stretches_in window run.now.scenario run.now.sim) }
{
    let workload = run.scenario.workload();
    let source = run.scenario.events(alloc)?;
    let sim = run.sim.duplicate(alloc)?;
    let counting = Counting::new(alloc, workload.tasks().len(), window)?;
    let events = Heard::new(source, workload.ms(), listener);
    Ok(count_events(events, sim, counting))
}

/// Counts on, through all of these events.
fn count_events<E: Events + Drop>(mut events: E, mut sim: Sim, first: Counting) -> u64
    ensures { result ≡ stretches_of sim (E.remaining events sim) first }
{
    let mut counting = first;
    observe(&mut sim, &mut events, &mut counting);
    let count = counting.count_all(sim.clock());
    drop(counting);
    drop(events);
    give_back_machine(sim);
    count
}

/// A count of stretches while the run goes on.
///
/// In a contract it is what is counted.
#[derive(Drop)]
struct Counting {
    window: Window,
    /// The beginning of each task's activity, if it waits or runs.
    since: Vec<Option<u64>>,
    count: u64,
}

impl Model for Counting {
    ghost use Rattle.scxsim_page.specs.Stretches.{Counts};

    ghost Value = { Counts };

    ghost view = { λ c. record {
      window = c.window;
      since = c.since.items;
      count = c.count;
    } };
}

impl Counting {
    /// No stretch has ended, and all of these tasks sleep.
    fn new(alloc: Global, tasks: usize, window: Window) -> Result<Counting, AllocError>
        ensures { IfOk result (λ counting. counting ≡ none_yet window tasks) }
    {
        Ok(Counting {
            window,
            since: vec![in alloc; None; tasks]?,
            count: 0,
        })
    }

    /// The task's activity ends, and another one begins at `next`, if there is one.
    #[inline(always)]
    fn turn(&mut self, task: u16, now: u64, next: Option<u64>)
        ensures { self.new ≡ turned task now next self.old }
    {
        let is_one = has_lasted(now, self.since_when(task));
        self.count = with_one(self.count, is_one);
        if let Some(place) = self.since.get_mut(task as usize) {
            *place = next;
        }
    }

    /// The beginning of the task's activity, if it waits or runs.
    #[inline(always)]
    fn since_when(&self, task: u16) -> Option<u64>
        ensures { result ≡ slice_index_or self.now.since task None }
    {
        match self.since.get(task as usize) {
            Some(since) => *since,
            None => None,
        }
    }

    /// The number of stretches, with those that go on at that moment.
    fn count_all(&self, clock: u64) -> u64
        ensures { result ≡ all_counted clock self.now }
    {
        let now = within(self.window, clock);
        let open = self
            .since
            .iter()
            .filter(|since| has_lasted(now, **since))
            .count();
        self.count.saturating_add(open as u64)
    }
}

/// The count, and one more if `is_one`.
#[inline(always)]
fn with_one(count: u64, is_one: bool) -> u64
    ensures { result ≡ with_one is_one count }
{
    if is_one {
        count.saturating_add(1)
    } else {
        count
    }
}

/// True if some time has passed since then.
#[inline(always)]
fn has_lasted(now: u64, since: Option<u64>) -> bool
    ensures { result ≡ has_lasted now since }
{
    match since {
        Some(since) => since < now,
        None => false,
    }
}

/// The moment of the window that is nearest.
#[inline(always)]
fn within(window: Window, moment: u64) -> u64
    ensures { result ≡ within window moment }
{
    moment.max(window.from).min(window.to)
}

impl Observer for Counting {
    ghost use Rattle.std.specs.Prelude.{◌≡◌, false};
    ghost use Rattle.scxsim_page.specs.Stretches.{after_note};

    ghost expects = { λ s _ _ t. t ≡ s };

    ghost shows = { λ s moment _ what t. t ≡ after_note moment what s };

    ghost has_failed = { λ _. false };

    fn expect(&mut self, _sim: &Sim, _event: Event) {}

    #[inline(always)]
    fn show(&mut self, moment: u64, _clock: u64, what: What) {
        let now = within(self.window, moment);
        match what {
            What::Wake(task) => self.turn(task, now, Some(now)),
            What::Insert(task, _) => self.turn(task, now, Some(now)),
            What::Move(task, _) => self.turn(task, now, Some(now)),
            What::Run(task, _) => self.turn(task, now, Some(now)),
            What::Sleep(task) => self.turn(task, now, None),
            What::Stop(task, _) => self.turn(task, now, None),
            What::Idle(_)
            | What::Weight(_, _)
            | What::TaskWeight(_, _)
            | What::Stall(_)
            | What::Fault(_)
            | What::Exit(_) => {}
        }
    }

    fn failed(&self) -> bool {
        false
    }
}
