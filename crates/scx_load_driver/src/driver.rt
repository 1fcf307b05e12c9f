ghost use Rattle.std.specs.Prelude.{◌≡◌, ◌≤◌, ◌<◌, ◌∷◌, [], length, not, map, true, false, IsTrue, IfOk, IfSome, IfNone};
ghost use Rattle.scx_sched_machine.specs.declared.events.Event.TheVariants.{Clock};
ghost use Rattle.scx_sched.specs.Sim.{SimState, after_event};
ghost use Rattle.scx_load_workloads.specs.declared.workload.Timing.{Timing};
ghost use Rattle.scx_load_driver.specs.Events.{workload_events};
ghost use Rattle.scx_load_driver.specs.Changes.{AreOrdered, AreAlike};
ghost use Rattle.scx_load_driver.specs.Runs.{Skips};
ghost use Rattle.scx_load_driver.specs.Watch.{last_tick};
ghost use Rattle.scx_load_driver.specs.Driver.{is_clock_next, are_ticks_next};

use crate::blocks::{add_changes, add_sleeps, add_wakes, last_tick, watch_event, watch_runner};
use crate::calendar::Calendar;
use crate::set::NumberSet;
use crate::skipping::{calm_ms, runs_last};
use scx_load_workloads::{Change, Timing, Workload};
use scx_sched::{Event, Sim};
use std::alloc::{AllocError, Global};
use std::cmp;
use std::marker::Model;

/// A block of the events of a millisecond.
#[derive(Clone, Copy, PartialEq, Eq)]
pub enum Phase {
    Changes,
    Wakes,
    Ticks,
    Sleeps,
    Clock,
}

/// The most events of a block.
const MAX_BLOCK: usize = 1024;

/// As many milliseconds skipped at once are worth the tries in vain that may follow.
const MANY: u32 = 4;

/// Half of the most milliseconds from a try that skips fewer to the next one.
const HALF_PAUSE: u32 = 16;

/// The events of a workload, one after another.
///
/// In a contract it is the remaining events of the block at hand, the blocks after it, the times remembered of
/// tasks, and the watched tasks.
#[derive(Drop)]
pub struct Driver {
    cpus: u32,
    /// The CPU that ticks next; the number of CPUs except in the block of ticks.
    cpu: u32,
    timings: Vec<Timing>,
    /// The changes of weights, in the order of their times.
    changes: Vec<Change>,
    /// The index of the first change that isn't past.
    coming: usize,
    /// The block that comes next, in the millisecond `clock`.
    phase: Phase,
    clock: u32,
    /// The number of milliseconds that aren't over.
    left: u32,
    /// No weight changes before this millisecond any more.
    next_change: u32,
    /// The millisecond of each task's next wake.
    due: Vec<u32>,
    /// The day of each task that is to wake.
    calendar: Calendar,
    /// The run time of each task at its last wake, in nanoseconds.
    ran: Vec<u64>,
    /// The run time from which a task lacks one tick at most, for each task, in nanoseconds.
    last_ticks: Vec<u64>,
    /// The tasks that may have run enough.
    watched: NumberSet,
    /// False only if no task is watched.
    some_watched: bool,
    /// The events of the block at hand.
    events: Vec<Event>,
    /// The number of these events that were answered.
    taken: usize,
    /// Before this millisecond none is skipped.
    next_try: u32,
    /// The milliseconds from a try that gains little to the next one.
    pause: u32,
}

impl Model for Driver {
    ghost use Rattle.scx_load_driver.specs.Driver.{DriverState, state_of, IsKept};

    ghost Value = { DriverState };

    ghost view = { state_of };

    ghost invariant = { IsKept };
}

impl Driver {
    ghost use Rattle.scx_load_driver.specs.Driver.{remaining, is_empty, after_answer, at_next_block, phase_number, next_number};

    /// A driver with all events of the workload to come, for a machine in any state. All memory is taken
    /// here.
    pub fn new(alloc: Global, workload: &Workload) -> Result<Driver, AllocError>
        ensures { IfOk result
            (λ driver. (s : SimState) → remaining driver s ≡ workload_events workload.now s) }
    {
        workload.is_whole();
        let timings = Vec::from_slice(alloc, workload.timings())?;
        let due = starts(alloc, workload.timings())?;
        let calendar = Calendar::new(alloc, &due)?;
        let ran = vec![in alloc; 0; timings.len()]?;
        let last_ticks = first_last_ticks(alloc, workload.timings())?;
        let watched = NumberSet::all(alloc, timings.len())?;
        let cpus = workload.cpus();
        Ok(Driver {
            cpus,
            cpu: cpus,
            timings,
            changes: in_order(alloc, workload.changes())?,
            coming: 0,
            phase: Phase::Changes,
            clock: 0,
            left: workload.ms(),
            next_change: 0,
            due,
            calendar,
            ran,
            last_ticks,
            watched,
            some_watched: true,
            events: Vec::with_capacity(alloc, MAX_BLOCK)?,
            taken: 0,
            next_try: 0,
            pause: 1,
        })
    }

    /// The next event, for a machine that took exactly the events before it; none at the end.
    #[inline(always)]
    #[tactic(auto, using(crate::proofs::Remaining::remaining_taken))]
    pub fn next(&mut self, sim: &Sim) -> Option<Event>
        ensures next { IfSome result
            (λ event. remaining self.old sim.now
            ≡ event ∷ remaining self.new (after_event sim.now event)) }
        ensures end { IfNone result (remaining self.old sim.now ≡ []) }
        ensures over { IfNone result (remaining self.new sim.now ≡ []) }
    {
        if self.is_spent() {
            self.next_behind(sim)
        } else {
            Some(self.take(sim))
        }
    }

    /// The next event after those of the block at hand. With the clock the next millisecond begins, if nothing
    /// comes before its ticks.
    #[inline(always)]
    fn next_behind(&mut self, sim: &Sim) -> Option<Event>
        requires { is_empty self.old.pending ≡ true }
        ensures next { IfSome result
            (λ event. remaining self.old sim.now
            ≡ event ∷ remaining self.new (after_event sim.now event)) }
        ensures end { IfNone result (remaining self.old sim.now ≡ []) }
        ensures over { IfNone result (remaining self.new sim.now ≡ []) }
    {
        if self.takes_clock() {
            self.begin_ticks();
            Some(Event::Clock)
        } else {
            self.next_begun(sim)
        }
    }

    /// The next event after those of the block at hand, where the clock isn't known to come next.
    #[inline(always)]
    #[tactic(auto, using(crate::proofs::Remaining::remaining_taken))]
    fn next_begun(&mut self, sim: &Sim) -> Option<Event>
        requires { is_empty self.old.pending ≡ true }
        ensures next { IfSome result
            (λ event. remaining self.old sim.now
            ≡ event ∷ remaining self.new (after_event sim.now event)) }
        ensures end { IfNone result (remaining self.old sim.now ≡ []) }
        ensures over { IfNone result (remaining self.new sim.now ≡ []) }
    {
        self.begin_ticks();
        if self.is_spent() {
            self.next_slowly(sim)
        } else {
            Some(self.take(sim))
        }
    }

    /// The next event, found by beginning each block in turn.
    #[inline(never)]
    #[tactic(auto, using(crate::proofs::Remaining::remaining_taken, crate::proofs::Remaining::remaining_end))]
    fn next_slowly(&mut self, sim: &Sim) -> Option<Event>
        ensures next { IfSome result
            (λ event. remaining self.old sim.now
            ≡ event ∷ remaining self.new (after_event sim.now event)) }
        ensures end { IfNone result (remaining self.old sim.now ≡ []) }
        ensures over { IfNone result (remaining self.new sim.now ≡ []) }
    {
        self.begin_blocks(sim);
        if self.is_spent() {
            None
        } else {
            Some(self.take(sim))
        }
    }

    /// Begins the next millisecond if the clock comes next. Answers true if it does.
    #[inline(always)]
    fn takes_clock(&mut self) -> bool
        requires { is_empty self.old.pending ≡ true }
        ensures clock { IsTrue result → (s : SimState)
            → remaining self.old s ≡ Clock ∷ remaining self.new (after_event s Clock) }
        ensures spent { is_empty self.new.pending ≡ true }
        ensures same { result ≡ false → self.new ≡ self.old }
    {
        if is_clock_next(self.phase, self.some_watched) && 0 < self.left {
            self.clock += 1;
            self.left -= 1;
            self.phase = Phase::Changes;
            true
        } else {
            false
        }
    }

    /// Begins the ticks, if nothing comes before them.
    #[inline(always)]
    #[tactic(auto, using(crate::proofs::Calm::noted_for_ticks))]
    fn begin_ticks(&mut self)
        requires { is_empty self.old.pending ≡ true }
        ensures { (s : SimState) → remaining self.new s ≡ remaining self.old s }
    {
        let soonest = self.calendar.soonest_wake(self.clock);
        if are_ticks_next(self.phase, self.clock, self.next_change, soonest) && 0 < self.left {
            self.cpu = 0;
            self.phase = Phase::Sleeps;
        }
    }

    /// Begins the ticks, if all events before them were answered and nothing comes before them.
    #[inline(always)]
    fn come_to_ticks(&mut self)
        ensures { (s : SimState) → remaining self.new s ≡ remaining self.old s }
    {
        if self.is_spent() {
            self.begin_ticks();
        }
    }

    /// Gives the machine at once the events of milliseconds that come next and in which nothing happens but that tasks
    /// run. The machine took exactly the events before them. After a try that gains little the next ones come later and
    /// later.
    #[inline(always)]
    #[tactic(auto, using(crate::proofs::Passing::skips_none))]
    pub fn skip(&mut self, sim: &mut Sim)
        ensures { Skips (remaining self.old sim.old) sim.old (remaining self.new sim.new) sim.new }
    {
        if self.next_try <= self.clock {
            self.try_to_skip(sim);
        }
    }

    /// `skip`, however long ago the last try was.
    #[tactic(auto, using(crate::proofs::Passing::skips_same, crate::proofs::Passing::skips_both))]
    fn try_to_skip(&mut self, sim: &mut Sim)
        ensures { Skips (remaining self.old sim.old) sim.old (remaining self.new sim.new) sim.new }
    {
        let before = self.clock;
        self.come_to_ticks();
        if self.skip_some(sim) {
            self.skip_on(sim);
            self.put_off(self.clock.saturating_sub(before));
        } else {
            self.put_off(0);
        }
    }

    /// Puts off the next try to skip milliseconds: to the next millisecond after many skipped ones, and for a pause after
    /// few, which is longer each time.
    #[inline(always)]
    fn put_off(&mut self, skipped: u32)
        ensures { self.new ≡ self.old }
    {
        if MANY <= skipped {
            self.pause = 1;
        }
        self.next_try = self.clock.saturating_add(self.pause);
        self.pause = cmp::min(self.pause, HALF_PAUSE) * 2;
    }

    /// Skips milliseconds for as long as there are such.
    #[tactic(auto, using(crate::proofs::Passing::skips_none, crate::proofs::Passing::skips_both))]
    fn skip_on(&mut self, sim: &mut Sim)
        ensures { Skips (remaining self.old sim.old) sim.old (remaining self.new sim.new) sim.new }
    {
        for _skip in 0..self.left {
            if !self.skip_some(sim) {
                return;
            }
        }
    }

    /// Gives the machine at once the events of milliseconds in which nothing happens but that tasks run. Answers false
    /// if there are none.
    #[tactic(auto, using(crate::proofs::Passing::skips_none))]
    fn skip_some(&mut self, sim: &mut Sim) -> bool
        ensures { Skips (remaining self.old sim.old) sim.old (remaining self.new sim.new) sim.new }
    {
        if self.some_watched
            || 0 < self.cpu
            || self.phase != Phase::Sleeps
            || sim.cpus() != self.cpus
        {
            return false;
        }
        let most = runs_last(&self.last_ticks, sim, self.left);
        let most = sim.quiet_ms(most);
        let ms = calm_ms(self.next_change, &self.calendar, self.clock, most);
        if ms == 0 {
            return false;
        }
        sim.skip(ms);
        self.clock += ms;
        self.left -= ms;
        self.cpu = self.cpus;
        self.phase = Phase::Changes;
        self.begin_ticks();
        true
    }

    /// True if all events of the block at hand were answered.
    #[inline(always)]
    fn is_spent(&self) -> bool
        ensures { result ≡ is_empty self.now.pending }
    {
        if self.cpu < self.cpus {
            return false;
        }
        if self.phase == Phase::Sleeps {
            return true;
        }
        self.taken == self.events.len()
    }

    /// The next event of the block at hand.
    #[inline(always)]
    #[tactic(auto, using(crate::proofs::LastTicks::length_last))]
    fn take(&mut self, sim: &Sim) -> Event
        requires { is_empty self.old.pending ≡ false }
        ensures event { self.old.pending ≡ result ∷ self.new.pending }
        ensures driver { self.new ≡ after_answer self.old sim.now result self.new.pending }
    {
        let some = &mut self.some_watched;
        if self.cpu < self.cpus {
            let cpu = self.cpu;
            self.cpu = cpu + 1;
            watch_runner(&self.last_ticks, &mut self.watched, some, sim, cpu);
            Event::Tick(cpu)
        } else {
            let event = self.events[self.taken];
            self.taken += 1;
            watch_event(&self.last_ticks, &mut self.watched, some, sim, event);
            event
        }
    }

    /// True if a block comes next.
    #[tactic(auto, using(crate::proofs::Remaining::some_blocks))]
    fn has_block(&self) -> bool
        ensures { result ≡ not (is_empty self.now.blocks) }
    {
        0 < self.left
    }

    /// Begins blocks, one after another, until there is an event to answer. Each has its turn once.
    #[inline(always)]
    #[tactic(auto, using(crate::proofs::Remaining::past_last))]
    fn begin_blocks(&mut self, sim: &Sim)
        ensures same { remaining self.new sim.now ≡ remaining self.old sim.now }
        ensures over { is_empty self.new.pending ≡ true → is_empty self.new.blocks ≡ true }
    {
        self.begin_at(Phase::Changes, sim);
        self.begin_at(Phase::Wakes, sim);
        self.begin_at(Phase::Ticks, sim);
        self.begin_at(Phase::Sleeps, sim);
        self.begin_at(Phase::Clock, sim);
    }

    /// Begins this block, if it comes next and all events before it were answered.
    #[inline(always)]
    #[tactic(auto, using(crate::proofs::Remaining::remaining_begun))]
    fn begin_at(&mut self, phase: Phase, sim: &Sim)
        requires turn { is_empty self.old.pending ≡ true
            → phase_number phase ≤ next_number self.old.blocks }
        ensures same { remaining self.new sim.now ≡ remaining self.old sim.now }
        ensures past { is_empty self.new.pending ≡ true
            → phase_number phase < next_number self.new.blocks }
    {
        if self.phase == phase && self.is_spent() && self.has_block() {
            self.begin_block(sim);
        }
    }

    /// Begins the next block.
    #[inline(always)]
    #[tactic(auto)]
    fn begin_block(&mut self, sim: &Sim)
        requires { not (is_empty self.old.blocks) ≡ true }
        ensures { self.new ≡ at_next_block self.old sim.now }
    {
        let now = self.clock;
        self.events.clear();
        self.taken = 0;
        self.cpu = self.cpus;
        let events = &mut self.events;
        match self.phase {
            Phase::Changes => {
                self.next_change = add_changes(
                    &self.changes,
                    &mut self.coming,
                    self.next_change,
                    now,
                    events,
                );
                self.phase = Phase::Wakes;
            }
            Phase::Wakes => {
                add_wakes(
                    &self.timings,
                    &self.due,
                    &mut self.ran,
                    &mut self.last_ticks,
                    &mut self.calendar,
                    now,
                    sim,
                    events,
                );
                self.phase = Phase::Ticks;
            }
            Phase::Ticks => {
                self.cpu = 0;
                self.phase = Phase::Sleeps;
            }
            Phase::Sleeps => {
                self.some_watched = add_sleeps(
                    &self.timings,
                    &mut self.due,
                    &self.ran,
                    &mut self.watched,
                    self.some_watched,
                    &mut self.calendar,
                    now,
                    sim,
                    events,
                );
                self.phase = Phase::Clock;
            }
            Phase::Clock => {
                events.push_reserved(Event::Clock);
                self.clock += 1;
                self.left -= 1;
                self.phase = Phase::Changes;
            }
        }
    }
}

/// True if the clock comes next: after the sleeps, or in their place where no task may be watched.
#[inline(always)]
fn is_clock_next(phase: Phase, some_watched: bool) -> bool
    ensures { result ≡ is_clock_next phase some_watched }
{
    match phase {
        Phase::Clock => true,
        Phase::Sleeps => !some_watched,
        Phase::Changes | Phase::Wakes | Phase::Ticks => false,
    }
}

/// True if the ticks come next: after the wakes, or at the start of a millisecond in which no weight changes and
/// no task wakes.
#[inline(always)]
fn are_ticks_next(phase: Phase, now: u32, next_change: u32, next_wake: u32) -> bool
    ensures { result ≡ are_ticks_next phase now next_change next_wake }
{
    if phase == Phase::Changes {
        now < next_change && now < next_wake
    } else {
        phase == Phase::Ticks
    }
}

/// The changes of weights in the order of their times; those of a millisecond keep their order.
fn in_order(alloc: Global, changes: &[Change]) -> Result<Vec<Change>, AllocError>
    ensures many { IfOk result (λ ordered. length ordered.items ≡ length changes.now) }
    ensures ordered { IfOk result (λ ordered. AreOrdered ordered.items) }
    ensures alike { IfOk result (λ ordered. AreAlike ordered.items changes.now) }
{
    let mut ordered = Vec::from_slice(alloc, changes)?;
    ordered.sort_by_key(|change| change.at)?;
    Ok(ordered)
}

/// The millisecond of each task's first wake.
fn starts(alloc: Global, timings: &[Timing]) -> Result<Vec<u32>, AllocError>
    ensures { IfOk result (λ due. due.items ≡ map (λ (t : Timing). t.start) timings.now) }
{
    let mut due = Vec::with_capacity(alloc, timings.len())?;
    for timing in timings {
        due.push_reserved(timing.start);
    }
    Ok(due)
}

/// The run time from which each task lacks one tick at most, before any task has run.
fn first_last_ticks(alloc: Global, timings: &[Timing]) -> Result<Vec<u64>, AllocError>
    ensures { IfOk result
        (λ last. last.items ≡ map (λ (t : Timing). last_tick t.run 0) timings.now) }
{
    let mut last_ticks = Vec::with_capacity(alloc, timings.len())?;
    for timing in timings {
        last_ticks.push_reserved(last_tick(timing.run, 0));
    }
    Ok(last_ticks)
}
