//! The events of one block.
ghost use Rattle.std.specs.Prelude.{◌≡◌, ℕ, ◌+◌, ◌≤◌, ◌<◌, [], ◌∷◌, ◌++◌, length, slice_set, vec_len, vec_capacity, if◌then◌else◌};
ghost use Rattle.scx_sched_world.specs.World.{task_at, running};
ghost use Rattle.scx_load_workloads.specs.Workload.{max_ms, timing_at};
ghost use Rattle.scx_load_driver.specs.Blocks.{change_event, is_due, has_run_enough, only_runners_sleep, may_sleep, changes_at, wakes_at, ran_after};
ghost use Rattle.scx_load_driver.specs.Watch.{last_tick, last_ticks_of, watched_if, watched_at_tick, watched_after, sleeps_seen, due_seen, watched_still};
ghost use Rattle.scx_sched_machine.specs.declared.events.Event.TheVariants.{Wake, Sleep};
ghost use Rattle.scx_load_driver.specs.Changes.{AreOrdered, IsComing};
ghost use Rattle.scx_load_driver.specs.Calendar.{IsWhole, AreNoted};
ghost use Rattle.scx_load_driver.specs.Driver.{AreUnwatched};

use crate::calendar::Calendar;
use crate::set::NumberSet;
use scx_load_workloads::{Change, Timing, Weighed};
use scx_sched::{Event, Sim};

/// A millisecond, in nanoseconds.
const MS_NS: u64 = 1_000_000;

/// The run time of the task, in nanoseconds; 0 where there is no such task.
#[inline(always)]
fn run_ns(sim: &Sim, task: u16) -> u64
    ensures { result ≡ (task_at sim.now.state.world task).run_ns }
{
    sim.world().task(task).run_ns
}

/// True if the task sleeps, and wakes now.
fn is_due(due: &[u32], now: u32, sim: &Sim, task: u16) -> bool
    requires { task < length due.now }
    ensures { result ≡ is_due due.now now sim.now.state.world task }
{
    due[task as usize] == now && !sim.is_runnable(task)
}

/// True if the task is runnable, and has run as long as it runs at once.
fn has_run_enough(timings: &[Timing], ran: &[u64], sim: &Sim, task: u16) -> bool
    requires timed { task < length timings.now }
    requires remembered { task < length ran.now }
    ensures { result ≡ has_run_enough timings.now ran.now sim.now.state.world task }
{
    let run = timings[task as usize].run;
    0 < run
        && sim.is_runnable(task)
        && MS_NS * u64::from(run) <= run_ns(sim, task).saturating_sub(ran[task as usize])
}

/// True if only a task that runs on a CPU goes to sleep: under Linux rules, where a process sleeps by a system call of
/// its own.
fn only_runners_sleep(sim: &Sim) -> bool
    ensures { result ≡ only_runners_sleep sim.now.state.world }
{
    sim.world().is_by_linux()
}

/// True if the rules let the task go to sleep where it is.
fn may_sleep(sim: &Sim, task: u16) -> bool
    ensures { result ≡ may_sleep sim.now.state.world task }
{
    if only_runners_sleep(sim) {
        sim.world().cpu_of(task).is_some()
    } else {
        true
    }
}

/// The millisecond of the change that comes next; one after all milliseconds where none comes.
fn next_change(changes: &[Change], coming: usize) -> u32
    requires { AreOrdered changes.now }
    ensures { (from : ℕ)
        → from ≤ max_ms
        → IsComing changes.now from coming from
        → IsComing changes.now from coming result }
{
    if coming < changes.len() {
        changes[coming].at
    } else {
        u32::MAX
    }
}

/// The event of a change of a weight.
fn change_event(change: Change) -> Event
    ensures { result ≡ change_event change }
{
    match change.weighed {
        Weighed::Group(group) => Event::SetWeight(group, change.weight),
        Weighed::Task(task) => Event::SetTaskWeight(task, change.weight),
    }
}

/// Adds the changes of weights of this millisecond, from the coming one on. Answers the index of the first change after
/// them.
#[tactic(auto, using(crate::proofs::Below::events_push))]
fn find_changes(changes: &[Change], coming: usize, now: u32, events: &mut Vec<Event>) -> usize
    requires few { length changes.now ≤ 1024 }
    requires ordered { AreOrdered changes.now }
    requires coming { IsComing changes.now now coming now }
    requires room { 1024 ≤ vec_capacity events.old }
    requires empty { events.old.items ≡ [] }
    ensures events { events.new.items ≡ changes_at changes.now now }
    ensures coming { IsComing changes.now (now + 1) result (now + 1) }
    ensures room { 1024 ≤ vec_capacity events.new }
{
    for index in coming..changes.len() {
        let change = changes[index];
        if change.at != now {
            return index;
        }
        events.push_reserved(change_event(change));
    }
    changes.len()
}

/// Adds the changes of weights of this millisecond. Answers the next millisecond with a change. Before `next` no
/// change is looked at.
pub(crate) fn add_changes(
    changes: &[Change],
    coming: &mut usize,
    next: u32,
    now: u32,
    events: &mut Vec<Event>,
) -> u32
    requires few { length changes.now ≤ 1024 }
    requires ordered { AreOrdered changes.now }
    requires coming { IsComing changes.now now coming.old next }
    requires early { now < max_ms }
    requires room { 1024 ≤ vec_capacity events.old }
    requires empty { events.old.items ≡ [] }
    ensures events { events.new.items ≡ changes_at changes.now now }
    ensures coming { IsComing changes.now (now + 1) coming.new result }
    ensures room { 1024 ≤ vec_capacity events.new }
{
    if now < next {
        return next;
    }
    *coming = find_changes(changes, *coming, now, events);
    next_change(changes, *coming)
}

/// The run time from which a task lacks one tick at most, in nanoseconds, if its run time was `ran` at its last
/// wake.
#[inline(always)]
pub(crate) fn last_tick(run: u32, ran: u64) -> u64
    ensures { result ≡ last_tick run ran }
{
    if run == 0 {
        u64::MAX
    } else {
        ran.saturating_add(MS_NS * u64::from(run - 1))
    }
}

/// Wakes the task if it is due, and remembers its run time.
#[inline(always)]
#[tactic(auto, using(crate::proofs::LastTicks::length_last, crate::proofs::LastTicks::last_set))]
fn wake(
    timings: &[Timing],
    due: &[u32],
    ran: &mut [u64],
    last_ticks: &mut [u64],
    now: u32,
    sim: &Sim,
    task: u16,
    events: &mut Vec<Event>,
)
    requires there { task < length due.now }
    requires timed { length timings.now ≡ length due.now }
    requires even { length ran.old ≡ length due.now }
    requires last { last_ticks.old ≡ last_ticks_of timings.now ran.old }
    requires room { vec_len events.old < vec_capacity events.old }
    ensures events { events.new.items ≡ events.old.items
        ++ (if is_due due.now now sim.now.state.world task then Wake task ∷ [] else []) }
    ensures ran { ran.new ≡ if is_due due.now now sim.now.state.world task
        then slice_set ran.old task (task_at sim.now.state.world task).run_ns else ran.old }
    ensures even { length ran.new ≡ length due.now }
    ensures last { last_ticks.new ≡ last_ticks_of timings.now ran.new }
    ensures one { vec_len events.new ≤ vec_len events.old + 1 }
    ensures room { vec_capacity events.new ≡ vec_capacity events.old }
{
    if is_due(due, now, sim, task) {
        let run_ns = run_ns(sim, task);
        events.push_reserved(Event::Wake(task));
        ran[task as usize] = run_ns;
        last_ticks[task as usize] = last_tick(timings[task as usize].run, run_ns);
    }
}

/// Adds the wakes of this millisecond, and remembers the run time of each such task. Only tasks of this day are
/// looked at.
fn find_wakes(
    timings: &[Timing],
    due: &[u32],
    ran: &mut [u64],
    last_ticks: &mut [u64],
    calendar: &Calendar,
    now: u32,
    sim: &Sim,
    events: &mut Vec<Event>,
)
    requires few { length due.now ≤ 1024 }
    requires timed { length timings.now ≡ length due.now }
    requires even { length ran.old ≡ length due.now }
    requires last { last_ticks.old ≡ last_ticks_of timings.now ran.old }
    requires whole { IsWhole calendar.now }
    requires noted { AreNoted due.now now calendar.now }
    requires room { 1024 ≤ vec_capacity events.old }
    requires empty { events.old.items ≡ [] }
    ensures events { events.new.items ≡ wakes_at due.now now sim.now.state.world }
    ensures ran { ran.new ≡ ran_after due.now ran.old now sim.now.state.world }
    ensures even { length ran.new ≡ length due.now }
    ensures last { last_ticks.new ≡ last_ticks_of timings.now ran.new }
    ensures room { 1024 ≤ vec_capacity events.new }
{
    let mut task = calendar.next(now, 0, due.len());
    while task < due.len() {
        wake(timings, due, ran, last_ticks, now, sim, task as u16, events);
        task = calendar.next(now, task + 1, due.len());
    }
}

/// Adds the wakes of this millisecond and remembers run times; the tasks that woke leave the day. No task is looked
/// at where none wakes.
#[inline(always)]
pub(crate) fn add_wakes(
    timings: &[Timing],
    due: &[u32],
    ran: &mut [u64],
    last_ticks: &mut [u64],
    calendar: &mut Calendar,
    now: u32,
    sim: &Sim,
    events: &mut Vec<Event>,
)
    requires few { length due.now ≤ 1024 }
    requires timed { length timings.now ≡ length due.now }
    requires even { length ran.old ≡ length due.now }
    requires last { last_ticks.old ≡ last_ticks_of timings.now ran.old }
    requires whole { IsWhole calendar.old }
    requires noted { AreNoted due.now now calendar.old }
    requires room { 1024 ≤ vec_capacity events.old }
    requires empty { events.old.items ≡ [] }
    ensures events { events.new.items ≡ wakes_at due.now now sim.now.state.world }
    ensures ran { ran.new ≡ ran_after due.now ran.old now sim.now.state.world }
    ensures even { length ran.new ≡ length due.now }
    ensures last { last_ticks.new ≡ last_ticks_of timings.now ran.new }
    ensures room { 1024 ≤ vec_capacity events.new }
    ensures whole { IsWhole calendar.new }
    ensures noted { AreNoted due.now (now + 1) calendar.new }
{
    let soonest = calendar.soonest_wake(now);
    if now < soonest {
        return;
    }
    find_wakes(timings, due, ran, last_ticks, calendar, now, sim, events);
    calendar.refresh(due, now);
}

/// Watches the task if it lacks at most one tick.
#[inline(always)]
fn watch_there(last_ticks: &[u64], watched: &mut NumberSet, some: &mut bool, sim: &Sim, task: u16)
    requires there { task < length last_ticks.now }
    requires even { length watched.old ≡ length last_ticks.now }
    requires unwatched { AreUnwatched some.old watched.old }
    ensures watched { watched.new
        ≡ watched_if last_ticks.now sim.now.state.world task watched.old }
    ensures even { length watched.new ≡ length last_ticks.now }
    ensures unwatched { AreUnwatched some.new watched.new }
{
    if last_ticks[task as usize] <= run_ns(sim, task) {
        watched.insert(task as usize);
        *some = true;
    }
}

/// Watches the task if it lacks at most one tick. A number past the last task is not watched.
#[inline(always)]
fn watch(last_ticks: &[u64], watched: &mut NumberSet, some: &mut bool, sim: &Sim, task: u16)
    requires even { length watched.old ≡ length last_ticks.now }
    requires unwatched { AreUnwatched some.old watched.old }
    ensures watched { watched.new
        ≡ watched_if last_ticks.now sim.now.state.world task watched.old }
    ensures even { length watched.new ≡ length last_ticks.now }
    ensures unwatched { AreUnwatched some.new watched.new }
{
    if (task as usize) < last_ticks.len() {
        watch_there(last_ticks, watched, some, sim, task);
    }
}

/// Watches the task that runs on the CPU, which ticks next, if it lacks at most that tick.
#[inline(always)]
pub(crate) fn watch_runner(
    last_ticks: &[u64],
    watched: &mut NumberSet,
    some: &mut bool,
    sim: &Sim,
    cpu: u32,
)
    requires even { length watched.old ≡ length last_ticks.now }
    requires unwatched { AreUnwatched some.old watched.old }
    ensures watched { watched.new
        ≡ watched_at_tick last_ticks.now sim.now.state.world
        (running sim.now.state.world cpu) watched.old }
    ensures even { length watched.new ≡ length last_ticks.now }
    ensures unwatched { AreUnwatched some.new watched.new }
{
    if let Some(task) = sim.runner(cpu) {
        watch(last_ticks, watched, some, sim, task);
    }
}

/// Watches the task that may have run enough after the event, which comes next.
#[inline(always)]
pub(crate) fn watch_event(
    last_ticks: &[u64],
    watched: &mut NumberSet,
    some: &mut bool,
    sim: &Sim,
    event: Event,
)
    requires even { length watched.old ≡ length last_ticks.now }
    requires unwatched { AreUnwatched some.old watched.old }
    ensures watched { watched.new
        ≡ watched_after last_ticks.now sim.now.state.world event watched.old }
    ensures even { length watched.new ≡ length last_ticks.now }
    ensures unwatched { AreUnwatched some.new watched.new }
{
    match event {
        Event::Tick(cpu) => watch_runner(last_ticks, watched, some, sim, cpu),
        Event::Wake(_)
        | Event::Sleep(_)
        | Event::Clock
        | Event::SetWeight(_, _)
        | Event::SetTaskWeight(_, _) => {}
    }
}

/// Adds the sleep of a task that has run enough, and remembers when it wakes, if it may go to sleep.
#[inline(always)]
#[tactic(auto, using(crate::proofs::Days::whole_with, crate::proofs::Days::noted_set))]
fn send_to_sleep(
    timings: &[Timing],
    due: &mut [u32],
    calendar: &mut Calendar,
    now: u32,
    sim: &Sim,
    task: u16,
    events: &mut Vec<Event>,
)
    requires there { task < length timings.now }
    requires few { length timings.now ≤ 1024 }
    requires even { length due.old ≡ length timings.now }
    requires early { now < max_ms }
    requires sleep { (timing_at timings.now task).sleep ≤ max_ms }
    requires whole { IsWhole calendar.old }
    requires noted { AreNoted due.old (now + 1) calendar.old }
    requires room { vec_len events.old < vec_capacity events.old }
    ensures events { events.new.items ≡ events.old.items
        ++ (if may_sleep sim.now.state.world task then Sleep task ∷ [] else []) }
    ensures due { due.new ≡ if may_sleep sim.now.state.world task
        then slice_set due.old task (now + 1 + (timing_at timings.now task).sleep) else due.old }
    ensures even { length due.new ≡ length timings.now }
    ensures whole { IsWhole calendar.new }
    ensures noted { AreNoted due.new (now + 1) calendar.new }
    ensures one { vec_len events.new ≤ vec_len events.old + 1 }
    ensures room { vec_capacity events.new ≡ vec_capacity events.old }
{
    if may_sleep(sim, task) {
        let ms = now + 1 + timings[task as usize].sleep;
        events.push_reserved(Event::Sleep(task));
        due[task as usize] = ms;
        calendar.insert(task as usize, ms);
    }
}

/// Adds the watched tasks that go to sleep now, and remembers when each wakes. Those that have run enough remain
/// watched, and no others. Answers true if some task does.
fn find_sleeps(
    timings: &[Timing],
    due: &mut [u32],
    ran: &[u64],
    watched: &mut NumberSet,
    calendar: &mut Calendar,
    now: u32,
    sim: &Sim,
    events: &mut Vec<Event>,
) -> bool
    requires few { length timings.now ≤ 1024 }
    requires even { length due.old ≡ length timings.now }
    requires remembered { length ran.now ≡ length timings.now }
    requires even_watched { length watched.old ≡ length timings.now }
    requires early { now < max_ms }
    requires sleeps { (t : ℕ) → t < length timings.now → (timing_at timings.now t).sleep ≤ max_ms }
    requires whole { IsWhole calendar.old }
    requires noted { AreNoted due.old (now + 1) calendar.old }
    requires room { 1024 ≤ vec_capacity events.old }
    requires empty { events.old.items ≡ [] }
    ensures events { events.new.items
        ≡ sleeps_seen timings.now ran.now watched.old sim.now.state.world }
    ensures due { due.new
        ≡ due_seen timings.now due.old ran.now watched.old now sim.now.state.world }
    ensures watched { watched.new
        ≡ watched_still timings.now ran.now watched.old sim.now.state.world }
    ensures even { length due.new ≡ length timings.now }
    ensures even_watched { length watched.new ≡ length timings.now }
    ensures unwatched { AreUnwatched result watched.new }
    ensures whole { IsWhole calendar.new }
    ensures noted { AreNoted due.new (now + 1) calendar.new }
    ensures room { 1024 ≤ vec_capacity events.new }
{
    let mut some = false;
    let mut task = watched.next(0, timings.len());
    while task < timings.len() {
        if has_run_enough(timings, ran, sim, task as u16) {
            send_to_sleep(timings, due, calendar, now, sim, task as u16, events);
            some = true;
        } else {
            watched.remove(task);
        }
        task = watched.next(task + 1, timings.len());
    }
    some
}

/// Adds the watched tasks that go to sleep now, and remembers when each wakes. `some` is false only if no task is
/// watched. Answers true if some task remains watched.
#[inline(always)]
pub(crate) fn add_sleeps(
    timings: &[Timing],
    due: &mut [u32],
    ran: &[u64],
    watched: &mut NumberSet,
    some: bool,
    calendar: &mut Calendar,
    now: u32,
    sim: &Sim,
    events: &mut Vec<Event>,
) -> bool
    requires few { length timings.now ≤ 1024 }
    requires even { length due.old ≡ length timings.now }
    requires remembered { length ran.now ≡ length timings.now }
    requires even_watched { length watched.old ≡ length timings.now }
    requires unwatched { AreUnwatched some watched.old }
    requires early { now < max_ms }
    requires sleeps { (t : ℕ) → t < length timings.now → (timing_at timings.now t).sleep ≤ max_ms }
    requires whole { IsWhole calendar.old }
    requires noted { AreNoted due.old (now + 1) calendar.old }
    requires room { 1024 ≤ vec_capacity events.old }
    requires empty { events.old.items ≡ [] }
    ensures events { events.new.items
        ≡ sleeps_seen timings.now ran.now watched.old sim.now.state.world }
    ensures due { due.new
        ≡ due_seen timings.now due.old ran.now watched.old now sim.now.state.world }
    ensures watched { watched.new
        ≡ watched_still timings.now ran.now watched.old sim.now.state.world }
    ensures even { length due.new ≡ length timings.now }
    ensures even_watched { length watched.new ≡ length timings.now }
    ensures unwatched { AreUnwatched result watched.new }
    ensures whole { IsWhole calendar.new }
    ensures noted { AreNoted due.new (now + 1) calendar.new }
    ensures room { 1024 ≤ vec_capacity events.new }
{
    if some {
        find_sleeps(timings, due, ran, watched, calendar, now, sim, events)
    } else {
        false
    }
}
