ghost use Rattle.std.specs.Prelude.{◌≡◌, length};
ghost use Rattle.scx_explore_bounds.specs.Events.{most_events, most_of_step};

use crate::bounds::{Bounds, Mode};
use scx_explore_states::{MOST_TASKS, Step, Tasks};
use scx_sched::{Event, Sim};

/// The places at which a step of a machine with `cpus` CPUs may have an event.
pub fn places(step: Step, cpus: u32) -> usize {
    match step {
        Step::Event(_) => 1,
        Step::Ticks { times, .. } => times as usize,
        Step::Millisecond { .. } => MOST_TASKS + cpus as usize + MOST_TASKS + 1,
    }
}

/// The event at that place of a step of a machine with `cpus` CPUs, if there is one there.
pub fn event_at(step: Step, cpus: u32, place: usize) -> Option<Event> {
    match step {
        Step::Event(event) => Some(event),
        Step::Ticks { cpu, .. } => Some(Event::Tick(cpu)),
        Step::Millisecond { wakes, sleeps } => event_in(wakes, sleeps, cpus as usize, place),
    }
}

fn event_in(wakes: Tasks, sleeps: Tasks, cpus: usize, place: usize) -> Option<Event> {
    let end = MOST_TASKS.saturating_add(cpus);
    if place < MOST_TASKS {
        let task = place as u16;
        wakes.has(task).then_some(Event::Wake(task))
    } else if place < end {
        tick_of(place - MOST_TASKS)
    } else if place - end < MOST_TASKS {
        let task = (place - end) as u16;
        sleeps.has(task).then_some(Event::Sleep(task))
    } else {
        Some(Event::Clock)
    }
}

/// The tick of that processor.
fn tick_of(cpu: usize) -> Option<Event> {
    match u32::try_from(cpu) {
        Ok(cpu) => Some(Event::Tick(cpu)),
        Err(_) => None,
    }
}

/// The most events of a list within the bounds, for such a machine.
pub fn most_events(bounds: Bounds, sim: &Sim) -> usize
    ensures { result ≡ most_events bounds (length sim.now.state.world.tasks)
        (length sim.now.state.world.cpus) }
{
    bounds
        .depth
        .saturating_mul(most_of_step(bounds.mode, sim.tasks(), sim.cpus()))
}

/// The most events of a step of a machine with that many tasks and CPUs.
fn most_of_step(mode: Mode, tasks: u16, cpus: u32) -> usize
    ensures { result ≡ most_of_step mode tasks cpus }
{
    match mode {
        Mode::Events => 1,
        Mode::Milliseconds | Mode::Workloads => 2 * usize::from(tasks) + cpus as usize + 1,
    }
}

/// The number of events of a step of a machine with `cpus` CPUs.
pub fn count_of(step: Step, cpus: u32) -> usize {
    match step {
        Step::Event(_) => 1,
        Step::Ticks { times, .. } => times as usize,
        Step::Millisecond { wakes, sleeps } => {
            wakes.count() as usize + sleeps.count() as usize + cpus as usize + 1
        }
    }
}
