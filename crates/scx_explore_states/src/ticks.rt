ghost use Rattle.std.specs.Prelude.{◌≡◌};
ghost use Rattle.scx_explore_states.specs.Rows.{is_endless};
ghost use Rattle.scx_explore_states.specs.Ticks.{ticks_left, ticks_of, times};

use scx_sched::{Event, Sim};

/// The nanoseconds of a tick.
const TICK: u64 = 1_000_000;

/// Counts how many times in a row the event is tried, where slices are left out of states: a tick until the slice of the CPU's task has
/// ended, and any other event once.
pub fn times(sim: &Sim, event: Event) -> u64
    ensures { result ≡ times sim.now event }
{
    match event {
        Event::Tick(cpu) => ticks_of(sim, sim.runner(cpu)),
        Event::Wake(_)
        | Event::Sleep(_)
        | Event::Clock
        | Event::SetWeight(_, _)
        | Event::SetTaskWeight(_, _) => 1,
    }
}

fn ticks_of(sim: &Sim, runner: Option<u16>) -> u64
    ensures { result ≡ ticks_of sim.now.state.world runner }
{
    match runner {
        Some(task) => ticks_left(sim.world().task(task).slice),
        None => 1,
    }
}

/// The number of ticks that a slice lasts; 1 for one that never ends or has run out.
fn ticks_left(slice: u64) -> u64
    ensures { result ≡ ticks_left slice }
{
    if is_endless(slice) {
        1
    } else {
        slice.div_ceil(TICK).max(1)
    }
}

/// True if the slice never ends.
#[tactic(auto, using(crate::proofs::Endless::endless_of_64))]
pub(crate) fn is_endless(slice: u64) -> bool
    ensures { result ≡ is_endless slice }
{
    slice == u64::MAX
}
