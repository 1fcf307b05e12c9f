ghost use Rattle.std.specs.Prelude.{◌≡◌, length};
ghost use Rattle.scx_explore_bounds.specs.Repeats.{most_in_rows, most_ticks, times_in};

use crate::bounds::Bounds;
use crate::steps::most_events;
use scx_explore_states::{Form, Step, times};
use scx_sched::{Event, Sim};

/// The most ticks in a row.
const MOST_TICKS: usize = 8192;

/// The number of times that an event is tried in a row: once if states keep slices, and else a tick until the slice of the
/// CPU's task has ended.
pub fn times_in(form: Form, sim: &Sim, event: Event) -> u64
    ensures { result ≡ times_in form.slices sim.now event }
{
    if form.slices { 1 } else { times(sim, event) }
}

/// The most ticks in a row.
pub fn most_ticks(form: Form) -> usize
    ensures { result ≡ most_ticks form.slices }
{
    if form.slices { 1 } else { MOST_TICKS }
}

/// The most events of a list within the bounds, for such a machine, each as often as it may come in a row.
pub fn most_in_rows(form: Form, bounds: Bounds, sim: &Sim) -> usize
    ensures { result ≡ most_in_rows form.slices bounds (length sim.now.state.world.tasks)
        (length sim.now.state.world.cpus) }
{
    most_events(bounds, sim).saturating_mul(most_ticks(form))
}

/// The step by an event that comes that many times in a row.
pub fn step_of(event: Event, times: usize) -> Step {
    match event {
        Event::Tick(cpu) => Step::Ticks {
            cpu,
            times: u32::try_from(times).unwrap_or(u32::MAX),
        },
        Event::Wake(_)
        | Event::Sleep(_)
        | Event::Clock
        | Event::SetWeight(_, _)
        | Event::SetTaskWeight(_, _) => Step::Event(event),
    }
}
