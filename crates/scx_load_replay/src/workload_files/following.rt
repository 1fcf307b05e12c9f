ghost use Rattle.std.specs.Prelude.{◌≡◌, ◌∷◌, true, IfOk};
ghost use Rattle.scx_load_driver.specs.Driver.{remaining};
ghost use Rattle.scx_load_driver.specs.Events.{workload_events};
ghost use Rattle.scx_load_replay.specs.WorkloadFiles.{BeginsWith};

use scx_load_driver::Driver;
use scx_load_workloads::Workload;
use scx_sched::{Event, Sim, Unseen};
use std::alloc::{AllocError, Global};

/// True if the workload's events, for that machine, begin with the list. The machine goes through them.
#[tactic(auto, using(crate::proofs::Beginning::begins_as))]
pub(crate) fn follows(
    alloc: Global,
    workload: &Workload,
    sim: &mut Sim,
    events: &[Event],
) -> Result<bool, AllocError>
    ensures { IfOk result
        (λ answer. answer ≡ true → BeginsWith (workload_events workload.now sim.old) events.now) }
{
    let mut driver = Driver::new(alloc, workload)?;
    Ok(are_next(&mut driver, sim, events))
}

/// True if the events that come next are those of the list.
#[tactic(auto, using(crate::proofs::Beginning::all_came, crate::proofs::Beginning::next_more))]
fn are_next(driver: &mut Driver, sim: &mut Sim, events: &[Event]) -> bool
    ensures { result ≡ true → BeginsWith (remaining driver.old sim.old) events.now }
{
    for at in 0..events.len() {
        if !is_next(driver, sim, events[at]) {
            return false;
        }
    }
    true
}

/// True if that event comes next, and the machine accepts it.
#[tactic(auto, using(crate::proofs::Beginning::came))]
fn is_next(driver: &mut Driver, sim: &mut Sim, event: Event) -> bool
    ensures { result ≡ true → remaining driver.old sim.old ≡ event ∷ remaining driver.new sim.new }
{
    match driver.next(sim) {
        Some(next) => next == event && sim.step(next, &mut Unseen).is_ok(),
        None => false,
    }
}
