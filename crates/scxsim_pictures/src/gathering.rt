use scxsim_commands::Window;
use scxsim_runs::{Heard, Listener, ScenarioRun, give_back};
use scxsim_shapes::Picture;
use scxsim_sums::Gathering;
use scxsim_trace::observe;
use std::alloc::{AllocError, Global};

/// Goes through the run, and returns its picture.
pub(crate) fn gather<L: Listener>(
    alloc: Global,
    run: ScenarioRun,
    window: Window,
    listener: &mut L,
) -> Result<Picture, AllocError> {
    let mut gathering = Gathering::new(alloc, run.scenario.workload(), window)?;
    let ScenarioRun {
        scenario,
        events,
        mut sim,
        ..
    } = run;
    let workload = scenario.into_workload();
    let mut events = Heard::new(events, workload.ms(), listener);
    observe(&mut sim, &mut events, &mut gathering);
    let gathered = gathering.end(sim.clock(), workload.tasks());
    give_back(events, sim);
    Ok(Picture { workload, gathered })
}
