//! Runs that are about to begin: `prepare` makes one of the texts of a policy file and a workload file,
//! `prepare_replay` of those of a policy file and a file of events. All memory of a run is taken here.
//!
//! A *scenario* is a workload or a file of events: `prepare_scenario` begins the run of either, and
//! `prepare_scenario_part` names a part of it. A `Listener` is told the run's progress.
#![tactic(auto)]

mod listener;
mod parts;
mod preparing;
mod replays;
mod scenario_parts;
mod scenarios;

pub use listener::{Heard, Listener, Nobody};
pub use parts::{RunPart, prepare_part};
pub use preparing::{Run, give_back, prepare};
pub use replays::prepare_replay;
pub use scenario_parts::{ScenarioPart, prepare_scenario_part};
pub use scenarios::{
    ScenarioRun, give_back_start, prepare_scenario, read_scenario,
    texts_with_events_are_files_of_events, texts_without_events_are_workloads,
};
