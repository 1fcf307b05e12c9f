//! Runs of policies: `simulate` and `replay` write the trace of a run, of a workload or of a file of events, `report`
//! its outcome, and `maps_at_end` what the policy's maps hold then. No more of a run is kept than its state, and all
//! memory is taken before the first write.
#![tactic(auto)]

mod determinism;
mod final_maps;
mod map_lines;
mod map_places;
mod map_values;
mod replaying;
mod reporting;
mod simulating;

pub use determinism::{texts_determine_replays, texts_determine_runs};
pub use final_maps::maps_at_end;
pub use map_lines::push_maps;
pub use replaying::replay;
pub use reporting::report;
pub use simulating::simulate;
