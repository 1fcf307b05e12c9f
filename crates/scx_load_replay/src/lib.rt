//! Files of events: CPUs, groups and tasks as in a workload, and lines that say when tasks wake and sleep and
//! when weights change.
//!
//! `read_replay` reads a file (TOML 1.1), or names its first fault with its path. `Replayer::next` answers the
//! next event: in each millisecond weights change, tasks wake, each CPU ticks, tasks go to sleep, and the
//! clock grows.
//!
//! A `Scenario` is a workload or a file of events: the key `events` decides (`is_events`). Its events come from a
//! `Source`.
//!
//! `workload_file` goes the other way: it writes a workload file whose events begin with a list of events.
#![tactic(auto)]

mod events;
mod laws;
mod lines;
mod progress;
mod reading;
mod replay;
mod replayer;
mod scenario;
mod source;
mod workload_files;

pub use laws::{each_line_comes, no_event_is_refused};
pub use lines::Line;
pub use reading::{is_events, read_replay, read_replay_by};
pub use replay::Replay;
pub use replayer::Replayer;
pub use scenario::Scenario;
pub use source::Source;
pub use workload_files::{begins_with, workload_file};
