//! The loop over a run, its observers, and the run's trace: a line for each note of the machine, written as the
//! notes come.
//!
//! `observe` gives events to a machine, one after another, and shows an `Observer` each event, its notes and calls.
//! `go_through` is its loop, for an `EventSink` that runs the programs itself. `write_run` writes the trace and keeps
//! nothing of the run; `write_report` writes the run time of each task.
#![tactic(auto)]

mod clock_text;
mod event_sink;
mod kinds;
mod lines;
mod names;
mod observer;
mod report;
mod run;
mod trace;

pub use event_sink::EventSink;
pub use names::Names;
pub use observer::{Observer, observe};
pub use report::write_report;
pub use run::{go_through, run_silently, write_run};
pub use trace::Trace;
