//! Tests of the machine and of commands that no file of cases can show: calls and events that are refused, milliseconds
//! that pass at once, outputs that fail at each of their writes, files that end at each of their bytes, and progress of
//! a run. The program steps a machine as any caller of the libraries may (`stepping`).
#![tactic(auto)]

#[cfg(test)]
mod driving;
#[cfg(test)]
mod policies;
#[cfg(test)]
mod recorder;
#[cfg(test)]
mod same;
#[cfg(test)]
mod session;
mod stepping;
#[cfg(test)]
mod tests;

use crate::stepping::run;
use std::process::ExitCode;

fn main(rt: HostRuntime) -> ExitCode {
    match run(&rt) {
        Some(()) => ExitCode::SUCCESS,
        None => ExitCode::FAILURE,
    }
}
