//! The commands that run a workload.

use super::texts::SHORT_SLICES;
use scxsim_commands::Fault;
use scxsim_output::Out;
use scxsim_runs::Listener;
use scxsim_simulation::{report, simulate};
use std::alloc::Global;

/// A command that runs a workload.
#[derive(Clone, Copy)]
pub(crate) enum RunCommand {
    Trace,
    Report,
}

pub(crate) const RUN_COMMANDS: [RunCommand; 2] = [RunCommand::Trace, RunCommand::Report];

/// Runs the command on the workload, under a policy of short slices.
pub(crate) fn execute<L: Listener, W: Out>(
    command: RunCommand,
    alloc: Global,
    workload: &str,
    listener: &mut L,
    out: &mut W,
) -> Result<bool, Fault> {
    let policy = SHORT_SLICES;
    match command {
        RunCommand::Trace => simulate(alloc, policy, workload, listener, out),
        RunCommand::Report => report(alloc, policy, workload, listener, out),
    }
}
