ghost use Rattle.std.specs.Prelude.{◌≡◌, true, IfOk, IfSome};
ghost use Rattle.std.specs.String.{string_bytes};
ghost use Rattle.scx_load_replay.specs.WorkloadFiles.{IsFileOf, IsRunOf};

use crate::workload_files::drafts::times_in;
use crate::workload_files::following::follows;
use crate::workload_files::likeness::has_same_parts;
use crate::workload_files::writing::text_of;
use scx_isa_semantics::Rules;
use scx_load_files::LoadError;
use scx_load_workloads::{Workload, read_workload_by};
use scx_sched::{Event, Sim};
use std::alloc::{AllocError, Global};

/// The text of a workload file with the groups, tasks and processors of that workload, whose events begin with the
/// list; none where the list is of no such file. Two machines go through the list, one after the other: the first to
/// see how long tasks run, the second to see that the file is one of the list.
///
/// # Errors
///
/// Memory runs out.
pub fn workload_file(
    alloc: Global,
    workload: &Workload,
    first: &mut Sim,
    second: &mut Sim,
    events: &[Event],
) -> Result<Option<String>, AllocError>
    ensures { IfOk result (λ file. IfSome file
        (λ text. IsFileOf workload.now second.old events.now (string_bytes text))) }
{
    let drafts = times_in(alloc, first, events)?;
    let text = text_of(alloc, workload, &drafts)?;
    if begins_with(alloc, text.as_str(), workload, second, events)? {
        Ok(Some(text))
    } else {
        Ok(None)
    }
}

/// True if the text is a workload file with the groups, tasks and CPUs of that workload, for a policy by the machine's
/// rules, whose events, for that machine, begin with the list. The machine goes through them.
///
/// # Errors
///
/// Memory runs out.
#[tactic(auto, using(crate::proofs::Filing::file_of))]
pub fn begins_with(
    alloc: Global,
    text: &str,
    workload: &Workload,
    sim: &mut Sim,
    events: &[Event],
) -> Result<bool, AllocError>
    ensures { IfOk result
        (λ answer. answer ≡ true → IsFileOf workload.now sim.old events.now text.now) }
{
    let rules = rules_of(sim);
    match read_workload_by(alloc, rules, text) {
        Ok(file) => is_file_of(alloc, &file, workload, sim, events),
        Err(LoadError::NoMemory) => Err(AllocError),
        Err(LoadError::At { .. }) => Ok(false),
    }
}

/// The rules of the machine's policy.
fn rules_of(sim: &Sim) -> Rules
    ensures { result ≡ sim.now.state.world.rules }
{
    sim.world().rules()
}

/// True if the file has the parts of that workload, and its events begin with the list.
#[tactic(auto, using(crate::proofs::Filing::run_of))]
fn is_file_of(
    alloc: Global,
    file: &Workload,
    workload: &Workload,
    sim: &mut Sim,
    events: &[Event],
) -> Result<bool, AllocError>
    ensures { IfOk result (λ answer. answer ≡ true →
        IsRunOf file.now workload.now sim.old events.now) }
{
    if has_same_parts(file, workload) {
        follows(alloc, file, sim, events)
    } else {
        Ok(false)
    }
}
