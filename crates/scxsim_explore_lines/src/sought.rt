ghost use Rattle.std.specs.Prelude.{◌≡◌, true};
ghost use Rattle.std.specs.List.{list_all};
ghost use Rattle.scx_sched_world.specs.declared.faults.Fault.{Fault};
ghost use Rattle.scxsim_explore_lines.specs.Sought.{is_answered, is_sought};

use crate::nones::{has_found, has_sort};
use crate::told::Told;
use scx_explore::Sort;
use scx_sched::Fault;

/// All faults.
const FAULTS: [Fault; 10] = [
    Fault::Stuck,
    Fault::NoSuchQueue,
    Fault::CannotInsert,
    Fault::Mixed,
    Fault::BuiltinVtime,
    Fault::NoSuchCpu,
    Fault::UnknownFlag,
    Fault::CannotCreate,
    Fault::IdleUntracked,
    Fault::NotAllowed,
];

/// True if the lists are asked about that fault, where the host tracks idle CPUs or doesn't, and tasks are bound or aren't.
pub fn is_sought(fault: Fault, tracks_idle: bool, are_bound: bool) -> bool
    ensures { result ≡ is_sought tracks_idle are_bound fault }
{
    match fault {
        Fault::IdleUntracked => !tracks_idle,
        Fault::NotAllowed => are_bound,
        Fault::Stuck
        | Fault::NoSuchQueue
        | Fault::CannotInsert
        | Fault::Mixed
        | Fault::BuiltinVtime
        | Fault::NoSuchCpu
        | Fault::UnknownFlag
        | Fault::CannotCreate => true,
    }
}

/// True if each fault that the lists are asked about is one of the sorts or was found. It is neither where memory ran out
/// for its list.
pub fn are_all_answered(tracks_idle: bool, are_bound: bool, found: &[Told], sorts: &[Sort]) -> bool
    ensures { result ≡ true → (fault : Fault)
        → is_answered tracks_idle are_bound found.now sorts.now fault ≡ true }
{
    are_answered(&FAULTS, tracks_idle, are_bound, found, sorts)
}

/// True if each of these faults that the lists are asked about is one of the sorts or was found.
fn are_answered(
    faults: &[Fault],
    tracks_idle: bool,
    are_bound: bool,
    found: &[Told],
    sorts: &[Sort],
) -> bool
    ensures { result
        ≡ list_all (is_answered tracks_idle are_bound found.now sorts.now) faults.now }
{
    faults.iter().all(|fault| is_answered(*fault, tracks_idle, are_bound, found, sorts))
}

fn is_answered(
    fault: Fault,
    tracks_idle: bool,
    are_bound: bool,
    found: &[Told],
    sorts: &[Sort],
) -> bool
    ensures { result ≡ is_answered tracks_idle are_bound found.now sorts.now fault }
{
    let sort = Sort::Fault(fault);
    !is_sought(fault, tracks_idle, are_bound) || has_sort(sorts, sort) || has_found(found, sort)
}
