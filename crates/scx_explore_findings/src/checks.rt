ghost use Rattle.std.specs.Prelude.{◌≡◌};
ghost use Rattle.scx_explore_findings.specs.Findings.{is_left, leaves_global, waits_left, fault_in, stall_in, exit_in, IsFirstLeft, IsIdleBehind};

use crate::finding::Finding;
use scx_sched::{Eject, Event, Fault, Sim};
use scx_sched_world::{GLOBAL, HELD, POLICY_END};

/// The fault for which the policy was ejected, if it was for one.
pub fn fault_of(sim: &Sim) -> Option<Fault>
    ensures { result ≡ fault_in sim.now.state.world.ejected }
{
    match sim.ejected() {
        Some(Eject::Fault(fault, _)) => Some(fault),
        Some(Eject::Stall(_, _) | Eject::Exit(_, _)) | None => None,
    }
}

/// The task that waited too long, if the policy was ejected for that.
pub fn stall_of(sim: &Sim) -> Option<u16>
    ensures { result ≡ stall_in sim.now.state.world.ejected }
{
    match sim.ejected() {
        Some(Eject::Stall(task, _)) => Some(task),
        Some(Eject::Fault(_, _) | Eject::Exit(_, _)) | None => None,
    }
}

/// The code with which a callback ended the policy, if one did.
pub fn exit_of(sim: &Sim) -> Option<i64>
    ensures { result ≡ exit_in sim.now.state.world.ejected }
{
    match sim.ejected() {
        Some(Eject::Exit(code, _)) => Some(code),
        Some(Eject::Fault(_, _) | Eject::Stall(_, _)) | None => None,
    }
}

/// A task that is left waiting while that event, a tick, has left a processor idle on which it may run, if there is one.
#[tactic(auto, using(crate::proofs::IdleCpus::busy, crate::proofs::IdleCpus::nobody, crate::proofs::IdleCpus::somebody))]
pub fn idle_in(sim: &Sim, event: Event) -> Option<Finding>
    ensures { IsIdleBehind sim.now event result }
{
    let Event::Tick(cpu) = event else {
        return None;
    };
    if sim.runner(cpu).is_some() {
        return None;
    }
    let task = first_left(sim, cpu)?;
    Some(Finding::Idle { cpu, task })
}

/// The first task that the processor leaves waiting.
fn first_left(sim: &Sim, cpu: u32) -> Option<u16>
    ensures { IsFirstLeft sim.now.state.world cpu result }
{
    for task in 0..sim.tasks() {
        if is_left(sim, cpu, task) {
            return Some(task);
        }
    }
    None
}

/// True if the task waits in a queue of the policy, is held, or is in GLOBAL where an idle CPU leaves it, and may run on
/// that CPU.
pub(crate) fn is_left(sim: &Sim, cpu: u32, task: u16) -> bool
    ensures { result ≡ waits_left sim.now.state.world cpu task }
{
    is_left_in(leaves_global(sim), sim.world().queue_of(task)) && sim.world().may_run(task, cpu)
}

fn is_left_in(leaves_global: bool, queue: Option<u64>) -> bool
    ensures { result ≡ is_left leaves_global queue }
{
    match queue {
        Some(queue) => queue < POLICY_END || (queue == HELD || (leaves_global && queue == GLOBAL)),
        None => false,
    }
}

/// True if an idle CPU leaves tasks in GLOBAL: under Linux rules it sleeps until it is given work.
fn leaves_global(sim: &Sim) -> bool
    ensures { result ≡ leaves_global sim.now.state.world }
{
    sim.world().is_by_linux()
}
