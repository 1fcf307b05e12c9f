ghost use Rattle.std.specs.Prelude.{◌≡◌, true, None, Some};
ghost use Rattle.scx_explore_findings.specs.Findings.{IsIdleBehind, exit_in, fault_in, stall_in};
ghost use Rattle.scx_explore_audit.specs.Claims.{AreFree, IsFree};

use scx_explore_findings::{Sort, exit_of, fault_of, idle_in, stall_of};
use scx_sched::{Event, Fault, Sim};

/// True if the event, which has led to the state of that machine, shows nothing of these sorts.
pub(crate) fn are_free(sorts: &[Sort], sim: &Sim, event: Event) -> bool
    ensures { result ≡ true → AreFree sorts.now sim.now event }
{
    for at in 0..sorts.len() {
        if !is_free(sorts[at], sim, event) {
            return false;
        }
    }
    true
}

fn is_free(sort: Sort, sim: &Sim, event: Event) -> bool
    ensures { result ≡ true → IsFree sort sim.now event }
{
    match sort {
        Sort::Fault(fault) => is_no_fault(sim, fault),
        Sort::Stall => is_no_stall(sim),
        Sort::Idle => sim.ejected().is_some() || is_not_idle(sim, event),
        Sort::Overtaken => false,
        Sort::Exit => is_no_exit(sim),
    }
}

/// True if the policy wasn't ejected for that fault.
fn is_no_fault(sim: &Sim, fault: Fault) -> bool
    ensures { result ≡ true → fault_in sim.now.state.world.ejected ≡ Some fault → ⊥ }
{
    match fault_of(sim) {
        Some(other) => other.number() != fault.number(),
        None => true,
    }
}

/// True if the policy wasn't ejected because a task waited too long.
fn is_no_stall(sim: &Sim) -> bool
    ensures { result ≡ true → stall_in sim.now.state.world.ejected ≡ None }
{
    stall_of(sim).is_none()
}

/// True if no callback ended the policy.
fn is_no_exit(sim: &Sim) -> bool
    ensures { result ≡ true → exit_in sim.now.state.world.ejected ≡ None }
{
    exit_of(sim).is_none()
}

/// True if the event is no tick that has left its CPU idle while a task waits.
fn is_not_idle(sim: &Sim, event: Event) -> bool
    ensures { result ≡ true → IsIdleBehind sim.now event None }
{
    match idle_in(sim, event) {
        Some(_) => false,
        None => true,
    }
}
