ghost use Rattle.std.specs.Prelude.{◌≡◌, false, Some, None, IfOk, IfSome};
ghost use Rattle.scx_load_driver.specs.Events.{workload_events};
ghost use Rattle.scx_load_policies.specs.Building.{IsBuilt};
ghost use Rattle.scx_load_replay.specs.Scenarios.{workload_of, scenario_events};
ghost use Rattle.scx_load_workloads.specs.Workload.{first_tree};
ghost use Rattle.scx_sched.specs.Sim.{after_event};
ghost use Rattle.scxsim_faults.specs.Finding.{is_init_failed, IsUnderAny};
ghost use Rattle.scxsim_faults.specs.Places.{IsPlaceAt, IsPlaceIn, IsPlaceUnder, IsPolicyOf, IsPlaceFound};

use crate::finder::Finder;
use crate::place::FaultPlace;
use scx_load_driver::{Driver, Events, give_back_machine, give_back_policy};
use scx_load_files::LoadError;
use scx_load_policies::{BuildError, PolicyText, build_seeded, read_policy};
use scx_load_replay::Scenario;
use scx_load_workloads::Workload;
use scx_sched::{Event, MAX_EVENTS, NewError, Policy, Sim, Unseen};
use scx_weights::Tree;
use std::alloc::{AllocError, Global};

/// Finds the first fault or exit of the callback for which a policy was ejected at that clock, in the run of a
/// scenario, or the first one in init or enable. None if there was none, or the policy's text is refused.
///
/// # Errors
///
/// Memory runs out.
pub fn find_fault(
    alloc: Global,
    policy: &str,
    scenario: &Scenario,
    clock: u64,
) -> Result<Option<FaultPlace>, AllocError>
    ensures { IfOk result (λ found. IfSome found (IsPlaceFound policy.now scenario.now)) }
{
    let policy = policy_of(alloc, policy, scenario.workload().seed())?;
    find_under_any(alloc, policy, scenario, clock)
}

/// The place of the fault or exit in the run under that policy, if there is one.
fn find_under_any(
    alloc: Global,
    policy: Option<Policy>,
    scenario: &Scenario,
    clock: u64,
) -> Result<Option<FaultPlace>, AllocError>
    ensures { IfOk result (λ found. IfSome found (IsUnderAny policy scenario.now)) }
{
    match policy {
        Some(policy) => find_under(alloc, policy, scenario, clock),
        None => Ok(None),
    }
}

/// Reads and verifies a policy file, whose random numbers begin at that seed; none if it is refused.
///
/// # Errors
///
/// Memory runs out.
pub fn policy_of(alloc: Global, text: &str, seed: u64) -> Result<Option<Policy>, AllocError>
    ensures { IfOk result (λ policy. IfSome policy (IsPolicyOf text.now seed)) }
{
    match read_policy(alloc, text) {
        Ok(text) => built(alloc, text, seed),
        Err(LoadError::NoMemory) => Err(AllocError),
        Err(_) => Ok(None),
    }
}

/// The policy of a file that was read, whose random numbers begin at that seed; none if a program of it is
/// refused.
fn built(alloc: Global, text: PolicyText, seed: u64) -> Result<Option<Policy>, AllocError>
    ensures built { IfOk result (λ policy. IfSome policy (IsBuilt text)) }
    ensures seeded { IfOk result (λ policy. IfSome policy (λ p. p.seed ≡ seed)) }
{
    match build_seeded(alloc, text, seed) {
        Ok(policy) => Ok(Some(policy)),
        Err(BuildError::NoMemory) => Err(AllocError),
        Err(BuildError::Refused { .. }) => Ok(None),
    }
}

/// The place of the fault or exit in the run under that policy.
fn find_under(
    alloc: Global,
    policy: Policy,
    scenario: &Scenario,
    clock: u64,
) -> Result<Option<FaultPlace>, AllocError>
    ensures { IfOk result (λ found. IfSome found (IsPlaceUnder policy scenario.now)) }
{
    match scenario.workload().tree(alloc) {
        Ok(tree) => find_with(alloc, policy, tree, scenario, clock),
        Err(_) => {
            give_back_policy(policy);
            Err(AllocError)
        }
    }
}

/// The place of the fault or exit in the run of these groups and tasks.
fn find_with(
    alloc: Global,
    policy: Policy,
    tree: Tree,
    scenario: &Scenario,
    clock: u64,
) -> Result<Option<FaultPlace>, AllocError>
    requires { tree ≡ first_tree (workload_of scenario.now) }
    ensures { IfOk result (λ found. IfSome found (IsPlaceUnder policy scenario.now)) }
{
    let mut finder = Finder::new();
    match Sim::new_seen(alloc, policy, tree, scenario.workload().cpus(), &mut finder) {
        Ok(mut sim) => {
            let found = find_in_scenario(alloc, scenario, &mut sim, clock);
            give_back_machine(sim);
            found
        }
        Err(error) => not_begun(error, finder.found()),
    }
}

/// The place of the fault or exit in the run of a scenario that begins with that machine.
fn find_in_scenario(
    alloc: Global,
    scenario: &Scenario,
    sim: &mut Sim,
    clock: u64,
) -> Result<Option<FaultPlace>, AllocError>
    ensures { IfOk result (λ found.
        IfSome found (IsPlaceIn sim.old (scenario_events scenario.now sim.old))) }
{
    let mut events = scenario.events(alloc)?;
    let found = find_fault_among(&mut events, sim, clock);
    drop(events);
    Ok(found)
}

/// The place of the fault or exit in init or enable, if one of them failed: what was found.
fn not_begun(error: NewError, found: Option<FaultPlace>) -> Result<Option<FaultPlace>, AllocError>
    ensures none { is_init_failed error ≡ false → IfOk result (λ place. place ≡ None) }
    ensures kept { IfOk result (λ place. IfSome place (λ p. found ≡ Some p)) }
{
    match error {
        NewError::InitFailed(_) => Ok(found),
        NewError::OutOfMemory => Err(AllocError),
        NewError::BadShape => Ok(None),
    }
}

/// `find_fault` in the run of a workload that begins with that machine. None if the policy is ejected already.
///
/// # Errors
///
/// Memory runs out.
pub fn find_fault_in(
    alloc: Global,
    workload: &Workload,
    sim: &mut Sim,
    clock: u64,
) -> Result<Option<FaultPlace>, AllocError>
    ensures { IfOk result (λ found.
        IfSome found (IsPlaceIn sim.old (workload_events workload.now sim.old))) }
{
    let mut driver = Driver::new(alloc, workload)?;
    let found = find_fault_among(&mut driver, sim, clock);
    drop(driver);
    Ok(found)
}

/// `find_fault` in the run of these events that begins with that machine. None if the policy is ejected already.
pub fn find_fault_among<E: Events>(events: &mut E, sim: &mut Sim, clock: u64) -> Option<FaultPlace>
    ensures { IfSome result (IsPlaceIn sim.old (E.remaining events.old sim.old)) }
{
    if sim.ejected().is_some() {
        return None;
    }
    go_through(events, sim, clock)
}

/// Gives the machine the remaining events, up to the ejection.
fn go_through<E: Events>(events: &mut E, sim: &mut Sim, clock: u64) -> Option<FaultPlace>
    requires { sim.old.state.world.ejected ≡ None }
    ensures { IfSome result (IsPlaceIn sim.old (E.remaining events.old sim.old)) }
{
    for _ in 0..MAX_EVENTS {
        let Some(event) = events.next(sim) else {
            return None;
        };
        let found = step(sim, event, clock);
        if sim.ejected().is_some() {
            return found;
        }
    }
    None
}

/// Gives the machine one event, and returns the place of the fault or exit if it ejects the policy. An event of the
/// clock ends at the next millisecond, so callbacks are heard from a millisecond before that clock on.
fn step(sim: &mut Sim, event: Event, clock: u64) -> Option<FaultPlace>
    requires { sim.old.state.world.ejected ≡ None }
    ensures state { sim.new ≡ after_event sim.old event }
    ensures place { IfSome result (IsPlaceAt sim.old event) }
{
    if sim.clock().saturating_add(1) < clock {
        let _ = sim.step(event, &mut Unseen);
        None
    } else {
        hear(sim, event)
    }
}

/// Gives the machine one event, and hears its callbacks.
fn hear(sim: &mut Sim, event: Event) -> Option<FaultPlace>
    requires { sim.old.state.world.ejected ≡ None }
    ensures state { sim.new ≡ after_event sim.old event }
    ensures place { IfSome result (IsPlaceAt sim.old event) }
{
    let mut finder = Finder::new();
    let _ = sim.step_heard(event, &mut finder);
    match sim.ejected() {
        Some(why) => finder.found_for(why),
        None => None,
    }
}
