ghost use Rattle.std.specs.Prelude.{◌≡◌, ◌∷◌, ◌++◌, [], true, None};
ghost use Rattle.scx_sched.specs.Sim.{refusal, calls_of, after_event};
ghost use Rattle.scx_load_driver.specs.Runs.{stepped_all};
ghost use Rattle.scx_explore_findings.specs.Path.{IsAs};
ghost use Rattle.scx_explore_findings.specs.declared.outcome.Outcome.TheVariants.{InForce};
ghost use Rattle.scx_explore_findings.specs.Running.{IsRunAmong};
ghost use Rattle.scx_explore_findings.specs.Findings.{Shows, EndsInFault, EndsInStall, EndsInExit, EndsIdle, IsTwice, EndsWaiting, EndsTaking, IsFaultAtEnd, IsStallAtEnd, IsExitAtEnd, AreTogether, IsLast};

use crate::checks::is_left;
use crate::count::Count;
use crate::finding::{Finding, Pair};
use crate::tally::Tally;
use crate::{Outcome, replay};
use scx_isa::Callback;
use scx_sched::{Eject, Event, Fault, Sim, Unseen};

/// True if a machine whose policy is in force accepts the list of events, and it ends in that finding.
/// The tasks' groups are those of the list.
#[tactic(auto, using(crate::proofs::Ending::overtaken_at_end, crate::proofs::SamePolicy::as_itself))]
pub fn shows(sim: &mut Sim, homes: &[u32], events: &[Event], finding: Finding) -> bool
    requires { sim.old.state.world.ejected ≡ None }
    ensures shown { result ≡ true → Shows homes.now sim.old events.now finding }
    ensures there { result ≡ true → sim.new ≡ stepped_all sim.old events.now }
    ensures alike { IsAs sim.old sim.new }
{
    match finding {
        Finding::Fault(fault) => ends_in_fault(sim, events, fault),
        Finding::Stall(task) => ends_in_stall(sim, events, task),
        Finding::Exit(code) => ends_in_exit(sim, events, code),
        Finding::Idle { cpu, task } => ends_idle(sim, events, cpu, task),
        Finding::Overtaken(pair) => {
            are_together(homes, pair) && ends_overtaken(sim, events, pair)
        }
        Finding::Waits { task, ms } => ends_waiting(sim, events, task, ms),
        Finding::Takes {
            callback,
            instructions,
        } => ends_taking(sim, events, callback, instructions),
    }
}

#[tactic(auto, using(crate::proofs::Ending::fault_at_end, crate::proofs::Ending::fault_there))]
fn ends_in_fault(sim: &mut Sim, events: &[Event], fault: Fault) -> bool
    requires { sim.old.state.world.ejected ≡ None }
    ensures shown { result ≡ true → EndsInFault sim.old events.now fault }
    ensures there { result ≡ true → sim.new ≡ stepped_all sim.old events.now }
    ensures alike { IsAs sim.old sim.new }
{
    let outcome = replay(sim, events, &mut Unseen);
    is_fault_at_end(outcome, events.len(), fault)
}

#[tactic(auto, using(crate::proofs::Ending::stall_at_end, crate::proofs::Ending::stall_there))]
fn ends_in_stall(sim: &mut Sim, events: &[Event], task: u16) -> bool
    requires { sim.old.state.world.ejected ≡ None }
    ensures shown { result ≡ true → EndsInStall sim.old events.now task }
    ensures there { result ≡ true → sim.new ≡ stepped_all sim.old events.now }
    ensures alike { IsAs sim.old sim.new }
{
    let outcome = replay(sim, events, &mut Unseen);
    is_stall_at_end(outcome, events.len(), task)
}

#[tactic(auto, using(crate::proofs::Ending::exit_at_end, crate::proofs::Ending::exit_there))]
fn ends_in_exit(sim: &mut Sim, events: &[Event], code: i64) -> bool
    requires { sim.old.state.world.ejected ≡ None }
    ensures shown { result ≡ true → EndsInExit sim.old events.now code }
    ensures there { result ≡ true → sim.new ≡ stepped_all sim.old events.now }
    ensures alike { IsAs sim.old sim.new }
{
    let outcome = replay(sim, events, &mut Unseen);
    is_exit_at_end(outcome, events.len(), code)
}

#[tactic(auto, using(crate::proofs::Ending::idle_at_end, crate::proofs::Ending::all_done))]
fn ends_idle(sim: &mut Sim, events: &[Event], cpu: u32, task: u16) -> bool
    requires { sim.old.state.world.ejected ≡ None }
    ensures shown { result ≡ true → EndsIdle sim.old events.now cpu task }
    ensures there { result ≡ true → sim.new ≡ stepped_all sim.old events.now }
    ensures alike { IsAs sim.old sim.new }
{
    let outcome = replay(sim, events, &mut Unseen);
    is_in_force(outcome)
        && is_last(events, Event::Tick(cpu))
        && sim.runner(cpu).is_none()
        && is_left(sim, cpu, task)
}

#[tactic(auto, using(crate::proofs::Ending::twice_at_end, crate::proofs::Ending::all_done))]
fn ends_overtaken(sim: &mut Sim, events: &[Event], pair: Pair) -> bool
    requires { sim.old.state.world.ejected ≡ None }
    ensures shown { result ≡ true → IsTwice sim.old events.now pair }
    ensures there { result ≡ true → sim.new ≡ stepped_all sim.old events.now }
    ensures alike { IsAs sim.old sim.new }
{
    let mut count = Count::of(pair);
    let outcome = replay(sim, events, &mut count);
    is_in_force(outcome) && count.is_twice()
}

#[tactic(auto, using(crate::proofs::Ending::waiting_at_end, crate::proofs::Ending::all_done))]
fn ends_waiting(sim: &mut Sim, events: &[Event], task: u16, ms: u64) -> bool
    requires { sim.old.state.world.ejected ≡ None }
    ensures shown { result ≡ true → EndsWaiting sim.old events.now task ms }
    ensures there { result ≡ true → sim.new ≡ stepped_all sim.old events.now }
    ensures alike { IsAs sim.old sim.new }
{
    let outcome = replay(sim, events, &mut Unseen);
    is_in_force(outcome) && sim.world().waits(task) && sim.world().wait(task) == ms
}

#[tactic(auto, using(crate::proofs::Ending::taking_of_list, crate::proofs::Ending::there_of_list, crate::proofs::SamePolicy::as_itself))]
fn ends_taking(sim: &mut Sim, events: &[Event], callback: Callback, instructions: u64) -> bool
    requires { sim.old.state.world.ejected ≡ None }
    ensures shown { result ≡ true → EndsTaking sim.old events.now callback instructions }
    ensures there { result ≡ true → sim.new ≡ stepped_all sim.old events.now }
    ensures alike { IsAs sim.old sim.new }
{
    let count = events.len();
    if count == 0 {
        return false;
    }
    let (before, _last) = events.split_at(count - 1);
    ends_taking_in(sim, before, events[count - 1], callback, instructions)
}

/// True if `before` and the event, as a list, end in a run of that callback with that many instructions.
#[tactic(auto, using(crate::proofs::Ending::taking_at_end, crate::proofs::SamePolicy::as_another))]
fn ends_taking_in(
    sim: &mut Sim,
    before: &[Event],
    event: Event,
    callback: Callback,
    instructions: u64,
) -> bool
    requires { sim.old.state.world.ejected ≡ None }
    ensures shown { result ≡ true
        → EndsTaking sim.old (before.now ++ event ∷ []) callback instructions }
    ensures there { result ≡ true → sim.new ≡ stepped_all sim.old (before.now ++ event ∷ []) }
    ensures alike { IsAs sim.old sim.new }
{
    let outcome = replay(sim, before, &mut Unseen);
    is_in_force(outcome) && takes(sim, event, callback, instructions)
}

/// True if the machine accepts the event, and a run of that callback in it takes that many instructions.
#[tactic(auto, using(crate::proofs::SamePolicy::as_stepped))]
fn takes(sim: &mut Sim, event: Event, callback: Callback, instructions: u64) -> bool
    ensures accepted { result ≡ true → refusal sim.old event ≡ None }
    ensures called { result ≡ true
        → IsRunAmong (calls_of sim.old event) callback instructions }
    ensures state { sim.new ≡ after_event sim.old event }
    ensures alike { IsAs sim.old sim.new }
{
    let mut tally = Tally::of(callback, instructions);
    let answer = sim.step_heard(event, &mut tally);
    answer.is_ok() && tally.has_run
}

fn is_in_force(outcome: Outcome) -> bool
    ensures { result ≡ true → outcome ≡ InForce }
{
    match outcome {
        Outcome::InForce => true,
        Outcome::Ejected(_, _) | Outcome::Refused(_, _) => false,
    }
}

/// True if it is an ejection for that fault by the last of `count` events.
fn is_fault_at_end(outcome: Outcome, count: usize, fault: Fault) -> bool
    ensures { result ≡ true → IsFaultAtEnd outcome count fault }
{
    match outcome {
        Outcome::Ejected(at, Eject::Fault(other, _)) => other == fault
            && at < count
            && at + 1 == count,
        Outcome::Ejected(_, Eject::Stall(_, _)) => false,
        Outcome::Ejected(_, Eject::Exit(_, _)) => false,
        Outcome::InForce | Outcome::Refused(_, _) => false,
    }
}

/// True if it is an ejection by the last of `count` events, because that task waited too long.
fn is_stall_at_end(outcome: Outcome, count: usize, task: u16) -> bool
    ensures { result ≡ true → IsStallAtEnd outcome count task }
{
    match outcome {
        Outcome::Ejected(at, Eject::Stall(other, _)) => other == task
            && at < count
            && at + 1 == count,
        Outcome::Ejected(_, Eject::Fault(_, _)) => false,
        Outcome::Ejected(_, Eject::Exit(_, _)) => false,
        Outcome::InForce | Outcome::Refused(_, _) => false,
    }
}

/// True if it is an ejection by the last of `count` events, in which a callback ended the policy with that code.
fn is_exit_at_end(outcome: Outcome, count: usize, code: i64) -> bool
    ensures { result ≡ true → IsExitAtEnd outcome count code }
{
    match outcome {
        Outcome::Ejected(at, Eject::Exit(other, _)) => other == code
            && at < count
            && at + 1 == count,
        Outcome::Ejected(_, Eject::Fault(_, _)) => false,
        Outcome::Ejected(_, Eject::Stall(_, _)) => false,
        Outcome::InForce | Outcome::Refused(_, _) => false,
    }
}

/// True if both tasks are of one group.
fn are_together(homes: &[u32], pair: Pair) -> bool
    ensures { result ≡ true → AreTogether homes.now pair }
{
    let (waits, runs) = (usize::from(pair.waits), usize::from(pair.runs));
    if waits < homes.len() && runs < homes.len() {
        homes[waits] == homes[runs]
    } else {
        false
    }
}

/// True if the list ends with that event.
#[tactic(auto, using(crate::proofs::Ending::last_is))]
fn is_last(events: &[Event], event: Event) -> bool
    ensures { result ≡ true → IsLast events.now event }
{
    let count = events.len();
    if count == 0 {
        return false;
    }
    events[count - 1] == event
}
