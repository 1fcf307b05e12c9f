ghost use Rattle.std.specs.Prelude.{◌≡◌, ℕ, ◌≤◌, false, None, IfOk, IfErr, OnOk, OnErr};
ghost use Rattle.std.specs.List.{AllByRecursion};
ghost use Rattle.scx_sched_machine.specs.Notes.{Takes};
ghost use Rattle.scx_sched_machine.specs.Callbacks.{AreAnswered};
ghost use Rattle.scx_sched_policy.specs.Policy.{IsTimeout, AreAs};
ghost use Rattle.scx_sched_machine.specs.Start.{is_bad_shape, IsRefusal, AreAnsweredBefore};
ghost use Rattle.scx_sched.specs.Once.{IsOnce};
ghost use Rattle.scx_sched.specs.Usages.{AreBounded};
ghost use Rattle.scx_sched.specs.Waits.{IsTimely, HasWaits};
ghost use Rattle.scx_load_driver.specs.Runs.{stepped_all, notes_of_all};
ghost use Rattle.scx_load_driver.specs.Headline.{states_from, calls_of_all, machine_run, IsRecorded, NoneIsStuck, EachIsOnce, EachWaitIsCounted, NoneIsLate, EachUsageIsBounded, EachFollows};

use scx_sched::{Event, NewError, Policy, Sim, Sink};
use scx_weights::Tree;
use std::alloc::Global;

/// Makes the machine of a policy, with these groups and tasks and `cpus` processors, and gives it the
/// events, one after another. One that it refuses changes nothing, and the next one follows.
///
/// A `Policy` has programs that `verify` accepted for its callbacks and its maps, and a limit of 1 to 30000
/// milliseconds.
///
/// # Errors
///
/// Those of `Sim::new`: the shape is bad, memory runs out, or init or enable fails. Then no event is given
/// to any machine.
pub fn run_events<S: Sink>(
    alloc: Global,
    policy: Policy,
    tree: Tree,
    cpus: u32,
    events: &[Event],
    sink: &mut S,
) -> Result<Sim, NewError>
    // The recorded run is the machine's;
    ensures recorded { IfOk result (λ sim. IsRecorded S.takes
        (machine_run policy tree cpus events.now) sink.old sim sink.new) }
    // in it no callback is ever stuck or takes more steps than it has instructions,
    ensures never_stuck { OnOk result (NoneIsStuck (machine_run policy tree cpus events.now)) }
    // every runnable task appears exactly once on a processor or in a queue,
    ensures once { OnOk result (EachIsOnce (machine_run policy tree cpus events.now)) }
    // and while the policy is in force no task has waited longer than its limit.
    ensures counted { OnOk result (EachWaitIsCounted (machine_run policy tree cpus events.now)) }
    ensures timely { OnOk result
        (NoneIsLate policy.timeout_ms (machine_run policy tree cpus events.now)) }
    // In no period does a group with a quota use as much as its quota and one millisecond for each
    // processor.
    ensures bounded { OnOk result (EachUsageIsBounded (machine_run policy tree cpus events.now)) }
    // Each event does what it alone decides, and a callback with a fault is the end of the policy. No policy is
    // out of force for one that was stuck, and whoever is in a queue is in one that is there.
    ensures follows { OnOk result
        (EachFollows events.now (machine_run policy tree cpus events.now).states) }

    // A machine is made of a good shape, its limit is one of 1 to 30,000 ms, and each program was verified as
    // the callback that it is.
    ensures shape { OnOk result (is_bad_shape tree cpus ≡ false) }
    ensures limit { OnOk result (IsTimeout policy.timeout_ms) }
    ensures programs { OnOk result (AreAs policy.callbacks) }
    // Where no machine is made there is a cause, and no note. Its callbacks aren't stuck either.
    ensures refused { IfErr result (IsRefusal policy tree cpus) }
    ensures quiet { OnErr result (sink.new ≡ sink.old) }
    ensures answered_before { IfErr result (AreAnsweredBefore policy tree cpus) }
{
    let mut sim = Sim::new(alloc, policy, tree, cpus)?;
    go_through(&mut sim, events, sink);
    Ok(sim)
}

/// Gives the events to the machine, one after another.
fn go_through<S: Sink>(sim: &mut Sim, events: &[Event], sink: &mut S)
    ensures state { sim.new ≡ stepped_all sim.old events.now }
    ensures notes { Takes S.takes sink.old (notes_of_all sim.old events.now) sink.new }
    ensures answered { AreAnswered (calls_of_all sim.old events.now) }
    ensures once { AllByRecursion (λ s. IsOnce None s.state.world)
        (states_from sim.old events.now) }
    ensures counted { AllByRecursion (λ s. HasWaits None s.state.world)
        (states_from sim.old events.now) }
    ensures timely { AllByRecursion (λ s. IsTimely s.state) (states_from sim.old events.now) }
    ensures bounded { AllByRecursion (λ s. AreBounded s.state.world)
        (states_from sim.old events.now) }
    ensures follows { EachFollows events.now (states_from sim.old events.now) }
{
    sim.is_sound();
    for event in events {
        let _ = sim.step(*event, sink);
        sim.is_sound();
    }
}
