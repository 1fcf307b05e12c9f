ghost use Rattle.std.specs.Prelude.{◌≡◌, take, None};
ghost use Rattle.scx_sched_machine.specs.Notes.{Takes};
ghost use Rattle.scx_sched.specs.Sim.{refusal, after_event, notes_of};
ghost use Rattle.scx_load_driver.specs.Runs.{notes_of_all};
ghost use Rattle.scx_explore_findings.specs.Path.{IsAs};
ghost use Rattle.scx_explore_findings.specs.Outcomes.{end_of, outcome_of, done_of, after_first, Happens};

use scx_sched::{Eject, Event, Refused, Sim, Sink};

/// The outcome of a list of events. Events count from 0.
#[derive(Clone, Copy, Debug, PartialEq, Eq)]
pub enum Outcome {
    /// Each is accepted, and the policy stays in force.
    InForce,
    /// The policy is ejected at that event, the first one at which it is.
    Ejected(usize, Eject),
    /// The first event that is refused, while the policy is in force.
    Refused(usize, Refused),
}

/// Gives the events to the machine, one after another, until the policy is ejected or one is refused.
pub fn replay<S: Sink>(sim: &mut Sim, events: &[Event], sink: &mut S) -> Outcome
    requires { sim.old.state.world.ejected ≡ None }
    ensures answer { result ≡ outcome_of sim.old events.now }
    ensures happens { Happens sim.old events.now result }
    ensures state { sim.new ≡ after_first sim.old events.now (done_of result events.now) }
    ensures notes { Takes S.takes sink.old
        (notes_of_all sim.old (take (done_of result events.now) events.now)) sink.new }
    ensures alike { IsAs sim.old sim.new }
{
    for at in 0..events.len() {
        if let Some(outcome) = step_to_end(sim, at, events[at], sink) {
            return outcome;
        }
    }
    Outcome::InForce
}

/// Gives the event of that number to the machine. Answers what comes of the list, if it ends there.
fn step_to_end<S: Sink>(sim: &mut Sim, at: usize, event: Event, sink: &mut S) -> Option<Outcome>
    ensures answer { result ≡ end_of (refusal sim.old event)
        (after_event sim.old event).state.world.ejected at }
    ensures state { sim.new ≡ after_event sim.old event }
    ensures notes { Takes S.takes sink.old (notes_of sim.old event) sink.new }
    ensures alike { IsAs sim.old sim.new }
{
    match sim.step(event, sink) {
        Ok(()) => ejected_at(sim, at),
        Err(refused) => Some(Outcome::Refused(at, refused)),
    }
}

/// The outcome of a list whose event of that number led to the machine, if it ends there.
fn ejected_at(sim: &Sim, at: usize) -> Option<Outcome>
    ensures { result ≡ end_of None sim.now.state.world.ejected at }
{
    match sim.ejected() {
        Some(eject) => Some(Outcome::Ejected(at, eject)),
        None => None,
    }
}
