ghost use Rattle.std.specs.Prelude.{◌≡◌, true, None};
ghost use Rattle.scx_sched.specs.Sim.{refusal};
ghost use Rattle.scx_explore_findings.specs.Path.{machine_of};
ghost use Rattle.scx_explore_audit.specs.Steps.{Comes, IsSeen};

use crate::sorts::are_free;
use crate::table::Hand;
use crate::walking::has_room;
use scx_explore_findings::{Path, Sort};
use scx_sched::{Event, Sim};

/// The outcome of an event.
#[derive(Clone, Copy)]
pub(crate) enum Went {
    /// It is accepted and shows nothing, and the policy stays in force.
    There,
    /// It is refused, or it shows nothing and the policy is ejected.
    Over,
    /// It shows something, or there is no machine for it.
    Shows,
}

/// Goes on by the event. The list stays as it was if no list goes on after it.
pub(crate) fn go_along(sorts: &[Sort], event: Event, path: &mut Path, hand: &mut Hand) -> Went
    ensures { Comes result sorts.now event path.old path.new }
{
    if !has_room(path) {
        return Went::Shows;
    }
    if is_refused(path, event) {
        return Went::Over;
    }
    let length = path.events().len();
    match path.go_on(event, &mut hand.heard) {
        Ok(()) => match seen_behind(sorts, path.sim(), event) {
            Went::There => Went::There,
            Went::Over => {
                path.go_back(length);
                Went::Over
            }
            Went::Shows => {
                path.go_back(length);
                Went::Shows
            }
        },
        Err(_) => Went::Over,
    }
}

/// The outcome of an event that has led to the state of that machine.
fn seen_behind(sorts: &[Sort], sim: &Sim, event: Event) -> Went
    ensures { IsSeen result sorts.now sim.now event }
{
    if !are_free(sorts, sim, event) {
        return Went::Shows;
    }
    if sim.ejected().is_some() {
        Went::Over
    } else {
        Went::There
    }
}

/// True if it is a wake of a task that doesn't sleep, or a sleep of one that does.
fn is_refused(path: &Path, event: Event) -> bool
    ensures { result ≡ true → refusal (machine_of path.now) event ≡ None → ⊥ }
{
    let sim = path.sim();
    match event {
        Event::Wake(task) => sim.is_runnable(task),
        Event::Sleep(task) => !sim.is_runnable(task),
        Event::Tick(_) | Event::Clock | Event::SetWeight(_, _) | Event::SetTaskWeight(_, _) =>
            false,
    }
}
