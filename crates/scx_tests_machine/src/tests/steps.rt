//! Lists of acts on a machine and looks at it.

use crate::same::expect_same;
use crate::session::Session;
use scx_sched::{Event, Place, Refused};
use std::process::Abort;

/// An act on a machine, or a look at it.
#[derive(Clone, Copy)]
pub(crate) enum Step {
    /// Each event is accepted.
    Run(&'static [Event]),
    /// Each event is refused so, and nothing is noted and counted.
    Refuse(&'static [(Event, Refused)]),
    /// The notes are these, a line each.
    Noted(&'static str),
    /// The tasks are at these places.
    At(&'static [(u16, Place)]),
    Clock(u64),
    /// The number of events that were accepted.
    Events(u64),
}

fn act(rt: &impl Abort, session: &mut Session, step: Step) {
    match step {
        Step::Run(events) => session.run(rt, events),
        Step::Refuse(rows) => session.refuse(rt, rows),
        _ => {}
    }
}

fn look(rt: &impl Abort, session: &Session, step: Step) {
    match step {
        Step::Noted(wanted) => session.noted(rt, wanted),
        Step::At(places) => session.are_at(rt, places),
        Step::Clock(wanted) => expect_same(rt, session.sim.clock(), wanted, "clock"),
        Step::Events(wanted) => expect_same(rt, session.sim.events(), wanted, "events"),
        _ => {}
    }
}

/// Takes the machine through the steps. Each is for one of the two.
pub(crate) fn go(rt: &impl Abort, session: &mut Session, steps: &[Step]) {
    for &step in steps {
        act(rt, session, step);
        look(rt, session, step);
    }
}
