//! Two tasks that take turns, among events that are refused.

use super::steps::{Step, go};
use crate::policies::{TWO_MILLISECONDS, policy, tree};
use crate::recorder::Recorder;
use crate::session::Session;
use scx_load_driver::run_events;
use scx_sched::{Event, Place};
use std::process::Abort;

const TURNS: &str = "0 Wake(0)
0 Insert(0, 0)
0 Move(0, 0)
0 Run(0, 0)
0 Wake(1)
0 Insert(1, 0)
1 Move(1, 0)
1 Stop(0, 0)
1 Insert(0, 0)
1 Run(1, 0)
3 Move(0, 0)
3 Stop(1, 0)
3 Insert(1, 0)
3 Run(0, 0)
";

const HAVE_TAKEN_TURNS: [Step; 4] = [
    Step::Noted(TURNS),
    Step::At(&[(0, Place::Cpu(0)), (1, Place::Policy(0))]),
    Step::Clock(4),
    Step::Events(10),
];

/// Two tasks on a machine that is given the list at once.
fn at_once<R: AllocGlobal + Abort>(rt: &R, events: &[Event]) -> Session {
    let mut recorder = Recorder::new(rt.alloc(), 100);
    let policy = policy(rt, TWO_MILLISECONDS);
    let sim = run_events(
        rt.alloc(),
        policy,
        tree(rt, &[0, 0]),
        1,
        events,
        &mut recorder,
    );
    Session {
        sim: sim.expect(rt, "init answers 0"),
        recorder,
    }
}

/// The events of both tasks, with refused ones between them.
const WITH_REFUSED: [Event; 15] = [
    Event::Sleep(0),
    Event::Wake(0),
    Event::Wake(0),
    Event::Wake(1),
    Event::Tick(0),
    Event::Tick(1),
    Event::Clock,
    Event::Tick(0),
    Event::Clock,
    Event::SetWeight(0, 0),
    Event::Tick(0),
    Event::Clock,
    Event::Tick(0),
    Event::Clock,
    Event::Wake(2),
];

#[test]
fn refused_events_are_passed_over(rt: HostRuntime) {
    let mut session = at_once(&rt, &WITH_REFUSED);
    go(&rt, &mut session, &HAVE_TAKEN_TURNS);
    drop(session);
}
