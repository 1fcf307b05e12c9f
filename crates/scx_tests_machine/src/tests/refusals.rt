//! Policies, machines and events that are refused, and lists with refused events.

use super::steps::{Step, go};
use crate::policies::{SHORT_SLICES, callbacks, defs, policy, program, tree};
use crate::same::expect_same;
use crate::session::Session;
use scx_isa::Callback;
use scx_maps::MapDefs;
use scx_sched::{BadPolicy, Callbacks, Event, NewError, Policy, Refused, Sim};
use scx_weights::Tree;
use std::process::Abort;

fn expect_timeout(rt: &impl Abort, timeout_ms: u32, wanted: Option<BadPolicy>) {
    let found = Policy::new(defs(rt), timeout_ms, Callbacks::none()).err();
    expect_same(rt, found, wanted, timeout_ms);
}

#[test]
fn bad_timeouts_are_refused(rt: HostRuntime) {
    expect_timeout(&rt, 0, Some(BadPolicy::BadTimeout));
    expect_timeout(&rt, 30_001, Some(BadPolicy::BadTimeout));
    expect_timeout(&rt, 1, None);
    expect_timeout(&rt, 30_000, None);
}

#[test]
fn a_program_of_another_callback_is_refused(rt: HostRuntime) {
    let mut misplaced = Callbacks::none();
    misplaced.set(
        Callback::Dispatch,
        Some(program(&rt, Callback::Enqueue, SHORT_SLICES)),
    );
    let found = Policy::new(defs(&rt), 1, misplaced).err();
    expect_same(
        &rt,
        found,
        Some(BadPolicy::OtherCallback),
        "another callback",
    );
}

#[test]
fn a_program_of_other_maps_is_refused(rt: HostRuntime) {
    let callbacks = callbacks(&rt, &[(Callback::Enqueue, SHORT_SLICES)]);
    let others = MapDefs::new(&[]).expect(&rt, "no map at all is fine");
    let found = Policy::new(others, 1, callbacks).err();
    expect_same(&rt, found, Some(BadPolicy::OtherMaps), "other maps");
}

fn bad_machine<R: AllocGlobal + Abort>(rt: &R, tree: Tree, cpus: u32) -> Option<NewError> {
    Sim::new(rt.alloc(), policy(rt, &[]), tree, cpus).err()
}

fn expect_cpus<R: AllocGlobal + Abort>(rt: &R, cpus: u32, wanted: Option<NewError>) {
    expect_same(rt, bad_machine(rt, tree(rt, &[0]), cpus), wanted, cpus);
}

#[test]
fn processors_are_limited(rt: HostRuntime) {
    expect_cpus(&rt, 0, Some(NewError::BadShape));
    expect_cpus(&rt, 65, Some(NewError::BadShape));
    expect_cpus(&rt, 64, None);
}

#[test]
fn a_tree_with_an_active_task_is_refused(rt: HostRuntime) {
    let mut active = tree(&rt, &[0]);
    let known = active.tasks() > 0;
    assert!(rt; known);
    active.activate(0);
    let found = bad_machine(&rt, active, 1);
    expect_same(&rt, found, Some(NewError::BadShape), "an active task");
}

/// Events that a machine of two tasks and one CPU refuses, and one that it accepts.
const REFUSES: [Step; 2] = [
    Step::Refuse(&[
        (Event::Wake(2), Refused::UnknownTask),
        (Event::Sleep(2), Refused::UnknownTask),
        (Event::Sleep(0), Refused::NotRunnable),
        (Event::Tick(1), Refused::UnknownCpu),
        (Event::SetWeight(1, 0), Refused::UnknownGroup),
        (Event::SetWeight(0, 0), Refused::BadWeight),
        (Event::SetWeight(0, 10_001), Refused::BadWeight),
        (Event::SetTaskWeight(2, 0), Refused::UnknownTask),
        (Event::SetTaskWeight(1, 0), Refused::BadWeight),
        (Event::SetTaskWeight(1, 10_001), Refused::BadWeight),
    ]),
    Step::Run(&[Event::SetWeight(0, 10_000), Event::SetTaskWeight(1, 10_000)]),
];

#[test]
fn events_are_refused(rt: HostRuntime) {
    let mut session = Session::taking_turns(&rt, 100);
    go(&rt, &mut session, &REFUSES);
    drop(session);
}

/// 9223372036854775811 is HELD, and 9223372036854775812 is BUILTIN.
const HELD: &str = "0 Wake(0)
0 Insert(0, 9223372036854775811)
0 Wake(1)
0 Insert(1, 9223372036854775811)
6 Stall(0)
6 Insert(0, 9223372036854775812)
6 Insert(1, 9223372036854775812)
6 Move(0, 0)
6 Run(0, 0)
26 Move(1, 0)
26 Stop(0, 0)
26 Insert(0, 9223372036854775812)
26 Run(1, 0)
";

/// Both tasks wake, and 27 milliseconds go by.
const EVENTS: usize = 56;

fn event_of(number: usize) -> Event {
    match number {
        0 => Event::Wake(0),
        1 => Event::Wake(1),
        _ if number % 2 == 0 => Event::Tick(0),
        _ => Event::Clock,
    }
}

/// Events that are refused, and the range of places in the list where they are.
const REFUSALS: [(Event, Refused, usize, usize); 12] = [
    (Event::Wake(0), Refused::AlreadyRunnable, 1, 57),
    (Event::Wake(1), Refused::AlreadyRunnable, 2, 57),
    (Event::Sleep(0), Refused::NotRunnable, 0, 1),
    (Event::Sleep(1), Refused::NotRunnable, 0, 2),
    (Event::Wake(2), Refused::UnknownTask, 0, 57),
    (Event::Sleep(u16::MAX), Refused::UnknownTask, 0, 57),
    (Event::Tick(1), Refused::UnknownCpu, 0, 57),
    (Event::SetWeight(1, 0), Refused::UnknownGroup, 0, 57),
    (Event::SetWeight(0, 0), Refused::BadWeight, 0, 57),
    (Event::SetWeight(0, 10_001), Refused::BadWeight, 0, 57),
    (Event::SetTaskWeight(2, 0), Refused::UnknownTask, 0, 57),
    (Event::SetTaskWeight(0, 0), Refused::BadWeight, 0, 57),
];

fn run_between(rt: &impl Abort, session: &mut Session, from: usize, to: usize) {
    for number in from..to {
        session.run(rt, &[event_of(number)]);
    }
}

/// The list with an event that is refused at that place, and the machine that was given the list without it.
fn expect_refused<R: AllocGlobal + Abort>(
    rt: &R,
    whole: &Session,
    place: usize,
    refusal: (Event, Refused),
) {
    let mut session = Session::holding(rt, 2);
    run_between(rt, &mut session, 0, place);
    session.refuse(rt, &[refusal]);
    run_between(rt, &mut session, place, EVENTS);
    session.noted(rt, HELD);
    session.stands_as(rt, whole);
    drop(session);
}

#[test]
fn refused_events_change_nothing(rt: HostRuntime) {
    let mut whole = Session::holding(&rt, 2);
    run_between(&rt, &mut whole, 0, EVENTS);
    whole.noted(&rt, HELD);
    for &(event, refused, from, to) in &REFUSALS {
        for place in from..to {
            expect_refused(&rt, &whole, place, (event, refused));
        }
    }
    drop(whole);
}
