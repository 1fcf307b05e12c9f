//! The events of workloads, each accepted by a machine.

use crate::policies::policy;
use crate::same::expect_same;
use crate::session::Session;
use scx_isa::Callback;
use scx_load::{Driver, Workload, read_workload};
use scx_sched::{Event, Policy};
use scx_tests_examples::{DISPATCH, INIT};
use scx_weights::Tree;
use std::process::Abort;

/// A machine for the workload under that policy.
fn session_under<R: AllocGlobal + Abort>(rt: &R, policy: Policy, workload: &Workload) -> Session {
    let tree = Tree::new(rt.alloc(), workload.groups(), workload.tasks()).expect(rt, "a tree");
    Session::of(rt, policy, tree, workload.cpus(), 100)
}

/// A machine for the workload, whose policy has no callbacks.
fn session_for<R: AllocGlobal + Abort>(rt: &R, workload: &Workload) -> Session {
    session_under(rt, policy(rt, &[]), workload)
}

/// The driver's next events are these, and the machine accepts each.
fn run_first(rt: &impl Abort, session: &mut Session, driver: &mut Driver, events: &[Event]) {
    for &event in events {
        expect_same(rt, driver.next(&session.sim), Some(event), event);
        session.run(rt, &[event]);
    }
}

/// The driver's events are these, and the machine accepts each.
fn run(rt: &impl Abort, session: &mut Session, driver: &mut Driver, events: &[Event]) {
    run_first(rt, session, driver, events);
    expect_same(rt, driver.next(&session.sim), None, "next");
    expect_same(rt, driver.next(&session.sim), None, "next");
}

/// The workload's events are these.
fn expect_events<R: AllocGlobal + Abort>(rt: &R, text: &str, events: &[Event]) {
    let workload = read_workload(rt.alloc(), text).expect(rt, "a workload");
    let mut session = session_for(rt, &workload);
    let mut driver = Driver::new(rt.alloc(), &workload).expect(rt, "a driver");
    run(rt, &mut session, &mut driver, events);
    drop(driver);
    drop(session);
    drop(workload);
}

const WAKE: Event = Event::Wake(0);

const TICK: Event = Event::Tick(0);

const MS: Event = Event::Clock;

const SLEEP: Event = Event::Sleep(0);

/// The task runs for 2 ms and sleeps for 3.
const SLEEPER: &str = "cpus = 1
ms = 6
group = [{ name = 'g' }]
task = [{ name = 'a', group = 'g', run = 2, sleep = 3 }]
";

const SLEEPS: [Event; 15] = [
    WAKE, TICK, MS, TICK, SLEEP, MS, TICK, MS, TICK, MS, TICK, MS, WAKE, TICK, MS,
];

#[test]
fn a_task_runs_and_sleeps(rt: HostRuntime) {
    expect_events(&rt, SLEEPER, &SLEEPS);
}

/// The task runs for ever.
const ENDLESS: &str = "cpus = 1
ms = 10
group = [{ name = 'g' }]
task = [{ name = 'a', group = 'g' }]
";

/// The rest of 10 ms passes at once, and comes to that many events. The task has run all along.
fn expect_rest_at_once(rt: &impl Abort, session: &mut Session, driver: &mut Driver, events: u64) {
    driver.skip(&mut session.sim);
    let sim = &session.sim;
    expect_same(
        rt,
        (sim.clock(), sim.events()),
        (10, events),
        "clock and events",
    );
    expect_same(rt, sim.run_ns_of(0), 10_000_000, "run time");
    expect_same(rt, driver.next(sim), None, "next");
}

/// After these events of a run of 10 ms under the policy the rest passes at once.
fn expect_quiet_after<R: AllocGlobal + Abort>(
    rt: &R,
    policy: Policy,
    text: &str,
    first: &[Event],
    events: u64,
) {
    let workload = read_workload(rt.alloc(), text).expect(rt, "a workload");
    let mut session = session_under(rt, policy, &workload);
    let mut driver = Driver::new(rt.alloc(), &workload).expect(rt, "a driver");
    run_first(rt, &mut session, &mut driver, first);
    expect_rest_at_once(rt, &mut session, &mut driver, events);
    drop(driver);
    drop(session);
    drop(workload);
}

#[test]
fn quiet_milliseconds_pass_at_once(rt: HostRuntime) {
    expect_quiet_after(
        &rt,
        policy(&rt, &[]),
        ENDLESS,
        &[WAKE, TICK, MS, TICK, MS],
        21,
    );
}

/// The task runs for ever, and the second CPU is idle.
const IDLE: &str = "cpus = 2
ms = 10
group = [{ name = 'g' }]
task = [{ name = 'a', group = 'g' }]
";

const IDLE_TICK: Event = Event::Tick(1);

/// Dispatch finds no task in its queue.
#[test]
fn milliseconds_with_a_dispatch_in_vain_pass_at_once(rt: HostRuntime) {
    let asks = policy(
        &rt,
        &[(Callback::Init, INIT), (Callback::Dispatch, DISPATCH)],
    );
    let first = [WAKE, TICK, IDLE_TICK, MS, TICK, IDLE_TICK, MS];
    expect_quiet_after(&rt, asks, IDLE, &first, 31);
}
