ghost use Rattle.std.specs.Prelude.{◌≡◌, IfOk, IfErr, IfSome};
ghost use Rattle.scx_load_replay.specs.Scenarios.{scenario_events};
ghost use Rattle.scx_load_replay.specs.Sources.{remaining};
ghost use Rattle.scxsim_runs.specs.Scenarios.{IsScenarioRun, IsScenarioCause};
ghost use Rattle.scxsim_statistics.specs.Figures.{AreOfTexts};
ghost use Rattle.scxsim_account.specs.Idling.{idle_of};
ghost use Rattle.scxsim_account.specs.LastCalls.{IsLastBeforeEjection};
ghost use Rattle.scxsim_why.specs.Findings.{IsIdleOfTexts, IsLastOfTexts};

use crate::half_progress::HalfProgress;
use scx_load_driver::Events;
use scx_load_policies::{Programs, read_policy};
use scx_load_replay::Source;
use scx_sched::{Eject, Sim};
use scx_sched_world::HELD;
use scxsim_account::{Account, CallEnd, HeldTask, IdleFigures, account_of, hold_of, last_end};
use scxsim_commands::Refusal;
use scxsim_faults::{FaultPlace, find_fault_among};
use scxsim_runs::{Heard, Listener, ScenarioRun, give_back, give_back_start, prepare_scenario};
use scxsim_statistics::{Figures, figures};
use scxsim_waits::{Waits, WatchedWait};
use scxsim_why_lines::worst_of;
use std::alloc::{AllocError, Global};

/// The findings of a run.
#[derive(Drop)]
pub struct Findings {
    /// The figures of the run, with each task's longest wait.
    pub figures: Figures,
    pub idle: IdleFigures,
    pub account: Account,
    /// The fault or exit for which the policy was ejected.
    pub fault: Option<FaultPlace>,
    /// The end of the last callback before the policy was ejected.
    pub last: Option<CallEnd>,
    /// A task that was held in one of the longest waits: the one that stalled, else the first.
    pub held: Option<HeldTask>,
    /// The programs of the policy.
    pub programs: Programs,
}

/// The findings of the run of a policy file's text and of a workload's or of a file of events.
///
/// # Errors
///
/// The texts are refused, or memory runs out.
pub fn examine<L: Listener>(
    alloc: Global,
    policy: &str,
    scenario: &str,
    listener: &mut L,
) -> Result<Findings, Refusal>
    ensures waits { IfOk result (λ found. AreOfTexts policy.now scenario.now found.figures) }
    ensures idle { IfOk result (λ found. IsIdleOfTexts policy.now scenario.now found.idle) }
    ensures last { IfOk result (λ found.
        IfSome found.last (IsLastOfTexts policy.now scenario.now)) }
    ensures refused { IfErr result (IsScenarioCause policy.now scenario.now) }
{
    let figures = first_time(alloc, policy, scenario, listener)?;
    let run = prepare_scenario(alloc, policy, scenario)?;
    let Watched {
        account,
        fault,
        last,
        held,
    } = watch(alloc, &figures, run, listener)?;
    let idle = account.idling.figures();
    let programs = programs_of(alloc, policy)?;
    Ok(Findings {
        figures,
        idle,
        account,
        fault,
        last,
        held,
        programs,
    })
}

/// The account of a run's longest waits, the fault or exit that ejected the policy, the last callback before that, and
/// a held task.
#[derive(Drop)]
struct Watched {
    account: Account,
    fault: Option<FaultPlace>,
    last: Option<CallEnd>,
    held: Option<HeldTask>,
}

/// Goes through the run the first time, for its figures. It isn't inlined, so that the values of both times don't share
/// a frame of the stack.
#[inline(never)]
fn first_time<L: Listener>(
    alloc: Global,
    policy: &str,
    scenario: &str,
    listener: &mut L,
) -> Result<Figures, Refusal>
    ensures of_texts { IfOk result (AreOfTexts policy.now scenario.now) }
    ensures refused { IfErr result (IsScenarioCause policy.now scenario.now) }
{
    let mut half = HalfProgress {
        listener,
        is_second: false,
    };
    figures(alloc, policy, scenario, &mut half)
}

/// Goes through the run again, for what these figures leave open.
#[inline(never)]
fn watch<L: Listener>(
    alloc: Global,
    figures: &Figures,
    run: ScenarioRun,
    listener: &mut L,
) -> Result<Watched, AllocError>
    ensures idling { IfOk result (λ watched. watched.account.idling
        ≡ idle_of run.sim (scenario_events run.scenario run.sim)) }
    ensures last { IfOk result (λ watched. IfSome watched.last
        (IsLastBeforeEjection run.sim (scenario_events run.scenario run.sim))) }
{
    let watched = watch_copies(alloc, figures, &run, listener);
    run.give_back();
    watched
}

/// Goes through copies of a run that is about to begin.
fn watch_copies<L: Listener>(
    alloc: Global,
    figures: &Figures,
    run: &ScenarioRun,
    listener: &mut L,
) -> Result<Watched, AllocError>
    ensures idling { IfOk result (λ watched. watched.account.idling
        ≡ idle_of run.now.sim (scenario_events run.now.scenario run.now.sim)) }
    ensures last { IfOk result (λ watched. IfSome watched.last
        (IsLastBeforeEjection run.now.sim (scenario_events run.now.scenario run.now.sim))) }
{
    let fault = fault_in(alloc, figures.ejected, run)?;
    let account = second_time(alloc, figures, run, listener)?;
    let last = last_in(alloc, figures.ejected, account.calls.last, run)?;
    let held = held_in(alloc, figures.ejected, &account.waits, run)?;
    Ok(Watched {
        account,
        fault,
        last,
        held,
    })
}

/// Goes through the run a second time, and watches the longest waits of these figures.
fn second_time<L: Listener>(
    alloc: Global,
    figures: &Figures,
    run: &ScenarioRun,
    listener: &mut L,
) -> Result<Account, AllocError>
    ensures { IfOk result (λ account. account.idling
        ≡ idle_of run.now.sim (scenario_events run.now.scenario run.now.sim)) }
{
    let (events, sim) = run.duplicate(alloc)?;
    let mut half = HalfProgress {
        listener,
        is_second: true,
    };
    watch_events(alloc, figures, events, sim, &mut half)
}

/// Gives these events to the machine, and watches the longest waits of these figures.
fn watch_events<L: Listener>(
    alloc: Global,
    figures: &Figures,
    source: Source,
    mut sim: Sim,
    listener: &mut L,
) -> Result<Account, AllocError>
    ensures { IfOk result (λ account. account.idling ≡ idle_of sim (remaining source sim)) }
{
    let mut events = Heard::new(source, figures.workload.ms(), listener);
    let account = account_of_longest(alloc, figures, &mut events, &mut sim);
    give_back(events, sim);
    account
}

/// The account of the longest waits of these figures, in a run of these events.
fn account_of_longest<E: Events>(
    alloc: Global,
    figures: &Figures,
    events: &mut E,
    sim: &mut Sim,
) -> Result<Account, AllocError>
    ensures { IfOk result (λ account. account.idling
        ≡ idle_of sim.old (E.remaining events.old sim.old)) }
{
    let worst = worst_of(alloc, figures)?;
    account_of(
        alloc,
        worst.as_slice(),
        figures.ejected.is_some(),
        events,
        sim,
    )
}

/// The programs of a policy file that was read before, so that only memory may run out.
fn programs_of(alloc: Global, policy: &str) -> Result<Programs, AllocError> {
    match read_policy(alloc, policy) {
        Ok(text) => Ok(text.into_programs()),
        Err(_) => Err(AllocError),
    }
}

/// The fault or exit for which the policy was ejected, if it was, in a copy of a run.
fn fault_in(
    alloc: Global,
    ejected: Option<Eject>,
    run: &ScenarioRun,
) -> Result<Option<FaultPlace>, AllocError> {
    match ejected {
        Some(Eject::Fault(_, clock) | Eject::Exit(_, clock)) => fault_at(alloc, clock, run),
        Some(Eject::Stall(_, _)) | None => Ok(None),
    }
}

/// The fault or exit at that clock, in a copy of a run.
fn fault_at(
    alloc: Global,
    clock: u64,
    run: &ScenarioRun,
) -> Result<Option<FaultPlace>, AllocError> {
    let (mut events, mut sim) = run.duplicate(alloc)?;
    let place = find_fault_among(&mut events, &mut sim, clock);
    give_back_start(events, sim);
    Ok(place)
}

/// The end of the last callback, which is called at that clock, if the policy was ejected.
fn last_in(
    alloc: Global,
    ejected: Option<Eject>,
    clock: Option<u64>,
    run: &ScenarioRun,
) -> Result<Option<CallEnd>, AllocError>
    ensures { IfOk result (λ last. IfSome last
        (IsLastBeforeEjection run.now.sim (scenario_events run.now.scenario run.now.sim))) }
{
    match (ejected, clock) {
        (Some(_), Some(clock)) => last_from(alloc, clock, run),
        (Some(_), None) | (None, _) => Ok(None),
    }
}

/// The end of the last callback before the policy's ejection, in a copy of a run.
fn last_from(alloc: Global, clock: u64, run: &ScenarioRun) -> Result<Option<CallEnd>, AllocError>
    ensures { IfOk result (λ last. IfSome last
        (IsLastBeforeEjection run.now.sim (scenario_events run.now.scenario run.now.sim))) }
{
    let (mut events, mut sim) = run.duplicate(alloc)?;
    let end = last_end(&mut events, &mut sim, clock);
    give_back_start(events, sim);
    Ok(end)
}

/// The wait of the task that stalled if it was held, else the first of these waits in which the task was held, with
/// the end of the call of enqueue that put it nowhere, in a copy of a run.
fn held_in(
    alloc: Global,
    ejected: Option<Eject>,
    waits: &Waits,
    run: &ScenarioRun,
) -> Result<Option<HeldTask>, AllocError> {
    let Some((task, clock)) = hold_to_tell(ejected, waits) else {
        return Ok(None);
    };
    match hold_at(alloc, task, clock, run)? {
        Some(end) => Ok(Some(HeldTask { task, clock, end })),
        None => Ok(None),
    }
}

/// The end of the call of enqueue that put the task nowhere at that clock, in a copy of a run.
fn hold_at(
    alloc: Global,
    task: u16,
    clock: u64,
    run: &ScenarioRun,
) -> Result<Option<CallEnd>, AllocError> {
    let (mut events, mut sim) = run.duplicate(alloc)?;
    let end = hold_of(&mut events, &mut sim, task, clock);
    give_back_start(events, sim);
    Ok(end)
}

/// The hold of the task that stalled, else the first one.
fn hold_to_tell(ejected: Option<Eject>, waits: &Waits) -> Option<(u16, u64)> {
    match stalled_hold(ejected, waits) {
        Some(hold) => Some(hold),
        None => first_hold(waits),
    }
}

/// The hold of the task that stalled, if it was held in its longest wait.
fn stalled_hold(ejected: Option<Eject>, waits: &Waits) -> Option<(u16, u64)> {
    let Some(Eject::Stall(stalled, _)) = ejected else {
        return None;
    };
    for wait in waits.waits.as_slice() {
        if wait.wait.task == stalled {
            return hold_in(wait);
        }
    }
    None
}

/// The task of the first wait in which it was held, and the clock of that.
fn first_hold(waits: &Waits) -> Option<(u16, u64)> {
    for wait in waits.waits.as_slice() {
        if let Some(hold) = hold_in(wait) {
            return Some(hold);
        }
    }
    None
}

/// The task of a wait in which it was held, and the clock of that.
fn hold_in(wait: &WatchedWait) -> Option<(u16, u64)> {
    for station in wait.stations.as_slice() {
        if station.queue == HELD {
            return Some((wait.wait.task, station.clock));
        }
    }
    None
}
