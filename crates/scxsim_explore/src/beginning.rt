ghost use Rattle.std.specs.Prelude.{◌≡◌, IfOk, IfErr};
ghost use Rattle.scxsim_commands.specs.declared.refusal.Refusal.TheVariants.{NoMemory};
ghost use Rattle.scx_explore_bounds.specs.Forms.{IsFormOf};
ghost use Rattle.scxsim_runs.specs.Runs.{IsCause};
ghost use Rattle.scxsim_explore.specs.Beginning.{IsStart, IsStartOf};

use crate::limits::{Limit, limit_of};
use crate::machines::Machines;
use scx_explore::{Bounds, Form, Mode, SORTS, Search, Starts, form_of, starts_of};
use scx_explore_bounds::most_in_rows;
use scx_explore_machines::most_machines;
use scx_isa::CALLBACKS;
use scx_load_workloads::Workload;
use scx_sched::{Event, Sim};
use scxsim_commands::Refusal;
use scxsim_runs::{Run, prepare};
use std::alloc::{AllocError, Global};

/// The memory of a search, in bytes.
const ROOM: usize = 268_435_456;

/// The least number of machines of a search.
const LEAST_HANDS: usize = 4;

/// The machines that a search has for its states, for each event or millisecond of a list after the first one.
const HANDS: usize = 16;

/// The length of the longest lists along which each state keeps its machine.
const SHORT: usize = 64;

/// The most machines of a search through such lists.
const MOST_OF_SHORT: usize = 128;

/// The most machines of a search through longer lists.
const MOST_HANDS: usize = 1024;

/// The most lists that a search writes: one for each sort, for the longest wait, and for the most instructions of each
/// callback.
const MOST_TOLD: usize = SORTS.len() + 1 + CALLBACKS.len();

/// A search that is about to begin, and machines to show what it finds.
#[derive(Drop)]
pub(crate) struct Begun {
    pub(crate) search: Search,
    /// The instructions of callbacks before any event.
    pub(crate) starts: Starts,
    /// The machines that show what is found.
    pub(crate) machines: Machines,
    /// The list at hand.
    pub(crate) events: Vec<Event>,
    /// True unless memory ran out for a list, its cause or its workload file.
    pub(crate) is_whole: bool,
}

/// The instructions of callbacks before any event, and the form in which states are kept.
#[derive(Clone, Copy)]
struct Setup {
    starts: Starts,
    form: Form,
}

/// A search, or why there is none.
#[derive(Drop)]
pub(crate) enum Start {
    /// The workload or its machine is past that limit.
    Past(Limit),
    /// The search of a workload, with what is kept of a state.
    Within {
        begun: Begun,
        /// The machine that runs lists as they are written.
        teller: Sim,
        about: Workload,
        form: Form,
    },
}

/// Reads both files, verifies the policy's programs, and begins the search within the bounds, unless the machine is past
/// a limit. All memory of the search is taken here.
///
/// # Errors
///
/// The texts are refused, or memory runs out.
pub(crate) fn start_of_texts(
    alloc: Global,
    policy: &str,
    workload: &str,
    bounds: Bounds,
) -> Result<Start, Refusal>
    ensures start { IfOk result (IsStart policy.now workload.now bounds) }
    ensures refused { IfErr result (IsCause policy.now workload.now) }
{
    let run = prepare(alloc, policy, workload)?;
    match setup_of(alloc, policy, &run, bounds) {
        Ok(setup) => start_of_run(alloc, run, setup, bounds),
        Err(AllocError) => {
            drop(run);
            Err(Refusal::NoMemory)
        }
    }
}

/// The instructions of callbacks before any event, and the form of states in lists within the bounds.
///
/// # Errors
///
/// Memory runs out.
fn setup_of(alloc: Global, policy: &str, run: &Run, bounds: Bounds) -> Result<Setup, AllocError>
    ensures { IfOk result (λ setup. IsFormOf policy.now bounds run.now.sim setup.form) }
{
    let starts = starts_of(alloc, policy, &run.workload)?;
    let form = form_of(alloc, policy, bounds, &run.sim)?;
    Ok(Setup { starts, form })
}

/// Begins the search of a run, unless its machine is past a limit.
///
/// # Errors
///
/// Memory runs out.
fn start_of_run(alloc: Global, run: Run, setup: Setup, bounds: Bounds) -> Result<Start, Refusal>
    ensures start { IfOk result (IsStartOf run.workload run.sim setup.form bounds) }
    ensures refused { IfErr result (λ refusal. refusal ≡ NoMemory) }
{
    let Run {
        policy_name,
        workload: about,
        driver,
        sim,
    } = run;
    drop(policy_name);
    drop(driver);
    if let Some(limit) = limit_of(&sim, &about, bounds) {
        drop(sim);
        drop(about);
        return Ok(Start::Past(limit));
    }
    let form = setup.form.suited_to(&sim);
    match begin_both(alloc, &about, sim, Setup { form, ..setup }, bounds) {
        Ok((begun, teller)) => Ok(Start::Within {
            begun,
            teller,
            about,
            form,
        }),
        Err(AllocError) => {
            drop(about);
            Err(Refusal::NoMemory)
        }
    }
}

/// Begins the search from that machine, and makes the machine that runs lists as they are written.
///
/// # Errors
///
/// Memory runs out.
fn begin_both(
    alloc: Global,
    about: &Workload,
    first: Sim,
    setup: Setup,
    bounds: Bounds,
) -> Result<(Begun, Sim), AllocError>
    ensures { IfOk result (λ both. (both.0.machines ≡ first) × (both.1 ≡ first)) }
{
    match first.duplicate(alloc) {
        Ok(teller) => begin_with(alloc, about, first, teller, setup, bounds),
        Err(AllocError) => {
            drop(first);
            Err(AllocError)
        }
    }
}

/// Begins the search from the first machine, beside the second one.
///
/// # Errors
///
/// Memory runs out.
fn begin_with(
    alloc: Global,
    about: &Workload,
    first: Sim,
    teller: Sim,
    setup: Setup,
    bounds: Bounds,
) -> Result<(Begun, Sim), AllocError>
    ensures { IfOk result (λ both. (both.0.machines ≡ first) × (both.1 ≡ teller)) }
{
    match begin(alloc, about, first, setup, bounds) {
        Ok(begun) => Ok((begun, teller)),
        Err(AllocError) => {
            drop(teller);
            Err(AllocError)
        }
    }
}

/// Begins the search from that machine.
///
/// # Errors
///
/// Memory runs out.
fn begin(
    alloc: Global,
    about: &Workload,
    first: Sim,
    setup: Setup,
    bounds: Bounds,
) -> Result<Begun, AllocError>
    ensures { IfOk result (λ begun. begun.machines ≡ first) }
{
    let machines = Machines::new(alloc, first, told_by(bounds.mode))?;
    match search_in(alloc, setup.form, bounds, machines.first(), about) {
        Ok((search, events)) => Ok(Begun {
            search,
            starts: setup.starts,
            machines,
            events,
            is_whole: true,
        }),
        Err(AllocError) => {
            drop(machines);
            Err(AllocError)
        }
    }
}

/// The search, and room for a list of such a machine.
fn search_in(
    alloc: Global,
    form: Form,
    bounds: Bounds,
    first: &Sim,
    about: &Workload,
) -> Result<(Search, Vec<Event>), AllocError> {
    let events = Vec::with_capacity(alloc, most_in_rows(form, bounds, first))?;
    match search_of(alloc, form, bounds, first, about) {
        Ok(search) => Ok((search, events)),
        Err(AllocError) => {
            drop(events);
            Err(AllocError)
        }
    }
}

/// The search from the state of that machine.
fn search_of(
    alloc: Global,
    form: Form,
    bounds: Bounds,
    first: &Sim,
    about: &Workload,
) -> Result<Search, AllocError> {
    let root = first.duplicate(alloc)?;
    let machines = hands(bounds.depth).min(most_machines(first));
    Search::new(alloc, form, bounds, root, machines, about, ROOM)
}

/// The number of machines that show what was found: one runs a list again. For each list of milliseconds two more look
/// for its workload file.
fn told_by(mode: Mode) -> usize {
    match mode {
        Mode::Events => 1,
        Mode::Milliseconds | Mode::Workloads => 1 + 2 * MOST_TOLD,
    }
}

/// The number of machines of a search of that depth.
fn hands(depth: usize) -> usize {
    let most = if depth > SHORT {
        MOST_HANDS
    } else {
        MOST_OF_SHORT
    };
    depth
        .saturating_sub(1)
        .saturating_mul(HANDS)
        .saturating_add(LEAST_HANDS)
        .min(most)
}
