ghost use Rattle.std.specs.Prelude.{◌≡◌, true, nat_lt, IfOk, option_map};
ghost use Rattle.scx_isa_semantics.specs.Callbacks.{callbacks};
ghost use Rattle.scx_explore_bounds.specs.Forms.{DoAll, DoesAs, IsFormIn, IsFormOf, form_of, form_within, are_apart, has_few_tasks, may_load_counts, no_uses, tells_apart, without_names, without_slices};

use crate::bounds::{Bounds, Mode};
use crate::uses::Uses;
use scx_explore_states::{Form, MapWords};
use scx_isa::{CALLBACKS, Callback, Program, Rules};
use scx_load_policies::{PolicyText, Programs, read_policy};
use scx_maps::MapDefs;
use scx_sched::Sim;
use scx_vm::Context;
use std::alloc::{AllocError, Global};

/// The most tasks that are told apart though no program does so.
const MOST_APART: u16 = 4;

/// The form of states in lists within the bounds from that machine, under the policy of a text that was read before.
///
/// It leaves out what no program can read: the clock, where none asks for it; from which number random ones are made, where
/// none draws one; virtual times, run times and weights, where none loads them; and virtual times in queues, where none
/// inserts by one. Where lists are of events, waits are left out if no list is long enough to end in an ejection for one.
/// Pushes are always left out: they are compared within a queue only, and there places say which task came first.
///
/// Where lists are of events, and no program tells tasks of a group apart, these may change places. In a millisecond
/// tasks have their turns by number. And where no program loads a slice or a run time, slices are left out of lists of
/// events, also where tasks are told apart if no program has a load at such an offset. A machine that needs slices has them
/// all the same. If all lists are searched, at most four tasks are told apart too where slices can be left out so: then all
/// is kept that programs can tell.
///
/// # Errors
///
/// Memory runs out.
pub fn form_of(alloc: Global, policy: &str, bounds: Bounds, first: &Sim) -> Result<Form, AllocError>
    ensures { IfOk result (IsFormOf policy.now bounds first.now) }
{
    match read_policy(alloc, policy) {
        Ok(text) => form_in(alloc, text, bounds, are_apart(bounds, first)),
        Err(error) => {
            drop(error);
            Err(AllocError)
        }
    }
}

/// True if tasks are to be told apart though no program does so: there are few, and all lists are searched.
fn are_apart(bounds: Bounds, first: &Sim) -> bool
    ensures { result ≡ are_apart bounds first.now.state.world }
{
    bounds.few.is_none() && has_few_tasks(first)
}

/// True if there are few tasks, on a machine whose states need no slices.
fn has_few_tasks(sim: &Sim) -> bool
    ensures { result ≡ has_few_tasks sim.now.state.world }
{
    match sim.world().rules() {
        Rules::Plain => !sim.world().is_limited() && sim.tasks() <= MOST_APART,
        Rules::Linux => false,
    }
}

/// The form of states under the policy of a file, with tasks that are to be told apart or not.
fn form_in(alloc: Global, text: PolicyText, bounds: Bounds, apart: bool) -> Result<Form, AllocError>
    ensures { IfOk result (IsFormIn text bounds apart) }
{
    let timeout_ms = text.timeout_ms();
    let uses = uses_of(alloc, text)?;
    Ok(form_within(bounds.mode, bounds.depth, timeout_ms, apart, uses))
}

/// All that the policy's programs do.
fn uses_of(alloc: Global, text: PolicyText) -> Result<Uses, AllocError>
    ensures { IfOk result (DoAll text.rules text.shapes text.programs callbacks no_uses) }
{
    let (rules, defs) = (text.rules(), *text.defs());
    let programs = text.into_programs();
    let uses = uses_in(alloc, rules, &programs, &defs);
    drop(programs);
    uses
}

fn uses_in(
    alloc: Global,
    rules: Rules,
    programs: &Programs,
    defs: &MapDefs,
) -> Result<Uses, AllocError>
    ensures { IfOk result (DoAll rules defs.now programs.now callbacks no_uses) }
{
    let mut uses = Uses::NONE;
    for callback in CALLBACKS {
        uses = with_callback(alloc, uses, programs.get(callback), rules, callback, defs)?;
    }
    Ok(uses)
}

/// Adds what the program of that callback does, if it has one.
fn with_callback(
    alloc: Global,
    uses: Uses,
    program: Option<&Program>,
    rules: Rules,
    callback: Callback,
    defs: &MapDefs,
) -> Result<Uses, AllocError>
    ensures { IfOk result
        (DoesAs rules defs.now callback (option_map (λ p. p.now) program.entry) uses) }
{
    let context = Context::new(callback, *defs).by_rules(rules);
    match program {
        Some(program) => uses.with(alloc, program, context),
        None => Ok(uses),
    }
}

fn form_within(mode: Mode, depth: usize, timeout_ms: u32, apart: bool, uses: Uses) -> Form
    ensures { result ≡ form_within mode depth timeout_ms apart uses }
{
    match mode {
        Mode::Events => {
            let form = without_names(form_of_events(uses, timeout_ms, depth), apart, uses);
            without_slices(form, uses)
        }
        Mode::Milliseconds | Mode::Workloads => form_by(uses, true),
    }
}

/// The form for lists of `depth` events, where tasks wait no longer than `timeout_ms`.
fn form_of_events(uses: Uses, timeout_ms: u32, depth: usize) -> Form
    ensures { result ≡ form_of uses (nat_lt timeout_ms depth) }
{
    form_by(uses, (timeout_ms as usize) < depth)
}

fn form_by(uses: Uses, waits: bool) -> Form
    ensures { result ≡ form_of uses waits }
{
    Form {
        clock: uses.clock,
        pushes: false,
        waits,
        idle_slices: uses.tells_idle_slices(),
        slices: true,
        keys: uses.vtime_inserts,
        vtime: uses.vtime,
        run_ns: uses.run_ns,
        random: uses.random,
        names: true,
        weights: uses.weight,
        map_words: MapWords::Whole,
    }
}

/// The form in which tasks of a group may change places, if no program tells them apart. They may not either if they are to
/// be told apart where no program may load a slice or a run time: then all is kept that programs can tell.
///
/// A program tells tasks apart if it loads the number of a task, or asks for one by its number, or loads the weight of a task where
/// each has its own. Else the machine alone orders tasks by their numbers, as a policy is ejected, and in a state that is
/// kept it is in force. So if two tasks of a group have changed places, what follows is the same with these two changed.
fn without_names(form: Form, apart: bool, uses: Uses) -> Form
    ensures { result ≡ without_names form apart uses }
{
    Form {
        names: tells_apart(uses) || (apart && !may_load_counts(uses)),
        ..form
    }
}

/// True if a program tells tasks of a group apart.
fn tells_apart(uses: Uses) -> bool
    ensures { result ≡ tells_apart uses }
{
    uses.pid || (uses.task_by_pid || uses.own_weight)
}

/// True if a program may load a slice or a run time, whatever it is given and answered.
fn may_load_counts(uses: Uses) -> bool
    ensures { result ≡ may_load_counts uses }
{
    (uses.slice || uses.run_ns) || uses.has_count_load
}

/// The form in which slices are left out if no program loads a slice or a run time. Where tasks are told apart, no program
/// may have a load at such an offset from any memory.
///
/// A tick changes the slice and the run time of a task, and what its groups have used. By plain rules the machine reads a slice
/// only as it ends. So until then a tick changes nothing that is told.
fn without_slices(form: Form, uses: Uses) -> Form
    ensures { result ≡ without_slices form uses }
{
    Form {
        slices: (uses.slice || uses.run_ns) || (form.names && uses.has_count_load),
        ..form
    }
}
