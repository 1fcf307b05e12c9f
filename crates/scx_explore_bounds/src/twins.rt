use scx_explore_states::{Form, Tasks};
use scx_isa::{Field, TaskId};
use scx_sched::Sim;
use scx_vm::Env;

/// Bit 8 t is set for each task t: with them those stay of who began to run that are of one task.
const ONE_TASK: u64 = 0x0101_0101_0101_0101;

/// The tasks that sleep just as one of their group with a lower number does that may run on the same CPUs: what follows
/// as one of the two wakes, follows as the other one does. There are none where tasks of a group are told apart.
pub fn twins_of(form: Form, sim: &Sim, began: u64) -> Tasks {
    let mut twins = Tasks::NONE;
    if form.names {
        return twins;
    }
    for task in 0..sim.tasks() {
        if has_twin_below(form, sim, began, task) {
            twins = twins.with(task);
        }
    }
    twins
}

fn has_twin_below(form: Form, sim: &Sim, began: u64, task: u16) -> bool {
    for other in 0..task {
        if began_as(began, other) == began_as(began, task) && are_twins(form, sim, other, task) {
            return true;
        }
    }
    false
}

/// While which tasks that one began to run.
fn began_as(began: u64, task: u16) -> u64 {
    began.wrapping_shr(u32::from(task)) & ONE_TASK
}

/// True if both sleep, are of one group, may run on the same CPUs, and the same is kept of them.
fn are_twins(form: Form, sim: &Sim, one: u16, other: u16) -> bool {
    if sim.is_runnable(one) || sim.is_runnable(other) || !are_alike(sim, one, other) {
        return false;
    }
    let (one, other) = (sim.world().task(one), sim.world().task(other));
    one.prev_cpu == other.prev_cpu
        && is_same(
            form.idle_slices,
            form.kept_slice(one.slice),
            form.kept_slice(other.slice),
        )
        && is_same(form.vtime, one.vtime, other.vtime)
        && is_same(form.run_ns, one.run_ns, other.run_ns)
}

/// True if both are of one group, and may run on the same CPUs.
fn are_alike(sim: &Sim, one: u16, other: u16) -> bool {
    have_same(sim, Field::Group, one, other) && have_same(sim, Field::Cpus, one, other)
}

/// True if that field is the same of both.
fn have_same(sim: &Sim, field: Field, one: u16, other: u16) -> bool {
    sim.world().load(TaskId(one), field) == sim.world().load(TaskId(other), field)
}

/// True if both are the same, or aren't kept.
fn is_same(is_kept: bool, one: u64, other: u64) -> bool {
    !is_kept || one == other
}
