ghost use Rattle.std.specs.Prelude.{◌≡◌, ◌&&◌, replicate, length, true, IfOk};
ghost use Rattle.scx_sched_world.specs.World.{may_run};
ghost use Rattle.scxsim_views.specs.Pauses.{waits, doing_at};
ghost use Rattle.scxsim_statistics.specs.Figures.{is_wait_kind};
ghost use Rattle.scxsim_statistics.specs.Losses.{bound_waits, has_work, is_wasted, wasted_below, one_lost, lost_below, lost_if, anywhere_if};

use scx_sched::Sim;
use scx_sched_world::World;
use scxsim_views::{PauseKind, Pauses};
use std::alloc::{AllocError, Global};

/// The milliseconds in which a CPU was idle although a task waited that may run there.
#[derive(Drop)]
pub struct Losses {
    /// The milliseconds of each CPU.
    pub cpus: Vec<u64>,
    /// The milliseconds in which some CPU was.
    pub anywhere: u64,
}

impl Losses {
    /// No losses.
    pub(crate) fn new(alloc: Global, cpus: usize) -> Result<Losses, AllocError>
        ensures cpus { IfOk result (λ losses. losses.cpus.items ≡ replicate cpus 0) }
        ensures anywhere { IfOk result (λ losses. losses.anywhere ≡ 0) }
    {
        Ok(Losses {
            cpus: vec![in alloc; 0; cpus]?,
            anywhere: 0,
        })
    }

    /// Adds a millisecond in which a task waits, for each idle CPU on which one may run.
    pub(crate) fn add(&mut self, sim: &Sim, pauses: &Pauses)
        ensures cpus { self.new.cpus.items
            ≡ lost_if true sim.now.state.world pauses.now self.old.cpus.items }
        ensures anywhere { self.new.anywhere
            ≡ anywhere_if true sim.now.state.world pauses.now self.old.anywhere }
    {
        self.add_each(sim, pauses);
        if is_wasted_anywhere(sim, pauses) {
            self.anywhere = self.anywhere.saturating_add(1);
        }
    }

    /// Adds a millisecond to each idle CPU on which a waiting task may run.
    #[tactic(auto, using(crate::proofs::Below::lost_more, crate::proofs::Below::lost_none))]
    fn add_each(&mut self, sim: &Sim, pauses: &Pauses)
        ensures cpus { self.new.cpus.items
            ≡ lost_below (length sim.now.state.world.cpus) sim.now.state.world pauses.now
            self.old.cpus.items }
        ensures anywhere { self.new.anywhere ≡ self.old.anywhere }
    {
        for cpu in 0..sim.cpus() {
            if is_wasted(sim, pauses, cpu) {
                add_one(&mut self.cpus, cpu);
            }
        }
    }
}

fn add_one(lost: &mut Vec<u64>, cpu: u32)
    ensures { lost.new.items ≡ one_lost lost.old.items cpu }
{
    if let Some(lost) = lost.get_mut(cpu as usize) {
        *lost = lost.saturating_add(1);
    }
}

/// True if some CPU is idle on which a waiting task may run.
#[tactic(auto, using(crate::proofs::Below::wasted_more))]
fn is_wasted_anywhere(sim: &Sim, pauses: &Pauses) -> bool
    ensures { result
        ≡ wasted_below (length sim.now.state.world.cpus) sim.now.state.world pauses.now }
{
    let mut found = false;
    for cpu in 0..sim.cpus() {
        found = found || is_wasted(sim, pauses, cpu);
    }
    found
}

/// True if the CPU is idle, and a waiting task may run there.
fn is_wasted(sim: &Sim, pauses: &Pauses, cpu: u32) -> bool
    ensures { result ≡ is_wasted sim.now.state.world cpu pauses.now }
{
    cpu < sim.cpus() && sim.running(cpu).is_none() && has_work(sim.world(), pauses, cpu)
}

/// True if a waiting task may run on the CPU, while a task waits.
fn has_work(world: &World, pauses: &Pauses, cpu: u32) -> bool
    ensures { result ≡ has_work world.now cpu pauses.now }
{
    !world.binds() || bound_waits(world, pauses, cpu)
}

/// True if a task waits that may run on the CPU.
#[tactic(auto, using(crate::proofs::Bound::bound_here, crate::proofs::Bound::bound_later))]
fn bound_waits(world: &World, pauses: &Pauses, cpu: u32) -> bool
    ensures { result ≡ bound_waits world.now cpu (length world.now.tasks) 0 pauses.now }
{
    for task in 0..world.tasks() {
        if waits_for(world, pauses, task, cpu) {
            return true;
        }
    }
    false
}

/// True if the task waits, and may run on the CPU.
fn waits_for(world: &World, pauses: &Pauses, task: u16, cpu: u32) -> bool
    ensures { result ≡ (waits (doing_at pauses.now task) && may_run world.now task cpu) }
{
    waits(pauses, task) && world.may_run(task, cpu)
}

/// True if the task waits. A task that is parked doesn't.
fn waits(pauses: &Pauses, task: u16) -> bool
    ensures { result ≡ waits (doing_at pauses.now task) }
{
    match pauses.open_pause(task, 0) {
        Some(pause) => is_wait(pause.kind),
        None => false,
    }
}

fn is_wait(kind: PauseKind) -> bool
    ensures { result ≡ is_wait_kind kind }
{
    match kind {
        PauseKind::Wait => true,
        PauseKind::Parked => false,
    }
}
