ghost use Rattle.std.specs.Prelude.{◌≡◌, [], true, All, IfOk};
ghost use Rattle.scx_explore_audit.specs.Claims.{IsTried};
ghost use Rattle.scx_explore_audit.specs.Closed.{AreNumbersOf, AreQueuesOf};

use crate::table::{Charted, Table};
use crate::walking::come_on;
use scx_explore_findings::Path;
use scx_explore_states::{MOST_TASKS, QueueNumbers};
use scx_sched::Sim;
use std::alloc::{AllocError, Global};

/// True if each number is of a queue of the path's machine: in states of the table tasks are in these.
pub(crate) fn are_queues(
    alloc: Global,
    charted: Charted<'_>,
    path: &mut Path,
) -> Result<bool, AllocError>
    ensures root { path.new.root ≡ path.old.root }
    ensures room { path.new.room ≡ path.old.room }
    ensures numbers { IfOk result (λ all. all ≡ true
        → AreNumbersOf path.old.root charted.entry.table.numbers.now) }
{
    let mut met = QueueNumbers::new(alloc)?;
    path.go_back(0);
    meet_all(charted, &mut met, path);
    let all = met.has_all(charted.table.numbers);
    let _few = charted.table.numbers.len();
    drop(met);
    Ok(all)
}

/// Meets the queues in which tasks are, state by state, until they are as many as have numbers.
fn meet_all(charted: Charted<'_>, met: &mut QueueNumbers, path: &mut Path)
    requires none { met.old ≡ [] }
    requires tried { All (IsTried path.old.root) path.old.events }
    ensures root { path.new.root ≡ path.old.root }
    ensures room { path.new.room ≡ path.old.room }
    ensures queues { AreQueuesOf path.old.root met.new }
{
    let charted = without_limit(charted);
    let mut state = 0;
    for _ in 0..charted.table.seen.len() {
        meet_after(met, path);
        if met.len() >= charted.table.numbers.len() {
            return;
        }
        match come_on(charted, state, path) {
            Some(next) => state = next,
            None => return,
        }
    }
}

/// This table, for lists of any number of moves.
fn without_limit<'a>(charted: Charted<'a>) -> Charted<'a> {
    Charted {
        table: Table {
            limit: None,
            ..charted.table
        },
        depths: charted.depths,
    }
}

/// Meets the queues in which tasks are after the list.
fn meet_after(met: &mut QueueNumbers, path: &Path)
    requires { AreQueuesOf path.now.root met.old }
    ensures { AreQueuesOf path.now.root met.new }
{
    meet_tasks(met, path.sim());
}

/// Meets the queues in which tasks are.
fn meet_tasks(met: &mut QueueNumbers, sim: &Sim)
    requires { AreQueuesOf sim.now met.old }
    ensures { AreQueuesOf sim.now met.new }
{
    for task in 0..MOST_TASKS {
        meet_task(met, sim, task as u16);
    }
}

/// Meets the queue in which the task is, if it is in one.
#[tactic(auto, using(crate::proofs::Numbered::task_met))]
fn meet_task(met: &mut QueueNumbers, sim: &Sim, task: u16)
    requires { AreQueuesOf sim.now met.old }
    ensures { AreQueuesOf sim.now met.new }
{
    sim.is_sound();
    met.meet(sim.entry(task));
}
