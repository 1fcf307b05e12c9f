ghost use Rattle.std.specs.Prelude.{◌≡◌, ◌<◌, ◌+◌, ◌≤◌, true, false, length};
ghost use Rattle.scx_sched_machine.specs.declared.events.Event.TheVariants.{Tick};
ghost use Rattle.scx_explore_states.specs.Ticks.{times};
ghost use Rattle.scx_explore_findings.specs.Path.{machine_of};
ghost use Rattle.scx_explore_audit.specs.Closed.{HasRoomForRows};

use crate::table::Table;
use crate::walking::cpus_of;
use scx_explore_findings::Path;
use scx_explore_states::{Form, times};
use scx_sched::{Event, Sim};

/// True if the path has room for each row of ticks that is tried after the list.
pub(crate) fn rows_fit(table: Table<'_>, path: &Path) -> bool
    requires { length path.now.events < path.now.room }
    ensures { result ≡ true
        → HasRoomForRows table.entry.form table.entry.moves path.now.root path.now.room
        (length path.now.events) (machine_of path.now) }
{
    if table.form.slices {
        return true;
    }
    for cpu in 0..cpus_of(path) {
        if !row_fits(path, cpu) {
            return false;
        }
    }
    true
}

/// True if the path has room for the ticks of that CPU until the slice of its task ends.
fn row_fits(path: &Path, cpu: u32) -> bool
    requires { length path.now.events < path.now.room }
    ensures { result ≡ true
        → length path.now.events + times (machine_of path.now) (Tick cpu) ≤ path.now.room }
{
    let left = path.room() - path.events().len();
    times(path.sim(), Event::Tick(cpu)) <= left as u64
}

/// True if states keep waits, or no task can have waited too long in the state of that machine.
pub(crate) fn is_early(form: Form, sim: &Sim) -> bool
    ensures { result ≡ true → form.waits ≡ false
        → sim.now.state.world.clock < sim.now.state.policy.timeout_ms }
{
    form.waits || sim.clock() < sim.policy().timeout_ms()
}
