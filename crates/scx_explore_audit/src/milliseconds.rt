ghost use Rattle.std.specs.Prelude.{◌≡◌, true};
ghost use Rattle.scx_explore_findings.specs.Path.{machine_of};
ghost use Rattle.scx_explore_audit.specs.Claims.{TaskSet};
ghost use Rattle.scx_explore_audit.specs.Closed.{LeadsBack, claim_of};
ghost use Rattle.scx_explore_audit.specs.Steps.{from_wake, from_tick, from_sleep};

use crate::advance::{Went, go_along};
use crate::moves::last_leads_back;
use crate::table::{Charted, Hand};
use crate::walking::{cpus_of, tasks_of};
use scx_explore_findings::Path;
use scx_sched::Event;

/// True if the rest of each millisecond leads back into the table, once the tasks before that one had their turns
/// to wake: that one sleeps on, or wakes.
pub(crate) fn wakes_lead_back(
    charted: Charted<'_>,
    depth: usize,
    task: u16,
    path: &mut Path,
    hand: &mut Hand,
) -> bool
    ensures same { path.new ≡ path.old }
    ensures back { result ≡ true → (wakes sleeps : TaskSet)
        → LeadsBack (claim_of charted.entry) depth (machine_of path.old)
        (from_wake path.old.root task wakes sleeps) }
{
    if task >= tasks_of(path) {
        return ticks_lead_back(charted, depth, 0, path, hand);
    }
    let watched = hand.heard.watch.watched();
    if !wakes_lead_back(charted, depth, task + 1, path, hand) {
        return false;
    }
    hand.heard.watch.go_on(watched);
    let length = path.events().len();
    match go_along(charted.table.sorts, Event::Wake(task), path, hand) {
        Went::There => {
            let leads = wakes_lead_back(charted, depth, task + 1, path, hand);
            path.go_back(length);
            leads
        }
        Went::Over => true,
        Went::Shows => false,
    }
}

/// True if the rest leads back, once the CPUs before that one had their turns to tick.
fn ticks_lead_back(
    charted: Charted<'_>,
    depth: usize,
    cpu: u32,
    path: &mut Path,
    hand: &mut Hand,
) -> bool
    ensures same { path.new ≡ path.old }
    ensures back { result ≡ true → (sleeps : TaskSet)
        → LeadsBack (claim_of charted.entry) depth (machine_of path.old)
        (from_tick path.old.root cpu sleeps) }
{
    if cpu >= cpus_of(path) {
        return sleeps_lead_back(charted, depth, 0, path, hand);
    }
    let length = path.events().len();
    match go_along(charted.table.sorts, Event::Tick(cpu), path, hand) {
        Went::There => {
            let leads = ticks_lead_back(charted, depth, cpu + 1, path, hand);
            path.go_back(length);
            leads
        }
        Went::Over => true,
        Went::Shows => false,
    }
}

/// True if the rest leads back, once the tasks before that one had their turns to go to sleep.
fn sleeps_lead_back(
    charted: Charted<'_>,
    depth: usize,
    task: u16,
    path: &mut Path,
    hand: &mut Hand,
) -> bool
    ensures same { path.new ≡ path.old }
    ensures back { result ≡ true → (sleeps : TaskSet)
        → LeadsBack (claim_of charted.entry) depth (machine_of path.old)
        (from_sleep path.old.root task sleeps) }
{
    if task >= tasks_of(path) {
        return last_leads_back(charted, depth, Event::Clock, path, hand);
    }
    let watched = hand.heard.watch.watched();
    if !sleeps_lead_back(charted, depth, task + 1, path, hand) {
        return false;
    }
    hand.heard.watch.go_on(watched);
    let length = path.events().len();
    match go_along(charted.table.sorts, Event::Sleep(task), path, hand) {
        Went::There => {
            let leads = sleeps_lead_back(charted, depth, task + 1, path, hand);
            path.go_back(length);
            leads
        }
        Went::Over => true,
        Went::Shows => false,
    }
}
