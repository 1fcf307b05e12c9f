ghost use Rattle.std.specs.Prelude.{◌≡◌, ◌<◌, ◌≤◌, true, ℕ, replicate};
ghost use Rattle.scx_sched_machine.specs.declared.events.Event.{Event};
ghost use Rattle.scx_sched_machine.specs.declared.events.Event.TheVariants.{Wake, Sleep, Tick};
ghost use Rattle.scx_explore_findings.specs.Path.{machine_of};
ghost use Rattle.scx_explore_audit.specs.Claims.{IsTried};
ghost use Rattle.scx_explore_audit.specs.Closed.{LeadsBack, claim_of};
ghost use Rattle.scx_explore_audit.specs.Tried.{row};

use crate::advance::{Went, go_along};
use crate::moves::last_leads_back;
use crate::states::begin;
use crate::table::{Charted, Hand};
use crate::walking::{cpus_of, tasks_of};
use scx_explore_bounds::times_in;
use scx_explore_findings::Path;
use scx_sched::Event;

/// True if each event leads back into the table, as often as it is tried.
pub(crate) fn events_lead_back(
    charted: Charted<'_>,
    depth: usize,
    began: u64,
    path: &mut Path,
    hand: &mut Hand,
) -> bool
    ensures same { path.new ≡ path.old }
    ensures back { result ≡ true → (e : Event) → IsTried path.old.root e
        → LeadsBack (claim_of charted.entry) depth (machine_of path.old)
        (row charted.entry.table.form.slices (machine_of path.old) e) }
{
    let tasks = tasks_of(path);
    let cpus = cpus_of(path);
    if !tasks_lead_back(charted, depth, tasks, began, path, hand) {
        return false;
    }
    if !cpus_lead_back(charted, depth, cpus, began, path, hand) {
        return false;
    }
    event_leads_back(charted, depth, Event::Clock, began, path, hand)
}

/// True if wakes and sleeps of the first `tasks` tasks lead back.
fn tasks_lead_back(
    charted: Charted<'_>,
    depth: usize,
    tasks: u16,
    began: u64,
    path: &mut Path,
    hand: &mut Hand,
) -> bool
    ensures same { path.new ≡ path.old }
    ensures wakes { result ≡ true → (t : ℕ) → t < tasks
        → LeadsBack (claim_of charted.entry) depth (machine_of path.old)
        (row charted.entry.table.form.slices (machine_of path.old) (Wake t)) }
    ensures sleeps { result ≡ true → (t : ℕ) → t < tasks
        → LeadsBack (claim_of charted.entry) depth (machine_of path.old)
        (row charted.entry.table.form.slices (machine_of path.old) (Sleep t)) }
{
    for task in 0..tasks {
        if !task_leads_back(charted, depth, task, began, path, hand) {
            return false;
        }
    }
    true
}

/// True if the wake and the sleep of that task lead back.
fn task_leads_back(
    charted: Charted<'_>,
    depth: usize,
    task: u16,
    began: u64,
    path: &mut Path,
    hand: &mut Hand,
) -> bool
    ensures same { path.new ≡ path.old }
    ensures wakes { result ≡ true
        → LeadsBack (claim_of charted.entry) depth (machine_of path.old)
        (row charted.entry.table.form.slices (machine_of path.old) (Wake task)) }
    ensures sleeps { result ≡ true
        → LeadsBack (claim_of charted.entry) depth (machine_of path.old)
        (row charted.entry.table.form.slices (machine_of path.old) (Sleep task)) }
{
    if !event_leads_back(charted, depth, Event::Wake(task), began, path, hand) {
        return false;
    }
    event_leads_back(charted, depth, Event::Sleep(task), began, path, hand)
}

/// True if ticks of the first `cpus` CPUs lead back.
fn cpus_lead_back(
    charted: Charted<'_>,
    depth: usize,
    cpus: u32,
    began: u64,
    path: &mut Path,
    hand: &mut Hand,
) -> bool
    ensures same { path.new ≡ path.old }
    ensures ticks { result ≡ true → (k : ℕ) → k < cpus
        → LeadsBack (claim_of charted.entry) depth (machine_of path.old)
        (row charted.entry.table.form.slices (machine_of path.old) (Tick k)) }
{
    for cpu in 0..cpus {
        if !event_leads_back(charted, depth, Event::Tick(cpu), began, path, hand) {
            return false;
        }
    }
    true
}

/// True if the event leads back: once, or a tick until the slice of the CPU's task ends, if states keep no slices.
fn event_leads_back(
    charted: Charted<'_>,
    depth: usize,
    event: Event,
    began: u64,
    path: &mut Path,
    hand: &mut Hand,
) -> bool
    ensures same { path.new ≡ path.old }
    ensures back { result ≡ true
        → LeadsBack (claim_of charted.entry) depth (machine_of path.old)
        (row charted.entry.table.form.slices (machine_of path.old) event) }
{
    begin(hand, path, began);
    let times = times_in(charted.table.form, path.sim(), event);
    many_lead_back(charted, depth, event, times, path, hand)
}

/// True if the event leads back, that many times in a row.
fn many_lead_back(
    charted: Charted<'_>,
    depth: usize,
    event: Event,
    times: u64,
    path: &mut Path,
    hand: &mut Hand,
) -> bool
    requires { 1 ≤ times }
    ensures same { path.new ≡ path.old }
    ensures back { result ≡ true
        → LeadsBack (claim_of charted.entry) depth (machine_of path.old)
        (replicate times event) }
{
    let length = path.events().len();
    for number in 1..times {
        match go_along(charted.table.sorts, event, path, hand) {
            Went::There => {}
            Went::Over => {
                path.go_back(length);
                return true;
            }
            Went::Shows => {
                path.go_back(length);
                return false;
            }
        }
    }
    let leads = last_leads_back(charted, depth, event, path, hand);
    path.go_back(length);
    leads
}
