ghost use Rattle.std.specs.Prelude.{◌≡◌, ◌<◌, true, All, None, length};
ghost use Rattle.scx_load_driver.specs.Runs.{AreAccepted};
ghost use Rattle.scx_explore_findings.specs.Path.{machine_of};
ghost use Rattle.scx_explore_audit.specs.Claims.{IsTried};

use crate::depths::{depth_of, is_within};
use crate::table::Charted;
use scx_explore_bounds::{count_of, event_at, places};
use scx_explore_findings::Path;
use scx_explore_machines::Seen;
use scx_explore_states::Step;
use scx_sched::{Event, Unseen};

/// The number of halvings of a list of states.
const HALVES: u32 = 64;

/// Comes to the state after that one, whose list the path is: to the first one that it led to, or to the next one that
/// the same state led to, or one before it. There is none after the last one, and none is come to where a list may
/// have no more moves.
pub(crate) fn come_on(charted: Charted<'_>, state: usize, path: &mut Path) -> Option<usize>
    requires { All (IsTried path.old.root) path.old.events }
    ensures root { path.new.root ≡ path.old.root }
    ensures room { path.new.room ≡ path.old.room }
    ensures tried { All (IsTried path.new.root) path.new.events }
{
    let length = path.events().len();
    let (next, before) = next_of(charted, state, length, cpus_of(path))?;
    if come_to(charted.table.seen, next, before, path) {
        Some(next)
    } else {
        None
    }
}

/// The state after that one, whose list has `length` events, and the number of events to the state before it.
fn next_of(charted: Charted<'_>, state: usize, length: usize, cpus: u32) -> Option<(usize, usize)> {
    match first_behind(charted, state) {
        Some(child) => Some((child, length)),
        None => next_beside(charted.table.seen, state, length, cpus),
    }
}

/// Comes to that state from the one at that length of the list. Answers false where there is no way.
fn come_to(seen: &Seen, state: usize, length: usize, path: &mut Path) -> bool
    requires { All (IsTried path.old.root) path.old.events }
    ensures root { path.new.root ≡ path.old.root }
    ensures room { path.new.room ≡ path.old.room }
    ensures tried { All (IsTried path.new.root) path.new.events }
{
    go_back(path, length);
    match seen.way(state) {
        Some(way) => go_on_by(path, way.step),
        None => false,
    }
}

/// Goes back to the first `depth` events.
fn go_back(path: &mut Path, depth: usize)
    requires { All (IsTried path.old.root) path.old.events }
    ensures root { path.new.root ≡ path.old.root }
    ensures room { path.new.room ≡ path.old.room }
    ensures tried { All (IsTried path.new.root) path.new.events }
{
    path.go_back(depth);
}

/// Goes on by each event of the step, as long as that can be.
fn go_on_by(path: &mut Path, step: Step) -> bool
    requires { All (IsTried path.old.root) path.old.events }
    ensures root { path.new.root ≡ path.old.root }
    ensures room { path.new.room ≡ path.old.room }
    ensures tried { All (IsTried path.new.root) path.new.events }
{
    let cpus = cpus_of(path);
    for place in 0..places(step, cpus) {
        if !go_on_at(path, step, cpus, place) {
            return false;
        }
    }
    true
}

/// Goes on by the event in that place of a step, if there is one.
fn go_on_at(path: &mut Path, step: Step, cpus: u32, place: usize) -> bool
    requires { All (IsTried path.old.root) path.old.events }
    ensures root { path.new.root ≡ path.old.root }
    ensures room { path.new.room ≡ path.old.room }
    ensures tried { All (IsTried path.new.root) path.new.events }
{
    match event_at(step, cpus, place) {
        Some(event) => go_on(path, event),
        None => true,
    }
}

/// Goes on by the event. Answers false where that can't be, or isn't audited.
fn go_on(path: &mut Path, event: Event) -> bool
    requires { All (IsTried path.old.root) path.old.events }
    ensures root { path.new.root ≡ path.old.root }
    ensures room { path.new.room ≡ path.old.room }
    ensures tried { All (IsTried path.new.root) path.new.events }
{
    if !has_room(path) {
        return false;
    }
    if !is_tried(path, event) {
        return false;
    }
    path.go_on(event, &mut Unseen).is_ok()
}

/// True if it is an event of the machine's tasks, of its CPUs, or of the clock.
fn is_tried(path: &Path, event: Event) -> bool
    ensures { result ≡ true → IsTried path.now.root event }
{
    match event {
        Event::Wake(task) => task < tasks_of(path),
        Event::Sleep(task) => task < tasks_of(path),
        Event::Tick(cpu) => cpu < cpus_of(path),
        Event::Clock => true,
        Event::SetWeight(_, _) | Event::SetTaskWeight(_, _) => false,
    }
}

/// The first state to which that one led, if lists go on after it.
fn first_behind(charted: Charted<'_>, state: usize) -> Option<usize> {
    let first = first_from(charted.table.seen, state)?;
    if is_within(charted.table.limit, depth_of(charted, first)) {
        Some(first)
    } else {
        None
    }
}

/// The first state to which that one led. States are numbered in the order of those that led to them.
fn first_from(seen: &Seen, state: usize) -> Option<usize> {
    let mut low = state;
    let mut high = seen.len();
    for _ in 0..HALVES {
        if low.saturating_add(1) >= high {
            break;
        }
        let middle = low.saturating_add(high.saturating_sub(low) / 2);
        if is_from_before(seen, middle, state) {
            low = middle;
        } else {
            high = middle;
        }
    }
    if is_from(seen, high, state) {
        Some(high)
    } else {
        None
    }
}

/// True if a state before that one led to the state.
fn is_from_before(seen: &Seen, state: usize, from: usize) -> bool {
    match seen.way(state) {
        Some(way) => way.from < from,
        None => false,
    }
}

/// True if that one led to the state. Nothing led to the first one.
fn is_from(seen: &Seen, state: usize, from: usize) -> bool {
    match seen.way(state) {
        Some(way) => state > 0 && way.from == from,
        None => false,
    }
}

/// The next state that the same one led to, or one before that, and how many events lead to the state before it.
fn next_beside(seen: &Seen, state: usize, length: usize, cpus: u32) -> Option<(usize, usize)> {
    let mut at = state;
    let mut before = length;
    for _ in 0..length {
        if at == 0 {
            return None;
        }
        let way = seen.way(at)?;
        before = before.saturating_sub(count_of(way.step, cpus));
        let next = at.saturating_add(1);
        if is_from(seen, next, way.from) {
            return Some((next, before));
        }
        at = way.from;
    }
    None
}

/// The number of tasks of the machine.
pub(crate) fn tasks_of(path: &Path) -> u16
    ensures { result ≡ length path.now.root.state.world.tasks }
{
    let first = path.sim_at(0);
    first.tasks()
}

/// The number of CPUs of the machine.
pub(crate) fn cpus_of(path: &Path) -> u32
    ensures { result ≡ length path.now.root.state.world.cpus }
{
    let first = path.sim_at(0);
    first.cpus()
}

/// True if the list may have one more event.
pub(crate) fn has_room(path: &Path) -> bool
    ensures room { result ≡ true → length path.now.events < path.now.room }
    ensures accepted { AreAccepted path.now.root path.now.events }
{
    path.events().len() < path.room()
}

/// True if the policy is in force after the list.
pub(crate) fn is_in_force(path: &Path) -> bool
    ensures { result ≡ true → (machine_of path.now).state.world.ejected ≡ None }
{
    let sim = path.sim();
    sim.ejected().is_none()
}
