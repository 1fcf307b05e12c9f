ghost use Rattle.std.specs.Prelude.{◌≡◌, ◌<◌, ◌+◌, true, None, All, length};
ghost use Rattle.scx_load_driver.specs.Runs.{AreAccepted};
ghost use Rattle.scx_explore_findings.specs.Path.{machine_of};
ghost use Rattle.scx_explore_states.specs.Written.{IsWritten};
ghost use Rattle.scx_explore_audit.specs.Claims.{IsTried};
ghost use Rattle.scx_explore_audit.specs.Closed.{IsDone, IsMet, IsSettled, IsWithin, claim_of, depth_at};

use crate::depths::{depth_of, is_no_deeper, is_past, is_within};
use crate::moves::moves_lead_back;
use crate::room::{is_early, rows_fit};
use crate::table::{Charted, Hand, Table};
use crate::walking::{has_room, is_in_force};
use scx_explore_findings::Path;
use scx_sched::Sim;

/// True if the machine after the list is in the state of that number, and no move leads out of the table from there;
/// true at once where a list that leads there may have no more moves.
pub(crate) fn is_done(charted: Charted<'_>, state: usize, path: &mut Path, hand: &mut Hand) -> bool
    requires there { state < charted.table.seen.now.count }
    requires tried { All (IsTried path.old.root) path.old.events }
    ensures same { path.new ≡ path.old }
    ensures done { result ≡ true
        → IsSettled (claim_of charted.entry) path.old.root path.old.room state }
{
    if is_past(charted, state) {
        return true;
    }
    if !has_room(path) {
        return false;
    }
    if !is_in_force(path) {
        return false;
    }
    let Some(next) = depth_of(charted, state).checked_add(1) else {
        return false;
    };
    is_done_here(charted, state, next, path, hand)
}

/// True if the state is done, of a list that isn't too long, under a policy in force; `next` moves lead to those after it.
fn is_done_here(
    charted: Charted<'_>,
    state: usize,
    next: usize,
    path: &mut Path,
    hand: &mut Hand,
) -> bool
    requires there { state < charted.table.seen.now.count }
    requires next { next ≡ depth_at (claim_of charted) state + 1 }
    requires tried { All (IsTried path.old.root) path.old.events }
    requires accepted { AreAccepted path.old.root path.old.events }
    requires few { length path.old.events < path.old.room }
    requires force { (machine_of path.old).state.world.ejected ≡ None }
    ensures same { path.new ≡ path.old }
    ensures done { result ≡ true
        → IsDone (claim_of charted.entry) path.old.root path.old.room state }
{
    let table = charted.table;
    let kept = table.seen.state(state);
    let here = path.sim();
    let began = table.form.began_in(here, kept, table.numbers);
    if !is_written(table, here, began, kept, hand) {
        return false;
    }
    if !is_early(table.form, here) {
        return false;
    }
    if !rows_fit(table, path) {
        return false;
    }
    moves_lead_back(charted, next, began, path, hand)
}

/// True if the state of that machine is written as those words.
fn is_written(table: Table<'_>, sim: &Sim, began: u64, kept: &[u64], hand: &mut Hand) -> bool
    ensures { result ≡ true → IsWritten table.entry.form table.entry.numbers.now kept.now sim.now }
{
    if !table
        .form
        .write_state(sim, began, table.numbers, &mut hand.words)
    {
        return false;
    }
    is_same(hand.words.as_slice(), kept)
}

fn is_same(one: &[u64], other: &[u64]) -> bool
    ensures { result ≡ true → one.now ≡ other.now }
{
    one == other
}

/// From the state after the list on these are watched.
pub(crate) fn begin(hand: &mut Hand, path: &Path, began: u64) {
    hand.heard.watch.begin(path.sim(), began);
}

/// True if the state of that machine, to which `depth` moves lead, is kept: with the tasks that were watched as they began
/// to run, or with none, once that isn't looked for any more. True at once if a list of `depth` moves may have no more.
pub(crate) fn is_met(charted: Charted<'_>, depth: usize, sim: &Sim, hand: &mut Hand) -> bool
    ensures { result ≡ true → IsWithin charted.entry.table.limit depth
        → IsMet (claim_of charted.entry) depth sim.now }
{
    if !is_within(charted.table.limit, depth) {
        return true;
    }
    let began = hand.heard.watch.watched().began;
    if is_met_with(charted, depth, sim, began, hand) {
        return true;
    }
    is_met_with(charted, depth, sim, 0, hand)
}

/// True if it is kept with these.
fn is_met_with(charted: Charted<'_>, depth: usize, sim: &Sim, began: u64, hand: &mut Hand) -> bool
    ensures { result ≡ true → IsMet (claim_of charted.entry) depth sim.now }
{
    let table = charted.table;
    if !table
        .form
        .write_state(sim, began, table.numbers, &mut hand.words)
    {
        return false;
    }
    match table.seen.number_of(hand.words.as_slice()) {
        Some(number) => is_no_deeper(charted, number, depth),
        None => false,
    }
}
