ghost use Rattle.std.specs.Prelude.{ℕ, ◌≡◌, ◌<◌, true, length, All, IfOk, None};
ghost use Rattle.scx_explore_findings.specs.Path.{machine_of};
ghost use Rattle.scx_explore_audit.specs.Claims.{IsTried};
ghost use Rattle.scx_explore_audit.specs.Closed.{AreNumbersOf, IsClosed, IsMet, IsSettled, IsWithin, FollowsRuns, claim_of};
ghost use Rattle.scx_explore_audit.specs.Laws.{NoneIn};
ghost use Rattle.scx_explore_audit.specs.Marks.{ArePast};
ghost use Rattle.scx_explore_audit.specs.Whole.{NeedsNoPremise};

use crate::depths::{depths_of, marks_of};
use crate::queues::are_queues;
use crate::states::{begin, is_done, is_met};
use crate::table::{Charted, Hand, Table};
use crate::walking::{come_on, is_in_force};
use scx_explore_findings::{Heard, Path, Watch};
use std::alloc::{AllocError, Global};

/// True if the table is closed: the first state is kept, and from no state that is kept a move leads out of it, or
/// shows any of the sorts, where a list may have one more move. The path's machine is the one in which lists begin, and
/// it has room for the events of each list that leads to a state and of one move more; the tasks' groups are those of
/// the list. Weights don't change.
///
/// # Errors
///
/// Memory runs out.
pub fn none_in_lists(
    alloc: Global,
    table: Table<'_>,
    homes: &[u32],
    path: &mut Path,
) -> Result<bool, AllocError>
    // Where it is, the numbers are those of queues of the path's machine, and no list of such moves shows anything of
    // the sorts, if what the form leaves out of a state changes nothing, where callbacks run as they were verified.
    ensures numbers { IfOk result (λ closed. closed ≡ true
        → AreNumbersOf path.old.root table.entry.numbers.now) }
    ensures none { IfOk result (λ closed. closed ≡ true
        → FollowsRuns table.entry.form table.entry.numbers.now table.entry.moves
        table.entry.sorts.now path.old.root path.old.room
        → NoneIn table.entry.moves table.entry.limit table.entry.sorts.now path.old.root) }
    // Of a form that keeps everything that is proved.
    ensures whole { IfOk result (λ closed. closed ≡ true
        → NeedsNoPremise table.entry.form table.entry.moves table.entry.limit
        table.entry.sorts.now path.old.root path.old.room) }
{
    let depths = depths_of(alloc, table.seen)?;
    let charted = Charted {
        table,
        depths: depths.as_slice(),
    };
    let closed = is_audited(alloc, charted, homes, path);
    drop(depths);
    closed
}

/// True if queues alone have numbers, and the table is closed.
fn is_audited(
    alloc: Global,
    charted: Charted<'_>,
    homes: &[u32],
    path: &mut Path,
) -> Result<bool, AllocError>
    ensures numbers { IfOk result (λ closed. closed ≡ true
        → AreNumbersOf path.old.root charted.entry.table.numbers.now) }
    ensures closed { IfOk result (λ closed. closed ≡ true
        → IsClosed (claim_of charted.entry) path.old.root path.old.room) }
{
    let numbered = are_queues(alloc, charted, path)?;
    if !numbered {
        return Ok(false);
    }
    is_charted_closed(alloc, charted, homes, path)
}

/// True if the table is closed.
fn is_charted_closed(
    alloc: Global,
    charted: Charted<'_>,
    homes: &[u32],
    path: &mut Path,
) -> Result<bool, AllocError>
    ensures { IfOk result (λ closed. closed ≡ true
        → IsClosed (claim_of charted.entry) path.old.root path.old.room) }
{
    let mut marks = marks_of(alloc, charted)?;
    let closed = is_closed_with(alloc, charted, homes, path, marks.as_mut_slice());
    drop(marks);
    closed
}

/// True if the table is closed, with a mark for each state.
fn is_closed_with(
    alloc: Global,
    charted: Charted<'_>,
    homes: &[u32],
    path: &mut Path,
    marks: &mut [bool],
) -> Result<bool, AllocError>
    requires each { length marks.old ≡ charted.table.seen.now.count }
    requires past { ArePast (claim_of charted) marks.old }
    ensures { IfOk result (λ closed. closed ≡ true
        → IsClosed (claim_of charted.entry) path.old.root path.old.room) }
{
    let words = Vec::with_capacity(alloc, charted.table.seen.width())?;
    let mut hand = Hand {
        heard: Heard {
            watch: Watch::new(homes),
        },
        words,
    };
    let closed = is_closed(charted, path, &mut hand, marks);
    drop(hand);
    Ok(closed)
}

/// True if the table is closed.
fn is_closed(charted: Charted<'_>, path: &mut Path, hand: &mut Hand, marks: &mut [bool]) -> bool
    requires each { length marks.old ≡ charted.table.seen.now.count }
    requires past { ArePast (claim_of charted) marks.old }
    ensures { result ≡ true → IsClosed (claim_of charted.entry) path.old.root path.old.room }
{
    path.go_back(0);
    begin(hand, path, 0);
    if !is_first_met(charted, path, hand) {
        return false;
    }
    are_done(charted, path, hand, marks)
}

/// True if the policy is in force after the list, and the state there is kept, if it is that of no move.
fn is_first_met(charted: Charted<'_>, path: &Path, hand: &mut Hand) -> bool
    ensures force { result ≡ true → (machine_of path.now).state.world.ejected ≡ None }
    ensures met { result ≡ true → IsWithin charted.entry.table.limit 0
        → IsMet (claim_of charted.entry) 0 (machine_of path.now) }
{
    if !is_in_force(path) {
        return false;
    }
    let first = path.sim();
    is_met(charted, 0, first, hand)
}

/// True if from no state a move leads out of the table. States come in the order of their lists, so that each
/// is come to by one move.
fn are_done(charted: Charted<'_>, path: &mut Path, hand: &mut Hand, marks: &mut [bool]) -> bool
    requires tried { All (IsTried path.old.root) path.old.events }
    requires each { length marks.old ≡ charted.table.seen.now.count }
    requires past { ArePast (claim_of charted) marks.old }
    ensures { result ≡ true → (k : ℕ) → k < charted.entry.table.seen.now.count
        → IsSettled (claim_of charted.entry) path.old.root path.old.room k }
{
    let mut state = 0;
    for _ in 0..marks.len() {
        if state >= marks.len() {
            return false;
        }
        if !is_done(charted, state, path, hand) {
            return false;
        }
        marks[state] = true;
        match come_on(charted, state, path) {
            Some(next) => state = next,
            None => return are_set(marks),
        }
    }
    false
}

/// True if each mark is set.
fn are_set(marks: &[bool]) -> bool
    ensures { result ≡ true → All (λ mark. mark ≡ true) marks.now }
{
    for at in 0..marks.len() {
        if !is_set(marks[at]) {
            return false;
        }
    }
    true
}

fn is_set(mark: bool) -> bool
    ensures { result ≡ true → mark ≡ true }
{
    mark
}
