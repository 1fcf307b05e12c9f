ghost use Rattle.std.specs.Prelude.{◌≡◌, ◌≤◌, true, false, length, All, IfOk, IfSome};
ghost use Rattle.scx_explore_audit.specs.Closed.{IsWithin, claim_of, depth_at};
ghost use Rattle.scx_explore_audit.specs.Marks.{ArePast};

use crate::table::Charted;
use scx_explore_machines::Seen;
use std::alloc::{AllocError, Global};

/// The number of moves to each state, by the ways that were kept. Nothing of that is trusted: if a number is wrong,
/// the table isn't found closed, or the number does no harm.
pub(crate) fn depths_of(alloc: Global, seen: &Seen) -> Result<Vec<usize>, AllocError> {
    let mut depths = vec![in alloc; 0; seen.len()]?;
    for state in 1..seen.len() {
        let depth = depth_behind(depths.as_slice(), seen, state);
        if let Some(place) = depths.get_mut(state) {
            *place = depth;
        }
    }
    Ok(depths)
}

/// One more than lead to the state that led to that one.
fn depth_behind(depths: &[usize], seen: &Seen, state: usize) -> usize {
    let Some(way) = seen.way(state) else {
        return 0;
    };
    match depths.get(way.from) {
        Some(depth) => depth.saturating_add(1),
        None => 0,
    }
}

/// The number of moves to a state.
pub(crate) fn depth_of(charted: Charted<'_>, state: usize) -> usize
    ensures { result ≡ depth_at (claim_of charted.entry) state }
{
    if state < charted.depths.len() {
        charted.depths[state]
    } else {
        0
    }
}

/// True if a list of `depth` moves may have one more.
pub(crate) fn is_within(limit: Option<usize>, depth: usize) -> bool
    ensures within { result ≡ true → IsWithin limit depth }
    ensures past { result ≡ false → IsWithin limit depth → ⊥ }
{
    match limit {
        Some(limit) => depth < limit,
        None => true,
    }
}

/// True if a list that leads to that state may have no more moves.
pub(crate) fn is_past(charted: Charted<'_>, state: usize) -> bool
    ensures { result ≡ true
        → IsWithin charted.entry.table.limit (depth_at (claim_of charted.entry) state) → ⊥ }
{
    let depth = depth_of(charted, state);
    !is_within(charted.table.limit, depth)
}

/// True if at most `depth` moves lead to that state, or their number isn't bounded.
pub(crate) fn is_no_deeper(charted: Charted<'_>, state: usize, depth: usize) -> bool
    ensures { result ≡ true → IfSome charted.entry.table.limit
        (λ limit. depth_at (claim_of charted.entry) state ≤ depth) }
{
    match charted.table.limit {
        Some(_) => depth_of(charted, state) <= depth,
        None => true,
    }
}

/// A mark for each state, set where a list that leads there may have no more moves.
pub(crate) fn marks_of(alloc: Global, charted: Charted<'_>) -> Result<Vec<bool>, AllocError>
    ensures each { IfOk result (λ marks. length marks.items ≡ charted.entry.table.seen.now.count) }
    ensures past { IfOk result (λ marks. ArePast (claim_of charted.entry) marks.items) }
{
    let mut marks = vec![in alloc; false; charted.table.seen.len()]?;
    mark_past(charted, marks.as_mut_slice());
    Ok(marks)
}

/// Sets the mark of each state to which a list leads that may have no more moves. No mark is set before.
fn mark_past(charted: Charted<'_>, marks: &mut [bool])
    requires { All (λ mark. mark ≡ false) marks.old }
    ensures { ArePast (claim_of charted.entry) marks.new }
{
    for state in 0..marks.len() {
        marks[state] = is_past(charted, state);
    }
}
