ghost use Rattle.std.specs.Prelude.{◌≡◌, ◌≢◌, ◌≤◌, ◌⊎◌, true, false, [], List, length, Some, None, Ok, IfSome, IfOk, IsSome, IsOk, IsErr};
ghost use Rattle.scxsim_explore_lines.specs.Found.{ToldList};
ghost use Rattle.scxsim_explore_lines.specs.Summary.{nones_of};
ghost use Rattle.scx_explore.specs.Ends.{done_of};
ghost use Rattle.scx_explore.specs.declared.starts.Starts.{Starts};
ghost use Rattle.scx_explore_bounds.specs.Repeats.{most_in_rows};
ghost use Rattle.scxsim_explore.specs.Telling.{AreApart, CantBeLooked, HasNoChanges, IsGoneThrough, IsSure, MayBeLooked, moves_of};
ghost use Rattle.scxsim_explore.specs.Unfound.{concluded};

use crate::beginning::Begun;
use scx_explore::{Bounds, Course, End, Form, Mode, Search};
use scx_explore_audit::{Moves, Table, none_in_lists};
use scx_explore_bounds::most_in_rows;
use scx_explore_findings::Path;
use scx_explore_machines::most_machines;
use scx_load_workloads::Workload;
use scx_sched::Sim;
use scxsim_explore_lines::Unfound;
use std::alloc::{AllocError, Global};

/// The sorts that are in none of the lists, after an audit of the states if there was one.
#[derive(Clone, Copy)]
pub(crate) struct Audited<'a> {
    pub(crate) unfound: Unfound<'a>,
    /// True unless memory ran out for the audit.
    pub(crate) is_whole: bool,
}

/// Audits the states if all lists are made of the moves that an audit tries. If something is shown then, a state is
/// missing, or the audit has no room, the answer is only about lists as long as those that were searched.
pub(crate) fn look_again<'a>(
    begun: &Begun,
    form: Form,
    about: &Workload,
    course: &Course,
    end: End,
    unfound: Unfound<'a>,
) -> Audited<'a>
    ensures bounds { result.unfound.bounds ≡ unfound.entry.bounds }
    ensures apart { (starts : Starts) (found : List ToldList)
        → AreApart starts begun.now.machines found (nones_of unfound.entry)
        → AreApart starts begun.now.machines found (nones_of result.unfound) }
    ensures again { IfSome result.unfound.again
        (IsGoneThrough form about.now begun.now.machines (nones_of result.unfound)) }
    ensures any { result.unfound.reach ≡ None → unfound.entry.reach ≡ None }
    ensures looked { result.unfound.reach ≡ None
        → IsSome result.unfound.again ⊎ CantBeLooked unfound.entry.bounds about.now }
    ensures some { IfSome result.unfound.reach (λ depth. (unfound.entry.reach ≡ Some depth)
        ⊎ ((unfound.entry.reach ≡ None) × (depth ≡ done_of course.now.last))) }
{
    let Some(moves) = moves_within(unfound.bounds, about) else {
        return Audited {
            unfound: unlooked(unfound, unfound.reach),
            is_whole: true,
        };
    };
    let closed = is_closed(begun, form, about, course, end, moves, unfound);
    concluded(closed, course.done(), moves, unfound)
}

/// Puts the answer of an audit into what was found in none of the lists. All lists of `done` steps were searched.
fn concluded<'a>(
    closed: Result<bool, AllocError>,
    done: usize,
    moves: Moves,
    unfound: Unfound<'a>,
) -> Audited<'a>
    ensures nones { nones_of result.unfound
        ≡ concluded closed done moves (nones_of unfound.entry) }
    ensures memory { IsErr closed → result.is_whole ≡ false }
    ensures whole { IsOk closed → result.is_whole ≡ true }
{
    let searched = unlooked(unfound, Some(unfound.reach.unwrap_or(done)));
    match closed {
        Ok(true) => Audited {
            unfound: looked(unfound, moves),
            is_whole: true,
        },
        Ok(false) => Audited {
            unfound: searched,
            is_whole: true,
        },
        Err(AllocError) => Audited {
            unfound: searched,
            is_whole: false,
        },
    }
}

fn unlooked<'a>(unfound: Unfound<'a>, reach: Option<usize>) -> Unfound<'a>
    ensures { nones_of result ≡ record (nones_of unfound.entry) { again = None; reach = reach } }
{
    Unfound {
        reach,
        again: None,
        ..unfound
    }
}

fn looked<'a>(unfound: Unfound<'a>, moves: Moves) -> Unfound<'a>
    ensures { nones_of result ≡ record (nones_of unfound.entry) { again = Some moves } }
{
    Unfound {
        again: Some(moves),
        ..unfound
    }
}

/// True if each state that was met is kept.
fn is_kept_whole(search: &Search, end: End) -> bool {
    match end {
        End::Ended | End::At(_) => search.keeps_all(),
        End::Full(_) => false,
    }
}

/// The moves that an audit tries, if all lists within the bounds are made of them.
fn moves_within(bounds: Bounds, about: &Workload) -> Option<Moves>
    ensures may { IfSome result (MayBeLooked bounds about.now) }
    ensures cant { result ≡ None → CantBeLooked bounds about.now }
{
    match bounds.few {
        Some(_) => None,
        None => moves_in(bounds.mode, about),
    }
}

/// The moves of lists of the mode, if no weight changes in them.
fn moves_in(mode: Mode, about: &Workload) -> Option<Moves>
    ensures of_mode { IfSome result (λ moves. moves_of mode ≡ Some moves) }
    ensures changes { IfSome result (λ moves. HasNoChanges mode about.now) }
    ensures none { result ≡ None → IsSome (moves_of mode) → ¬ HasNoChanges mode about.now }
{
    match mode {
        Mode::Events => event_moves(about),
        Mode::Milliseconds => Some(Moves::Milliseconds),
        Mode::Workloads => None,
    }
}

fn event_moves(about: &Workload) -> Option<Moves>
    ensures of_mode { IfSome result (λ moves. moves ≡ Moves.Events) }
    ensures changes { IfSome result (λ moves. about.now.changes ≡ []) }
    ensures none { result ≡ None → about.now.changes ≢ [] }
{
    if about.changes().is_empty() {
        Some(Moves::Events)
    } else {
        None
    }
}

/// Returns whether each state is kept that was met, no state is missing, and no list shows anything of the sorts. The
/// answer is also false if nothing is asked about, or if lists may have more events than there may be machines.
///
/// # Errors
///
/// Memory runs out.
fn is_closed(
    begun: &Begun,
    form: Form,
    about: &Workload,
    course: &Course,
    end: End,
    moves: Moves,
    unfound: Unfound<'_>,
) -> Result<bool, AllocError>
    ensures { result ≡ Ok true → IsSure form unfound.entry.bounds moves
        unfound.entry.reach unfound.entry.sorts.now begun.now.machines }
{
    let first = begun.machines.first();
    let (count, most) = (machines_of(begun, course), most_machines(first));
    if unfound.sorts.is_empty() || count > most || !is_kept_whole(&begun.search, end) {
        return Ok(false);
    }
    let mut path = path_in(begun.machines.alloc(), first, count)?;
    let closed = is_closed_along(begun, form, about, moves, unfound, &mut path);
    drop(path);
    closed
}

/// The number of machines that it takes: one for each event of the longest list of a state and one move more.
fn machines_of(begun: &Begun, course: &Course) -> usize {
    let searched = Bounds {
        depth: course.done(),
        ..course.bounds
    };
    Search::most_events(searched, begun.machines.first()).saturating_mul(begun.search.longest_row())
}

/// A path from that machine along lists of at most `count` events.
///
/// # Errors
///
/// Memory runs out.
fn path_in(alloc: Global, first: &Sim, count: usize) -> Result<Path, AllocError>
    ensures { IfOk result (λ path. path.root ≡ first.now) }
{
    let root = first.duplicate(alloc)?;
    Path::new(alloc, root, count)
}

/// As `is_closed`, along a path from the machine in which lists begin.
fn is_closed_along(
    begun: &Begun,
    form: Form,
    about: &Workload,
    moves: Moves,
    unfound: Unfound<'_>,
    path: &mut Path,
) -> Result<bool, AllocError>
    ensures { result ≡ Ok true → IsSure form unfound.entry.bounds moves
        unfound.entry.reach unfound.entry.sorts.now path.old.root }
{
    if !is_within(path, form, unfound.bounds) {
        return Ok(false);
    }
    let table = Table {
        form,
        numbers: begun.search.numbers(),
        seen: begun.search.seen(),
        sorts: unfound.sorts,
        moves,
        limit: unfound.reach,
    };
    none_in_lists(begun.machines.alloc(), table, about.tasks(), path)
}

/// True if the longest lists within the bounds have no fewer events than the path has room for.
fn is_within(path: &Path, form: Form, bounds: Bounds) -> bool
    ensures { result ≡ true → path.now.room ≤ most_in_rows form.slices bounds
        (length path.now.root.state.world.tasks) (length path.now.root.state.world.cpus) }
{
    path.room() <= most_in_rows(form, bounds, path.sim_at(0))
}
