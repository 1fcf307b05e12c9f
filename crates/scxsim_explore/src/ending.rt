ghost use Rattle.std.specs.Prelude.{◌≡◌, ◌≢◌, ◌≤◌, ◌⊎◌, ◌∷◌, ◌++◌, [], false, true, All, IfOk, OnOk, length, take};
ghost use Rattle.scxsim_output.specs.Output.{Counts};
ghost use Rattle.scx_explore.specs.Ends.{IsEndOf};
ghost use Rattle.scx_explore_findings.specs.Path.{IsAs};
ghost use Rattle.scxsim_explore_lines.specs.Summary.{nones_of};
ghost use Rattle.scx_sched_world.specs.World.{binds};
ghost use Rattle.scxsim_explore.specs.Telling.{HasNone, IsTold, tracks_idle};
ghost use Rattle.scxsim_explore.specs.Lists.{HasLists, HasTold, IsKept};
ghost use Rattle.scxsim_explore.specs.Unfound.{misfit_of, reach_of};

use crate::auditing::look_again;
use crate::beginning::Begun;
use crate::showing::{write_list, write_lists};
use crate::telling::list_of;
use crate::watcher::Watcher;
use scx_explore::{Course, End, Form, Found, Mode, SORTS, Search, Sort, Starts};
use scx_isa::{CALLBACKS, Rules};
use scx_load_workloads::Workload;
use scx_sched::Sim;
use scxsim_explore_lines::{
    Reached, Told, Unfound, are_all_answered, is_sought, write_memory, write_search, write_summary,
};
use scxsim_output::{Failed, Out};

/// Writes what was found and what wasn't, the lists of what was found, the longest wait and the most instructions of
/// callbacks, and how far the search came. The answer is false if memory ran out meanwhile, which the last line says.
pub(crate) fn write_end<V: Watcher, W: Out>(
    begun: &mut Begun,
    teller: &mut Sim,
    form: Form,
    about: &Workload,
    course: &Course,
    end: End,
    found: &[Told],
    watcher: &mut V,
    out: &mut W,
) -> Result<bool, Failed>
    requires end { IsEndOf course.now.bounds course.now.last end }
    requires kept { All (IsKept course.now.bounds.mode about.now begun.old.machines) found.now }
    requires alike { IsAs begun.old.machines teller.old }
    ensures ok { IfOk result (λ whole. IsTold form about.now begun.old.machines
        course.now.bounds whole (W.contents out.old) (W.contents out.new)) }
    ensures memory { IfOk result (λ whole. whole ≡ true → begun.new.is_whole ≡ true) }
    ensures failures { Counts result (W.failure_count out.old) (W.failure_count out.new) }
{
    let mut places = SORTS;
    let starts = begun.starts;
    let asked = asked_in(begun, course.bounds.mode);
    let count = gather_unfound(&begun.search, asked, found, &mut places);
    let sorts = &places[..count];
    let unfound = Unfound {
        bounds: course.bounds,
        reach: reach_of(end),
        sorts,
        has_all_faults: are_all_answered(asked.tracks_idle, asked.are_bound, found, sorts),
        is_overtaken: is_unfound(&begun.search, found, Sort::Overtaken),
        again: None,
    };
    let looked = look_again(begun, form, about, course, end, unfound);
    watcher.pause();
    write_all_lists(begun, teller, about, found, looked.unfound, out)?;
    let reached = Reached {
        are_tasks_alike: begun.search.are_tasks_alike(),
        levels: course.levels(),
        last: course.last,
        misfit: misfit_of(end),
    };
    write_search(starts, course.bounds.mode, reached, out)?;
    write_memory(looked.is_whole && begun.is_whole, out)
}

/// Writes the summary, the lists of its lines, and those of the longest wait and the most instructions.
fn write_all_lists<W: Out>(
    begun: &mut Begun,
    teller: &mut Sim,
    about: &Workload,
    found: &[Told],
    unfound: Unfound<'_>,
    out: &mut W,
) -> Result<(), Failed>
    requires kept { All (IsKept unfound.bounds.mode about.now begun.old.machines) found.now }
    requires alike { IsAs begun.old.machines teller.old }
    ensures same { begun.new.machines ≡ begun.old.machines }
    ensures told { OnOk result (HasLists about.now begun.old.machines found.now
        (nones_of unfound.entry) (W.contents out.old) (W.contents out.new)) }
    ensures failures { Counts result (W.failure_count out.old) (W.failure_count out.new) }
{
    let mode = unfound.bounds.mode;
    write_summary(about, found, unfound, out)?;
    write_lists(begun.machines.first(), teller, about, mode, found, out)?;
    write_most(begun, teller, about, mode, out)
}

/// Writes the longest wait, if there is one, and the most instructions of each callback that was called.
fn write_most<W: Out>(
    begun: &mut Begun,
    teller: &mut Sim,
    about: &Workload,
    mode: Mode,
    out: &mut W,
) -> Result<(), Failed>
    requires { IsAs begun.old.machines teller.old }
    ensures same { begun.new.machines ≡ begun.old.machines }
    ensures told { OnOk result (HasTold mode about.now begun.old.machines
        (W.contents out.old) (W.contents out.new)) }
    ensures failures { Counts result (W.failure_count out.old) (W.failure_count out.new) }
{
    let wait = begun.search.longest_wait();
    write_one(begun, teller, about, mode, wait, out)?;
    for callback in CALLBACKS {
        let most = begun.search.most_instructions(callback);
        write_one(begun, teller, about, mode, most, out)?;
    }
    Ok(())
}

/// Writes the list of what was found, if something was and machines that weren't searched show it too.
fn write_one<W: Out>(
    begun: &mut Begun,
    teller: &mut Sim,
    about: &Workload,
    mode: Mode,
    found: Option<Found>,
    out: &mut W,
) -> Result<(), Failed>
    requires { IsAs begun.old.machines teller.old }
    ensures same { begun.new.machines ≡ begun.old.machines }
    ensures alike { OnOk result (IsAs begun.old.machines teller.new) }
    ensures told { OnOk result (HasTold mode about.now begun.old.machines
        (W.contents out.old) (W.contents out.new)) }
    ensures failures { Counts result (W.failure_count out.old) (W.failure_count out.new) }
{
    let Some(list) = list_of(begun, about, mode, found) else {
        return Ok(());
    };
    let written = write_list(begun.machines.first(), teller, about, mode, &list, out);
    drop(list);
    written
}

/// The greatest length of which all lists were tried; none if no list leads to a further state.
fn reach_of(end: End) -> Option<usize>
    ensures { result ≡ reach_of end }
{
    match end {
        End::Ended => None,
        End::At(depth) | End::Full(depth) => Some(depth),
    }
}

/// The lists that are asked for sorts.
#[derive(Clone, Copy)]
struct Asked {
    mode: Mode,
    /// True if a callback may end the policy.
    may_exit: bool,
    /// True if the host tracks idle CPUs, so that no callback asks it in vain.
    tracks_idle: bool,
    /// True if tasks are bound to CPUs.
    are_bound: bool,
}

/// True if a callback may end the policy: Linux rules alone know that helper.
fn may_exit(sim: &Sim) -> bool {
    sim.world().rules() == Rules::Linux
}

/// True if the host tracks idle CPUs: where the policy has no `update_idle`, or wants both.
fn tracks_idle(starts: Starts, sim: &Sim) -> bool
    ensures { result ≡ tracks_idle starts sim.now }
{
    starts.update_idle.is_none() || sim.policy().keeps_idle()
}

/// The lists that are asked for sorts in that mode.
fn asked_in(begun: &Begun, mode: Mode) -> Asked
    ensures mode { result.mode ≡ mode }
    ensures tracks { result.tracks_idle ≡ tracks_idle begun.now.starts begun.now.machines }
    ensures bound { result.are_bound ≡ binds begun.now.machines.state.world }
{
    Asked {
        mode,
        may_exit: may_exit(begun.machines.first()),
        tracks_idle: tracks_idle(begun.starts, begun.machines.first()),
        are_bound: begun.machines.first().world().binds(),
    }
}

/// Gathers the sorts that weren't found, without overtaken tasks, and returns their number. Of lists of events stalls
/// aren't among them.
fn gather_unfound(search: &Search, asked: Asked, found: &[Told], places: &mut [Sort]) -> usize
    ensures most { result ≤ length places.new }
    ensures none { All (HasNone found.now) (take result places.new) }
    ensures stalls { asked.mode ≡ Mode.Events
        → All (λ x. x ≢ Sort.Stall) (take result places.new) }
{
    let mut count = 0;
    for sort in SORTS {
        if is_asked_about(sort, asked) && is_unfound(search, found, sort) {
            count = put(places, count, sort);
        }
    }
    count
}

/// True if nothing of that sort was found, and no list of what was found ends so.
fn is_unfound(search: &Search, found: &[Told], sort: Sort) -> bool
    ensures { result ≡ true → HasNone found.now sort }
{
    !search.has_found(sort) && has_none(found, sort)
}

/// True if no list ends in something of that sort.
fn has_none(found: &[Told], sort: Sort) -> bool
    ensures { result ≡ true → HasNone found.now sort }
{
    for told in found {
        if told.is_of(sort) {
            return false;
        }
    }
    true
}

/// Puts a sort after the first `count`, if there is a place, and returns how many there are then.
fn put(places: &mut [Sort], count: usize, sort: Sort) -> usize
    ensures most { count ≤ length places.old → result ≤ length places.new }
    ensures put { (take result places.new ≡ take count places.old)
        ⊎ (take result places.new ≡ take count places.old ++ sort ∷ []) }
{
    if count < places.len() {
        places[count] = sort;
        count + 1
    } else {
        count
    }
}

/// True if the lists are asked about that sort. If clocks are free, each policy has stalls.
fn is_asked_about(sort: Sort, asked: Asked) -> bool
    ensures { asked.mode ≡ Mode.Events → sort ≡ Sort.Stall → result ≡ false }
{
    match sort {
        Sort::Fault(fault) => is_sought(fault, asked.tracks_idle, asked.are_bound),
        Sort::Idle => true,
        Sort::Stall => asked.mode != Mode::Events,
        Sort::Overtaken => false,
        Sort::Exit => asked.may_exit,
    }
}

/// The depth that doesn't fit, if one is too large.
fn misfit_of(end: End) -> Option<u64>
    ensures { result ≡ misfit_of end }
{
    match end {
        End::Ended | End::At(_) => None,
        End::Full(depth) => Some((depth as u64).saturating_add(1)),
    }
}
