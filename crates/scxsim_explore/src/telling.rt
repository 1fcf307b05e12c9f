ghost use Rattle.std.specs.Prelude.{◌≡◌, All, false, None, IfSome, IfOk, IsOk, IsErr, OnOk, option_map, string_bytes};
ghost use Rattle.scx_explore.specs.Ends.{IsEndOf};
ghost use Rattle.scx_explore_findings.specs.Path.{IsAs};
ghost use Rattle.scx_load_replay.specs.WorkloadFiles.{IsFileOf};
ghost use Rattle.scxsim_output.specs.Output.{Counts};
ghost use Rattle.scxsim_explore.specs.Telling.{HasFile, IsTold};
ghost use Rattle.scxsim_explore.specs.Lists.{Adds, IsKept};

use crate::beginning::Begun;
use crate::ending::write_end;
use crate::machines::Machines;
use crate::showing::is_shown;
use crate::watcher::Watcher;
use scx_explore::{Bounds, Course, End, Form, Found, Mode, SORTS, Search};
use scx_load_replay::workload_file;
use scx_load_workloads::Workload;
use scx_sched::{Event, Sim};
use scxsim_explore_lines::{Told, cause_of};
use scxsim_output::{Failed, Out};
use std::alloc::{AllocError, Global};

/// The number of states after which a watcher is told of them.
const PACE: u64 = 1024;

/// Searches the lists, and writes what was found and how far the search came. The answer is false if memory ran out
/// meanwhile, which the last line says.
pub(crate) fn tell<V: Watcher, W: Out>(
    begun: &mut Begun,
    teller: &mut Sim,
    form: Form,
    about: &Workload,
    bounds: Bounds,
    watcher: &mut V,
    out: &mut W,
) -> Result<bool, Failed>
    requires { IsAs begun.old.machines teller.old }
    ensures ok { IfOk result (λ whole. IsTold form about.now begun.old.machines bounds
        whole (W.contents out.old) (W.contents out.new)) }
    ensures failures { Counts result (W.failure_count out.old) (W.failure_count out.new) }
{
    let mut course = Course::new(bounds);
    let end = search(&mut begun.search, &mut course, watcher);
    let found = gather_found(begun, about, bounds.mode);
    let lists = found.as_slice();
    let told = write_end(
        begun, teller, form, about, &course, end, lists, watcher, out,
    );
    drop(found);
    told
}

/// Searches the lists.
fn search<V: Watcher>(search: &mut Search, course: &mut Course, watcher: &mut V) -> End
    ensures bounds { course.new.bounds ≡ course.old.bounds }
    ensures end { IsEndOf course.new.bounds course.new.last result }
{
    for count in 0..u64::MAX {
        tell_watcher(count, search, course, watcher);
        let progress = search.go_on();
        if let Some(end) = course.end_after(progress) {
            return end;
        }
    }
    End::Full(course.done())
}

/// Tells the watcher how far the search is, if that is due before the `count`th state.
fn tell_watcher<V: Watcher>(count: u64, search: &Search, course: &Course, watcher: &mut V) {
    if count % PACE == 0 {
        watcher.watch(course.done(), search.states(), search.bytes());
    }
}

/// Gathers the lists of what was found, in the order in which it was, as far as machines that weren't searched show it
/// too.
fn gather_found(begun: &mut Begun, about: &Workload, mode: Mode) -> Vec<Told>
    ensures same { begun.new.machines ≡ begun.old.machines }
    ensures kept { All (IsKept mode about.now begun.old.machines) result.items }
{
    let mut lists = Vec::new(begun.machines.alloc());
    for place in 0..SORTS.len() {
        let found = begun.search.found(place);
        let list = list_of(begun, about, mode, found);
        add(&mut lists, list, &mut begun.is_whole);
    }
    lists
}

/// Adds the list, if there is one. If there is no memory for it, `are_whole` becomes false.
fn add(lists: &mut Vec<Told>, list: Option<Told>, are_whole: &mut bool)
    ensures { Adds list lists.old.items are_whole.old lists.new.items are_whole.new }
{
    let Some(list) = list else {
        return;
    };
    match lists.push(list) {
        Ok(()) => {}
        Err(failed) => {
            drop(failed);
            *are_whole = false;
        }
    }
}

/// The list of what was found, if something was and a machine that wasn't searched shows it too. If memory runs out for
/// the list, there is none, and the search isn't whole.
pub(crate) fn list_of(
    begun: &mut Begun,
    about: &Workload,
    mode: Mode,
    found: Option<Found>,
) -> Option<Told>
    ensures same { begun.new.machines ≡ begun.old.machines }
    ensures kept { IfSome result (IsKept mode about.now begun.old.machines) }
{
    let Some(found) = found else {
        return None;
    };
    begun.search.list_of(found, &mut begun.events);
    let events = begun.events.as_slice();
    if !is_shown(&mut begun.machines, about, events, found.finding) {
        return None;
    }
    let finding = found.finding;
    let alloc = begun.machines.alloc();
    let found_cause = cause_of(alloc, begun.machines.first(), about, finding, events);
    let cause = text_or_none(found_cause, &mut begun.is_whole);
    let found_file = file_in(mode, &mut begun.machines, about, events);
    let file = text_or_none(found_file, &mut begun.is_whole);
    match Told::new(alloc, finding, events, cause, file) {
        Ok(told) => Some(told),
        Err(AllocError) => {
            begun.is_whole = false;
            None
        }
    }
}

/// Returns the text if there is one. If memory ran out for it, `is_whole` becomes false.
fn text_or_none(text: Result<Option<String>, AllocError>, is_whole: &mut bool) -> Option<String>
    ensures found { IfOk text (λ found. result ≡ found) }
    ensures none { IsErr text → result ≡ None }
    ensures whole { IsOk text → is_whole.new ≡ is_whole.old }
    ensures memory { IsErr text → is_whole.new ≡ false }
{
    match text {
        Ok(text) => text,
        Err(AllocError) => {
            *is_whole = false;
            None
        }
    }
}

/// The workload file whose events begin with the list, if lists are of milliseconds and there is one.
fn file_in(
    mode: Mode,
    machines: &mut Machines,
    about: &Workload,
    events: &[Event],
) -> Result<Option<String>, AllocError>
    ensures same { machines.new ≡ machines.old }
    ensures file { IfOk result (λ file.
        HasFile mode about.now machines.old events.now (option_map string_bytes file)) }
{
    match mode {
        Mode::Events => Ok(None),
        Mode::Milliseconds | Mode::Workloads => file_of(machines, about, events),
    }
}

/// Returns the workload file whose events begin with the list, if there is one.
///
/// # Errors
///
/// Memory runs out.
#[tactic(auto, using(crate::proofs::Told::file_bytes))]
fn file_of(
    machines: &mut Machines,
    about: &Workload,
    events: &[Event],
) -> Result<Option<String>, AllocError>
    ensures same { machines.new ≡ machines.old }
    ensures file { IfOk result (λ file. IfSome (option_map string_bytes file)
        (IsFileOf about.now machines.old events.now)) }
{
    let Some(mut first) = machines.take() else {
        return Err(AllocError);
    };
    let Some(mut second) = machines.take() else {
        drop(first);
        return Err(AllocError);
    };
    let file = workload_file(machines.alloc(), about, &mut first, &mut second, events);
    drop(first);
    drop(second);
    file
}
