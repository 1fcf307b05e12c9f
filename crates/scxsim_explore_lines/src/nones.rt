ghost use Rattle.std.specs.Prelude.{◌≡◌, ◌++◌, ◌||◌, true, OnOk};
ghost use Rattle.std.specs.List.{list_any};
ghost use Rattle.std.specs.Io.KnownBytes.{Appends};
ghost use Rattle.scxsim_output.specs.Output.{Counts};
ghost use Rattle.scxsim_explore_lines.specs.Summary.{again_line, fault_name, few_words, first_names, has_found, has_found_fault, has_name, has_sort, is_fault, is_of, is_of_fault, joint, last_names, lists_words, name_words, named_line, named_of, nones_of, nones_text, overtaken_line, reach_words, sorts_line, up_to};

use crate::pieces::{write_number, write_text};
use crate::summary::{Unfound, depth_unit};
use crate::told::Told;
use scx_explore::{Bounds, Mode, Sort};
use scx_explore_audit::Moves;
use scxsim_output::{Failed, Out};

/// The sorts that a line names.
#[derive(Clone, Copy)]
pub struct Named {
    /// True if a fault was found, so that all others are meant.
    pub are_others: bool,
    pub faults: bool,
    pub stalls: bool,
    pub exits: bool,
    pub idles: bool,
}

/// Writes a line that names the sorts, one of overtaken tasks, and whether the states were audited.
pub(crate) fn write_nones<W: Out>(
    found: &[Told],
    unfound: Unfound<'_>,
    out: &mut W,
) -> Result<(), Failed>
    ensures ok { OnOk result (Appends (W.contents out.old) (W.contents out.new)
        (nones_text found.now (nones_of unfound.entry))) }
    ensures failures { Counts result (W.failure_count out.old) (W.failure_count out.new) }
{
    write_sorts(unfound.bounds, unfound.reach, named_of(found, unfound), out)?;
    write_overtaken(unfound, out)?;
    write_text(out, again_text(unfound.again))
}

/// The line on an audit of the states, if there was one.
fn again_text(again: Option<Moves>) -> &'static str
    ensures { result.now ≡ again_line again }
{
    match again {
        Some(Moves::Events) => "audited: faults, idle CPUs\n",
        Some(Moves::Milliseconds) => "audited: faults, stalls, idle CPUs\n",
        None => "",
    }
}

/// The sorts that weren't found, by name.
fn named_of(found: &[Told], unfound: Unfound<'_>) -> Named
    ensures { result ≡ named_of found.now (nones_of unfound.entry) }
{
    Named {
        are_others: has_found_fault(found),
        faults: unfound.has_all_faults && has_fault(unfound.sorts),
        stalls: has_sort(unfound.sorts, Sort::Stall),
        exits: has_sort(unfound.sorts, Sort::Exit),
        idles: has_sort(unfound.sorts, Sort::Idle),
    }
}

/// True if one of the lists ends in a fault.
fn has_found_fault(found: &[Told]) -> bool
    ensures { result ≡ has_found_fault found.now }
{
    found.iter().any(|told| is_of_fault(told.sort()))
}

/// True if a fault is one of the sorts.
fn has_fault(sorts: &[Sort]) -> bool
    ensures { result ≡ list_any is_fault sorts.now }
{
    sorts.iter().any(|sort| is_fault(*sort))
}

/// True if one of the lists ends in something of that sort.
pub(crate) fn has_found(found: &[Told], sort: Sort) -> bool
    ensures { result ≡ has_found found.now sort }
{
    found.iter().any(|told| is_of(told.sort(), sort))
}

/// True if the sort is one of these.
pub(crate) fn has_sort(sorts: &[Sort], sort: Sort) -> bool
    ensures { result ≡ has_sort sorts.now sort }
{
    let number = sort.number();
    sorts.iter().any(|other| other.number() == number)
}

/// True if what was found is of that sort.
fn is_of(found: Option<Sort>, sort: Sort) -> bool
    ensures { result ≡ is_of found sort }
{
    match found {
        Some(found) => found.number() == sort.number(),
        None => false,
    }
}

/// True if what was found is a fault.
fn is_of_fault(found: Option<Sort>) -> bool
    ensures { result ≡ is_of_fault found }
{
    match found {
        Some(found) => is_fault(found),
        None => false,
    }
}

fn is_fault(sort: Sort) -> bool
    ensures { result ≡ is_fault sort }
{
    match sort {
        Sort::Fault(_) => true,
        Sort::Stall | Sort::Idle | Sort::Overtaken | Sort::Exit => false,
    }
}

/// Writes a line `no fault, stall or idle CPU in any list`, if a sort is named.
fn write_sorts<W: Out>(
    bounds: Bounds,
    reach: Option<usize>,
    named: Named,
    out: &mut W,
) -> Result<(), Failed>
    ensures ok { OnOk result (Appends (W.contents out.old) (W.contents out.new)
        (sorts_line bounds reach named)) }
    ensures failures { Counts result (W.failure_count out.old) (W.failure_count out.new) }
{
    if has_name(named) {
        write_line(bounds, reach, named, out)
    } else {
        write_text(out, "")
    }
}

/// True if a sort is named.
fn has_name(named: Named) -> bool
    ensures { result ≡ has_name named }
{
    named.faults || named.stalls || named.exits || named.idles
}

fn write_line<W: Out>(
    bounds: Bounds,
    reach: Option<usize>,
    named: Named,
    out: &mut W,
) -> Result<(), Failed>
    ensures ok { OnOk result (Appends (W.contents out.old) (W.contents out.new)
        (named_line bounds reach named)) }
    ensures failures { Counts result (W.failure_count out.old) (W.failure_count out.new) }
{
    write_first_names(named, out)?;
    write_last_names(named, out)?;
    write_lists(bounds, reach, out)
}

/// Writes the names of faults and stalls, for which the host ejects the policy.
fn write_first_names<W: Out>(named: Named, out: &mut W) -> Result<(), Failed>
    ensures ok { OnOk result (Appends (W.contents out.old) (W.contents out.new)
        (first_names named)) }
    ensures failures { Counts result (W.failure_count out.old) (W.failure_count out.new) }
{
    let later = either(named.exits, named.idles);
    write_name(named.faults, "no ", fault_name(named.are_others), out)?;
    write_name(named.stalls, joint(named.faults, later), "stall", out)
}

/// Writes the names of the others.
fn write_last_names<W: Out>(named: Named, out: &mut W) -> Result<(), Failed>
    ensures ok { OnOk result (Appends (W.contents out.old) (W.contents out.new)
        (last_names named)) }
    ensures failures { Counts result (W.failure_count out.old) (W.failure_count out.new) }
{
    let before_exit = joint(either(named.faults, named.stalls), named.idles);
    let before_idle = joint(
        either(named.faults, either(named.stalls, named.exits)),
        false,
    );
    write_name(named.exits, before_exit, "exit", out)?;
    write_name(named.idles, before_idle, "idle CPU", out)
}

fn either(first: bool, second: bool) -> bool
    ensures { result ≡ (first || second) }
{
    first || second
}

/// The text before a name, with a name before it or none, and with one after it or none.
fn joint(has_before: bool, has_after: bool) -> &'static str
    ensures { result.now ≡ joint has_before has_after }
{
    if !has_before {
        "no "
    } else if has_after {
        ", "
    } else {
        " or "
    }
}

/// The name of faults, all of them or those that weren't found.
fn fault_name(are_others: bool) -> &'static str
    ensures { result.now ≡ fault_name are_others }
{
    if are_others { "other fault" } else { "fault" }
}

/// Writes a name, if it is said.
fn write_name<W: Out>(is_said: bool, before: &str, name: &str, out: &mut W) -> Result<(), Failed>
    ensures ok { OnOk result (Appends (W.contents out.old) (W.contents out.new)
        (name_words is_said before.now name.now)) }
    ensures failures { Counts result (W.failure_count out.old) (W.failure_count out.new) }
{
    if is_said {
        write_both(before, name, out)
    } else {
        write_text(out, "")
    }
}

fn write_both<W: Out>(first: &str, second: &str, out: &mut W) -> Result<(), Failed>
    ensures ok { OnOk result (Appends (W.contents out.old) (W.contents out.new)
        (first.now ++ second.now)) }
    ensures failures { Counts result (W.failure_count out.old) (W.failure_count out.new) }
{
    write_text(out, first)?;
    write_text(out, second)
}

/// Writes a line `no overtaken task up to depth 5`, if it is told.
fn write_overtaken<W: Out>(unfound: Unfound<'_>, out: &mut W) -> Result<(), Failed>
    ensures ok { OnOk result (Appends (W.contents out.old) (W.contents out.new)
        (overtaken_line unfound.entry.bounds unfound.entry.reach unfound.entry.is_overtaken)) }
    ensures failures { Counts result (W.failure_count out.old) (W.failure_count out.new) }
{
    if unfound.is_overtaken {
        write_none_overtaken(unfound.bounds, unfound.reach, out)
    } else {
        write_text(out, "")
    }
}

fn write_none_overtaken<W: Out>(
    bounds: Bounds,
    reach: Option<usize>,
    out: &mut W,
) -> Result<(), Failed>
    ensures ok { OnOk result (Appends (W.contents out.old) (W.contents out.new)
        (overtaken_line bounds reach true)) }
    ensures failures { Counts result (W.failure_count out.old) (W.failure_count out.new) }
{
    write_text(out, "no overtaken task")?;
    write_lists(bounds, reach, out)
}

/// Writes of which lists a line speaks: of any length, or up to a depth.
fn write_lists<W: Out>(bounds: Bounds, reach: Option<usize>, out: &mut W) -> Result<(), Failed>
    ensures ok { OnOk result (Appends (W.contents out.old) (W.contents out.new)
        (lists_words bounds reach)) }
    ensures failures { Counts result (W.failure_count out.old) (W.failure_count out.new) }
{
    write_reach(bounds.mode, reach, out)?;
    write_few(bounds.few, out)
}

fn write_reach<W: Out>(mode: Mode, reach: Option<usize>, out: &mut W) -> Result<(), Failed>
    ensures ok { OnOk result (Appends (W.contents out.old) (W.contents out.new)
        (reach_words mode reach)) }
    ensures failures { Counts result (W.failure_count out.old) (W.failure_count out.new) }
{
    match reach {
        Some(depth) => write_number(out, up_to(mode), depth as u64, depth_unit(mode)),
        None => write_text(out, " in any list"),
    }
}

/// The words before a depth.
fn up_to(mode: Mode) -> &'static str
    ensures { result.now ≡ up_to mode }
{
    match mode {
        Mode::Events => " up to depth ",
        Mode::Milliseconds | Mode::Workloads => " up to ",
    }
}

fn write_few<W: Out>(few: Option<u8>, out: &mut W) -> Result<(), Failed>
    ensures ok { OnOk result (Appends (W.contents out.old) (W.contents out.new) (few_words few)) }
    ensures failures { Counts result (W.failure_count out.old) (W.failure_count out.new) }
{
    match few {
        Some(few) => write_number(out, " with ", u64::from(few), " wakes and sleeps\n"),
        None => write_text(out, "\n"),
    }
}
