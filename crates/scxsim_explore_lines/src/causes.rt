ghost use Rattle.std.specs.Prelude.{◌≡◌, None, IfNone, IfOk, IfSome, IsSome, option_map, string_bytes};
ghost use Rattle.scxsim_output.specs.Texts.{Puts};
ghost use Rattle.scxsim_explore_lines.specs.Causes.{IsCause, IsOfPlace, place_words};

use crate::lengths::ms_begun;
use crate::listed::Listed;
use scx_explore::Finding;
use scx_load_driver::give_back_machine;
use scx_load_workloads::Workload;
use scx_sched::{Event, Sim};
use scxsim_faults::{FaultPlace, find_fault_among, write_call, write_reason};
use scxsim_output::Text;
use std::alloc::{AllocError, Global};

/// The words of the cause of the fault or the exit in which a list ends, as
/// `in enqueue at slot 15, dsq_insert(c, queue 2, 4 ms, 1): no queue 2`. A copy of the machine is given the events. None
/// for another finding, or if the place isn't found.
///
/// # Errors
///
/// Memory runs out.
pub fn cause_of(
    alloc: Global,
    first: &Sim,
    about: &Workload,
    finding: Finding,
    events: &[Event],
) -> Result<Option<String>, AllocError>
    ensures { IfOk result (λ cause.
        IfSome (option_map string_bytes cause) (IsCause first.now events.now)) }
{
    match finding {
        Finding::Fault(_) | Finding::Exit(_) => cause_in(alloc, first, about, events),
        Finding::Stall(_)
        | Finding::Idle { .. }
        | Finding::Overtaken(_)
        | Finding::Waits { .. }
        | Finding::Takes { .. } => Ok(None),
    }
}

/// The words of the cause, if its place is found.
fn cause_in(
    alloc: Global,
    first: &Sim,
    about: &Workload,
    events: &[Event],
) -> Result<Option<String>, AllocError>
    ensures { IfOk result (λ cause.
        IfSome (option_map string_bytes cause) (IsCause first.now events.now)) }
{
    let mut sim = first.duplicate(alloc)?;
    // Of the last millisecond alone the callbacks are heard.
    let begun = ms_begun(events) as u64;
    let place = find_fault_among(&mut Listed::new(events), &mut sim, begun);
    give_back_machine(sim);
    words_at(alloc, about, place)
}

/// The words of a place, if there is one.
fn words_at(
    alloc: Global,
    about: &Workload,
    place: Option<FaultPlace>,
) -> Result<Option<String>, AllocError>
    ensures words { IfSome place (λ p. IfOk result (λ words.
        IfSome (option_map string_bytes words) (IsOfPlace p))) }
    ensures some { IfSome place (λ p. IfOk result (λ words. IsSome words)) }
    ensures none { IfNone place (IfOk result (λ words. words ≡ None)) }
{
    match place {
        Some(place) => Ok(Some(words_of(alloc, about, &place)?)),
        None => Ok(None),
    }
}

/// The words of a place: the callback, the slot, the call and the reason.
fn words_of(alloc: Global, about: &Workload, place: &FaultPlace) -> Result<String, AllocError>
    ensures { IfOk result (λ words. IsOfPlace place.now (string_bytes words)) }
{
    let mut words = Text::new(alloc);
    write_place(place, &mut words);
    let call = call_of(alloc, about, place);
    words.append(&call);
    drop(call);
    words.finish()
}

/// Writes `in enqueue at slot 15, `.
#[tactic(auto, using(scxsim_output::proofs::Pieces::puts_both))]
fn write_place(place: &FaultPlace, words: &mut Text)
    ensures { Puts words.old (place_words place.now) words.new }
{
    words.push("in ");
    words.push(place.callback.name());
    words.number(" at slot ", place.slot as u64);
    words.push(", ");
}

/// The call of a place and the reason, in the words of `why`.
fn call_of(alloc: Global, about: &Workload, place: &FaultPlace) -> Text {
    let mut words = Text::new(alloc);
    write_call(place, about, &mut words);
    words.push(": ");
    write_reason(place, about, &mut words);
    words
}
