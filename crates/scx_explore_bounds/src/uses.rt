ghost use Rattle.std.specs.Prelude.{◌≡◌, option_copied, IfOk};
ghost use Rattle.scx_explore_bounds.specs.Forms.{tells_idle_slices};
ghost use Rattle.scx_explore_states.specs.Asking.{is_early};
ghost use Rattle.scx_explore_bounds.specs.Uses.{Does, asks_for_other_task, either, gives_none, has, is_any_load, is_call, is_field, is_helper, is_insert, is_load, is_of_task, is_own, is_task, is_use, has_count_load, may_be_0, with_listing};

use scx_abs::{AbsState, Kind};
use scx_isa::{Callback, Field, Helper, Insn, Program, Register, Rules};
use scx_verify_explain::Listing;
use scx_vm::Context;
use std::alloc::{AllocError, Global};

/// The helper calls and loads of a policy's programs that decide what they can tell of a state.
///
/// The current task of a CPU, the front of a queue, the CPU of a task and idle CPUs are in every state, so asking
/// for them tells nothing more. If a program loads a field of a task that it was answered, that counts as any load.
#[derive(Clone, Copy)]
pub struct Uses {
    /// One asks for the clock.
    pub clock: bool,
    /// One draws a random number.
    pub random: bool,
    /// One asks for a task by its number.
    pub task_by_pid: bool,
    /// One asks for a task in another way: for the current task of a CPU, or the front of a queue.
    pub other_task: bool,
    /// One inserts by virtual time.
    pub vtime_inserts: bool,
    /// One loads the number of a task.
    pub pid: bool,
    /// One loads the weight of a task.
    pub weight: bool,
    /// One loads the weight of a task where that is its own, which others of its group may not have.
    pub own_weight: bool,
    /// One loads the virtual time of a task.
    pub vtime: bool,
    /// One loads how long a task has run.
    pub run_ns: bool,
    /// One loads what is left of a slice.
    pub slice: bool,
    /// One but `running`, `stopping` and `tick` loads what is left of a slice.
    pub early_slice: bool,
    /// One may insert with a slice of 0, which keeps the one that there is.
    pub empty_slice: bool,
    /// One has a load of 8 bytes at the offset of a slice or a run time, from any memory.
    pub has_count_load: bool,
}

/// A use of the host by an instruction.
#[derive(Clone, Copy)]
enum Use {
    /// A call of that helper.
    Call(Helper),
    /// A load of that field of a task.
    Load(Field),
    /// An insert whose slice may be 0.
    EmptySlice,
    /// A load of the bytes at which that field of a task lies, from any memory.
    AnyLoad(Field),
}

impl Uses {
    /// There is no program.
    pub const NONE: Uses = Uses {
        clock: false,
        random: false,
        task_by_pid: false,
        other_task: false,
        vtime_inserts: false,
        pid: false,
        weight: false,
        own_weight: false,
        vtime: false,
        run_ns: false,
        slice: false,
        early_slice: false,
        empty_slice: false,
        has_count_load: false,
    };

    /// And what that program does in that context.
    ///
    /// # Errors
    ///
    /// Memory runs out.
    pub fn with(
        self,
        alloc: Global,
        program: &Program,
        context: Context,
    ) -> Result<Uses, AllocError>
        ensures { IfOk result (Does self context program.now) }
    {
        let _slots = program.slots();
        let (callback, rules) = (context.callback, context.rules);
        let listing = Listing::new(alloc, program, context)?;
        let uses = self.with_listing(callback, rules, &listing);
        drop(listing);
        Ok(uses)
    }

    fn with_listing(self, callback: Callback, rules: Rules, listing: &Listing) -> Uses
        ensures { result ≡ with_listing self callback rules listing.now }
    {
        let slice = has(listing, Use::Load(Field::Slice));
        let weight = has(listing, Use::Load(Field::Weight));
        Uses {
            clock: either(self.clock, has(listing, Use::Call(Helper::KtimeGetNs))),
            random: either(self.random, has(listing, Use::Call(Helper::PrandomU32))),
            task_by_pid: either(self.task_by_pid, has(listing, Use::Call(Helper::TaskByPid))),
            other_task: either(self.other_task, asks_for_other_task(listing)),
            vtime_inserts: either(
                self.vtime_inserts,
                has(listing, Use::Call(Helper::DsqInsertVtime)),
            ),
            pid: either(self.pid, has(listing, Use::Load(Field::Pid))),
            weight: either(self.weight, weight),
            own_weight: either(self.own_weight, is_own(rules, weight)),
            vtime: either(self.vtime, has(listing, Use::Load(Field::DsqVtime))),
            run_ns: either(self.run_ns, has(listing, Use::Load(Field::RunNs))),
            slice: either(self.slice, slice),
            early_slice: either(self.early_slice, is_early(callback, slice)),
            empty_slice: either(self.empty_slice, has(listing, Use::EmptySlice)),
            has_count_load: either(self.has_count_load, has_count_load(listing)),
        }
    }

    /// True if a program can tell the slice of a task that sleeps or is held, before an insert gives it another one:
    /// it keeps that slice, or a program loads it, with the task at hand before an insert or with any task that it asks for.
    pub fn tells_idle_slices(self) -> bool
        ensures { result ≡ tells_idle_slices self }
    {
        self.empty_slice || self.early_slice || self.slice && (self.task_by_pid || self.other_task)
    }
}

fn either(one: bool, other: bool) -> bool
    ensures { result ≡ either one other }
{
    one || other
}

/// True if there is a load, in a callback whose task may not have been inserted since it slept.
fn is_early(callback: Callback, load: bool) -> bool
    ensures { result ≡ is_early callback load }
{
    match callback {
        Callback::Running | Callback::Stopping | Callback::Tick => false,
        _ => load,
    }
}

/// True if there is a load of a weight, by rules that tell a task's own one.
fn is_own(rules: Rules, load: bool) -> bool
    ensures { result ≡ is_own rules load }
{
    match rules {
        Rules::Plain => false,
        Rules::Linux => load,
    }
}

/// True if the program asks for a task other than by its number: for the current task of a CPU, or the front of a queue.
fn asks_for_other_task(listing: &Listing) -> bool
    ensures { result ≡ asks_for_other_task listing.now }
{
    has(listing, Use::Call(Helper::CpuCurr)) || has(listing, Use::Call(Helper::DsqPeek))
}

/// True if the program has a load of the bytes at which a slice or a run time lies, from any memory.
fn has_count_load(listing: &Listing) -> bool
    ensures { result ≡ has_count_load listing.now }
{
    has(listing, Use::AnyLoad(Field::Slice)) || has(listing, Use::AnyLoad(Field::RunNs))
}

/// True if the program has an instruction that is such.
#[tactic(auto, using(crate::proofs::Slots::none_below_more))]
fn has(listing: &Listing, such: Use) -> bool
    ensures { result ≡ has listing.now such }
{
    for slot in 0..listing.slots() {
        if is_use(such, listing.insn(slot), listing.state(slot)) {
            return true;
        }
    }
    false
}

fn is_use(such: Use, insn: Option<Insn>, state: Option<&AbsState>) -> bool
    ensures { result ≡ is_use such insn (option_copied state.entry) }
{
    match such {
        Use::Call(helper) => is_call(helper, insn),
        Use::Load(field) => is_load(field, insn, state),
        Use::EmptySlice => is_insert(insn) && gives_none(state),
        Use::AnyLoad(field) => is_any_load(field, insn),
    }
}

fn is_call(helper: Helper, insn: Option<Insn>) -> bool
    ensures { result ≡ is_call helper insn }
{
    match insn {
        Some(Insn::Call(number)) => is_helper(Helper::new(number), helper),
        _ => false,
    }
}

#[tactic(auto, using(crate::proofs::Tables::same_helper))]
fn is_helper(found: Option<Helper>, helper: Helper) -> bool
    ensures { result ≡ is_helper helper found }
{
    match found {
        Some(found) => found == helper,
        None => false,
    }
}

fn is_load(field: Field, insn: Option<Insn>, state: Option<&AbsState>) -> bool
    ensures { result ≡ is_load field insn (option_copied state.entry) }
{
    match insn {
        Some(Insn::Load(access, _, base, offset)) => {
            is_of_task(state, base) && is_field(Field::at(offset, access.size()), field)
        }
        _ => false,
    }
}

/// True if it is a load of the bytes at which that field of a task lies, whatever its base register holds.
fn is_any_load(field: Field, insn: Option<Insn>) -> bool
    ensures { result ≡ is_any_load field insn }
{
    match insn {
        Some(Insn::Load(access, _, _, offset)) => is_field(Field::at(offset, access.size()), field),
        _ => false,
    }
}

/// True if the register holds a pointer to a task. Where control doesn't come it holds nothing.
fn is_of_task(state: Option<&AbsState>, base: Register) -> bool
    ensures { result ≡ is_of_task base (option_copied state.entry) }
{
    match state {
        Some(state) => is_task(state.kind(base)),
        None => false,
    }
}

fn is_task(kind: Kind) -> bool
    ensures { result ≡ is_task kind }
{
    match kind {
        Kind::Task => true,
        _ => false,
    }
}

#[tactic(auto, using(crate::proofs::Tables::same_field))]
fn is_field(found: Option<Field>, field: Field) -> bool
    ensures { result ≡ is_field field found }
{
    match found {
        Some(found) => found == field,
        None => false,
    }
}

fn is_insert(insn: Option<Insn>) -> bool
    ensures { result ≡ is_insert insn }
{
    is_call(Helper::DsqInsert, insn) || is_call(Helper::DsqInsertVtime, insn)
}

/// True if the slice that is given there, in r3, may be 0. Where control doesn't come none is given.
fn gives_none(state: Option<&AbsState>) -> bool
    ensures { result ≡ gives_none (option_copied state.entry) }
{
    match state {
        Some(state) => may_be_0(state.kind(Register::R3)),
        None => false,
    }
}

fn may_be_0(kind: Kind) -> bool
    ensures { result ≡ may_be_0 kind }
{
    match kind {
        Kind::Num(numbers) => numbers.low() == 0,
        _ => true,
    }
}
