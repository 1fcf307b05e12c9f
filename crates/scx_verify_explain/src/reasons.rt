ghost use Rattle.std.specs.Prelude.{◌≡◌, pos, ◌+◌, ◌+ℤ◌, ◌≤◌, nat_le, Err, Some, true, IsFalse, IfOk, IfSome};
ghost use Rattle.scx_isa_semantics.specs.declared.instructions.Insn.TheVariants as Insn;
ghost use Rattle.scx_isa_semantics.specs.declared.registers.Register.TheVariants as Register;
ghost use Rattle.scx_isa_semantics.specs.Code.{size};
ghost use Rattle.scx_isa_semantics.specs.Registers.{number};
ghost use Rattle.scx_isa_semantics.specs.Steps.{distance};
ghost use Rattle.scx_abs.specs.Rules.{map_kind};
ghost use Rattle.scx_abs.specs.States.{kind_at};
ghost use Rattle.scx_verify_explain.specs.Reasons.{flow_fault, value_fault, access_fault, call_fault};
ghost use Rattle.scx_verify_explain.specs.Reasons.{fault_of};
ghost use Rattle.scx_verify_explain.specs.Named.{Reads, Takes, HasArgument, LoadsMap, written_register};
ghost use Rattle.scx_verify_explain.specs.Said.{IsOf, is_map_taken, is_taken, IsUnwritten, IsFlowSaid, IsValueSaid};
ghost use Rattle.scx_verify_explain.specs.Said.{IsAccessSaid, IsFieldSaid, IsCallSaid, IsRuleSaid};
ghost use Rattle.scx_verify_explain.specs.Said.{IsSaid};
ghost use Rattle.scx_verify_explain.specs.Lost.{IsLostAt};

use crate::listing::{Listing, byte_kind, is_pointer};
use crate::lost::{LostRange, lost_range};
use crate::named::{
    Address, ValueBytes, address_in, address_of, argument_of, called_in, distance_of, first_read,
    second_read, stored_register, value_in, written_register,
};
use crate::origins::Subject;
use crate::places::{Place, Reach, distances_of, place_of, reach_of, stack_bytes, value_reach};
use crate::trails::{Trail, trail_of};
use scx_abs::{AbsState, Area, Context, Kind, Why, area_of, map_kind, takes_shape};
use scx_isa::{
    Callback, Field, FlowFault, Helper, Insn, Operand, Operation, Parameter, Register, Rules,
    STACK_SIZE, Size, Width,
};
use scx_isa_semantics::MAX_ARGUMENTS;
use scx_maps::MapDefs;
use scx_verify::Fault;
use std::alloc::{AllocError, Global};

/// Why an instruction is refused, with this case's values.
#[derive(Clone, Copy)]
pub enum Reason {
    /// Control would go where it may not.
    Flow(BadFlow),
    /// A register's value isn't what the instruction needs.
    Value(BadValue),
    /// Bytes may not be accessed, or a pointer not be moved there.
    Access(BadAccess),
    /// A task is accessed otherwise than its fields may be.
    Field(BadField),
    /// A helper may not be called, or not so.
    Call(BadCall),
    /// There is no map of that number among `maps`.
    UnknownMap { map: i32, maps: usize },
}

/// A fault of where control goes.
#[derive(Clone, Copy)]
pub enum BadFlow {
    /// A jump goes back to that slot; below 0 there is none.
    Back(i128),
    /// A jump goes to that slot of a program of `slots`.
    OutOfProgram { to: i128, slots: usize },
    /// A jump goes to that slot, which is a second half.
    IntoWide(i128),
    /// Control goes on past the last instruction.
    FallsOff,
}

/// A fault of a register's value, or of what is done with it.
#[derive(Clone, Copy)]
pub enum BadValue {
    /// It is read, and nothing is known of its value.
    Unusable(Register),
    /// r10 is written.
    Frame,
    /// It is used as a pointer before it was tested for null.
    MayBeNull(Register),
    /// A pointer that is computed with.
    Arithmetic(Register, Kind),
    /// A pointer that is compared.
    Comparison(Register, Kind),
    /// A pointer that is stored.
    Stored(Register, Kind),
    /// The value of r0 at the end of a callback that answers a number.
    Answer { kind: Kind, callback: Callback },
}

/// A fault of an address.
#[derive(Clone, Copy)]
pub enum BadAccess {
    /// One of these bytes of the stack isn't written, counted from the lowest.
    Unwritten { reach: Reach, byte: u16 },
    /// These bytes of the stack aren't read as the whole of the pointer of which they are a part.
    PartOfPointer { reach: Reach, kind: Kind },
    /// The register's value is no pointer to memory.
    NoPointer(Register, Kind),
    /// They lie, or may lie, outside their memory.
    Outside(Reach),
    /// There a pointer would lie outside of its memory.
    MovedOut { register: Register, place: Place },
    /// They begin, or may begin, at no multiple of how many they are.
    Misaligned(Reach),
}

/// A fault of an access to a task.
#[derive(Clone, Copy)]
pub enum BadField {
    /// No field has that offset and size.
    Missing { offset: i16, size: Size },
    /// It is loaded with a sign.
    Signed(Field),
    /// It is stored, and may only be read.
    ReadOnly(Field),
}

/// A fault of the call of the helper of a number.
#[derive(Clone, Copy)]
pub enum BadCall {
    /// No helper has the number.
    Unknown(i32),
    /// It may not be called in this callback.
    NotHere {
        number: i32,
        callback: Callback,
    },
    /// The register holds something else than the helper takes in it.
    Argument {
        number: i32,
        register: Register,
        kind: Kind,
        parameter: Parameter,
    },
}

/// Why a program is refused, and how control came to the slot that is.
#[derive(Drop)]
pub struct Explanation {
    pub slot: usize,
    pub reason: Reason,
    /// The number by which a pointer came out of its memory, if one did.
    pub lost: Option<LostRange>,
    /// Where the flow is refused the pass doesn't begin.
    pub trail: Option<Trail>,
}

/// The registers that are looked for, by the kind of their value.
#[derive(Clone, Copy)]
pub(crate) enum Sort {
    Unusable,
    Pointer,
    MayBeNull,
}

/// Explains a fault of the program at a slot. `None` where there is no instruction with that fault.
///
/// # Errors
///
/// Memory ran out.
pub fn explanation_of(
    alloc: Global,
    listing: &Listing,
    fault: Fault,
    slot: usize,
) -> Result<Option<Explanation>, AllocError>
    ensures fault { IfOk result
        (λ found. IfSome found (λ e. (e.slot ≡ slot) × (fault_of e.reason ≡ fault))) }
    ensures said { IfOk result
        (λ found. IfSome found (λ e. IsSaid listing.now e.slot e.reason)) }
    ensures lost { IfOk result
        (λ found. IfSome found (λ e. IfSome e.lost (IsLostAt listing.now e.slot))) }
{
    let Some(reason) = reason_of(listing, fault, slot) else {
        return Ok(None);
    };
    let lost = lost_by(listing, slot, reason);
    let trail = match listing.state(slot) {
        Some(_) => Some(trail_of(
            alloc,
            listing,
            slot,
            subject_of(listing, reason, lost, slot),
        )?),
        None => None,
    };
    Ok(Some(Explanation {
        slot,
        reason,
        lost,
        trail,
    }))
}

/// The number by which a pointer came out of its memory, if the reason is that one did.
fn lost_by(listing: &Listing, slot: usize, reason: Reason) -> Option<LostRange>
    ensures { IfSome result (IsLostAt listing.now slot) }
{
    match reason {
        Reason::Access(access) => lost_range(listing, slot, access),
        _ => None,
    }
}

/// The value that is at fault, if it is one.
fn subject_of(
    listing: &Listing,
    reason: Reason,
    lost: Option<LostRange>,
    slot: usize,
) -> Option<Subject> {
    match lost {
        Some(lost) if lost.pointer.slot == slot => Some(Subject::Greatest(lost.number)),
        Some(_) => Some(Subject::Greatest(address_of(listing.insn(slot)?)?.base)),
        None => subject_of_reason(reason),
    }
}

fn subject_of_reason(reason: Reason) -> Option<Subject> {
    match reason {
        Reason::Value(value) => Some(Subject::Register(register_of(value)?)),
        Reason::Access(BadAccess::Unwritten { byte, .. }) => Some(Subject::Byte(byte)),
        Reason::Access(BadAccess::NoPointer(register, _)) => Some(Subject::Register(register)),
        Reason::Call(BadCall::Argument { register, .. }) => Some(Subject::Register(register)),
        _ => None,
    }
}

/// The register that holds the value at fault. r10 always holds the same.
fn register_of(value: BadValue) -> Option<Register> {
    let register = match value {
        BadValue::Unusable(register) | BadValue::MayBeNull(register) => register,
        BadValue::Arithmetic(register, _) => register,
        BadValue::Comparison(register, _) => register,
        BadValue::Stored(register, _) => register,
        BadValue::Answer { .. } => Register::R0,
        BadValue::Frame => return None,
    };
    if register == Register::R10 {
        None
    } else {
        Some(register)
    }
}

fn reason_of(listing: &Listing, fault: Fault, slot: usize) -> Option<Reason>
    ensures fault { IfSome result (λ reason. fault_of reason ≡ fault) }
    ensures said { IfSome result (IsSaid listing.now slot) }
{
    let insn = listing.insn(slot)?;
    match fault {
        Fault::Flow(fault) => Some(Reason::Flow(reason_of_flow(listing, fault, slot, insn))),
        Fault::Rule(why) => {
            let state = listing.state(slot)?;
            reason_of_rule(listing.context(), why, state, insn)
        }
        Fault::NoMemory => None,
    }
}

fn reason_of_flow(listing: &Listing, fault: FlowFault, slot: usize, insn: Insn) -> BadFlow
    ensures fault { flow_fault result ≡ fault }
    ensures said { IsFlowSaid listing.now.code.items slot insn result }
{
    let to = jumped_to(slot, insn);
    match fault {
        FlowFault::BackJump => BadFlow::Back(to),
        FlowFault::OutOfProgram => BadFlow::OutOfProgram {
            to,
            slots: listing.slots(),
        },
        FlowFault::IntoWide => BadFlow::IntoWide(to),
        FlowFault::FallsOff => BadFlow::FallsOff,
    }
}

/// Where a jump leads, also one that goes back; the next slot of other instructions.
fn jumped_to(slot: usize, insn: Insn) -> i128
    ensures { result ≡ pos (slot + size insn) +ℤ distance insn }
{
    let next = slot as u128 + insn.size() as u128;
    next as i128 + i128::from(distance_of(insn))
}

fn reason_of_rule(context: &Context, why: Why, state: &AbsState, insn: Insn) -> Option<Reason>
    ensures fault { IfSome result (λ reason. fault_of reason ≡ Fault.Rule why) }
    ensures said { IfSome result (IsRuleSaid context.now insn state.now) }
{
    let defs = &context.defs;
    match why {
        Why::UnusableRegister
        | Why::WritesFrame
        | Why::NullNotTested
        | Why::PointerArithmetic
        | Why::PointerCompare
        | Why::PointerStore
        | Why::BadReturn => Some(Reason::Value(bad_value(state, why, insn, context.callback)?)),
        Why::UnwrittenStack => Some(Reason::Access(unwritten_in(state, insn, defs)?)),
        Why::OutOfBounds => Some(Reason::Access(out_of_bounds(state, insn, defs)?)),
        Why::Misaligned => Some(Reason::Access(misaligned(state, insn, defs)?)),
        Why::TaskField => Some(Reason::Field(bad_field(state, insn, context.rules)?)),
        Why::UnknownHelper | Why::HelperNotHere | Why::BadArgument => {
            let number = called_in(insn)?;
            Some(Reason::Call(bad_call(state, why, number, context)?))
        }
        Why::UnknownMap => {
            let map = unknown_map(insn, defs)?;
            Some(Reason::UnknownMap {
                map,
                maps: defs.count(),
            })
        }
    }
}

fn bad_value(state: &AbsState, why: Why, insn: Insn, callback: Callback) -> Option<BadValue>
    ensures fault { IfSome result (λ value. value_fault value ≡ why) }
    ensures said { IfSome result (IsValueSaid callback insn state.now) }
{
    match why {
        Why::UnusableRegister => {
            Some(BadValue::Unusable(read_that_is(Sort::Unusable, state, insn)?))
        }
        Why::WritesFrame if writes_frame(insn) => Some(BadValue::Frame),
        Why::NullNotTested => {
            Some(BadValue::MayBeNull(read_that_is(Sort::MayBeNull, state, insn)?))
        }
        Why::PointerArithmetic => {
            let register = pointer_in(state, insn)?;
            Some(BadValue::Arithmetic(register, state.kind(register)))
        }
        Why::PointerCompare => {
            let register = pointer_in(state, insn)?;
            Some(BadValue::Comparison(register, state.kind(register)))
        }
        Why::PointerStore => {
            let register = one_that_is(Sort::Pointer, state, stored_register(insn))?;
            Some(BadValue::Stored(register, state.kind(register)))
        }
        Why::BadReturn => bad_answer(state, insn, callback),
        _ => None,
    }
}

fn writes_frame(insn: Insn) -> bool
    ensures { result ≡ true → written_register insn ≡ Some Register.R10 }
{
    match written_register(insn) {
        Some(Register::R10) => true,
        _ => false,
    }
}

/// No number is answered.
fn bad_answer(state: &AbsState, insn: Insn, callback: Callback) -> Option<BadValue>
    ensures fault { IfSome result (λ value. value_fault value ≡ Why.BadReturn) }
    ensures said { IfSome result (IsValueSaid callback insn state.now) }
{
    match (insn, state.kind(Register::R0)) {
        (Insn::Exit, Kind::Num(_)) => None,
        (Insn::Exit, kind) => Some(BadValue::Answer { kind, callback }),
        _ => None,
    }
}

/// True if a kind is of that sort.
fn is_of(sort: Sort, kind: Kind) -> bool
    ensures { result ≡ true → IsOf sort kind }
{
    match sort {
        Sort::Unusable => matches!(kind, Kind::Unusable),
        Sort::Pointer => is_pointer(kind),
        Sort::MayBeNull => matches!(kind, Kind::ElemOrNull(_) | Kind::TaskOrNull),
    }
}

/// The register, if there is one, where it holds what is of that sort.
fn one_that_is(sort: Sort, state: &AbsState, register: Option<Register>) -> Option<Register>
    ensures same { IfSome result (λ found. register ≡ Some found) }
    ensures sort { IfSome result (λ found. IsOf sort (kind_at state.now (number found))) }
{
    let register = register?;
    if is_of(sort, state.kind(register)) {
        Some(register)
    } else {
        None
    }
}

/// The first register that an instruction reads which holds what is of that sort.
fn read_that_is(sort: Sort, state: &AbsState, insn: Insn) -> Option<Register>
    ensures read { IfSome result (Reads insn) }
    ensures sort { IfSome result (λ found. IsOf sort (kind_at state.now (number found))) }
{
    match called_in(insn) {
        Some(called) => argument_that_is(sort, state, called),
        None => operand_that_is(sort, state, insn),
    }
}

/// The register that an instruction other than a call reads and that holds such a value.
fn operand_that_is(sort: Sort, state: &AbsState, insn: Insn) -> Option<Register>
    ensures read { IfSome result (Reads insn) }
    ensures sort { IfSome result (λ found. IsOf sort (kind_at state.now (number found))) }
{
    match one_that_is(sort, state, first_read(insn)) {
        Some(register) => Some(register),
        None => one_that_is(sort, state, second_read(insn)),
    }
}

/// The register that the call of a helper reads and that holds such a value.
fn argument_that_is(sort: Sort, state: &AbsState, called: i32) -> Option<Register>
    ensures taken { IfSome result (λ found. HasArgument (Insn.Call called) found) }
    ensures sort { IfSome result (λ found. IsOf sort (kind_at state.now (number found))) }
{
    for argument in 0..MAX_ARGUMENTS {
        let (register, _) = argument_of(called, argument)?;
        if is_of(sort, state.kind(register)) {
            return Some(register);
        }
    }
    None
}

/// The register that holds a pointer where a number is taken: the first one, or else the second, which
/// is also the one that is added to a pointer to an element.
fn pointer_in(state: &AbsState, insn: Insn) -> Option<Register>
    ensures read { IfSome result (Reads insn) }
    ensures sort { IfSome result (λ found. IsOf Sort.Pointer (kind_at state.now (number found))) }
{
    if adds_to_element(state, insn) {
        one_that_is(Sort::Pointer, state, second_read(insn))
    } else {
        operand_that_is(Sort::Pointer, state, insn)
    }
}

/// True if it adds a register to a pointer into a map value.
fn adds_to_element(state: &AbsState, insn: Insn) -> bool {
    match insn {
        Insn::Binary(Width::Bits64, Operation::Add, destination, Operand::Register(_)) => {
            matches!(state.kind(destination), Kind::Elem(_, _))
        }
        _ => false,
    }
}

fn bad_call(state: &AbsState, why: Why, number: i32, context: &Context) -> Option<BadCall>
    ensures fault { IfSome result (λ call. call_fault call ≡ why) }
    ensures said { IfSome result (IsCallSaid context.now number state.now) }
{
    let callback = context.callback;
    match (why, Helper::known(number, context.rules)) {
        (Why::UnknownHelper, None) => Some(BadCall::Unknown(number)),
        (Why::HelperNotHere, Some(helper)) if !helper.is_allowed(callback) => {
            Some(BadCall::NotHere { number, callback })
        }
        (Why::BadArgument, Some(_)) => {
            let (register, parameter) = bad_argument(state, number, &context.defs)?;
            Some(BadCall::Argument {
                number,
                register,
                kind: state.kind(register),
                parameter,
            })
        }
        _ => None,
    }
}

/// The first argument of a helper that is of another kind than it takes, and what it takes there.
fn bad_argument(state: &AbsState, called: i32, defs: &MapDefs) -> Option<(Register, Parameter)>
    ensures takes { IfSome result (λ bad. Takes called bad.0 bad.1) }
    ensures bad { IfSome result
        (λ bad. IsFalse (is_taken defs.now bad.1 (kind_at state.now (number bad.0)))) }
{
    for argument in 0..MAX_ARGUMENTS {
        let (register, parameter) = argument_of(called, argument)?;
        if !is_taken(parameter, state.kind(register), defs) {
            return Some((register, parameter));
        }
    }
    None
}

/// True if a register of that kind may be such an argument, null or not, wherever it points.
fn is_taken(parameter: Parameter, kind: Kind, defs: &MapDefs) -> bool
    ensures { result ≡ is_taken defs.now parameter kind }
{
    match parameter {
        Parameter::Map | Parameter::PerCpuMap | Parameter::LineMap => {
            is_map_taken(parameter, kind, defs)
        }
        Parameter::Key | Parameter::Value | Parameter::Room => matches!(
            kind,
            Kind::Stack(_) | Kind::Elem(_, _) | Kind::ElemOrNull(_)
        ),
        Parameter::Task => matches!(kind, Kind::Task | Kind::TaskOrNull),
        Parameter::Number => matches!(kind, Kind::Num(_)),
    }
}

/// True if it is a reference to a map of a kind that the parameter takes.
fn is_map_taken(parameter: Parameter, kind: Kind, defs: &MapDefs) -> bool
    ensures { result ≡ is_map_taken defs.now parameter kind }
{
    match kind {
        Kind::MapRef(map) => takes_shape(parameter, map, defs),
        _ => false,
    }
}

/// The bytes of the stack that are read and aren't written, or are a part of a pointer: those at an address, or
/// else those of a value.
fn unwritten_in(state: &AbsState, insn: Insn, defs: &MapDefs) -> Option<BadAccess>
    ensures fault { IfSome result (λ access. access_fault access ≡ Why.UnwrittenStack) }
    ensures said { IfSome result (IsAccessSaid defs.now insn state.now) }
{
    match unwritten_at_address(state, insn, defs) {
        Some(access) => Some(access),
        None => unwritten_value(state, insn, defs),
    }
}

fn unwritten_at_address(state: &AbsState, insn: Insn, defs: &MapDefs) -> Option<BadAccess>
    ensures fault { IfSome result (λ access. access_fault access ≡ Why.UnwrittenStack) }
    ensures said { IfSome result (IsAccessSaid defs.now insn state.now) }
{
    let Address { base, offset, size } = address_in(state, insn, defs)?;
    match area_of(state.kind(base), offset, size, defs) {
        Ok(Area::OnStack(first)) => unwritten_from(state, first, size.bytes()),
        _ => None,
    }
}

fn unwritten_value(state: &AbsState, insn: Insn, defs: &MapDefs) -> Option<BadAccess>
    ensures fault { IfSome result (λ access. access_fault access ≡ Why.UnwrittenStack) }
    ensures said { IfSome result (IsAccessSaid defs.now insn state.now) }
{
    let ValueBytes { base, count } = value_in(state, insn, defs)?;
    match state.kind(base) {
        Kind::Stack(first) if is_within_stack(first, count) => {
            unwritten_from(state, first, count)
        }
        _ => None,
    }
}

/// True if that many bytes of the stack, from that one on, are there.
fn is_within_stack(first: u16, count: u16) -> bool
    ensures { result ≡ nat_le (first + count) STACK_SIZE }
{
    u32::from(first) + u32::from(count) <= u32::from(STACK_SIZE)
}

/// The first of `count` bytes of the stack, from `first` on, that isn't written, or is a part of a
/// pointer.
fn unwritten_from(state: &AbsState, first: u16, count: u16) -> Option<BadAccess>
    requires { first + count ≤ STACK_SIZE }
    ensures { IfSome result (IsUnwritten state.now first count) }
{
    let reach = stack_bytes(first, count);
    for byte in first..first + count {
        match byte_kind(state, byte) {
            Kind::Num(_) => (),
            Kind::Unusable => return Some(BadAccess::Unwritten { reach, byte }),
            kind => return Some(BadAccess::PartOfPointer { reach, kind }),
        }
    }
    None
}

/// An access that doesn't lie in its memory, or a pointer that would be moved out of it.
fn out_of_bounds(state: &AbsState, insn: Insn, defs: &MapDefs) -> Option<BadAccess>
    ensures fault { IfSome result (λ access. access_fault access ≡ Why.OutOfBounds) }
    ensures said { IfSome result (IsAccessSaid defs.now insn state.now) }
{
    match insn {
        Insn::Binary(width, operation, register, operand) => {
            let distances = distances_of(state, width, operation, operand)?;
            let place = place_of(state.kind(register), defs)?.place_at_distances(distances);
            Some(BadAccess::MovedOut { register, place })
        }
        _ => access_outside(state, insn, defs),
    }
}

/// An access that doesn't lie in its memory.
fn access_outside(state: &AbsState, insn: Insn, defs: &MapDefs) -> Option<BadAccess>
    ensures fault { IfSome result (λ access. access_fault access ≡ Why.OutOfBounds) }
    ensures said { IfSome result (IsAccessSaid defs.now insn state.now) }
{
    match insn {
        Insn::Call(_) => call_outside(state, insn, defs),
        _ => address_outside(state, insn, defs),
    }
}

/// A load or a store that doesn't lie in its memory.
fn address_outside(state: &AbsState, insn: Insn, defs: &MapDefs) -> Option<BadAccess>
    ensures fault { IfSome result (λ access. access_fault access ≡ Why.OutOfBounds) }
    ensures said { IfSome result (IsAccessSaid defs.now insn state.now) }
{
    let address = address_in(state, insn, defs)?;
    match reach_of(state, address, defs) {
        Some(reach) => Some(BadAccess::Outside(reach)),
        None => Some(BadAccess::NoPointer(address.base, state.kind(address.base))),
    }
}

/// A key that doesn't lie in its memory, or else a value.
fn call_outside(state: &AbsState, insn: Insn, defs: &MapDefs) -> Option<BadAccess>
    ensures fault { IfSome result (λ access. access_fault access ≡ Why.OutOfBounds) }
    ensures said { IfSome result (IsAccessSaid defs.now insn state.now) }
{
    match key_outside(state, insn, defs) {
        Some(access) => Some(access),
        None => value_outside(state, insn, defs),
    }
}

fn key_outside(state: &AbsState, insn: Insn, defs: &MapDefs) -> Option<BadAccess>
    ensures fault { IfSome result (λ access. access_fault access ≡ Why.OutOfBounds) }
    ensures said { IfSome result (IsAccessSaid defs.now insn state.now) }
{
    let address = address_in(state, insn, defs)?;
    let Address { base, offset, size } = address;
    match area_of(state.kind(base), offset, size, defs) {
        Err(Why::OutOfBounds) => address_outside(state, insn, defs),
        _ => None,
    }
}

fn value_outside(state: &AbsState, insn: Insn, defs: &MapDefs) -> Option<BadAccess>
    ensures fault { IfSome result (λ access. access_fault access ≡ Why.OutOfBounds) }
    ensures said { IfSome result (IsAccessSaid defs.now insn state.now) }
{
    let value = value_in(state, insn, defs)?;
    Some(BadAccess::Outside(value_reach(state, value, defs)?))
}

/// An access at a place that is no multiple of its size.
fn misaligned(state: &AbsState, insn: Insn, defs: &MapDefs) -> Option<BadAccess>
    ensures fault { IfSome result (λ access. access_fault access ≡ Why.Misaligned) }
    ensures said { IfSome result (IsAccessSaid defs.now insn state.now) }
{
    let address = address_in(state, insn, defs)?;
    let reach = reach_of(state, address, defs)?;
    Some(BadAccess::Misaligned(reach))
}

fn bad_field(state: &AbsState, insn: Insn, rules: Rules) -> Option<BadField>
    ensures { IfSome result (IsFieldSaid rules insn state.now) }
{
    let Address { base, offset, size } = address_of(insn)?;
    let Kind::Task = state.kind(base) else {
        return None;
    };
    match (Field::known(offset, size, rules), insn) {
        (None, _) => Some(BadField::Missing { offset, size }),
        (Some(field), Insn::Store(..)) if !field.is_writable() => Some(BadField::ReadOnly(field)),
        (Some(field), Insn::Load(access, ..)) if !access.is_plain() => {
            Some(BadField::Signed(field))
        }
        _ => None,
    }
}

/// The number of a map that isn't there, to which an instruction loads a reference.
fn unknown_map(insn: Insn, defs: &MapDefs) -> Option<i32>
    ensures named { IfSome result (λ map. LoadsMap insn map) }
    ensures unknown { IfSome result (λ map. map_kind defs.now map ≡ Err Why.UnknownMap) }
{
    match insn {
        Insn::LoadMapReference(_, map) => {
            match map_kind(map, defs) {
                Err(Why::UnknownMap) => Some(map),
                _ => None,
            }
        }
        _ => None,
    }
}
