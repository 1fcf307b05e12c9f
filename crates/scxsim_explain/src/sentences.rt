use crate::advice::Advice;
use crate::lost_numbers::push_lost;
use crate::words::{Members, from_top, push_register, push_spoken, step_of, wanted};
use scx_abs::Kind;
use scx_asm_text::field_name;
use scx_isa::{Helper, Parameter, Register, Rules, STACK_SIZE};
use scx_verify_explain::{
    BadAccess, BadCall, BadField, BadFlow, BadValue, Brought, Explanation, Leg, Memory, Origin,
    Place, Reach, Reason,
};
use scxsim_output::Text;

/// The beginning of each line of an explanation.
const MARGIN: &str = "      = ";

/// Appends why a program is refused by those rules, and how control came there.
pub(crate) fn push_explanation(line: &mut Text, rules: Rules, explanation: &Explanation) {
    push_why(line, rules, explanation);
    if let Some(trail) = &explanation.trail {
        push_way(line, &trail.legs);
    }
}

/// Appends why a program is refused by those rules, in one line.
pub(crate) fn push_why(line: &mut Text, rules: Rules, explanation: &Explanation) {
    let (origin, is_copied) = match &explanation.trail {
        Some(trail) => (trail.origin, trail.is_copied),
        None => (None, false),
    };
    let advice = Advice {
        reason: explanation.reason,
        lost: explanation.lost,
        origin,
        is_copied,
        rules,
    };
    push_sentence(line, &advice, explanation.slot);
}

/// Appends what is wrong at the slot, where the value at fault comes from, and what to change.
fn push_sentence(line: &mut Text, advice: &Advice, slot: usize) {
    line.push(MARGIN);
    push_reason(line, advice.reason);
    match advice.lost.as_ref() {
        Some(lost) => {
            line.push(": ");
            push_lost(line, lost, slot);
        }
        None => push_known_origin(line, advice.origin),
    }
    line.push("; ");
    advice.push(line);
    line.push("\n");
}

/// Appends where the value at fault comes from, if that is known.
fn push_known_origin(line: &mut Text, origin: Option<Origin>) {
    if let Some(origin) = origin {
        line.push(": ");
        push_origin(line, origin);
    }
}

/// Appends the way by which control came, from the first slot on.
fn push_way(line: &mut Text, legs: &[Leg]) {
    line.push(MARGIN);
    line.push("control came by ");
    let mut left = None;
    for leg in legs.iter().rev() {
        push_leg(line, left, *leg);
        left = Some(leg.last);
    }
    line.push("\n");
}

/// Appends a part of the way. In front of it control jumped from the slot that it left, if it left one.
fn push_leg(line: &mut Text, left: Option<usize>, leg: Leg) {
    let Leg { first, last } = leg;
    if let Some(left) = left {
        line.number(", jump at ", left as u64);
        line.number(" to ", first as u64);
        if first == last {
            return;
        }
        line.push(", ");
    }
    line.number("", first as u64);
    if first != last {
        line.number("..", last as u64);
    }
}

/// Appends what is wrong.
fn push_reason(line: &mut Text, reason: Reason) {
    match reason {
        Reason::Flow(flow) => push_flow(line, flow),
        Reason::Value(value) => push_value(line, value),
        Reason::Access(access) => push_access(line, access),
        Reason::Field(field) => push_field(line, field),
        Reason::Call(call) => push_call(line, call),
        Reason::UnknownMap { map, maps } => {
            line.show("there is no map ", &map);
            line.number(", as the policy has ", maps as u64);
        }
    }
}

fn push_flow(line: &mut Text, flow: BadFlow) {
    match flow {
        BadFlow::Back(to) => line.show("the jump goes back to ", &to),
        BadFlow::OutOfProgram { to, slots } => {
            line.show("the jump goes to ", &to);
            line.number(", and the program has ", slots as u64);
            line.push(" slots");
        }
        BadFlow::IntoWide(to) => {
            line.show("", &to);
            line.push(" is the second slot of an instruction");
        }
        BadFlow::FallsOff => line.push("control would go on after the last instruction"),
    }
}

fn push_value(line: &mut Text, value: BadValue) {
    match value {
        BadValue::Unusable(register) => {
            push_register(line, register);
            line.push(" is unusable here");
        }
        BadValue::Frame => line.push("r10 is never written"),
        BadValue::MayBeNull(register) => {
            push_register(line, register);
            line.push(" may be 0 here");
        }
        BadValue::Arithmetic(register, kind) => push_held(line, register, kind),
        BadValue::Comparison(register, kind) => push_held(line, register, kind),
        BadValue::Stored(register, kind) => push_held(line, register, kind),
        BadValue::Answer { kind, callback } => {
            line.push(callback.name());
            line.push(" answers a number in r0, which holds ");
            push_spoken(line, kind);
            line.push(" here");
        }
    }
}

fn push_held(line: &mut Text, register: Register, kind: Kind) {
    push_register(line, register);
    line.push(" holds ");
    push_spoken(line, kind);
    line.push(" here");
}

fn push_access(line: &mut Text, access: BadAccess) {
    match access {
        BadAccess::Unwritten { reach, byte } => {
            push_read(line, reach);
            line.show(", and ", &from_top(byte));
            line.push(" needn't hold a number");
        }
        BadAccess::PartOfPointer { reach, kind } => {
            push_read(line, reach);
            line.push(", and is a part of ");
            push_spoken(line, kind);
        }
        BadAccess::NoPointer(register, kind) => {
            push_held(line, register, kind);
            line.push(", no pointer to memory");
        }
        BadAccess::Outside(reach) => push_outside(line, reach),
        BadAccess::MovedOut { register, place } => push_moved_out(line, register, place),
        BadAccess::Misaligned(reach) => push_misaligned(line, reach),
    }
}

/// Appends which bytes of the stack are read.
fn push_read(line: &mut Text, reach: Reach) {
    line.push("stack ");
    push_bytes(line, reach);
    line.push(" is read here");
}

fn push_moved_out(line: &mut Text, register: Register, place: Place) {
    push_register(line, register);
    match place.memory {
        Memory::Stack => {
            line.show(" would be stack ", &place.to);
            line.number(", outside of r10 - ", u64::from(STACK_SIZE));
            line.push(" up to r10");
        }
        Memory::Element { map, bytes } => {
            line.push(" would point to ");
            push_byte_among(line, place);
            line.number(" of an element of map ", u64::from(map));
            line.show(", which has ", &bytes);
        }
    }
}

/// Appends to which byte a pointer would point, or to one among which.
fn push_byte_among(line: &mut Text, place: Place) {
    if place.is_single() {
        line.show("byte ", &place.to);
    } else {
        line.show("a byte among ", &place.from);
        line.show("..", &place.to);
    }
}

fn push_field(line: &mut Text, field: BadField) {
    match field {
        BadField::Missing { offset, size } => {
            line.show("a task has no field of ", &size.bytes());
            line.show(" bytes at ", &offset);
        }
        BadField::Signed(field) => {
            line.push(field_name(field));
            line.push(" is loaded with a sign");
        }
        BadField::ReadOnly(field) => {
            line.push(field_name(field));
            line.push(" may only be read");
        }
    }
}

fn push_call(line: &mut Text, call: BadCall) {
    match call {
        BadCall::Unknown(number) => {
            line.show("no helper has the number ", &number);
            if Helper::new(number).is_some() {
                line.push(" by plain rules");
            }
        }
        BadCall::NotHere { number, callback } => {
            line.push(callback.name());
            line.show(" may not call ", &number);
        }
        BadCall::Argument {
            number,
            register,
            kind,
            parameter,
        } => {
            line.show("call ", &number);
            push_argument(line, register, kind, parameter);
        }
    }
}

/// Appends what a call takes in a register, and what is there.
fn push_argument(line: &mut Text, register: Register, kind: Kind, parameter: Parameter) {
    line.push(" takes ");
    line.push(wanted(parameter, matches!(kind, Kind::MapRef(_))));
    line.push(" in ");
    push_register(line, register);
    line.push(", which holds ");
    push_spoken(line, kind);
    line.push(" here");
}

/// Appends the first and the last byte that is read or written, in a list or a sentence.
fn push_bytes(line: &mut Text, reach: Reach) {
    let Reach { place, count } = reach;
    push_bytes_from(line, place.from, count);
    if !place.is_single() {
        line.push(" up to ");
        push_bytes_from(line, place.to, count);
    }
}

/// Appends the first and the last of that many bytes.
fn push_bytes_from(line: &mut Text, first: i128, count: u16) {
    line.show("", &first);
    line.show("..", &last_of(first, count));
}

/// The last of that many bytes from one on.
fn last_of(first: i128, count: u16) -> i128 {
    first.saturating_add(i128::from(count)).saturating_sub(1)
}

fn push_outside(line: &mut Text, reach: Reach) {
    match reach.place.memory {
        Memory::Stack => {
            line.push("the access is to stack ");
            push_bytes(line, reach);
            line.number(", outside of r10 - ", u64::from(STACK_SIZE));
            line.push(" up to r10 - 1");
        }
        Memory::Element { map, bytes } => {
            line.push("the access is to bytes ");
            push_bytes(line, reach);
            line.number(" of an element of map ", u64::from(map));
            line.show(", outside of 0..", &bytes.saturating_sub(1));
        }
    }
}

fn push_misaligned(line: &mut Text, reach: Reach) {
    let byte = misaligned_in(reach);
    match reach.place.memory {
        Memory::Stack => line.show("stack ", &byte),
        Memory::Element { map, .. } => {
            line.show("byte ", &byte);
            line.number(" of an element of map ", u64::from(map));
            push_among(line, reach.place);
        }
    }
    line.number(" is no multiple of ", u64::from(reach.count));
}

/// Appends among which bytes it is, if there is more than one.
fn push_among(line: &mut Text, place: Place) {
    if !place.is_single() {
        line.push(", among ");
        Members::of_place(place).push(line);
        line.push(",");
    }
}

/// The first of the bytes at which an access may begin that is no multiple of its size: the first of all,
/// or else the next.
fn misaligned_in(reach: Reach) -> i128 {
    let Place { from, shift, .. } = reach.place;
    if from.checked_rem(i128::from(reach.count)) == Some(0) {
        from.saturating_add(step_of(shift))
    } else {
        from
    }
}

/// Appends where the value at fault comes from.
fn push_origin(line: &mut Text, origin: Origin) {
    match origin {
        Origin::Nowhere => line.push("nothing on the way here writes it"),
        Origin::Argument => line.push("it is an argument"),
        Origin::Frame => line.push("it comes from r10"),
        Origin::Written(slot) => line.number("it was written at ", slot as u64),
        Origin::Torn(slot) => {
            line.number("the store at ", slot as u64);
            line.push(" writes over another part of the pointer there");
        }
        Origin::Answered { number, slot } => {
            line.show("it comes from call ", &number);
            line.number(" at ", slot as u64);
        }
        Origin::Lost { number, slot } => {
            line.show("call ", &number);
            line.number(" at ", slot as u64);
            line.push(" leaves it unusable");
        }
        Origin::Null(slot) => {
            line.number("it is 0 on this side of the test at ", slot as u64);
        }
        Origin::Met {
            slot,
            first,
            second,
        } => push_met(line, slot, first, second),
        Origin::Sides {
            slot,
            jump,
            jumped,
            on,
        } => push_sides(line, slot, jump, jumped, on),
    }
}

/// Appends what the ways brought that meet at a slot.
fn push_met(line: &mut Text, slot: usize, first: Brought, second: Brought) {
    line.number("at ", slot as u64);
    line.push(" ways meet that bring ");
    push_brought(line, first);
    line.push(" and ");
    push_brought(line, second);
}

/// Appends that both sides of a jump meet, as it goes to the next instruction.
fn push_sides(line: &mut Text, slot: usize, jump: usize, jumped: Kind, on: Kind) {
    line.number("the jump at ", jump as u64);
    line.number(
        " goes to the next instruction, so both of its sides meet at ",
        slot as u64,
    );
    line.push(": ");
    push_spoken(line, jumped);
    line.push(" where it jumps, ");
    push_spoken(line, on);
    line.push(" where it doesn't");
}

/// Appends what a way brought.
fn push_brought(line: &mut Text, brought: Brought) {
    push_brought_kind(line, brought.kind);
    line.number(" from ", brought.from as u64);
}

fn push_brought_kind(line: &mut Text, kind: Kind) {
    match kind {
        Kind::Stack(STACK_SIZE) => line.push("the frame pointer"),
        Kind::Stack(byte) => line.show("a pointer to stack ", &from_top(byte)),
        kind => push_spoken(line, kind),
    }
}
