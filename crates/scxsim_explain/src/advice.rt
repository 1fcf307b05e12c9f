use crate::lost_numbers::advice_on_lost;
use scx_abs::Kind;
use scx_asm_text::field_name;
use scx_isa::{CALLBACKS, Field, Helper, Parameter, Rules, Size};
use scx_verify_explain::{
    BadAccess, BadCall, BadField, BadFlow, BadValue, LostRange, Origin, Reason,
};
use scxsim_output::Text;

/// A change that would help.
#[derive(Clone, Copy)]
pub(crate) struct Advice {
    pub(crate) reason: Reason,
    pub(crate) lost: Option<LostRange>,
    pub(crate) origin: Option<Origin>,
    pub(crate) is_copied: bool,
    pub(crate) rules: Rules,
}

impl Advice {
    /// Appends it.
    pub(crate) fn push(&self, line: &mut Text) {
        match self.reason {
            Reason::Flow(flow) => line.push(advice_on_flow(flow)),
            Reason::Value(value) => line.push(self.on_value(value)),
            Reason::Access(access) => line.push(self.on_access(access)),
            Reason::Field(field) => push_advice_on_field(line, self.rules, field),
            Reason::Call(call) => push_advice_on_call(line, self.rules, call),
            Reason::UnknownMap { .. } => line.push("count maps from 0, or define the map"),
        }
    }

    fn on_value(self, value: BadValue) -> &'static str {
        match value {
            BadValue::Unusable(_) => advice_on_unusable(self.origin),
            BadValue::Frame => "copy it, r2 = r10, and move the copy",
            BadValue::MayBeNull(_) if self.is_copied => {
                "test it first, as the test of a copy says nothing of it"
            }
            BadValue::MayBeNull(_) => "test it first",
            BadValue::Arithmetic(..) => {
                "only += and -= of 64 bits with a number in the text move a pointer to the stack or an element, and += of 64 bits with a register one to an element"
            }
            BadValue::Comparison(..) => "compare a pointer with 0 alone, by == or != of 64 bits",
            BadValue::Stored(..) => "store a pointer on the stack alone, by u64",
            BadValue::Answer { .. } => "write to r0 what it is to answer",
        }
    }

    fn on_access(&self, access: BadAccess) -> &'static str {
        match access {
            BadAccess::Unwritten { .. } => advice_on_unwritten(self.origin),
            BadAccess::PartOfPointer { .. } => {
                "load a stored pointer by u64, from where it was stored"
            }
            BadAccess::NoPointer(_, kind) => advice_on_address(kind, self.origin),
            BadAccess::Outside(reach) if !reach.place.is_single() => self.on_number(),
            BadAccess::Outside(_) => "keep within it",
            BadAccess::MovedOut { place, .. } if !place.is_single() => self.on_number(),
            BadAccess::MovedOut { .. } => "keep a pointer in its memory or at its end",
            BadAccess::Misaligned(reach) if !reach.place.is_single() => {
                "make the number a multiple by a mask or a shift, or use smaller accesses"
            }
            BadAccess::Misaligned(_) => "move it to a multiple, or use smaller accesses",
        }
    }

    /// Advice on a number that moves a pointer into a map value.
    fn on_number(&self) -> &'static str {
        match self.lost.as_ref() {
            Some(lost) => advice_on_lost(lost),
            None => "compare the number first, or mask it",
        }
    }
}

fn advice_on_flow(flow: BadFlow) -> &'static str {
    match flow {
        BadFlow::Back(_) => "write the loop out",
        BadFlow::OutOfProgram { .. } => {
            "count slots from the instruction after the jump, or use a label"
        }
        BadFlow::IntoWide(_) => "count instructions of two slots as two, or use a label",
        BadFlow::FallsOff => "end with exit",
    }
}

fn advice_on_unusable(origin: Option<Origin>) -> &'static str {
    match origin {
        Some(Origin::Lost { .. }) => "save it before the call, in r6 to r9 or on the stack",
        Some(Origin::Met { .. }) => "bring the same kind on each way",
        Some(Origin::Sides { .. }) => "let it jump elsewhere",
        _ => "write it on each way here",
    }
}

fn advice_on_unwritten(origin: Option<Origin>) -> &'static str {
    match origin {
        Some(Origin::Met { .. }) => "bring the same kind on each way",
        _ => "write all of it first",
    }
}

fn advice_on_address(kind: Kind, origin: Option<Origin>) -> &'static str {
    match (kind, origin) {
        (_, Some(Origin::Null(_))) => "use it on the other side",
        (Kind::MapRef(_), _) => "look an element up, by call 1",
        _ => "use a pointer to the stack, an element or a task",
    }
}

fn push_advice_on_field(line: &mut Text, rules: Rules, field: BadField) {
    match field {
        BadField::Missing { offset, .. } => push_field_at(line, rules, offset),
        BadField::Signed(_) => line.push("load it without one"),
        BadField::ReadOnly(_) => line.push("store to slice and dsq_vtime alone"),
    }
}

fn push_advice_on_call(line: &mut Text, rules: Rules, call: BadCall) {
    match call {
        BadCall::Unknown(number) => line.push(advice_on_unknown(number)),
        BadCall::NotHere { number, .. } => push_callbacks(line, rules, number),
        BadCall::Argument {
            kind,
            parameter,
            ..
        } => line.push(advice_on_argument(kind, parameter)),
    }
}

/// Advice where the rules know no helper of that number. A helper that exists is one of Linux rules.
fn advice_on_unknown(number: i32) -> &'static str {
    match Helper::new(number) {
        Some(_) => "rules = \"linux\" has it",
        None => "take the number from the table of helpers",
    }
}

fn advice_on_argument(kind: Kind, parameter: Parameter) -> &'static str {
    match (kind, parameter) {
        (Kind::MapRef(_), Parameter::Map | Parameter::PerCpuMap | Parameter::LineMap) => {
            "use a map of such a kind"
        }
        _ => "put the arguments in r1, r2 and so on",
    }
}

/// Appends the callbacks that these rules know in which a helper may be called.
fn push_callbacks(line: &mut Text, rules: Rules, number: i32) {
    line.push("call it in ");
    let Some(helper) = Helper::new(number) else {
        return;
    };
    let mut before = "";
    for callback in CALLBACKS {
        if callback.is_known(rules) && helper.is_allowed(callback) {
            line.push(before);
            line.push(callback.name());
            before = ", ";
        }
    }
}

/// Appends which field that these rules know is at an offset of a task's record.
fn push_field_at(line: &mut Text, rules: Rules, offset: i16) {
    let (field, bytes) = match (
        Field::known(offset, Size::Word, rules),
        Field::known(offset, Size::DoubleWord, rules),
    ) {
        (Some(field), _) => (field, " is there, of 4 bytes"),
        (None, Some(field)) => (field, " is there, of 8 bytes"),
        (None, None) => return line.push("take offset and size from the table of fields"),
    };
    line.push(field_name(field));
    line.push(bytes);
}
