use scx_abs::Kind;
use scx_abs_ranges::{Numbers, Offsets, Range};
use scx_isa::{Parameter, Register, STACK_SIZE};
use scx_verify_explain::Place;
use scxsim_output::Text;

/// The members of a range: one number, or from which to which, and by which step where it isn't 1.
#[derive(Clone, Copy)]
pub(crate) struct Members {
    low: i128,
    high: i128,
    shift: u8,
}

/// The offset of a byte of the stack from its top.
pub(crate) fn from_top(byte: u16) -> i64 {
    i64::from(byte).saturating_sub(i64::from(STACK_SIZE))
}

/// Appends a register, by its name.
pub(crate) fn push_register(line: &mut Text, register: Register) {
    line.number("r", u64::from(register.number()));
}

/// Appends a kind in a list, in a word or some.
pub(crate) fn push_brief(line: &mut Text, kind: &Kind) {
    match *kind {
        Kind::Unusable => line.push("unusable"),
        Kind::Num(numbers) => push_numbers(line, numbers),
        Kind::Stack(STACK_SIZE) => line.push("frame"),
        Kind::Stack(byte) => line.show("stack ", &from_top(byte)),
        Kind::Elem(map, offsets) => push_element(line, map, offsets),
        Kind::ElemOrNull(map) => {
            line.number("element of map ", u64::from(map));
            line.push(" or null");
        }
        Kind::Task => line.push("task"),
        Kind::TaskOrNull => line.push("task or null"),
        Kind::MapRef(map) => line.number("map ", u64::from(map)),
    }
}

impl Members {
    pub(crate) fn of(range: Range) -> Members {
        Members {
            low: i128::from(range.low),
            high: i128::from(range.high),
            shift: range.shift,
        }
    }

    /// The bytes to which a pointer may point.
    pub(crate) fn of_place(place: Place) -> Members {
        Members {
            low: place.from,
            high: place.to,
            shift: place.shift,
        }
    }

    /// Appends them.
    pub(crate) fn push(self, line: &mut Text) {
        line.show("", &self.low);
        if self.low != self.high {
            line.show("..", &self.high);
            push_step(line, step_of(self.shift));
        }
    }
}

fn push_step(line: &mut Text, step: i128) {
    if step != 1 {
        line.show(" by ", &step);
    }
}

/// Appends what is known of a number.
fn push_numbers(line: &mut Text, numbers: Numbers) {
    line.push("number");
    let range = numbers.range();
    if range != Range::ALL {
        line.push(" ");
        Members::of(range).push(line);
    }
}

/// Appends what is known of a pointer to an element.
fn push_element(line: &mut Text, map: u8, offsets: Offsets) {
    line.number("element of map ", u64::from(map));
    if offsets.high() != 0 {
        line.push(" + ");
        Members::of(offsets.range()).push(line);
    }
}

/// The distance from one member of a range to the next.
pub(crate) fn step_of(shift: u8) -> i128 {
    match shift {
        0 => 1,
        1 => 2,
        2 => 4,
        _ => 8,
    }
}

/// Appends a kind in a sentence.
pub(crate) fn push_spoken(line: &mut Text, kind: Kind) {
    match kind {
        Kind::Unusable => line.push("nothing"),
        Kind::Num(_) => line.push("a number"),
        Kind::Stack(_) => line.push("a pointer to the stack"),
        Kind::Elem(map, _) => line.number("a pointer to an element of map ", u64::from(map)),
        Kind::ElemOrNull(map) => {
            line.number("a pointer to an element of map ", u64::from(map));
            line.push(", or null");
        }
        Kind::Task => line.push("a task"),
        Kind::TaskOrNull => line.push("a task, or null"),
        Kind::MapRef(map) => line.number("a reference to map ", u64::from(map)),
    }
}

/// The argument that a helper takes; the one given may be a map.
pub(crate) fn wanted(parameter: Parameter, is_map: bool) -> &'static str {
    match parameter {
        Parameter::Map if is_map => "a reference to a map with keys",
        Parameter::Map => "a reference to a map",
        Parameter::PerCpuMap => "a reference to a map of kind percpu",
        Parameter::LineMap => "a reference to a queue or a stack",
        Parameter::Key => "a pointer to a key",
        Parameter::Value => "a pointer to a value",
        Parameter::Room => "a pointer to room for a value",
        Parameter::Task => "a task",
        Parameter::Number => "a number",
    }
}
