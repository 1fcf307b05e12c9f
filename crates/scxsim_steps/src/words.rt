use scx_isa::{Pointer, STACK_SIZE, Value};
use scx_sched_world::{GLOBAL, LOCAL};
use scxsim_faults::is_local;
use scxsim_output::Text;
use scxsim_trace::Names;

/// A millisecond in nanoseconds.
const MS: u64 = 1_000_000;

/// Appends a time in nanoseconds, in milliseconds where it is a whole number of them; the greatest has no end.
pub(crate) fn push_time(ns: u64, text: &mut Text) {
    if ns == u64::MAX {
        text.push("no end");
    } else if ns % MS == 0 {
        text.number("", ns / MS);
        text.push(" ms");
    } else {
        text.number("", ns);
        text.push(" ns");
    }
}

/// Appends what a register holds, in a policy's terms.
pub(crate) fn push_value<N: Names>(value: Value, names: &N, text: &mut Text) {
    match value {
        Value::Unset => text.push("nothing"),
        Value::Number(n) => push_number(n, text),
        Value::Pointer(Pointer::Task(task)) => {
            text.push("task ");
            text.push(names.task(task.0));
        }
        Value::Pointer(Pointer::Map(map)) => text.number("map ", u64::from(map)),
        Value::Pointer(Pointer::Stack(at)) => push_stack(at, text),
        Value::Pointer(Pointer::Element { map, index, offset }) => {
            push_element(map, index, offset, text);
        }
    }
}

/// Appends a number, and its possible meaning: a queue of the machine, a number below 0, or a time.
pub(crate) fn push_number(n: u64, text: &mut Text) {
    text.number("", n);
    if n == GLOBAL {
        text.push(" (global)");
    } else if n == LOCAL {
        text.push(" (local)");
    } else if is_local(n) {
        text.number(" (local ", n % 0x1_0000_0000);
        text.push(")");
    } else if 1 << 63 <= n {
        text.number(" (-", n.wrapping_neg());
        text.push(")");
    } else if MS <= n && n % MS == 0 {
        text.number(" (", n / MS);
        text.push(" ms)");
    }
}

/// Appends a place on the stack, by its distance from the top.
pub(crate) fn push_stack(at: u16, text: &mut Text) {
    let below = STACK_SIZE.saturating_sub(at);
    if below == 0 {
        text.push("frame");
    } else {
        text.number("stack -", u64::from(below));
    }
}

/// Appends a place in an element of a map.
pub(crate) fn push_element(map: u8, index: u32, offset: u16, text: &mut Text) {
    text.number("element ", u64::from(index));
    text.number(" of map ", u64::from(map));
    if offset != 0 {
        text.number(" + ", u64::from(offset));
    }
}
