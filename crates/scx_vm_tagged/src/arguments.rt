ghost use Rattle.std.specs.Prelude.{◌≡◌};
ghost use Rattle.scx_vm.specs.Arguments.{argument_value, argument_of, answer_value};

use scx_isa::{Pointer, Value};
use scx_vm::{Answer, Arg};

/// The value that a register holds of it.
pub fn argument_value(argument: Arg) -> Value
    ensures { result ≡ argument_value argument }
{
    match argument {
        Arg::Unset => Value::Unset,
        Arg::Num(n) => Value::Number(n),
        Arg::Task(task) => Value::Pointer(Pointer::Task(task)),
    }
}

/// A register's value as a host is given it.
pub fn argument_of(value: Value) -> Arg
    ensures { result ≡ argument_of value }
{
    match value {
        Value::Number(n) => Arg::Num(n),
        Value::Pointer(Pointer::Task(task)) => Arg::Task(task),
        Value::Pointer(Pointer::Stack(_) | Pointer::Map(_) | Pointer::Element { .. })
        | Value::Unset => Arg::Unset,
    }
}

/// The value that r0 holds of it.
pub fn answer_value(answer: Answer) -> Value
    ensures { result ≡ answer_value answer }
{
    match answer {
        Answer::Num(n) => Value::Number(n),
        Answer::Task(task) => Value::Pointer(Pointer::Task(task)),
    }
}
