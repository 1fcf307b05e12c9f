ghost use Rattle.std.specs.Prelude.{◌≡◌};
ghost use Rattle.scx_isa_semantics.specs.Meaning.{numbers_compared, null_answer, null_compared, comparison_answer};
ghost use Rattle.scx_isa_semantics.specs.Effects.{branch};
ghost use Rattle.scx_isa_semantics.specs.Elements.{Maps};
ghost use Rattle.scx_isa_semantics.specs.Machine.{Machine};
ghost use Rattle.scx_isa_semantics.specs.Registers.{number};
ghost use Rattle.scx_vm_tagged.specs.State.{seen, register_value};
ghost use Rattle.scx_vm_tagged.specs.Execute.{effect_of};

use crate::effect::Effect;
use crate::state::Core;
use crate::values::operand_value;
use scx_isa::{Comparison, Operand, Register, Value, Width};
use scx_isa_semantics as numbers;

/// The answer of a comparison; `None` where it has no meaning.
pub fn comparison_answer(
    core: &Core,
    width: Width,
    comparison: Comparison,
    register: Register,
    operand: Operand,
) -> Option<bool>
    ensures { (maps : Maps)
        → result
        ≡ comparison_answer (seen core.now maps) width comparison
        (register_value core.now (number register)) operand }
{
    match core.read(register) {
        Value::Number(a) => numbers_compared(
            width,
            comparison,
            a,
            operand_value(core, width, operand),
        ),
        Value::Pointer(_) => null_compared(width, comparison, operand),
        Value::Unset => None,
    }
}

/// The answer of a comparison of a number with an operand.
fn numbers_compared(width: Width, comparison: Comparison, a: u64, operand: Value) -> Option<bool>
    ensures { result ≡ numbers_compared width comparison a operand }
{
    match operand {
        Value::Number(b) => Some(numbers::compares(width, comparison, a, b)),
        Value::Pointer(_) | Value::Unset => None,
    }
}

/// The answer of a test of a pointer for 0: it never is.
fn null_compared(width: Width, comparison: Comparison, operand: Operand) -> Option<bool>
    ensures { result ≡ null_compared width comparison operand }
{
    match (width, operand) {
        (Width::Bits64, Operand::Immediate(0)) => null_answer(comparison),
        _ => None,
    }
}

/// The answer of a comparison of a pointer with 0.
fn null_answer(comparison: Comparison) -> Option<bool>
    ensures { result ≡ null_answer comparison }
{
    match comparison {
        Comparison::Equal => Some(false),
        Comparison::NotEqual => Some(true),
        _ => None,
    }
}

/// Where a comparison leads.
pub fn branch(holds: Option<bool>) -> Effect
    ensures { (m : Machine) → branch m holds ≡ effect_of result m }
{
    match holds {
        Some(true) => Effect::Jumped,
        Some(false) => Effect::Next,
        None => Effect::Stuck,
    }
}
