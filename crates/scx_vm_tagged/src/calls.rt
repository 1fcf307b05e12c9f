ghost use Rattle.std.specs.Prelude.{◌≡◌, ◌+◌, ◌<◌, ◌≤◌, length, map, slice_get, if◌then◌else◌};
ghost use Rattle.scx_isa_semantics.specs.Calls.{call, takes_all, argument, arguments, call_effect};
ghost use Rattle.scx_isa_semantics.specs.Effects as effects;
ghost use Rattle.scx_isa_semantics.specs.Elements.{Maps};
ghost use Rattle.scx_isa_semantics.specs.HostTables.{parameters, is_of_map};
ghost use Rattle.scx_isa_semantics.specs.Registers.{number};
ghost use Rattle.std.specs.Bool.{IsFalse};
ghost use Rattle.scx_maps.specs.Contents.{lengths_of};
ghost use Rattle.scx_vm_tagged.specs.State.{seen, register_value};
ghost use Rattle.scx_vm.specs.Host.{host};
ghost use Rattle.scx_vm.specs.Arguments.{argument_of};
ghost use Rattle.scx_vm_tagged.specs.Arguments.{finds};
ghost use Rattle.scx_vm_tagged.specs.Execute.{ComesTo, effect_of};

use crate::arguments::{answer_value, argument_of};
use crate::effect::Effect;
use crate::on_map::on_map;
use crate::state::Core;
use scx_isa::{Callback, Helper, Parameter, Pointer, Register, Value};
use scx_maps::Maps;
use scx_vm::{Arg, Env};

/// Calls the helper of that number (RFC 9669, section 4.3.1).
#[inline(never)]
#[tactic(auto, using(crate::proofs::Effects::comes_to))]
pub fn call<E: Env>(
    core: &mut Core,
    number: i32,
    callback: Callback,
    maps: &mut Maps,
    env: &mut E,
) -> Effect
    requires budget { 0 < E.room env.old }
    ensures effect { ComesTo (host E.functions) (call callback (seen core.old maps.old) number)
        maps.old env.old result (seen core.new maps.new) env.new }
    ensures shapes { lengths_of maps.new ≡ lengths_of maps.old }
    ensures room { E.room env.old ≤ E.room env.new + 1 }
    ensures spent { E.spent env.new ≤ E.spent env.old + 1 }
{
    let Some(helper) = Helper::new(number) else {
        return Effect::Stuck;
    };
    if !helper.is_allowed(callback) {
        return Effect::Stuck;
    }
    if helper.is_of_map() {
        on_map(core, helper, maps, env)
    } else {
        ask(core, helper, env)
    }
}

/// Asks the host, if the helper finds what it takes.
fn ask<E: Env>(core: &mut Core, helper: Helper, env: &mut E) -> Effect
    requires budget { 0 < E.room env.old }
    requires is_asked { IsFalse (is_of_map helper) }
    ensures effect { (maps : Maps)
        → ComesTo (host E.functions)
        (if takes_all (seen core.old maps) (parameters helper) 1 then call_effect (seen core.old maps)
        helper else effects.Stuck) maps env.old result (seen core.new maps) env.new }
    ensures room { E.room env.old ≤ E.room env.new + 1 }
    ensures spent { E.spent env.new ≤ E.spent env.old + 1 }
{
    if !takes_all(core, helper) {
        return Effect::Stuck;
    }
    let answer = env.call(helper, &arguments(core, helper));
    core.end_call(answer_value(answer));
    Effect::Next
}

/// The helper's arguments, from r1 on.
fn arguments(core: &Core, helper: Helper) -> [Arg; 5]
    ensures { (maps : Maps) → result ≡ map argument_of (arguments (seen core.now maps) helper) }
{
    [
        argument(core, helper, 0, Register::R1),
        argument(core, helper, 1, Register::R2),
        argument(core, helper, 2, Register::R3),
        argument(core, helper, 3, Register::R4),
        argument(core, helper, 4, Register::R5),
    ]
}

/// The value of the register, if the helper takes an argument of that number.
fn argument(core: &Core, helper: Helper, index: usize, register: Register) -> Arg
    requires { number register ≡ index + 1 }
    ensures { (maps : Maps)
        → result
        ≡ argument_of
        (argument (seen core.now maps) (length (parameters helper)) (number register)) }
{
    if helper.parameter(index).is_some() {
        argument_of(core.read(register))
    } else {
        Arg::Unset
    }
}

/// True if a helper that asks the host finds all its arguments, from r1 on.
fn takes_all(core: &Core, helper: Helper) -> bool
    requires { IsFalse (is_of_map helper) }
    ensures { (maps : Maps) → result ≡ takes_all (seen core.now maps) (parameters helper) 1 }
{
    takes(core, helper, 0, Register::R1)
        & (takes(core, helper, 1, Register::R2)
            & (takes(core, helper, 2, Register::R3)
                & (takes(core, helper, 3, Register::R4) & takes(core, helper, 4, Register::R5))))
}

/// True if the register holds what the helper takes as its argument of that number: a task or a
/// number.
fn takes(core: &Core, helper: Helper, index: usize, register: Register) -> bool
    ensures { (maps : Maps)
        → result
        ≡ finds (seen core.now maps) (slice_get (parameters helper) index)
        (register_value core.now (number register)) }
{
    let value = core.read(register);
    match helper.parameter(index) {
        None => true,
        Some(Parameter::Task) => matches!(value, Value::Pointer(Pointer::Task(_))),
        Some(Parameter::Number) => matches!(value, Value::Number(_)),
        Some(
            Parameter::Map
            | Parameter::PerCpuMap
            | Parameter::LineMap
            | Parameter::Key
            | Parameter::Value
            | Parameter::Room,
        ) => false,
    }
}
