ghost use Rattle.std.specs.Prelude.{◌≡◌, ◌≤◌};
ghost use Rattle.scx_maps.specs.Contents.{lengths_of};
ghost use Rattle.scx_isa_semantics.specs.Elements.{Maps};
ghost use Rattle.scx_isa_semantics.specs.Machine.{Machine};
ghost use Rattle.scx_isa_semantics.specs.Memory.{size_bytes, access_size};
ghost use Rattle.scx_isa_semantics.specs.Meaning.{load_effect, store_effect};
ghost use Rattle.scx_isa_semantics.specs.Locations as locations;
ghost use Rattle.scx_isa_semantics.specs.Registers.{number};
ghost use Rattle.scx_isa_semantics.specs.declared.operations.Size as Sizes;
ghost use Rattle.scx_vm_tagged.specs.State.{seen};
ghost use Rattle.scx_vm.specs.Host.{host};
ghost use Rattle.scx_vm_tagged.specs.Locations.{location_of, Lies, LiesOnStack};
ghost use Rattle.scx_vm_tagged.specs.Execute.{ComesTo, effect_of};

use crate::effect::Effect;
use crate::memory::{Location, element_number};
use crate::state::Core;
use scx_isa::{Access, Field, Register, Size, TaskId, Value};
use scx_maps::Maps;
use scx_vm::Env;

/// Loads from a location.
#[tactic(auto, using(crate::proofs::Effects::comes_to))]
pub fn load<E: Env>(
    core: &mut Core,
    destination: Register,
    access: Access,
    location: Location,
    maps: &Maps,
    env: &E,
) -> Effect
    requires { Lies maps.now (size_bytes (access_size access)) location }
    ensures { ComesTo (host E.functions)
        (load_effect (seen core.old maps.now) (number destination) access (location_of location))
        maps.now env.now result (seen core.new maps.now) env.now }
{
    match location {
        Location::Nowhere => Effect::Stuck,
        Location::OnStack(at) => {
            let value = core.stack.load(access, usize::from(at));
            core.set_register(destination, value)
        }
        Location::InElement(map, index, at) => {
            let n = element_number(maps, map, index, at, access);
            core.set_register(destination, Some(Value::Number(n)))
        }
        Location::InTask(task, field) => load_field(core, destination, access, task, field, env),
    }
}

/// Loads a field of a task.
fn load_field<E: Env>(
    core: &mut Core,
    destination: Register,
    access: Access,
    task: TaskId,
    field: Field,
    env: &E,
) -> Effect
    ensures { (maps : Maps)
        → ComesTo (host E.functions)
        (load_effect (seen core.old maps) (number destination) access (locations.InTask task field)) maps
        env.now result (seen core.new maps) env.now }
{
    if !access.is_plain() || destination == Register::R10 {
        return Effect::Stuck;
    }
    let n = env.load(task, field);
    core.write(destination, Value::Number(n));
    Effect::Next
}

/// Stores a value at a location.
#[tactic(auto, using(crate::proofs::Effects::comes_to))]
pub fn store<E: Env>(
    core: &mut Core,
    size: Size,
    value: Value,
    location: Location,
    maps: &mut Maps,
    env: &mut E,
) -> Effect
    requires { Lies maps.old (size_bytes size) location }
    ensures effect { ComesTo (host E.functions)
        (store_effect (seen core.old maps.old) size value (location_of location)) maps.old env.old result
        (seen core.new maps.new) env.new }
    ensures shapes { lengths_of maps.new ≡ lengths_of maps.old }
    ensures room { E.room env.old ≤ E.room env.new }
    ensures spent { E.spent env.new ≤ E.spent env.old }
{
    match location {
        Location::Nowhere => Effect::Stuck,
        Location::OnStack(at) => store_on_stack(core, size, value, at),
        Location::InElement(map, index, at) => {
            let Value::Number(n) = value else {
                return Effect::Stuck;
            };
            maps.store(map, index, at, size, n);
            Effect::Next
        }
        Location::InTask(task, field) => store_field(env, task, field, value),
    }
}

/// Stores a value on the stack.
fn store_on_stack(core: &mut Core, size: Size, value: Value, at: u16) -> Effect
    requires { LiesOnStack at (size_bytes size) }
    ensures { (maps : Maps)
        → store_effect (seen core.old maps) size value (locations.OnStack at)
        ≡ effect_of result (seen core.new maps) }
{
    match (size, value) {
        (_, Value::Number(n)) => core.stack.store_number(size, usize::from(at), n),
        (Size::DoubleWord, Value::Pointer(pointer)) => {
            core.stack.store_pointer(usize::from(at), pointer);
        }
        _ => return Effect::Stuck,
    }
    Effect::Next
}

/// Stores a value to a field of a task, which has to be a number, and the field one that may be
/// written.
fn store_field<E: Env>(env: &mut E, task: TaskId, field: Field, value: Value) -> Effect
    ensures effect { (m : Machine) (size : Sizes.Size)
        → ComesTo (host E.functions) (store_effect m size value (locations.InTask task field)) m.maps
        env.old result m env.new }
    ensures room { E.room env.old ≤ E.room env.new }
    ensures spent { E.spent env.new ≤ E.spent env.old }
{
    let Value::Number(n) = value else {
        return Effect::Stuck;
    };
    if !field.is_writable() {
        return Effect::Stuck;
    }
    env.store(task, field, n);
    Effect::Next
}
