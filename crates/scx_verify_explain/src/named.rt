ghost use Rattle.std.specs.Prelude.{◌≡◌, ◌+◌, ◌≤◌, ℤ, IfSome};
ghost use Rattle.scx_isa_semantics.specs.declared.instructions.Insn.TheVariants as Insn;
ghost use Rattle.scx_isa_semantics.specs.Registers.{number};
ghost use Rattle.scx_isa_semantics.specs.Steps.{distance};
ghost use Rattle.scx_verify_explain.specs.Named.{register_in, first_of, second_of, first_read, second_read};
ghost use Rattle.scx_verify_explain.specs.Named.{Takes, written_register, stored_register, address_of, reads_key, key_address, address_in, value_register, value_of, value_in};
ghost use Rattle.scx_abs.specs.Calls.{value_bytes_at_hand};

use scx_abs::{AbsState, key_size_at_hand, map_at_hand};
use scx_isa::{Helper, Insn, MapHelper, Operand, Operation, Parameter, Register, Size};
use scx_maps::MapDefs;

/// An address that an instruction or a helper is given, and how many bytes it reads or writes there.
#[derive(Clone, Copy)]
pub(crate) struct Address {
    pub(crate) base: Register,
    pub(crate) offset: i16,
    pub(crate) size: Size,
}

/// A value that a helper is given: the register that points to its first byte, and its number of bytes.
#[derive(Clone, Copy)]
pub(crate) struct ValueBytes {
    pub(crate) base: Register,
    pub(crate) count: u16,
}

fn register_in(operand: Operand) -> Option<Register>
    ensures { result ≡ register_in operand }
{
    match operand {
        Operand::Immediate(_) => None,
        Operand::Register(register) => Some(register),
    }
}

fn first_of(operation: Operation, register: Register, operand: Operand) -> Option<Register>
    ensures { result ≡ first_of operation register operand }
{
    match operation {
        Operation::Move => register_in(operand),
        _ => Some(register),
    }
}

fn second_of(operation: Operation, operand: Operand) -> Option<Register>
    ensures { result ≡ second_of operation operand }
{
    match operation {
        Operation::Move => None,
        _ => register_in(operand),
    }
}

/// The register that an instruction reads first; `None` of a call.
pub(crate) fn first_read(insn: Insn) -> Option<Register>
    ensures { result ≡ first_read insn }
{
    match insn {
        Insn::Binary(_, operation, register, operand) => first_of(operation, register, operand),
        Insn::Negate(_, register) => Some(register),
        Insn::SignExtend(_, _, register) => Some(register),
        Insn::ByteSwap(_, _, register) => Some(register),
        Insn::Load(_, _, register, _) => Some(register),
        Insn::Store(_, register, _, _) => Some(register),
        Insn::JumpIf { register, .. } => Some(register),
        _ => None,
    }
}

/// The register that an instruction reads after the first; `None` of a call.
pub(crate) fn second_read(insn: Insn) -> Option<Register>
    ensures { result ≡ second_read insn }
{
    match insn {
        Insn::Binary(_, operation, _, operand) => second_of(operation, operand),
        Insn::Store(_, _, _, operand) => register_in(operand),
        Insn::JumpIf { operand, .. } => register_in(operand),
        _ => None,
    }
}

/// The register that an instruction writes; `None` of a call.
pub(crate) fn written_register(insn: Insn) -> Option<Register>
    ensures { result ≡ written_register insn }
{
    match insn {
        Insn::Binary(_, _, register, _) => Some(register),
        Insn::Negate(_, register) => Some(register),
        Insn::SignExtend(_, register, _) => Some(register),
        Insn::ByteSwap(_, _, register) => Some(register),
        Insn::LoadImmediate(register, _, _) => Some(register),
        Insn::LoadMapReference(register, _) => Some(register),
        Insn::Load(_, register, _, _) => Some(register),
        _ => None,
    }
}

/// The register that an instruction stores.
pub(crate) fn stored_register(insn: Insn) -> Option<Register>
    ensures { result ≡ stored_register insn }
{
    match insn {
        Insn::Store(_, _, _, operand) => register_in(operand),
        _ => None,
    }
}

/// The address that a load reads or a store writes.
pub(crate) fn address_of(insn: Insn) -> Option<Address>
    ensures { result ≡ address_of insn }
{
    match insn {
        Insn::Load(access, _, base, offset) => Some(Address {
            base,
            offset,
            size: access.size(),
        }),
        Insn::Store(size, base, offset, _) => Some(Address { base, offset, size }),
        _ => None,
    }
}

/// The address that an instruction reads or writes in a state. Of a call it is that of the key.
pub(crate) fn address_in(state: &AbsState, insn: Insn, defs: &MapDefs) -> Option<Address>
    ensures { result ≡ address_in defs.now state.now insn }
{
    match insn {
        Insn::Call(number) => key_address(state, Helper::new(number), defs),
        _ => address_of(insn),
    }
}

/// The address of the key that a helper reads, if it reads one.
fn key_address(state: &AbsState, helper: Option<Helper>, defs: &MapDefs) -> Option<Address>
    ensures { result ≡ key_address defs.now state.now helper }
{
    match helper {
        Some(helper) if reads_key(helper) => Some(Address {
            base: Register::R2,
            offset: 0,
            size: key_size_at_hand(state, defs),
        }),
        _ => None,
    }
}

/// True if a helper reads a key.
fn reads_key(helper: Helper) -> bool
    ensures { result ≡ reads_key helper }
{
    match helper {
        Helper::MapLookupElem => true,
        Helper::OnMap(MapHelper::Update | MapHelper::Delete | MapHelper::LookUpPerCpu) => true,
        _ => false,
    }
}

/// The value that a helper reads or writes which an instruction calls in a state.
pub(crate) fn value_in(state: &AbsState, insn: Insn, defs: &MapDefs) -> Option<ValueBytes>
    ensures { result ≡ value_in defs.now state.now insn }
{
    match insn {
        Insn::Call(number) => value_of(state, Helper::new(number), defs),
        _ => None,
    }
}

/// The value that a helper reads or writes, if it does.
fn value_of(state: &AbsState, helper: Option<Helper>, defs: &MapDefs) -> Option<ValueBytes>
    ensures { result ≡ value_of defs.now state.now helper }
{
    let base = value_register(helper?)?;
    Some(ValueBytes {
        base,
        count: value_bytes(state, defs),
    })
}

/// The register that points to the value that a helper reads or writes.
fn value_register(helper: Helper) -> Option<Register>
    ensures { result ≡ value_register helper }
{
    match helper {
        Helper::OnMap(MapHelper::Update) => Some(Register::R3),
        Helper::OnMap(MapHelper::Push | MapHelper::Pop | MapHelper::Peek) => Some(Register::R2),
        _ => None,
    }
}

/// The number of bytes of a value of the map at hand.
fn value_bytes(state: &AbsState, defs: &MapDefs) -> u16
    ensures { result ≡ value_bytes_at_hand defs.now state.now }
{
    match defs.shape(map_at_hand(state)) {
        Some(shape) => shape.value_size as u16,
        None => 0,
    }
}

/// The number of the helper that an instruction calls.
pub(crate) fn called_in(insn: Insn) -> Option<i32>
    ensures { IfSome result (λ number. insn ≡ Insn.Call number) }
{
    match insn {
        Insn::Call(number) => Some(number),
        _ => None,
    }
}

/// The register of an argument, from 0 for r1 on.
fn register_of_argument(argument: usize) -> Option<Register>
    ensures { IfSome result (λ register. number register ≡ argument + 1) }
{
    match argument {
        0 => Some(Register::R1),
        1 => Some(Register::R2),
        2 => Some(Register::R3),
        3 => Some(Register::R4),
        4 => Some(Register::R5),
        _ => None,
    }
}

/// The register of an argument of the helper of a number, and what the helper takes there.
pub(crate) fn argument_of(called: i32, argument: usize) -> Option<(Register, Parameter)>
    ensures { IfSome result (λ taken. Takes called taken.0 taken.1) }
{
    let helper = Helper::new(called)?;
    let parameter = helper.parameter(argument)?;
    let register = register_of_argument(argument)?;
    Some((register, parameter))
}

/// The offset of a jump; 0 of other instructions.
pub(crate) fn distance_of(insn: Insn) -> i32
    ensures { result ≡ distance insn }
{
    match insn {
        Insn::JumpIf { distance, .. } => i32::from(distance),
        Insn::Goto(distance) => i32::from(distance),
        Insn::GotoLong(distance) => distance,
        _ => 0,
    }
}
