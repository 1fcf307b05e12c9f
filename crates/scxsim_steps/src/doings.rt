use crate::places::Place;
use crate::words::{push_number, push_value};
use scx_asm_text::helper_name;
use scx_isa::{Helper, Insn, MapHelper, Operand, Parameter, Pointer, Register, Value, Width};
use scx_isa_semantics::immediate;
use scx_sched::What;
use scx_sched_world::{Cause, World};
use scx_vm_tagged::Core;
use scxsim_faults::{HelperCall, write_helper_call};
use scxsim_output::Text;
use scxsim_trace::Names;
use scxsim_views::{QueueName, fault_words};

/// An instruction that is about to be done, and what of the world has to be known before it.
#[derive(Clone, Copy)]
pub(crate) struct Before {
    pub(crate) slot: usize,
    pub(crate) insn: Insn,
    /// From where it loads, if it does.
    source: Option<Place>,
    /// The number of notes that the callback has made.
    notes: usize,
    /// True if it has had a fault, or has ended the policy.
    has_cause: bool,
    /// The CPU that a call of `kick_cpu` names.
    kick: Option<u64>,
}

impl Before {
    pub(crate) fn new(slot: usize, insn: Insn, core: &Core, world: &World) -> Before {
        Before {
            slot,
            insn,
            source: source_of(insn, core),
            notes: world.notes().len(),
            has_cause: world.cause().is_some(),
            kick: kick_of(insn, core),
        }
    }

    /// The CPU that it has kicked, as the world is after it.
    pub(crate) fn kicked(self, world: &World) -> Option<u64> {
        if world.cause().is_some() == self.has_cause {
            self.kick
        } else {
            None
        }
    }
}

fn kick_of(insn: Insn, core: &Core) -> Option<u64> {
    let Insn::Call(number) = insn else {
        return None;
    };
    match Helper::new(number)? {
        Helper::KickCpu => number_of(core.read(Register::R1)),
        _ => None,
    }
}

fn number_of(value: Value) -> Option<u64> {
    match value {
        Value::Number(n) => Some(n),
        Value::Unset | Value::Pointer(_) => None,
    }
}

fn source_of(insn: Insn, core: &Core) -> Option<Place> {
    match insn {
        Insn::Load(access, _, register, offset) => {
            Place::of(core, register, offset, access.size())
        }
        _ => None,
    }
}

/// Appends what an instruction is about to do that isn't seen in registers: the call of a helper with its arguments,
/// what is stored and where, and the answer.
pub(crate) fn push_begun<N: Names>(before: Before, core: &Core, names: &N, words: &mut Text) {
    match before.insn {
        Insn::Call(number) => push_call(number, core, names, words),
        Insn::Store(size, register, offset, operand) => {
            match Place::of(core, register, offset, size) {
                Some(place) => place.push(names, words),
                None => words.push("nowhere"),
            }
            words.push(" = ");
            push_value(operand_value(operand, core), names, words);
        }
        _ => {}
    }
}

/// The value of an operand that is stored.
fn operand_value(operand: Operand, core: &Core) -> Value {
    match operand {
        Operand::Immediate(k) => Value::Number(immediate(Width::Bits64, k)),
        Operand::Register(register) => core.read(register),
    }
}

/// Appends a helper's call with its arguments.
fn push_call<N: Names>(number: i32, core: &Core, names: &N, words: &mut Text) {
    match Helper::new(number) {
        Some(Helper::MapLookupElem) => push_lookup(core, names, words),
        Some(Helper::OnMap(helper)) => push_on_map(helper, core, names, words),
        Some(helper) => {
            let call = HelperCall {
                helper,
                number,
                arguments: [
                    core.read(Register::R1),
                    core.read(Register::R2),
                    core.read(Register::R3),
                    core.read(Register::R4),
                    core.read(Register::R5),
                ],
            };
            write_helper_call(&call, names, words);
        }
        None => words.push("no helper"),
    }
}

/// Appends a helper on a map: the map, and what it takes beside.
fn push_on_map<N: Names>(helper: MapHelper, core: &Core, names: &N, words: &mut Text) {
    words.push(helper_name(Helper::OnMap(helper)));
    words.push("(");
    push_value(core.read(Register::R1), names, words);
    push_argument(helper.parameter(1), core.read(Register::R2), names, words);
    push_argument(helper.parameter(2), core.read(Register::R3), names, words);
    push_argument(helper.parameter(3), core.read(Register::R4), names, words);
    words.push(")");
}

/// Appends an argument of a helper on a map, if it takes one there.
fn push_argument<N: Names>(
    parameter: Option<Parameter>,
    value: Value,
    names: &N,
    words: &mut Text,
) {
    match parameter {
        None => return,
        Some(Parameter::Key) => words.push(", key at "),
        Some(Parameter::Value | Parameter::Room) => words.push(", value at "),
        Some(_) => words.push(", "),
    }
    push_value(value, names, words);
}

/// Appends the look-up of an element: the map, and the place of the key.
fn push_lookup<N: Names>(core: &Core, names: &N, words: &mut Text) {
    words.push("map_lookup_elem(");
    push_value(core.read(Register::R1), names, words);
    words.push(", key at ");
    push_value(core.read(Register::R2), names, words);
    words.push(")");
}

/// Appends what an instruction did: the register that it wrote, where control goes, and what its helper did.
pub(crate) fn push_after<N: Names>(
    before: Before,
    next: Option<(usize, &Core)>,
    world: &World,
    names: &N,
    words: &mut Text,
) {
    if let Some((slot, core)) = next {
        push_written(before, core, names, words);
        push_way(before, slot, words);
    }
    push_effects(before, world, names, words);
}

/// Appends a comma after earlier words, if there are any.
fn separate(words: &mut Text) {
    if !words.is_empty() {
        words.push(", ");
    }
}

/// Appends what is in the register that the instruction wrote, if it writes one.
fn push_written<N: Names>(before: Before, core: &Core, names: &N, words: &mut Text) {
    let Some(register) = destination_of(before.insn) else {
        return;
    };
    separate(words);
    words.number("r", u64::from(register.number()));
    words.push(" = ");
    push_value(core.read(register), names, words);
    if let Some(place) = before.source {
        words.push(", from ");
        place.push(names, words);
    }
}

/// The register that an instruction writes; of a call the one that holds its answer.
fn destination_of(insn: Insn) -> Option<Register> {
    match insn {
        Insn::Binary(_, _, register, _) => Some(register),
        Insn::Negate(_, register) => Some(register),
        Insn::SignExtend(_, register, _) => Some(register),
        Insn::ByteSwap(_, _, register) => Some(register),
        Insn::LoadImmediate(register, _, _) => Some(register),
        Insn::LoadMapReference(register, _) => Some(register),
        Insn::Load(_, register, _, _) => Some(register),
        Insn::Call(_) => Some(Register::R0),
        Insn::Store(..) | Insn::JumpIf { .. } | Insn::Goto(_) | Insn::GotoLong(_) | Insn::Exit => {
            None
        }
    }
}

/// Appends the target of a jump.
fn push_way(before: Before, slot: usize, words: &mut Text) {
    match before.insn {
        Insn::JumpIf { .. } if slot == before.slot.saturating_add(1) => words.push("goes on"),
        Insn::JumpIf { .. } | Insn::Goto(_) | Insn::GotoLong(_) => {
            words.number("jumps to ", slot as u64);
        }
        _ => {}
    }
}

/// Appends what a helper did: tasks that it moved, and a fault or an end of the policy.
fn push_effects<N: Names>(before: Before, world: &World, names: &N, words: &mut Text) {
    if let Some(notes) = world.notes().get(before.notes..) {
        for note in notes {
            push_effect(note.what, names, words);
        }
    }
    match world.cause() {
        Some(cause) if !before.has_cause => {
            separate(words);
            push_cause(cause, words);
        }
        _ => {}
    }
}

/// Appends a fault, or the code with which the policy ends.
fn push_cause(cause: Cause, words: &mut Text) {
    match cause {
        Cause::Fault(fault) => {
            words.number("fault ", u64::from(fault.number()));
            words.push(": ");
            words.push(fault_words(fault));
        }
        Cause::Exit(code) => words.show("exit ", &code),
    }
}

/// Appends what becomes of a task.
fn push_effect<N: Names>(what: What, names: &N, words: &mut Text) {
    match what {
        What::Move(task, cpu) => {
            separate(words);
            words.push(names.task(task));
            words.number(" goes to local ", u64::from(cpu));
        }
        What::Insert(task, queue) => {
            separate(words);
            words.push(names.task(task));
            words.show(" goes into ", &QueueName(queue));
        }
        _ => {}
    }
}

/// Appends the answer of a callback that answers.
pub(crate) fn push_answer(answer: u64, words: &mut Text) {
    words.push("answers ");
    push_number(answer, words);
}
