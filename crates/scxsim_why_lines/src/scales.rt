use scx_isa::{Access, CALLBACKS, Callback, Insn, Operand, Operation, Program, Register, Rules};
use scx_load_policies::Programs;
use scxsim_output::Text;

/// The weight of a task that kernel policies expect, unless its nice value is another than 0.
const KERNEL_WEIGHT: i32 = 100;

/// The offset of `weight` in the record of a task.
const WEIGHT: i16 = 4;

/// Writes that a callback scales by the kernel's weights, if one does where weights are others.
pub fn write_scale(programs: &Programs, rules: Rules, page: &mut Text) {
    if let Some(callback) = misscaled(programs, rules) {
        page.push(callback.name());
        page.push(
            " scales by 100 / weight, as for the kernel's weights of 100: by plain rules weight is a part of ",
        );
        page.push("10000, so virtual time goes up to 100 times slower\n");
    }
}

/// The first callback that scales by the kernel's weights, if the rules have others.
pub fn misscaled(programs: &Programs, rules: Rules) -> Option<Callback> {
    if has_kernel_weights(rules) {
        return None;
    }
    for callback in CALLBACKS {
        if let Some(program) = programs.get(callback) {
            if scales(program) {
                return Some(callback);
            }
        }
    }
    None
}

/// True if a task's weight is 100 unless it is given another.
fn has_kernel_weights(rules: Rules) -> bool {
    match rules {
        Rules::Plain => false,
        Rules::Linux => true,
    }
}

/// True if a program reads a weight, multiplies by 100 and divides by a register.
fn scales(program: &Program) -> bool {
    let mut reads = false;
    let mut multiplies = false;
    let mut divides = false;
    for slot in 0..program.slots() {
        if let Some(insn) = program.at(slot) {
            reads = reads || reads_weight(insn);
            multiplies = multiplies || multiplies_by_weight(insn);
            divides = divides || divides_by_register(insn);
        }
    }
    reads && multiplies && divides
}

/// True for a load that reads `weight`, if it is from a task's record.
fn reads_weight(insn: Insn) -> bool {
    match insn {
        Insn::Load(Access::Word, _, from, offset) => from != Register::R10 && offset == WEIGHT,
        _ => false,
    }
}

fn multiplies_by_weight(insn: Insn) -> bool {
    match insn {
        Insn::Binary(_, Operation::Multiply, _, Operand::Immediate(factor)) => {
            factor == KERNEL_WEIGHT
        }
        _ => false,
    }
}

fn divides_by_register(insn: Insn) -> bool {
    match insn {
        Insn::Binary(_, Operation::Divide, _, Operand::Register(_)) => true,
        _ => false,
    }
}
