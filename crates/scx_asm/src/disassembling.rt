ghost use Rattle.std.specs.Prelude.{◌≡◌, IfOk};
ghost use Rattle.std.specs.String.{string_bytes};
ghost use Rattle.scx_asm.specs.Printing.{program_text};

use scx_asm_text::Canonical;
use scx_isa::Program;
use std::alloc::{AllocError, Global};

/// The canonical text of the program.
pub fn disassemble(alloc: Global, program: &Program) -> Result<String, AllocError>
    ensures { IfOk result (λ text. string_bytes text ≡ program_text program.now) }
{
    let mut text = String::new(alloc);
    for slot in 0..program.slots() {
        if let Some(insn) = program.at(slot) {
            let mut line = Canonical(insn).line();
            line.push_str("\n");
            text.push_str(line.as_str())?;
        }
    }
    Ok(text)
}
