ghost use Rattle.std.specs.Prelude.{◌≡◌, ◌≤◌, length, count_by, is_some, IfOk};
ghost use Rattle.scx_isa_semantics.specs.Code.{at, instruction_count};
ghost use Rattle.scx_isa.specs.Spelling.{IsProgram};

use scx_isa_semantics::Insn;
use std::alloc::{AllocError, Global};
use std::marker::Model;

/// The most slots that a program may have.
pub const MAX_SLOTS: usize = 4096;

/// A program of 1 to 4096 slots.
///
/// In a contract it is the list of its slots: the instruction that begins at each, or none in the
/// second half of a wide one.
#[derive(Drop)]
pub struct Program {
    code: Vec<Option<Insn>>,
    instructions: usize,
}

impl Model for Program {
    ghost use Rattle.std.specs.Prelude.{◌≡◌};
    ghost use Rattle.scx_isa_semantics.specs.Code.{Code, instruction_count};
    ghost use Rattle.scx_isa.specs.Spelling.{IsProgram};

    ghost Value = { Code };

    ghost view = { λ p. p.code.items };

    ghost invariant = { λ p. IsProgram p.code.items × (p.instructions ≡ instruction_count p.code.items) };
}

impl Program {
    /// The program with these occupants of its slots.
    #[tactic(auto, using(crate::proofs::Codes::count_is))]
    pub fn new(code: Vec<Option<Insn>>) -> Program
        requires { IsProgram code.items }
        ensures { result ≡ code.items }
    {
        let instructions = count(&code);
        Program { code, instructions }
    }

    /// A copy of the program, in memory of its own.
    pub fn duplicate(&self, alloc: Global) -> Result<Program, AllocError>
        ensures { IfOk result (λ copy. copy ≡ self.now) }
    {
        Ok(Program {
            code: Vec::from_slice(alloc, &self.code)?,
            instructions: self.instructions,
        })
    }

    /// The occupant of each slot.
    pub(crate) fn occupants(&self) -> &[Option<Insn>]
        ensures occupants { result.now ≡ self.now }
        ensures program { IsProgram self.now }
    {
        &self.code
    }

    /// The number of slots; a wide instruction takes two.
    pub fn slots(&self) -> usize
        ensures slots { result ≡ length self.now }
        ensures within { result ≤ MAX_SLOTS }
        ensures program { IsProgram self.now }
    {
        self.code.len()
    }

    /// The number of instructions.
    #[tactic(auto, using(crate::proofs::Counts::counts))]
    pub fn instructions(&self) -> usize
        ensures count { result ≡ instruction_count self.now }
        ensures most { result ≤ MAX_SLOTS }
    {
        self.instructions
    }

    /// The instruction that begins at the slot; `None` in a second half and past the end.
    pub fn at(&self, slot: usize) -> Option<Insn>
        ensures { result ≡ at self.now slot }
    {
        if slot < self.code.len() {
            self.code[slot]
        } else {
            None
        }
    }
}

/// The number of occupants that are instructions.
fn count<T: Drop>(occupants: &[Option<T>]) -> usize
    ensures { result ≡ count_by is_some occupants.now }
{
    let mut count = 0;
    for occupant in occupants {
        count += usize::from(occupant.is_some());
    }
    count
}
