ghost use Rattle.std.specs.Prelude.{◌≡◌};
ghost use Rattle.scx_asm.specs.declared.faults.AsmError.TheVariants.{OutOfMemory};
ghost use Rattle.scx_asm.specs.Faults.{asm_number, asm_name};

use std::alloc::{AllocError, AllocFailed};
use thiserror::Error;

/// The faults of a text that describes no program, in the order of their numbers.
///
/// A first pass over the lines looks for all but missing labels and offsets to labels; a
/// second pass looks for those.
#[derive(Clone, Copy, Debug, PartialEq, Eq)]
pub enum AsmFault {
    /// The line is not of the language, or the text has no instruction.
    Syntax,
    /// A jump goes to a label that no line defines.
    UnknownLabel,
    /// The label was defined before.
    TwiceLabel,
    /// A number, or the distance to a label, doesn't fit its field.
    OutOfRange,
    /// The instruction would end past slot 4096.
    TooLong,
}

/// Why `assemble` gave no program: the first fault and its line, from 1, or want of memory.
#[derive(Clone, Copy, Debug, PartialEq, Eq, Error)]
pub enum AsmError {
    /// The text describes no program, by this fault.
    #[error("asm {} {} at {line}", fault.number(), fault.name())]
    Refused { fault: AsmFault, line: usize },
    /// There was no memory for the labels, the lines or the program.
    #[error("no memory")]
    OutOfMemory,
}

impl From<AllocError> for AsmError {
    ghost from_gives = { λ _ e. e ≡ OutOfMemory };

    fn from(_error: AllocError) -> AsmError {
        AsmError::OutOfMemory
    }
}

impl<T: Drop> From<AllocFailed<T>> for AsmError {
    ghost from_gives = { λ _ e. e ≡ OutOfMemory };

    fn from(_error: AllocFailed<T>) -> AsmError {
        AsmError::OutOfMemory
    }
}

impl AsmFault {
    /// Its number in a refusal, from 1.
    pub fn number(self) -> u8
        ensures { result ≡ asm_number self }
    {
        match self {
            AsmFault::Syntax => 1,
            AsmFault::UnknownLabel => 2,
            AsmFault::TwiceLabel => 3,
            AsmFault::OutOfRange => 4,
            AsmFault::TooLong => 5,
        }
    }

    /// Its name in a refusal.
    pub fn name(self) -> &'static str
        ensures { result.now ≡ asm_name self }
    {
        match self {
            AsmFault::Syntax => "Syntax",
            AsmFault::UnknownLabel => "UnknownLabel",
            AsmFault::TwiceLabel => "TwiceLabel",
            AsmFault::OutOfRange => "OutOfRange",
            AsmFault::TooLong => "TooLong",
        }
    }
}
