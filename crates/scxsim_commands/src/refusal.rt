ghost use Rattle.std.specs.Prelude.{◌≡◌};
ghost use Rattle.scxsim_commands.specs.Refusals.{decode_refusal, verify_refusal, asm_refusal, build_refusal, file_refusal};
ghost use Rattle.scxsim_commands.specs.declared.refusal.Refusal.TheVariants.{NoMemory};
ghost use Rattle.scxsim_commands.specs.declared.refusal.Fault.TheVariants.{Refused, WriteFailed};

use scx_asm::{AsmError, AsmFault};
use scx_isa::{Callback, DecodeError, DecodeFault};
use scx_load_files::{Cause, LoadError};
use scx_load_policies::BuildError;
use scx_verify::{self as verifier, VerifyError};
use scxsim_output::Failed;
use std::alloc::AllocError;
use std::fmt;
use thiserror::Error;

/// Why an input was refused. After `at` comes a slot's number, from 0, or a line's, from 1; a path is
/// that of a key in a file.
#[derive(PartialEq, Eq, Drop, Error)]
pub enum Refusal {
    /// There are more than `FILE_LIMIT` bytes.
    #[error("the file is too large")]
    TooLarge,
    /// The bytes of a text aren't UTF-8.
    #[error("the text is not UTF-8")]
    NotUtf8,
    /// Memory ran out.
    #[error("no memory is left")]
    NoMemory,
    /// The bytes spell no program: their first fault and its slot.
    #[error("slot {slot} is no instruction")]
    Decode {
        fault: DecodeFault,
        slot: usize,
    },
    /// The verifier refuses a program, for this fault at this slot.
    #[error("the program is unsafe at slot {slot}")]
    Verify {
        fault: verifier::Fault,
        slot: usize,
    },
    /// A text doesn't assemble: its first fault and the line.
    #[error("line {line} is wrong")]
    Assemble {
        fault: AsmFault,
        line: usize,
    },
    /// A callback of a policy that is to be run.
    #[error("{} is unsafe at slot {slot}", callback.name())]
    Callback {
        callback: Callback,
        fault: verifier::Fault,
        slot: usize,
    },
    /// The first fault of a policy file: the path of what is wrong, and the cause.
    #[error("the policy's {path}: {cause}")]
    Policy {
        path: String,
        cause: Cause,
    },
    /// The first fault of a workload file: the path of what is wrong, and the cause.
    #[error("the workload's {path}: {cause}")]
    Workload {
        path: String,
        cause: Cause,
    },
    /// The first fault of a file of events: the path of what is wrong, and the cause.
    #[error("the events' {path}: {cause}")]
    Events {
        path: String,
        cause: Cause,
    },
    /// The policy's `init` failed with this answer.
    #[error("init answered {0}")]
    Init(i64),
    /// A word that names a part of a run.
    #[error("{} is out of range", .0.name())]
    OutOfRange(Word),
    /// A word is to name a task, and the workload has none of that name.
    #[error("TASK names no task")]
    NoSuchTask,
    /// A page would hold that many stretches of time, which are more than `MOST_STRETCHES`.
    #[error("{0} stretches are too many")]
    TooManyStretches(u64),
}

/// The most stretches of time on a page.
pub const MOST_STRETCHES: u64 = 3_750_000;

/// An argument of a command that isn't a path.
#[derive(Clone, Copy, PartialEq, Eq)]
pub enum Word {
    /// The millisecond with which a part of a run begins.
    From,
    /// The millisecond with which it ends.
    To,
}

impl Word {
    /// The word's name in the help.
    pub fn name(self) -> &'static str {
        match self {
            Word::From => "FROM",
            Word::To => "TO",
        }
    }
}

impl fmt::Debug for Refusal {
    fn fmt<W: fmt::Write>(&self, f: &mut fmt::Formatter<W>) -> fmt::Result {
        write!(f, "{}", self)
    }
}

/// Why a command ended early.
#[derive(Debug, PartialEq, Eq, Drop, Error)]
pub enum Fault {
    /// The input was refused.
    #[error("{0}")]
    Refused(Refusal),
    /// The output took no more.
    #[error("writing failed")]
    WriteFailed,
}

/// A kind of file that a run is read from.
#[derive(Clone, Copy)]
pub enum FileKind {
    Policy,
    Workload,
    Events,
}

impl Refusal {
    /// The refusal of a file that can't be read.
    pub fn of_file(kind: FileKind, error: LoadError) -> Refusal
        ensures { result ≡ file_refusal kind error }
    {
        match error {
            LoadError::NoMemory => Refusal::NoMemory,
            LoadError::At { path, cause } => match kind {
                FileKind::Policy => Refusal::Policy { path, cause },
                FileKind::Workload => Refusal::Workload { path, cause },
                FileKind::Events => Refusal::Events { path, cause },
            },
        }
    }
}

impl From<DecodeError> for Refusal {
    ghost from_gives = { λ error refusal. refusal ≡ decode_refusal error };

    fn from(error: DecodeError) -> Self {
        match error {
            DecodeError::Refused { fault, slot } => Refusal::Decode { fault, slot },
            DecodeError::OutOfMemory => Refusal::NoMemory,
        }
    }
}

impl From<VerifyError> for Refusal {
    ghost from_gives = { λ error refusal. refusal ≡ verify_refusal error };

    fn from(error: VerifyError) -> Self {
        let VerifyError { fault, slot } = error;
        match fault {
            verifier::Fault::NoMemory => Refusal::NoMemory,
            fault => Refusal::Verify { fault, slot },
        }
    }
}

impl From<AsmError> for Refusal {
    ghost from_gives = { λ error refusal. refusal ≡ asm_refusal error };

    fn from(error: AsmError) -> Self {
        match error {
            AsmError::Refused { fault, line } => Refusal::Assemble { fault, line },
            AsmError::OutOfMemory => Refusal::NoMemory,
        }
    }
}

impl From<BuildError> for Refusal {
    ghost from_gives = { λ error refusal. refusal ≡ build_refusal error };

    fn from(error: BuildError) -> Self {
        match error {
            BuildError::Refused {
                callback,
                fault,
                slot,
            } => Refusal::Callback {
                callback,
                fault,
                slot,
            },
            BuildError::NoMemory => Refusal::NoMemory,
        }
    }
}

impl From<AllocError> for Refusal {
    ghost from_gives = { λ _ refusal. refusal ≡ NoMemory };

    fn from(_error: AllocError) -> Self {
        Refusal::NoMemory
    }
}

impl From<Refusal> for Fault {
    ghost from_gives = { λ refusal fault. fault ≡ Refused refusal };

    fn from(refusal: Refusal) -> Self {
        Fault::Refused(refusal)
    }
}

impl From<Failed> for Fault {
    ghost from_gives = { λ _ fault. fault ≡ WriteFailed };

    fn from(_failed: Failed) -> Self {
        Fault::WriteFailed
    }
}
