ghost use Rattle.std.specs.Prelude.{◌≡◌};
ghost use Rattle.scx_isa.specs.declared.faults.DecodeError.TheVariants.{OutOfMemory};
ghost use Rattle.scx_isa.specs.Faults.{flow_number, flow_name};

use scx_isa_encoding::DecodeFault;
use std::alloc::{AllocError, AllocFailed};
use thiserror::Error;

/// Why `decode` gave no program: the first fault and its slot, or want of memory.
///
/// The slot of `Empty` is 0, of `TooLong` 4096, and of `NotWholeSlots` the number of whole slots.
/// A fault in the second half of a wide instruction has that half's slot; `HalfWide` has the first's.
#[derive(Clone, Copy, Debug, PartialEq, Eq, Error)]
pub enum DecodeError {
    /// The bytes spell no program, by that fault.
    #[error("decode {} {} at {slot}", fault.number(), fault.name())]
    Refused { fault: DecodeFault, slot: usize },
    /// There was no memory for the program.
    #[error("no memory")]
    OutOfMemory,
}

/// The faults of a program's control flow, in the order in which an instruction is checked.
#[derive(Clone, Copy, Debug, PartialEq, Eq)]
pub enum FlowFault {
    /// A jump's offset is negative.
    BackJump,
    /// A jump's target lies past the last slot.
    OutOfProgram,
    /// A jump's target is the second half of a wide instruction.
    IntoWide,
    /// The last instruction is neither an exit nor a jump without condition.
    FallsOff,
}

/// The first fault of a program's flow, and the slot of its instruction.
#[derive(Clone, Copy, Debug, PartialEq, Eq, Error)]
#[error("verify {} {} at {slot}", fault.number(), fault.name())]
pub struct FlowError {
    pub fault: FlowFault,
    pub slot: usize,
}

impl From<AllocError> for DecodeError {
    ghost from_gives = { λ _ e. e ≡ OutOfMemory };

    fn from(_error: AllocError) -> DecodeError {
        DecodeError::OutOfMemory
    }
}

impl<T: Drop> From<AllocFailed<T>> for DecodeError {
    ghost from_gives = { λ _ e. e ≡ OutOfMemory };

    fn from(_error: AllocFailed<T>) -> DecodeError {
        DecodeError::OutOfMemory
    }
}

impl FlowFault {
    /// Its number in a refusal, from 1.
    pub fn number(self) -> u8
        ensures { result ≡ flow_number self }
    {
        match self {
            FlowFault::BackJump => 1,
            FlowFault::OutOfProgram => 2,
            FlowFault::IntoWide => 3,
            FlowFault::FallsOff => 4,
        }
    }

    /// Its name in a refusal.
    pub fn name(self) -> &'static str
        ensures { result.now ≡ flow_name self }
    {
        match self {
            FlowFault::BackJump => "BackJump",
            FlowFault::OutOfProgram => "OutOfProgram",
            FlowFault::IntoWide => "IntoWide",
            FlowFault::FallsOff => "FallsOff",
        }
    }
}
