ghost use Rattle.std.specs.Prelude.{◌≡◌};
ghost use Rattle.scx_verify.specs.declared.faults.Fault.TheVariants.{Flow, NoMemory};
ghost use Rattle.scx_verify.specs.Faults.{fault_number, fault_name};

use scx_abs::Why;
use scx_isa::{FlowError, FlowFault};
use std::alloc::AllocError;
use thiserror::Error;

/// The fault of a refused program.
#[derive(Clone, Copy, Debug, PartialEq, Eq)]
pub enum Fault {
    /// With its flow: 1 to 4.
    Flow(FlowFault),
    /// A check of an instruction fails: 5 to 19.
    Rule(Why),
    /// Nothing: memory ran out.
    NoMemory,
}

/// Why `verify` didn't accept a program, and at which slot; 0 for want of memory.
#[derive(Clone, Copy, Debug, PartialEq, Eq, Error)]
#[error("verify {} {} at {slot}", fault.number(), fault.name())]
pub struct VerifyError {
    pub fault: Fault,
    pub slot: usize,
}

impl From<AllocError> for VerifyError {
    ghost from_gives = { λ _ e. e ≡ record { fault = NoMemory; slot = 0 } };

    fn from(_error: AllocError) -> VerifyError {
        VerifyError {
            fault: Fault::NoMemory,
            slot: 0,
        }
    }
}

impl From<FlowError> for VerifyError {
    ghost from_gives = { λ error e. e ≡ record { fault = Flow error.fault; slot = error.slot } };

    fn from(error: FlowError) -> VerifyError {
        VerifyError {
            fault: Fault::Flow(error.fault),
            slot: error.slot,
        }
    }
}

impl Fault {
    /// Its number in a refusal, 1 to 20.
    pub fn number(self) -> u8
        ensures { result ≡ fault_number self }
    {
        match self {
            Fault::Flow(fault) => fault.number(),
            Fault::Rule(why) => why.number(),
            Fault::NoMemory => 20,
        }
    }

    /// Its name in a refusal.
    pub fn name(self) -> &'static str
        ensures { result.now ≡ fault_name self }
    {
        match self {
            Fault::Flow(fault) => fault.name(),
            Fault::Rule(why) => why.name(),
            Fault::NoMemory => "NoMemory",
        }
    }
}
