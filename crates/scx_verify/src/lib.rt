//! The verifier: it accepts a program that is safe to run, before it runs.
//!
//! `verify` asks `flow` first, and then goes over the slots once, in order. It keeps for each slot the
//! least abstract state that covers all that flows to it, and refuses the program at the first slot
//! where a check fails. What it accepts is a `Verified`, which no run can get stuck in.
//!
//! A program is judged as a callback, for maps of these shapes, in `crates/scx_tests_bench/src/programs.rt`:
//!
//! ```rust
//! match verify(alloc, program, callback, defs) {
//!     Ok(verified) => Some(verified.instructions() as u64),
//!     Err(error) if matches!(error.fault, Fault::NoMemory) => None,
//!     Err(error) => Some(error.slot as u64),
//! }
//! ```
#![tactic(auto)]

mod ahead;
mod faults;
mod laws;
mod pass;
mod position_table;
mod programs;
mod translate;

pub use faults::{Fault, VerifyError};
pub use laws::{refusals_agree, refusals_are_justified, typed_is_safe, typing_chooses};
pub use programs::{Verified, verify, verify_by};
