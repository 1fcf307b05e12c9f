//! The interface between a BPF program and its host: the arguments of a callback (`Args`), a helper's arguments and
//! answer, the end of a run (`Done`), and the host (`Env`). Here too are programs in the interpreter's form:
//! one operation (`Op`) for each instruction, over a plain machine of 64-bit registers and a stack of bytes.
//! `scx_vm_run` runs them over a host.
//!
//! A host answers a helper call, in `crates/scx_tests_examples/src/one_task.rt`:
//!
//! ```rust
//! fn call(&mut self, helper: Helper, arguments: &[Arg; 5]) -> Answer {
//!     self.called = Some(helper);
//!     self.given = *arguments;
//!     Answer::Num(0)
//! }
//! ```
#![tactic(auto)]

mod arguments;
mod context;
mod ending;
mod env;
mod laws;
mod ops;
mod packed;

pub use arguments::{Answer, Arg, Args};
pub use context::Context;
pub use ending::Done;
pub use env::Env;
pub use laws::{operations_are_in_bounds, plain_runs_show};
pub use ops::{Op, Place};
pub use packed::{Packed, pack};
