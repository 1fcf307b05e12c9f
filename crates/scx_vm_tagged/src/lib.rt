//! The interpreter that shows its steps: it runs a program on the state of the definitions, in which each
//! register holds a value with its tag, and each byte of the stack has a mark.
//!
//! `run_watched` runs a program that `flow` accepts as a callback of a policy, from its first slot, over
//! the policy's maps and a host, an `Env`, which answers its helpers and holds the records of tasks.
//! It shows each instruction to a `Watch` before it does it: so `scxsim step` prints callbacks. It says
//! how the run ended: with an answer at an `exit`, or stuck at an instruction that has no meaning in the
//! state there, as one that reads an unset register. It also says by which instruction what the watch awaits
//! of the host came about: so the place of a fault is found. Its contract says that the run is the one that
//! the definitions of `scx_isa_semantics` give the program, and that it takes no more steps than there
//! are instructions. `run_unwatched` does the same run without a watch; tests compare `scx_vm_run` with it.
//!
//! The layers, from below: the 512 bytes of stack (`stack`), values that pass to the host and back
//! (`arguments`), registers and stack (`state`), operands and pointers (`values`), comparisons
//! (`jumps`), addresses (`memory`), loads and stores (`access`), helpers on maps (`on_map`), helper
//! calls (`calls`), one instruction (`execute`), the watch (`watch`), slots and the run (`run`).
#![tactic(auto)]

mod access;
mod arguments;
mod calls;
mod effect;
mod execute;
mod jumps;
mod memory;
mod on_map;
mod run;
mod stack;
mod state;
mod values;
mod watch;

pub use run::{Ending, Site, WatchedEnding, run_unwatched, run_watched};
pub use state::Core;
pub use watch::Watch;
