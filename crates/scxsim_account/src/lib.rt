//! The account of a run, for `why`: the events of the longest waits, the CPUs that were idle while a task waited, the
//! use of each queue, the calls of callbacks, and the policy's ejection with the last notes before it.
//!
//! `account_of` goes through a run and watches the waits that it is given. `last_end` goes through it up to an ejection,
//! and `hold_of` up to where a task came to be held, for what the last callback there had read from maps. So memory
//! doesn't grow with the length of a run.
#![tactic(auto)]

mod account;
mod call_end;
mod ejection;
mod holding;
mod idling;
mod last_call;
mod recent;

pub use account::{Account, account_of};
pub use call_end::{CallEnd, HeldTask};
pub use ejection::{Cause, Ejection};
pub use holding::hold_of;
pub use idling::{IdleFigures, Idling};
pub use last_call::last_end;
pub use recent::RecentNotes;
pub use scxsim_faults::{ElementRead, ElementReads, MOST_READS, MissedKey};
