//! The place of a policy's fault or exit: the callback, the slot, and the call of a helper with its arguments.
//!
//! `find_fault` repeats a run up to the ejection. From a millisecond before it on, the policy's programs are run
//! instruction by instruction, by the machine of the definitions; each comes to the same end as before, as the
//! contract of `Hearer::call` asks. init and enable are run in this way too. `MapReads` watches what a program reads from
//! maps.
#![tactic(auto)]

mod finder;
mod finding;
mod look;
mod map_reads;
mod place;
mod policy_queues;
mod running;
mod words;

pub use finding::{find_fault, find_fault_among, find_fault_in, policy_of};
pub use map_reads::{ElementRead, ElementReads, MOST_READS, MapReads, MissedKey};
pub use place::{FaultPlace, HelperCall};
pub use running::{Answered, run_seen};
pub use words::{
    is_local, write_call, write_helper_call, write_place, write_policy_queues, write_reason,
};
