//! The verifier's answer, explained: the state before each instruction, and at a refusal the check
//! that failed, with this case's values, where the value at fault comes from, and one way by which
//! control came there.
//!
//! `Listing` goes over the slots as `verify` does, by the same `start`, `transfer` and `join`, and keeps
//! the state of each slot. `explanation_of` says why the check of an instruction failed, and goes back
//! from there.
#![tactic(auto)]

mod jumps;
mod laws;
mod listing;
mod lost;
mod named;
mod origins;
mod places;
mod reasons;
mod trails;

pub use jumps::Jumps;
pub use laws::listings_end_with_verify;
pub use listing::{Arrival, Listing, Way, byte_kind, cell_of, is_pointer, target_of};
pub use lost::{Found, LostRange, Point};
pub use origins::{Brought, Origin, Subject};
pub use places::{Memory, Place, Reach};
pub use reasons::{
    BadAccess, BadCall, BadField, BadFlow, BadValue, Explanation, Reason, explanation_of,
};
pub use trails::{Leg, Trail};
