//! Ranges of 64-bit scalars and of offsets in a map value: the multiples of 1, 2, 4 or 8 from one
//! number to another. Instructions compute with ranges, a branch refines them, and a join covers
//! two.
//!
//! `Numbers` and `Offsets` are what others use; `Range` is what both are in a contract.
#![tactic(auto)]

mod cuts;
mod elements;
mod laws;
mod numbers;
mod offsets;
mod ranges;
mod results;
mod steps;

pub use laws::{cuts_are_sound, offsets_are_sound, ranges_are_sets, results_are_sound};
pub use numbers::Numbers;
pub use offsets::Offsets;
pub use ranges::Range;
