//! Policies: a program for each callback, or none, and what a machine asks of them.
//!
//! `Policy::new` takes programs that were verified for their callbacks, for maps of the policy's shapes and by its
//! rules. A `dispatch` that only moves tasks is known by a walk over its code (`Asked`): where nobody waits in its
//! queues, it changes nothing (`nobody_in`).
#![tactic(auto)]

mod policy;
mod vain;

pub use policy::{BadPolicy, Callbacks, Policy};
pub use vain::{Asked, nobody_in};
