//! A theorem about one policy, to copy for a policy of your own: change the texts and numbers at the top of
//! `specs/Own.antt`, and run `rt check` here.
//!
//! The policy has one queue. By plain rules and without quotas no CPU idles beside it, and its enqueue puts each task
//! there, with a slice. A `dispatch` that forgets the queue has no such proof (`must-fail/`), nor has an `enqueue` that
//! holds tasks or a slice of 0 (`edits/`).
#![tactic(auto)]

mod own;

pub use own::own_policy_serves_its_queue;
