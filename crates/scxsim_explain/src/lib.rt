//! `explain`, which shows of each callback of a policy file what the verifier knows before each
//! instruction, and at a refusal why; `explain-one`, which shows one callback; the reason of a refusal alone;
//! and `verify-json`, which says in JSON what `verify` says.
#![tactic(auto)]

mod advice;
mod checking_json;
mod explained;
mod explaining;
mod explaining_one;
mod known;
mod lines;
mod lost_numbers;
mod refused;
mod sentences;
mod verdict_objects;
mod words;
mod writing;

pub use checking_json::check_json;
pub use explaining::explain;
pub use explaining_one::explain_one;
pub use refused::reason_of_refusal;
