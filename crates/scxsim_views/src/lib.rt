//! Parts of observers of a run: the pauses of tasks, which are their waits and parkings (`Pauses`), lengths with their
//! counts (`LengthCounts`), the time that is due to groups by weights and quotas (`Dues`), the words for queues and
//! faults, the virtual times of queues, and the CPUs of bound tasks.
#![tactic(auto)]

mod bound_tasks;
mod claims;
mod dues;
mod keys;
mod length_counts;
mod pauses;
mod quotas;
mod words;

pub use bound_tasks::{bound_mask, has_cpu, write_allowed, write_cpus};
pub use claims::dues_are_fair;
pub use dues::Dues;
pub use keys::{key_of_time, rules_in_force, time_of_key};
pub use length_counts::LengthCounts;
pub use pauses::{Pause, PauseKind, Pauses};
pub use quotas::{QuotaFigures, Quotas};
pub use words::{QueueName, fault_words};
