//! Laws of the machine's rules, of whole runs, and of given policies: a function's contract is the law, and the
//! function does nothing.
//!
//! The rules are by cases, in the words of the field, for a reader who wants to know what a machine does without
//! reading how it is computed: of helpers, queues, callbacks, ejections, cycles, events and starts. Where Linux rules
//! differ from plain ones, both have cases. What the machine computes is what the rules allow, and the only thing
//! that they allow.
//!
//! A law of runs holds of the machine of any policy, through any list of events. A law of a policy names the
//! instructions of its programs, as `examples/policies` has them.
#![tactic(auto)]

mod allowing;
mod bounds;
mod lines;
mod looking;
mod recognizing;
mod runs;
mod serving;
mod telling;
mod throttling;

pub use allowing::{
    rules_allow_callbacks, rules_allow_cycles, rules_allow_entries, rules_allow_events,
    rules_allow_helpers, rules_allow_starts, rules_refuse_events,
};
pub use bounds::waits_are_bounded;
pub use lines::{lines_are_kept, nobody_overtakes, only_waits_eject, texts_say_lines};
pub use looking::cpus_that_look_find_tasks;
pub use recognizing::serves_queue_0;
pub use runs::time_adds_up;
pub use serving::{no_processor_idles_beside_served_queues, queues_are_served, texts_say_programs};
pub use telling::notes_tell_the_state;
pub use throttling::throttled_tasks_stop;
