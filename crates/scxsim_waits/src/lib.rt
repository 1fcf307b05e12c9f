//! Why tasks wait: for the longest waits of a run, the queues of the task, the tasks that ran meanwhile, and the calls
//! of dispatch that didn't take it; and the longest stretches in which a CPU was idle.
//!
//! All of it is counted as the run goes on: the calls of each callback, the CPUs that timers kick, the queue of each
//! task, and the tasks that came into each queue and left it.
#![tactic(auto)]

mod calls;
mod idle_stretches;
mod queue_traffic;
mod spells;
mod task_queues;
mod timers;
mod waits;
mod watched_wait;

pub use calls::{Calls, CpuCalls, GivenSlice, LastCall};
pub use idle_stretches::{Beginning, IdleStretch, IdleStretches, SeenStretch, WaitingTask};
pub use queue_traffic::{QueueFigures, QueueTraffic};
pub use spells::{CallShare, KeyRange, Spell};
pub use task_queues::{Taken, TaskQueues};
pub use timers::{TimerFigures, TimerKick, TimerKicks};
pub use waits::Waits;
pub use watched_wait::{LongWait, Occurrence, Scene, Station, WatchedWait};
