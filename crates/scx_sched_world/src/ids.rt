/// A policy's own queues have ids below this (sched-ext.rst, "Dispatch Queues"; the ids are those of
/// Linux's include/linux/sched/ext.h).
pub const POLICY_END: u64 = 0x8000_0000_0000_0000;

/// The queue of all processors.
pub const GLOBAL: u64 = 0x8000_0000_0000_0001;

/// No queue, but a name for a local queue: in select_cpu that of the processor which it answers,
/// elsewhere that of the processor at hand.
pub const LOCAL: u64 = 0x8000_0000_0000_0002;

/// The machine's own queue of the tasks that a policy took and put nowhere. A policy can't name it.
pub const HELD: u64 = 0x8000_0000_0000_0003;

/// The machine's own queue of the built-in scheduler. A policy can't name it.
pub const BUILTIN: u64 = 0x8000_0000_0000_0004;

/// The machine's own queue of the tasks that are throttled: they are runnable, may not run, and don't
/// wait. A policy can't name it.
pub const PARKED: u64 = 0x8000_0000_0000_0005;

/// The local queue of processor 0; those of the others follow.
pub const LOCAL_ON: u64 = 0xc000_0000_0000_0000;

/// The number of ids that may be read as a local queue.
pub(crate) const LOCAL_IDS: u64 = 0x1_0000_0000;

/// The answer of a helper call with a fault: -22, Linux's EINVAL.
pub(crate) const INVALID: u64 = 0xffff_ffff_ffff_ffea;

/// The answer of a helper call that finds no CPU to claim: -16, Linux's EBUSY.
pub(crate) const BUSY: u64 = 0xffff_ffff_ffff_fff0;

/// The answer of a helper call that cancels the timer whose callback is at hand: -35, Linux's EDEADLK.
pub(crate) const DEADLOCK: u64 = 0xffff_ffff_ffff_ffdd;

/// The place of the global queue among the queues, as it is created first.
pub(crate) const GLOBAL_PLACE: usize = 0;

/// The place of the queue of parked tasks.
pub(crate) const PARKED_PLACE: usize = 3;

/// The place of the local queue of CPU 0; those of the others follow.
pub(crate) const LOCAL_PLACES: usize = 4;
