//! The numbers of groups of tracks, and of the tracks for kinds of notes.

pub(crate) const CPUS: u32 = 1;

pub(crate) const TASKS: u32 = 2;

pub(crate) const QUEUES: u32 = 3;

/// The times that tasks were parked.
pub(crate) const PARKED: u32 = 4;

/// The waits of tasks in queues.
pub(crate) const WAITS: u32 = 5;

/// The weights of groups.
pub(crate) const WEIGHTS: u32 = 6;

pub(crate) const WAKES: u32 = 0;

pub(crate) const EJECTIONS: u32 = 1;
