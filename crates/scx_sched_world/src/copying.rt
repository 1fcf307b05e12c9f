ghost use Rattle.std.specs.Prelude.{◌≡◌, ◌≤◌, length, vec_capacity, IfOk};
ghost use Rattle.scx_sched_world.specs.World.{IsLike};

use crate::notes::Note;
use crate::timers::Alarm;
use crate::world::World;
use std::alloc::{AllocError, Global};

/// Copies of a world.
impl World {
    /// Becomes a copy of the other world. No memory is taken.
    pub fn copy_from(&mut self, other: &World)
        requires { IsLike self.old other.now }
        ensures { self.new ≡ other.now }
    {
        self.clock = other.clock;
        self.tasks.copy_from(&other.tasks);
        self.cpus.copy_from_slice(&other.cpus);
        self.busy = other.busy;
        self.running_on.copy_from_slice(&other.running_on);
        self.cycling = other.cycling;
        self.passing = other.passing;
        self.rules = other.rules;
        self.claimed = other.claimed;
        self.kicked = other.kicked;
        self.preempted = other.preempted;
        self.tracks_idle = other.tracks_idle;
        copy_timers(&mut self.timers, &other.timers);
        self.random = other.random;
        self.queues.copy_from(&other.queues);
        self.tree.copy_from(&other.tree);
        self.call = other.call;
        self.builtin_clock = other.builtin_clock;
        self.ejected = other.ejected;
        copy_notes(&mut self.notes, &other.notes);
        self.parked_throttled = other.parked_throttled;
        self.by_linux = other.by_linux;
        self.unsettled = other.unsettled;
    }

    /// A copy of the world, in memory of its own.
    pub fn duplicate(&self, alloc: Global) -> Result<World, AllocError>
        ensures { IfOk result (λ copy. copy ≡ self.now) }
    {
        let tasks = self.tasks.duplicate(alloc);
        let cpus = Vec::from_slice(alloc, &self.cpus);
        let running_on = Vec::from_slice(alloc, &self.running_on);
        let queues = self.queues.duplicate(alloc);
        let tree = self.tree.duplicate(alloc);
        let notes = duplicate_notes(alloc, &self.notes);
        let timers = Vec::from_slice(alloc, &self.timers);
        match (tasks, cpus, running_on, queues, tree, notes, timers) {
            (Ok(tasks), Ok(cpus), Ok(running_on), Ok(queues), Ok(tree), Ok(notes), Ok(timers)) =>
                Ok(World {
                    clock: self.clock,
                    tasks,
                    cpus,
                    busy: self.busy,
                    running_on,
                    cycling: self.cycling,
                    passing: self.passing,
                    rules: self.rules,
                    claimed: self.claimed,
                    kicked: self.kicked,
                    preempted: self.preempted,
                    tracks_idle: self.tracks_idle,
                    timers,
                    random: self.random,
                    queues,
                    tree,
                    call: self.call,
                    builtin_clock: self.builtin_clock,
                    ejected: self.ejected,
                    notes,
                    parked_throttled: self.parked_throttled,
                    by_linux: self.by_linux,
                    unsettled: self.unsettled,
                }),
            (tasks, cpus, running_on, queues, tree, notes, timers) => {
                drop(tasks);
                drop(cpus);
                drop(running_on);
                drop(queues);
                drop(tree);
                drop(notes);
                drop(timers);
                Err(AllocError)
            }
        }
    }
}

/// Replaces the timers by the others, of which there are as many.
fn copy_timers(timers: &mut Vec<Option<Alarm>>, others: &[Option<Alarm>])
    requires { length timers.old.items ≡ length others.now }
    ensures { timers.new.items ≡ others.now }
{
    if others.is_empty() {
        return;
    }
    timers.copy_from_slice(others);
}

/// Replaces the notes by the others, in the memory that there is.
fn copy_notes(notes: &mut Vec<Note>, others: &[Note])
    requires { length others.now ≤ vec_capacity notes.old }
    ensures notes { notes.new.items ≡ others.now }
    ensures room { vec_capacity notes.old ≤ vec_capacity notes.new }
{
    notes.clear();
    if others.is_empty() {
        return;
    }
    match notes.extend_from_slice(others) {
        Ok(()) => (),
        Err(_) => unreachable!(),
    }
}

/// A copy of the notes, in memory with room for those of a callback.
fn duplicate_notes(alloc: Global, notes: &[Note]) -> Result<Vec<Note>, AllocError>
    requires { length notes.now ≤ 4096 }
    ensures notes { IfOk result (λ copy. copy.items ≡ notes.now) }
    ensures room { IfOk result (λ copy. 4096 ≤ vec_capacity copy) }
{
    let mut copy = Vec::with_capacity(alloc, 4096)?;
    copy_notes(&mut copy, notes);
    Ok(copy)
}
