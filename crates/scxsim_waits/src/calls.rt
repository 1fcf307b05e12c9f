ghost use Rattle.std.specs.Prelude.{◌≡◌};

use crate::timers::{TimerKick, TimerKicks};
use scx_isa::{Callback, PerCallback};
use scx_sched::{Note, Rank, What};
use scx_sched_world::World;
use scx_vm::{Arg, Args};
use scxsim_views::{has_cpu, key_of_time, rules_in_force};
use std::alloc::{AllocError, Global};
use std::marker::Model;

/// The nanoseconds of a millisecond.
const MILLISECOND: u64 = 1_000_000;

/// A call of dispatch.
#[derive(Clone, Copy)]
pub struct LastCall {
    pub clock: u64,
    /// True if it took a task out of a queue.
    pub took: bool,
}

/// The calls of dispatch for a CPU, and the last time that a timer kicked it.
#[derive(Clone, Copy, Default)]
pub struct CpuCalls {
    /// The number of calls that took no task, and the clock of the last of them.
    pub vain: u64,
    pub last_vain: Option<u64>,
    pub last: Option<LastCall>,
    pub kick: Option<TimerKick>,
}

/// A slice that a task was given.
#[derive(Clone, Copy)]
pub struct GivenSlice {
    pub task: u16,
    pub slice: u64,
    pub clock: u64,
}

/// The calls of the callbacks of a policy.
///
/// In a contract it is nothing: whatever it keeps, runs are the same.
#[derive(Drop)]
pub struct Calls {
    counts: PerCallback<Option<u64>>,
    by_cpu: Vec<CpuCalls>,
    /// The rank by which each task last came into a queue, with the key of a virtual time, if that is known.
    ranks: Vec<Option<Rank>>,
    pub timers: TimerKicks,
    /// The first of the shortest slices below 1 ms that select_cpu or enqueue gave.
    pub shortest: Option<GivenSlice>,
    /// The clock of the last call.
    pub last: Option<u64>,
}

impl Model for Calls {
    ghost Value = { Unit {0} };

    ghost view = { λ c. tt };
}

impl Calls {
    /// No calls.
    pub fn new(alloc: Global, tasks: usize, cpus: u32, timers: u32) -> Result<Calls, AllocError> {
        Ok(Calls {
            counts: PerCallback::none(),
            by_cpu: vec![in alloc; CpuCalls::default(); cpus as usize]?,
            ranks: vec![in alloc; None; tasks]?,
            timers: TimerKicks::new(alloc, timers)?,
            shortest: None,
            last: None,
        })
    }

    /// Counts a callback that was called with these arguments and has run. Its notes are still in the world.
    pub fn heed(&mut self, callback: Callback, arguments: Args, world: &World) {
        self.count(callback);
        self.last = Some(world.clock());
        self.heed_kicks(callback, arguments, world);
        match callback {
            Callback::Dispatch => self.heed_dispatch(arguments, world),
            Callback::SelectCpu | Callback::Enqueue => self.heed_insert(arguments, world),
            Callback::Stopping => self.heed_stop(arguments, world),
            _ => {}
        }
    }

    /// The number of calls of the callback.
    pub fn calls(&self, callback: Callback) -> u64 {
        match self.counts.get(callback) {
            Some(count) => *count,
            None => 0,
        }
    }

    /// The calls of dispatch for the CPU.
    pub fn for_cpu(&self, cpu: u32) -> CpuCalls {
        match self.by_cpu.get(cpu as usize) {
            Some(calls) => *calls,
            None => CpuCalls::default(),
        }
    }

    /// The rank by which the task last came into a queue, with the key of a virtual time, if that is known.
    pub fn rank(&self, task: u16) -> Option<Rank> {
        *self.ranks.get(task as usize)?
    }

    fn count(&mut self, callback: Callback) {
        let count = self.calls(callback).saturating_add(1);
        self.counts.set(callback, Some(count));
    }

    /// Keeps the CPUs that a timer has kicked, if the callback is that of a timer.
    fn heed_kicks(&mut self, callback: Callback, arguments: Args, world: &World) {
        if world.timers() == 0 {
            return;
        }
        let kicked = self.timers.heed(world);
        if callback == Callback::Timer {
            if let Arg::Num(timer) = arguments.first {
                self.timers.count(timer, kicked);
                self.set_kicks(timer, kicked, world.clock());
            }
        }
    }

    /// Keeps that a timer has kicked the CPUs of a mask.
    fn set_kicks(&mut self, timer: u64, kicked: u64, clock: u64) {
        for (cpu, calls) in self.by_cpu.iter_mut().enumerate() {
            if has_cpu(kicked, u32::try_from(cpu).unwrap_or(u32::MAX)) {
                calls.kick = Some(TimerKick { timer, clock });
            }
        }
    }

    fn heed_dispatch(&mut self, arguments: Args, world: &World) {
        let Arg::Num(cpu) = arguments.first else {
            return;
        };
        let notes = world.notes();
        let took = !notes.is_empty();
        let clock = world.clock();
        if let Some(calls) = self.by_cpu.get_mut(cpu as usize) {
            if !took {
                calls.vain = calls.vain.saturating_add(1);
                calls.last_vain = Some(clock);
            }
            calls.last = Some(LastCall { clock, took });
        }
        for note in notes {
            self.heed_note(*note, world);
        }
    }

    /// Keeps the rank of a held task that dispatch has put into a queue, if the note says so.
    fn heed_note(&mut self, note: Note, world: &World) {
        if let What::Insert(task, queue) = note.what {
            let rank = rank_in(world, task, queue);
            self.set_rank(task, rank);
        }
    }

    fn heed_insert(&mut self, arguments: Args, world: &World) {
        let Arg::Task(task) = arguments.first else {
            return;
        };
        match world.insert() {
            Some(insert) => {
                self.set_rank(task.0, Some(rank_for(world, insert.rank)));
                self.keep_slice(task.0, insert.slice, world.clock());
            }
            None => self.set_rank(task.0, None),
        }
    }

    /// Keeps the slice that a task is given, if it is the shortest below 1 ms. A slice of 0 is the one that the task has.
    fn keep_slice(&mut self, task: u16, slice: u64, clock: u64) {
        let most = match self.shortest {
            Some(shortest) => shortest.slice,
            None => MILLISECOND,
        };
        if 0 < slice && slice < most {
            self.shortest = Some(GivenSlice { task, slice, clock });
        }
    }

    /// Keeps that a task goes to the front of the CPU's local queue, where it stops and stays.
    fn heed_stop(&mut self, arguments: Args, world: &World) {
        let Arg::Task(task) = arguments.first else {
            return;
        };
        if keeps_front(world, task.0) {
            self.set_rank(task.0, Some(Rank::Front));
        }
    }

    fn set_rank(&mut self, task: u16, rank: Option<Rank>) {
        if let Some(place) = self.ranks.get_mut(task as usize) {
            *place = rank;
        }
    }
}

/// True if a task that stops and stays runnable goes to the front of the CPU's local queue: under Linux rules it does with
/// some of its slice left.
fn keeps_front(world: &World, task: u16) -> bool {
    world.is_by_linux() && world.task(task).slice != 0
}

/// The rank in a queue of the policy of a task that is put there by that one.
fn rank_for(world: &World, rank: Rank) -> Rank {
    match rank {
        Rank::Vtime(time) => Rank::Vtime(key_of_time(rules_in_force(world), time)),
        Rank::Fifo | Rank::Front => rank,
    }
}

/// The rank of the task in that queue, if it is there.
fn rank_in(world: &World, task: u16, queue: u64) -> Option<Rank> {
    let entry = world.entry(task)?;
    if entry.queue == queue {
        Some(entry.rank)
    } else {
        None
    }
}
