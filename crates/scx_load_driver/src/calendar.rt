//! The wakes of tasks by day.
ghost use Rattle.std.specs.Prelude.{◌≡◌, ◌+◌, ◌≤◌, ◌<◌, min, false, length, slice_set, nat_lt, if◌then◌else◌, IfOk};
ghost use Rattle.scx_load_driver.specs.Sets.{is_there, IsNext};
ghost use Rattle.scx_load_driver.specs.Calendar.{IsWhole, AreNoted, spot, soonest_of, with_task};

use crate::set::NumberSet;
use std::alloc::{AllocError, Global};
use std::cmp;

/// The number of days. A task's day is the remainder of the millisecond in which it wakes.
const DAYS: usize = 256;

/// The most tasks of a day.
const TASKS: usize = 1024;

/// The tasks that may wake, by day.
#[derive(Drop)]
pub(crate) struct Calendar {
    /// For each day, a millisecond before which none of its tasks wakes.
    soonest: [u32; DAYS],
    /// The tasks of each day.
    there: NumberSet,
}

impl Calendar {
    /// A calendar in which each task wakes in its millisecond of the list.
    pub(crate) fn new(alloc: Global, due: &[u32]) -> Result<Calendar, AllocError>
        requires { length due.now ≤ 1024 }
        ensures whole { IfOk result (λ calendar. IsWhole calendar) }
        ensures noted { IfOk result (λ calendar. AreNoted due.now 0 calendar) }
    {
        let mut calendar = Calendar::empty(alloc)?;
        for task in 0..due.len() {
            calendar.insert(task, due[task]);
        }
        Ok(calendar)
    }

    /// A calendar in which no task wakes.
    fn empty(alloc: Global) -> Result<Calendar, AllocError>
        ensures { IfOk result (λ calendar. IsWhole calendar) }
    {
        Ok(Calendar {
            soonest: [u32::MAX; DAYS],
            there: NumberSet::none(alloc, DAYS * TASKS)?,
        })
    }

    /// Notes that the task wakes in this millisecond.
    #[inline(always)]
    pub(crate) fn insert(&mut self, task: usize, ms: u32)
        requires few { task < 1024 }
        requires whole { IsWhole self.old }
        ensures { self.new ≡ with_task self.old task ms }
    {
        let day = ms as usize % DAYS;
        self.soonest[day] = cmp::min(self.soonest[day], ms);
        self.there.insert(day * TASKS + task);
    }

    /// A millisecond before which no task of this one's day wakes.
    #[inline(always)]
    pub(crate) fn soonest_wake(&self, now: u32) -> u32
        requires { IsWhole self.now }
        ensures { result ≡ soonest_of self.now now }
    {
        self.soonest[now as usize % DAYS]
    }

    /// The lowest task of this millisecond's day from `from` on and below an end; the end where there is none.
    #[inline(always)]
    pub(crate) fn next(&self, now: u32, from: usize, end: usize) -> usize
        requires ordered { from ≤ end }
        requires few { end ≤ 1024 }
        requires whole { IsWhole self.now }
        ensures next { IsNext (λ t. is_there self.now.there (spot now t)) from end result }
        ensures after { from ≤ result }
    {
        let first = now as usize % DAYS * TASKS;
        self.there.next(first + from, first + end) - first
    }

    /// Removes the tasks of this millisecond's day that don't wake later.
    pub(crate) fn refresh(&mut self, due: &[u32], now: u32)
        requires few { length due.now ≤ 1024 }
        requires whole { IsWhole self.old }
        requires noted { AreNoted due.now now self.old }
        ensures whole { IsWhole self.new }
        ensures noted { AreNoted due.now (now + 1) self.new }
    {
        let mut soonest = u32::MAX;
        let mut task = self.next(now, 0, due.len());
        while task < due.len() {
            soonest = self.look_at(now, task, due[task], soonest);
            task = self.next(now, task + 1, due.len());
        }
        self.soonest[now as usize % DAYS] = soonest;
    }

    /// Removes a task of this millisecond's day, unless it wakes later. Answers the earliest wake of the tasks
    /// that stay so far.
    #[inline(always)]
    #[tactic(auto, using(crate::proofs::Days::whole_less))]
    fn look_at(&mut self, now: u32, task: usize, ms: u32, soonest: u32) -> u32
        requires few { task < 1024 }
        requires whole { IsWhole self.old }
        ensures whole { IsWhole self.new }
        ensures days { self.new.soonest ≡ self.old.soonest }
        ensures there { self.new.there
            ≡ if nat_lt now ms then self.old.there
            else slice_set self.old.there (spot now task) false }
        ensures soonest { result ≡ if nat_lt now ms then min soonest ms else soonest }
    {
        if now < ms {
            cmp::min(soonest, ms)
        } else {
            self.there.remove(now as usize % DAYS * TASKS + task);
            soonest
        }
    }
}
