//! The milliseconds in which nothing happens but that tasks run, as far as a driver knows.
ghost use Rattle.std.specs.Prelude.{ℕ, ◌+◌, ◌*◌, ◌<◌, ◌≤◌, slice_index};
ghost use Rattle.scx_sched_world.specs.World.{task_at};
ghost use Rattle.scx_sched_world.specs.Tasks.{tick_ns};
ghost use Rattle.scx_load_driver.specs.Calendar.{IsWhole, soonest_of};
ghost use Rattle.scx_load_driver.specs.Passing.{RunsLast};

use crate::calendar::Calendar;
use scx_sched::Sim;
use std::cmp;

/// A millisecond, in nanoseconds.
const MS_NS: u64 = 1_000_000;

/// The milliseconds for which the task can run up to its last tick.
#[inline(always)]
fn run_lasts(last_ticks: &[u64], sim: &Sim, task: u16) -> u64
    ensures { 0 < result
        → (task_at sim.now.state.world task).run_ns + result * tick_ns
        ≤ slice_index last_ticks.now task }
{
    if (task as usize) < last_ticks.len() {
        last_ticks[task as usize].saturating_sub(sim.run_ns_of(task)) / MS_NS
    } else {
        0
    }
}

/// The milliseconds, at most that many, after which no task that runs is past its last tick.
#[inline(always)]
pub(crate) fn runs_last(last_ticks: &[u64], sim: &Sim, most: u32) -> u32
    ensures most { result ≤ most }
    ensures last { 0 < result → RunsLast (result * tick_ns) last_ticks.now sim.now.state.world }
{
    let mut ms = u64::from(most);
    for cpu in 0..sim.cpus() {
        if let Some(task) = sim.runner(cpu) {
            ms = cmp::min(ms, run_lasts(last_ticks, sim, task));
        }
    }
    ms as u32
}

/// The milliseconds from this one on, at most that many, of which all but the first begin with no change of a weight and
/// no wake.
#[inline(always)]
pub(crate) fn calm_ms(next_change: u32, calendar: &Calendar, now: u32, most: u32) -> u32
    requires whole { IsWhole calendar.now }
    requires early { now + most < 4294967295 }
    ensures most { result ≤ most }
    ensures changes { (k : ℕ) → now < k → k < now + result → k < next_change }
    ensures wakes { (k : ℕ) → now < k → k < now + result → k < soonest_of calendar.now k }
{
    for ms in 1..most {
        let later = now + ms;
        if next_change <= later || calendar.soonest_wake(later) <= later {
            return ms;
        }
    }
    most
}
