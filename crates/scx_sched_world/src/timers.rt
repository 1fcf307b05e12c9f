ghost use Rattle.std.specs.Prelude.{◌≡◌, ◌≤◌, length, None};
ghost use Rattle.scx_sched_world.specs.World.{with_timer_at_hand};
ghost use Rattle.scx_sched_world.specs.Helpers.{delay_ms, alarm_in, after_timer_start, timer_start_answer, alarm_at, timer_cancel_answer, after_timer_cancel, due_now, with_timer, after_fire};

use crate::faults::Fault;
use crate::ids::DEADLOCK;
use crate::world::World;
use std::cmp;

/// A timer that was started.
#[derive(Clone, Copy, Debug, PartialEq, Eq)]
pub struct Alarm {
    /// The clock at which its callback runs, in ms.
    pub due: u64,
    /// The CPU of the callback that started it, on which its own callback runs.
    pub cpu: u32,
}

/// The timers of a policy.
impl World {
    /// The number of timers.
    #[inline(always)]
    pub fn timers(&self) -> u32
        ensures timers { result ≡ length self.now.timers }
        ensures few { result ≤ 255 }
    {
        self.timers.len() as u32
    }

    /// The alarm of the timer, if it was started.
    pub fn alarm(&self, timer: u32) -> Option<Alarm>
        ensures { result ≡ alarm_at self.now timer }
    {
        if (timer as usize) < self.timers.len() {
            self.timers[timer as usize]
        } else {
            None
        }
    }

    /// The alarm of the timer, if it is due by now.
    pub fn due(&self, timer: u32) -> Option<Alarm>
        ensures { result ≡ due_now self.now (alarm_at self.now timer) }
    {
        match self.alarm(timer) {
            Some(alarm) if alarm.due <= self.clock => Some(alarm),
            Some(_) | None => None,
        }
    }

    /// The timer isn't started any more, and its callback is at hand.
    pub fn fire(&mut self, timer: u32)
        ensures world { self.new ≡ after_fire self.old timer }
        ensures few { self.new.queues.pushes ≡ self.old.queues.pushes }
    {
        self.set_alarm(timer, None);
        self.passing.timer = Some(timer);
    }

    /// The callback of a timer isn't at hand any more.
    pub fn fired(&mut self)
        ensures world { self.new ≡ with_timer_at_hand self.old None }
        ensures few { self.new.queues.pushes ≡ self.old.queues.pushes }
    {
        self.passing.timer = None;
    }

    /// The timer has that alarm from now on, or none.
    fn set_alarm(&mut self, timer: u32, alarm: Option<Alarm>)
        ensures { self.new ≡ with_timer self.old timer alarm }
    {
        if (timer as usize) < self.timers.len() {
            self.timers[timer as usize] = alarm;
        }
    }

    /// The alarm of a timer that is started now.
    fn alarm_in(&self, ns: u64) -> Alarm
        ensures { result ≡ alarm_in self.now ns }
    {
        Alarm {
            due: self.clock + delay_ms(ns),
            cpu: self.here(),
        }
    }

    /// Starts the timer, whether or not it was started before.
    pub(crate) fn start_timer(&mut self, timer: u64, ns: u64) -> u64
        ensures answer { result ≡ timer_start_answer self.old timer }
        ensures world { self.new ≡ after_timer_start self.old timer ns }
        ensures few { self.new.queues.pushes ≡ self.old.queues.pushes }
    {
        if timer >= self.timers.len() as u64 {
            return self.fault(Fault::UnknownFlag);
        }
        let alarm = self.alarm_in(ns);
        self.set_alarm(timer as u32, Some(alarm));
        0
    }

    /// Cancels the timer, but not out of its own callback. Answers 1 if it was started.
    pub(crate) fn cancel_timer(&mut self, timer: u64) -> u64
        ensures answer { result ≡ timer_cancel_answer self.old timer }
        ensures world { self.new ≡ after_timer_cancel self.old timer }
        ensures few { self.new.queues.pushes ≡ self.old.queues.pushes }
    {
        if timer >= self.timers.len() as u64 {
            return self.fault(Fault::UnknownFlag);
        }
        let timer = timer as u32;
        if self.passing.timer == Some(timer) {
            return DEADLOCK;
        }
        let was_started = self.alarm(timer).is_some();
        self.set_alarm(timer, None);
        u64::from(was_started)
    }
}

/// The delay of a timer in whole milliseconds, at least 1.
fn delay_ms(ns: u64) -> u64
    ensures delay { result ≡ delay_ms ns }
    ensures few { result ≤ 18_446_744_073_710 }
{
    cmp::max(1, ns.div_ceil(1_000_000))
}
