ghost use Rattle.std.specs.Prelude.{◌≡◌, ℕ, ◌+◌, ◌<◌, ◌^◌, true, false, Some, None};
ghost use Rattle.scx_weights.specs.Limits.{usage_of};
ghost use Rattle.scx_sched_world.specs.World.{task_at};
ghost use Rattle.scx_sched_machine.specs.Budgets.{HasRoom, calm_pushes, callback_pushes, clock_pushes, cycle_pushes, eject_pushes, event_pushes, own_pushes, throttle_pushes, tick_pushes};
ghost use Rattle.scx_sched_machine.specs.Does.{Does, Goes};
ghost use Rattle.scx_sched_machine.specs.Notes.{Takes};
ghost use Rattle.scx_sched_machine.specs.Steps.{is_by_linux};
ghost use Rattle.scx_isa_semantics.specs.declared.callbacks.Callback.TheVariants.{Tick};
ghost use Rattle.scx_sched_machine.specs.Callbacks.{call_back, one_task};
ghost use Rattle.scx_sched_machine.specs.declared.events.Event.TheVariants.{Wake, Sleep, SetWeight, SetTaskWeight};
ghost use Rattle.scx_sched_machine.specs.Events.{refusal, throttle, is_tick_time, ends_slices, expire, use_up, hears_tick, count_down, tick_idle, tick, overdue, eject_if_stalled, timers_and_watchdog, clock, own_step, event_step};

use crate::callbacks::one_task;
use crate::machine::Machine;
use crate::sink::{Hearer, Sink};
use scx_isa::Callback;
use scx_sched_world::{Eject, What};
use scx_weights::is_weight;
use thiserror::Error;

/// An event of the machine. Tasks, CPUs and groups go by their numbers.
#[derive(Clone, Copy, Debug, PartialEq, Eq)]
pub enum Event {
    /// A task has work to do.
    Wake(u16),
    /// A task has none left.
    Sleep(u16),
    /// A CPU ran for a millisecond.
    Tick(u32),
    /// The clock grows by a millisecond.
    Clock,
    /// A group has that weight from now on.
    SetWeight(u32, u32),
    /// A task has that weight of its own from now on.
    SetTaskWeight(u16, u32),
}

/// The reason why an event isn't accepted. Nothing has changed, and nothing was noted.
#[derive(Clone, Copy, Debug, PartialEq, Eq, Error)]
pub enum Refused {
    /// A task is to wake that has not gone to sleep since it woke last.
    #[error("the task is runnable already")]
    AlreadyRunnable,
    /// A task is to go to sleep that sleeps.
    #[error("the task isn't runnable")]
    NotRunnable,
    /// A wake, a sleep or a weight is of a task that isn't there.
    #[error("there is no such task")]
    UnknownTask,
    /// A tick is of a CPU that isn't there.
    #[error("there is no such processor")]
    UnknownCpu,
    /// A weight is for a group that isn't there.
    #[error("there is no such group")]
    UnknownGroup,
    /// A group or a task that is there is to have a weight that is out of range.
    #[error("a weight is one of 1 to 10000")]
    BadWeight,
    /// A machine has accepted 2^32 events: this goes before any other cause.
    #[error("as many events were accepted as may be")]
    RunOver,
}

impl Machine {
    /// The reason why the event isn't accepted, if there is one.
    #[inline(always)]
    pub fn refusal(&self, event: Event) -> Option<Refused>
        ensures { result ≡ refusal self.now event }
    {
        match event {
            Event::Wake(task) => self.wake_refusal(task),
            Event::Sleep(task) => self.sleep_refusal(task),
            Event::Tick(cpu) => {
                if self.world.has_cpu(cpu) {
                    None
                } else {
                    Some(Refused::UnknownCpu)
                }
            }
            Event::Clock => None,
            Event::SetWeight(group, weight) => self.weight_refusal(group, weight),
            Event::SetTaskWeight(task, weight) => self.own_weight_refusal(task, weight),
        }
    }

    fn wake_refusal(&self, task: u16) -> Option<Refused>
        ensures { result ≡ refusal self.now (Wake task) }
    {
        if !self.world.has_task(task) {
            Some(Refused::UnknownTask)
        } else if self.world.is_runnable(task) {
            Some(Refused::AlreadyRunnable)
        } else {
            None
        }
    }

    fn sleep_refusal(&self, task: u16) -> Option<Refused>
        ensures { result ≡ refusal self.now (Sleep task) }
    {
        if !self.world.has_task(task) {
            Some(Refused::UnknownTask)
        } else if self.world.is_runnable(task) {
            None
        } else {
            Some(Refused::NotRunnable)
        }
    }

    fn weight_refusal(&self, group: u32, weight: u32) -> Option<Refused>
        ensures { result ≡ refusal self.now (SetWeight group weight) }
    {
        if group >= self.world.groups() {
            Some(Refused::UnknownGroup)
        } else if is_weight(weight) {
            None
        } else {
            Some(Refused::BadWeight)
        }
    }

    fn own_weight_refusal(&self, task: u16, weight: u32) -> Option<Refused>
        ensures { result ≡ refusal self.now (SetTaskWeight task weight) }
    {
        if !self.world.has_task(task) {
            Some(Refused::UnknownTask)
        } else if is_weight(weight) {
            None
        } else {
            Some(Refused::BadWeight)
        }
    }

    /// A task that may not run any more leaves its CPU and is parked.
    #[inline(never)]
    #[tactic(auto, unfolding(crate::specs::Events::throttle), using(crate::proofs::Taking::takings))]
    fn throttle<H: Hearer>(&mut self, cpu: u32, task: u16, hearer: &mut H)
        requires { HasRoom throttle_pushes self.old }
        ensures { Goes H.noted H.takes H.told H.hears throttle_pushes (throttle self.old cpu task)
            self.old hearer.old self.new hearer.new }
    {
        self.leave_cpu(cpu, task, 1, hearer);
        self.park(task, hearer);
        self.cycle(cpu, None, true, hearer);
    }

    /// True if this millisecond ends with a tick: each one does where slices end exactly.
    fn is_tick_time(&self) -> bool
        ensures { result ≡ is_tick_time self.now }
    {
        let ticks = self.policy.tick_ms();
        ticks == 0 || self.world.next_clock() % ticks == 0
    }

    /// True if a slice that has run out ends by now: under Linux rules at a tick alone.
    #[tactic(auto, unfolding(crate::specs::Events::ends_slices))]
    fn ends_slices(&self) -> bool
        ensures { result ≡ ends_slices self.now }
    {
        !self.is_by_linux() || self.is_tick_time()
    }

    /// A task with that much left of its slice may be replaced if that is nothing.
    #[inline(always)]
    #[tactic(auto, unfolding(crate::specs::Events::expire), using(crate::proofs::Taking::takings))]
    fn expire<H: Hearer>(&mut self, cpu: u32, task: u16, left: u64, hearer: &mut H)
        requires left { left ≡ (task_at self.old.world task).slice }
        requires room { HasRoom cycle_pushes self.old }
        ensures { Goes H.noted H.takes H.told H.hears cycle_pushes (expire self.old cpu task)
            self.old hearer.old self.new hearer.new }
    {
        if left == 0 && self.ends_slices() {
            self.cycle(cpu, Some(task), true, hearer);
        }
    }

    /// `expire` by plain rules. Answers true if the task may be replaced.
    #[inline(always)]
    #[tactic(auto, unfolding(crate::specs::Events::expire, crate::specs::Events::ends_slices), using(crate::proofs::Taking::takings))]
    fn expire_plainly<H: Hearer>(&mut self, cpu: u32, task: u16, left: u64, hearer: &mut H) -> bool
        requires plain { is_by_linux self.old ≡ false }
        requires left { left ≡ (task_at self.old.world task).slice }
        requires room { HasRoom cycle_pushes self.old }
        ensures does { Goes H.noted H.takes H.told H.hears cycle_pushes (expire self.old cpu task)
            self.old hearer.old self.new hearer.new }
        ensures plain { result ≡ false → is_by_linux self.new ≡ false }
    {
        if left == 0 {
            self.cycle(cpu, Some(task), true, hearer);
            true
        } else {
            false
        }
    }

    /// The groups of a task that ran for a millisecond have used it, and the task may be replaced.
    #[tactic(auto, unfolding(crate::specs::Events::use_up), using(crate::proofs::Taking::takings))]
    fn use_up<H: Hearer>(&mut self, cpu: u32, task: u16, hearer: &mut H)
        requires used { (g : ℕ) → usage_of self.old.world.tree g < 2 ^ 63 }
        requires room { HasRoom throttle_pushes self.old }
        ensures { Goes H.noted H.takes H.told H.hears throttle_pushes (use_up self.old cpu task)
            self.old hearer.old self.new hearer.new }
    {
        self.world.use_ms(task);
        if self.world.is_throttled(task) {
            self.throttle(cpu, task, hearer);
        } else {
            let left = self.world.task(task).slice;
            self.expire(cpu, task, left, hearer);
        }
    }

    /// True if the policy hears of a tick in this millisecond: under Linux rules, if it has `tick`.
    #[inline(always)]
    #[tactic(auto, unfolding(crate::specs::Events::hears_tick))]
    fn hears_tick(&self) -> bool
        ensures { result ≡ hears_tick self.now }
    {
        self.is_by_linux() && self.policy.has_program(Callback::Tick) && self.is_tick_time()
    }

    /// The policy hears of the tick of a task.
    #[inline(always)]
    #[tactic(auto, using(crate::proofs::Taking::takings, crate::proofs::Steady::tree_called))]
    fn tell_tick<H: Hearer>(&mut self, cpu: u32, task: u16, hearer: &mut H)
        requires { HasRoom callback_pushes self.old }
        ensures does { Goes H.noted H.takes H.told H.hears callback_pushes
            (call_back self.old Tick (one_task task) task cpu)
            self.old hearer.old self.new hearer.new }
        ensures tree { self.new.world.tree ≡ self.old.world.tree }
    {
        self.call_back(Callback::Tick, one_task(task), task, cpu, hearer);
    }

    /// A task has run for a millisecond, and the policy hears of the tick. The slice that it leaves counts.
    #[inline(never)]
    #[tactic(auto, using(crate::proofs::Taking::takings, crate::proofs::Counting::count_heard))]
    fn count_heard<H: Hearer>(&mut self, cpu: u32, task: u16, hearer: &mut H)
        requires heard { hears_tick self.old ≡ true }
        requires early { (task_at self.old.world task).run_ns < 2 ^ 63 }
        requires used { (g : ℕ) → usage_of self.old.world.tree g < 2 ^ 63 }
        requires room { HasRoom tick_pushes self.old }
        ensures { Goes H.noted H.takes H.told H.hears tick_pushes (count_down self.old cpu task)
            self.old hearer.old self.new hearer.new }
    {
        self.world.run_tick(task);
        self.tell_tick(cpu, task, hearer);
        self.use_up(cpu, task, hearer);
    }

    /// A task has run for a millisecond, which its groups have used, and the policy hears of no tick.
    #[inline(always)]
    #[tactic(auto, using(crate::proofs::Taking::takings, crate::proofs::Counting::counts))]
    fn count_unheard<H: Hearer>(&mut self, cpu: u32, task: u16, hearer: &mut H)
        requires unheard { hears_tick self.old ≡ false }
        requires early { (task_at self.old.world task).run_ns < 2 ^ 63 }
        requires used { (g : ℕ) → usage_of self.old.world.tree g < 2 ^ 63 }
        requires room { HasRoom throttle_pushes self.old }
        ensures { Goes H.noted H.takes H.told H.hears throttle_pushes (count_down self.old cpu task)
            self.old hearer.old self.new hearer.new }
    {
        match self.world.run_and_use_ms(task) {
            Some(left) => self.expire(cpu, task, left, hearer),
            None => self.throttle(cpu, task, hearer),
        }
    }

    /// A task has run for a millisecond by Linux rules.
    #[inline(always)]
    #[tactic(auto, using(crate::proofs::Taking::takings))]
    fn count_by_linux<H: Hearer>(&mut self, cpu: u32, task: u16, hearer: &mut H)
        requires early { (task_at self.old.world task).run_ns < 2 ^ 63 }
        requires used { (g : ℕ) → usage_of self.old.world.tree g < 2 ^ 63 }
        requires room { HasRoom tick_pushes self.old }
        ensures { Goes H.noted H.takes H.told H.hears tick_pushes (count_down self.old cpu task)
            self.old hearer.old self.new hearer.new }
    {
        if self.hears_tick() {
            self.count_heard(cpu, task, hearer);
        } else {
            self.count_unheard(cpu, task, hearer);
        }
    }

    /// A task has run for a millisecond by plain rules, which its groups have used. Answers true if it is replaced, or
    /// may not run any more.
    #[inline(always)]
    #[tactic(auto, using(crate::proofs::Taking::takings, crate::proofs::Counting::counts_plainly))]
    fn count_plainly<H: Hearer>(&mut self, cpu: u32, task: u16, hearer: &mut H) -> bool
        requires plain { is_by_linux self.old ≡ false }
        requires early { (task_at self.old.world task).run_ns < 2 ^ 63 }
        requires used { (g : ℕ) → usage_of self.old.world.tree g < 2 ^ 63 }
        requires room { HasRoom throttle_pushes self.old }
        ensures does { Goes H.noted H.takes H.told H.hears throttle_pushes
            (count_down self.old cpu task) self.old hearer.old self.new hearer.new }
        ensures plain { result ≡ false → is_by_linux self.new ≡ false }
    {
        let left = self.world.run_and_use_ms(task);
        match left {
            Some(left) => self.expire_plainly(cpu, task, left, hearer),
            None => {
                self.throttle(cpu, task, hearer);
                true
            }
        }
    }

    /// A task has run for a millisecond. The answer is false only by plain rules, where that was all.
    #[inline(always)]
    #[tactic(auto, using(crate::proofs::Taking::takings))]
    fn count_down<H: Hearer>(&mut self, cpu: u32, task: u16, hearer: &mut H) -> bool
        requires early { (task_at self.old.world task).run_ns < 2 ^ 63 }
        requires used { (g : ℕ) → usage_of self.old.world.tree g < 2 ^ 63 }
        requires room { HasRoom tick_pushes self.old }
        ensures does { Goes H.noted H.takes H.told H.hears tick_pushes (count_down self.old cpu task)
            self.old hearer.old self.new hearer.new }
        ensures plain { result ≡ false → is_by_linux self.new ≡ false }
    {
        if self.is_by_linux() {
            self.count_by_linux(cpu, task, hearer);
            true
        } else {
            self.count_plainly(cpu, task, hearer)
        }
    }

    /// A CPU that runs no task looks for one. Under Linux rules it sleeps until it is given work.
    #[inline(always)]
    #[tactic(auto, unfolding(crate::specs::Events::tick_idle), using(crate::proofs::Taking::takings))]
    fn tick_idle<H: Hearer>(&mut self, cpu: u32, hearer: &mut H)
        requires { HasRoom cycle_pushes self.old }
        ensures { Goes H.noted H.takes H.told H.hears cycle_pushes (tick_idle self.old cpu)
            self.old hearer.old self.new hearer.new }
    {
        if !self.is_by_linux() {
            self.idle_cycle(cpu, hearer);
        }
    }

    /// A CPU ran for a millisecond. The answer is false only by plain rules, where its task ran on and that was all.
    #[inline(always)]
    #[tactic(auto, unfolding(crate::specs::Events::tick), using(crate::proofs::Taking::takings))]
    fn tick<H: Hearer>(&mut self, cpu: u32, hearer: &mut H) -> bool
        requires early { (t : ℕ) → (task_at self.old.world t).run_ns < 2 ^ 63 }
        requires used { (g : ℕ) → usage_of self.old.world.tree g < 2 ^ 63 }
        requires room { HasRoom tick_pushes self.old }
        ensures does { Goes H.noted H.takes H.told H.hears tick_pushes (tick self.old cpu)
            self.old hearer.old self.new hearer.new }
        ensures plain { result ≡ false → is_by_linux self.new ≡ false }
    {
        match self.world.running(cpu) {
            Some(task) => self.count_down(cpu, task, hearer),
            None => {
                self.tick_idle(cpu, hearer);
                true
            }
        }
    }

    /// The task that has waited too long, while the policy is in force.
    #[inline(always)]
    fn overdue(&mut self) -> Option<u16>
        ensures answer { result ≡ overdue self.old }
        ensures same { self.new ≡ self.old }
    {
        if self.is_ejected() {
            return None;
        }
        self.world.first_overdue(self.policy.timeout_ms())
    }

    /// A policy that let a task wait too long is ejected.
    #[inline(always)]
    #[tactic(auto, using(crate::proofs::Taking::takings))]
    fn watch<H: Hearer>(&mut self, hearer: &mut H)
        requires { HasRoom eject_pushes self.old }
        ensures { Goes H.noted H.takes H.told H.hears eject_pushes
            (eject_if_stalled (overdue self.old) self.old) self.old hearer.old self.new hearer.new }
    {
        if let Some(task) = self.overdue() {
            self.eject_stalled(task, hearer);
        }
    }

    /// A policy that let that task wait too long is ejected.
    #[inline(never)]
    #[tactic(auto, using(crate::proofs::Taking::takings))]
    fn eject_stalled<H: Hearer>(&mut self, task: u16, hearer: &mut H)
        requires { HasRoom eject_pushes self.old }
        ensures { Goes H.noted H.takes H.told H.hears eject_pushes
            (eject_if_stalled (Some task) self.old) self.old hearer.old self.new hearer.new }
    {
        let clock = self.world.clock();
        self.eject(Eject::Stall(task, clock), hearer);
    }

    /// Timers that are due run, and then the watchdog looks.
    #[inline(always)]
    #[tactic(auto, unfolding(crate::specs::Events::timers_and_watchdog, crate::specs::Events::watch), using(crate::proofs::Taking::takings))]
    fn fire_and_watch<H: Hearer>(&mut self, hearer: &mut H)
        requires { HasRoom (calm_pushes + eject_pushes) self.old }
        ensures { Goes H.noted H.takes H.told H.hears (calm_pushes + eject_pushes)
            (timers_and_watchdog self.old) self.old hearer.old self.new hearer.new }
    {
        self.fire_all(hearer);
        self.watch(hearer);
    }

    /// The clock grows by a millisecond, and periods begin: tasks that may run again are let go. Timers that are due
    /// run, and then the watchdog looks.
    #[inline(always)]
    #[tactic(auto, unfolding(crate::specs::Events::clock), using(crate::proofs::Taking::takings))]
    fn clock<H: Hearer>(&mut self, hearer: &mut H)
        requires early { self.old.world.clock < 2 ^ 32 }
        requires room { HasRoom own_pushes self.old }
        ensures { Goes H.noted H.takes H.told H.hears clock_pushes (clock self.old)
            self.old hearer.old self.new hearer.new }
    {
        self.world.advance();
        self.world.begin_periods();
        self.let_all_go(hearer);
        self.fire_and_watch(hearer);
    }

    /// Carries out an event that is accepted.
    #[inline(always)]
    pub fn event<S: Sink>(&mut self, event: Event, sink: &mut S)
        requires accepted { refusal self.old event ≡ None }
        requires early { self.old.world.clock < 2 ^ 32 }
        requires runs { (t : ℕ) → (task_at self.old.world t).run_ns < 2 ^ 63 }
        requires used { (g : ℕ) → usage_of self.old.world.tree g < 2 ^ 63 }
        requires room { HasRoom event_pushes self.old }
        ensures { Does S.takes event_pushes (event_step self.old event)
            self.old sink.old self.new sink.new }
    {
        self.event_heard(event, sink);
    }

    /// `event`, with its callbacks told to a hearer.
    #[inline(always)]
    #[tactic(auto, unfolding(crate::specs::Rounds::with_rounds), using(crate::proofs::Taking::takings))]
    pub fn event_heard<H: Hearer>(&mut self, event: Event, hearer: &mut H)
        requires accepted { refusal self.old event ≡ None }
        requires early { self.old.world.clock < 2 ^ 32 }
        requires runs { (t : ℕ) → (task_at self.old.world t).run_ns < 2 ^ 63 }
        requires used { (g : ℕ) → usage_of self.old.world.tree g < 2 ^ 63 }
        requires room { HasRoom event_pushes self.old }
        ensures { Goes H.noted H.takes H.told H.hears event_pushes (event_step self.old event)
            self.old hearer.old self.new hearer.new }
    {
        let may_look = self.own_step(event, hearer);
        if may_look && self.is_by_linux() {
            self.look_for_work(hearer);
        }
    }

    /// Carries out an event that is accepted, up to where CPUs look for work. Where the answer is false the machine goes
    /// by plain rules, and none does.
    #[inline(always)]
    #[tactic(auto, using(crate::proofs::Taking::takings))]
    fn own_step<H: Hearer>(&mut self, event: Event, hearer: &mut H) -> bool
        requires accepted { refusal self.old event ≡ None }
        requires early { self.old.world.clock < 2 ^ 32 }
        requires runs { (t : ℕ) → (task_at self.old.world t).run_ns < 2 ^ 63 }
        requires used { (g : ℕ) → usage_of self.old.world.tree g < 2 ^ 63 }
        requires room { HasRoom own_pushes self.old }
        ensures does { Goes H.noted H.takes H.told H.hears own_pushes (own_step self.old event)
            self.old hearer.old self.new hearer.new }
        ensures plain { result ≡ false → is_by_linux self.new ≡ false }
    {
        match event {
            Event::Wake(task) => {
                self.wake(task, hearer);
                true
            }
            Event::Sleep(task) => {
                self.sleep(task, hearer);
                true
            }
            Event::Tick(cpu) => self.tick(cpu, hearer),
            Event::Clock => {
                self.clock(hearer);
                true
            }
            Event::SetWeight(group, weight) => {
                self.world.set_weight(group, weight);
                hearer.note(self.world.note(What::Weight(group, weight)));
                true
            }
            Event::SetTaskWeight(task, weight) => {
                hearer.note(self.world.note(What::TaskWeight(task, weight)));
                self.reweigh(task, weight, hearer);
                true
            }
        }
    }
}
