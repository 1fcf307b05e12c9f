ghost use Rattle.std.specs.Prelude.{◌≡◌, ℕ, ◌+◌, ◌*◌, ◌<◌, ◌≤◌, ◌^◌, false, length, None, IfOk, IfErr, OnOk, OnErr};
ghost use Rattle.scx_dsq.specs.Queues.{entry_of};
ghost use Rattle.scx_weights.specs.Limits.{usage_of};
ghost use Rattle.scx_sched_world.specs.World.{nothing_passes, task_at, is_runnable, running, wait, IsLike};
ghost use Rattle.scx_sched_machine.specs.Hearing.{Hears};
ghost use Rattle.scx_sched_machine.specs.Notes.{Takes};
ghost use Rattle.scx_sched_machine.specs.Callbacks.{AreAnswered};
ghost use Rattle.scx_sched_policy.specs.Policy.{IsTimeout, AreAs};
ghost use Rattle.scx_sched_machine.specs.Steps.{is_by_linux};
ghost use Rattle.scx_sched_world.specs.Tasks.{tick_ns};
ghost use Rattle.scx_sched_machine.specs.Quiet.{IsQuiet};
ghost use Rattle.scx_sched_machine.specs.Start.{is_bad_shape, IsRefusal, start_calls, calls_before, AreAnsweredBefore};
ghost use Rattle.scx_sched.specs.Causes.{EjectsOnce, IsNeverStuck};
ghost use Rattle.scx_sched.specs.Current.{AreCurrent};
ghost use Rattle.scx_sched.specs.Decided.{EventsDecide};
ghost use Rattle.scx_sched.specs.Quiet.{quiet_events, after_all, GoQuietly, AllWithin, AreLeft};
ghost use Rattle.scx_sched.specs.Failures.{HasFailed, NoneFails};
ghost use Rattle.scx_sched.specs.Left.{LeavesNothingIdle};
ghost use Rattle.scx_sched.specs.Ranges.{IsFresh};
ghost use Rattle.scx_sched.specs.Usages.{AreBounded};
ghost use Rattle.scx_sched.specs.Waits.{IsTimely, HasWaits};
ghost use Rattle.scx_sched.specs.Once.{IsOnce, AreInQueues};
ghost use Rattle.scx_sched.specs.Places.{place};
ghost use Rattle.scx_sched.specs.Timers.{AreTimersLater, AreTimersOnCpus};
ghost use Rattle.scx_sched.specs.Allowed.{AreAllowed};
ghost use Rattle.scx_sched.specs.Sim.{max_events, refusal, answer_of, after_event, notes_of, calls_of, IsFirstState};

use crate::places::{Place, place_in};
use scx_maps::Maps;
use scx_sched_machine::{Event, Hearer, Machine, NewError, Refused, Sink, Unseen};
use scx_sched_policy::Policy;
use scx_sched_world::{Eject, Entry, World};
use scx_weights::Tree;
use std::alloc::{AllocError, Global};
use std::cmp;
use std::marker::Model;

/// The most events that a machine accepts.
pub const MAX_EVENTS: u64 = 1 << 32;

/// A machine between two events.
///
/// In a contract it is the machine's state, and how many events it accepted.
#[derive(Drop)]
pub struct Sim {
    machine: Machine,
    /// The number of events that it still accepts.
    left: u64,
}

impl Model for Sim {
    ghost use Rattle.scx_sched.specs.Sim.{SimState, IsCounted, accepted};

    ghost Value = { SimState };

    ghost view = { λ s. record { state = s.machine; events = accepted s.left } };

    ghost invariant = { λ s. IsCounted s.machine s.left };
}

impl Sim {
    /// The machine of a policy, with these groups and tasks, all asleep, and that many CPUs.
    ///
    /// `BadShape` is looked at first, then all memory is taken, and then init runs, enable and `set_weight` of each
    /// task, and `update_idle` of each CPU. If one of them fails, `InitFailed` has the code of its `exit`, -22 for a
    /// fault, or the answer of init.
    pub fn new(alloc: Global, policy: Policy, tree: Tree, cpus: u32) -> Result<Sim, NewError>
        ensures first { IfOk result (IsFirstState policy tree cpus) }
        ensures shape { OnOk result (is_bad_shape tree cpus ≡ false) }
        ensures timeout { OnOk result (IsTimeout policy.timeout_ms) }
        ensures programs { OnOk result (AreAs policy.callbacks) }
        ensures in_force { IfOk result (λ sim. sim.state.world.ejected ≡ None) }
        ensures current { IfOk result (λ sim. AreCurrent sim.state.world) }
        ensures timers { IfOk result (λ sim. AreTimersLater sim.state.world) }
        ensures timer_cpus { IfOk result (λ sim. AreTimersOnCpus sim.state.world) }
        ensures allowed { IfOk result (λ sim. AreAllowed sim.state.world) }
        ensures refused { IfErr result (IsRefusal policy tree cpus) }
        ensures failed { IfErr result (HasFailed policy tree cpus) }
        ensures none_failed { OnOk result (NoneFails (start_calls policy tree cpus)) }
        ensures answered { OnOk result (AreAnswered (start_calls policy tree cpus)) }
        ensures answered_before { IfErr result (AreAnsweredBefore policy tree cpus) }
    {
        Sim::new_seen(alloc, policy, tree, cpus, &mut Unseen)
    }

    /// `new`, with its callbacks run by a hearer, which takes no notes.
    pub fn new_seen<H: Hearer>(
        alloc: Global,
        policy: Policy,
        tree: Tree,
        cpus: u32,
        hearer: &mut H,
    ) -> Result<Sim, NewError>
        ensures first { IfOk result (IsFirstState policy tree cpus) }
        ensures shape { OnOk result (is_bad_shape tree cpus ≡ false) }
        ensures timeout { OnOk result (IsTimeout policy.timeout_ms) }
        ensures programs { OnOk result (AreAs policy.callbacks) }
        ensures in_force { IfOk result (λ sim. sim.state.world.ejected ≡ None) }
        ensures current { IfOk result (λ sim. AreCurrent sim.state.world) }
        ensures timers { IfOk result (λ sim. AreTimersLater sim.state.world) }
        ensures timer_cpus { IfOk result (λ sim. AreTimersOnCpus sim.state.world) }
        ensures allowed { IfOk result (λ sim. AreAllowed sim.state.world) }
        ensures refused { IfErr result (IsRefusal policy tree cpus) }
        ensures failed { IfErr result (HasFailed policy tree cpus) }
        ensures none_failed { OnOk result (NoneFails (start_calls policy tree cpus)) }
        ensures answered { OnOk result (AreAnswered (start_calls policy tree cpus)) }
        ensures answered_before { IfErr result (AreAnsweredBefore policy tree cpus) }
        ensures calls { OnOk result
            (Hears H.hears (H.told hearer.old) (start_calls policy tree cpus) (H.told hearer.new)) }
        ensures calls_before { IfErr result (λ error.
            Hears H.hears (H.told hearer.old) (calls_before policy tree cpus error)
            (H.told hearer.new)) }
        ensures notes { H.noted hearer.new ≡ H.noted hearer.old }
    {
        let machine = Machine::new(alloc, policy, tree, cpus as usize, hearer)?;
        Ok(Sim {
            machine,
            left: MAX_EVENTS,
        })
    }

    /// Why the event isn't accepted.
    #[inline(always)]
    #[tactic(auto, using(crate::proofs::Counted::counts))]
    fn refusal(&self, event: Event) -> Option<Refused>
        ensures cause { result ≡ refusal self.now event }
        ensures early { result ≡ None → self.now.events < max_events }
    {
        if self.left == 0 {
            return Some(Refused::RunOver);
        }
        self.machine.refusal(event)
    }

    /// One event, with all that it causes. One that isn't accepted changes nothing, and has no notes.
    #[inline(always)]
    pub fn step<S: Sink>(&mut self, event: Event, sink: &mut S) -> Result<(), Refused>
        ensures answer { result ≡ answer_of (refusal self.old event) }
        ensures state { self.new ≡ after_event self.old event }
        ensures refused { OnErr result (self.new ≡ self.old) }
        ensures notes { Takes S.takes sink.old (notes_of self.old event) sink.new }
        ensures answered { AreAnswered (calls_of self.old event) }
        ensures once { IsOnce None self.new.state.world }
        ensures there { AreInQueues self.new.state.world }
        ensures current { AreCurrent self.new.state.world }
        ensures timely { IsTimely self.new.state }
        ensures timers { AreTimersLater self.new.state.world }
        ensures timer_cpus { AreTimersOnCpus self.new.state.world }
        ensures allowed { AreAllowed self.new.state.world }
        ensures bounded { AreBounded self.new.state.world }
        ensures never_stuck { IsNeverStuck self.new.state.world }
        ensures cause { OnOk result (EjectsOnce self.old event self.new) }
        ensures decided { OnOk result (EventsDecide self.old event self.new) }
        ensures idle { OnOk result (is_by_linux self.old.state ≡ false
            → LeavesNothingIdle event self.new.state.world) }
    {
        self.step_heard(event, sink)
    }

    /// `step`, with its callbacks told to a hearer.
    #[inline(always)]
    #[tactic(auto, using(crate::proofs::Counted::counts))]
    pub fn step_heard<H: Hearer>(&mut self, event: Event, hearer: &mut H) -> Result<(), Refused>
        ensures answer { result ≡ answer_of (refusal self.old event) }
        ensures state { self.new ≡ after_event self.old event }
        ensures refused { OnErr result (self.new ≡ self.old) }
        ensures notes { Takes H.takes (H.noted hearer.old) (notes_of self.old event)
            (H.noted hearer.new) }
        ensures calls { Hears H.hears (H.told hearer.old) (calls_of self.old event)
            (H.told hearer.new) }
        ensures answered { AreAnswered (calls_of self.old event) }
        ensures once { IsOnce None self.new.state.world }
        ensures there { AreInQueues self.new.state.world }
        ensures current { AreCurrent self.new.state.world }
        ensures timely { IsTimely self.new.state }
        ensures timers { AreTimersLater self.new.state.world }
        ensures timer_cpus { AreTimersOnCpus self.new.state.world }
        ensures allowed { AreAllowed self.new.state.world }
        ensures bounded { AreBounded self.new.state.world }
        ensures never_stuck { IsNeverStuck self.new.state.world }
        ensures cause { OnOk result (EjectsOnce self.old event self.new) }
        ensures decided { OnOk result (EventsDecide self.old event self.new) }
        ensures idle { OnOk result (is_by_linux self.old.state ≡ false
            → LeavesNothingIdle event self.new.state.world) }
    {
        if let Some(refused) = self.refusal(event) {
            return Err(refused);
        }
        self.machine.event_heard(event, hearer);
        self.left -= 1;
        Ok(())
    }

    /// The number of milliseconds, at most that many, in which nothing happens but that tasks run, if no event comes
    /// but ticks and the clock. It may be less than it could.
    #[tactic(auto, using(crate::proofs::Quiet::few_enough))]
    pub fn quiet_ms(&mut self, most: u32) -> u32
        ensures most { result ≤ most }
        ensures quiet { 0 < result → IsQuiet result self.old.state }
        ensures left { AreLeft result self.old }
        ensures same { self.new ≡ self.old }
    {
        let events = u64::from(self.cpus()) + 1;
        let most = cmp::min(u64::from(most), self.left / events);
        self.machine.quiet_ms(most) as u32
    }

    /// The ticks of all CPUs and the clock, for that many milliseconds in which nothing else happens.
    pub fn skip(&mut self, ms: u32)
        requires some { 0 < ms }
        requires quiet { IsQuiet ms self.old.state }
        requires left { AreLeft ms self.old }
        ensures state { self.new
            ≡ after_all self.old (quiet_events ms (length self.old.state.world.cpus)) }
        ensures quietly { GoQuietly self.old
            (quiet_events ms (length self.old.state.world.cpus)) }
        ensures within { AllWithin (ms * tick_ns) self.old self.old
            (quiet_events ms (length self.old.state.world.cpus)) }
    {
        let events = u64::from(self.cpus()) + 1;
        self.machine.skip(u64::from(ms));
        self.left -= u64::from(ms) * events;
    }

    /// Becomes a copy of the other machine, which has the same policy and queues, and as many tasks, CPUs and
    /// groups. No memory is taken.
    pub fn copy_from(&mut self, other: &Sim)
        requires policy { self.old.state.policy ≡ other.now.state.policy }
        requires world { IsLike self.old.state.world other.now.state.world }
        ensures { self.new ≡ other.now }
    {
        self.machine.copy_from(&other.machine);
        self.left = other.left;
    }

    /// A copy of the machine, in memory of its own.
    pub fn duplicate(&self, alloc: Global) -> Result<Sim, AllocError>
        ensures { IfOk result (λ copy. copy ≡ self.now) }
    {
        let machine = self.machine.duplicate(alloc)?;
        Ok(Sim {
            machine,
            left: self.left,
        })
    }

    /// The law of what holds between two events: each runnable task is in one place, and no other task anywhere; a task
    /// has a wait where it is in a queue and not parked, and no longer one than a policy in force may let it have; each
    /// timer that was started is due later than the clock, while the policy is in force, and is to run on one of the
    /// machine's processors; no group with a quota has used as much as that and one millisecond for each processor in
    /// its period; the times of the built-in scheduler are far from where they would be cut off, and 0 until it begins;
    /// stamps of queues are far from theirs; no scheduling cycle is under way, no timer's callback is at hand, nothing
    /// is kept of the event before, and the current task of each CPU is the one that runs there; the rules are those of
    /// the policy; and each program of the policy was verified as its callback. The function does nothing: its contract
    /// is the law.
    #[tactic(auto, using(crate::proofs::Bounded::are_bounded))]
    pub fn is_sound(&self)
        ensures once { IsOnce None self.now.state.world }
        ensures there { AreInQueues self.now.state.world }
        ensures current { AreCurrent self.now.state.world }
        ensures waits { HasWaits None self.now.state.world }
        ensures timely { IsTimely self.now.state }
        ensures timers { AreTimersLater self.now.state.world }
        ensures timer_cpus { AreTimersOnCpus self.now.state.world }
        ensures allowed { AreAllowed self.now.state.world }
        ensures never_stuck { IsNeverStuck self.now.state.world }
        ensures bounded { AreBounded self.now.state.world }
        ensures times { (t : ℕ) → (task_at self.now.state.world t).builtin < 2 ^ 63 }
        ensures still { self.now.state.world.cycling ≡ None }
        ensures settled { self.now.state.world.passing ≡ nothing_passes }
        ensures rules { self.now.state.world.rules ≡ self.now.state.policy.rules }
        ensures fresh { self.now.state.world.ejected ≡ None → IsFresh self.now.state.world }
        ensures stamps { self.now.state.world.queues.pushes < 2 ^ 60 }
        ensures timeout { IsTimeout self.now.state.policy.timeout_ms }
        ensures programs { AreAs self.now.state.policy.callbacks }
    {
        let _left = self.left;
    }

    /// The policy, which stays the one that the machine was made with.
    pub fn policy(&self) -> &Policy
        ensures { result.now ≡ self.now.state.policy }
    {
        self.machine.policy()
    }

    /// The clock, tasks, processors, queues and weights.
    pub fn world(&self) -> &World
        ensures { result.now ≡ self.now.state.world }
    {
        self.machine.world()
    }

    /// The values of the policy's maps.
    pub fn maps(&self) -> &Maps
        ensures { result.now ≡ self.now.state.maps }
    {
        self.machine.maps()
    }

    /// The number of accepted events.
    pub fn events(&self) -> u64
        ensures events { result ≡ self.now.events }
        ensures most { result ≤ MAX_EVENTS }
    {
        let events = MAX_EVENTS - self.left;
        events
    }

    /// In milliseconds.
    pub fn clock(&self) -> u64
        ensures { result ≡ self.now.state.world.clock }
    {
        self.machine.world().clock()
    }

    /// The number of tasks; their numbers are below it.
    pub fn tasks(&self) -> u16
        ensures { result ≡ length self.now.state.world.tasks }
    {
        self.machine.world().tasks()
    }

    /// The number of CPUs; their numbers are below it.
    pub fn cpus(&self) -> u32
        ensures { result ≡ length self.now.state.world.cpus }
    {
        self.machine.world().cpus()
    }

    pub fn place(&self, task: u16) -> Place
        requires { task < length self.now.state.world.tasks }
        ensures { result ≡ place self.now.state.world task }
    {
        let world = self.machine.world();
        place_in(world.cpu_of(task), world.queue_of(task))
    }

    /// Where the task waits or is parked, by which rank, and how many pushes were accepted before it.
    pub fn entry(&self, task: u16) -> Option<Entry>
        ensures { result ≡ entry_of self.now.state.world.queues task }
    {
        self.machine.world().entry(task)
    }

    /// True if the task has work to do: it runs or waits. A task that doesn't exist has none.
    pub fn is_runnable(&self, task: u16) -> bool
        ensures { result ≡ is_runnable self.now.state.world task }
    {
        task < self.tasks() && self.machine.world().is_runnable(task)
    }

    /// The task that runs on the processor.
    pub fn running(&self, cpu: u32) -> Option<u16>
        requires { cpu < length self.now.state.world.cpus }
        ensures { result ≡ running self.now.state.world cpu }
    {
        self.runner(cpu)
    }

    /// The task that runs on the processor; none where there is no such processor.
    pub fn runner(&self, cpu: u32) -> Option<u16>
        ensures { result ≡ running self.now.state.world cpu }
    {
        self.machine.world().running(cpu)
    }

    /// The time that the task has run, in nanoseconds.
    pub fn run_ns(&self, task: u16) -> u64
        requires { task < length self.now.state.world.tasks }
        ensures { result ≡ (task_at self.now.state.world task).run_ns }
    {
        self.run_ns_of(task)
    }

    /// `run_ns`; 0 if there is no such task.
    #[inline(always)]
    pub fn run_ns_of(&self, task: u16) -> u64
        ensures { result ≡ (task_at self.now.state.world task).run_ns }
    {
        self.machine.world().task(task).run_ns
    }

    /// The task's remaining slice, in nanoseconds.
    pub fn slice(&self, task: u16) -> u64
        requires { task < length self.now.state.world.tasks }
        ensures { result ≡ (task_at self.now.state.world task).slice }
    {
        self.machine.world().task(task).slice
    }

    /// The task's virtual time.
    pub fn vtime(&self, task: u16) -> u64
        requires { task < length self.now.state.world.tasks }
        ensures { result ≡ (task_at self.now.state.world task).vtime }
    {
        self.machine.world().task(task).vtime
    }

    /// Why and when the policy was ejected, if it was. It comes back into force no more.
    pub fn ejected(&self) -> Option<Eject>
        ensures { result ≡ self.now.state.world.ejected }
    {
        self.machine.world().ejected()
    }

    /// The length of the task's wait, in milliseconds; 0 if it isn't waiting.
    pub fn wait(&self, task: u16) -> u64
        requires { task < length self.now.state.world.tasks }
        ensures { result ≡ wait self.now.state.world task }
    {
        self.machine.world().wait(task)
    }

    /// The number of groups; their numbers are below it.
    pub fn groups(&self) -> u32
        ensures { result ≡ length self.now.state.world.tree.groups }
    {
        self.machine.world().groups()
    }

    /// The usage of the group: the time that tasks in it and below it have run in its period, in milliseconds.
    pub fn usage(&self, group: u32) -> u64
        requires { group < length self.now.state.world.tree.groups }
        ensures { result ≡ usage_of self.now.state.world.tree group }
    {
        self.machine.world().usage(group)
    }
}
