ghost use Rattle.std.specs.Prelude.{◌≡◌, ◌≢◌, ℕ, true, ◌&&◌, ◌+◌, ◌≤◌, ◌<◌, is_none, nat_lt, length, position, slice_get, slice_index_or, Some, IfSome, IfOk, OnOk};
ghost use Rattle.std.specs.Int.{bit_at};
ghost use Rattle.scx_dsq.specs.Laws.{one_if};
ghost use Rattle.scx_dsq.specs.Queues.{entry_of, queue_of, task_count};
ghost use Rattle.scx_weights.specs.Limits.{has_quota};
ghost use Rattle.scx_sched_world.specs.First.{with_locals, first_queues, first_world};
ghost use Rattle.scx_sched_world.specs.CpuSets.{is_in_set};
ghost use Rattle.scx_sched_world.specs.Helpers.{task_argument, with_insert};
ghost use Rattle.scx_sched_world.specs.Kept.{lowest_bit, StaysParked, NobodyIsFree};
ghost use Rattle.scx_sched_world.specs.Waits.{first_overdue};
ghost use Rattle.scx_weights.specs.Limits.{usage_of};
ghost use Rattle.scx_sched_world.specs.World.{marks_of, task_at, wait, with_task, is_runnable, is_throttled, waits, running, with_cpu, with_switch, cycling_by_linux, with_cycling, out_of_cycle, with_timers, with_slept, with_waker, is_this, cpu_of, current_in, current, is_current, with_kick, with_preemption, without_kick, without_marks, are_linux, is_by_linux, with_rules, at_callback, quiet, here, note_now};

use crate::call::{Insert, KeptCall};
use crate::counting;
use crate::cpu_set::{CpuSet, Marks};
use crate::eject::{Cause, Eject};
use crate::ids::{BUILTIN, GLOBAL, HELD, LOCAL_ON, PARKED, PARKED_PLACE};
use crate::notes::{Note, What};
use crate::passing::{Passing, Switch};
use crate::pending::unsettle;
use crate::timers::Alarm;
use scx_dsq::{Entry, Queues};
use scx_isa::{Callback, Rules, TaskId};
use scx_sched_tasks::{Task, Tasks};
use scx_vm::Arg;
use scx_weights::Tree;
use std::alloc::{AllocError, Global};
use std::marker::Model;

/// The clock, tasks, processors, queues and weights, with the callback at hand and what it noted.
///
/// Tasks, processors and groups are numbered from 0.
#[derive(Drop)]
pub struct World {
    pub(crate) clock: u64,
    pub(crate) tasks: Tasks,
    /// The task that runs on each processor.
    pub(crate) cpus: Vec<Option<u16>>,
    /// The processors on which a task runs, one bit each.
    pub(crate) busy: u64,
    /// For each task the processors on which it runs, one bit each.
    pub(crate) running_on: Vec<u64>,
    /// The processor on which a scheduling cycle is under way.
    pub(crate) cycling: Option<u32>,
    /// Facts that an event by Linux rules keeps until it ends.
    pub(crate) passing: Passing,
    /// By whose rules the machine goes while the policy is in force.
    pub(crate) rules: Rules,
    /// The processors that were chosen for a task, and on which no cycle has begun since.
    pub(crate) claimed: CpuSet,
    /// The processors that look for work as the event ends.
    pub(crate) kicked: CpuSet,
    /// Those on which the task that runs loses its slice then.
    pub(crate) preempted: CpuSet,
    /// True if the host tells the policy which CPUs are idle.
    pub(crate) tracks_idle: bool,
    /// For each timer of the policy its alarm, if it was started.
    pub(crate) timers: Vec<Option<Alarm>>,
    /// The number from which the next random one is made.
    pub(crate) random: u64,
    pub(crate) queues: Queues,
    pub(crate) tree: Tree,
    pub(crate) call: KeptCall,
    /// The virtual time of the built-in scheduler.
    pub(crate) builtin_clock: u64,
    /// Why and when the policy was put out of force.
    pub(crate) ejected: Option<Eject>,
    pub(crate) notes: Vec<Note>,
    /// True if all parked tasks are known to be throttled.
    pub(crate) parked_throttled: bool,
    /// True if the machine goes by Linux rules.
    pub(crate) by_linux: bool,
    /// CPUs that may be idle with a task in their local queue, one bit each. Under Linux rules all others are known not
    /// to be.
    pub(crate) unsettled: u64,
}

impl Model for World {
    ghost use Rattle.scx_sched_world.specs.World.{WorldState};
    ghost use Rattle.scx_sched_world.specs.Kept.{state_of, IsKept};

    ghost Value = { WorldState };

    ghost view = { state_of };

    ghost invariant = { IsKept };
}

impl World {
    /// A world in which no task runs or waits, with that number of timers. All memory is taken here.
    #[tactic(auto, using(crate::proofs::Busy::none_busy))]
    pub fn new(alloc: Global, tree: Tree, cpus: usize, timers: u8) -> Result<World, AllocError>
        requires { cpus ≤ 64 }
        ensures world { IfOk result (λ world.
            world ≡ with_timers (first_world tree cpus) timers) }
        ensures few { IfOk result (λ world. world.queues.pushes ≡ 0) }
        ensures flags { OnOk result (length tree.active ≡ length tree.homes) }
    {
        let count = tree.tasks() as usize;
        let tasks = Tasks::new(alloc, count);
        let running = vec![in alloc; None; cpus];
        let running_on = vec![in alloc; 0; count];
        let queues = own_queues(alloc, cpus, count);
        let notes = Vec::with_capacity(alloc, 4096);
        let timers = vec![in alloc; None; usize::from(timers)];
        match (tasks, running, running_on, queues, notes, timers) {
            (Ok(tasks), Ok(cpus), Ok(running_on), Ok(queues), Ok(notes), Ok(timers)) => Ok(World {
                clock: 0,
                tasks,
                cpus,
                busy: 0,
                running_on,
                cycling: None,
                passing: Passing::NOTHING,
                rules: Rules::Plain,
                claimed: CpuSet::EMPTY,
                kicked: CpuSet::EMPTY,
                preempted: CpuSet::EMPTY,
                tracks_idle: true,
                timers,
                random: 0,
                queues,
                tree,
                call: KeptCall::NONE,
                builtin_clock: 0,
                ejected: None,
                notes,
                parked_throttled: false,
                by_linux: false,
                unsettled: u64::MAX,
            }),
            (tasks, cpus, running_on, queues, notes, timers) => {
                drop(tasks);
                drop(cpus);
                drop(running_on);
                drop(queues);
                drop(notes);
                drop(timers);
                drop(tree);
                Err(AllocError)
            }
        }
    }

    pub fn clock(&self) -> u64
        ensures { result ≡ self.now.clock }
    {
        let clock = self.clock;
        clock
    }

    /// The clock after this millisecond.
    pub fn next_clock(&self) -> u64
        ensures { result ≡ self.now.clock + 1 }
    {
        self.clock + 1
    }

    // ---- tasks

    /// The number of tasks.
    pub fn tasks(&self) -> u16
        ensures tasks { result ≡ length self.now.tasks }
        ensures few { result ≤ 1024 }
    {
        self.tasks.len() as u16
    }

    pub fn has_task(&self, task: u16) -> bool
        ensures { result ≡ nat_lt task (length self.now.tasks) }
    {
        (task as usize) < self.tasks.len()
    }

    /// The record of a task; all is 0 where there is none.
    pub fn task(&self, task: u16) -> Task
        ensures { result ≡ task_at self.now task }
    {
        self.tasks.get(task)
    }

    /// The length of the task's wait, in milliseconds; 0 if it isn't waiting.
    pub fn wait(&self, task: u16) -> u64
        ensures { result ≡ wait self.now task }
    {
        self.task(task).wait(self.clock)
    }

    /// The task of the least number that has waited longer than the limit.
    #[inline(always)]
    pub fn first_overdue(&mut self, limit: u64) -> Option<u16>
        ensures answer { result ≡ first_overdue self.old limit }
        ensures world { self.new ≡ self.old }
    {
        self.tasks.first_overdue(self.clock, limit)
    }

    pub(crate) fn set_task(&mut self, task: u16, facts: Task)
        ensures { self.new ≡ with_task self.old task facts }
    {
        self.tasks.set(task, facts);
    }

    pub fn is_runnable(&self, task: u16) -> bool
        requires { task < length self.now.tasks }
        ensures { result ≡ is_runnable self.now task }
    {
        self.tree.is_active(u32::from(task))
    }

    /// The queue in which the task waits or is parked.
    pub fn queue_of(&self, task: u16) -> Option<u64>
        ensures { result ≡ queue_of self.now.queues task }
    {
        if (task as usize) < self.queues.tasks() {
            self.queues.queue_of(u32::from(task))
        } else {
            None
        }
    }

    /// Where the task waits or is parked, by which rank, and how many pushes were accepted before it.
    pub fn entry(&self, task: u16) -> Option<Entry>
        ensures { result ≡ entry_of self.now.queues task }
    {
        if (task as usize) < self.queues.tasks() {
            counting::entry(&self.queues, u32::from(task))
        } else {
            None
        }
    }

    /// The number of pushes that the queues accepted.
    pub fn pushes(&self) -> u64
        ensures { result ≡ self.now.queues.pushes }
    {
        self.queues.pushes()
    }

    /// The id of the queue at that place, in the order in which they were created; none after the last one. The
    /// machine's own queues are the first ones.
    pub fn queue_at(&self, place: usize) -> Option<u64>
        ensures { result ≡ slice_get self.now.queues.ids place }
    {
        self.queues.id_at(place)
    }

    /// True if the task waits in a queue, and isn't parked.
    pub fn waits(&self, task: u16) -> bool
        ensures { result ≡ waits self.now task }
    {
        match self.queue_of(task) {
            Some(queue) => queue != PARKED,
            None => false,
        }
    }

    /// A task as a program is given it.
    pub fn pointer(task: u16) -> Arg
        ensures { result ≡ task_argument task }
    {
        Arg::Task(TaskId(task))
    }

    // ---- processors

    /// The number of CPUs.
    pub fn cpus(&self) -> u32
        ensures cpus { result ≡ length self.now.cpus }
        ensures few { result ≤ 64 }
    {
        self.cpus.len() as u32
    }

    pub fn has_cpu(&self, cpu: u32) -> bool
        ensures { result ≡ nat_lt cpu (length self.now.cpus) }
    {
        (cpu as usize) < self.cpus.len()
    }

    /// The task that runs on the processor.
    pub fn running(&self, cpu: u32) -> Option<u16>
        ensures { result ≡ running self.now cpu }
    {
        if (cpu as usize) < self.cpus.len() {
            self.cpus[cpu as usize]
        } else {
            None
        }
    }

    #[inline(always)]
    pub(crate) fn set_cpu(&mut self, cpu: u32, task: Option<u16>)
        ensures { self.new ≡ with_cpu self.old cpu task }
    {
        if (cpu as usize) < self.cpus.len() {
            unsettle(&mut self.unsettled, self.by_linux, Some(cpu));
            let before = self.cpus[cpu as usize];
            change_running(&mut self.running_on, before, task, cpu);
            self.cpus[cpu as usize] = task;
            self.busy = with_bit(self.busy, cpu, task.is_some());
        }
    }

    /// The processor on which the task runs.
    pub fn cpu_of(&self, task: u16) -> Option<u32>
        ensures { result ≡ cpu_of self.now task }
    {
        if (task as usize) < self.running_on.len() {
            return lowest_bit(self.running_on[task as usize]);
        }
        match cpu_of(&self.cpus, task) {
            Some(cpu) => Some(cpu as u32),
            None => None,
        }
    }

    /// A scheduling cycle begins on the CPU; with none the one that is under way ends.
    #[inline(always)]
    pub fn set_cycling(&mut self, cpu: Option<u32>)
        ensures world { self.new ≡ with_cycling self.old cpu }
        ensures few { self.new.queues.pushes ≡ self.old.queues.pushes }
    {
        if !self.by_linux {
            self.cycle_on(cpu);
            return;
        }
        self.cycle_by_linux(cpu);
    }

    /// As a cycle begins by Linux rules, the CPU begins to switch, and a claim on it ends. As one ends, all that was
    /// kept for it is forgotten.
    fn cycle_by_linux(&mut self, cpu: Option<u32>)
        requires { is_by_linux self.old ≡ true }
        ensures world { self.new ≡ cycling_by_linux self.old cpu }
        ensures few { self.new.queues.pushes ≡ self.old.queues.pushes }
    {
        match cpu {
            Some(cpu) => {
                self.switch_by_linux(cpu);
                self.claimed = self.claimed.but(cpu);
            }
            None => self.passing = Passing::NOTHING,
        }
        self.cycle_on(cpu);
    }

    /// The cycle that is under way ends. Facts that were kept for it stay known.
    pub fn end_cycle(&mut self)
        ensures world { self.new ≡ out_of_cycle self.old }
        ensures few { self.new.queues.pushes ≡ self.old.queues.pushes }
    {
        self.cycle_on(None);
    }

    /// The cycle that is under way is one on that CPU, or there is none.
    #[inline(always)]
    fn cycle_on(&mut self, cpu: Option<u32>)
        ensures { self.new ≡ record self.old { cycling = cpu } }
    {
        unsettle(&mut self.unsettled, self.by_linux, self.cycling);
        self.cycling = cpu;
    }

    /// By Linux rules the CPU begins to go over to another task, unless it did so before in this event. For helpers the
    /// task that runs there stays the current one until a cycle ends there.
    #[inline(always)]
    pub fn begin_switch(&mut self, cpu: u32)
        ensures world { self.new ≡ with_switch self.old cpu }
        ensures few { self.new.queues.pushes ≡ self.old.queues.pushes }
    {
        if self.by_linux {
            self.switch_by_linux(cpu);
        }
    }

    /// By Linux rules the CPU begins to go over to another task, unless it did so before.
    fn switch_by_linux(&mut self, cpu: u32)
        requires { is_by_linux self.old ≡ true }
        ensures world { self.new ≡ with_switch self.old cpu }
        ensures few { self.new.queues.pushes ≡ self.old.queues.pushes }
    {
        if self.passing.switching.is_none() {
            let from = self.running(cpu);
            self.passing.switching = Some(Switch { cpu, from });
        }
    }

    /// The task went to sleep from the CPU on which a cycle is to begin.
    pub fn tell_slept(&mut self, task: u16)
        ensures world { self.new ≡ with_slept self.old task }
        ensures few { self.new.queues.pushes ≡ self.old.queues.pushes }
    {
        self.passing.slept = Some(task);
    }

    /// The task that went to sleep from the CPU on which a cycle is under way.
    #[inline(always)]
    pub fn slept(&self) -> Option<u16>
        ensures { result ≡ self.now.passing.slept }
    {
        let slept = self.passing.slept;
        slept
    }

    /// A task is woken from that CPU, or from none any more.
    pub fn tell_waker(&mut self, cpu: Option<u32>)
        ensures world { self.new ≡ with_waker self.old cpu }
        ensures few { self.new.queues.pushes ≡ self.old.queues.pushes }
    {
        self.passing.waker = cpu;
    }

    /// Facts that an event by Linux rules keeps until it ends.
    pub fn passing(&self) -> Passing
        ensures { result ≡ self.now.passing }
    {
        self.passing
    }

    /// The task that ran on the CPU as the last cycle there ended.
    pub fn current(&self, cpu: u32) -> Option<u16>
        ensures { result ≡ current self.now cpu }
    {
        match self.passing.switching {
            Some(switch) => self.current_in(switch, cpu),
            None => self.running(cpu),
        }
    }

    /// The current task of the CPU during that switch.
    fn current_in(&self, switch: Switch, cpu: u32) -> Option<u16>
        ensures { result ≡ current_in (Some switch) self.now cpu }
    {
        if switch.cpu == cpu {
            switch.from
        } else {
            self.running(cpu)
        }
    }

    /// True if the task is the current one of a CPU.
    pub fn is_current(&self, task: u16) -> bool
        ensures { result ≡ is_current self.now task }
    {
        for cpu in 0..self.cpus() {
            if self.is_current_on(task, cpu) {
                return true;
            }
        }
        false
    }

    /// True if the task is the current one of that CPU.
    fn is_current_on(&self, task: u16, cpu: u32) -> bool
        ensures { result ≡ is_this task (current self.now cpu) }
    {
        self.current(cpu) == Some(task)
    }

    // ---- kicks

    /// The processor looks for work as the event ends.
    pub fn kick(&mut self, cpu: u32)
        ensures world { self.new ≡ with_kick self.old cpu }
        ensures few { self.new.queues.pushes ≡ self.old.queues.pushes }
    {
        self.kicked = self.kicked.and(cpu);
    }

    /// The processor looks for work as the event ends, and the task that runs there loses its slice first.
    pub fn preempt(&mut self, cpu: u32)
        ensures world { self.new ≡ with_preemption self.old cpu }
        ensures few { self.new.queues.pushes ≡ self.old.queues.pushes }
    {
        self.kicked = self.kicked.and(cpu);
        self.preempted = self.preempted.and(cpu);
    }

    /// The processor begins to look for work, and is kicked no more.
    pub fn end_kick(&mut self, cpu: u32)
        ensures world { self.new ≡ without_kick self.old cpu }
        ensures few { self.new.queues.pushes ≡ self.old.queues.pushes }
    {
        self.kicked = self.kicked.but(cpu);
        self.preempted = self.preempted.but(cpu);
    }

    /// Forgets which CPUs were claimed, kicked and preempted.
    pub fn forget_marks(&mut self)
        ensures world { self.new ≡ without_marks self.old }
        ensures few { self.new.queues.pushes ≡ self.old.queues.pushes }
    {
        self.claimed = CpuSet::EMPTY;
        self.kicked = CpuSet::EMPTY;
        self.preempted = CpuSet::EMPTY;
    }

    /// The CPUs that are claimed, kicked and preempted.
    pub fn marks(&self) -> Marks
        ensures { result ≡ marks_of self.now }
    {
        Marks {
            claimed: self.claimed,
            kicked: self.kicked,
            preempted: self.preempted,
        }
    }

    /// True if the processor was kicked, and hasn't looked for work since.
    #[inline(always)]
    pub fn is_kicked(&self, cpu: u32) -> bool
        ensures { result ≡ is_in_set self.now.kicked cpu }
    {
        self.kicked.has(cpu)
    }

    /// True if the task that runs there loses its slice as the processor looks for work.
    #[inline(always)]
    pub fn is_preempted(&self, cpu: u32) -> bool
        ensures { result ≡ is_in_set self.now.preempted cpu }
    {
        self.preempted.has(cpu)
    }

    // ---- rules

    /// By whose rules the machine goes while the policy is in force.
    pub fn rules(&self) -> Rules
        ensures { result ≡ self.now.rules }
    {
        let rules = self.rules;
        rules
    }

    /// True if the machine goes by Linux rules: the policy does, and is in force.
    #[inline(always)]
    pub fn is_by_linux(&self) -> bool
        ensures { result ≡ is_by_linux self.now }
    {
        self.by_linux
    }

    /// From now on the machine goes by these rules.
    pub fn set_rules(&mut self, rules: Rules)
        ensures world { self.new ≡ with_rules self.old rules }
        ensures few { self.new.queues.pushes ≡ self.old.queues.pushes }
    {
        let linux = goes_by_linux(rules, self.ejected);
        self.rules = rules;
        self.by_linux = linux;
        self.unsettled = u64::MAX;
    }

    // ---- weights

    /// True if a group has a quota. Without one, no task is ever throttled.
    pub fn is_limited(&self) -> bool
        ensures { result ≡ has_quota self.now.tree.groups }
    {
        self.tree.is_limited()
    }

    /// True if the task's group, or one that it lies below, has used all of its quota.
    pub fn is_throttled(&self, task: u16) -> bool
        ensures { result ≡ is_throttled self.now task }
    {
        self.has_task(task) && self.tree.throttled(u32::from(task))
    }

    /// True if all parked tasks are throttled. They are looked at only where that isn't known: after a period of a
    /// throttled group has begun.
    #[inline(always)]
    pub fn are_parked_throttled(&mut self) -> bool
        ensures throttled { result ≡ true → NobodyIsFree self.old }
        ensures all { NobodyIsFree self.old → result ≡ true }
        ensures world { self.new ≡ self.old }
        ensures few { self.new.queues.pushes ≡ self.old.queues.pushes }
    {
        if self.parked_throttled {
            return true;
        }
        self.learn_parked()
    }

    /// `are_parked_throttled`, where it isn't known yet.
    #[inline(never)]
    fn learn_parked(&mut self) -> bool
        ensures throttled { result ≡ true → NobodyIsFree self.old }
        ensures all { NobodyIsFree self.old → result ≡ true }
        ensures world { self.new ≡ self.old }
        ensures few { self.new.queues.pushes ≡ self.old.queues.pushes }
    {
        self.parked_throttled = self.is_nobody_free();
        self.parked_throttled
    }

    /// True if no task is parked.
    fn is_nobody_parked(&self) -> bool
        ensures { result ≡ true → NobodyIsFree self.now }
    {
        self.queues.front_at(PARKED_PLACE, PARKED).is_none()
    }

    /// True if no parked task may run again.
    fn is_nobody_free(&self) -> bool
        ensures throttled { result ≡ true
            → (t : ℕ) → t < length self.now.tasks → StaysParked self.now t }
        ensures all { NobodyIsFree self.now → result ≡ true }
    {
        if self.is_nobody_parked() {
            return true;
        }
        for task in 0..self.tasks() {
            if !self.stays_parked(task) {
                return false;
            }
        }
        true
    }

    /// True if the task isn't parked, or may not run.
    fn stays_parked(&self, task: u16) -> bool
        ensures throttled { result ≡ true → StaysParked self.now task }
        ensures all { StaysParked self.now task → result ≡ true }
    {
        self.queue_of(task) != Some(PARKED) || self.is_throttled(task)
    }

    /// The usage of the group: the time that tasks in it and below it have run in its period, in milliseconds.
    pub fn usage(&self, group: u32) -> u64
        requires { group < length self.now.tree.groups }
        ensures { result ≡ usage_of self.now.tree group }
    {
        self.tree.usage(group)
    }

    /// The number of groups.
    pub fn groups(&self) -> u32
        ensures { result ≡ length self.now.tree.groups }
    {
        self.tree.groups()
    }

    // ---- the callback at hand

    /// A callback begins, with that task and processor at hand.
    pub fn begin(&mut self, callback: Callback, task: u16, cpu: u32)
        ensures { self.new ≡ at_callback self.old callback task cpu }
    {
        self.notes.clear();
        self.call.begin(callback, task, cpu);
    }

    /// Forgets the notes.
    pub fn quiet(&mut self)
        ensures { self.new ≡ quiet self.old }
    {
        self.notes.clear();
    }

    /// The notes of the callback at hand.
    pub fn notes(&self) -> &[Note]
        ensures { result.now ≡ self.now.notes }
    {
        &self.notes
    }

    /// A note of that, at this clock.
    pub fn note(&self, what: What) -> Note
        ensures { result ≡ note_now self.now what }
    {
        Note {
            clock: self.clock,
            what,
        }
    }

    /// Where the callback wants the task at hand to wait.
    pub fn insert(&self) -> Option<Insert>
        ensures { result ≡ self.now.call.insert }
    {
        self.call.insert()
    }

    /// The task at hand is to wait there.
    #[inline(always)]
    pub fn keep_insert(&mut self, insert: Insert)
        ensures world { self.new ≡ with_insert self.old insert }
        ensures few { self.new.queues.pushes ≡ self.old.queues.pushes }
    {
        self.call.keep_insert(insert);
    }

    /// The callback at hand moved a task, or didn't.
    pub fn set_moved(&mut self, moved: bool)
        ensures world { self.new
            ≡ record self.old { call = record self.old.call { has_moved = moved } } }
        ensures few { self.new.queues.pushes ≡ self.old.queues.pushes }
    {
        self.call.has_moved = moved;
    }

    /// True if the callback moved a task to a local queue.
    pub fn has_moved(&self) -> bool
        ensures { result ≡ self.now.call.has_moved }
    {
        self.call.has_moved
    }

    /// The first fault or exit of the callback.
    #[inline(always)]
    pub fn cause(&self) -> Option<Cause>
        ensures { result ≡ self.now.call.cause }
    {
        self.call.cause()
    }

    /// The CPU on which the callback at hand runs.
    #[inline(always)]
    pub fn here(&self) -> u32
        ensures { result ≡ here self.now }
    {
        match self.passing.waker {
            Some(waker) => waker,
            None => self.call.cpu,
        }
    }
}

/// True if a machine with these rules goes by Linux rules: they are those of a kernel, and the policy wasn't ejected.
fn goes_by_linux(rules: Rules, ejected: Option<Eject>) -> bool
    ensures { result ≡ are_linux rules && is_none ejected }
{
    are_linux(rules) && ejected.is_none()
}

/// True if the rules are those of a kernel.
fn are_linux(rules: Rules) -> bool
    ensures { result ≡ are_linux rules }
{
    match rules {
        Rules::Plain => false,
        Rules::Linux => true,
    }
}

/// The machine's own queues.
fn own_queues(alloc: Global, cpus: usize, tasks: usize) -> Result<Queues, AllocError>
    requires { cpus ≤ 64 }
    ensures queues { IfOk result (λ queues. queues.state ≡ first_queues cpus tasks) }
    ensures tasks { IfOk result (λ queues. task_count queues.state ≡ tasks) }
    ensures few { IfOk result (λ queues. queues.state.pushes ≡ 0) }
{
    let mut queues = Queues::new(alloc, 20 + cpus, tasks)?;
    let _global = queues.create(GLOBAL);
    let _held = queues.create(HELD);
    let _builtin = queues.create(BUILTIN);
    let _parked = queues.create(PARKED);
    add_locals(&mut queues, cpus);
    Ok(queues)
}

/// A local queue for each processor.
fn add_locals(queues: &mut Queues, cpus: usize)
    requires { cpus ≤ 64 }
    ensures queues { queues.new.state ≡ with_locals cpus queues.old.state }
    ensures tasks { task_count queues.new.state ≡ task_count queues.old.state }
    ensures few { queues.new.state.pushes ≡ queues.old.state.pushes }
{
    for cpu in 0..cpus {
        let _made = queues.create(LOCAL_ON + cpu as u64);
    }
}

/// The bits with that one set or cleared.
#[inline(always)]
#[tactic(auto, using(crate::proofs::Busy::set_here, crate::proofs::Busy::set_others, crate::proofs::Busy::cleared_here, crate::proofs::Busy::cleared_others))]
pub(crate) fn with_bit(bits: u64, at: u32, set: bool) -> u64
    requires { at < 64 }
    ensures here { bit_at result at ≡ one_if set }
    ensures others { (i : ℕ) → i < 64 → i ≢ at → bit_at result i ≡ bit_at bits i }
{
    if set {
        bits | 1 << at
    } else {
        bits & !(1 << at)
    }
}

/// The lowest bit that is set.
#[inline(always)]
pub(crate) fn lowest_bit(bits: u64) -> Option<u32>
    ensures { result ≡ lowest_bit bits }
{
    if bits == 0 {
        None
    } else {
        Some(bits.trailing_zeros())
    }
}

/// On the processor runs another task than before, or none.
#[inline(always)]
fn change_running(running: &mut [u64], before: Option<u16>, after: Option<u16>, cpu: u32)
    requires { cpu < 64 }
    ensures count { length running.new ≡ length running.old }
    ensures here { (t : ℕ) → t < length running.old
        → bit_at (slice_index_or running.old t 0) cpu ≡ one_if (is_this t before)
        → bit_at (slice_index_or running.new t 0) cpu ≡ one_if (is_this t after) }
    ensures others { (t c : ℕ) → c < 64 → c ≢ cpu
        → bit_at (slice_index_or running.new t 0) c ≡ bit_at (slice_index_or running.old t 0) c }
{
    set_running(running, before, cpu, false);
    set_running(running, after, cpu, true);
}

/// The task runs on the processor, or doesn't any more.
#[inline(always)]
#[tactic(auto, using(crate::proofs::Running::set_one, crate::proofs::Running::set_another))]
fn set_running(running: &mut [u64], task: Option<u16>, cpu: u32, runs: bool)
    requires { cpu < 64 }
    ensures count { length running.new ≡ length running.old }
    ensures here { (t : ℕ) → t < length running.old → task ≡ Some t
        → bit_at (slice_index_or running.new t 0) cpu ≡ one_if runs }
    ensures others { (t c : ℕ) → c < 64 → (c ≡ cpu → task ≢ Some t)
        → bit_at (slice_index_or running.new t 0) c ≡ bit_at (slice_index_or running.old t 0) c }
{
    if let Some(task) = task {
        if (task as usize) < running.len() {
            running[task as usize] = with_bit(running[task as usize], cpu, runs);
        }
    }
}

/// The lowest processor on which the task runs.
fn cpu_of(cpus: &[Option<u16>], task: u16) -> Option<usize>
    ensures at { result ≡ position (is_this task) cpus.now }
    ensures within { IfSome result (λ i. i < length cpus.now) }
{
    cpus.iter().position(|on| match on {
        Some(other) => task == *other,
        None => false,
    })
}
