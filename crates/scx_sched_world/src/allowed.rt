ghost use Rattle.std.specs.Prelude.{◌≡◌, ℕ, Bool, ◌^◌, ◌<◌, length, IfSome};
ghost use Rattle.std.specs.Int.{bit_at};
ghost use Rattle.scx_dsq.specs.Laws.{one_if};
ghost use Rattle.scx_dsq.specs.Queues.{front_of, only};
ghost use Rattle.scx_weights.specs.Hierarchy.{is_in_mask};
ghost use Rattle.scx_sched_world.specs.First.{with_first_home, at_first_homes};
ghost use Rattle.scx_sched_world.specs.Helpers.{cpu_meant, may_go, placing_fault, may_run_there, may_run_answer, after_asking_cpu, cpus_of};
ghost use Rattle.scx_sched_world.specs.Kept.{AreSetFor};
ghost use Rattle.scx_sched_world.specs.World.{binds, may_run, lowest_cpu, first_home, has_one_cpu};
ghost use Rattle.scx_sched_world.specs.Tasks.{next_for};

use crate::counting;
use crate::faults::Fault;
use crate::ids::LOCAL;
use crate::world::World;
use scx_dsq::TaskSet;
use scx_isa::{Callback, Rules};
use scx_weights::Tree;

/// The tasks that may run on a processor.
#[derive(Clone, Copy)]
pub struct AllowedOn<'a> {
    tree: &'a Tree,
    cpu: u32,
}

impl<'a> TaskSet for AllowedOn<'a> {
    ghost has = { λ s t. is_in_mask s.tree.now t s.cpu };

    fn has(&self, task: u32) -> bool {
        self.tree.is_in_mask(task, self.cpu)
    }
}

/// The processors on which tasks may run.
impl World {
    /// True if tasks are bound to processors.
    #[inline(always)]
    pub fn binds(&self) -> bool
        ensures { result ≡ binds self.now }
    {
        self.rules == Rules::Linux && self.tree.binds()
    }

    /// True if the task may run on the CPU.
    #[inline(always)]
    pub fn may_run(&self, task: u16, cpu: u32) -> bool
        ensures { result ≡ may_run self.now task cpu }
    {
        !self.binds() || self.tree.is_in_mask(u32::from(task), cpu)
    }

    /// The CPUs on which a bound task may run, one bit each.
    #[inline(always)]
    fn mask(&self, task: u16) -> u64
        ensures { (c : ℕ) → bit_at result c ≡ one_if (is_in_mask self.now.tree task c) }
    {
        self.tree.mask_of(u32::from(task))
    }

    /// The CPUs on which the task may run, one bit each.
    #[inline(always)]
    pub(crate) fn homes(&self, task: u16) -> u64
        ensures { (c : ℕ) → c < 64 → bit_at result c ≡ one_if (may_run self.now task c) }
    {
        if self.binds() {
            self.mask(task)
        } else {
            u64::MAX
        }
    }

    /// The lowest of these CPUs, one bit each.
    #[inline(always)]
    pub(crate) fn lowest_of(&self, bits: u64) -> Option<u32>
        ensures lowest { (p : ℕ → Bool) → AreSetFor bits self.now p → result ≡ lowest_cpu self.now p }
        ensures few { IfSome result (λ c. c < 64) }
    {
        let cpu = bits.trailing_zeros();
        if (cpu as usize) < self.cpus.len() {
            Some(cpu)
        } else {
            None
        }
    }

    /// The lowest CPU on which a bound task may run: 0 for others.
    pub fn first_home(&self, task: u16) -> u32
        ensures home { result ≡ first_home self.now task }
        ensures few { result < 64 }
    {
        if !self.binds() {
            return 0;
        }
        match self.lowest_of(self.mask(task)) {
            Some(cpu) => cpu,
            None => 0,
        }
    }

    /// True if the task may run on one CPU alone.
    pub fn has_one_cpu(&self, task: u16) -> bool
        ensures { result ≡ has_one_cpu self.now task }
    {
        if !self.binds() {
            return self.cpus() == 1;
        }
        let home = self.first_home(task);
        self.lowest_of(self.mask(task) & !(1 << home)).is_none()
    }

    /// Bound tasks were last on the lowest CPU on which they may run.
    pub fn place_at_first_homes(&mut self)
        ensures world { self.new ≡ at_first_homes self.old }
        ensures few { self.new.queues.pushes ≡ self.old.queues.pushes }
    {
        if !self.binds() {
            return;
        }
        for task in 0..self.tasks() {
            self.place_at_first_home(task);
        }
    }

    fn place_at_first_home(&mut self, task: u16)
        ensures { self.new ≡ with_first_home self.old task }
    {
        let mut facts = self.task(task);
        facts.prev_cpu = self.first_home(task);
        self.set_task(task, facts);
    }

    // ---- queues, as a CPU sees them

    /// The first task of the queue that may run on the CPU.
    pub fn next_for(&self, queue: u64, cpu: u32) -> Option<u16>
        ensures answer { result ≡ next_for self.now queue cpu }
        ensures known { IfSome result (λ t. t < length self.now.tasks) }
    {
        if self.binds() {
            self.next_bound(queue, cpu)
        } else {
            self.known_front(queue)
        }
    }

    /// The first task of the queue that has the CPU in its mask.
    fn next_bound(&self, queue: u64, cpu: u32) -> Option<u16>
        ensures answer { result
            ≡ front_of (only (λ t. is_in_mask self.now.tree t cpu) self.now.queues) queue }
        ensures known { IfSome result (λ t. t < length self.now.tasks) }
    {
        let allowed = AllowedOn {
            tree: &self.tree,
            cpu,
        };
        let task = counting::first_among(&self.queues, queue, &allowed)?;
        Some(task as u16)
    }

    // ---- inserts

    /// The CPU to whose local queue an insert into that queue brings a task, if that is known by now.
    fn cpu_meant(&self, queue: u64) -> Option<u32>
        ensures { result ≡ cpu_meant self.now queue }
    {
        if queue == LOCAL && self.call.callback == Callback::Dispatch {
            Some(self.call.cpu)
        } else {
            self.local_cpu(queue)
        }
    }

    /// True if the task may run there; also if one of both isn't given.
    fn may_go(&self, task: Option<u16>, cpu: Option<u32>) -> bool
        ensures { result ≡ may_go self.now task cpu }
    {
        match (task, cpu) {
            (Some(task), Some(cpu)) => self.may_run(task, cpu),
            (_, _) => true,
        }
    }

    /// Why the task may not be put into that queue: it would be in the local queue of a CPU on which it may not run.
    pub(crate) fn placing_fault(&self, task: Option<u16>, queue: u64) -> Option<Fault>
        ensures { result ≡ placing_fault self.now task queue }
    {
        if !self.binds() {
            return None;
        }
        if self.may_go(task, self.cpu_meant(queue)) {
            None
        } else {
            Some(Fault::NotAllowed)
        }
    }

    // ---- what policies are told

    /// True if it is a task that may run on the CPU.
    fn may_run_there(&self, task: Option<u16>, cpu: u32) -> bool
        ensures { result ≡ may_run_there self.now task cpu }
    {
        match task {
            Some(task) => self.may_run(task, cpu),
            None => false,
        }
    }

    /// Answers 1 if the task may run on the CPU.
    pub(crate) fn ask_may_run(&mut self, task: Option<u16>, cpu: u64) -> u64
        ensures answer { result ≡ may_run_answer self.old task cpu }
        ensures world { self.new ≡ after_asking_cpu self.old cpu }
        ensures few { self.new.queues.pushes ≡ self.old.queues.pushes }
    {
        if cpu >= self.cpus.len() as u64 {
            return self.fault(Fault::NoSuchCpu);
        }
        u64::from(self.may_run_there(task, cpu as u32))
    }

    /// The CPUs on which the task may run, one bit each.
    pub(crate) fn cpus_of(&self, task: u16) -> u64
        ensures cpus { result ≡ cpus_of self.now task }
        ensures fits { result < 2 ^ 64 }
    {
        if self.binds() {
            self.tree.mask_of(u32::from(task))
        } else {
            self.all_cpus()
        }
    }
}
