ghost use Rattle.std.specs.Prelude.{◌≡◌, ℕ, ◌+◌, ◌^◌, ◌<◌, ◌≤◌, length, false, is_some, IfSome};
ghost use Rattle.scx_dsq.specs.declared.entries.Entry.{Entry};
ghost use Rattle.scx_dsq.specs.declared.entries.Rank.TheVariants.{Fifo};
ghost use Rattle.scx_dsq.specs.Calls.{after_push};
ghost use Rattle.scx_dsq.specs.Queues.{IsQueueAt, Waits, entry_of, is_in, front_of, len_of, behind_of};
ghost use Rattle.scx_weights.specs.Hierarchy.{own_weight};
ghost use Rattle.scx_weights.specs.Limits.{usage_of, with_use};
ghost use Rattle.scx_weights.specs.Refusals.{max_weight};
ghost use Rattle.scx_sched_world.specs.Ids.{global, parked_queue, local_on};
ghost use Rattle.scx_sched_world.specs.World.{task_at, with_task, with_queues, with_tree};
ghost use Rattle.scx_sched_world.specs.Tasks.{after_wake, after_sleep, after_leave, homed, local_cpu, homed_at, after_local, given_slice, task_after_insert, key_by, rank_by, after_preempt_of, after_preempt_at, after_preempt, queued_by, after_enter, local_len, brought, next_for, fill_front, unbound_front, after_fill, after_stop, after_run, after_start, after_keep, after_cut_off, longer, after_switch, put_parked, after_take, let_go, ran_a_tick, after_tick, later, used_ms, slice_left, begun_periods, after_reweigh, after_own_weight};

use crate::call::Insert;
use crate::counting;
use crate::ids::{GLOBAL, GLOBAL_PLACE, LOCAL_ON, LOCAL_PLACES, PARKED, PARKED_PLACE};
use crate::pending::{unsettle, unsettle_at};
use crate::world::World;
use scx_dsq::Rank;
use scx_sched_tasks::DEFAULT_SLICE;

/// The steps of events in the world.
impl World {
    /// The task is runnable, and waits from now on.
    #[tactic(auto, using(crate::proofs::Parked::known_active))]
    pub fn wake(&mut self, task: u16)
        requires { task < length self.old.tasks }
        ensures world { self.new ≡ after_wake self.old task }
        ensures few { self.new.queues.pushes ≡ self.old.queues.pushes }
    {
        self.tasks.begin_wait(task, self.clock);
        self.tree.activate(u32::from(task));
    }

    /// The task isn't runnable, and waits no more.
    pub fn sleep(&mut self, task: u16)
        ensures world { self.new ≡ after_sleep self.old task }
        ensures few { self.new.queues.pushes ≡ self.old.queues.pushes }
    {
        if (task as usize) < self.tasks.len() {
            let mut facts = self.task(task);
            facts.since = None;
            self.set_task(task, facts);
            self.tree.deactivate(u32::from(task));
        }
    }

    /// The task comes into a queue, if that takes it so.
    #[inline(always)]
    pub(crate) fn push(&mut self, queue: u64, task: u16, rank: Rank)
        requires task { task < length self.old.tasks }
        requires few { self.old.queues.pushes < 2 ^ 63 }
        ensures world { self.new
            ≡ with_queues self.old (after_push self.old.queues queue task rank) }
        ensures few { self.new.queues.pushes ≤ self.old.queues.pushes + 1 }
    {
        if queue == PARKED {
            self.parked_throttled = false;
        }
        unsettle_at(&mut self.unsettled, self.by_linux, queue);
        counting::push(&mut self.queues, queue, u32::from(task), rank);
    }

    /// The front of the queue leaves it, and is answered.
    #[inline(always)]
    #[tactic(auto, using(crate::proofs::Parked::known_popped, crate::proofs::Places::popped))]
    pub(crate) fn pop(&mut self, queue: u64) -> Option<u16>
        ensures answer { result ≡ front_of self.old.queues queue }
        ensures known { IfSome result (λ t. t < length self.old.tasks) }
        ensures world { self.new ≡ after_take self.old queue }
        ensures left { IfSome result (λ t. self.new ≡ after_leave self.old t) }
        ensures few { self.new.queues.pushes ≡ self.old.queues.pushes }
    {
        let task = counting::pop(&mut self.queues, queue)?;
        Some(task as u16)
    }

    /// Takes the front out of the queue of that id, which is at that place, and returns it.
    #[inline(always)]
    #[tactic(auto, using(crate::proofs::Parked::known_popped, crate::proofs::Places::popped))]
    pub(crate) fn pop_at(&mut self, place: usize, queue: u64) -> Option<u16>
        requires { IsQueueAt self.old.queues place queue }
        ensures answer { result ≡ front_of self.old.queues queue }
        ensures known { IfSome result (λ t. t < length self.old.tasks) }
        ensures world { self.new ≡ after_take self.old queue }
        ensures left { IfSome result (λ t. self.new ≡ after_leave self.old t) }
        ensures few { self.new.queues.pushes ≡ self.old.queues.pushes }
    {
        let task = counting::pop_at(&mut self.queues, place, queue)?;
        Some(task as u16)
    }

    /// The front of the queue of all processors leaves it, and is answered.
    #[inline(always)]
    #[tactic(auto, using(crate::proofs::Parked::known_popped, crate::proofs::Places::popped))]
    fn pop_global(&mut self) -> Option<u16>
        ensures answer { result ≡ front_of self.old.queues global }
        ensures known { IfSome result (λ t. t < length self.old.tasks) }
        ensures world { self.new ≡ after_take self.old global }
        ensures left { IfSome result (λ t. self.new ≡ after_leave self.old t) }
        ensures few { self.new.queues.pushes ≡ self.old.queues.pushes }
    {
        let task = counting::pop_at(&mut self.queues, GLOBAL_PLACE, GLOBAL)?;
        Some(task as u16)
    }

    /// The front of the local queue of the processor leaves it, and is answered.
    #[inline(always)]
    #[tactic(auto, using(crate::proofs::Places::local_stands))]
    fn pop_local(&mut self, cpu: u32) -> Option<u16>
        ensures answer { result ≡ front_of self.old.queues (local_on cpu) }
        ensures known { IfSome result (λ t. t < length self.old.tasks) }
        ensures world { self.new ≡ after_take self.old (local_on cpu) }
        ensures few { self.new.queues.pushes ≡ self.old.queues.pushes }
    {
        let queue = LOCAL_ON + u64::from(cpu);
        if (cpu as usize) < self.cpus.len() {
            self.pop_at(LOCAL_PLACES + cpu as usize, queue)
        } else {
            self.pop(queue)
        }
    }

    /// The task comes to the end of the local queue of the processor.
    #[inline(always)]
    pub(crate) fn push_local(&mut self, cpu: u32, task: u16)
        requires task { task < length self.old.tasks }
        requires few { self.old.queues.pushes < 2 ^ 63 }
        ensures world { self.new ≡ after_local self.old cpu task }
        ensures few { self.new.queues.pushes ≤ self.old.queues.pushes + 1 }
        ensures notes { self.new.notes ≡ self.old.notes }
    {
        self.push_end(cpu, task);
        self.set_home(task, cpu);
    }

    /// The task comes to the end of that queue, and keeps its processor.
    #[inline(always)]
    #[tactic(auto, using(crate::proofs::Parked::known_pushed, crate::proofs::Places::pushed, crate::proofs::Places::local_stands))]
    fn push_end(&mut self, cpu: u32, task: u16)
        requires task { task < length self.old.tasks }
        requires few { self.old.queues.pushes < 2 ^ 63 }
        ensures world { self.new
            ≡ with_queues self.old (after_push self.old.queues (local_on cpu) task Fifo) }
        ensures few { self.new.queues.pushes ≤ self.old.queues.pushes + 1 }
    {
        let queue = LOCAL_ON + u64::from(cpu);
        if (cpu as usize) < self.cpus.len() {
            unsettle(&mut self.unsettled, self.by_linux, Some(cpu));
            let place = LOCAL_PLACES + cpu as usize;
            let _refused = self.queues.push_fifo_at(place, queue, u32::from(task));
        } else {
            self.push(queue, task, Rank::Fifo);
        }
    }

    /// The task leaves the queue in which it waits.
    #[tactic(auto, using(crate::proofs::Parked::known_removed, crate::proofs::Places::removed))]
    pub fn leave_queue(&mut self, task: u16)
        ensures world { self.new ≡ after_leave self.old task }
        ensures few { self.new.queues.pushes ≡ self.old.queues.pushes }
    {
        if (task as usize) < self.queues.tasks() {
            counting::remove(&mut self.queues, u32::from(task));
        }
    }

    /// The task goes into a queue, as the insert wants it to.
    #[inline(always)]
    pub fn enter(&mut self, task: u16, insert: Insert)
        requires few { self.old.queues.pushes < 2 ^ 63 }
        ensures world { self.new ≡ after_enter self.old task insert }
        ensures few { self.new.queues.pushes ≤ self.old.queues.pushes + 1 }
        ensures notes { self.new.notes ≡ self.old.notes }
    {
        if (task as usize) < self.tasks.len() {
            self.set_given(task, insert);
            self.queue_by(task, insert);
            self.preempt_by(insert);
        }
    }

    /// The task comes into the queue of the insert. By Linux rules its CPU is that of the queue from then on, if it is
    /// a local one.
    #[inline(always)]
    #[tactic(auto, using(crate::proofs::Entering::plain_queued))]
    fn queue_by(&mut self, task: u16, insert: Insert)
        requires task { task < length self.old.tasks }
        requires few { self.old.queues.pushes < 2 ^ 63 }
        ensures world { self.new ≡ queued_by self.old task insert }
        ensures few { self.new.queues.pushes ≤ self.old.queues.pushes + 1 }
        ensures notes { self.new.notes ≡ self.old.notes }
    {
        if self.by_linux {
            self.queue_by_linux(task, insert);
        } else {
            self.push(insert.queue, task, insert.rank);
        }
    }

    /// The task comes into the queue of the insert by Linux rules.
    #[inline(always)]
    fn queue_by_linux(&mut self, task: u16, insert: Insert)
        requires task { task < length self.old.tasks }
        requires few { self.old.queues.pushes < 2 ^ 63 }
        ensures world { self.new ≡ queued_by self.old task insert }
        ensures few { self.new.queues.pushes ≤ self.old.queues.pushes + 1 }
        ensures notes { self.new.notes ≡ self.old.notes }
    {
        let rank = self.rank_by(insert.rank);
        self.push(insert.queue, task, rank);
        self.set_home_at(task, insert.queue);
    }

    /// The rank by which a task is pushed that is to have that one.
    #[inline(always)]
    fn rank_by(&self, rank: Rank) -> Rank
        ensures { result ≡ rank_by self.now rank }
    {
        match rank {
            Rank::Fifo => Rank::Fifo,
            Rank::Front => Rank::Front,
            Rank::Vtime(time) => Rank::Vtime(self.key_by(time)),
        }
    }

    /// The key by which a queue of the policy orders that virtual time.
    #[inline(always)]
    fn key_by(&self, time: u64) -> u64
        ensures { result ≡ key_by self.now time }
    {
        if self.is_by_linux() {
            time.wrapping_add(1 << 63)
        } else {
            time
        }
    }

    /// The processor of a local queue.
    #[inline(always)]
    pub(crate) fn local_cpu(&self, queue: u64) -> Option<u32>
        ensures { result ≡ local_cpu self.now queue }
    {
        if queue >= LOCAL_ON && queue < LOCAL_ON + self.cpus.len() as u64 {
            Some((queue - LOCAL_ON) as u32)
        } else {
            None
        }
    }

    /// Under Linux rules the task's processor is that one from now on.
    #[inline(always)]
    pub fn set_home(&mut self, task: u16, cpu: u32)
        ensures world { self.new ≡ homed self.old task cpu }
        ensures few { self.new.queues.pushes ≡ self.old.queues.pushes }
        ensures notes { self.new.notes ≡ self.old.notes }
    {
        if self.is_by_linux() {
            let mut facts = self.task(task);
            facts.prev_cpu = cpu;
            self.set_task(task, facts);
        }
    }

    /// Under Linux rules the task's processor is that of the queue, if it is a local one.
    #[inline(always)]
    fn set_home_at(&mut self, task: u16, queue: u64)
        ensures world { self.new ≡ homed_at self.old task (local_cpu self.old queue) }
        ensures few { self.new.queues.pushes ≡ self.old.queues.pushes }
        ensures notes { self.new.notes ≡ self.old.notes }
    {
        if let Some(cpu) = self.local_cpu(queue) {
            self.set_home(task, cpu);
        }
    }

    /// An insert that preempts takes the slice of the task that runs on the CPU of its local queue.
    #[inline(always)]
    fn preempt_by(&mut self, insert: Insert)
        ensures world { self.new ≡ after_preempt self.old insert }
        ensures few { self.new.queues.pushes ≡ self.old.queues.pushes }
        ensures notes { self.new.notes ≡ self.old.notes }
    {
        if insert.preempts {
            self.preempt_at(insert.queue);
        }
    }

    /// The task that runs on the CPU of that local queue loses its slice.
    #[inline(never)]
    fn preempt_at(&mut self, queue: u64)
        ensures world { self.new ≡ after_preempt_at self.old (local_cpu self.old queue) }
        ensures few { self.new.queues.pushes ≡ self.old.queues.pushes }
        ensures notes { self.new.notes ≡ self.old.notes }
    {
        if let Some(cpu) = self.local_cpu(queue) {
            let task = self.running(cpu);
            self.preempt_of(cpu, task);
        }
    }

    /// A task that runs on the CPU loses its slice, and the CPU looks for work as the event ends; not where its own cycle
    /// is under way.
    fn preempt_of(&mut self, cpu: u32, task: Option<u16>)
        ensures world { self.new ≡ after_preempt_of self.old cpu task }
        ensures few { self.new.queues.pushes ≡ self.old.queues.pushes }
        ensures notes { self.new.notes ≡ self.old.notes }
    {
        let Some(task) = task else {
            return;
        };
        if self.cycling != Some(cpu) {
            self.cut_off(task);
            self.kick(cpu);
        }
    }

    /// The task that runs has no slice left.
    pub fn cut_off(&mut self, task: u16)
        ensures world { self.new ≡ after_cut_off self.old task }
        ensures few { self.new.queues.pushes ≡ self.old.queues.pushes }
    {
        self.tasks.set_slice(task, 0);
    }

    /// Gives the record of a task the slice and virtual time of its insert.
    #[inline(always)]
    #[tactic(auto, using(crate::proofs::Records::both_set))]
    fn set_given(&mut self, task: u16, insert: Insert)
        requires { task < length self.old.tasks }
        ensures { self.new
            ≡ with_task self.old task (task_after_insert (task_at self.old task) insert) }
    {
        self.set_slice(task, insert);
        if let Rank::Vtime(key) = insert.rank {
            self.tasks.set_vtime(task, key);
        }
    }

    /// The task has the slice of the insert; 0 keeps the one that it has, or makes 1 of 0.
    #[inline(always)]
    #[tactic(auto, using(crate::proofs::Records::as_before))]
    fn set_slice(&mut self, task: u16, insert: Insert)
        ensures { self.new ≡ with_task self.old task (given_slice (task_at self.old task) insert) }
    {
        if insert.slice != 0 {
            self.tasks.set_slice(task, insert.slice);
        } else if insert.refills && self.task(task).slice == 0 {
            self.tasks.set_slice(task, 1);
        }
    }

    /// The number of tasks in the CPU's local queue.
    #[inline(always)]
    #[tactic(auto, using(crate::proofs::Places::local_stands))]
    pub fn local_len(&self, cpu: u32) -> usize
        ensures { result ≡ local_len self.now cpu }
    {
        let queue = LOCAL_ON + u64::from(cpu);
        if (cpu as usize) < self.cpus.len() {
            self.queues.len_at(LOCAL_PLACES + cpu as usize, queue)
        } else {
            self.queues.len(queue)
        }
    }

    /// True if a task waits in the global queue.
    #[inline(always)]
    fn has_global(&self) -> bool
        ensures front { result ≡ is_some (front_of self.now.queues global) }
        ensures nobody { result ≡ false
            → (t : ℕ) (p : Entry) → ¬ Waits self.now.queues global t p }
    {
        self.queues.front_at(GLOBAL_PLACE, GLOBAL).is_some()
    }

    /// True if a task waits in the global queue that may run on the CPU.
    #[inline(always)]
    pub fn has_global_for(&self, cpu: u32) -> bool
        ensures { result ≡ is_some (next_for self.now global cpu) }
    {
        if self.binds() {
            self.next_for(GLOBAL, cpu).is_some()
        } else {
            self.has_global()
        }
    }

    /// Who was parked first.
    #[inline(always)]
    pub fn first_parked(&self) -> Option<u16>
        ensures { result ≡ front_of self.now.queues parked_queue }
    {
        let task = self.queues.front_at(PARKED_PLACE, PARKED)?;
        Some(task as u16)
    }

    /// Where the local queue is empty the first task of another that may run on the CPU comes to it, and is answered.
    #[inline(always)]
    #[tactic(auto, using(crate::proofs::Fronts::none_either))]
    pub fn fill(&mut self, queue: u64, cpu: u32) -> Option<u16>
        requires few { self.old.queues.pushes < 2 ^ 63 }
        ensures answer { result ≡ fill_front self.old queue cpu }
        ensures world { self.new ≡ after_fill self.old queue cpu }
        ensures few { self.new.queues.pushes ≤ self.old.queues.pushes + 1 }
    {
        if self.has_local(cpu) {
            return None;
        }
        let first = self.next_for(queue, cpu)?;
        self.leave_queue(first);
        self.push_local(cpu, first);
        Some(first)
    }

    /// Where the local queue is empty the first task of the queue of all CPUs that may run on this one comes to it, and
    /// is answered.
    #[inline(always)]
    #[tactic(auto, using(crate::proofs::Empty::fill_nobody))]
    pub fn fill_global(&mut self, cpu: u32) -> Option<u16>
        requires few { self.old.queues.pushes < 2 ^ 63 }
        ensures answer { result ≡ fill_front self.old global cpu }
        ensures world { self.new ≡ after_fill self.old global cpu }
        ensures few { self.new.queues.pushes ≤ self.old.queues.pushes + 1 }
    {
        if self.has_global() {
            self.fill_from_global(cpu)
        } else {
            None
        }
    }

    /// `fill_global`, where a task waits in that queue.
    #[inline(never)]
    fn fill_from_global(&mut self, cpu: u32) -> Option<u16>
        requires few { self.old.queues.pushes < 2 ^ 63 }
        ensures answer { result ≡ fill_front self.old global cpu }
        ensures world { self.new ≡ after_fill self.old global cpu }
        ensures few { self.new.queues.pushes ≤ self.old.queues.pushes + 1 }
    {
        if self.binds() {
            self.fill(GLOBAL, cpu)
        } else {
            self.fill_from_front(cpu)
        }
    }

    /// Where the local queue is empty the front of the queue of all CPUs comes to it, and is answered.
    #[inline(always)]
    #[tactic(auto, using(crate::proofs::Fronts::nobody_comes, crate::proofs::Fronts::none_either))]
    fn fill_from_front(&mut self, cpu: u32) -> Option<u16>
        requires few { self.old.queues.pushes < 2 ^ 63 }
        ensures answer { result ≡ unbound_front self.old global cpu }
        ensures world { self.new ≡ brought (unbound_front self.old global cpu) self.old cpu }
        ensures few { self.new.queues.pushes ≤ self.old.queues.pushes + 1 }
    {
        if self.has_local(cpu) {
            return None;
        }
        let task = self.pop_global()?;
        self.push_local(cpu, task);
        Some(task)
    }

    /// The task leaves its processor, and waits from now on.
    #[inline(always)]
    pub fn stop(&mut self, cpu: u32, task: u16)
        ensures world { self.new ≡ after_stop self.old cpu task }
        ensures few { self.new.queues.pushes ≡ self.old.queues.pushes }
    {
        self.tasks.begin_wait(task, self.clock);
        self.set_cpu(cpu, None);
    }

    /// The front of the local queue runs, waits no more, and is answered.
    #[inline(always)]
    pub fn start(&mut self, cpu: u32) -> Option<u16>
        ensures answer { result ≡ front_of self.old.queues (local_on cpu) }
        ensures world { self.new ≡ after_start self.old cpu }
        ensures few { self.new.queues.pushes ≡ self.old.queues.pushes }
    {
        let task = self.pop_local(cpu)?;
        self.tasks.end_wait(task, cpu);
        self.set_cpu(cpu, Some(task));
        Some(task)
    }

    /// The task leaves the queue in which it waits, and runs on the processor.
    #[inline(always)]
    pub fn run(&mut self, cpu: u32, next: u16)
        ensures world { self.new ≡ after_run self.old cpu next }
        ensures few { self.new.queues.pushes ≡ self.old.queues.pushes }
    {
        self.leave_queue(next);
        self.tasks.end_wait(next, cpu);
        self.set_cpu(cpu, Some(next));
    }

    /// True if the task waits in the local queue of the processor.
    #[inline(always)]
    pub fn is_local(&self, cpu: u32, task: u16) -> bool
        ensures { result ≡ is_in (local_on cpu) (entry_of self.now.queues task) }
    {
        self.queue_of(task) == Some(LOCAL_ON + u64::from(cpu))
    }

    /// The task before, if there is one, keeps the processor, and where it has no slice gets one.
    #[inline(always)]
    #[tactic(auto, using(crate::proofs::Records::as_before))]
    pub fn keep(&mut self, before: Option<u16>)
        ensures world { self.new ≡ after_keep self.old before }
        ensures few { self.new.queues.pushes ≡ self.old.queues.pushes }
    {
        if let Some(task) = before {
            if self.task(task).slice == 0 {
                self.tasks.set_slice(task, DEFAULT_SLICE);
            }
        }
    }

    /// The task begins to run, and its slice is a nanosecond longer.
    #[inline(always)]
    pub fn lengthen_slice(&mut self, task: u16)
        ensures world { self.new ≡ after_switch self.old task }
        ensures few { self.new.queues.pushes ≡ self.old.queues.pushes }
    {
        let slice = longer(self.task(task).slice);
        self.tasks.set_slice(task, slice);
    }

    /// The task at hand is parked, and waits no more.
    pub fn park(&mut self, task: u16)
        requires few { self.old.queues.pushes < 2 ^ 63 }
        ensures world { self.new ≡ put_parked self.old task }
        ensures few { self.new.queues.pushes ≤ self.old.queues.pushes + 1 }
    {
        if (task as usize) < self.tasks.len() {
            let mut facts = self.task(task);
            facts.since = None;
            self.set_task(task, facts);
            if !self.is_throttled(task) {
                self.parked_throttled = false;
            }
            let _refused = self.queues.push_fifo(PARKED, u32::from(task));
        }
    }

    /// The front of the queue leaves it, and is answered.
    pub fn take(&mut self, queue: u64) -> Option<u16>
        ensures answer { result ≡ front_of self.old.queues queue }
        ensures world { self.new ≡ after_take self.old queue }
        ensures left { IfSome result (λ t. self.new ≡ after_leave self.old t) }
        ensures few { self.new.queues.pushes ≡ self.old.queues.pushes }
    {
        self.pop(queue)
    }

    /// The front of the queue.
    pub fn front(&self, queue: u64) -> Option<u16>
        ensures { result ≡ front_of self.now.queues queue }
    {
        self.known_front(queue)
    }

    /// The front of the queue, a task that there is.
    #[inline(always)]
    pub(crate) fn known_front(&self, queue: u64) -> Option<u16>
        ensures answer { result ≡ front_of self.now.queues queue }
        ensures known { IfSome result (λ t. t < length self.now.tasks) }
    {
        let task = self.queues.front(queue)?;
        Some(task as u16)
    }

    /// The number of tasks in the queue.
    #[tactic(auto, using(crate::proofs::Few::few_in))]
    pub fn len(&self, queue: u64) -> usize
        ensures len { result ≡ len_of self.now.queues queue }
        ensures few { result ≤ 1024 }
    {
        self.queues.len(queue)
    }

    /// The task right after this one in its queue, if that is one in order of arrival.
    #[tactic(auto, using(crate::proofs::Few::nobody_past))]
    pub fn next_after(&self, task: u16) -> Option<u16>
        ensures { result ≡ behind_of self.now.queues task }
    {
        if (task as usize) >= self.queues.tasks() {
            return None;
        }
        match self.queues.next_after(u32::from(task)) {
            Some(next) => Some(next as u16),
            None => None,
        }
    }

    /// The task is parked no more, and waits from now on.
    pub fn let_go(&mut self, task: u16)
        ensures world { self.new ≡ let_go self.old task }
        ensures few { self.new.queues.pushes ≡ self.old.queues.pushes }
    {
        self.tasks.begin_wait(task, self.clock);
        self.leave_queue(task);
    }

    /// The task has run for a millisecond.
    pub fn run_tick(&mut self, task: u16)
        requires { (task_at self.old task).run_ns < 2 ^ 63 }
        ensures world { self.new ≡ after_tick self.old task }
        ensures few { self.new.queues.pushes ≡ self.old.queues.pushes }
    {
        let mut facts = self.task(task);
        if facts.slice != u64::MAX {
            facts.slice = facts.slice.saturating_sub(1_000_000);
        }
        facts.run_ns += 1_000_000;
        self.tasks.set_times(task, facts.slice, facts.run_ns);
    }

    /// A millisecond of a task that there is is charged to its groups.
    #[inline(always)]
    #[tactic(auto, using(crate::proofs::Parked::known_used))]
    fn charge_ms(&mut self, task: u16)
        requires known { task < length self.old.tasks }
        requires used { (g : ℕ) → usage_of self.old.tree g < 2 ^ 63 }
        ensures { self.new ≡ with_tree self.old (with_use self.old.tree task) }
    {
        self.tree.charge(u32::from(task));
    }

    /// A task that there is has run for a millisecond. Answers what is left of its slice.
    #[inline(always)]
    fn run_ms(&mut self, task: u16) -> u64
        requires known { task < length self.old.tasks }
        requires early { (task_at self.old task).run_ns < 2 ^ 63 }
        ensures answer { result ≡ (ran_a_tick (task_at self.old task)).slice }
        ensures world { self.new ≡ after_tick self.old task }
    {
        self.tasks.run_ms(task)
    }

    /// The task has run for a millisecond, which its groups have used. Answers what is left of its slice; none where
    /// it may not run any more.
    #[inline(always)]
    pub fn run_and_use_ms(&mut self, task: u16) -> Option<u64>
        requires early { (task_at self.old task).run_ns < 2 ^ 63 }
        requires used { (g : ℕ) → usage_of self.old.tree g < 2 ^ 63 }
        ensures answer { result ≡ slice_left self.new task }
        ensures world { self.new ≡ used_ms (after_tick self.old task) task }
        ensures few { self.new.queues.pushes ≡ self.old.queues.pushes }
    {
        if (task as usize) >= self.tasks.len() {
            return Some(0);
        }
        if self.is_limited() {
            return self.run_limited(task);
        }
        self.charge_ms(task);
        Some(self.run_ms(task))
    }

    /// `run_and_use_ms` of a task that there is, where a group has a quota.
    #[inline(never)]
    fn run_limited(&mut self, task: u16) -> Option<u64>
        requires known { task < length self.old.tasks }
        requires early { (task_at self.old task).run_ns < 2 ^ 63 }
        requires used { (g : ℕ) → usage_of self.old.tree g < 2 ^ 63 }
        ensures answer { result ≡ slice_left self.new task }
        ensures world { self.new ≡ used_ms (after_tick self.old task) task }
        ensures few { self.new.queues.pushes ≡ self.old.queues.pushes }
    {
        let left = self.run_ms(task);
        self.charge_ms(task);
        if self.tree.throttled(u32::from(task)) {
            None
        } else {
            Some(left)
        }
    }

    /// The groups of the task have used a millisecond.
    pub fn use_ms(&mut self, task: u16)
        requires { (g : ℕ) → usage_of self.old.tree g < 2 ^ 63 }
        ensures world { self.new ≡ used_ms self.old task }
        ensures few { self.new.queues.pushes ≡ self.old.queues.pushes }
    {
        if (task as usize) < self.tasks.len() {
            self.charge_ms(task);
        }
    }

    /// Periods of groups begin at this clock.
    #[inline(always)]
    #[tactic(auto, using(crate::proofs::Parked::known_turned))]
    pub fn begin_periods(&mut self)
        ensures world { self.new ≡ begun_periods self.old }
        ensures few { self.new.queues.pushes ≡ self.old.queues.pushes }
    {
        if self.tree.turn(self.clock) {
            self.parked_throttled = false;
        }
    }

    /// The clock grows by a millisecond.
    pub fn advance(&mut self)
        requires { self.old.clock < 2 ^ 32 }
        ensures { self.new ≡ later self.old }
    {
        self.clock += 1;
    }

    /// Sets the weight of a group, if there is such a group and weight.
    pub fn set_weight(&mut self, group: u32, weight: u32)
        ensures { self.new ≡ after_reweigh self.old group weight }
    {
        self.parked_throttled = false;
        let _refused = self.tree.set_weight(group, weight);
    }

    /// Sets the weight of its own that a task has, if there is such a task and weight.
    pub fn set_task_weight(&mut self, task: u16, weight: u32)
        ensures world { self.new ≡ after_own_weight self.old task weight }
        ensures few { self.new.queues.pushes ≡ self.old.queues.pushes }
    {
        self.parked_throttled = false;
        let _refused = self.tree.set_own_weight(u32::from(task), weight);
    }

    /// The weight of its own that the task has; 0 if there is no such task.
    pub fn own_weight(&self, task: u16) -> u32
        ensures weight { result ≡ own_weight self.now.tree task }
        ensures few { result ≤ max_weight }
    {
        self.tree.own_weight(u32::from(task))
    }
}

/// A slice that is a nanosecond longer; one that never ends stays.
#[inline(always)]
fn longer(slice: u64) -> u64
    ensures { result ≡ longer slice }
{
    if slice < u64::MAX - 1 {
        slice + 1
    } else {
        slice
    }
}
