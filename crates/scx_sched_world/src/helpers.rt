ghost use Rattle.std.specs.Prelude.{◌≡◌, ◌+◌, ◌-◌, ◌*◌, ◌^◌, ◌<◌, ◌≤◌, false, ◌&&◌, length, is_some, is_none, IfSome, IfNone};
ghost use Rattle.scx_dsq.specs.Queues.{IsQueueAt, front_of};
ghost use Rattle.scx_sched_world.specs.Ids.{policy_end};
ghost use Rattle.scx_sched_world.specs.World.{with_note, is_by_linux};
ghost use Rattle.scx_sched_world.specs.Tasks.{after_leave, next_for};
ghost use Rattle.scx_sched_world.specs.declared.kicks.Kick.TheVariants.{IfIdle};
ghost use Rattle.scx_isa_semantics.specs.HostTables.{field_width};
ghost use Rattle.scx_sched_world.specs.Helpers.{invalid, with_cause, with_fault, after_exit, task_or_null, current_answer, after_asking_cpu, peek_answer, is_current_one, cpu_of_task, invalid_if, is_there, create_answer, after_create_dsq, queued_answer, after_queued, is_held, may_insert, queue_fault, rank_fault, or_fault, are_known, flags_fault, insert_fault, is_late, after_late, insert_or_fault, with_move, insert_answer, after_insert, after_release, pid_answer, placing_fault, moved_here, move_answer, after_move, kicked_so, kick_answer, after_kick, weight_at, weight_told, group_at, all_cpus, field_of};
ghost use Rattle.scx_sched_world.specs.Inserts.{insert_in_order, insert_by_vtime};

use crate::call::Insert;
use crate::eject::Cause;
use crate::faults::Fault;
use crate::flags::{are_linux_flags, arrival_rank, has_preempt};
use crate::ids::{GLOBAL, HELD, INVALID, LOCAL, LOCAL_IDS, LOCAL_ON, POLICY_END};
use crate::kicks::Kick;
use crate::notes::{Note, What};
use crate::world::World;
use scx_dsq::Rank;
use scx_isa::{Callback, Field, TaskId};
use scx_vm::Answer;

/// The helpers: each one's answer, and its change of the world.
impl World {
    /// Keeps the cause, if it is the first one of the callback.
    fn keep_cause(&mut self, cause: Cause)
        ensures world { self.new ≡ with_cause self.old cause }
        ensures few { self.new.queues.pushes ≡ self.old.queues.pushes }
    {
        if self.call.cause().is_none() {
            self.call.keep_cause(cause);
        }
    }

    /// Keeps the fault, if the callback had neither a fault nor an exit before.
    pub(crate) fn fault(&mut self, fault: Fault) -> u64
        ensures answer { result ≡ invalid }
        ensures world { self.new ≡ with_fault self.old fault }
    {
        self.keep_cause(Cause::Fault(fault));
        INVALID
    }

    /// The callback at hand puts the policy out of force as it ends, with that code.
    pub fn end_by(&mut self, code: u64)
        ensures world { self.new ≡ after_exit self.old code }
        ensures few { self.new.queues.pushes ≡ self.old.queues.pushes }
    {
        self.keep_cause(Cause::Exit(code.cast_signed()));
    }

    /// The place of the policy's queue of that id.
    #[inline(always)]
    fn place(&self, queue: u64) -> Option<usize>
        ensures there { is_some result ≡ is_there self.now queue }
        ensures at { IfSome result (λ place. IsQueueAt self.now.queues place queue) }
    {
        if queue < POLICY_END {
            self.queues.place(queue)
        } else {
            None
        }
    }

    /// True if the policy has that queue, and no task waits there that may run on the CPU.
    #[inline(always)]
    pub fn has_none_for(&self, queue: u64, cpu: u32) -> bool
        ensures { result ≡ (is_there self.now queue && is_none (next_for self.now queue cpu)) }
    {
        match self.place(queue) {
            Some(place) => self.has_none_at(place, queue, cpu),
            None => false,
        }
    }

    /// True if no task waits in the queue at that place that may run on the CPU.
    #[inline(always)]
    fn has_none_at(&self, place: usize, queue: u64, cpu: u32) -> bool
        requires { IsQueueAt self.now.queues place queue }
        ensures { result ≡ is_none (next_for self.now queue cpu) }
    {
        if self.binds() {
            self.next_for(queue, cpu).is_none()
        } else {
            self.queues.front_at(place, queue).is_none()
        }
    }

    #[tactic(auto, using(crate::proofs::Parked::known_created, crate::proofs::Places::created))]
    pub(crate) fn create(&mut self, queue: u64) -> u64
        ensures answer { result ≡ create_answer self.old queue }
        ensures world { self.new ≡ after_create_dsq self.old queue }
        ensures few { self.new.queues.pushes ≡ self.old.queues.pushes }
    {
        if queue >= POLICY_END {
            return self.fault(Fault::CannotCreate);
        }
        match self.queues.create(queue) {
            Ok(()) => 0,
            Err(_) => self.fault(Fault::CannotCreate),
        }
    }

    pub(crate) fn queued(&mut self, queue: u64) -> u64
        ensures answer { result ≡ queued_answer self.old queue }
        ensures world { self.new ≡ after_queued self.old queue }
        ensures few { self.new.queues.pushes ≡ self.old.queues.pushes }
    {
        match self.place(queue) {
            Some(place) => self.queues.len_at(place, queue) as u64,
            None => self.fault(Fault::NoSuchQueue),
        }
    }

    /// True if the machine holds the task.
    fn is_held(&self, task: Option<u16>) -> bool
        ensures { result ≡ is_held self.now task }
    {
        match task {
            Some(task) => self.queue_of(task) == Some(HELD),
            None => false,
        }
    }

    /// True if it is the task at hand, and not inserted yet; in dispatch, if it is held.
    fn may_insert(&self, task: Option<u16>) -> bool
        ensures { result ≡ may_insert self.now task }
    {
        match self.call.callback {
            Callback::Dispatch => self.is_held(task),
            Callback::SelectCpu | Callback::Enqueue => {
                self.call.insert().is_none() && task == Some(self.call.task)
            }
            _ => false,
        }
    }

    /// Why no task may be put into that queue.
    fn queue_fault(&self, queue: u64) -> Option<Fault>
        ensures { result ≡ queue_fault self.now queue }
    {
        if queue < POLICY_END {
            return if self.queues.has(queue) {
                None
            } else {
                Some(Fault::NoSuchQueue)
            };
        }
        if queue == GLOBAL || queue == LOCAL {
            return None;
        }
        if queue < LOCAL_ON {
            Some(Fault::NoSuchQueue)
        } else if queue < LOCAL_ON + self.cpus.len() as u64 {
            None
        } else if queue < LOCAL_ON + LOCAL_IDS {
            Some(Fault::NoSuchCpu)
        } else {
            Some(Fault::NoSuchQueue)
        }
    }

    /// Why no task may be put into that queue by that rank.
    fn rank_fault(&self, queue: u64, rank: Rank) -> Option<Fault>
        ensures { result ≡ rank_fault self.now queue rank }
    {
        if matches!(rank, Rank::Vtime(_)) && queue >= POLICY_END {
            Some(Fault::BuiltinVtime)
        } else if self.queues.would_mix(queue, rank) {
            Some(Fault::Mixed)
        } else {
            None
        }
    }

    /// Why no task may be put into a queue of the policy by that rank.
    #[inline(always)]
    #[tactic(auto, using(crate::proofs::Places::of_policy))]
    fn policy_fault(&self, queue: u64, rank: Rank) -> Option<Fault>
        requires { queue < policy_end }
        ensures { result ≡ or_fault (queue_fault self.now queue) (rank_fault self.now queue rank) }
    {
        match self.queues.place(queue) {
            Some(place) if self.queues.clashes_at(place, queue, rank) => Some(Fault::Mixed),
            Some(_) => None,
            None => Some(Fault::NoSuchQueue),
        }
    }

    /// True if the flags of an insert are known.
    #[inline(always)]
    fn are_known(&self, flags: u64) -> bool
        ensures { result ≡ are_known self.now flags }
    {
        if self.is_by_linux() {
            are_linux_flags(flags)
        } else {
            flags <= 1
        }
    }

    #[inline(always)]
    fn insert_fault(&self, task: Option<u16>, insert: &Insert, flags: u64) -> Option<Fault>
        ensures { result ≡ insert_fault self.now task insert.now flags }
    {
        if !self.may_insert(task) {
            return Some(Fault::CannotInsert);
        }
        if !self.are_known(flags) {
            return Some(Fault::UnknownFlag);
        }
        if insert.queue < POLICY_END {
            return self.policy_fault(insert.queue, insert.rank);
        }
        self.own_fault(task, insert)
    }

    /// Why the task may not be put into a queue of the machine's own.
    #[inline(always)]
    fn own_fault(&self, task: Option<u16>, insert: &Insert) -> Option<Fault>
        requires { policy_end ≤ insert.now.queue }
        ensures { result ≡ or_fault (queue_fault self.now insert.now.queue)
            (or_fault (rank_fault self.now insert.now.queue insert.now.rank)
            (placing_fault self.now task insert.now.queue)) }
    {
        if let Some(fault) = self.queue_fault(insert.queue) {
            return Some(fault);
        }
        match self.rank_fault(insert.queue, insert.rank) {
            Some(fault) => Some(fault),
            None => self.placing_fault(task, insert.queue),
        }
    }

    /// True if Linux rules pass over an insert of the task: in dispatch, where it isn't held.
    #[inline(always)]
    fn is_late(&self, task: Option<u16>) -> bool
        ensures { result ≡ is_late self.now task }
    {
        self.is_by_linux()
            && matches!(self.call.callback, Callback::Dispatch)
            && !self.is_held(task)
    }

    /// Passes over a late insert, but for its flags. It counts as one all the same.
    fn pass_over(&mut self, flags: u64) -> u64
        ensures answer { result ≡ invalid_if (flags_fault self.old flags) }
        ensures world { self.new ≡ after_late self.old (flags_fault self.old flags) }
        ensures few { self.new.queues.pushes ≡ self.old.queues.pushes }
    {
        if !self.are_known(flags) {
            return self.fault(Fault::UnknownFlag);
        }
        self.call.has_moved = true;
        0
    }

    /// Keeps the insert of the task at hand until the callback ends. In dispatch a held task goes at once.
    #[inline(always)]
    pub(crate) fn insert_here(&mut self, task: Option<u16>, insert: Insert, flags: u64) -> u64
        requires notes { length self.old.notes < 4096 }
        requires few { self.old.queues.pushes < 2 ^ 63 }
        ensures answer { result ≡ insert_answer self.old task insert flags }
        ensures world { self.new ≡ after_insert self.old task insert flags }
        ensures notes { length self.new.notes ≤ length self.old.notes + 1 }
        ensures few { self.new.queues.pushes ≤ self.old.queues.pushes + 1 }
    {
        if self.is_late(task) {
            return self.pass_over(flags);
        }
        self.insert_now(task, &insert, flags)
    }

    /// `insert_here`, in order of arrival.
    #[inline(never)]
    pub(crate) fn insert_in_order(
        &mut self,
        task: Option<u16>,
        queue: u64,
        slice: u64,
        flags: u64,
    ) -> u64
        requires notes { length self.old.notes < 4096 }
        requires few { self.old.queues.pushes < 2 ^ 63 }
        ensures answer { result
            ≡ insert_answer self.old task (insert_in_order self.old queue slice flags) flags }
        ensures world { self.new
            ≡ after_insert self.old task (insert_in_order self.old queue slice flags) flags }
        ensures notes { length self.new.notes ≤ length self.old.notes + 1 }
        ensures few { self.new.queues.pushes ≤ self.old.queues.pushes + 1 }
    {
        if self.is_by_linux() {
            self.insert_as_told(task, queue, slice, flags)
        } else {
            self.insert_last(task, queue, slice, flags)
        }
    }

    /// `insert_in_order`, with all that the flags say.
    #[inline(always)]
    fn insert_as_told(&mut self, task: Option<u16>, queue: u64, slice: u64, flags: u64) -> u64
        requires notes { length self.old.notes < 4096 }
        requires few { self.old.queues.pushes < 2 ^ 63 }
        ensures answer { result
            ≡ insert_answer self.old task (insert_in_order self.old queue slice flags) flags }
        ensures world { self.new
            ≡ after_insert self.old task (insert_in_order self.old queue slice flags) flags }
        ensures notes { length self.new.notes ≤ length self.old.notes + 1 }
        ensures few { self.new.queues.pushes ≤ self.old.queues.pushes + 1 }
    {
        self.insert_here(task, self.in_order(queue, slice, flags), flags)
    }

    /// `insert_in_order` by plain rules: the flags that they know change nothing.
    #[inline(always)]
    fn insert_last(&mut self, task: Option<u16>, queue: u64, slice: u64, flags: u64) -> u64
        requires plain { is_by_linux self.old ≡ false }
        requires notes { length self.old.notes < 4096 }
        requires few { self.old.queues.pushes < 2 ^ 63 }
        ensures answer { result
            ≡ insert_answer self.old task (insert_in_order self.old queue slice flags) flags }
        ensures world { self.new
            ≡ after_insert self.old task (insert_in_order self.old queue slice flags) flags }
        ensures notes { length self.new.notes ≤ length self.old.notes + 1 }
        ensures few { self.new.queues.pushes ≤ self.old.queues.pushes + 1 }
    {
        let insert = Insert {
            queue,
            slice,
            rank: Rank::Fifo,
            preempts: false,
            refills: false,
        };
        self.insert_now(task, &insert, flags)
    }

    /// The insert in order of arrival into that queue, with that slice and those flags.
    #[inline(always)]
    fn in_order(&self, queue: u64, slice: u64, flags: u64) -> Insert
        ensures { result ≡ insert_in_order self.now queue slice flags }
    {
        Insert {
            queue,
            slice,
            rank: arrival_rank(flags),
            preempts: has_preempt(flags),
            refills: self.is_by_linux(),
        }
    }

    /// `insert_here`, by that virtual time.
    #[inline(never)]
    pub(crate) fn insert_by_vtime(
        &mut self,
        task: Option<u16>,
        queue: u64,
        slice: u64,
        vtime: u64,
        flags: u64,
    ) -> u64
        requires notes { length self.old.notes < 4096 }
        requires few { self.old.queues.pushes < 2 ^ 63 }
        ensures answer { result
            ≡ insert_answer self.old task (insert_by_vtime self.old queue slice vtime) flags }
        ensures world { self.new
            ≡ after_insert self.old task (insert_by_vtime self.old queue slice vtime) flags }
        ensures notes { length self.new.notes ≤ length self.old.notes + 1 }
        ensures few { self.new.queues.pushes ≤ self.old.queues.pushes + 1 }
    {
        self.insert_here(task, self.by_vtime(queue, slice, vtime), flags)
    }

    /// The insert by virtual time into that queue, with that slice.
    #[inline(always)]
    fn by_vtime(&self, queue: u64, slice: u64, vtime: u64) -> Insert
        ensures { result ≡ insert_by_vtime self.now queue slice vtime }
    {
        Insert {
            queue,
            slice,
            rank: Rank::Vtime(vtime),
            preempts: false,
            refills: self.is_by_linux(),
        }
    }

    /// Inserts the task, unless that is a fault.
    #[inline(always)]
    fn insert_now(&mut self, task: Option<u16>, insert: &Insert, flags: u64) -> u64
        requires notes { length self.old.notes < 4096 }
        requires few { self.old.queues.pushes < 2 ^ 63 }
        ensures answer { result ≡ invalid_if (insert_fault self.old task insert.now flags) }
        ensures world { self.new
            ≡ insert_or_fault self.old (insert_fault self.old task insert.now flags) task
            insert.now }
        ensures notes { length self.new.notes ≤ length self.old.notes + 1 }
        ensures few { self.new.queues.pushes ≤ self.old.queues.pushes + 1 }
    {
        if let Some(fault) = self.insert_fault(task, insert, flags) {
            return self.fault(fault);
        }
        if self.call.callback == Callback::Dispatch {
            self.release(task, insert.for_cpu(self.call.cpu));
        } else {
            self.keep_insert(*insert);
        }
        0
    }

    /// A held task goes to where the insert wants it.
    fn release(&mut self, task: Option<u16>, insert: Insert)
        requires notes { length self.old.notes < 4096 }
        requires few { self.old.queues.pushes < 2 ^ 63 }
        ensures world { self.new ≡ after_release self.old task insert }
        ensures notes { length self.new.notes ≤ length self.old.notes + 1 }
        ensures few { self.new.queues.pushes ≤ self.old.queues.pushes + 1 }
    {
        let Some(task) = task else {
            return;
        };
        self.leave_queue(task);
        self.enter(task, insert);
        self.note_move(What::Insert(task, insert.queue));
    }

    /// Notes that the callback brought a task to a queue.
    #[inline(always)]
    fn note_move(&mut self, what: What)
        requires { length self.old.notes < 4096 }
        ensures world { self.new ≡ with_note (with_move self.old) what }
        ensures notes { length self.new.notes ≡ length self.old.notes + 1 }
        ensures few { self.new.queues.pushes ≡ self.old.queues.pushes }
    {
        self.call.has_moved = true;
        self.notes.push_reserved(Note {
            clock: self.clock,
            what,
        });
    }

    pub(crate) fn move_to_local(&mut self, queue: u64) -> u64
        requires notes { length self.old.notes < 4096 }
        requires few { self.old.queues.pushes < 2 ^ 63 }
        ensures answer { result ≡ move_answer self.old queue }
        ensures world { self.new ≡ after_move self.old queue }
        ensures notes { length self.new.notes ≤ length self.old.notes + 1 }
        ensures few { self.new.queues.pushes ≤ self.old.queues.pushes + 1 }
    {
        if self.call.callback != Callback::Dispatch {
            return self.fault(Fault::NoSuchQueue);
        }
        let Some(place) = self.place(queue) else {
            return self.fault(Fault::NoSuchQueue);
        };
        let Some(task) = self.take_next(place, queue) else {
            return 0;
        };
        self.bring_here(task);
        1
    }

    /// Takes the first task out of the queue of that id, which is at that place, that may run on the CPU at hand.
    #[inline(always)]
    fn take_next(&mut self, place: usize, queue: u64) -> Option<u16>
        requires { IsQueueAt self.old.queues place queue }
        ensures answer { result ≡ next_for self.old queue self.old.call.cpu }
        ensures known { IfSome result (λ t. t < length self.old.tasks) }
        ensures left { IfSome result (λ t. self.new ≡ after_leave self.old t) }
        ensures stays { IfNone result (self.new ≡ self.old) }
        ensures few { self.new.queues.pushes ≡ self.old.queues.pushes }
    {
        if !self.binds() {
            return self.pop_at(place, queue);
        }
        let task = self.next_for(queue, self.call.cpu)?;
        self.leave_queue(task);
        Some(task)
    }

    /// The task comes to the local queue of the CPU at hand.
    fn bring_here(&mut self, task: u16)
        requires task { task < length self.old.tasks }
        requires notes { length self.old.notes < 4096 }
        requires few { self.old.queues.pushes < 2 ^ 63 }
        ensures world { self.new ≡ moved_here self.old task }
        ensures notes { length self.new.notes ≤ length self.old.notes + 1 }
        ensures few { self.new.queues.pushes ≤ self.old.queues.pushes + 1 }
    {
        let cpu = self.call.cpu;
        self.push_local(cpu, task);
        self.note_move(What::Move(task, cpu));
    }

    // ---- processors and tasks

    /// Kicks the CPU, as the flags ask for.
    pub(crate) fn kick_by(&mut self, cpu: u64, flags: u64) -> u64
        ensures answer { result ≡ kick_answer self.old cpu flags }
        ensures world { self.new ≡ after_kick self.old cpu flags }
        ensures few { self.new.queues.pushes ≡ self.old.queues.pushes }
    {
        let Some(kick) = Kick::of_flags(flags) else {
            return self.fault(Fault::UnknownFlag);
        };
        if cpu >= self.cpus.len() as u64 {
            return self.fault(Fault::NoSuchCpu);
        }
        self.kick_so(cpu as u32, kick);
        0
    }

    /// Kicks the CPU in that way.
    fn kick_so(&mut self, cpu: u32, kick: Kick)
        ensures world { self.new ≡ kicked_so self.old cpu kick }
        ensures few { self.new.queues.pushes ≡ self.old.queues.pushes }
    {
        match kick {
            Kick::Any => self.kick(cpu),
            Kick::IfIdle => self.kick_if_idle(cpu),
            Kick::Preempt => self.preempt(cpu),
        }
    }

    /// Kicks the CPU if no task runs there, or its own cycle is under way.
    fn kick_if_idle(&mut self, cpu: u32)
        ensures world { self.new ≡ kicked_so self.old cpu IfIdle }
        ensures few { self.new.queues.pushes ≡ self.old.queues.pushes }
    {
        if self.running(cpu).is_none() || self.cycling == Some(cpu) {
            self.kick(cpu);
        }
    }

    pub(crate) fn task_by_pid(&self, pid: u64) -> Answer
        ensures { result ≡ pid_answer self.now pid }
    {
        if pid > 0 && pid <= self.tasks.len() as u64 {
            Answer::Task(TaskId((pid - 1) as u16))
        } else {
            Answer::Num(0)
        }
    }

    // ---- the current tasks of CPUs

    /// The current task of the CPU.
    pub(crate) fn ask_current(&mut self, cpu: u64) -> Answer
        ensures answer { result ≡ current_answer self.old cpu }
        ensures world { self.new ≡ after_asking_cpu self.old cpu }
        ensures few { self.new.queues.pushes ≡ self.old.queues.pushes }
    {
        if cpu >= self.cpus.len() as u64 {
            let _answer = self.fault(Fault::NoSuchCpu);
            return Answer::Num(0);
        }
        task_or_null(self.current(cpu as u32))
    }

    /// The front of a queue of the policy.
    pub(crate) fn peek(&mut self, id: u64) -> Answer
        ensures answer { result ≡ peek_answer self.old id }
        ensures world { self.new ≡ after_queued self.old id }
        ensures few { self.new.queues.pushes ≡ self.old.queues.pushes }
    {
        let Some(place) = self.place(id) else {
            let _answer = self.fault(Fault::NoSuchQueue);
            return Answer::Num(0);
        };
        task_or_null(self.front_at(place, id))
    }

    /// The front of the queue of that id, which is at that place.
    fn front_at(&self, place: usize, queue: u64) -> Option<u16>
        requires { IsQueueAt self.now.queues place queue }
        ensures { result ≡ front_of self.now.queues queue }
    {
        let task = self.queues.front_at(place, queue)?;
        Some(task as u16)
    }

    /// True if it is a task, and the current one of a CPU.
    pub(crate) fn is_current_one(&self, task: Option<u16>) -> bool
        ensures { result ≡ is_current_one self.now task }
    {
        match task {
            Some(task) => self.is_current(task),
            None => false,
        }
    }

    /// The CPU of the task.
    pub(crate) fn cpu_of_task(&self, task: Option<u16>) -> u32
        ensures { result ≡ cpu_of_task self.now task }
    {
        match task {
            Some(task) => self.task(task).prev_cpu,
            None => 0,
        }
    }

    // ---- the record of a task

    pub(crate) fn field(&self, task: u16, field: Field) -> u64
        ensures number { result ≡ field_of self.now task field }
        ensures fits { result < 2 ^ (8 * field_width field) }
    {
        match field {
            Field::Pid => u64::from(task) + 1,
            Field::Weight => self.weight_told(task),
            Field::Slice => self.task(task).slice,
            Field::DsqVtime => self.task(task).vtime,
            Field::PrevCpu => u64::from(self.task(task).prev_cpu),
            Field::Group => self.group(task),
            Field::RunNs => self.task(task).run_ns,
            Field::Cpus => self.cpus_of(task),
        }
    }

    /// All CPUs, one bit each.
    pub(crate) fn all_cpus(&self) -> u64
        ensures { result ≡ all_cpus self.now }
    {
        first_bits(self.cpus.len())
    }

    /// The weight that a policy is told: under Linux rules the task's own.
    fn weight_told(&self, task: u16) -> u64
        ensures weight { result ≡ weight_told self.now task }
        ensures fits { result < 2 ^ 32 }
    {
        if self.is_by_linux() {
            u64::from(self.tree.own_weight(u32::from(task)))
        } else {
            self.weight(task)
        }
    }

    pub(crate) fn weight(&self, task: u16) -> u64
        ensures weight { result ≡ weight_at self.now task }
        ensures fits { result < 2 ^ 32 }
    {
        if (task as usize) < self.tasks.len() {
            u64::from(self.tree.weight_of(u32::from(task)))
        } else {
            0
        }
    }

    fn group(&self, task: u16) -> u64
        ensures group { result ≡ group_at self.now task }
        ensures fits { result < 2 ^ 32 }
    {
        if (task as usize) < self.tasks.len() {
            u64::from(self.tree.group_of(u32::from(task)))
        } else {
            0
        }
    }
}

/// The number whose lowest bits are set, as many as given.
fn first_bits(count: usize) -> u64
    requires { count ≤ 64 }
    ensures { result ≡ 2 ^ count - 1 }
{
    if count < 64 {
        (1 << count) - 1
    } else {
        u64::MAX
    }
}

/// The task as an answer; the number 0 if there is none.
fn task_or_null(task: Option<u16>) -> Answer
    ensures { result ≡ task_or_null task }
{
    match task {
        Some(task) => Answer::Task(TaskId(task)),
        None => Answer::Num(0),
    }
}
