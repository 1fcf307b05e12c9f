//! Tasks in a policy's custody: those that wait in a queue of its own, or that it holds.
ghost use Rattle.std.specs.Prelude.{◌≡◌, ◌+◌, ◌≤◌, ◌&&◌, true, length};
ghost use Rattle.scx_sched_machine.specs.Budgets.{HasRoom, callback_pushes, calm_pushes, eject_pushes, pushes_due};
ghost use Rattle.scx_sched_machine.specs.Does.{Goes};
ghost use Rattle.scx_sched_machine.specs.Custody.{is_custody, is_in_custody, leaver, tells_of, moved_as, hears_dequeue, told_first};
ghost use Rattle.scx_sched_machine.specs.Cycle.{dispatch_called};
ghost use Rattle.scx_sched_machine.specs.Events.{leaves_queue};

use crate::callbacks::{cpu_and_task, run_callback, task_and_number};
use crate::machine::Machine;
use crate::sink::Hearer;
use scx_isa::Callback;
use scx_sched_world::{Cause, HELD, POLICY_END, What};

/// True if tasks of that queue are in custody.
fn is_custody(queue: Option<u64>) -> bool
    ensures { result ≡ is_custody queue }
{
    match queue {
        Some(queue) => queue < POLICY_END || queue == HELD,
        None => false,
    }
}

/// The task that left custody as that was noted of dispatch, if one did.
fn leaver(what: What) -> Option<u16>
    ensures { result ≡ leaver what }
{
    match what {
        What::Insert(task, queue) => { if queue < POLICY_END { None } else { Some(task) } }
        What::Move(task, _cpu) => Some(task),
        _ => None,
    }
}

impl Machine {
    /// True if the policy hears of tasks that leave its custody: under Linux rules, if it has `dequeue`.
    #[inline(always)]
    #[tactic(auto, unfolding(crate::specs::Custody::hears_dequeue))]
    fn hears_dequeue(&self) -> bool
        ensures { result ≡ hears_dequeue self.now }
    {
        self.is_by_linux() && self.policy.has_program(Callback::Dequeue)
    }

    /// True if the policy hears of it where the task leaves its queue.
    #[inline(always)]
    fn hears_leaving(&self, task: u16) -> bool
        ensures { result ≡ (hears_dequeue self.now && is_in_custody self.now.world task) }
    {
        self.hears_dequeue() && is_custody(self.world.queue_of(task))
    }

    /// The task leaves its queue, of which a policy in whose custody it was hears, with these flags.
    #[inline(always)]
    #[tactic(auto, using(crate::proofs::Taking::takings, crate::proofs::Leaving::leaves))]
    pub(crate) fn leave_queue<H: Hearer>(&mut self, task: u16, cpu: u32, flags: u64, hearer: &mut H)
        requires { HasRoom callback_pushes self.old }
        ensures { Goes H.noted H.takes H.told H.hears callback_pushes
            (leaves_queue self.old task cpu flags) self.old hearer.old self.new hearer.new }
    {
        let hears = self.hears_leaving(task);
        self.world.leave_queue(task);
        if hears {
            let arguments = task_and_number(task, flags);
            self.call_apart(Callback::Dequeue, arguments, task, cpu, hearer);
        }
    }

    /// Calls dispatch once. A policy that has `dequeue` hears of each task that left its custody in it.
    #[inline(always)]
    #[tactic(auto, using(crate::proofs::Taking::takings, crate::proofs::Leaving::dispatch_unheard))]
    pub(crate) fn ask_dispatch<H: Hearer>(&mut self, cpu: u32, before: Option<u16>, hearer: &mut H)
        requires { HasRoom (callback_pushes + calm_pushes) self.old }
        ensures { Goes H.noted H.takes H.told H.hears (callback_pushes + calm_pushes)
            (dispatch_called self.old cpu before) self.old hearer.old self.new hearer.new }
    {
        if self.hears_dequeue() {
            self.ask_dispatch_heard(cpu, before, hearer);
        } else {
            let arguments = cpu_and_task(cpu, self.told_of(before));
            self.call_back(Callback::Dispatch, arguments, 0, cpu, hearer);
        }
    }

    /// Calls dispatch once, for a policy that has `dequeue`.
    #[inline(never)]
    #[tactic(auto, using(crate::proofs::Taking::takings, crate::proofs::Leaving::dispatch_heard))]
    fn ask_dispatch_heard<H: Hearer>(&mut self, cpu: u32, before: Option<u16>, hearer: &mut H)
        requires heard { hears_dequeue self.old ≡ true }
        requires room { HasRoom (callback_pushes + calm_pushes) self.old }
        ensures { Goes H.noted H.takes H.told H.hears (callback_pushes + calm_pushes)
            (dispatch_called self.old cpu before) self.old hearer.old self.new hearer.new }
    {
        let arguments = cpu_and_task(cpu, self.told_of(before));
        self.world.begin(Callback::Dispatch, 0, cpu);
        let answer = run_callback(
            &mut self.core,
            &self.policy,
            Callback::Dispatch,
            arguments,
            &mut self.maps,
            &mut self.world,
            hearer,
        );
        let has_moved = self.world.has_moved();
        let cause = self.cause(Callback::Dispatch, answer);
        let count = self.world.notes().len();
        self.tell_first(count, cause, cpu, hearer);
        self.set_moved(has_moved);
    }

    /// Hands on what dispatch noted, and ejects the policy if there is a cause. The policy hears of each task
    /// that left custody in the first `count` notes, in their order.
    #[tactic(auto, using(crate::proofs::Taking::takings, crate::proofs::Leaving::told_steps))]
    fn tell_first<H: Hearer>(
        &mut self,
        count: usize,
        cause: Option<Cause>,
        cpu: u32,
        hearer: &mut H,
    )
        requires noted { count ≤ length self.old.world.notes }
        requires room { HasRoom calm_pushes self.old }
        ensures does { Goes H.noted H.takes H.told H.hears eject_pushes
            (told_first count cause self.old cpu) self.old hearer.old self.new hearer.new }
        ensures committed { pushes_due self.new ≤ self.old.world.queues.pushes + eject_pushes }
    {
        if count == 0 {
            self.end_callback(cause, hearer);
            return;
        }
        let task = leaver(self.world.notes()[count - 1].what);
        self.tell_first(count - 1, cause, cpu, hearer);
        self.tell_of(task, cpu, hearer);
    }

    /// The policy hears that the task left custody in dispatch, if one did.
    #[inline(always)]
    #[tactic(auto, unfolding(crate::specs::Custody::tells_dequeued), using(crate::proofs::Taking::takings))]
    fn tell_of<H: Hearer>(&mut self, task: Option<u16>, cpu: u32, hearer: &mut H)
        requires { HasRoom callback_pushes self.old }
        ensures does { Goes H.noted H.takes H.told H.hears callback_pushes
            (tells_of task self.old cpu) self.old hearer.old self.new hearer.new }
        ensures calm { pushes_due self.new ≤ pushes_due self.old }
    {
        if let Some(task) = task {
            let arguments = task_and_number(task, 0);
            self.call_by_linux(Callback::Dequeue, arguments, task, cpu, hearer);
        }
    }

    /// Dispatch is the last callback again, of which it counts whether it moved a task. An ejection forgets that.
    fn set_moved(&mut self, has_moved: bool)
        ensures state { self.new ≡ moved_as has_moved self.old }
        ensures few { self.new.world.queues.pushes ≡ self.old.world.queues.pushes }
    {
        if !self.is_ejected() {
            self.world.set_moved(has_moved);
        }
    }
}
