ghost use Rattle.std.specs.Prelude.{◌≡◌, ◌+◌, ◌*◌, true, false, None};
ghost use Rattle.scx_isa_semantics.specs.declared.callbacks.Callback.TheVariants.{Dispatch};
ghost use Rattle.scx_sched_world.specs.Ids.{global};
ghost use Rattle.scx_sched_machine.specs.Budgets.{HasRoom, ask_pushes, builtin_ask_pushes, builtin_cycle_pushes, builtin_dispatch_pushes, callback_pushes, cycle_pushes, dispatch_pushes, fill_pushes, leave_pushes, look_pushes, pick_pushes, supply_pushes, swap_pushes};
ghost use Rattle.scx_sched_policy.specs.Policy.{program_of};
ghost use Rattle.scx_sched_policy.specs.Vain.{asked_in, in_vain};
ghost use Rattle.scx_sched_machine.specs.Does.{Goes};
ghost use Rattle.scx_sched_machine.specs.Steps.{is_by_linux};
ghost use Rattle.scx_sched_machine.specs.Filling.{fill};
ghost use Rattle.scx_sched_machine.specs.Cycle.{supply_unless_kept, after_dispatch, tries, swap, swap_or_rest, builtin_dispatch, builtin_fill, builtin_ask, builtin_cycle, start_or_cycle, start_picked_or_cycle, makes_way, pick, pick_or_rest, keep_or_pick, conclude, give_up, ask, seek, look, stays_idle, idles, cycle};
ghost use Rattle.scx_sched_machine.specs.Hearing.{Untold};

use crate::callbacks::cpu_and_task;
use crate::machine::Machine;
use crate::sink::Hearer;
use scx_isa::Callback;
use scx_sched_policy::nobody_in;
use scx_sched_world::{BUILTIN, LOCAL_ON, What};

impl Machine {
    /// Where the local queue is empty, the front of another comes to it.
    #[inline(always)]
    #[tactic(auto, unfolding(crate::specs::Filling::fill), using(crate::proofs::Taking::takings))]
    pub(crate) fn fill<H: Hearer>(&mut self, queue: u64, cpu: u32, hearer: &mut H)
        requires { HasRoom fill_pushes self.old }
        ensures { Goes H.noted H.takes H.told H.hears fill_pushes (fill self.old queue cpu)
            self.old hearer.old self.new hearer.new }
    {
        if let Some(task) = self.world.fill(queue, cpu) {
            hearer.note(self.world.note(What::Move(task, cpu)));
        }
    }

    /// Where the local queue is empty, the front of that of all CPUs comes to it.
    #[inline(always)]
    #[tactic(auto, unfolding(crate::specs::Filling::fill), using(crate::proofs::Taking::takings))]
    pub(crate) fn fill_global<H: Hearer>(&mut self, cpu: u32, hearer: &mut H)
        requires { HasRoom fill_pushes self.old }
        ensures { Goes H.noted H.takes H.told H.hears fill_pushes (fill self.old global cpu)
            self.old hearer.old self.new hearer.new }
    {
        if let Some(task) = self.world.fill_global(cpu) {
            hearer.note(self.world.note(What::Move(task, cpu)));
        }
    }

    /// Supplies the local queue, unless the task before keeps the CPU.
    #[inline(always)]
    #[tactic(auto, unfolding(crate::specs::Cycle::supply_unless_kept), using(crate::proofs::Taking::takings))]
    fn supply_unless_kept<H: Hearer>(&mut self, cpu: u32, before: Option<u16>, hearer: &mut H)
        requires { HasRoom supply_pushes self.old }
        ensures { Goes H.noted H.takes H.told H.hears supply_pushes
            (supply_unless_kept self.old cpu before) self.old hearer.old self.new hearer.new }
    {
        if !self.keeps_slice(before) {
            self.supply(cpu, hearer);
        }
    }

    /// Calls dispatch once, and then supplies the local queue.
    #[inline(always)]
    #[tactic(auto, unfolding(crate::specs::Cycle::after_dispatch), using(crate::proofs::Taking::takings))]
    fn call_dispatch<H: Hearer>(&mut self, cpu: u32, before: Option<u16>, hearer: &mut H)
        requires { HasRoom dispatch_pushes self.old }
        ensures { Goes H.noted H.takes H.told H.hears dispatch_pushes
            (after_dispatch self.old cpu before) self.old hearer.old self.new hearer.new }
    {
        self.ask_dispatch(cpu, before, hearer);
        self.supply_unless_kept(cpu, before, hearer);
    }

    /// Calls dispatch, at most that many times.
    #[tactic(auto, using(crate::proofs::Taking::takings, crate::proofs::Tries::tries_steps))]
    fn tries<H: Hearer>(&mut self, left: u32, cpu: u32, before: Option<u16>, hearer: &mut H)
        requires { HasRoom (dispatch_pushes * left) self.old }
        ensures { Goes H.noted H.takes H.told H.hears (dispatch_pushes * left)
            (tries left self.old cpu before) self.old hearer.old self.new hearer.new }
    {
        if left == 0 {
            return;
        }
        self.call_dispatch(cpu, before, hearer);
        if self.asks_again(cpu, before) {
            self.tries(left - 1, cpu, before, hearer);
        }
    }

    /// Asks dispatch once by plain rules, and then supplies the local queue.
    #[inline(always)]
    #[tactic(auto, using(crate::proofs::Taking::takings, crate::proofs::Plainly::dispatches))]
    fn dispatch_plainly<H: Hearer>(&mut self, cpu: u32, before: Option<u16>, hearer: &mut H)
        requires plain { is_by_linux self.old ≡ false }
        requires room { HasRoom dispatch_pushes self.old }
        ensures does { Goes H.noted H.takes H.told H.hears dispatch_pushes
            (after_dispatch self.old cpu before) self.old hearer.old self.new hearer.new }
        ensures plain { is_by_linux self.new ≡ false }
    {
        self.call_back(
            Callback::Dispatch,
            cpu_and_task(cpu, self.told_of(before)),
            0,
            cpu,
            hearer,
        );
        self.supply(cpu, hearer);
    }

    /// Calls dispatch by plain rules, at most that many times.
    #[tactic(auto, using(crate::proofs::Taking::takings, crate::proofs::Plainly::tries_plainly))]
    fn tries_plainly<H: Hearer>(&mut self, left: u32, cpu: u32, before: Option<u16>, hearer: &mut H)
        requires plain { is_by_linux self.old ≡ false }
        requires room { HasRoom (dispatch_pushes * left) self.old }
        ensures does { Goes H.noted H.takes H.told H.hears (dispatch_pushes * left)
            (tries left self.old cpu before) self.old hearer.old self.new hearer.new }
        ensures plain { is_by_linux self.new ≡ false }
    {
        if left == 0 {
            return;
        }
        self.dispatch_plainly(cpu, before, hearer);
        if self.moved_in_vain(cpu) {
            self.tries_plainly(left - 1, cpu, before, hearer);
        }
    }

    /// Under the built-in scheduler the front of the local queue runs in the place of the task before.
    #[tactic(auto, unfolding(crate::specs::Cycle::swap), using(crate::proofs::Taking::takings))]
    fn swap<H: Hearer>(&mut self, cpu: u32, before: Option<u16>, hearer: &mut H)
        requires { HasRoom swap_pushes self.old }
        ensures { Goes H.noted H.takes H.told H.hears swap_pushes (swap self.old cpu before)
            self.old hearer.old self.new hearer.new }
    {
        self.leave(cpu, before, hearer);
        self.start(cpu, hearer);
    }

    /// Under the built-in scheduler the front of the local queue runs, if there is one.
    #[tactic(auto, unfolding(crate::specs::Cycle::swap_or_rest), using(crate::proofs::Taking::takings))]
    fn swap_or_rest<H: Hearer>(&mut self, cpu: u32, before: Option<u16>, ran: bool, hearer: &mut H)
        requires { HasRoom swap_pushes self.old }
        ensures { Goes H.noted H.takes H.told H.hears swap_pushes
            (swap_or_rest self.old cpu before ran) self.old hearer.old self.new hearer.new }
    {
        if self.has_local(cpu) {
            self.swap(cpu, before, hearer);
        } else {
            self.rest(cpu, before, ran, hearer);
        }
    }

    /// The built-in scheduler's dispatch: the front of its queue comes, once those that may not run are parked.
    #[tactic(auto, unfolding(crate::specs::Cycle::builtin_dispatch), using(crate::proofs::Taking::takings))]
    fn builtin_dispatch<H: Hearer>(&mut self, cpu: u32, hearer: &mut H)
        requires { HasRoom builtin_dispatch_pushes self.old }
        ensures { Goes H.noted H.takes H.told H.hears builtin_dispatch_pushes
            (builtin_dispatch self.old cpu) self.old hearer.old self.new hearer.new }
    {
        let left = self.world.len(BUILTIN);
        self.park_next(left, BUILTIN, cpu, hearer);
        self.fill(BUILTIN, cpu, hearer);
    }

    /// The built-in scheduler's dispatch, where the local queue is empty.
    #[tactic(auto, unfolding(crate::specs::Cycle::builtin_fill), using(crate::proofs::Taking::takings))]
    fn builtin_fill<H: Hearer>(&mut self, cpu: u32, hearer: &mut H)
        requires { HasRoom builtin_dispatch_pushes self.old }
        ensures { Goes H.noted H.takes H.told H.hears builtin_dispatch_pushes
            (builtin_fill self.old cpu) self.old hearer.old self.new hearer.new }
    {
        if !self.has_local(cpu) {
            self.builtin_dispatch(cpu, hearer);
        }
    }

    /// Under the built-in scheduler a task comes, if one may run, and the cycle ends.
    #[tactic(auto, unfolding(crate::specs::Cycle::builtin_ask), using(crate::proofs::Taking::takings))]
    fn builtin_ask<H: Hearer>(&mut self, cpu: u32, before: Option<u16>, ran: bool, hearer: &mut H)
        requires { HasRoom builtin_ask_pushes self.old }
        ensures { Goes H.noted H.takes H.told H.hears builtin_ask_pushes
            (builtin_ask self.old cpu before ran) self.old hearer.old self.new hearer.new }
    {
        self.builtin_fill(cpu, hearer);
        self.swap_or_rest(cpu, before, ran, hearer);
    }

    /// A cycle of the built-in scheduler.
    #[inline(never)]
    #[tactic(auto, unfolding(crate::specs::Cycle::builtin_cycle), using(crate::proofs::Taking::takings))]
    pub(crate) fn builtin_cycle<H: Hearer>(
        &mut self,
        cpu: u32,
        before: Option<u16>,
        ran: bool,
        hearer: &mut H,
    )
        requires { HasRoom builtin_cycle_pushes self.old }
        ensures { Goes H.noted H.takes H.told H.hears builtin_cycle_pushes
            (builtin_cycle self.old cpu before ran) self.old hearer.old self.new hearer.new }
    {
        self.supply(cpu, hearer);
        self.builtin_ask(cpu, before, ran, hearer);
    }

    /// The front of the local queue runs. An ejection may have emptied it; then the cycle begins anew.
    #[inline(always)]
    #[tactic(auto, unfolding(crate::specs::Cycle::start_or_cycle), using(crate::proofs::Taking::takings))]
    fn start_or_cycle<H: Hearer>(&mut self, cpu: u32, ran: bool, hearer: &mut H)
        requires { HasRoom builtin_cycle_pushes self.old }
        ensures { Goes H.noted H.takes H.told H.hears builtin_cycle_pushes
            (start_or_cycle self.old cpu ran) self.old hearer.old self.new hearer.new }
    {
        if self.has_local(cpu) {
            self.start(cpu, hearer);
        } else {
            self.builtin_cycle(cpu, None, ran, hearer);
        }
    }

    /// The task that was picked runs. An ejection may have taken it away; then the cycle begins anew. Without one
    /// the front of the local queue runs.
    #[inline(always)]
    #[tactic(auto, using(crate::proofs::Taking::takings))]
    fn start_picked_or_cycle<H: Hearer>(
        &mut self,
        picked: Option<u16>,
        cpu: u32,
        ran: bool,
        hearer: &mut H,
    )
        requires { HasRoom builtin_cycle_pushes self.old }
        ensures { Goes H.noted H.takes H.told H.hears builtin_cycle_pushes
            (start_picked_or_cycle picked self.old cpu ran)
            self.old hearer.old self.new hearer.new }
    {
        match picked {
            Some(task) => {
                if self.world.is_local(cpu, task) {
                    self.start_picked(cpu, task, hearer);
                } else {
                    self.start_or_cycle(cpu, ran, hearer);
                }
            }
            None => self.start_or_cycle(cpu, ran, hearer),
        }
    }

    /// The task before leaves, once the policy has heard that a CPU that was idle isn't any more.
    #[inline(always)]
    #[tactic(auto, unfolding(crate::specs::Cycle::makes_way), using(crate::proofs::Taking::takings))]
    fn make_way<H: Hearer>(&mut self, cpu: u32, before: Option<u16>, ran: bool, hearer: &mut H)
        requires { HasRoom (callback_pushes + leave_pushes) self.old }
        ensures { Goes H.noted H.takes H.told H.hears (callback_pushes + leave_pushes)
            (makes_way self.old cpu before ran) self.old hearer.old self.new hearer.new }
    {
        self.tell_busy(cpu, before, ran, hearer);
        self.leave(cpu, before, hearer);
    }

    /// By Linux rules the front of the local queue is picked, and then the task before leaves.
    #[inline(never)]
    #[tactic(auto, unfolding(crate::specs::Cycle::pick, crate::specs::Cycle::picked), using(crate::proofs::Taking::takings))]
    fn pick_by_linux<H: Hearer>(&mut self, cpu: u32, before: Option<u16>, ran: bool, hearer: &mut H)
        requires linux { is_by_linux self.old ≡ true }
        requires room { HasRoom pick_pushes self.old }
        ensures { Goes H.noted H.takes H.told H.hears pick_pushes (pick self.old cpu before ran)
            self.old hearer.old self.new hearer.new }
    {
        let picked = self.world.front(LOCAL_ON + u64::from(cpu));
        self.world.keep(picked);
        self.make_way(cpu, before, ran, hearer);
        self.start_picked_or_cycle(picked, cpu, ran, hearer);
    }

    /// `start_or_cycle` by plain rules.
    #[inline(always)]
    #[tactic(auto, unfolding(crate::specs::Cycle::start_or_cycle), using(crate::proofs::Taking::takings))]
    fn start_or_cycle_plainly<H: Hearer>(&mut self, cpu: u32, ran: bool, hearer: &mut H)
        requires plain { is_by_linux self.old ≡ false }
        requires room { HasRoom builtin_cycle_pushes self.old }
        ensures { Goes H.noted H.takes H.told H.hears builtin_cycle_pushes
            (start_or_cycle self.old cpu ran) self.old hearer.old self.new hearer.new }
    {
        if self.has_local(cpu) {
            self.start_plainly(cpu, hearer);
        } else {
            self.builtin_cycle(cpu, None, ran, hearer);
        }
    }

    /// By plain rules the task before leaves, and then the front of the local queue runs.
    #[inline(always)]
    #[tactic(auto, using(crate::proofs::Taking::takings, crate::proofs::Plainly::picks))]
    fn pick_plainly<H: Hearer>(&mut self, cpu: u32, before: Option<u16>, ran: bool, hearer: &mut H)
        requires plain { is_by_linux self.old ≡ false }
        requires room { HasRoom pick_pushes self.old }
        ensures { Goes H.noted H.takes H.told H.hears pick_pushes (pick self.old cpu before ran)
            self.old hearer.old self.new hearer.new }
    {
        self.leave_plainly(cpu, before, hearer);
        self.start_or_cycle_plainly(cpu, ran, hearer);
    }

    /// `pick_plainly`, compiled apart.
    #[inline(never)]
    #[tactic(auto, using(crate::proofs::Taking::takings))]
    fn pick_apart<H: Hearer>(&mut self, cpu: u32, before: Option<u16>, ran: bool, hearer: &mut H)
        requires plain { is_by_linux self.old ≡ false }
        requires room { HasRoom pick_pushes self.old }
        ensures { Goes H.noted H.takes H.told H.hears pick_pushes (pick self.old cpu before ran)
            self.old hearer.old self.new hearer.new }
    {
        self.pick_plainly(cpu, before, ran, hearer);
    }

    /// The front of the local queue runs in the place of the task before.
    #[inline(always)]
    #[tactic(auto, using(crate::proofs::Taking::takings))]
    fn pick<H: Hearer>(&mut self, cpu: u32, before: Option<u16>, ran: bool, hearer: &mut H)
        requires { HasRoom pick_pushes self.old }
        ensures { Goes H.noted H.takes H.told H.hears pick_pushes (pick self.old cpu before ran)
            self.old hearer.old self.new hearer.new }
    {
        if self.is_by_linux() {
            self.pick_by_linux(cpu, before, ran, hearer);
        } else {
            self.pick_apart(cpu, before, ran, hearer);
        }
    }

    /// Runs the front of the local queue, if there is one.
    #[inline(always)]
    #[tactic(auto, unfolding(crate::specs::Cycle::pick_or_rest), using(crate::proofs::Taking::takings))]
    fn pick_or_rest<H: Hearer>(&mut self, cpu: u32, before: Option<u16>, ran: bool, hearer: &mut H)
        requires { HasRoom pick_pushes self.old }
        ensures { Goes H.noted H.takes H.told H.hears pick_pushes
            (pick_or_rest self.old cpu before ran) self.old hearer.old self.new hearer.new }
    {
        if self.has_local(cpu) {
            self.pick(cpu, before, ran, hearer);
        } else {
            self.rest(cpu, before, ran, hearer);
        }
    }

    /// `pick_or_rest` by plain rules.
    #[inline(always)]
    #[tactic(auto, unfolding(crate::specs::Cycle::pick_or_rest), using(crate::proofs::Taking::takings))]
    fn pick_or_rest_plainly<H: Hearer>(
        &mut self,
        cpu: u32,
        before: Option<u16>,
        ran: bool,
        hearer: &mut H,
    )
        requires plain { is_by_linux self.old ≡ false }
        requires room { HasRoom pick_pushes self.old }
        ensures { Goes H.noted H.takes H.told H.hears pick_pushes
            (pick_or_rest self.old cpu before ran) self.old hearer.old self.new hearer.new }
    {
        if self.has_local(cpu) {
            self.pick_plainly(cpu, before, ran, hearer);
        } else {
            self.rest(cpu, before, ran, hearer);
        }
    }

    /// A task that keeps the CPU stays. Else the front of the local queue runs, if there is one.
    #[inline(always)]
    #[tactic(auto, unfolding(crate::specs::Cycle::keep_or_pick), using(crate::proofs::Taking::takings))]
    fn keep_or_pick<H: Hearer>(&mut self, cpu: u32, before: Option<u16>, ran: bool, hearer: &mut H)
        requires { HasRoom pick_pushes self.old }
        ensures { Goes H.noted H.takes H.told H.hears pick_pushes
            (keep_or_pick self.old cpu before ran) self.old hearer.old self.new hearer.new }
    {
        if self.keeps_slice(before) {
            self.lengthen_kept(before);
        } else {
            self.pick_or_rest(cpu, before, ran, hearer);
        }
    }

    /// Dispatch was asked. Where it ejected the policy, the cycle begins anew.
    #[tactic(auto, unfolding(crate::specs::Cycle::conclude), using(crate::proofs::Taking::takings))]
    fn conclude<H: Hearer>(&mut self, cpu: u32, before: Option<u16>, ran: bool, hearer: &mut H)
        requires { HasRoom pick_pushes self.old }
        ensures { Goes H.noted H.takes H.told H.hears pick_pushes (conclude self.old cpu before ran)
            self.old hearer.old self.new hearer.new }
    {
        if self.is_ejected() {
            self.builtin_cycle(cpu, before, ran, hearer);
        } else {
            self.keep_or_pick(cpu, before, ran, hearer);
        }
    }

    /// Under Linux rules a CPU whose last call of dispatch would lead to another looks again as the event ends.
    #[inline(always)]
    #[tactic(auto, unfolding(crate::specs::Cycle::give_up))]
    fn give_up(&mut self, cpu: u32, before: Option<u16>)
        ensures state { self.new ≡ give_up self.old cpu before }
        ensures few { self.new.world.queues.pushes ≡ self.old.world.queues.pushes }
    {
        if self.is_by_linux() && self.asks_again(cpu, before) {
            self.kick(cpu);
        }
    }

    /// Dispatch was asked by plain rules. If it ejected the policy, the cycle begins anew.
    #[tactic(auto, using(crate::proofs::Taking::takings, crate::proofs::Plainly::concludes))]
    fn conclude_plainly<H: Hearer>(
        &mut self,
        cpu: u32,
        before: Option<u16>,
        ran: bool,
        hearer: &mut H,
    )
        requires plain { is_by_linux self.old ≡ false }
        requires room { HasRoom pick_pushes self.old }
        ensures { Goes H.noted H.takes H.told H.hears pick_pushes
            (conclude (give_up self.old cpu before) cpu before ran)
            self.old hearer.old self.new hearer.new }
    {
        if self.is_ejected() {
            self.builtin_cycle(cpu, before, ran, hearer);
        } else {
            self.pick_or_rest_plainly(cpu, before, ran, hearer);
        }
    }

    /// Asks dispatch for a task by plain rules.
    #[inline(always)]
    #[tactic(auto, unfolding(crate::specs::Cycle::ask), using(crate::proofs::Taking::takings))]
    fn ask_plainly<H: Hearer>(&mut self, cpu: u32, before: Option<u16>, ran: bool, hearer: &mut H)
        requires plain { is_by_linux self.old ≡ false }
        requires room { HasRoom ask_pushes self.old }
        ensures { Goes H.noted H.takes H.told H.hears ask_pushes (ask self.old cpu before ran)
            self.old hearer.old self.new hearer.new }
    {
        self.tries_plainly(32, cpu, before, hearer);
        self.conclude_plainly(cpu, before, ran, hearer);
    }

    /// Asks dispatch for a task.
    #[tactic(auto, using(crate::proofs::Taking::takings))]
    fn ask<H: Hearer>(&mut self, cpu: u32, before: Option<u16>, ran: bool, hearer: &mut H)
        requires { HasRoom ask_pushes self.old }
        ensures { Goes H.noted H.takes H.told H.hears ask_pushes (ask self.old cpu before ran)
            self.old hearer.old self.new hearer.new }
    {
        if self.is_by_linux() {
            self.ask_by_linux(cpu, before, ran, hearer);
        } else {
            self.ask_plainly(cpu, before, ran, hearer);
        }
    }

    /// Asks dispatch for a task, as Linux rules do.
    #[inline(never)]
    #[tactic(auto, unfolding(crate::specs::Cycle::ask), using(crate::proofs::Taking::takings))]
    fn ask_by_linux<H: Hearer>(&mut self, cpu: u32, before: Option<u16>, ran: bool, hearer: &mut H)
        requires { HasRoom ask_pushes self.old }
        ensures { Goes H.noted H.takes H.told H.hears ask_pushes (ask self.old cpu before ran)
            self.old hearer.old self.new hearer.new }
    {
        self.tries(32, cpu, before, hearer);
        self.give_up(cpu, before);
        self.conclude(cpu, before, ran, hearer);
    }

    /// A CPU on which that task ran and may stay, or none, seeks the one that it runs next.
    #[tactic(auto, unfolding(crate::specs::Cycle::seek), using(crate::proofs::Taking::takings))]
    fn seek<H: Hearer>(&mut self, cpu: u32, before: Option<u16>, ran: bool, hearer: &mut H)
        requires { HasRoom look_pushes self.old }
        ensures { Goes H.noted H.takes H.told H.hears look_pushes (seek self.old cpu before ran)
            self.old hearer.old self.new hearer.new }
    {
        self.supply(cpu, hearer);
        if self.has_local(cpu) {
            self.pick(cpu, before, ran, hearer);
        } else {
            self.ask(cpu, before, ran, hearer);
        }
    }

    /// A cycle of whichever scheduler is in force.
    #[tactic(auto, unfolding(crate::specs::Cycle::look), using(crate::proofs::Taking::takings))]
    fn look<H: Hearer>(&mut self, cpu: u32, before: Option<u16>, ran: bool, hearer: &mut H)
        requires { HasRoom look_pushes self.old }
        ensures { Goes H.noted H.takes H.told H.hears look_pushes (look self.old cpu before ran)
            self.old hearer.old self.new hearer.new }
    {
        if self.is_ejected() {
            self.builtin_cycle(cpu, before, ran, hearer);
        } else {
            self.seek(cpu, before, ran, hearer);
        }
    }

    /// True if dispatch asks in vain: no task that may run on the CPU waits in its queues, and it does nothing else.
    #[inline(always)]
    fn asks_in_vain(&self, cpu: u32) -> bool
        ensures { result
            ≡ in_vain self.now.world cpu (asked_in (program_of self.now.policy Dispatch)) }
    {
        match self.policy.asked() {
            Some(asked) => nobody_in(&self.world, cpu, asked),
            None => false,
        }
    }

    /// True if no task waits for this CPU or for any, no task may be throttled, and dispatch, if it is there, asks in
    /// vain.
    #[inline(always)]
    #[tactic(auto, unfolding(crate::specs::Cycle::stays_idle))]
    pub(crate) fn stays_idle(&self, cpu: u32) -> bool
        ensures { result ≡ stays_idle self.now cpu }
    {
        !self.is_ejected()
            && !self.world.is_limited()
            && self.world.is_local_empty(cpu)
            && !self.world.has_global_for(cpu)
            && self.asks_in_vain(cpu)
    }

    /// True if a call of dispatch need not be told: there is none, or the hearer doesn't heed calls.
    #[inline(always)]
    #[tactic(auto, using(crate::proofs::Idling::untold_calls, crate::proofs::Idling::untold_none))]
    fn goes_untold<H: Hearer>(&self, hearer: &H) -> bool
        ensures { result ≡ true → Untold H.hears (H.told hearer.now) self.now }
    {
        if !hearer.heeds_calls() {
            return true;
        }
        !self.policy.has_program(Callback::Dispatch)
    }

    /// Leaves what a cycle does that comes to nothing.
    #[inline(always)]
    #[tactic(auto, unfolding(crate::specs::Cycle::idles))]
    fn idle(&mut self, cpu: u32)
        ensures state { self.new ≡ (idles self.old cpu).state }
        ensures few { self.new.world.queues.pushes ≡ self.old.world.queues.pushes }
    {
        self.world.set_cycling(Some(cpu));
        self.world.begin(Callback::Dispatch, 0, cpu);
        self.world.set_cycling(None);
    }

    /// A cycle that comes to nothing.
    #[inline(always)]
    fn stay_idle<H: Hearer>(&mut self, cpu: u32, hearer: &mut H)
        requires idle { stays_idle self.old cpu ≡ true }
        requires untold { Untold H.hears (H.told hearer.old) self.old }
        ensures { Goes H.noted H.takes H.told H.hears 0 (idles self.old cpu)
            self.old hearer.old self.new hearer.new }
    {
        self.idle(cpu);
    }

    /// The cycle of a CPU on which no task runs.
    #[inline(always)]
    #[tactic(auto, using(crate::proofs::Taking::takings, crate::proofs::Idling::idle_cycle))]
    pub(crate) fn idle_cycle<H: Hearer>(&mut self, cpu: u32, hearer: &mut H)
        requires { HasRoom cycle_pushes self.old }
        ensures { Goes H.noted H.takes H.told H.hears cycle_pushes (cycle self.old cpu None false)
            self.old hearer.old self.new hearer.new }
    {
        if self.goes_untold(hearer) && self.stays_idle(cpu) {
            self.stay_idle(cpu, hearer);
        } else {
            self.cycle(cpu, None, false, hearer);
        }
    }

    /// A whole cycle. `ran` says whether a task ran there as the event began.
    #[inline(never)]
    #[tactic(auto, unfolding(crate::specs::Cycle::cycle), using(crate::proofs::Taking::takings))]
    pub(crate) fn cycle<H: Hearer>(
        &mut self,
        cpu: u32,
        before: Option<u16>,
        ran: bool,
        hearer: &mut H,
    )
        requires { HasRoom cycle_pushes self.old }
        ensures { Goes H.noted H.takes H.told H.hears cycle_pushes (cycle self.old cpu before ran)
            self.old hearer.old self.new hearer.new }
    {
        self.world.set_cycling(Some(cpu));
        self.look(cpu, before, ran, hearer);
        self.end_cycle(cpu, ran, hearer);
    }
}
