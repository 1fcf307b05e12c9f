//! Tasks that may not run: they are parked, and let go once periods begin.
ghost use Rattle.std.specs.Prelude.{◌≡◌, ℕ, ◌+◌, ◌*◌, ◌≤◌};
ghost use Rattle.scx_sched_machine.specs.Budgets.{HasRoom, CanLetGo, clear_pushes, pushes_due, eject_pushes, enter_pushes, let_go_pushes, put_pushes, supply_pushes};
ghost use Rattle.scx_sched_machine.specs.Does.{Goes};
ghost use Rattle.scx_sched_machine.specs.Steps.{with_world};
ghost use Rattle.scx_sched_world.specs.Tasks.{after_leave};
ghost use Rattle.scx_sched_machine.specs.Parking.{park, if_throttled, park_next, clear, supply, let_go_one, let_go_from, let_all_go};

use crate::machine::Machine;
use crate::sink::Hearer;
use scx_sched_world::{GLOBAL, LOCAL_ON, PARKED, What};

impl Machine {
    /// The task at hand is parked.
    #[tactic(auto, unfolding(crate::specs::Parking::park), using(crate::proofs::Taking::takings))]
    pub(crate) fn park<H: Hearer>(&mut self, task: u16, hearer: &mut H)
        requires { HasRoom enter_pushes self.old }
        ensures { Goes H.noted H.takes H.told H.hears enter_pushes (park self.old task)
            self.old hearer.old self.new hearer.new }
    {
        hearer.note(self.world.note(What::Insert(task, PARKED)));
        self.world.park(task);
    }

    /// The task leaves its queue, and is parked.
    #[tactic(auto, using(crate::proofs::Taking::takings))]
    fn park_from_queue<H: Hearer>(&mut self, task: u16, hearer: &mut H)
        requires { HasRoom enter_pushes self.old }
        ensures { Goes H.noted H.takes H.told H.hears enter_pushes
            (park (with_world self.old (after_leave self.old.world task)) task)
            self.old hearer.old self.new hearer.new }
    {
        self.world.leave_queue(task);
        self.park(task, hearer);
    }

    /// The task, if it is throttled.
    fn if_throttled(&self, task: Option<u16>) -> Option<u16>
        ensures { result ≡ if_throttled self.now.world task }
    {
        let task = task?;
        if self.world.is_throttled(task) {
            Some(task)
        } else {
            None
        }
    }

    /// As long as the first task of the queue that may run on the CPU is throttled, it is parked, at most so often.
    #[tactic(auto, using(crate::proofs::Taking::takings, crate::proofs::Parked::park_next_steps))]
    pub(crate) fn park_next<H: Hearer>(&mut self, left: usize, queue: u64, cpu: u32, hearer: &mut H)
        requires { HasRoom (enter_pushes * left) self.old }
        ensures { Goes H.noted H.takes H.told H.hears (enter_pushes * left)
            (park_next left self.old queue cpu) self.old hearer.old self.new hearer.new }
    {
        if left == 0 {
            return;
        }
        if let Some(task) = self.if_throttled(self.world.next_for(queue, cpu)) {
            self.park_from_queue(task, hearer);
            self.park_next(left - 1, queue, cpu, hearer);
        }
    }

    /// Wherever the local queue is empty it is filled from that of all CPUs, and as long as its front may
    /// not run, that is parked, at most so often.
    #[tactic(auto, using(crate::proofs::Taking::takings, crate::proofs::Parked::clear_steps))]
    fn clear<H: Hearer>(&mut self, left: usize, cpu: u32, hearer: &mut H)
        requires { HasRoom (clear_pushes * left) self.old }
        ensures { Goes H.noted H.takes H.told H.hears (clear_pushes * left)
            (clear left self.old cpu) self.old hearer.old self.new hearer.new }
    {
        if left == 0 {
            return;
        }
        self.fill_global(cpu, hearer);
        let local = LOCAL_ON + u64::from(cpu);
        if let Some(task) = self.if_throttled(self.world.front(local)) {
            self.park_from_queue(task, hearer);
            self.clear(left - 1, cpu, hearer);
        }
    }

    /// The local queue comes to have a front that may run, where some tasks may not.
    #[inline(never)]
    #[tactic(auto, unfolding(crate::specs::Parking::supply), using(crate::proofs::Taking::takings))]
    fn supply_limited<H: Hearer>(&mut self, cpu: u32, hearer: &mut H)
        requires { HasRoom supply_pushes self.old }
        ensures { Goes H.noted H.takes H.told H.hears supply_pushes (supply self.old cpu)
            self.old hearer.old self.new hearer.new }
    {
        let left = self.world.len(LOCAL_ON + u64::from(cpu)) + self.world.len(GLOBAL);
        self.clear(left, cpu, hearer);
    }

    /// The local queue comes to have a front that may run, if it has such a task, or that of all CPUs.
    #[inline(always)]
    #[tactic(auto, using(crate::proofs::Taking::takings, crate::proofs::Free::supply_free))]
    pub(crate) fn supply<H: Hearer>(&mut self, cpu: u32, hearer: &mut H)
        requires { HasRoom supply_pushes self.old }
        ensures { Goes H.noted H.takes H.told H.hears supply_pushes (supply self.old cpu)
            self.old hearer.old self.new hearer.new }
    {
        if self.world.is_limited() {
            self.supply_limited(cpu, hearer);
        } else {
            self.fill_global(cpu, hearer);
        }
    }

    /// The task is parked no more, and is put as for the CPU on which it ran last. Under Linux rules that
    /// one looks for work as the event ends, if it is idle.
    #[tactic(auto, unfolding(crate::specs::Parking::let_go_one, crate::specs::Budgets::eject_left), using(crate::proofs::Taking::takings))]
    fn let_go<H: Hearer>(&mut self, task: u16, hearer: &mut H)
        requires { HasRoom put_pushes self.old }
        ensures does { Goes H.noted H.takes H.told H.hears put_pushes (let_go_one self.old task)
            self.old hearer.old self.new hearer.new }
        ensures committed { pushes_due self.new ≤ pushes_due self.old + enter_pushes }
    {
        let cpu = self.world.task(task).prev_cpu;
        self.world.let_go(task);
        self.put(task, cpu, 0, hearer);
        self.kick_if_idle(cpu);
    }

    /// Lets go the parked tasks that may run again, in their order from that one on. At most `left` are looked
    /// at.
    #[inline(never)]
    #[tactic(auto, using(crate::proofs::Taking::takings, crate::proofs::Parked::let_go_steps, crate::proofs::Unchanged::left_few))]
    fn let_go_from<H: Hearer>(&mut self, left: usize, at: Option<u16>, hearer: &mut H)
        requires { CanLetGo left self.old }
        ensures does { Goes H.noted H.takes H.told H.hears (eject_pushes + enter_pushes * left)
            (let_go_from left self.old at) self.old hearer.old self.new hearer.new }
        ensures committed { pushes_due self.new ≤ pushes_due self.old + enter_pushes * left }
    {
        if left == 0 {
            return;
        }
        if let Some(task) = at {
            let next = self.world.next_after(task);
            if self.world.is_throttled(task) {
                self.let_go_from(left - 1, next, hearer);
            } else {
                self.let_go(task, hearer);
                self.let_go_from(left - 1, next, hearer);
            }
        }
    }

    /// All of the parked that may run again are let go.
    #[inline(always)]
    #[tactic(auto, unfolding(crate::specs::Parking::let_all_go), using(crate::proofs::Taking::takings, crate::proofs::Parked::go_nobody, crate::proofs::Parked::none_let_go, crate::proofs::Unchanged::left_few))]
    pub(crate) fn let_all_go<H: Hearer>(&mut self, hearer: &mut H)
        requires { HasRoom (let_go_pushes + put_pushes) self.old }
        ensures { Goes H.noted H.takes H.told H.hears let_go_pushes (let_all_go self.old)
            self.old hearer.old self.new hearer.new }
    {
        if self.world.are_parked_throttled() {
            return;
        }
        let Some(first) = self.world.first_parked() else {
            return;
        };
        let left = self.world.len(PARKED);
        self.let_go_from(left, Some(first), hearer);
    }
}
