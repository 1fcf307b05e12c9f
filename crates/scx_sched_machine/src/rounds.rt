//! Under Linux rules a CPU that was kicked, or given work, looks for it as the event ends.
ghost use Rattle.std.specs.Prelude.{◌≡◌, ◌*◌};
ghost use Rattle.scx_sched_machine.specs.Budgets.{HasRoom, cycle_pushes, rounds_pushes};
ghost use Rattle.scx_sched_machine.specs.Does.{Goes};
ghost use Rattle.scx_sched_machine.specs.Rounds.{next_to_look, cut_off_if, look_past, look_from, round, most_rounds, rounds};

use crate::machine::Machine;
use crate::sink::Hearer;

/// The number of CPUs that look for work in an event, at most.
pub(crate) const MOST_ROUNDS: u32 = 256;

impl Machine {
    /// The CPU that looks next, while the policy is in force.
    #[inline(always)]
    #[tactic(auto, unfolding(crate::specs::Rounds::next_to_look))]
    pub(crate) fn next_to_look(&mut self) -> Option<u32>
        ensures answer { result ≡ next_to_look self.old }
        ensures same { self.new ≡ self.old }
    {
        if self.is_by_linux() {
            self.world.first_pending()
        } else {
            None
        }
    }

    /// The task that runs loses its slice, if it is preempted.
    fn cut_off_if(&mut self, preempted: bool, task: u16)
        ensures state { self.new ≡ cut_off_if preempted self.old task }
        ensures few { self.new.world.queues.pushes ≡ self.old.world.queues.pushes }
    {
        if preempted {
            self.world.cut_off(task);
        }
    }

    /// A CPU that runs a task with no slice left looks for another.
    #[tactic(auto, unfolding(crate::specs::Rounds::look_past), using(crate::proofs::Taking::takings))]
    fn look_past<H: Hearer>(&mut self, cpu: u32, task: u16, hearer: &mut H)
        requires { HasRoom cycle_pushes self.old }
        ensures { Goes H.noted H.takes H.told H.hears cycle_pushes (look_past self.old cpu task)
            self.old hearer.old self.new hearer.new }
    {
        if self.world.task(task).slice == 0 {
            self.cycle(cpu, Some(task), true, hearer);
        }
    }

    /// A CPU that runs that task, or none, looks for work.
    #[tactic(auto, using(crate::proofs::Taking::takings))]
    fn look_from<H: Hearer>(&mut self, task: Option<u16>, preempted: bool, cpu: u32, hearer: &mut H)
        requires { HasRoom cycle_pushes self.old }
        ensures { Goes H.noted H.takes H.told H.hears cycle_pushes
            (look_from task preempted self.old cpu) self.old hearer.old self.new hearer.new }
    {
        match task {
            Some(task) => {
                self.cut_off_if(preempted, task);
                self.look_past(cpu, task, hearer);
            }
            None => self.cycle(cpu, None, false, hearer),
        }
    }

    /// A CPU that was pending looks for work.
    #[tactic(auto, unfolding(crate::specs::Rounds::round), using(crate::proofs::Taking::takings))]
    fn round<H: Hearer>(&mut self, cpu: u32, hearer: &mut H)
        requires { HasRoom cycle_pushes self.old }
        ensures { Goes H.noted H.takes H.told H.hears cycle_pushes (round self.old cpu)
            self.old hearer.old self.new hearer.new }
    {
        let task = self.world.running(cpu);
        let preempted = self.world.is_preempted(cpu);
        self.world.end_kick(cpu);
        self.look_from(task, preempted, cpu, hearer);
    }

    /// CPUs look for work, the lowest first, at most that many times.
    #[inline(never)]
    #[tactic(auto, using(crate::proofs::Taking::takings, crate::proofs::Looking::rounds_steps))]
    fn rounds<H: Hearer>(&mut self, left: u32, hearer: &mut H)
        requires { HasRoom (cycle_pushes * left) self.old }
        ensures { Goes H.noted H.takes H.told H.hears (cycle_pushes * left) (rounds left self.old)
            self.old hearer.old self.new hearer.new }
    {
        if left == 0 {
            return;
        }
        if let Some(cpu) = self.next_to_look() {
            self.round(cpu, hearer);
            self.rounds(left - 1, hearer);
        }
    }

    /// CPUs look for work as an event ends, if one of them is to.
    #[inline(always)]
    #[tactic(auto, using(crate::proofs::Looking::rounds_last))]
    pub(crate) fn look_for_work<H: Hearer>(&mut self, hearer: &mut H)
        requires { HasRoom rounds_pushes self.old }
        ensures { Goes H.noted H.takes H.told H.hears rounds_pushes (rounds most_rounds self.old)
            self.old hearer.old self.new hearer.new }
    {
        if let Some(_next) = self.next_to_look() {
            self.rounds(MOST_ROUNDS, hearer);
        }
    }
}
