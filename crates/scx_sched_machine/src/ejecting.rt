ghost use Rattle.std.specs.Prelude.{◌≡◌, ◌+◌, ◌≤◌, ◌^◌};
ghost use Rattle.scx_sched_world.specs.Ejecting.{evict, evict_note};
ghost use Rattle.scx_sched_machine.specs.Budgets.{HasRoom, eject_pushes, enter_pushes};
ghost use Rattle.scx_sched_machine.specs.Does.{Goes};
ghost use Rattle.scx_sched_machine.specs.Notes.{Takes};
ghost use Rattle.scx_sched_machine.specs.Steps.{with_world, is_ejected};
ghost use Rattle.scx_sched_machine.specs.Ejecting.{moves_over, eject};

use crate::machine::Machine;
use crate::sink::Hearer;
use scx_sched_world::{BUILTIN, Eject, What};

impl Machine {
    /// True if the policy was ejected.
    pub(crate) fn is_ejected(&self) -> bool
        ensures { result ≡ is_ejected self.now }
    {
        self.world.is_ejected()
    }

    /// Puts the policy out of force, and hands all who wait to the built-in scheduler.
    #[inline(never)]
    #[tactic(auto, unfolding(crate::specs::Ejecting::eject), using(crate::proofs::Taking::takings))]
    pub(crate) fn eject<H: Hearer>(&mut self, why: Eject, hearer: &mut H)
        requires { HasRoom eject_pushes self.old }
        ensures { Goes H.noted H.takes H.told H.hears eject_pushes (eject self.old why)
            self.old hearer.old self.new hearer.new }
    {
        hearer.note(self.world.note(why.what()));
        self.world.put_out(why);
        self.move_over(hearer);
        self.world.cut();
    }

    /// All who wait in a queue go over to the built-in scheduler, by number.
    #[tactic(auto, unfolding(crate::specs::Ejecting::moves_over), using(crate::proofs::Taking::takings))]
    fn move_over<H: Hearer>(&mut self, hearer: &mut H)
        requires { HasRoom eject_pushes self.old }
        ensures { Goes H.noted H.takes H.told H.hears eject_pushes (moves_over self.old)
            self.old hearer.old self.new hearer.new }
    {
        for task in 0..self.world.tasks() {
            self.evict(task, hearer);
        }
    }

    /// A task that waits goes over.
    #[tactic(auto, using(crate::proofs::Taking::takings))]
    fn evict<H: Hearer>(&mut self, task: u16, hearer: &mut H)
        requires { HasRoom enter_pushes self.old }
        ensures state { self.new ≡ with_world self.old (evict self.old.world task) }
        ensures few { self.new.world.queues.pushes ≤ self.old.world.queues.pushes + enter_pushes }
        ensures notes { Takes H.takes (H.noted hearer.old) (evict_note self.old.world task)
            (H.noted hearer.new) }
        ensures calls { H.told hearer.new ≡ H.told hearer.old }
    {
        if self.world.waits(task) {
            hearer.note(self.world.note(What::Insert(task, BUILTIN)));
            self.world.evict(task);
        }
    }
}
