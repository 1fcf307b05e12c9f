ghost use Rattle.std.specs.Prelude.{◌≡◌, true, false};
ghost use Rattle.scx_sched_machine.specs.declared.events.Event.{Event};
ghost use Rattle.scx_sched.specs.Sim.{SimState};
ghost use Rattle.scx_sched.specs.Quiet.{is_of_time};

use scx_sched::{Event, Sim, Sink, Unseen};

/// A sink that is shown each event before the machine takes it.
pub trait EventSink: Sink {
    // From the first state, the event may lead to the last.
    ghost comes: { Self → SimState → Event → Self → Type 0 };

    /// Shows an event that comes next, for a machine in this state.
    fn event(&mut self, sim: &Sim, event: Event)
        ensures { comes self.old sim.now event self.new };

    /// True if ticks and the clock may change it as they come.
    #[inline(always)]
    fn heeds_time(&self) -> bool
        ensures { result ≡ false → (s : SimState) (e : Event) → is_of_time e ≡ true
            → comes self.now s e self.now }
    {
        true
    }
}

impl EventSink for Unseen {
    ghost comes = { λ s m e t. t ≡ s };

    #[inline(always)]
    fn event(&mut self, _sim: &Sim, _event: Event) {}

    #[inline(always)]
    fn heeds_time(&self) -> bool {
        false
    }
}
