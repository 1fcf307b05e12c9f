use crate::look::Look;
use crate::machines::Machines;
use scx_explore_bounds::{Ticks, event_at, places};
use scx_explore_states::{Step, Tasks};
use scx_sched::Event;

/// Steps that are done again.
impl Machines {
    /// The machine does the step again. Answers the ticks that each task ran, of a millisecond.
    pub fn follow(&mut self, machine: usize, step: Step, look: &mut Look) -> Ticks {
        match step {
            Step::Millisecond { wakes, sleeps } => {
                self.follow_millisecond(machine, wakes, sleeps, look)
            }
            Step::Event(_) | Step::Ticks { .. } => self.follow_events(machine, step, look),
        }
    }

    /// The machine does the events of a step again that isn't a millisecond.
    fn follow_events(&mut self, machine: usize, step: Step, look: &mut Look) -> Ticks {
        let cpus = self.sim(machine).cpus();
        for place in 0..places(step, cpus) {
            if let Some(event) = event_at(step, cpus, place) {
                self.follow_event(machine, event, look);
            }
        }
        Ticks::NONE
    }

    /// The machine does a millisecond again. Answers the ticks that each task ran.
    fn follow_millisecond(
        &mut self,
        machine: usize,
        wakes: Tasks,
        sleeps: Tasks,
        look: &mut Look,
    ) -> Ticks {
        let mut ran = Ticks::NONE;
        let tasks = self.sim(machine).tasks();
        for task in 0..tasks {
            if wakes.has(task) {
                self.follow_event(machine, Event::Wake(task), look);
            }
        }
        for cpu in 0..self.sim(machine).cpus() {
            let tick = Event::Tick(cpu);
            ran.count(self.sim(machine), tick);
            self.follow_event(machine, tick, look);
        }
        ran.end(self.sim(machine));
        for task in 0..tasks {
            if sleeps.has(task) {
                self.follow_event(machine, Event::Sleep(task), look);
            }
        }
        self.follow_event(machine, Event::Clock, look);
        ran
    }

    fn follow_event(&mut self, machine: usize, event: Event, look: &mut Look) {
        self.step(machine, event, look);
    }
}
