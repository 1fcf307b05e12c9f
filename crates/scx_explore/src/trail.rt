use crate::search::{Search, Stop};
use scx_explore_bounds::{Memory, Mode, Ticks};
use scx_explore_machines::push;
use scx_explore_states::{Step, Tasks};
use scx_load_workloads::Weighed;
use scx_sched::Event;

impl Search {
    /// A machine in that state, which has none of its own: it comes there along the trail.
    pub(crate) fn follow_trail(&mut self, state: usize, depth: usize) -> Option<usize> {
        let shared = self.revisits.shared_depths(&self.seen, self.end);
        let mut machine = self.look_back(state, depth)?;
        for _ in 0..self.stops.len() {
            let Some(stop) = self.next_stop() else {
                return Some(machine);
            };
            machine = self.lengthen(stop, shared)?;
        }
        Some(machine)
    }

    fn next_stop(&mut self) -> Option<Stop> {
        self.stops.pop()
    }

    /// The machine of the last state of the trail on the way to that one. The stops after it are in `stops`, backwards.
    fn look_back(&mut self, state: usize, depth: usize) -> Option<usize> {
        self.stops.clear();
        let mut at = state;
        for back in 0..depth {
            let here = depth.saturating_sub(back);
            if let Some(machine) = self.machines.cut_trail(at, here) {
                return Some(machine);
            }
            at = self.step_back(at)?;
        }
        match self.machines.cut_trail(at, 0) {
            Some(machine) => Some(machine),
            None => self.begin_trail(at),
        }
    }

    /// The state before that one, whose step is a stop.
    fn step_back(&mut self, state: usize) -> Option<usize> {
        let way = self.seen.way(state)?;
        let stop = Stop {
            state,
            step: way.step,
        };
        push(&mut self.stops, stop);
        Some(way.from)
    }

    /// The trail begins with the first state.
    fn begin_trail(&mut self, state: usize) -> Option<usize> {
        let machine = self.machines.begin_trail(state)?;
        self.machines.begin(machine);
        Some(machine)
    }

    /// One more state on the trail. The one before it stays if it is among the first `shared` ones.
    pub(crate) fn lengthen(&mut self, stop: Stop, shared: usize) -> Option<usize> {
        let last_leaves = self.machines.depth_of_trail() >= shared;
        let machine = self.machines.lengthen_trail(stop.state, last_leaves)?;
        self.follow(machine, stop.step);
        Some(machine)
    }

    /// The machine does the step again.
    fn follow(&mut self, machine: usize, step: Step) {
        self.watch_from(machine);
        let ran = self.machines.follow(machine, step, &mut self.look);
        let mut memory = self.machines.memory(machine);
        self.note_step(&mut memory, machine, step, &ran);
        self.machines.set_memory(machine, memory);
    }

    /// Waits are watched from that machine's state on.
    fn watch_from(&mut self, machine: usize) {
        let began = self.machines.memory(machine).began;
        self.look.watch.begin(self.machines.sim(machine), began);
    }

    /// Notes a step that was followed in the memory.
    fn note_step(&self, memory: &mut Memory, machine: usize, step: Step, ran: &Ticks) {
        memory.began = self.look.watch.watched().began;
        match step {
            Step::Event(event) => self.note_event(memory, event),
            Step::Ticks { .. } => {}
            Step::Millisecond { wakes, sleeps } => {
                memory.use_up(wakes);
                memory.use_up(sleeps);
                if self.bounds.mode == Mode::Workloads {
                    memory.wake(wakes);
                    memory.end(self.machines.sim(machine), sleeps, ran);
                }
            }
        }
    }

    /// Notes an event in the memory, as far as the mode keeps it.
    pub(crate) fn note_event(&self, memory: &mut Memory, event: Event) {
        match event {
            Event::Wake(task) | Event::Sleep(task) => memory.use_up(Tasks::NONE.with(task)),
            Event::SetWeight(group, weight) => {
                self.note_weight(memory, Weighed::Group(group), weight);
            }
            Event::SetTaskWeight(task, weight) => {
                self.note_weight(memory, Weighed::Task(task), weight);
            }
            Event::Tick(_) | Event::Clock => {}
        }
    }

    /// Notes that the group or the task has that weight.
    fn note_weight(&self, memory: &mut Memory, weighed: Weighed, weight: u32) {
        memory.changed = self.changes.after(memory.changed, weighed, weight);
    }
}
