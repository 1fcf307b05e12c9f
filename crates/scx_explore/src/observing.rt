use crate::finds::{MOST_LIST, WAIT_LIST};
use crate::progress::Found;
use crate::search::Search;
use scx_explore_bounds::Mode;
use scx_explore_findings::{Finding, exit_of, fault_of, idle_in, stall_of};
use scx_explore_machines::Way;
use scx_isa::{CALLBACKS, Callback};
use scx_sched::{Event, Sim};

impl Search {
    /// Tries an event on that machine, which is the event of that number of a step. Answers whether the list goes on.
    pub(crate) fn try_event(
        &mut self,
        machine: usize,
        event: Event,
        way: Way,
        part: usize,
    ) -> bool {
        if self.revisits.depth() == self.depth {
            self.events = self.events.saturating_add(1);
        }
        if !self.machines.step(machine, event, &mut self.look) {
            return false;
        }
        if self.look.most.has_grown() {
            self.keep_most(way, part);
        }
        if self.machines.sim(machine).ejected().is_some() {
            self.look_at_end(machine, way, part);
            return false;
        }
        self.look_behind(machine, event, way, part);
        if let Some(pair) = self.look.watch.overtaken() {
            self.find(Finding::Overtaken(pair), way, part);
        }
        true
    }

    /// Looks for idle CPUs and long waits after an event with which the list goes on.
    fn look_behind(&mut self, machine: usize, event: Event, way: Way, part: usize) {
        if !self.look.watch.is_someone_waiting() {
            return;
        }
        match event {
            Event::Tick(_) => {
                if let Some(idle) = idle_in(self.machines.sim(machine), event) {
                    self.find(idle, way, part);
                }
            }
            Event::Clock => {
                if self.bounds.mode != Mode::Events {
                    self.look_at_waits(machine, way, part);
                }
            }
            Event::Wake(_)
            | Event::Sleep(_)
            | Event::SetWeight(_, _)
            | Event::SetTaskWeight(_, _) => {}
        }
    }

    /// Looks for the fault, the exit or the stall that ended the list.
    fn look_at_end(&mut self, machine: usize, way: Way, part: usize) {
        if let Some(fault) = fault_of(self.machines.sim(machine)) {
            self.find(Finding::Fault(fault), way, part);
        }
        if let Some(code) = exit_of(self.machines.sim(machine)) {
            self.find(Finding::Exit(code), way, part);
        }
        if self.bounds.mode == Mode::Events {
            return;
        }
        if let Some(task) = stall_of(self.machines.sim(machine)) {
            self.find(Finding::Stall(task), way, part);
        }
    }

    /// Keeps the longest wait.
    fn look_at_waits(&mut self, machine: usize, way: Way, part: usize) {
        for task in 0..self.machines.sim(machine).tasks() {
            let ms = wait_of(self.machines.sim(machine), task);
            if ms > self.finds.wait_ms() {
                self.keep_wait(Finding::Waits { task, ms }, ms, way, part);
            }
        }
    }

    fn keep_wait(&mut self, finding: Finding, ms: u64, way: Way, part: usize) {
        let found = self.found_by(WAIT_LIST, finding, way, part);
        self.finds.set_wait(found, ms);
    }

    /// Keeps what took more instructions than before.
    fn keep_most(&mut self, way: Way, part: usize) {
        for place in 0..CALLBACKS.len() {
            self.keep_most_of(place, CALLBACKS[place], way, part);
        }
        self.look.most.settle();
    }

    fn keep_most_of(&mut self, place: usize, callback: Callback, way: Way, part: usize) {
        let Some(instructions) = self.look.most.grown(callback) else {
            return;
        };
        let finding = Finding::Takes {
            callback,
            instructions,
        };
        let list = MOST_LIST.wrapping_add(place);
        let found = self.found_by(list, finding, way, part);
        self.finds.set_most(place, found);
    }

    fn find(&mut self, finding: Finding, way: Way, part: usize) {
        if self.finds.is_new(finding) {
            let list = self.finds.count();
            let found = self.found_by(list, finding, way, part);
            self.finds.find(found);
        }
    }

    /// The finding at that step from the state at hand; the steps to it are kept as those of that list.
    fn found_by(&mut self, list: usize, finding: Finding, way: Way, part: usize) -> Found {
        let between = self.revisits.keep_steps(list);
        Found {
            finding,
            way,
            depth: self.revisits.depth().saturating_add(1),
            part,
            between,
        }
    }
}

/// The wait of the task; 0 if there is no such task.
fn wait_of(sim: &Sim, task: u16) -> u64 {
    if task < sim.tasks() {
        sim.wait(task)
    } else {
        0
    }
}
