use crate::search::Search;
use scx_explore_bounds::{Memory, most_ticks, step_of, times_in, twins_of};
use scx_explore_findings::Watched;
use scx_explore_machines::Way;
use scx_explore_states::Tasks;
use scx_sched::Event;

/// A state from which events are tried.
#[derive(Clone, Copy)]
struct Begun {
    state: usize,
    memory: Memory,
    watched: Watched,
}

impl Search {
    /// Tries each event that the machine of a state accepts. One that is used up has the last of them itself; it, or
    /// another one in its place, is answered.
    pub(crate) fn try_events(&mut self, state: usize, machine: usize, is_used_up: bool) -> usize {
        let memory = self.machines.memory(machine);
        self.look
            .watch
            .begin(self.machines.sim(machine), memory.began);
        let begun = Begun {
            state,
            memory,
            watched: self.look.watch.watched(),
        };
        if self.may_use(memory, Tasks::NONE.with(0)) {
            self.try_tasks(machine, &begun);
        }
        for cpu in 0..self.machines.sim(machine).cpus() {
            self.try_apart(machine, &begun, Event::Tick(cpu));
        }
        for at in 0..self.changes.len() {
            if let Some(event) = self.changes.event(at) {
                self.try_apart(machine, &begun, event);
            }
        }
        if is_used_up {
            return self.try_on(machine, &begun, Event::Clock);
        }
        self.try_apart(machine, &begun, Event::Clock);
        machine
    }

    /// Tries the sleep of each task that is runnable, and the wake of each of the others, but of one that sleeps as
    /// another one does.
    fn try_tasks(&mut self, machine: usize, begun: &Begun) {
        let began = self.kept_began(begun.memory.began);
        let twins = twins_of(self.form, self.machines.sim(machine), began);
        for task in 0..self.machines.sim(machine).tasks() {
            if self.machines.sim(machine).is_runnable(task) {
                self.try_apart(machine, begun, Event::Sleep(task));
            } else if !twins.has(task) {
                self.try_apart(machine, begun, Event::Wake(task));
            }
        }
    }

    /// Tries an event on a machine that becomes what that one is.
    fn try_apart(&mut self, machine: usize, begun: &Begun, event: Event) {
        let hand = self.hand;
        self.machines.copy(machine, hand);
        self.hand = self.try_on(hand, begun, event);
    }

    /// Tries an event on that machine, and enters the state that it leads to: a tick until the slice of the CPU's task
    /// ends, if states keep no slices. Answers the machine, or another one in its place.
    fn try_on(&mut self, machine: usize, begun: &Begun, event: Event) -> usize {
        let times = self.times_of(machine, event);
        let way = Way {
            from: begun.state,
            step: step_of(event, times),
        };
        self.look.watch.go_on(begun.watched);
        if !self.try_in_a_row(machine, event, way, times) {
            return machine;
        }
        let mut memory = begun.memory;
        self.note_event(&mut memory, event);
        self.enter_behind(machine, &mut memory, way)
    }

    /// The number of times that the event comes in a row. If that is too many, there are none, and the search can't go on.
    fn times_of(&mut self, machine: usize, event: Event) -> usize {
        let times = times_in(self.form, self.machines.sim(machine), event);
        if times > most_ticks(self.form) as u64 {
            self.full = true;
            return 0;
        }
        self.row = self.row.max(times as usize);
        times as usize
    }

    /// Tries an event that many times in a row. Answers whether the list goes on; it doesn't without one.
    fn try_in_a_row(&mut self, machine: usize, event: Event, way: Way, times: usize) -> bool {
        for before in 0..times {
            if !self.try_event(machine, event, way, before.saturating_add(1)) {
                return false;
            }
        }
        times > 0
    }

    /// Enters the state after the events that were watched.
    pub(crate) fn enter_behind(&mut self, machine: usize, memory: &mut Memory, way: Way) -> usize {
        memory.began = self.kept_began(self.look.watch.watched().began);
        self.enter(machine, memory, way)
    }

    /// Who began to run while another waits, as long as that is looked for: until a task was overtaken twice.
    fn kept_began(&self, began: u64) -> u64 {
        if self.finds.is_overtaken() { 0 } else { began }
    }

    /// True if there may be a wake or a sleep of each of these tasks.
    pub(crate) fn may_use(&self, memory: Memory, tasks: Tasks) -> bool {
        match self.bounds.few {
            Some(few) => memory.used.saturating_add(u64::from(tasks.count())) <= u64::from(few),
            None => true,
        }
    }
}
