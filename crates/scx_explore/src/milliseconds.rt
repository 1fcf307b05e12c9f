use crate::search::Search;
use scx_explore_bounds::{Choice, Memory, Mode, Ticks};
use scx_explore_findings::Watched;
use scx_explore_machines::Way;
use scx_explore_states::{Step, Tasks};
use scx_sched::Event;

/// A millisecond as far as its sleeps.
#[derive(Clone, Copy)]
struct Begun {
    state: usize,
    wakes: Tasks,
    memory: Memory,
    ran: Ticks,
    /// The number of its events.
    part: usize,
    watched: Watched,
}

impl Search {
    /// Tries each millisecond that may follow. A machine that is used up has the last of them itself; it, or another
    /// one in its place, is answered.
    pub(crate) fn try_milliseconds(
        &mut self,
        state: usize,
        machine: usize,
        is_used_up: bool,
    ) -> usize {
        let memory = self.machines.memory(machine);
        let (must, may) = self.wakes_of(machine, memory);
        let mut some = Tasks::NONE;
        for _ in 0..256 {
            let wakes = must.and(some);
            let Some(next) = some.next_among(may) else {
                if is_used_up {
                    return self.try_wakes(state, machine, memory, wakes);
                }
                self.try_apart_wakes(state, machine, memory, wakes);
                return machine;
            };
            self.try_apart_wakes(state, machine, memory, wakes);
            some = next;
        }
        machine
    }

    /// Tries the millisecond in which these tasks wake on a machine that becomes what that one is.
    fn try_apart_wakes(&mut self, state: usize, machine: usize, memory: Memory, wakes: Tasks) {
        let hand = self.hand;
        self.machines.copy(machine, hand);
        self.hand = self.try_wakes(state, hand, memory, wakes);
    }

    /// The tasks that must wake next, and those that may.
    fn wakes_of(&self, machine: usize, memory: Memory) -> (Tasks, Tasks) {
        let sim = self.machines.sim(machine);
        let (mut must, mut may) = (Tasks::NONE, Tasks::NONE);
        for task in 0..sim.tasks() {
            if sim.is_runnable(task) {
                continue;
            }
            match self.wake_choice(memory, task) {
                Choice::Must => must = must.with(task),
                Choice::May => may = may.with(task),
                Choice::MayNot => {}
            }
        }
        (must, may)
    }

    fn wake_choice(&self, memory: Memory, task: u16) -> Choice {
        match self.bounds.mode {
            Mode::Workloads => memory.wake_choice(task),
            Mode::Events | Mode::Milliseconds => Choice::May,
        }
    }

    /// The tasks that must go to sleep now, and those that may.
    fn sleeps_of(&self, machine: usize, memory: Memory, ran: &Ticks) -> (Tasks, Tasks) {
        let sim = self.machines.sim(machine);
        let (mut must, mut may) = (Tasks::NONE, Tasks::NONE);
        for task in 0..sim.tasks() {
            if !sim.is_runnable(task) {
                continue;
            }
            match self.sleep_choice(memory, task, ran) {
                Choice::Must => must = must.with(task),
                Choice::May => may = may.with(task),
                Choice::MayNot => {}
            }
        }
        (must, may)
    }

    fn sleep_choice(&self, memory: Memory, task: u16, ran: &Ticks) -> Choice {
        match self.bounds.mode {
            Mode::Workloads => memory.sleep_choice(task, ran),
            Mode::Events | Mode::Milliseconds => Choice::May,
        }
    }

    /// Tries the millisecond in which these tasks wake on that machine, with all who may go to sleep in it. Answers the
    /// machine, or another one in its place.
    fn try_wakes(&mut self, state: usize, machine: usize, memory: Memory, wakes: Tasks) -> usize {
        let mut memory = memory;
        if !self.may_use(memory, wakes) {
            return machine;
        }
        self.look
            .watch
            .begin(self.machines.sim(machine), memory.began);
        let mut ran = Ticks::NONE;
        let Some(part) = self.try_until_sleeps(state, machine, wakes, &mut ran) else {
            return machine;
        };
        ran.end(self.machines.sim(machine));
        memory.use_up(wakes);
        if self.bounds.mode == Mode::Workloads {
            memory.wake(wakes);
        }
        let begun = Begun {
            state,
            wakes,
            memory,
            ran,
            part,
            watched: self.look.watch.watched(),
        };
        self.try_all_sleeps(machine, &begun)
    }

    /// Tries the rest of a millisecond with all who may go to sleep in it. Answers the machine, or another one in its
    /// place.
    fn try_all_sleeps(&mut self, machine: usize, begun: &Begun) -> usize {
        let (must, may) = self.sleeps_of(machine, begun.memory, &begun.ran);
        let mut some = Tasks::NONE;
        for _ in 0..256 {
            let sleeps = must.and(some);
            let Some(next) = some.next_among(may) else {
                return self.try_sleeps(machine, begun, sleeps);
            };
            self.try_apart_sleeps(machine, begun, sleeps);
            some = next;
        }
        machine
    }

    /// Tries the rest of a millisecond on a machine that becomes what that one is.
    fn try_apart_sleeps(&mut self, machine: usize, begun: &Begun, sleeps: Tasks) {
        let hand = self.other_hand;
        self.machines.copy(machine, hand);
        self.other_hand = self.try_sleeps(hand, begun, sleeps);
    }

    /// The wakes and ticks of a millisecond, on that machine. Answers how many events they are; none where the list
    /// ends with one of them.
    fn try_until_sleeps(
        &mut self,
        state: usize,
        machine: usize,
        wakes: Tasks,
        ran: &mut Ticks,
    ) -> Option<usize> {
        let way = way_by(state, wakes, Tasks::NONE);
        let mut part = 0;
        for task in 0..self.machines.sim(machine).tasks() {
            if wakes.has(task) {
                part = next(part);
                if !self.try_event(machine, Event::Wake(task), way, part) {
                    return None;
                }
            }
        }
        for cpu in 0..self.machines.sim(machine).cpus() {
            part = next(part);
            let tick = Event::Tick(cpu);
            ran.count(self.machines.sim(machine), tick);
            if !self.try_event(machine, tick, way, part) {
                return None;
            }
        }
        Some(part)
    }

    /// Tries the rest of a millisecond on that machine: these tasks go to sleep. Answers the machine, or another one
    /// in its place.
    fn try_sleeps(&mut self, machine: usize, begun: &Begun, sleeps: Tasks) -> usize {
        let mut memory = begun.memory;
        if !self.may_use(memory, sleeps) {
            return machine;
        }
        self.look.watch.go_on(begun.watched);
        let way = way_by(begun.state, begun.wakes, sleeps);
        if !self.try_to_end(machine, way, sleeps, begun.part) {
            return machine;
        }
        memory.use_up(sleeps);
        if self.bounds.mode == Mode::Workloads {
            memory.end(self.machines.sim(machine), sleeps, &begun.ran);
        }
        self.enter_behind(machine, &mut memory, way)
    }

    /// The sleeps and the clock of a millisecond, on that machine. Answers whether the list goes on.
    fn try_to_end(&mut self, machine: usize, way: Way, sleeps: Tasks, part: usize) -> bool {
        let mut part = part;
        for task in 0..self.machines.sim(machine).tasks() {
            if sleeps.has(task) {
                part = next(part);
                if !self.try_event(machine, Event::Sleep(task), way, part) {
                    return false;
                }
            }
        }
        self.try_event(machine, Event::Clock, way, next(part))
    }
}

/// From that state a millisecond in which these wake, and these go to sleep.
fn way_by(state: usize, wakes: Tasks, sleeps: Tasks) -> Way {
    Way {
        from: state,
        step: Step::Millisecond { wakes, sleeps },
    }
}

/// The number of the next event of a step.
fn next(part: usize) -> usize {
    part.saturating_add(1)
}
