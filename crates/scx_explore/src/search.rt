ghost use Rattle.std.specs.Prelude.{◌≡◌, length};
ghost use Rattle.scx_explore_bounds.specs.Events.{most_events};

use crate::finds::{Finds, LISTS};
use crate::progress::{Found, Level, Progress};
use scx_explore_bounds::{Bounds, Changes, Memory, Mode, count_of, event_at, most_events, places};
use scx_explore_findings::{Sort, Watch};
use scx_explore_machines::{Entered, Look, Machines, Most, Origin, Revisits, Seen, Way, push};
use scx_explore_states::{Form, QueueNumbers, Step, Words};
use scx_isa::Callback;
use scx_load_workloads::Workload;
use scx_sched::{Event, Sim};
use std::alloc::{AllocError, Global};
use std::marker::Model;

/// A step and the state that it leads to.
#[derive(Clone, Copy)]
pub(crate) struct Stop {
    pub(crate) state: usize,
    pub(crate) step: Step,
}

/// A search by the length of lists.
///
/// In a contract it is nothing: what it finds is shown by a machine that goes through the list again.
#[derive(Drop)]
pub struct Search {
    pub(crate) form: Form,
    pub(crate) bounds: Bounds,
    pub(crate) machines: Machines,
    pub(crate) changes: Changes,
    pub(crate) seen: Seen,
    pub(crate) look: Look,
    pub(crate) words: Words,
    pub(crate) finds: Finds,
    /// Machines that are tried on.
    pub(crate) hand: usize,
    pub(crate) other_hand: usize,
    /// The way to a state, backwards.
    pub(crate) stops: Vec<Stop>,
    pub(crate) depth: usize,
    /// The state that is visited next.
    next: usize,
    /// The first state of the next depth.
    pub(crate) end: usize,
    pub(crate) events: u64,
    /// The most times that an event came in a row.
    pub(crate) row: usize,
    pub(crate) revisits: Revisits,
    /// True if it can't go on.
    pub(crate) full: bool,
}

impl Model for Search {
    ghost Value = { Unit {0} };

    ghost view = { λ s. tt };
}

/// The tables of a search beside its machines.
#[derive(Drop)]
struct Tables {
    watch: Watch,
    changes: Changes,
    seen: Seen,
    words: Words,
    stops: Vec<Stop>,
    revisits: Revisits,
}

impl Tables {
    fn new(
        alloc: Global,
        form: Form,
        bounds: Bounds,
        root: &Sim,
        workload: &Workload,
        bytes: usize,
    ) -> Result<Tables, AllocError> {
        let changes = Changes::new(alloc, bounds, workload)?;
        let beside = Memory::width(bounds, root.tasks(), changes.are_some());
        let width = form.width(root).saturating_add(beside);
        let room = bytes / width.saturating_mul(8).saturating_add(34);
        Ok(Tables {
            watch: Watch::new(workload.tasks()),
            changes,
            seen: Seen::new(alloc, width, room)?,
            words: Words::new(alloc, width)?,
            stops: Vec::with_capacity(alloc, bounds.depth)?,
            revisits: Revisits::new(alloc, LISTS)?,
        })
    }
}

/// The form in which tasks of a group are told apart if lists set weights of tasks.
fn told_apart(form: Form, changes: &Changes) -> Form {
    Form {
        names: form.names || changes.have_tasks(),
        ..form
    }
}

/// A search whose first state was entered.
fn begun(form: Form, bounds: Bounds, tables: Tables, machines: Machines) -> Search {
    let Tables {
        watch,
        changes,
        seen,
        words,
        stops,
        revisits,
    } = tables;
    let form = told_apart(form, &changes);
    let mut machines = machines;
    let hand = machines.take_or_0();
    let other_hand = machines.take_or_0();
    let mut search = Search {
        form,
        bounds,
        machines,
        changes,
        seen,
        look: Look {
            watch,
            most: Most::none(),
        },
        words,
        finds: Finds::NONE,
        hand,
        other_hand,
        stops,
        depth: 0,
        next: 0,
        end: 0,
        events: 0,
        row: 1,
        revisits,
        full: hand == other_hand,
    };
    search.enter_first();
    search
}

impl Search {
    /// A search from the first state of that machine, which is the workload's, in `bytes` bytes and with `machines`
    /// copies of the machine. It takes four copies at least; the more there are, the fewer events are done again. All
    /// memory is taken here.
    ///
    /// # Errors
    ///
    /// Memory runs out.
    pub fn new(
        alloc: Global,
        form: Form,
        bounds: Bounds,
        root: Sim,
        machines: usize,
        workload: &Workload,
        bytes: usize,
    ) -> Result<Search, AllocError> {
        match Tables::new(alloc, form, bounds, &root, workload, bytes) {
            Ok(tables) => Search::of_tables(alloc, form, bounds, tables, root, machines),
            Err(error) => {
                drop(root);
                Err(error)
            }
        }
    }

    fn of_tables(
        alloc: Global,
        form: Form,
        bounds: Bounds,
        tables: Tables,
        root: Sim,
        machines: usize,
    ) -> Result<Search, AllocError> {
        let first = Memory::new(tables.changes.first());
        match Machines::new(alloc, root, machines, first) {
            Ok(machines) => Ok(begun(form, bounds, tables, machines)),
            Err(error) => {
                drop(tables);
                Err(error)
            }
        }
    }

    /// The most events of a list within the bounds, for such a machine.
    pub fn most_events(bounds: Bounds, sim: &Sim) -> usize
        ensures { result ≡ most_events bounds (length sim.now.state.world.tasks)
            (length sim.now.state.world.cpus) }
    {
        most_events(bounds, sim)
    }

    fn enter_first(&mut self) {
        let hand = self.hand;
        self.machines.begin(hand);
        let memory = self.machines.memory(hand);
        let way = Way {
            from: 0,
            step: Step::Event(Event::Clock),
        };
        self.hand = self.enter(hand, &memory, way);
        self.machines.deepen();
        self.end = self.seen.len();
        if self.end == 0 {
            self.full = true;
        }
    }

    /// True if tasks of a group aren't told apart: states in which they have changed places count as one.
    pub fn are_tasks_alike(&self) -> bool {
        !self.form.names
    }

    /// The form in which states are written.
    pub fn form(&self) -> Form {
        self.form
    }

    /// The numbers of queues in states that are written.
    pub fn numbers(&self) -> &QueueNumbers {
        self.words.numbers()
    }

    /// The states that are kept.
    pub fn seen(&self) -> &Seen {
        &self.seen
    }

    /// True if each state that was met is kept.
    pub fn keeps_all(&self) -> bool {
        !self.revisits.is_closed()
    }

    /// The number of states that were met so far.
    pub fn states(&self) -> usize {
        self.seen.len()
    }

    /// The bytes that they take, with the ways to them and the places where they are looked for.
    pub fn bytes(&self) -> usize {
        let words = self.seen.width();
        words
            .saturating_mul(8)
            .saturating_add(34)
            .saturating_mul(self.seen.len())
    }

    /// The finding of that number, from 0; none if there are no more.
    pub fn found(&self, place: usize) -> Option<Found> {
        self.finds.found(place)
    }

    /// The most times that an event came in a row.
    pub fn longest_row(&self) -> usize {
        self.row
    }

    /// True if something of that sort was found.
    pub fn has_found(&self, sort: Sort) -> bool {
        self.finds.has_found(sort)
    }

    /// The longest wait of a task after the clock of some millisecond, where milliseconds are gone through and some
    /// task waits.
    pub fn longest_wait(&self) -> Option<Found> {
        self.finds.wait()
    }

    /// The most instructions that the callback took in some event, if it was called.
    pub fn most_instructions(&self, callback: Callback) -> Option<Found> {
        self.finds.most(callback)
    }

    /// Visits one more state, or begins the next depth.
    pub fn go_on(&mut self) -> Progress {
        if self.full || self.revisits.is_used_up(self.events) {
            return Progress::Full;
        }
        if self.go_next() {
            return Progress::Going;
        }
        if self.revisit_next() {
            return Progress::Going;
        }
        let ended = self.seen.len() == self.end && !self.revisits.has_more();
        self.revisits.deepen();
        self.end = self.seen.len();
        self.depth = self.depth.saturating_add(1);
        self.machines.deepen();
        Progress::Level(Level {
            depth: self.depth,
            states: self.end,
            events: self.events,
            again: self.revisits.count(),
            ended,
        })
    }

    /// Visits the next kept state of this depth. Returns whether there was one.
    fn go_next(&mut self) -> bool {
        let (state, depth) = (self.next, self.depth);
        if state >= self.end {
            return false;
        }
        self.next = state.saturating_add(1);
        self.revisits.begin(Origin { state, depth });
        let machine = self.machines.of(state);
        self.go_through(machine);
        true
    }

    /// Tries all steps from the current state, by its machine, if it has one.
    pub(crate) fn go_through(&mut self, machine: Option<usize>) {
        let state = self.revisits.origin().state;
        if let Some(machine) = machine {
            let left = self.go_from(state, machine, true);
            self.machines.free(left);
        } else if let Some(machine) = self.revisit_machine() {
            self.go_from_trail(state, machine);
        } else {
            self.full = true;
        }
    }

    /// Tries all steps from the last state of the trail, by its machine. The state stays there only if it may be visited
    /// again.
    fn go_from_trail(&mut self, state: usize, machine: usize) {
        if self.revisits.is_closed() {
            self.go_from(state, machine, false);
            return;
        }
        self.machines.leave_trail();
        let left = self.go_from(state, machine, true);
        self.machines.spare(left);
    }

    /// Tries all steps from the state of that machine: a kept state, or one that was reached from it. A machine that
    /// is used up isn't needed any more: returns it, or another one in its place.
    fn go_from(&mut self, state: usize, machine: usize, is_used_up: bool) -> usize {
        match self.bounds.mode {
            Mode::Events => self.try_events(state, machine, is_used_up),
            Mode::Milliseconds | Mode::Workloads => {
                self.try_milliseconds(state, machine, is_used_up)
            }
        }
    }

    /// True if states that are met now aren't expanded.
    fn is_last(&self) -> bool {
        self.depth.saturating_add(1) >= self.bounds.depth
    }

    /// Enters the state of that machine. Answers the machine, or another one in its place.
    pub(crate) fn enter(&mut self, machine: usize, memory: &Memory, way: Way) -> usize {
        self.form
            .write(self.machines.sim(machine), memory.began, &mut self.words);
        let tasks = self.machines.sim(machine).tasks();
        memory.write(self.bounds, tasks, self.changes.are_some(), &mut self.words);
        if self.revisits.is_closed() {
            if self.seen.number_of(self.words.as_slice()).is_some() {
                return machine;
            }
            return self.lose(machine, memory, way);
        }
        match self.seen.enter(self.words.as_slice(), way) {
            Entered::Was(_) => machine,
            Entered::New(state) => self.keep(state, machine, memory),
            Entered::Full => self.lose(machine, memory, way),
        }
    }

    fn keep(&mut self, state: usize, machine: usize, memory: &Memory) -> usize {
        if self.is_last() && state > 0 {
            return machine;
        }
        self.machines.set_memory(machine, *memory);
        self.machines.keep(state, machine)
    }

    /// Writes the events that lead to what was found, and nothing else, into the list.
    pub fn list_of(&self, found: Found, events: &mut Vec<Event>) {
        events.clear();
        self.write_back(found.way.step, found.part, events);
        let between = found.between;
        for back in 0..between.count {
            if let Some(step) = self.revisits.step_before(between, back) {
                self.write_back(step, usize::MAX, events);
            }
        }
        let mut at = found.way.from;
        for _ in 1..found.depth.saturating_sub(between.count) {
            let Some(way) = self.seen.way(at) else {
                return;
            };
            self.write_back(way.step, usize::MAX, events);
            at = way.from;
        }
        events.as_mut_slice().reverse();
    }

    /// Writes at most `most` events of a step, the last one first.
    fn write_back(&self, step: Step, most: usize, events: &mut Vec<Event>) {
        let cpus = self.machines.sim(0).cpus();
        let mut skip = count_of(step, cpus).saturating_sub(most);
        let count = places(step, cpus);
        for back in 0..count {
            let Some(event) = event_at(step, cpus, count - 1 - back) else {
                continue;
            };
            if skip > 0 {
                skip -= 1;
            } else {
                push(events, event);
            }
        }
    }
}
