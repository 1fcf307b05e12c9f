use scx_explore_bounds::Memory;
use scx_explore_findings::Pool;
use scx_sched::{Event, Sim, Sink};
use std::alloc::{AllocError, Global};
use std::marker::Model;

/// The most states of a list that keep their machines on the trail.
const TRAIL: usize = 64;

/// The most bytes of the maps of all machines together.
const MOST_MAP_BYTES: usize = 268_435_456;

/// The bytes that are counted for the maps of a machine at least: a list may have 8,192 events.
const LEAST_MAP_BYTES: usize = 32_768;

/// The most machines like that one for which there is memory at a time: 8,192, or less where their maps are large.
pub fn most_machines(sim: &Sim) -> usize {
    MOST_MAP_BYTES / sim.maps().bytes().len().max(LEAST_MAP_BYTES)
}

/// A state and the number of its machine.
#[derive(Clone, Copy)]
struct Held {
    state: usize,
    machine: usize,
}

/// A state of a list, its depth and the number of its machine.
#[derive(Clone, Copy)]
struct Stage {
    state: usize,
    depth: usize,
    machine: usize,
}

/// Machines for the states that are gone through, and for those on the way to one of them.
///
/// In a contract it is nothing.
#[derive(Drop)]
pub struct Machines {
    pool: Pool,
    /// The memory beside each machine.
    memories: Vec<Memory>,
    first: Memory,
    free: Vec<usize>,
    /// Machines for the trail.
    spare: Vec<usize>,
    /// States of the depth at hand that have a machine, by number; those before `at` are done with.
    here: Vec<Held>,
    at: usize,
    /// States of the next depth that have one.
    next: Vec<Held>,
    /// States of a list, each deeper than those before it.
    trail: Vec<Stage>,
}

impl Model for Machines {
    ghost Value = { Unit {0} };

    ghost view = { λ m. tt };
}

impl Machines {
    /// `count` copies of that machine. All of them are free.
    ///
    /// # Errors
    ///
    /// Memory runs out.
    pub fn new(
        alloc: Global,
        root: Sim,
        count: usize,
        first: Memory,
    ) -> Result<Machines, AllocError> {
        let pool = Pool::new(alloc, root, count)?;
        match Lists::new(alloc, pool.len(), first) {
            Ok(lists) => Ok(of_lists(pool, first, lists)),
            Err(error) => {
                drop(pool);
                Err(error)
            }
        }
    }

    /// A free machine; the first one if there is none.
    pub fn take_or_0(&mut self) -> usize {
        match self.free.pop() {
            Some(machine) => machine,
            None => 0,
        }
    }

    /// A free machine, if there is one.
    pub fn take(&mut self) -> Option<usize> {
        self.free.pop()
    }

    /// Frees that machine, which no state has any more.
    pub fn free(&mut self, machine: usize) {
        push(&mut self.free, machine);
    }

    /// The machine of that number; the one in which lists begin where there is none.
    pub fn sim(&self, machine: usize) -> &Sim {
        if machine < self.pool.len() {
            self.pool.sim(machine)
        } else {
            self.pool.root()
        }
    }

    /// The memory beside a machine.
    pub fn memory(&self, machine: usize) -> Memory {
        match self.memories.get(machine) {
            Some(memory) => *memory,
            None => self.first,
        }
    }

    /// Sets the memory beside a machine.
    pub fn set_memory(&mut self, machine: usize, memory: Memory) {
        if let Some(place) = self.memories.get_mut(machine) {
            *place = memory;
        }
    }

    /// The second machine becomes what the first one is.
    pub fn copy(&mut self, from: usize, to: usize) {
        if from < self.pool.len() && to < self.pool.len() {
            self.pool.copy(from, to);
        }
    }

    /// The machine comes to where lists begin.
    pub fn begin(&mut self, machine: usize) {
        if machine < self.pool.len() {
            self.pool.begin(machine);
        }
        self.set_memory(machine, self.first);
    }

    /// The machine has the event; false where it can't.
    #[inline(always)]
    pub fn step<S: Sink>(&mut self, machine: usize, event: Event, sink: &mut S) -> bool {
        machine < self.pool.len() && self.pool.step(machine, event, sink).is_ok()
    }

    /// A state of the next depth has that machine, if there is another one in its place, which is answered. Else the
    /// machine itself is.
    pub fn keep(&mut self, state: usize, machine: usize) -> usize {
        let Some(other) = self.free.pop() else {
            return machine;
        };
        push(&mut self.next, Held { state, machine });
        other
    }

    /// Takes the machine of that state of the depth at hand, if it has one.
    pub fn of(&mut self, state: usize) -> Option<usize> {
        let held = *self.here.get(self.at)?;
        if held.state != state {
            return None;
        }
        self.at = self.at.saturating_add(1);
        Some(held.machine)
    }

    /// The next depth is at hand.
    pub fn deepen(&mut self) {
        self.here.clear();
        for held in &self.next {
            push(&mut self.here, *held);
        }
        self.next.clear();
        self.at = 0;
    }

    /// The machine of that state of that depth, if it is on the trail, which is cut after that depth.
    pub fn cut_trail(&mut self, state: usize, depth: usize) -> Option<usize> {
        self.shorten_trail(depth);
        let last = *self.trail.last()?;
        if last.state != state || last.depth != depth {
            return None;
        }
        Some(last.machine)
    }

    /// The trail is that state alone, the first one. Answers its machine, if there is one.
    pub fn begin_trail(&mut self, state: usize) -> Option<usize> {
        for _ in 0..TRAIL {
            self.free_last();
        }
        let machine = self.trail_machine()?;
        self.push_trail(state, 0, machine);
        Some(machine)
    }

    fn shorten_trail(&mut self, depth: usize) {
        for _ in 0..TRAIL {
            if self.depth_of_trail() <= depth {
                return;
            }
            self.free_last();
        }
    }

    /// The depth of the last state of the trail; 0 where there is none.
    pub fn depth_of_trail(&self) -> usize {
        match self.trail.last() {
            Some(last) => last.depth,
            None => 0,
        }
    }

    fn free_last(&mut self) {
        if let Some(last) = self.trail.pop() {
            self.spare(last.machine);
        }
    }

    /// The machine serves for the trail again.
    pub fn spare(&mut self, machine: usize) {
        push(&mut self.spare, machine);
    }

    /// A machine for the next state of the trail; its first one where there is none left.
    fn trail_machine(&mut self) -> Option<usize> {
        if let Some(machine) = self.spare.pop() {
            return Some(machine);
        }
        if self.trail.len() < 2 {
            return None;
        }
        Some(self.trail.remove(0).machine)
    }

    /// Appends a state to the trail. It has a copy of the last state's machine, or that machine itself if the last state
    /// leaves the trail. Answers the machine.
    pub fn lengthen_trail(&mut self, state: usize, last_leaves: bool) -> Option<usize> {
        let last = *self.trail.last()?;
        let depth = last.depth.saturating_add(1);
        if last_leaves {
            self.trail.pop();
            self.push_trail(state, depth, last.machine);
            return Some(last.machine);
        }
        let machine = self.trail_machine()?;
        self.copy(last.machine, machine);
        self.set_memory(machine, self.memory(last.machine));
        self.push_trail(state, depth, machine);
        Some(machine)
    }

    /// The last state leaves the trail, and its machine with it.
    pub fn leave_trail(&mut self) {
        self.trail.pop();
    }

    fn push_trail(&mut self, state: usize, depth: usize, machine: usize) {
        push(
            &mut self.trail,
            Stage {
                state,
                depth,
                machine,
            },
        );
    }
}

/// All lists of the machines, whose memory is taken at once.
#[derive(Drop)]
struct Lists {
    memories: Vec<Memory>,
    free: Vec<usize>,
    spare: Vec<usize>,
    here: Vec<Held>,
    next: Vec<Held>,
    trail: Vec<Stage>,
}

impl Lists {
    fn new(alloc: Global, count: usize, first: Memory) -> Result<Lists, AllocError> {
        Ok(Lists {
            memories: vec![in alloc; first; count]?,
            free: numbers(alloc, spare_of(count), count)?,
            spare: numbers(alloc, 0, spare_of(count))?,
            here: Vec::with_capacity(alloc, count)?,
            next: Vec::with_capacity(alloc, count)?,
            trail: Vec::with_capacity(alloc, TRAIL)?,
        })
    }
}

/// The number of machines for the trail, of `count`: the first ones.
fn spare_of(count: usize) -> usize {
    TRAIL.min(count / 2)
}

/// The numbers from the first one up to the end, in a list with room for all machines up to the end.
fn numbers(alloc: Global, start: usize, end: usize) -> Result<Vec<usize>, AllocError> {
    let mut numbers = Vec::with_capacity(alloc, end)?;
    for number in start..end {
        push(&mut numbers, number);
    }
    Ok(numbers)
}

fn of_lists(pool: Pool, first: Memory, lists: Lists) -> Machines {
    let Lists {
        memories,
        free,
        spare,
        here,
        next,
        trail,
    } = lists;
    Machines {
        pool,
        memories,
        first,
        free,
        spare,
        here,
        at: 0,
        next,
        trail,
    }
}

/// Appends the item, if there is room.
pub fn push<T: Drop>(items: &mut Vec<T>, item: T) {
    if items.len() < items.capacity() {
        items.push_reserved(item);
    }
}
