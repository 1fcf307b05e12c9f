use crate::{Calls, Spell, Taken, TaskQueues};
use scx_sched::{Note, Rank, What};
use scx_sched_world::{BUILTIN, LOCAL_ON, POLICY_END};
use std::alloc::{AllocError, Global};

/// The longest wait of a task, by the clock.
#[derive(Clone, Copy)]
pub struct LongWait {
    pub task: u16,
    pub since: u64,
    pub length: u64,
}

/// A queue that a task came into, at that clock.
#[derive(Clone, Copy)]
pub struct Station {
    pub queue: u64,
    pub clock: u64,
    /// Its rank there, with the key of a virtual time, if that is known.
    pub rank: Option<Rank>,
    /// The number of tasks before it there, if that is known.
    pub ahead: Option<u64>,
}

/// A note, and the task that it takes out of a queue.
#[derive(Clone, Copy)]
pub struct Occurrence {
    pub moment: u64,
    pub clock: u64,
    pub what: What,
    /// The task of the note, and since when it waits for a CPU after the note, if it does.
    pub task: Option<u16>,
    pub waits_since: Option<u64>,
    pub taken: Option<Taken>,
}

/// The state after a note: the queue of each task, and the calls of callbacks.
#[derive(Clone, Copy)]
pub struct Scene<'a> {
    pub places: &'a TaskQueues,
    pub calls: &'a Calls,
}

/// A wait that is watched: the queues of its task, and the tasks that ran meanwhile.
#[derive(Drop)]
pub struct WatchedWait {
    pub wait: LongWait,
    is_open: bool,
    /// The moments at which the wait began and ended, if it did.
    begin: Option<u64>,
    end: Option<u64>,
    pub stations: Vec<Station>,
    /// The task's time in each queue, and the one of them in which it is.
    pub spells: Vec<Spell>,
    current: Option<usize>,
    /// True if the current millisecond is of the wait.
    is_counting: bool,
    /// The milliseconds that each task ran on each CPU, and after the tasks those that none did.
    ran: Vec<u64>,
    tasks: usize,
}

impl WatchedWait {
    pub(crate) fn new(
        alloc: Global,
        wait: LongWait,
        tasks: usize,
        cpus: u32,
    ) -> Result<Self, AllocError> {
        let places = tasks.saturating_add(1).saturating_mul(cpus as usize);
        Ok(WatchedWait {
            wait,
            is_open: false,
            begin: None,
            end: None,
            stations: Vec::new(alloc),
            spells: Vec::new(alloc),
            current: None,
            is_counting: false,
            ran: vec![in alloc; 0u64; places]?,
            tasks,
        })
    }

    /// Follows a note of the task.
    pub(crate) fn show(&mut self, of: Occurrence, scene: Scene<'_>) -> Result<(), AllocError> {
        let is_in = self.end.is_none() && of.waits_since == Some(self.wait.since);
        if is_in && !self.is_open {
            self.begin(of.moment);
        }
        if !is_in && self.is_open {
            self.close(of.moment, of.clock);
        }
        self.is_open = is_in;
        if is_in {
            self.follow(of, scene)
        } else {
            Ok(())
        }
    }

    /// Follows another task that is taken out of a queue.
    pub(crate) fn take(&mut self, taken: Taken, calls: &Calls) {
        if let Some(spell) = self.spell() {
            spell.take(taken, calls.rank(taken.task));
        }
    }

    /// Counts a call of dispatch that is over.
    pub(crate) fn heed(&mut self, notes: &[Note], places: &TaskQueues) {
        if let Some(spell) = self.spell() {
            spell.heed(notes, places);
        }
    }

    /// The spell in the queue of the task.
    fn spell(&mut self) -> Option<&mut Spell> {
        if !self.is_open {
            return None;
        }
        let current = self.current?;
        self.spells.get_mut(current)
    }

    fn begin(&mut self, moment: u64) {
        self.begin = Some(moment);
        self.is_counting = false;
        self.stations.clear();
        self.spells.clear();
        self.current = None;
        for place in self.ran.as_mut_slice() {
            *place = 0;
        }
    }

    /// Ends the wait. A shorter one that began at the same clock isn't the one that is watched.
    fn close(&mut self, moment: u64, clock: u64) {
        if clock.saturating_sub(self.wait.since) == self.wait.length {
            self.end = Some(moment);
        } else {
            self.begin = None;
        }
    }

    /// Follows a note of the task while it waits.
    fn follow(&mut self, of: Occurrence, scene: Scene<'_>) -> Result<(), AllocError> {
        match of.what {
            What::Insert(task, queue) => {
                let rank = rank_at_insert(scene.calls, task, queue);
                self.come(queue, rank, of.clock, scene)
            }
            What::Move(_, cpu) => {
                let queue = LOCAL_ON + u64::from(cpu);
                self.come(queue, Some(Rank::Fifo), of.clock, scene)
            }
            _ => Ok(()),
        }
    }

    /// Keeps that the task comes into a queue.
    fn come(
        &mut self,
        queue: u64,
        rank: Option<Rank>,
        clock: u64,
        scene: Scene<'_>,
    ) -> Result<(), AllocError> {
        let task = self.wait.task;
        self.stations.push(Station {
            queue,
            clock,
            rank,
            ahead: ahead(scene, self.tasks, task, queue, rank),
        })?;
        self.enter(queue, rank)
    }

    fn enter(&mut self, queue: u64, rank: Option<Rank>) -> Result<(), AllocError> {
        let place = place_of_queue(self.spells.as_slice(), queue);
        self.current = Some(place);
        if place == self.spells.len() {
            self.spells.push(Spell::new(self.wait.task, queue, rank))?;
        }
        Ok(())
    }

    /// Begins the ticks of a millisecond. Returns true if it is of the wait.
    pub(crate) fn begin_ticks(&mut self, moment: u64) -> bool {
        self.is_counting = self.has_moment(moment);
        self.is_counting
    }

    /// Counts a millisecond that a task ran on a CPU, or none did, at the place of both in `ran`.
    pub(crate) fn tick(&mut self, place: usize) {
        if !self.is_counting {
            return;
        }
        if let Some(ms) = self.ran.get_mut(place) {
            *ms = ms.saturating_add(1);
        }
    }

    fn has_moment(&self, moment: u64) -> bool {
        let Some(begin) = self.begin else {
            return false;
        };
        match self.end {
            Some(end) => begin <= moment && moment < end,
            None => begin <= moment,
        }
    }

    /// The milliseconds, by the clock, that the task was in that queue.
    pub fn stood_in(&self, queue: u64) -> u64 {
        let stations = self.stations.as_slice();
        let mut stood = 0u64;
        for (place, station) in stations.iter().enumerate() {
            if station.queue == queue {
                let until = self.left_at(place);
                stood = stood.saturating_add(until.saturating_sub(station.clock));
            }
        }
        stood
    }

    /// The clock at which the task left the station at that place.
    fn left_at(&self, place: usize) -> u64 {
        match self.stations.get(place.saturating_add(1)) {
            Some(next) => next.clock,
            None => self.wait.since.saturating_add(self.wait.length),
        }
    }

    /// The milliseconds that each task ran on the CPU, and after the tasks those that none did.
    pub fn ran_on(&self, cpu: u32) -> &[u64] {
        let from = place_of(self.tasks, cpu, Some(0));
        let to = from.saturating_add(self.tasks).saturating_add(1);
        match self.ran.get(from..to) {
            Some(row) => row,
            None => &[],
        }
    }

    /// The milliseconds that each task ran on any of `cpus` CPUs, and after the tasks those that none did.
    pub fn ran(&self, alloc: Global, cpus: u32) -> Result<Vec<u64>, AllocError> {
        let mut sums = vec![in alloc; 0u64; self.tasks.saturating_add(1)]?;
        for cpu in 0..cpus {
            add_row(sums.as_mut_slice(), self.ran_on(cpu));
        }
        Ok(sums)
    }
}

fn add_row(sums: &mut [u64], row: &[u64]) {
    for (place, ms) in row.iter().enumerate() {
        if let Some(sum) = sums.get_mut(place) {
            *sum = sum.saturating_add(*ms);
        }
    }
}

/// The place in `ran` of a task on a CPU; without a task, of the time in which none ran.
pub(crate) fn place_of(tasks: usize, cpu: u32, task: Option<u16>) -> usize {
    let row = tasks.saturating_add(1).saturating_mul(cpu as usize);
    let column = match task {
        Some(task) => task as usize,
        None => tasks,
    };
    row.saturating_add(column)
}

/// The place of the spell in that queue; if there is none, the place after the last.
fn place_of_queue(spells: &[Spell], queue: u64) -> usize {
    for (place, spell) in spells.iter().enumerate() {
        if spell.queue == queue {
            return place;
        }
    }
    spells.len()
}

/// The rank of a task that is inserted into that queue, if that is known.
fn rank_at_insert(calls: &Calls, task: u16, queue: u64) -> Option<Rank> {
    match (rank_in(calls, task, queue), calls.rank(task)) {
        (Some(Rank::Fifo), Some(Rank::Front)) => Some(Rank::Front),
        (rank, _) => rank,
    }
}

/// The rank of a task that came into that queue, if that is known. A task at the front of a queue of the machine counts as
/// one in order of arrival.
fn rank_in(calls: &Calls, task: u16, queue: u64) -> Option<Rank> {
    if queue < POLICY_END {
        calls.rank(task)
    } else if queue == BUILTIN {
        None
    } else {
        Some(Rank::Fifo)
    }
}

/// The number of `tasks` tasks that are in that queue before a task that came in by that rank, if that is known.
fn ahead(scene: Scene<'_>, tasks: usize, task: u16, queue: u64, rank: Option<Rank>) -> Option<u64> {
    let rank = rank?;
    let mut ahead = 0u64;
    for other in 0..u16::try_from(tasks).unwrap_or(u16::MAX) {
        if other != task && scene.places.at(other) == Some(queue) {
            if is_before(rank_in(scene.calls, other, queue)?, rank) {
                ahead = ahead.saturating_add(1);
            }
        }
    }
    Some(ahead)
}

/// True if a task that came into a queue earlier is before one that comes now.
fn is_before(earlier: Rank, rank: Rank) -> bool {
    match (earlier, rank) {
        (Rank::Vtime(theirs), Rank::Vtime(own)) => theirs <= own,
        (_, Rank::Front) => false,
        _ => true,
    }
}
