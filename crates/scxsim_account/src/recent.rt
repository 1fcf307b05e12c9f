use crate::ejection::{Ejection, Moment, ejection_of};
use scx_sched::{Note, What};
use std::alloc::{AllocError, Global};

/// The number of last notes that are kept.
const LINES: usize = 10;

/// A note, and the number of notes before it.
#[derive(Clone, Copy)]
struct Recent {
    order: u64,
    note: Note,
}

/// The last notes of one task or of one CPU, up to an ejection.
#[derive(Clone, Copy)]
struct Ring {
    notes: [Option<Recent>; LINES],
    /// The place of the next one.
    next: usize,
}

impl Ring {
    fn add(&mut self, recent: Recent) {
        if let Some(place) = self.notes.get_mut(self.next) {
            *place = Some(recent);
        }
        self.next = if self.next.saturating_add(1) < LINES {
            self.next.saturating_add(1)
        } else {
            0
        };
    }
}

/// The last notes of each task and of each CPU.
#[derive(Drop)]
pub struct RecentNotes {
    by_task: Vec<Ring>,
    by_cpu: Vec<Ring>,
    count: u64,
}

impl RecentNotes {
    fn new(alloc: Global, tasks: usize, cpus: u32) -> Result<Self, AllocError> {
        let empty = Ring {
            notes: [None; LINES],
            next: 0,
        };
        Ok(RecentNotes {
            by_task: vec![in alloc; empty; tasks]?,
            by_cpu: vec![in alloc; empty; cpus as usize]?,
            count: 0,
        })
    }

    /// No notes yet; none at all where notes aren't wanted.
    pub(crate) fn if_wanted(
        alloc: Global,
        are_wanted: bool,
        tasks: usize,
        cpus: u32,
    ) -> Result<Option<RecentNotes>, AllocError> {
        if are_wanted {
            Ok(Some(RecentNotes::new(alloc, tasks, cpus)?))
        } else {
            Ok(None)
        }
    }

    /// Keeps a note with the others of its task and of its CPU. The answer is the ejection that it notes, if it notes
    /// one.
    pub(crate) fn take(&mut self, moment: Moment, note: Note) -> Option<Ejection> {
        let ejection = ejection_of(moment, note.clock, note.what);
        match ejection {
            Some(ejection) => self.add_for(ejection.task, ejection.cpu, note),
            None => self.add_for(task_of(note.what), cpu_of(note.what), note),
        }
        ejection
    }

    /// Keeps a note with the others of a task and of a CPU.
    fn add_for(&mut self, task: Option<u16>, cpu: Option<u32>, note: Note) {
        let recent = Recent {
            order: self.count,
            note,
        };
        self.count = self.count.saturating_add(1);
        if let Some(task) = task {
            add_at(&mut self.by_task, task as usize, recent);
        }
        if let Some(cpu) = cpu {
            add_at(&mut self.by_cpu, cpu as usize, recent);
        }
    }

    /// The last notes of the task and of the CPU of an ejection, in their order.
    pub fn of_ejection(&self, alloc: Global, ejection: Ejection) -> Result<Vec<Note>, AllocError> {
        let mut found = Vec::new(alloc);
        if let Some(task) = ejection.task {
            collect(&mut found, &self.by_task, task as usize)?;
        }
        if let Some(cpu) = ejection.cpu {
            collect(&mut found, &self.by_cpu, cpu as usize)?;
        }
        found.sort_by_key(|recent| recent.order)?;
        last_of(alloc, found.as_slice())
    }
}

fn add_at(rings: &mut Vec<Ring>, number: usize, recent: Recent) {
    if let Some(ring) = rings.get_mut(number) {
        ring.add(recent);
    }
}

fn collect(found: &mut Vec<Recent>, rings: &Vec<Ring>, number: usize) -> Result<(), AllocError> {
    let Some(ring) = rings.get(number) else {
        return Ok(());
    };
    for place in ring.notes {
        if let Some(recent) = place {
            found.push(recent)?;
        }
    }
    Ok(())
}

/// The last of these notes, which are in their order, each once.
fn last_of(alloc: Global, sorted: &[Recent]) -> Result<Vec<Note>, AllocError> {
    let mut distinct = Vec::new(alloc);
    let mut before = None;
    for recent in sorted {
        if before != Some(recent.order) {
            distinct.push(recent.note)?;
        }
        before = Some(recent.order);
    }
    let mut last = Vec::new(alloc);
    let skipped = distinct.len().saturating_sub(LINES);
    for note in distinct.iter().skip(skipped) {
        last.push(*note)?;
    }
    Ok(last)
}

/// The task of a note.
pub(crate) fn task_of(what: What) -> Option<u16> {
    match what {
        What::Wake(task)
        | What::Sleep(task)
        | What::Insert(task, _)
        | What::Move(task, _)
        | What::Run(task, _)
        | What::Stop(task, _)
        | What::TaskWeight(task, _)
        | What::Stall(task) => Some(task),
        What::Idle(_) | What::Weight(_, _) | What::Fault(_) | What::Exit(_) => None,
    }
}

/// The CPU of a note.
fn cpu_of(what: What) -> Option<u32> {
    match what {
        What::Move(_, cpu) | What::Run(_, cpu) | What::Stop(_, cpu) | What::Idle(cpu) => Some(cpu),
        _ => None,
    }
}
