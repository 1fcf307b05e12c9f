ghost use Rattle.std.specs.Prelude.{◌≡◌, length};
ghost use Rattle.scx_explore_bounds.specs.Events.{change_at, event_of};

use crate::bounds::{Bounds, Mode};
use scx_load_workloads::{Change, Weighed, Workload};
use scx_sched::Event;
use std::alloc::{AllocError, Global};
use std::marker::Model;

/// The most different changes of weights that a search tries.
pub const MOST_CHANGES: usize = 64;

/// The weights that groups and tasks may come to have, each once.
///
/// In a contract it is the changes that give them.
#[derive(Drop)]
pub struct Changes {
    changes: Vec<Change>,
    /// Bit i is set where the workload's group or task has the weight of change i.
    first: u64,
}

impl Model for Changes {
    ghost use Rattle.std.specs.Prelude.{List};
    ghost use Rattle.scx_load_workloads.specs.declared.workload.Change.{Change};

    ghost Value = { List Change };

    ghost view = { λ c. c.changes.items };
}

impl Changes {
    /// Those of the workload where events are gone through, else none.
    pub fn new(alloc: Global, bounds: Bounds, workload: &Workload) -> Result<Changes, AllocError> {
        let mut changes = Changes {
            changes: Vec::with_capacity(alloc, MOST_CHANGES)?,
            first: 0,
        };
        if bounds.mode == Mode::Events {
            for change in workload.changes() {
                changes.add(*change, workload);
            }
        }
        Ok(changes)
    }

    fn add(&mut self, change: Change, workload: &Workload) {
        if self.has(change) || self.changes.len() >= self.changes.capacity() {
            return;
        }
        if weight_in(workload, change.weighed) == Some(change.weight) {
            self.first |= bit(self.changes.len());
        }
        self.changes.push_reserved(change);
    }

    fn has(&self, change: Change) -> bool {
        for other in &self.changes {
            if other.weighed == change.weighed && other.weight == change.weight {
                return true;
            }
        }
        false
    }

    /// True if there are any.
    pub fn are_some(&self) -> bool {
        !self.changes.is_empty()
    }

    /// True if there are any of tasks. Tasks of a group are told apart by them.
    pub fn have_tasks(&self) -> bool {
        for change in &self.changes {
            if let Weighed::Task(_) = change.weighed {
                return true;
            }
        }
        false
    }

    /// The number of changes.
    pub fn len(&self) -> usize
        ensures { result ≡ length self.now }
    {
        self.changes.len()
    }

    /// The groups and tasks that have such a weight before the first event, a bit for each change.
    pub fn first(&self) -> u64 {
        let first = self.first;
        first
    }

    /// The event of that change; none where there is no such change.
    pub fn event(&self, at: usize) -> Option<Event>
        ensures { result ≡ change_at self.now at }
    {
        match self.changes.get(at) {
            Some(change) => Some(event_of(*change)),
            None => None,
        }
    }

    /// The groups and tasks that have such a weight, once one of them gets a weight.
    pub fn after(&self, before: u64, weighed: Weighed, weight: u32) -> u64 {
        let mut after = before;
        for at in 0..self.changes.len() {
            let change = self.changes[at];
            if change.weighed != weighed {
                continue;
            }
            if change.weight == weight {
                after |= bit(at);
            } else {
                after &= !bit(at);
            }
        }
        after
    }
}

/// The weight of a group or a task before the first event; none where there is no such one.
fn weight_in(workload: &Workload, weighed: Weighed) -> Option<u32> {
    match weighed {
        Weighed::Group(group) => Some(workload.groups().get(group as usize)?.weight),
        Weighed::Task(task) => workload.own_weights().get(usize::from(task)).copied(),
    }
}

/// The event of a change.
fn event_of(change: Change) -> Event
    ensures { result ≡ event_of change }
{
    match change.weighed {
        Weighed::Group(group) => Event::SetWeight(group, change.weight),
        Weighed::Task(task) => Event::SetTaskWeight(task, change.weight),
    }
}

fn bit(at: usize) -> u64 {
    1u64.wrapping_shl((at % 64) as u32)
}
