use crate::search::{Search, Stop};
use scx_explore_bounds::Memory;
use scx_explore_machines::{Lost, Way};

impl Search {
    /// There is no room for the state of that machine. Answers the machine, or another one in its place.
    pub(crate) fn lose(&mut self, machine: usize, memory: &Memory, way: Way) -> usize {
        let (end, events) = (self.end, self.events);
        self.revisits.close(end, events);
        let depth = self.revisits.depth().saturating_add(1);
        if depth > self.depth {
            self.revisits.leave();
            return machine;
        }
        let (mine, left) = match self.machines.take() {
            Some(other) => {
                self.machines.set_memory(machine, *memory);
                (Some(machine), other)
            }
            None => (None, machine),
        };
        let lost = Lost {
            machine: mine,
            depth,
            step: way.step,
        };
        if !self.revisits.put(lost) {
            self.full = true;
        }
        left
    }

    /// Goes through one of the states for which there was no room, or through a kept one that leads to some. Answers
    /// whether there was one.
    pub(crate) fn revisit_next(&mut self) -> bool {
        let (depth, end) = (self.depth, self.end);
        if let Some(lost) = self.revisits.take(depth) {
            self.go_through(lost.machine);
            return true;
        }
        if self.revisits.next_origin(depth, end).is_none() {
            return false;
        }
        self.go_through(None);
        true
    }

    /// A machine in the state that is gone through, which has none of its own: it comes along the trail to a kept one,
    /// and on by the steps from there.
    pub(crate) fn revisit_machine(&mut self) -> Option<usize> {
        let origin = self.revisits.origin();
        let mut machine = self.follow_trail(origin.state, origin.depth)?;
        for at in 0..self.revisits.len() {
            let step = self.revisits.step(at)?;
            let state = usize::MAX;
            machine = self.lengthen(Stop { state, step }, usize::MAX)?;
        }
        Some(machine)
    }
}
