ghost use Rattle.std.specs.Prelude.{◌≤◌, length};

use std::alloc::{AllocError, Global};
use std::marker::Model;

/// The number of places in which a state is looked for.
pub(crate) const PROBES: usize = 256;

/// The number of places at first.
const FEW: usize = 65_536;

/// The factor by which places grow each time that they have become too few.
const TIMES: usize = 8;

/// Places where states are looked for, each marked with the number of one, or free.
///
/// In a contract it is nothing: whether a state is the one of a number is told by its words.
#[derive(Drop)]
pub(crate) struct Marks {
    /// One more than the number of a state, or 0.
    numbers: Vec<usize>,
}

impl Model for Marks {
    ghost use Rattle.std.specs.Prelude.{◌<◌, length};

    ghost Value = { Unit {0} };

    ghost view = { λ m. tt };

    ghost invariant = { λ m. 0 < length m.numbers.items };
}

impl Marks {
    /// Places for `states` states. All memory is taken here.
    pub(crate) fn new(alloc: Global, states: usize) -> Result<Marks, AllocError> {
        let most = (states / 4).saturating_mul(5).saturating_add(1);
        let mut numbers = Vec::with_capacity(alloc, most)?;
        numbers.push_reserved(0);
        add(&mut numbers, FEW);
        Ok(Marks { numbers })
    }

    /// The place that is looked at `probe` places after that one.
    pub(crate) fn place(&self, start: usize, probe: usize) -> usize {
        start.wrapping_add(probe) % self.numbers.len()
    }

    /// The number of the state at that place; none where it is free.
    pub(crate) fn number_at(&self, place: usize) -> Option<usize> {
        match self.numbers.get(place) {
            Some(mark) => mark.checked_sub(1),
            None => None,
        }
    }

    /// Marks a place with a number.
    pub(crate) fn set(&mut self, place: usize, number: usize) {
        if let Some(mark) = self.numbers.get_mut(place) {
            *mark = number.saturating_add(1);
        }
    }

    /// The first place that is free of those where a state is looked for from that one on is marked with the number.
    pub(crate) fn add_from(&mut self, start: usize, number: usize) {
        if let Some(place) = self.free_from(start) {
            self.set(place, number);
        }
    }

    fn free_from(&self, start: usize) -> Option<usize> {
        for probe in 0..PROBES {
            let place = self.place(start, probe);
            if self.number_at(place).is_none() {
                return Some(place);
            }
        }
        None
    }

    /// True if `states` states have more than half of the places, and there may be more.
    pub(crate) fn are_few(&self, states: usize) -> bool {
        states > self.numbers.len() / 2 && self.numbers.len() < self.numbers.capacity()
    }

    /// There are more places, and all of them are free.
    pub(crate) fn widen(&mut self) {
        let more = self.numbers.len().saturating_mul(TIMES - 1);
        self.numbers.as_mut_slice().fill(0);
        add(&mut self.numbers, more);
    }
}

/// Adds `count` free places, as far as there is room.
fn add(numbers: &mut Vec<usize>, count: usize)
    ensures { length numbers.old.items ≤ length numbers.new.items }
{
    for _ in 0..count {
        if numbers.len() >= numbers.capacity() {
            return;
        }
        numbers.push_reserved(0);
    }
}
