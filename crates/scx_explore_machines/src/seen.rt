ghost use Rattle.std.specs.Prelude.{◌≡◌, ◌+◌, ◌<◌, ◌≤◌, ◌++◌, true, length, IfOk, IfSome, vec_capacity};
ghost use Rattle.scx_explore_machines.specs.Seen.{IsEntered, IsPlace, state_at, way_at, no_states};

use crate::marks::{Marks, PROBES};
use scx_explore_states::Step;
use std::alloc::{AllocError, Global};
use std::marker::Model;

/// The way to a state: the state before it, and the step from there.
#[derive(Clone, Copy)]
pub struct Way {
    pub from: usize,
    pub step: Step,
}

/// The result of entering a state.
#[derive(Clone, Copy)]
pub enum Entered {
    /// It was met before, under that number.
    Was(usize),
    /// It is kept from now on, under that number.
    New(usize),
    /// There is no room for it.
    Full,
}

/// The place in which a state is kept, or could be.
#[derive(Clone, Copy)]
pub(crate) enum Place {
    Of(usize),
    Free(usize),
    Nowhere,
}

/// States that were met, by number, and how each was come to.
#[derive(Drop)]
pub struct Seen {
    width: usize,
    room: usize,
    count: usize,
    words: Vec<u64>,
    ways: Vec<Way>,
    marks: Marks,
}

impl Model for Seen {
    ghost use Rattle.scx_explore_machines.specs.Seen.{Kept, view_of, IsFilled};

    ghost Value = { Kept };

    ghost view = { view_of };

    ghost invariant = { IsFilled };
}

impl Seen {
    /// Room for `room` states of `width` words each. All memory is taken here.
    ///
    /// # Errors
    ///
    /// Memory runs out, or the states would have no words or more than can be counted.
    pub fn new(alloc: Global, width: usize, room: usize) -> Result<Seen, AllocError>
        ensures { IfOk result (λ seen. seen ≡ no_states width) }
    {
        let Some(words) = room.checked_mul(width) else {
            return Err(AllocError);
        };
        if width == 0 {
            return Err(AllocError);
        }
        Ok(Seen {
            width,
            room,
            count: 0,
            words: Vec::with_capacity(alloc, words)?,
            ways: Vec::with_capacity(alloc, room)?,
            marks: Marks::new(alloc, room)?,
        })
    }

    /// The number of words of a state.
    pub fn width(&self) -> usize
        ensures { result ≡ self.now.width }
    {
        let width = self.width;
        width
    }

    /// The number of states that are kept.
    pub fn len(&self) -> usize
        ensures { result ≡ self.now.count }
    {
        let count = self.count;
        count
    }

    /// The state of that number.
    pub fn state(&self, number: usize) -> &[u64]
        requires { number < self.now.count }
        ensures { result.now ≡ state_at self.now number }
    {
        let from = number * self.width;
        &self.words[from..from + self.width]
    }

    /// The way to the state of that number; none if there is no such state.
    pub fn way(&self, number: usize) -> Option<Way>
        ensures { result ≡ way_at self.now number }
    {
        match self.ways.get(number) {
            Some(way) => Some(*way),
            None => None,
        }
    }

    /// The number of the state, if it is kept.
    pub fn number_of(&self, state: &[u64]) -> Option<usize>
        ensures there { IfSome result (λ number. number < self.now.count) }
        ensures same { IfSome result (λ number. state_at self.now number ≡ state.now) }
    {
        match self.look(state) {
            Place::Of(number) => Some(number),
            Place::Free(_) | Place::Nowhere => None,
        }
    }

    /// Enters a state, if it wasn't met before. The hash only says where to look. There is no room for one of another
    /// length.
    pub fn enter(&mut self, state: &[u64], way: Way) -> Entered
        ensures { IsEntered self.old state.now way result self.new }
    {
        match self.look(state) {
            Place::Of(number) => Entered::Was(number),
            Place::Free(at) => self.push(at, state, way),
            Place::Nowhere => Entered::Full,
        }
    }

    /// The place in which the state is kept, or could be.
    fn look(&self, state: &[u64]) -> Place
        ensures { IsPlace self.now state.now result }
    {
        if state.len() != self.width {
            return Place::Nowhere;
        }
        let start = hash(state);
        for probe in 0..PROBES {
            let at = self.marks.place(start, probe);
            let Some(number) = self.marks.number_at(at) else {
                return Place::Free(at);
            };
            if self.is_at(number, state) {
                return Place::Of(number);
            }
        }
        Place::Nowhere
    }

    /// True if that is the state of that number.
    fn is_at(&self, number: usize, state: &[u64]) -> bool
        requires { length state.now ≡ self.now.width }
        ensures known { result ≡ true → number < self.now.count }
        ensures same { result ≡ true → state_at self.now number ≡ state.now }
    {
        if number >= self.count {
            return false;
        }
        let from = number * self.width;
        &self.words[from..from + self.width] == state
    }

    fn push(&mut self, at: usize, state: &[u64], way: Way) -> Entered
        requires state { length state.now ≡ self.old.width }
        ensures { IsEntered self.old state.now way result self.new }
    {
        if self.count >= self.room {
            return Entered::Full;
        }
        append(&mut self.words, state);
        self.ways.push_reserved(way);
        let number = self.count;
        self.count += 1;
        self.marks.set(at, number);
        self.widen_if_few();
        Entered::New(number)
    }

    /// If many of the places are taken, makes more of them, and finds each state a new one.
    fn widen_if_few(&mut self)
        ensures { self.new ≡ self.old }
    {
        if self.marks.are_few(self.count) {
            self.marks.widen();
            mark_all(&mut self.marks, &self.words, self.width);
        }
    }
}

/// Gives each state of `width` words a place.
fn mark_all(marks: &mut Marks, words: &[u64], width: usize)
    requires { 0 < width }
{
    let mut number: usize = 0;
    for state in words.chunks(width) {
        marks.add_from(hash(state), number);
        number = number.saturating_add(1);
    }
}

/// Appends the numbers, for which there is room.
fn append(words: &mut Vec<u64>, state: &[u64])
    requires { length words.old.items + length state.now ≤ vec_capacity words.old }
    ensures items { words.new.items ≡ words.old.items ++ state.now }
    ensures room { vec_capacity words.new ≡ vec_capacity words.old }
{
    for word in state {
        words.push_reserved(*word);
    }
}

/// Any number serves.
fn hash(state: &[u64]) -> usize {
    let mut sum: u64 = 0;
    for word in state {
        sum = (sum.rotate_left(29) ^ *word).wrapping_mul(0x9e37_79b9_7f4a_7c15);
    }
    sum as usize
}
