ghost use Rattle.std.specs.Prelude.{◌≡◌, ℕ, ◌+◌, ◌<◌, ◌≤◌, ◌++◌, ◌∷◌, [], All, length, Some, None, if◌then◌else◌, IfOk, OnOk, OnErr};
ghost use Rattle.scx_abs.specs.Changes.{after_change};
ghost use Rattle.scx_abs.specs.Kinds.{IsLeastCover};
ghost use Rattle.scx_abs.specs.States.{CoversState, IsProper};
ghost use Rattle.scx_verify.specs.Indices.{IsPlacedAt};
ghost use Rattle.scx_verify.specs.Pass.{IsAdded, states_of};

use scx_abs::{Change, Known};
use scx_isa::{Callback, MAX_SLOTS};
use std::alloc::{AllocError, Global};
use std::marker::Model;
use std::mem::swap;

/// The states that jumps sent to the slots ahead. They are kept apart, each for one slot at most,
/// and written over once their slot was reached.
///
/// In a contract it is the list of what is known of each slot so far.
#[derive(Drop)]
pub(crate) struct Ahead {
    alloc: Global,
    /// Where a state is changed that is joined into another one.
    spare: Known,
    /// For each slot, and the end, the index of its state, if it has one.
    indices: Vec<Option<u16>>,
    states: Vec<Known>,
    /// Indices of states that no slot has any more.
    free: Vec<u16>,
}

impl Model for Ahead {
    ghost use Rattle.std.specs.Prelude.{List, Option, length};
    ghost use Rattle.scx_abs.specs.declared.states.AbsState.{AbsState};
    ghost use Rattle.scx_verify.specs.Indices.{known_of, IsApart};

    ghost Value = { List (Option AbsState) };

    ghost view = { λ a. known_of a.indices.items a.states.items };

    ghost invariant = { λ a. IsApart a.indices.items a.free.items (length a.states.items) };
}

impl Ahead {
    /// Nothing is known of the slots, nor of the end.
    pub(crate) fn new(alloc: Global, slots: usize) -> Result<Ahead, AllocError>
        requires { slots ≤ MAX_SLOTS }
        ensures none { IfOk result (λ ahead. (t : ℕ) → states_of ahead t ≡ None) }
        ensures long { IfOk result (λ ahead. length ahead ≡ slots + 1) }
    {
        Ok(Ahead {
            alloc,
            spare: Known::start(alloc, Callback::Plain)?,
            indices: vec![in alloc; None; slots + 1]?,
            states: Vec::new(alloc),
            free: Vec::new(alloc),
        })
    }

    /// Sends a state, changed, to a slot.
    pub(crate) fn send(
        &mut self,
        slot: usize,
        state: &Known,
        change: &Change,
    ) -> Result<(), AllocError>
        requires { slot < length self.old }
        ensures sent { OnOk result
            (IsAdded (states_of self.old slot) (Some (after_change state.now change.now))
            (states_of self.new slot)) }
        ensures apart { OnOk result
            ((t : ℕ) → (t ≡ slot → ⊥) → states_of self.new t ≡ states_of self.old t) }
        ensures long { length self.new ≡ length self.old }
    {
        match self.indices[slot] {
            Some(index) => {
                write_over(&mut self.spare, state, change);
                self.states[usize::from(index)].join_in(&self.spare);
            }
            None => {
                let index = keep(self.alloc, &mut self.states, &mut self.free, state, change)?;
                self.indices[slot] = Some(index);
            }
        }
        Ok(())
    }

    /// Gives the state away to a slot. What is left of it is any state.
    pub(crate) fn hand(&mut self, slot: usize, state: &mut Known) -> Result<(), AllocError>
        requires { slot < length self.old }
        ensures sent { OnOk result
            (IsAdded (states_of self.old slot) (Some state.old) (states_of self.new slot)) }
        ensures apart { OnOk result
            ((t : ℕ) → (t ≡ slot → ⊥) → states_of self.new t ≡ states_of self.old t) }
        ensures long { length self.new ≡ length self.old }
    {
        match self.indices[slot] {
            Some(index) => self.states[usize::from(index)].join_in(state),
            None => {
                let index = give(self.alloc, &mut self.states, &mut self.free, state)?;
                self.indices[slot] = Some(index);
            }
        }
        Ok(())
    }

    /// Comes to a slot with a state, if control comes there, and takes in what jumps sent there:
    /// whether control comes there now.
    #[inline(always)]
    pub(crate) fn arrive(&mut self, slot: usize, state: &mut Known, live: bool) -> bool
        requires { slot < length self.old }
        ensures here { IsAdded (states_of self.old slot) (if live then Some state.old else None)
            (if result then Some state.new else None) }
        ensures apart { (t : ℕ) → (t ≡ slot → ⊥)
            → states_of self.new t ≡ states_of self.old t }
        ensures gone { states_of self.new slot ≡ None }
        ensures long { length self.new ≡ length self.old }
    {
        if self.indices[slot].is_none() {
            live
        } else {
            self.take_in(slot, state, live)
        }
    }

    /// Takes in what was sent to the slot, where something may have been sent.
    fn take_in(&mut self, slot: usize, state: &mut Known, live: bool) -> bool
        requires { slot < length self.old }
        ensures here { IsAdded (states_of self.old slot) (if live then Some state.old else None)
            (if result then Some state.new else None) }
        ensures apart { (t : ℕ) → (t ≡ slot → ⊥)
            → states_of self.new t ≡ states_of self.old t }
        ensures gone { states_of self.new slot ≡ None }
        ensures long { length self.new ≡ length self.old }
    {
        let Some(index) = self.indices[slot] else {
            return live;
        };
        merge(&mut self.states[usize::from(index)], state, live);
        self.indices[slot] = None;
        // Where memory is short it is let go.
        let _ = self.free.push(index);
        true
    }
}

/// Joins a state that was kept into the one at hand, if there is one; else they change places.
fn merge(kept: &mut Known, state: &mut Known, live: bool)
    ensures { IsAdded (Some kept.old) (if live then Some state.old else None) (Some state.new) }
{
    if live {
        state.join_in(kept);
    } else {
        swap(kept, state);
    }
}

/// Keeps a state, changed, at an index of its own, which is the result.
fn keep(
    alloc: Global,
    states: &mut Vec<Known>,
    free: &mut Vec<u16>,
    state: &Known,
    change: &Change,
) -> Result<u16, AllocError>
    requires { All (λ i. i < length states.old.items) free.old.items }
    ensures kept { IfOk result (λ index.
        IsPlacedAt states.old.items free.old.items index (after_change state.now change.now)
        states.new.items free.new.items) }
    ensures states { OnErr result (states.new.items ≡ states.old.items) }
    ensures free { OnErr result (free.new.items ≡ free.old.items) }
{
    match free.pop() {
        Some(index) => {
            write_over(&mut states[usize::from(index)], state, change);
            Ok(index)
        }
        None => add(alloc, states, state, change),
    }
}

/// Keeps a state, which changes places with one that no slot has any more; the result is its index.
fn give(
    alloc: Global,
    states: &mut Vec<Known>,
    free: &mut Vec<u16>,
    state: &mut Known,
) -> Result<u16, AllocError>
    requires { All (λ i. i < length states.old.items) free.old.items }
    ensures kept { IfOk result (λ index.
        IsPlacedAt states.old.items free.old.items index state.old
        states.new.items free.new.items) }
    ensures states { OnErr result (states.new.items ≡ states.old.items) }
    ensures free { OnErr result (free.new.items ≡ free.old.items) }
{
    match free.pop() {
        Some(index) => {
            swap(&mut states[usize::from(index)], state);
            Ok(index)
        }
        None => add(alloc, states, state, &Change::Nothing),
    }
}

/// Becomes a state, changed.
fn write_over(kept: &mut Known, state: &Known, change: &Change)
    ensures { kept.new ≡ after_change state.now change.now }
{
    kept.copy_from(state);
    kept.change(change);
}

/// Keeps a state, changed, after the others, of which there may be 65535; the result is its index.
fn add(
    alloc: Global,
    states: &mut Vec<Known>,
    state: &Known,
    change: &Change,
) -> Result<u16, AllocError>
    ensures index { IfOk result (λ index. index ≡ length states.old.items) }
    ensures added { OnOk result
        (states.new.items ≡ states.old.items ++ after_change state.now change.now ∷ []) }
    ensures left { OnErr result (states.new.items ≡ states.old.items) }
{
    let Ok(index) = u16::try_from(states.len()) else {
        return Err(AllocError);
    };
    let mut copy = state.copy(alloc)?;
    copy.change(change);
    states.push(copy)?;
    Ok(index)
}
