ghost use Rattle.std.specs.Prelude.{◌≡◌, Ok, IfOk};
ghost use Rattle.scx_isa_semantics.specs.Memory.{access_size, size_bytes};
ghost use Rattle.scx_isa_semantics.specs.Registers.{number};
ghost use Rattle.scx_abs.specs.Changes.{after_change, done_on, lowest_changed, lowest_in};
ghost use Rattle.scx_abs.specs.Checks.{sets};
ghost use Rattle.scx_abs.specs.Kinds.{IsLeastCover};
ghost use Rattle.scx_abs.specs.Rules.{area_of, binary_kind, load_kind, store_rule};
ghost use Rattle.scx_abs.specs.States.{CoversState, IsProper, kind_at, start_of};

use crate::changes::Change;
use crate::faults::Why;
use crate::kinds::CELL_BYTES;
use crate::memory::Area;
use crate::states::{AbsState, CELLS, start};
use scx_isa::{Access, Callback, Operand, Operation, Register, Size, Width};
use scx_maps::MapDefs;
use scx_vm::Context;
use std::alloc::{AllocError, Global};
use std::marker::Model;

/// A state that is changed in place, and handed over without being copied. It knows how deep the stack
/// was ever written, so that joins look at no more.
///
/// In a contract it is the state.
#[derive(Drop)]
pub struct Known {
    state: Box<AbsState>,
    /// No cell below this one was ever written.
    low: usize,
}

impl Model for Known {
    ghost use Rattle.scx_abs.specs.declared.states.AbsState.{AbsState};
    ghost use Rattle.scx_abs.specs.Changes.{IsBlankBelow};

    ghost Value = { AbsState };

    ghost view = { λ k. k.state.value };

    ghost invariant = { λ k. IsBlankBelow k.low k.state.value };
}

impl Known {
    /// The state in which a callback begins.
    pub fn start(alloc: Global, callback: Callback) -> Result<Known, AllocError>
        ensures { IfOk result (λ known. known ≡ start_of callback) }
    {
        Ok(Known {
            state: Box::new(alloc, start(callback))?,
            low: CELLS,
        })
    }

    /// The state, without how deep the stack was written.
    pub fn state(&self) -> &AbsState
        ensures { result.now ≡ self.now }
    {
        &self.state
    }

    /// A copy in memory of its own.
    pub fn copy(&self, alloc: Global) -> Result<Known, AllocError>
        ensures { IfOk result (λ known. known ≡ self.now) }
    {
        Ok(Known {
            state: Box::new(alloc, *self.state)?,
            low: self.low,
        })
    }

    /// Becomes the other.
    pub fn copy_from(&mut self, other: &Known)
        ensures { self.new ≡ other.now }
    {
        let low = self.low.min(other.low);
        self.state.copy_from(&other.state, low);
        self.low = other.low;
    }

    /// Arithmetic, where its checks pass.
    #[inline(always)]
    #[tactic(auto, using(crate::proofs::Blanks::blank_same))]
    pub fn compute(
        &mut self,
        width: Width,
        operation: Operation,
        destination: Register,
        operand: Operand,
        defs: &MapDefs,
    ) -> Result<(), Why>
        ensures { done_on self.new result
            ≡ sets self.old (number destination)
            (binary_kind defs.now self.old width operation destination operand) }
    {
        self.state
            .compute(width, operation, destination, operand, defs)
    }

    /// A load, where its checks pass. The memory that it takes is answered.
    #[inline(always)]
    #[tactic(auto, using(crate::proofs::Blanks::blank_same))]
    pub fn load(
        &mut self,
        access: Access,
        destination: Register,
        base: Register,
        offset: i16,
        context: &Context,
    ) -> Result<Area, Why>
        ensures done { done_on self.new result
            ≡ sets self.old (number destination)
            (load_kind context.now self.old access base offset) }
        ensures area { IfOk result (λ area. area_of context.now.defs
            (kind_at self.old (number base)) offset
            (size_bytes (access_size access)) ≡ Ok area) }
    {
        self.state.load(access, destination, base, offset, context)
    }

    /// A store, where its checks pass. The memory that it takes is answered.
    #[inline(always)]
    #[tactic(auto, using(crate::proofs::Blanks::blank_stored))]
    pub fn store(
        &mut self,
        size: Size,
        base: Register,
        offset: i16,
        operand: Operand,
        defs: &MapDefs,
    ) -> Result<Area, Why>
        ensures done { done_on self.new result
            ≡ store_rule defs.now self.old size base offset operand }
        ensures area { IfOk result (λ area. area_of defs.now (kind_at self.old (number base)) offset
            (size_bytes size) ≡ Ok area) }
    {
        match self.state.store(size, base, offset, operand, defs) {
            Ok(area) => {
                self.low = self.low.min(lowest_in(area));
                Ok(area)
            }
            Err(why) => Err(why),
        }
    }

    /// Changes the state in place.
    #[inline(always)]
    pub fn change(&mut self, change: &Change)
        ensures { self.new ≡ after_change self.old change.now }
    {
        self.state.change(change);
        self.low = self.low.min(lowest_changed(change));
    }

    /// Joins another state in.
    pub fn join_in(&mut self, other: &Known)
        ensures least { IsLeastCover CoversState self.new self.old other.now }
        ensures proper { IsProper self.old → IsProper other.now → IsProper self.new }
    {
        let low = self.low.min(other.low);
        self.state.join_from(&other.state, low);
        self.low = low;
    }
}

/// The lowest cell that a store there writes, or how many there are where it writes none.
#[inline(always)]
fn lowest_in(area: Area) -> usize
    ensures { result ≡ lowest_in area }
{
    match area {
        Area::OnStack(at) => usize::from(at) / CELL_BYTES,
        _ => CELLS,
    }
}

/// The lowest cell that a change writes, or how many there are where it writes none.
#[inline(always)]
fn lowest_changed(change: &Change) -> usize
    ensures { result ≡ lowest_changed change.now }
{
    match *change {
        Change::Filled(_, at, _) => usize::from(at) / CELL_BYTES,
        _ => CELLS,
    }
}
