ghost use Rattle.std.specs.Prelude.{◌≡◌, ◌+◌, ◌<◌, ◌^◌, length, Ok, IfOk};
ghost use Rattle.scx_verify_explain.specs.Leading.{sent_by_jump, jump_from, first_at, next_at};
ghost use Rattle.scx_verify_explain.specs.Leading.{AreJumpsFrom, AreJumps};

use crate::listing::{Listing, next_of, target_of};
use scx_abs::{Next, transfer};
use scx_isa::Insn;
use std::alloc::{AllocError, Global};

/// From where control jumps to each slot of a program, as far as the pass of the verifier comes.
#[derive(Drop)]
pub struct Jumps {
    /// For each slot the first instruction that jumps there.
    first: Vec<Option<usize>>,
    /// For each instruction that jumps the next one that jumps to the same slot.
    next: Vec<Option<usize>>,
}

impl Jumps {
    /// Collects the jumps of a listing, from the last one on.
    ///
    /// # Errors
    ///
    /// Memory ran out.
    pub fn new(alloc: Global, listing: &Listing) -> Result<Jumps, AllocError>
        ensures { IfOk result (AreJumps listing.now) }
    {
        let mut jumps = Jumps {
            first: vec![in alloc; None; listing.slots()]?,
            next: vec![in alloc; None; listing.slots()]?,
        };
        let mut from = listing.slots();
        while from > 0 {
            from -= 1;
            jumps.take_in(listing, from);
        }
        Ok(jumps)
    }

    /// Takes in the jump from a slot; those from later slots are there.
    fn take_in(&mut self, listing: &Listing, from: usize)
        requires within { from < length listing.now.code.items }
        requires behind { AreJumpsFrom listing.now (from + 1) self.old }
        ensures { AreJumpsFrom listing.now from self.new }
    {
        match jumped_to(listing, from) {
            Some(to) => {
                if to < self.first.len() {
                    self.next[from] = self.first[to];
                    self.first[to] = Some(from);
                }
            }
            None => (),
        }
    }

    /// The slot of the first instruction that jumps to the slot.
    pub fn first(&self, slot: usize) -> Option<usize>
        ensures { result ≡ first_at self.now slot }
    {
        *self.first.get(slot)?
    }

    /// The slot of the next instruction that jumps where the one at the slot does.
    pub fn next(&self, slot: usize) -> Option<usize>
        ensures { result ≡ next_at self.now slot }
    {
        *self.next.get(slot)?
    }
}

/// Where control jumps from the instruction at the slot, and doesn't go on to.
fn jumped_to(listing: &Listing, slot: usize) -> Option<usize>
    ensures { result ≡ jump_from listing.now slot }
{
    let insn = listing.insn(slot)?;
    let state = listing.state(slot)?;
    match transfer(state, &insn, listing.context()) {
        Ok(next) => sent_by_jump(slot, insn, &next),
        Err(_) => None,
    }
}

/// Where a jump goes by what flows on from it, and doesn't go on to.
fn sent_by_jump(slot: usize, insn: Insn, next: &Next) -> Option<usize>
    requires { slot < 2 ^ 63 }
    ensures { result ≡ sent_by_jump slot insn (Ok next.now) }
{
    if next.jump.is_none() {
        return None;
    }
    let to = target_of(slot, insn)?;
    if next.on.is_some() && to == next_of(slot, insn) {
        None
    } else {
        Some(to)
    }
}
