ghost use Rattle.std.specs.Prelude.{◌≡◌, ◌<◌, length, slice_index_or, slice_set, All, IfOk};
ghost use Rattle.scx_sched_machine.specs.Notes.{Takes};
ghost use Rattle.scx_sched.specs.Sim.{SimState, refusal, answer_of, after_event, notes_of};
ghost use Rattle.scx_explore_findings.specs.Copies.{AreCopies};
ghost use Rattle.scx_explore_findings.specs.Path.{IsAs};
ghost use Rattle.scx_explore_findings.specs.Pool.{machine_at, with_machine};

use crate::copies::copies_of;
use scx_sched::{Event, Refused, Sim, Sink};
use std::alloc::{AllocError, Global};
use std::marker::Model;

/// Machines of the same policy and size, by number.
///
/// In a contract it is the machine from which each may begin, and the machines.
#[derive(Drop)]
pub struct Pool {
    root: Sim,
    sims: Vec<Sim>,
}

impl Model for Pool {
    ghost use Rattle.scx_explore_findings.specs.Pool.{PoolState};

    ghost Value = { PoolState };

    ghost use Rattle.scx_explore_findings.specs.Pooled.{pool_of, AreAlike};

    ghost view = { pool_of };

    ghost invariant = { AreAlike };
}

impl Pool {
    /// A pool of this machine and `count` copies of it.
    ///
    /// # Errors
    ///
    /// Memory runs out.
    #[tactic(auto, using(crate::proofs::MachineCopies::copies_fit))]
    pub fn new(alloc: Global, root: Sim, count: usize) -> Result<Pool, AllocError>
        ensures root { IfOk result (λ pool. pool.root ≡ root) }
        ensures sims { IfOk result (λ pool. AreCopies root count pool.sims) }
    {
        let sims = copies_of(alloc, &root, count)?;
        Ok(Pool { root, sims })
    }

    /// The number of machines; their own numbers are below it.
    pub fn len(&self) -> usize
        ensures { result ≡ length self.now.sims }
    {
        self.sims.len()
    }

    /// The machine from which each may begin.
    pub fn root(&self) -> &Sim
        ensures { result.now ≡ self.now.root }
    {
        &self.root
    }

    /// The machine of that number.
    pub fn sim(&self, number: usize) -> &Sim
        requires { number < length self.now.sims }
        ensures { result.now ≡ machine_at self.now number }
    {
        &self.sims[number]
    }

    /// Sets a machine back to where each begins.
    pub fn begin(&mut self, number: usize)
        requires { number < length self.old.sims }
        ensures { self.new ≡ with_machine self.old number self.old.root }
    {
        begin_in(&self.root, self.sims.as_mut_slice(), number);
    }

    /// The second machine becomes what the first one is.
    pub fn copy(&mut self, from: usize, to: usize)
        requires from { from < length self.old.sims }
        requires to { to < length self.old.sims }
        ensures { self.new ≡ with_machine self.old to (machine_at self.old from) }
    {
        copy_between(&self.root, self.sims.as_mut_slice(), from, to);
    }

    /// Gives the event to a machine. One that is refused changes nothing, and has no notes.
    #[inline(always)]
    pub fn step<S: Sink>(
        &mut self,
        number: usize,
        event: Event,
        sink: &mut S,
    ) -> Result<(), Refused>
        requires { number < length self.old.sims }
        ensures answer { result ≡ answer_of (refusal (machine_at self.old number) event) }
        ensures machines { self.new
            ≡ with_machine self.old number (after_event (machine_at self.old number) event) }
        ensures notes { Takes S.takes sink.old (notes_of (machine_at self.old number) event)
            sink.new }
    {
        step_in(&self.root, self.sims.as_mut_slice(), number, event, sink)
    }
}

/// The machine at the one place becomes what the one at the other place is.
fn copy_between(root: &Sim, sims: &mut [Sim], from: usize, to: usize)
    requires from { from < length sims.old }
    requires to { to < length sims.old }
    requires alike { All (IsAs root.now) sims.old }
    ensures sims { sims.new ≡ slice_set sims.old to (slice_index_or sims.old from root.now) }
    ensures alike { All (IsAs root.now) sims.new }
{
    if from < to {
        copy_up(root, sims, from, to);
    } else if to < from {
        copy_down(root, sims, from, to);
    }
}

/// To a greater number.
fn copy_up(root: &Sim, sims: &mut [Sim], from: usize, to: usize)
    requires up { from < to }
    requires to { to < length sims.old }
    requires alike { All (IsAs root.now) sims.old }
    ensures sims { sims.new ≡ slice_set sims.old to (slice_index_or sims.old from root.now) }
    ensures alike { All (IsAs root.now) sims.new }
{
    let (before, rest) = sims.split_at_mut(to);
    take_over(&mut rest[0], &before[from]);
}

/// To a lesser number.
fn copy_down(root: &Sim, sims: &mut [Sim], from: usize, to: usize)
    requires from { from < length sims.old }
    requires down { to < from }
    requires alike { All (IsAs root.now) sims.old }
    ensures sims { sims.new ≡ slice_set sims.old to (slice_index_or sims.old from root.now) }
    ensures alike { All (IsAs root.now) sims.new }
{
    let (before, rest) = sims.split_at_mut(from);
    take_over(&mut before[to], &rest[0]);
}

/// The first machine becomes what the second one is.
fn take_over(sim: &mut Sim, from: &Sim)
    requires { IsAs sim.old from.now }
    ensures { sim.new ≡ from.now }
{
    sim.copy_from(from);
}

/// The machine at that place becomes what that one is.
fn begin_in(root: &Sim, sims: &mut [Sim], number: usize)
    requires there { number < length sims.old }
    requires alike { All (IsAs root.now) sims.old }
    ensures sims { sims.new ≡ slice_set sims.old number root.now }
    ensures alike { All (IsAs root.now) sims.new }
{
    take_over(&mut sims[number], root);
}

/// The machine at that place has the event.
#[inline(always)]
fn step_in<S: Sink>(
    root: &Sim,
    sims: &mut [Sim],
    number: usize,
    event: Event,
    sink: &mut S,
) -> Result<(), Refused>
    requires there { number < length sims.old }
    requires alike { All (IsAs root.now) sims.old }
    ensures answer { result ≡ answer_of (refusal (slice_index_or sims.old number root.now) event) }
    ensures sims { sims.new ≡ slice_set sims.old number
        (after_event (slice_index_or sims.old number root.now) event) }
    ensures notes { Takes S.takes sink.old
        (notes_of (slice_index_or sims.old number root.now) event) sink.new }
    ensures alike { All (IsAs root.now) sims.new }
{
    sims[number].step(event, sink)
}
