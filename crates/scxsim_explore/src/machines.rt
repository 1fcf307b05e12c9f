ghost use Rattle.std.specs.Prelude.{◌≡◌, All, IfOk, IfSome};
ghost use Rattle.scx_explore_findings.specs.Path.{IsAs};

use scx_explore_findings::copies_of;
use scx_sched::Sim;
use std::alloc::{AllocError, Global};
use std::marker::Model;

/// A machine that stays, and others that become what it is when they are taken.
///
/// In a contract they are the state that it has.
#[derive(Drop)]
pub(crate) struct Machines {
    alloc: Global,
    first: Sim,
    others: Vec<Sim>,
}

impl Model for Machines {
    ghost use Rattle.scx_sched.specs.Sim.{SimState};
    ghost use Rattle.std.specs.Prelude.{All};
    ghost use Rattle.scx_explore_findings.specs.Path.{IsAs};

    ghost Value = { SimState };

    ghost view = { λ m. m.first };

    ghost invariant = { λ m. All (IsAs m.first) m.others.items };
}

impl Machines {
    /// The first machine, and `count` others.
    ///
    /// # Errors
    ///
    /// Memory runs out.
    #[tactic(auto, using(scx_explore_findings::proofs::MachineCopies::copies_fit))]
    pub(crate) fn new(alloc: Global, first: Sim, count: usize) -> Result<Machines, AllocError>
        ensures { IfOk result (λ machines. machines ≡ first) }
    {
        match copies_of(alloc, &first, count) {
            Ok(others) => Ok(joined(alloc, first, others)),
            Err(AllocError) => {
                drop(first);
                Err(AllocError)
            }
        }
    }

    /// The allocator of their memory.
    pub(crate) fn alloc(&self) -> Global {
        self.alloc
    }

    /// The machine that stays.
    pub(crate) fn first(&self) -> &Sim
        ensures { result.now ≡ self.now }
    {
        &self.first
    }

    /// Takes one of the others, if one is left. It becomes the machine that stays.
    pub(crate) fn take(&mut self) -> Option<Sim>
        ensures same { self.new ≡ self.old }
        ensures one { IfSome result (λ sim. sim ≡ self.old) }
    {
        match self.others.pop() {
            Some(sim) => Some(begun_anew(&self.first, sim)),
            None => None,
        }
    }

    /// Takes back a machine, which may be taken again.
    pub(crate) fn give_back(&mut self, sim: Sim)
        requires { IsAs self.old sim }
        ensures { self.new ≡ self.old }
    {
        match self.others.push(sim) {
            Ok(()) => {}
            Err(failed) => drop(failed),
        }
    }
}

/// The second machine, as a copy of the first one.
fn begun_anew(first: &Sim, sim: Sim) -> Sim
    requires { IsAs first.now sim }
    ensures { result ≡ first.now }
{
    let mut sim = sim;
    sim.copy_from(first);
    sim
}

fn joined(alloc: Global, first: Sim, others: Vec<Sim>) -> Machines
    requires { All (IsAs first) others.items }
    ensures { result ≡ first }
{
    Machines {
        alloc,
        first,
        others,
    }
}
