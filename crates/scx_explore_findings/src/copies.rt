ghost use Rattle.std.specs.Prelude.{◌≡◌, ◌++◌, ◌∷◌, [], IfOk, OnOk};
ghost use Rattle.scx_explore_findings.specs.Copies.{AreCopies};

use scx_sched::Sim;
use std::alloc::{AllocError, Global};

/// Makes `count` machines, each the same as this one.
///
/// # Errors
///
/// Memory runs out.
pub fn copies_of(alloc: Global, root: &Sim, count: usize) -> Result<Vec<Sim>, AllocError>
    ensures { IfOk result (λ sims. AreCopies root.now count sims.items) }
{
    let mut sims = Vec::with_capacity(alloc, count)?;
    match fill(&mut sims, alloc, root, count) {
        Ok(()) => Ok(sims),
        Err(error) => {
            drop(sims);
            Err(error)
        }
    }
}

/// Adds `count` machines to a list of none.
fn fill(sims: &mut Vec<Sim>, alloc: Global, root: &Sim, count: usize) -> Result<(), AllocError>
    requires { sims.old.items ≡ [] }
    ensures { OnOk result (AreCopies root.now count sims.new.items) }
{
    for made in 0..count {
        add_copy(sims, alloc, root)?;
    }
    Ok(())
}

fn add_copy(sims: &mut Vec<Sim>, alloc: Global, root: &Sim) -> Result<(), AllocError>
    ensures { OnOk result (sims.new.items ≡ sims.old.items ++ root.now ∷ []) }
{
    let sim = root.duplicate(alloc)?;
    match sims.push(sim) {
        Ok(()) => Ok(()),
        Err(failed) => {
            drop(failed);
            Err(AllocError)
        }
    }
}
