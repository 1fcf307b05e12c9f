ghost use Rattle.std.specs.Prelude.{◌≡◌, ◌⊎◌, ⊤, true, false};
ghost use Rattle.scx_explore_findings.specs.Tallies.{Tells};
ghost use Rattle.scx_explore_findings.specs.declared.tally.Tally.{Tally};

use crate::counted::run_counted;
use scx_isa::Callback;
use scx_maps::Maps;
use scx_sched::{Hearer, Note};
use scx_sched_world::World;
use scx_verify::Verified;
use scx_vm::Args;
use scx_vm_run::Core;

/// Runs programs, and looks for a run of one callback that takes a given number of instructions.
#[derive(Drop)]
pub(crate) struct Tally {
    pub(crate) callback: Callback,
    pub(crate) instructions: u64,
    pub(crate) has_run: bool,
}

impl Tally {
    /// There was no run yet.
    pub(crate) fn of(callback: Callback, instructions: u64) -> Tally
        ensures { result
            ≡ record { callback = callback; instructions = instructions; has_run = false } }
    {
        Tally {
            callback,
            instructions,
            has_run: false,
        }
    }

    /// Looks at a run of that callback, which took `steps` instructions.
    fn look(&mut self, callback: Callback, steps: usize)
        ensures callback { self.new.callback ≡ self.old.callback }
        ensures instructions { self.new.instructions ≡ self.old.instructions }
        ensures seen { self.new.has_run ≡ true → (self.old.has_run ≡ true)
            ⊎ ((callback ≡ self.old.callback) × (steps ≡ self.old.instructions)) }
    {
        if callback == self.callback && steps as u64 == self.instructions {
            self.has_run = true;
        }
    }
}

impl Hearer for Tally {
    ghost Noted = { ⊤ };

    ghost noted = { λ s. tt };

    ghost takes = { λ s n t. ⊤ };

    ghost Told = { Tally };

    ghost told = { λ s. s };

    ghost hears = { Tells };

    fn note(&mut self, _note: Note) {}

    fn call(
        &mut self,
        core: &mut Core,
        program: &Verified,
        arguments: Args,
        maps: &mut Maps,
        world: &mut World,
    ) -> u64 {
        let done = run_counted(core, program, arguments, maps, world);
        self.look(program.callback(), done.steps);
        done.r0
    }
}
