ghost use Rattle.std.specs.Prelude.{⊤};
ghost use Rattle.scx_explore_findings.specs.Asked.{IsFitting};

use crate::watch::Watch;
use scx_maps::Maps;
use scx_sched::{Hearer, Note, Sink};
use scx_sched_world::World;
use scx_verify::Verified;
use scx_vm::Args;
use scx_vm_run::Core;

/// A watch that hears each callback, which runs as its program was verified.
#[derive(Drop)]
pub struct Heard {
    /// The tasks that begin to run while another waits.
    pub watch: Watch,
}

impl Hearer for Heard {
    ghost Noted = { ⊤ };

    ghost noted = { λ s. tt };

    ghost takes = { λ s n t. ⊤ };

    ghost Told = { ⊤ };

    ghost told = { λ s. tt };

    ghost hears = { λ s c t. IsFitting c };

    fn note(&mut self, note: Note) {
        self.watch.take(note);
    }

    fn call(
        &mut self,
        core: &mut Core,
        program: &Verified,
        arguments: Args,
        maps: &mut Maps,
        world: &mut World,
    ) -> u64 {
        self.watch.run(core, program, arguments, maps, world)
    }
}
