ghost use Rattle.std.specs.Prelude.{◌≡◌, false};

use crate::most::Most;
use scx_explore_findings::{Watch, run_counted};
use scx_maps::Maps;
use scx_sched::{Note, Sink};
use scx_sched_world::World;
use scx_verify::Verified;
use scx_vm::Args;
use scx_vm_run::Core;
use std::marker::Model;

/// The observers of events: the watch of waits, and the most instructions.
///
/// In a contract it is nothing: whatever it keeps, events do the same.
#[derive(Drop)]
pub struct Look {
    pub watch: Watch,
    pub most: Most,
}

impl Model for Look {
    ghost Value = { Unit {0} };

    ghost view = { λ l. tt };
}

impl Sink for Look {
    ghost takes = { λ s n t. t ≡ s };

    ghost has_failed = { λ s. false };

    ghost failed_stays = { λ s t n failed takes. takes };

    fn take(&mut self, note: Note) {
        self.watch.take(note);
    }

    fn failed(&self) -> bool {
        false
    }

    fn run(
        &mut self,
        core: &mut Core,
        program: &Verified,
        arguments: Args,
        maps: &mut Maps,
        world: &mut World,
    ) -> u64 {
        let done = run_counted(core, program, arguments, maps, world);
        self.most.keep(program.callback(), done.steps);
        done.r0
    }
}
