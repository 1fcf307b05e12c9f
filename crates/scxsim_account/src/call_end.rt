ghost use Rattle.std.specs.Prelude.{◌≡◌};

use scx_isa::Callback;
use scx_maps::Maps;
use scx_sched::Sim;
use scx_verify::Verified;
use scxsim_faults::{Answered, ElementReads, MapReads, MissedKey};

/// The end of a callback, and what it had read from maps.
#[derive(Clone, Copy)]
pub struct CallEnd {
    pub callback: Callback,
    /// The slot of the exit.
    pub slot: usize,
    /// The last look-up that found nothing.
    pub missed: Option<MissedKey>,
    pub reads: ElementReads,
}

/// The end of a callback that was watched.
pub(crate) fn end_of(
    program: &Verified,
    ran: Answered,
    reads: &MapReads<'_>,
    maps: &Maps,
) -> CallEnd
    ensures callback { result.callback ≡ program.now.context.callback }
    ensures slot { result.slot ≡ ran.last }
{
    CallEnd {
        callback: program.callback(),
        slot: ran.last,
        missed: reads.missed(maps),
        reads: reads.reads,
    }
}

/// True if the machine's next event may come at that clock. An event of the clock ends at the next millisecond, so a
/// millisecond before is near.
pub(crate) fn is_near(sim: &Sim, clock: u64) -> bool {
    clock <= sim.clock().saturating_add(1)
}

/// A task that enqueue put nowhere, the clock of it, and the end of that call.
#[derive(Clone, Copy)]
pub struct HeldTask {
    pub task: u16,
    pub clock: u64,
    pub end: CallEnd,
}
