ghost use Rattle.std.specs.Prelude.{◌≡◌};
ghost use Rattle.scxsim_page.specs.Clocks.{is_without_tick, ClocksAreTold, WaitsAreTold, LastsAMillisecond};

use scxsim_template::moment_of;

/// True if the clock goes on between two sums of a moment and its clock, and no tick comes.
#[inline(always)]
pub(crate) fn is_without_tick(since: u64, until: u64) -> bool
    ensures { result ≡ is_without_tick since until }
{
    moment_of(since) == moment_of(until) && since < until
}

/// A wait that has time by the clock has a stretch, or is without a tick and one millisecond long. The moment of a sum and
/// its last bit, which a page has of each stretch, give the clock. The function does nothing: its contract is the law.
pub fn waits_are_told()
    ensures clocks { ClocksAreTold }
    ensures all { WaitsAreTold }
    ensures length { LastsAMillisecond }
{}
