ghost use Rattle.std.specs.Prelude.{◌≡◌};
ghost use Rattle.scx_sched_world.specs.Helpers.{are_linux_flags, has_preempt, has_head, arrival_rank};

use scx_dsq::Rank;

/// The flag of an insert that takes the slice of the task that runs, as a kernel's.
const PREEMPT: u64 = 0x1_0000_0000;

/// The flag of an insert at the front of its queue. A kernel's number of it changed from 6.18 to 7.3, and this one is
/// free in both.
const HEAD: u64 = 0x1_0000_0000_0000;

/// True if Linux rules know the flags of an insert.
pub fn are_linux_flags(flags: u64) -> bool
    ensures { result ≡ are_linux_flags flags }
{
    let high = flags / PREEMPT;
    flags % PREEMPT <= 1 && (high == 0 || high == 1 || high == 0x1_0000 || high == 0x1_0001)
}

/// True if the flags have PREEMPT.
#[inline(always)]
pub fn has_preempt(flags: u64) -> bool
    ensures { result ≡ has_preempt flags }
{
    flags / PREEMPT % 2 == 1
}

/// True if the flags have HEAD.
#[inline(always)]
fn has_head(flags: u64) -> bool
    ensures { result ≡ has_head flags }
{
    flags / HEAD % 2 == 1
}

/// The rank of a task that goes into a queue in order of arrival, with these flags.
#[inline(always)]
pub fn arrival_rank(flags: u64) -> Rank
    ensures { result ≡ arrival_rank flags }
{
    if has_preempt(flags) || has_head(flags) {
        Rank::Front
    } else {
        Rank::Fifo
    }
}
