ghost use Rattle.std.specs.Prelude.{◌≡◌, replicate, IfOk, OnOk};
ghost use Rattle.scxsim_statistics.specs.Bursts.{no_bursts, with_woke, with_burst, with_ran, woken_at, ended_at, slept_at, bursts_noted, slowdown};

use scx_sched::What;
use scxsim_views::LengthCounts;
use std::alloc::{AllocError, Global};

/// The finished bursts of a task.
///
/// A burst goes from a wake, as its millisecond begins, to the next sleep, as that one ends.
#[derive(Drop)]
pub struct BurstFigures {
    pub lengths: LengthCounts,
    /// The clock at which it woke last.
    woke: u64,
    /// The milliseconds that it had run as it last went to sleep: its run time in all of them.
    ran: u64,
}

impl BurstFigures {
    fn unused(alloc: Global) -> BurstFigures
        ensures { result ≡ no_bursts }
    {
        BurstFigures {
            lengths: LengthCounts::new(alloc),
            woke: 0,
            ran: 0,
        }
    }

    /// The lengths of all bursts by the time that the task ran in them, in hundredths, rounded down; 0 if it never ran.
    pub fn slowdown(&self) -> u64
        ensures { result ≡ slowdown self.now }
    {
        if self.ran == 0 {
            return 0;
        }
        self.lengths.total().saturating_mul(100) / self.ran
    }

    fn wake(&mut self, clock: u64)
        ensures { self.new ≡ with_woke clock self.old }
    {
        self.woke = clock;
    }

    fn end(&mut self, clock: u64) -> Result<(), AllocError>
        ensures { OnOk result (self.new ≡ with_burst clock self.old) }
    {
        let length = clock.saturating_add(1).saturating_sub(self.woke);
        self.lengths.add(self.woke, length)
    }

    fn sleep(&mut self, ran: u64)
        ensures { self.new ≡ with_ran ran self.old }
    {
        self.ran = ran;
    }
}

pub(crate) fn unused_bursts(alloc: Global, count: usize) -> Result<Vec<BurstFigures>, AllocError>
    ensures { IfOk result (λ bursts. bursts.items ≡ replicate count no_bursts) }
{
    let mut bursts = Vec::with_capacity(alloc, count)?;
    for _ in 0..count {
        bursts.push(BurstFigures::unused(alloc))?;
    }
    Ok(bursts)
}

/// Counts a note of that clock.
pub(crate) fn note_burst(
    bursts: &mut Vec<BurstFigures>,
    clock: u64,
    what: What,
) -> Result<(), AllocError>
    ensures { OnOk result (bursts.new.items ≡ bursts_noted clock what bursts.old.items) }
{
    match what {
        What::Wake(task) => {
            wake(bursts, task, clock);
            Ok(())
        }
        What::Sleep(task) => end(bursts, task, clock),
        _ => Ok(()),
    }
}

fn wake(bursts: &mut Vec<BurstFigures>, task: u16, clock: u64)
    ensures { bursts.new.items ≡ woken_at bursts.old.items task clock }
{
    if let Some(figures) = bursts.get_mut(task as usize) {
        figures.wake(clock);
    }
}

fn end(bursts: &mut Vec<BurstFigures>, task: u16, clock: u64) -> Result<(), AllocError>
    ensures { OnOk result (bursts.new.items ≡ ended_at bursts.old.items task clock) }
{
    match bursts.get_mut(task as usize) {
        Some(figures) => figures.end(clock),
        None => Ok(()),
    }
}

/// Counts a task that goes to sleep after `ran` milliseconds of running.
pub(crate) fn sleep(bursts: &mut Vec<BurstFigures>, task: u16, ran: u64)
    ensures { bursts.new.items ≡ slept_at bursts.old.items task ran }
{
    if let Some(figures) = bursts.get_mut(task as usize) {
        figures.sleep(ran);
    }
}
