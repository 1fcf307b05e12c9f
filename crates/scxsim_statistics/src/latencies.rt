ghost use Rattle.std.specs.Prelude.{◌≡◌, replicate, IfOk, OnOk};
ghost use Rattle.scxsim_statistics.specs.Latencies.{no_latencies, with_waking, with_first_run, waking_at, first_run_at, latencies_noted};

use scx_sched::What;
use scxsim_views::LengthCounts;
use std::alloc::{AllocError, Global};

/// The wake-to-run latencies of a task.
///
/// A latency goes from a wake to the first run after it, as schbench counts it, also while the task is parked. A wake
/// after which the task never runs isn't counted.
#[derive(Drop)]
pub struct LatencyFigures {
    pub lengths: LengthCounts,
    /// The clock at which it woke, if it hasn't run since.
    woke: Option<u64>,
}

impl LatencyFigures {
    fn unused(alloc: Global) -> LatencyFigures
        ensures { result ≡ no_latencies }
    {
        LatencyFigures {
            lengths: LengthCounts::new(alloc),
            woke: None,
        }
    }

    fn wake(&mut self, clock: u64)
        ensures { self.new ≡ with_waking clock self.old }
    {
        self.woke = Some(clock);
    }

    fn run(&mut self, clock: u64) -> Result<(), AllocError>
        ensures { OnOk result (self.new ≡ with_first_run clock self.old) }
    {
        match self.woke {
            Some(woke) => {
                self.woke = None;
                self.lengths.add(woke, clock.saturating_sub(woke))
            }
            None => Ok(()),
        }
    }
}

pub(crate) fn unused_latencies(
    alloc: Global,
    count: usize,
) -> Result<Vec<LatencyFigures>, AllocError>
    ensures { IfOk result (λ latencies. latencies.items ≡ replicate count no_latencies) }
{
    let mut latencies = Vec::with_capacity(alloc, count)?;
    for _ in 0..count {
        latencies.push(LatencyFigures::unused(alloc))?;
    }
    Ok(latencies)
}

/// Counts a note of that clock.
pub(crate) fn note_latency(
    latencies: &mut Vec<LatencyFigures>,
    clock: u64,
    what: What,
) -> Result<(), AllocError>
    ensures { OnOk result (latencies.new.items ≡ latencies_noted clock what latencies.old.items) }
{
    match what {
        What::Wake(task) => {
            wake(latencies, task, clock);
            Ok(())
        }
        What::Run(task, _) => run(latencies, task, clock),
        _ => Ok(()),
    }
}

fn wake(latencies: &mut Vec<LatencyFigures>, task: u16, clock: u64)
    ensures { latencies.new.items ≡ waking_at latencies.old.items task clock }
{
    if let Some(figures) = latencies.get_mut(task as usize) {
        figures.wake(clock);
    }
}

fn run(latencies: &mut Vec<LatencyFigures>, task: u16, clock: u64) -> Result<(), AllocError>
    ensures { OnOk result (latencies.new.items ≡ first_run_at latencies.old.items task clock) }
{
    match latencies.get_mut(task as usize) {
        Some(figures) => figures.run(clock),
        None => Ok(()),
    }
}
