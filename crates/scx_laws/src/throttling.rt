ghost use Rattle.scx_laws.specs.Throttling.{ParkedAreThrottled, ThrottledOnlyRunOn};

/// A task is parked only while it is throttled; and a CPU never takes a throttled task, so that one runs on only up to
/// the next tick of its CPU. The function does nothing: its contract is the law.
pub fn throttled_tasks_stop()
    ensures parked { ParkedAreThrottled }
    ensures runs { ThrottledOnlyRunOn }
{}
