ghost use Rattle.scx_load_driver.specs.Laws.{NoEventIsRefused};

/// A machine that was made of the CPUs, groups and tasks of a workload accepts all of the
/// workload's events. The function does nothing: its contract is the law.
pub fn no_event_is_refused()
    ensures { NoEventIsRefused }
{}
