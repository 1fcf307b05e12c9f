ghost use Rattle.scx_laws.specs.Times.{TimeAddsUp, EachHasItsTicks};

/// The run times of all tasks, added up, are a millisecond for each accepted tick of a processor on which a task ran,
/// and that of each task is one for each tick of the processor on which it ran. The function does nothing: its contract
/// is the law.
pub fn time_adds_up()
    ensures all { TimeAddsUp }
    ensures each { EachHasItsTicks }
{}
