ghost use Rattle.scx_weights.specs.QuotaLaws.{UsagesCountRuns, UsagesAreBounded, RunsAreBounded, UsesKeepThrottled, ClocksKeepThrottled, ClocksThrottleNobody};

/// The usage of a group is how many milliseconds its tasks and those below it have run since its period
/// began.
pub fn usages_count_runs()
    ensures { UsagesCountRuns }
{}

/// Where no throttled task comes to a processor, and one that is throttled after a millisecond leaves,
/// the usage of a group with a quota is below its quota plus the number of processors, whatever happens
/// in whatever order.
pub fn usages_are_bounded()
    ensures { UsagesAreBounded }
{}

/// So in each period the group's tasks and those below it run less than that together.
pub fn runs_are_bounded()
    ensures { RunsAreBounded }
{}

/// A throttled task stays so while others run, and until a period of a throttled group begins; and that
/// the clock grows throttles nobody.
pub fn throttled_stay()
    ensures uses { UsesKeepThrottled }
    ensures clocks { ClocksKeepThrottled }
    ensures nobody { ClocksThrottleNobody }
{}
