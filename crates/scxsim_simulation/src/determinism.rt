ghost use Rattle.scxsim_simulation.specs.Determinism.{TextsDetermineRuns, TextsDetermineTraces, TextsDetermineReports, TextsDetermineReplays, TextsDetermineReplayTraces};

/// The texts of a policy file and a workload file determine the run, and each byte of its trace and its report. The
/// function does nothing: its contract is the law.
pub fn texts_determine_runs()
    ensures runs { TextsDetermineRuns }
    ensures traces { TextsDetermineTraces }
    ensures reports { TextsDetermineReports }
{}

/// The texts of a policy file and a file of events determine the run, and each byte of its trace. The function does
/// nothing: its contract is the law.
pub fn texts_determine_replays()
    ensures runs { TextsDetermineReplays }
    ensures traces { TextsDetermineReplayTraces }
{}
