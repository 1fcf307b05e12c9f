ghost use Rattle.scx_load_replay.specs.Laws.{NoEventIsRefused, EachLineComes};

/// A machine that was made of the CPUs, groups and tasks of a file of events accepts all of its
/// events. The function does nothing: its contract is the law.
#[tactic(auto, using(crate::proofs::Accepting::none_is_refused))]
pub fn no_event_is_refused()
    ensures { NoEventIsRefused }
{}

/// Each line of a file of events comes once, in their order. The function does nothing, as the one above.
#[tactic(auto, using(crate::proofs::Listing::each_line_comes))]
pub fn each_line_comes()
    ensures { EachLineComes }
{}
