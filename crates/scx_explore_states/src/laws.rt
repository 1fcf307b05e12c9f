ghost use Rattle.scx_explore_states.specs.Asking.{RunsPointToTheirTask};
ghost use Rattle.scx_explore_states.specs.Laws.{NumbersTell};
ghost use Rattle.scx_explore_states.specs.Telling.{WordsTell};

/// Half a word tells of a task where it is, where it ran last, how many leave its queue before it and how they are
/// ordered, and its wait. The function does nothing: its contract is the law.
#[tactic(auto, using(crate::proofs::Spots::numbers_tell))]
pub fn half_words_tell()
    ensures { NumbersTell }
{}

/// The words of a state tell what is kept of its machine: of each task, of times, of groups, of what Linux rules keep, and of
/// maps, where each task has its own place. The function does nothing: its contract is the law.
pub fn words_tell()
    ensures { WordsTell }
{}

/// A run of a program that asks for no task, and is given one at most, loads and stores the fields of no other one, as long as
/// what is answered fits. The function does nothing: its contract is the law.
pub fn runs_point_to_their_task()
    ensures { RunsPointToTheirTask }
{}
