ghost use Rattle.scx_abs.specs.Laws.{RulesAreSound, StartIsSound, CoversMore, CoversItself, CoversThrough, CoversBothWays};
ghost use Rattle.scx_abs.specs.Laws.{PlainRulesAreSound, CallsAndNullTestsAreSound};
ghost use Rattle.scx_abs.specs.Laws.{StartIsProper, RulesKeepProper};
ghost use Rattle.scx_abs.specs.Monotone.{RulesAreMonotone, JoinOfKindsIsLeast, JoinOfCellsIsLeast, JoinsAreMonotone};

/// The rules against what instructions mean: where the checks pass no state that is stood for is
/// stuck, and what it leads to is stood for by what flows on. The function does nothing: its
/// contract is the law.
pub fn rules_are_sound()
    ensures rules { RulesAreSound }
    ensures start { StartIsSound }
    ensures covers { CoversMore }
    ensures reflexive { CoversItself }
    ensures transitive { CoversThrough }
    ensures antisymmetric { CoversBothWays }
{}

/// The law `rules_are_sound` for all instructions but calls of helpers and jumps that test a
/// register for 0. The function does nothing: its contract is the law.
pub fn plain_rules_are_sound()
    ensures { PlainRulesAreSound }
{}

/// The law `rules_are_sound` for calls of helpers and jumps that test a register for 0. The
/// function does nothing: its contract is the law.
pub fn calls_and_null_tests_are_sound()
    ensures { CallsAndNullTestsAreSound }
{}

/// A callback begins in a proper state, and what flows on from one is proper. The function does
/// nothing: its contract is the law.
pub fn states_are_proper()
    ensures start { StartIsProper }
    ensures rules { RulesKeepProper }
{}

/// An instruction that passes in a state passes in each proper state that it covers, and its flow
/// is covered too: no check is stronger where more is known. The function does nothing: its
/// contract is the law.
pub fn rules_are_monotone()
    ensures { RulesAreMonotone }
{}

/// The join of two kinds or cells is the least that covers both, and joins of states grow with them.
/// The function does nothing: its contract is the law.
pub fn joins_are_least()
    ensures kinds { JoinOfKindsIsLeast }
    ensures cells { JoinOfCellsIsLeast }
    ensures monotone { JoinsAreMonotone }
{}
