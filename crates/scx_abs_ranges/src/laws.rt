ghost use Rattle.scx_abs_ranges.specs.OffsetLaws.{MovesAreSound, MovesAreExact, MovesStayWithin, MovesAreMonotone, AdvancesAreSound, AdvancesAreExact, AdvancesStayWithin, AdvancesAreMonotone, InsideIsExact, AlignedIsExact, AccessesAreMonotone};
ghost use Rattle.scx_abs_ranges.specs.ResultLaws.{ArithmeticIsSound, CopiesAreSound, NegativesAreSound, ExtensionsAreSound, SwapsAreSound, LoadsAreSound};
ghost use Rattle.scx_abs_ranges.specs.Laws.{OrderIsInclusion, JoinIsLeastCover, CutsKeep, CutsAreExact, InequalitiesTakeEnds, CutsAreRanges, CutsGrow, CutsNarrow};

/// The order on ranges is inclusion of sets, and the join the least range that holds both. The
/// function does nothing: its contract is the law.
pub fn ranges_are_sets()
    ensures order { OrderIsInclusion }
    ensures join { JoinIsLeastCover }
{}

/// A cut keeps the members that take its side, and no others where it is exact. The function does
/// nothing: its contract is the law.
pub fn cuts_are_sound()
    ensures kept { CutsKeep }
    ensures exact { CutsAreExact }
    ensures ends { InequalitiesTakeEnds }
    ensures ranges { CutsAreRanges }
    ensures grow { CutsGrow }
    ensures narrow { CutsNarrow }
{}

/// A result holds every number that the instruction computes of members. The function does nothing:
/// its contract is the law.
pub fn results_are_sound()
    ensures arithmetic { ArithmeticIsSound }
    ensures copies { CopiesAreSound }
    ensures negatives { NegativesAreSound }
    ensures extensions { ExtensionsAreSound }
    ensures swaps { SwapsAreSound }
    ensures loads { LoadsAreSound }
{}

/// Offsets that are moved stay in their element, and an access is tested at each of them. The function
/// does nothing: its contract is the law.
pub fn offsets_are_sound()
    ensures moves { MovesAreSound }
    ensures moves_exact { MovesAreExact }
    ensures moves_within { MovesStayWithin }
    ensures moves_monotone { MovesAreMonotone }
    ensures advances { AdvancesAreSound }
    ensures advances_exact { AdvancesAreExact }
    ensures advances_within { AdvancesStayWithin }
    ensures advances_monotone { AdvancesAreMonotone }
    ensures inside { InsideIsExact }
    ensures aligned { AlignedIsExact }
    ensures accesses_monotone { AccessesAreMonotone }
{}
