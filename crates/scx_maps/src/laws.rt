ghost use Rattle.scx_maps.specs.Laws.{WritesTheKey, WritesNoOtherKey, TakesTheKey, TakesNoOtherKey, StaySound, NewAreSound, PushAppends, PopTakesTheFirst, PopTakesTheLast, StayWithin, NewFit};

/// Under a key is what was written there last. The function does nothing: its contract is the law.
pub fn keys_have_values()
    ensures written { WritesTheKey }
    ensures others { WritesNoOtherKey }
    ensures taken { TakesTheKey }
    ensures rest { TakesNoOtherKey }
    ensures sound { StaySound }
    ensures new { NewAreSound }
{}

/// Queues and stacks are lists of values. The function does nothing: its contract is the law.
pub fn lines_are_lists()
    ensures push { PushAppends }
    ensures first { PopTakesTheFirst }
    ensures last { PopTakesTheLast }
    ensures within { StayWithin }
    ensures new { NewFit }
{}
