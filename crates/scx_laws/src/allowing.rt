ghost use Rattle.scx_laws.specs.Allowing.{RulesAllowHelpers, RulesAllowHelpersOnly, RulesAllowEntries, RulesAllowEntriesOnly, KeysCompareBySign, CyclesEndClaims, CyclesEndSwitches, CyclesKeepCurrent, RulesAllowCallbacks, RulesAllowCallbacksOnly, RulesAllowCycles, RulesAllowCyclesOnly, RulesAllowEvents, RulesAllowEventsOnly, RulesRefuseEvents, RulesRefuseEventsOnly, RulesAllowStarts, RulesAllowStartsOnly, RulesRefuseShapes, RulesRefuseShapesOnly};

/// The rules of helpers allow each helper's answer and its change of the world, and nothing else.
pub fn rules_allow_helpers()
    ensures allowed { RulesAllowHelpers }
    ensures only { RulesAllowHelpersOnly }
{}

/// The rules of entries allow what becomes of a task and its queue as it comes in, and nothing else. Under
/// Linux rules a queue by virtual time is in the order of signed numbers.
pub fn rules_allow_entries()
    ensures allowed { RulesAllowEntries }
    ensures only { RulesAllowEntriesOnly }
    ensures by_sign { KeysCompareBySign }
{}

/// The rules of callbacks allow the state from which the machine goes on after a callback, and no other.
pub fn rules_allow_callbacks()
    ensures allowed { RulesAllowCallbacks }
    ensures only { RulesAllowCallbacksOnly }
{}

/// A scheduling cycle is what the rules of cycles allow, and the only thing that they allow. It ends the claim
/// on its CPU. The current task of a CPU, as helpers tell it, changes as a cycle ends, and not as one begins.
pub fn rules_allow_cycles()
    ensures allowed { RulesAllowCycles }
    ensures only { RulesAllowCyclesOnly }
    ensures claims { CyclesEndClaims }
    ensures switches { CyclesEndSwitches }
    ensures keeps { CyclesKeepCurrent }
{}

/// The rules of events allow an event's change of the machine and its notes, and nothing else.
pub fn rules_allow_events()
    ensures allowed { RulesAllowEvents }
    ensures only { RulesAllowEventsOnly }
{}

/// An event is refused, and by what, where the rules of refusals say so, and nowhere else. The law speaks
/// of the machine; `Sim` refuses any event once it has accepted as many as it may.
pub fn rules_refuse_events()
    ensures allowed { RulesRefuseEvents }
    ensures only { RulesRefuseEventsOnly }
{}

/// The rules of starts allow the machine's first state, and no other: each task begins on the lowest CPU on
/// which it may run. They say that a shape is bad exactly where it is refused.
pub fn rules_allow_starts()
    ensures allowed { RulesAllowStarts }
    ensures only { RulesAllowStartsOnly }
    ensures refused { RulesRefuseShapes }
    ensures refused_only { RulesRefuseShapesOnly }
{}
