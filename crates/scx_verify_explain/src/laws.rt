ghost use Rattle.scx_verify_explain.specs.Laws.{ListingsEndAtRefusals, ListingsNeedFlow};
ghost use Rattle.scx_verify_explain.specs.Laws.{ListingsAreWhole};

/// A listing comes as far as `verify`: to the slot that is refused for a check, to none where the flow is
/// refused, and over all slots of a program that is accepted. The function does nothing: its contract is
/// the law.
pub fn listings_end_with_verify()
    ensures refused { ListingsEndAtRefusals }
    ensures flow { ListingsNeedFlow }
    ensures whole { ListingsAreWhole }
{}
