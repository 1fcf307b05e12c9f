ghost use Rattle.scx_verify.specs.Laws.{TypedIsSafe, FirstRefusalsAgree, RefusalsAgree};
ghost use Rattle.scx_verify.specs.Laws.{TypingsCoverForward, RefusalsAreJustified, TypingChooses};

/// Every program with a typing is safe: no run of it is ever stuck, none takes more steps than it has
/// instructions, and its maps keep their shapes. The function does nothing: its contract is the law.
pub fn typed_is_safe()
    ensures { TypedIsSafe }
{}

/// A program has one refusal at most: two that say something of it agree in fault and slot. The
/// function does nothing: its contract is the law.
pub fn refusals_agree()
    ensures first { FirstRefusalsAgree }
    ensures all { RefusalsAgree }
{}

/// A program that is refused has no typing, unless memory ran out: every typing covers the forward
/// states, and what passes in a state passes in each that it covers. The function does nothing: its
/// contract is the law.
pub fn refusals_are_justified()
    ensures forward { TypingsCoverForward }
    ensures justified { RefusalsAreJustified }
{}

/// The operation that a typing gives an instruction is the one that each of its states calls for. The
/// function does nothing: its contract is the law.
pub fn typing_chooses()
    ensures { TypingChooses }
{}
