ghost use Rattle.scx_asm_text.specs.Laws.{LongestToken};

/// The longest token at the front of a text is the one that is read there. The function does
/// nothing: its contract is the law.
pub fn longest_token_is_read()
    ensures { LongestToken }
{}
