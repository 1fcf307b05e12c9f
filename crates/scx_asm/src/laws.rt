ghost use Rattle.scx_asm.specs.Laws.{ReadsWhatStands, ReadsBack, AssemblesBack};

/// The program that a text describes is the one that is read, and the text of `disassemble` is read as
/// the same program, and assembled to it where memory is found. The function does nothing: its contract
/// is the law.
pub fn canonical_text_is_read_back()
    ensures reads { ReadsWhatStands }
    ensures read { ReadsBack }
    ensures assembled { AssemblesBack }
{}
