ghost use Rattle.scx_isa.specs.Laws.{ReadsBack, OneSpelling, OneProgram, OneFirstFault, FaultyBytesSpellNothing};

/// Programs and their spellings correspond one to one: what `encode` writes is read back, two
/// different byte lists never spell one program, and no bytes spell two. The function does nothing:
/// its contract is the law.
pub fn spelling_is_one_to_one()
    ensures reads_back { ReadsBack }
    ensures one_spelling { OneSpelling }
    ensures one_program { OneProgram }
{}

/// Bytes have at most one first fault, at one slot, and where they have one they spell no program. The
/// function does nothing: its contract is the law.
pub fn first_fault_is_unique()
    ensures unique { OneFirstFault }
    ensures unspelled { FaultyBytesSpellNothing }
{}
