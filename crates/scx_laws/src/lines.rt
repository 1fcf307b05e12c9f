ghost use Rattle.scx_laws.specs.Texts.{Says, create_text, short_text, long_text, idle_text};
ghost use Rattle.scx_laws.specs.Lines.{one_line, line_with, to_idle_with, EachCreates, EachLinesUp, EachChooses, OnlyWaitsEject, IdlesUnlessLate, NobodyOvertakes, NobodyCutsIn, OnlyFewerAhead};

/// The init of `fifo`, `simple` and `short_slices` creates queue 0, and the enqueue of `short_slices` and of `fifo`
/// inserts each task at its end, with a slice of 2 ms and of 20 ms; the select_cpu of `simple` inserts a task that wakes
/// into the local queue of an idle CPU. The function does nothing: its contract is the law.
pub fn lines_are_kept()
    ensures creates { EachCreates one_line }
    ensures short { EachLinesUp (line_with 2000000) 2000000 }
    ensures long { EachLinesUp (line_with 20000000) 20000000 }
    ensures idle { EachChooses (to_idle_with 20000000) 20000000 }
{}

/// The texts of these programs, as policy files have them, say these instructions. The function does nothing: its
/// contract is the law.
pub fn texts_say_lines()
    ensures creates { Says create_text one_line }
    ensures short { Says short_text (line_with 2000000) }
    ensures long { Says long_text (line_with 20000000) }
    ensures idle { Says idle_text (to_idle_with 20000000) }
{}

/// By plain rules a policy of one line is put out of force for a task that waited too long, and for nothing else,
/// whichever events come; so where no task waited too long, no CPU idles beside its line. The function does
/// nothing: its contract is the law.
pub fn only_waits_eject()
    ensures run { OnlyWaitsEject }
    ensures idle { IdlesUnlessLate }
{}

/// By plain rules the line of such a policy is in order of arrival: as long as a task waits there, so do all that came
/// after it and don't go to sleep, and no other comes before it, so that only fewer are. The function does nothing: its
/// contract is the law.
pub fn nobody_overtakes()
    ensures behind { NobodyOvertakes }
    ensures ahead { NobodyCutsIn }
    ensures fewer { OnlyFewerAhead }
{}
