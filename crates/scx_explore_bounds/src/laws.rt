ghost use Rattle.scx_explore_bounds.specs.Told.{ListingsTellAnyLoads, ListingsTellCalls, ListingsTellInserts, ListingsTellLoads, UsesTellRuns};

/// A listing of a program that passes tells what each of its runs asks, from fitting arguments and maps, whatever is
/// answered that fits. If it has no load of a field of a task, no run loads it; and if it has no insert whose slice may be
/// 0, each insert gives a slice. If it has no call of a helper, or no load of the bytes at which a field of a task lies, no
/// instruction is one. The function does nothing: its contract is the law.
pub fn listings_tell_runs()
    ensures loads { ListingsTellLoads }
    ensures inserts { ListingsTellInserts }
    ensures calls { ListingsTellCalls }
    ensures any_loads { ListingsTellAnyLoads }
{}

/// No run of a policy's program does more than the policy's uses say: it calls no other helper, loads no other field of a
/// task, and gives a slice at each insert unless they say that one may not. The function does nothing: its contract is the
/// law.
pub fn uses_tell_runs()
    ensures { UsesTellRuns }
{}
