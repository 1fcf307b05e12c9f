ghost use Rattle.scx_laws.specs.Telling.{NotesTellTheState, NotesTellRunTimes};

/// After any events the notes alone say of each task if it is runnable, on which CPU it runs, in which queue it waits
/// and since when; with the events they give its run time. The function does nothing: its contract is the law.
pub fn notes_tell_the_state()
    ensures state { NotesTellTheState }
    ensures run_times { NotesTellRunTimes }
{}
