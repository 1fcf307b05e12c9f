ghost use Rattle.scx_explore_audit.specs.Computed.{ComputedFormsAreWhole, ComputedFormsAreWholeInRuns, ProgramsLoadNoCount};
ghost use Rattle.scx_explore_audit.specs.Laws.{ClosedTablesCover, ListsAreOfEvents, MatchedMovesAreFollowed, RefusedEventsShowNothing};
ghost use Rattle.scx_explore_audit.specs.Rows.{UnreadPartsAreRespected};
ghost use Rattle.scx_explore_audit.specs.Whole.{FormsWholeInRunsAreFollowed, FormsWholeInRunsAreRespected, WholeFormsAreRespected};
ghost use Rattle.scx_explore_findings.specs.Asked.{AnsweredCallsGive, AnsweredCallsLoadNone};
ghost use Rattle.scx_explore_findings.specs.Counted.{CountsChangeNothing, SuchProgramsLoadNoCount, TicksOnlyCount};
ghost use Rattle.scx_explore_findings.specs.Between.{EventsKeepQueuesSound, EventsLeaveNoNotes};
ghost use Rattle.scx_explore_findings.specs.Delayed.{EventsDontTellTimes};
ghost use Rattle.scx_explore_findings.specs.FifoOnly.{FirstStatesAreInOrder, NobodyWaitsByVtime};
ghost use Rattle.scx_explore_findings.specs.GivenSlices.{SuchProgramsGiveSlices};
ghost use Rattle.scx_explore_findings.specs.HiddenLaws.{CallsDontDepend, EventsDontDepend, ListsDontDepend, NobodyIsLate, WordsDontDepend};
ghost use Rattle.scx_explore_findings.specs.HiddenLoads.{LoadsAreTold};
ghost use Rattle.scx_explore_findings.specs.IdleSlices.{CallsTellNoIdleSlices, EventsTellNoIdleSlices, SuchProgramsTellNoSlices};
ghost use Rattle.scx_explore_findings.specs.ReachedStates.{SameMachinesShowTheSame, ReachedStatesGoAlike};
ghost use Rattle.scx_explore_findings.specs.Unread.{SuchProgramsReadNone};
ghost use Rattle.scx_explore_findings.specs.UnreadParts.{EventsReadNoSuchPart, ListsReadNoSuchPart, SuchPartsShowNothing};
ghost use Rattle.scx_explore_findings.specs.WholeForms.{WholeFormsAreSoInRuns};

/// Run times, virtual times and waits of tasks may be hidden. If no program of the policy
/// asks for what is hidden, whatever it is given and answered, two machines that are the same but for that answer an event
/// alike: refusal, notes and calls are the same, and the machines after it are again the same but for that. Where waits are
/// hidden, the same task or none has to wait too long in both. The function does nothing: its contract is the law.
pub fn events_dont_depend()
    ensures { EventsDontDepend }
{}

/// A program tells nothing of what it never asks for. An instruction that may read the run time of a task is a load of 8
/// bytes at the offset of that field, whatever its base register holds, and one that may read its virtual time a load of 8
/// bytes at the offset of that one. A program without one that loads what is hidden asks for none of it, whatever it is given
/// and answered; and one that has none that loads a slice, and gives one at each insert, tells no slice. Two machines that
/// are the same but for what is hidden, or for slices of tasks that sleep or are held, answer an event alike if no callback
/// that one of them calls asks for it. A callback that is called and answered, as each of the machine is, asks what runs of
/// its program ask: if none of them loads a field of a task, or all give a slice at each insert, so it is in the callback's
/// run. The function does nothing: its contract is the law.
pub fn asking_decides()
    ensures loads { LoadsAreTold }
    ensures hidden { SuchProgramsReadNone }
    ensures slices { SuchProgramsTellNoSlices }
    ensures calls { CallsDontDepend }
    ensures calls_and_slices { CallsTellNoIdleSlices }
    ensures called_loads { AnsweredCallsLoadNone }
    ensures called_inserts { AnsweredCallsGive }
{}

/// Two such machines answer a list of events alike. The function does nothing: its contract is the law.
pub fn lists_dont_depend()
    ensures { ListsDontDepend }
{}

/// Where a form leaves out what is hidden, two such machines are written as the same words. The function does nothing:
/// its contract is the law.
pub fn words_dont_depend()
    ensures { WordsDontDepend }
{}

/// After fewer events than a task may wait milliseconds no task waits too long. The function does nothing: its contract
/// is the law.
pub fn nobody_is_late()
    ensures { NobodyIsLate }
{}

/// Under a policy of which no program calls the helper that inserts by a virtual time, no task waits by one in a
/// machine before any event. And where that is so, no list of events leads to a state in which one does, as long as the
/// policy is in force. The function does nothing: its contract is the law.
pub fn nobody_waits_by_vtime()
    ensures first { FirstStatesAreInOrder }
    ensures after { NobodyWaitsByVtime }
{}

/// Two machines that are the same but for what is hidden show the same: for what the policy was ejected, which
/// processors are idle while tasks wait, and the words of a form that leaves out what is hidden. The function does
/// nothing: its contract is the law.
pub fn same_machines_show_the_same()
    ensures { SameMachinesShowTheSame }
{}

/// If lists of events lead to two states that are the same but for what is hidden, any events lead on alike.
/// Where waits are hidden, lists have to be so short that no task waits too long. The function does nothing: its
/// contract is the law.
pub fn reached_states_go_alike()
    ensures { ReachedStatesGoAlike }
{}

/// Some parts of a machine change nothing: the order numbers of pushes, the last callback, kicks under plain rules, usages
/// of groups where none has a quota, and the number of accepted events, while there is room for more. Under any policy, if
/// two machines are the same but for these, an event is refused for the same cause, the same is noted, and they are so
/// again after it; and after a list of events. Both show the same: the cause of an ejection, idle CPUs, and the words of
/// a form that leaves out the number of pushes. And if all times of a machine are later by as much, and no program reads the
/// clock, an event is refused for the same cause, and leads to the same machine, later; under Linux rules the time has to be
/// made of whole ticks, and the periods of quotas have to begin alike. If no program asks for a slice, and no insert gives one
/// of 0, two machines that are the same but for slices of tasks that sleep or are held answer an event alike too. An insert
/// gives none of 0 where the code shows that r3 holds a constant other than 0. The function does nothing: its contract is the
/// law.
pub fn unread_parts_change_nothing()
    ensures event { EventsReadNoSuchPart }
    ensures list { ListsReadNoSuchPart }
    ensures shown { SuchPartsShowNothing }
    ensures times { EventsDontTellTimes }
    ensures slices { EventsTellNoIdleSlices }
    ensures given { SuchProgramsGiveSlices }
{}

/// A form that keeps all that programs can read, whatever they are given and answered, keeps all that they can read in each
/// run that fits. The function does nothing: its contract is the law.
pub fn whole_forms_are_so_in_runs()
    ensures { WholeFormsAreSoInRuns }
{}

/// Between two events no note is left, and while the policy is in force the host tracks idle CPUs as it did; and queues are
/// sound: each task that waits has a number of its own. The function does nothing: its contract is the law.
pub fn events_leave_no_notes()
    ensures notes { EventsLeaveNoNotes }
    ensures queues { EventsKeepQueuesSound }
{}

/// Where a table of states is closed, and what its words leave out changes nothing, no list of moves shows what none of
/// its states shows. Where states keep slices, it is enough that each move of one is matched by a move of the other. The
/// function does nothing: its contract is the law.
pub fn closed_tables_cover()
    ensures cover { ClosedTablesCover }
    ensures matched { MatchedMovesAreFollowed }
{}

/// A list of events, some of which are refused, shows what the list of the others shows. The function does nothing: its
/// contract is the law.
pub fn refused_events_show_nothing()
    ensures { RefusedEventsShowNothing }
{}

/// Where lists are made of events, what is said of lists of moves is said of lists of events. The function does
/// nothing: its contract is the law.
pub fn lists_are_of_events()
    ensures { ListsAreOfEvents }
{}

/// Each move of a state is matched by the same move of a state that differs from it only in the number of events that
/// led there and in parts that nothing reads: order numbers of pushes, the last callback, kicks under plain rules, and
/// usages where no group has a quota. The function does nothing: its contract is the law.
pub fn unread_parts_are_respected()
    ensures { UnreadPartsAreRespected }
{}

/// If a form keeps all that programs can read, what it leaves out changes nothing, in lists from a machine with at most eight
/// tasks and sixteen CPUs, and with timers under Linux rules alone. Such a form may leave out the number of pushes; the clock
/// if no program reads it; slices of tasks that sleep or are held if no program loads a slice and no insert gives one of 0;
/// and keys, random numbers, run times and virtual times that no program inserts by, draws or loads. Waits may be left out of
/// lists of events that aren't asked about stalls, if states are audited after fewer events than a task may wait
/// milliseconds. It is enough if no program does so in a run that fits, where callbacks run as they were verified. And where
/// lists are of events under plain rules, and no group has a quota, slices that end may be left out, if no program loads a
/// slice or a run time: then ticks of a CPU until the slice of its task ends are tried in a row. The function does nothing: its
/// contract is the law.
pub fn whole_forms_are_respected()
    ensures anyhow { WholeFormsAreRespected }
    ensures runs { FormsWholeInRunsAreRespected }
    ensures rows { FormsWholeInRunsAreFollowed }
{}

/// Under plain rules and a policy of which no program loads a slice or a run time, two machines that are the same but for slices
/// that end and for run times answer each event alike, as long as the policy is in force: it is refused for the same cause, ejects
/// the policy for the same cause, or leads to two such machines. A tick of a CPU whose task has a slice that ends does if it
/// ends the slice in both. And a tick after which a task goes on changes nothing but its slice, its run time and what its groups
/// have used. A program loads neither, whatever it is given and answered, that has no load of 8 bytes at the offset of a slice
/// or a run time. The function does nothing: its contract is the law.
pub fn counts_change_nothing()
    ensures events { CountsChangeNothing }
    ensures ticks { TicksOnlyCount }
    ensures programs { SuchProgramsLoadNoCount }
{}

/// The form that a search computes keeps what programs can tell by their calls, where it tells tasks apart. It keeps all that
/// they can read if no program asks for what it leaves out of the records of tasks, or tells a slice where it leaves slices
/// out. Of a policy that is built of a file nothing of that is presumed: the form keeps all that its programs can read in
/// each run that fits. And if none has a load at the offset of a slice or a run time, none loads one, whatever it is given and
/// answered. The function does nothing: its contract is the law.
pub fn computed_forms_are_whole()
    ensures anyhow { ComputedFormsAreWhole }
    ensures runs { ComputedFormsAreWholeInRuns }
    ensures counts { ProgramsLoadNoCount }
{}
