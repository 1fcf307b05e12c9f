ghost use Rattle.scx_sched.specs.Exits.{ExitsAreCalls, CallsAreExits};
ghost use Rattle.scx_sched.specs.Leavers.{LeaversWait};
ghost use Rattle.scx_sched.specs.Left.{RoundsLeaveNothing};
ghost use Rattle.scx_sched.specs.Laws.{StepKeepsFine, TickLeavesNothing, StepsKeepFine, NoPushIsRefused, EjectionLosesNobody, WeightsKeepWaits};

/// An accepted event keeps each task in its one place. The function does nothing: its contract is the
/// law.
pub fn events_keep_places()
    ensures { StepKeepsFine }
{}

/// By plain rules a processor that a tick leaves idle has no task waiting for it. The function does nothing: its
/// contract is the law.
pub fn nothing_is_left_behind()
    ensures { TickLeavesNothing }
{}

/// An ejection hands every task that waits in any queue to the built-in scheduler, and stops none that runs.
/// The function does nothing: its contract is the law.
pub fn ejections_lose_nobody()
    ensures { EjectionLosesNobody }
{}

/// A change of a task's own weight leaves each task's wait as long as it was, before processors look for work: who
/// waits leaves its queue and is put again, and its wait goes on. The function does nothing: its contract is the law.
pub fn changes_of_weight_keep_waits()
    ensures { WeightsKeepWaits }
{}

/// Each call of `dequeue` that follows a call of dispatch tells of a task that waits in GLOBAL or in a local queue by
/// then. The function does nothing: its contract is the law.
pub fn leavers_wait_to_run()
    ensures { LeaversWait }
{}

/// No push of the machine is ever refused: each small step of an event keeps what holds inside of it,
/// and where that holds, the queue takes the task. The function does nothing: its contract is the law.
#[tactic(auto, using(crate::proofs::Fine::fine_steps, crate::proofs::Pushes::is_push_accepted))]
pub fn no_push_is_refused()
    ensures kept { StepsKeepFine }
    ensures accepted { NoPushIsRefused }
{}

/// A policy that is ejected for an exit has called `exit`: a callback whose first cause is an exit called `exit` with
/// that code, before which it had no fault and called no `exit`; and each such call is its cause. The function does
/// nothing: its contract is the law.
pub fn exits_are_called()
    ensures called { ExitsAreCalls }
    ensures told { CallsAreExits }
{}

/// By Linux rules no CPU is kicked any more, and no idle CPU has a task in its local queue, once the rounds of an
/// event are over and the policy is in force, unless the event made as many rounds as it may. The function does
/// nothing: its contract is the law.
pub fn no_idle_processor_is_forgotten()
    ensures { RoundsLeaveNothing }
{}
