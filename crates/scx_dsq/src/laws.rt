ghost use Rattle.scx_dsq.specs.Laws.{PushAddsOne, PopTakesOne, RemovalTakesOne, OthersChangeNone, HasOneFront, FrontIsFirst, FrontPushLeads, FrontPushMovesNone, PopUndoesFrontPush};

/// Where a task waits is conserved: each accepted push adds one appearance of its task, each pop and
/// each removal of a task that waits takes one, and nothing else changes any. The function does
/// nothing: its contract is the law.
pub fn appearances_are_conserved()
    ensures push { PushAddsOne }
    ensures pop { PopTakesOne }
    ensures removal { RemovalTakesOne }
    ensures others { OthersChangeNone }
{}

/// The front of a queue is the one task there that comes before all others. The function does nothing:
/// its contract is the law.
pub fn fronts_are_unique()
    ensures one { HasOneFront }
    ensures first { FrontIsFirst }
{}

/// A task that is pushed to the front of a queue is its front, and the others wait as before. The
/// function does nothing: its contract is the law.
pub fn front_pushes_lead()
    ensures leads { FrontPushLeads }
    ensures others { FrontPushMovesNone }
    ensures undone { PopUndoesFrontPush }
{}
