ghost use Rattle.std.specs.Prelude.{[], ◌∷◌};
ghost use Rattle.scx_laws.specs.Texts.{Says, one_text, two_text, three_text};
ghost use Rattle.scx_laws.specs.Serving.{EachServes, one_queue, two_queues, three_queues, StepLeavesNobody, NobodyIsLeft};

/// The dispatch of `fifo`, `priority`, `simple`, `simple_vtime` and `short_slices` serves queue 0, that of `round_robin`
/// queue 0 and then queue 1, and that of `feedback` queues 0, 1 and 2. The function does nothing: its contract is the
/// law.
pub fn queues_are_served()
    ensures one { EachServes one_queue (0 ∷ []) }
    ensures two { EachServes two_queues (0 ∷ 1 ∷ []) }
    ensures three { EachServes three_queues (0 ∷ 1 ∷ 2 ∷ []) }
{}

/// The texts of these programs, as policy files have them, say these instructions. The function does nothing: its
/// contract is the law.
pub fn texts_say_programs()
    ensures one { Says one_text one_queue }
    ensures two { Says two_text two_queues }
    ensures three { Says three_text three_queues }
{}

/// By plain rules and without quotas, under a policy whose dispatch serves queues, whatever its other programs are and
/// whichever events came before: where a tick, or the sleep of the task that ran there, leaves a processor idle, no task
/// waits in these queues, in its own or in the global one, unless the policy is out of force. The function does nothing:
/// its contract is the law.
pub fn no_processor_idles_beside_served_queues()
    ensures step { StepLeavesNobody }
    ensures run { NobodyIsLeft }
{}
