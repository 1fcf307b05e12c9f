ghost use Rattle.std.specs.Prelude.{◌≡◌, slice_get};
ghost use Rattle.scx_isa_semantics.specs.Callbacks.{callback_name, is_known_callback};
ghost use Rattle.scx_isa_semantics.specs.HostTables.{answers, may_kick};
ghost use Rattle.scx_isa_semantics.specs.Arguments.{callback_arguments};

use crate::rules::Rules;

/// The role of a program: a callback of a scheduling policy (sched-ext.rst), or a plain program with
/// no policy around it. Each line says when a callback is called, its arguments in r1 to r3 (it may
/// read r10 and no register that isn't named), and the meaning of its answer.
#[derive(Clone, Copy, PartialEq, Eq)]
pub enum Callback {
    /// No callback: a program that runs alone, without arguments, and calls no helper. It answers a number.
    Plain,
    /// Once, before anything else, without arguments. It answers 0, or the policy can't begin.
    Init,
    /// For each task, by pid, after `init`. r1: the task. It answers nothing.
    Enable,
    /// As a task wakes. r1: the task; r2: the CPU where it ran last; r3: 0. It answers the CPU for which
    /// the task is meant.
    SelectCpu,
    /// For a task that has to wait and that `select_cpu` didn't insert. r1: the task; r2: 1 after a wake, 0
    /// after a stop or as it is let go. It answers nothing.
    Enqueue,
    /// For a CPU with nothing in its own queue, nor in GLOBAL. r1: the CPU; r2: the previous task, or 0.
    /// It answers nothing.
    Dispatch,
    /// As a task begins to run. r1: the task. It answers nothing.
    Running,
    /// As a task leaves its CPU. r1: the task; r2: 1 if it stays runnable, else 0. It answers
    /// nothing.
    Stopping,
    /// In a tick of a CPU, for the task that runs there, before its slice is looked at. r1: the
    /// task. It answers nothing. Known by Linux rules alone, as all that follow.
    Tick,
    /// As a task leaves custody (a queue of the policy, or none) otherwise than into the hands of a
    /// callback. r1: the task; r2: flags. It answers nothing.
    Dequeue,
    /// As a task wakes, after `select_cpu` and before it waits anywhere (r2: 1), and as its weight has
    /// changed (r2: 2). r1: the task. It answers nothing.
    Runnable,
    /// As a task goes to sleep (r2: 1) or its weight changes (r2: 2^33 + 2), after it left its CPU or
    /// its queue. r1: the task. It answers nothing.
    Quiescent,
    /// As a CPU becomes idle, or idle no more. r1: the CPU; r2: 1 if it is idle, else 0. It answers
    /// nothing.
    UpdateIdle,
    /// For each task after `enable`, and as a task's weight changes. r1: the task; r2: the weight. It
    /// answers nothing.
    SetWeight,
    /// As a timer that was started is due. r1: its number. It answers nothing.
    Timer,
}

/// The callbacks of a policy, in the order in which its programs are read and verified. A plain program
/// isn't one.
pub const CALLBACKS: [Callback; 14] = [
    Callback::Init,
    Callback::Enable,
    Callback::SelectCpu,
    Callback::Enqueue,
    Callback::Dispatch,
    Callback::Running,
    Callback::Stopping,
    Callback::Tick,
    Callback::Dequeue,
    Callback::Runnable,
    Callback::Quiescent,
    Callback::UpdateIdle,
    Callback::SetWeight,
    Callback::Timer,
];

/// The kind of one argument of a callback.
#[derive(Clone, Copy)]
pub enum ArgumentKind {
    /// A pointer to a task.
    Task,
    /// A pointer to a task, or 0.
    TaskOrNull,
    Number,
}

impl Callback {
    /// The kind of the argument with this number, 0 for r1; `None` past the last one.
    pub fn argument(self, number: usize) -> Option<ArgumentKind>
        ensures { result ≡ slice_get (callback_arguments self) number }
    {
        self.arguments().get(number).copied()
    }

    /// The kinds of its arguments, that in r1 first.
    fn arguments(self) -> &'static [ArgumentKind]
        ensures { result.now ≡ callback_arguments self }
    {
        match self {
            Callback::Plain | Callback::Init => &[],
            Callback::Enable | Callback::Running | Callback::Tick => &[ArgumentKind::Task],
            Callback::SelectCpu => &[
                ArgumentKind::Task,
                ArgumentKind::Number,
                ArgumentKind::Number,
            ],
            Callback::Enqueue
            | Callback::Stopping
            | Callback::Dequeue
            | Callback::Runnable
            | Callback::Quiescent
            | Callback::SetWeight => &[ArgumentKind::Task, ArgumentKind::Number],
            Callback::Dispatch => &[ArgumentKind::Number, ArgumentKind::TaskOrNull],
            Callback::UpdateIdle => &[ArgumentKind::Number, ArgumentKind::Number],
            Callback::Timer => &[ArgumentKind::Number],
        }
    }

    /// True if its run answers a number, in r0.
    pub fn answers(self) -> bool
        ensures { result ≡ answers self }
    {
        matches!(self, Callback::Plain | Callback::Init | Callback::SelectCpu)
    }

    /// True if it may kick and claim CPUs. Those that prepare a policy and its tasks may not.
    pub fn may_kick(self) -> bool
        ensures { result ≡ may_kick self }
    {
        !matches!(
            self,
            Callback::Plain | Callback::Init | Callback::Enable | Callback::SetWeight
        )
    }

    /// True if a policy by these rules may have it.
    pub fn is_known(self, rules: Rules) -> bool
        ensures { result ≡ is_known_callback self rules }
    {
        !matches!(
            (self, rules),
            (
                Callback::Tick
                    | Callback::Dequeue
                    | Callback::Runnable
                    | Callback::Quiescent
                    | Callback::UpdateIdle
                    | Callback::SetWeight
                    | Callback::Timer,
                Rules::Plain
            )
        )
    }

    /// Its name, as a policy file and a refusal spell it.
    pub fn name(self) -> &'static str
        ensures { result.now ≡ callback_name self }
    {
        match self {
            Callback::Plain => "plain",
            Callback::Init => "init",
            Callback::Enable => "enable",
            Callback::SelectCpu => "select_cpu",
            Callback::Enqueue => "enqueue",
            Callback::Dispatch => "dispatch",
            Callback::Running => "running",
            Callback::Stopping => "stopping",
            Callback::Tick => "tick",
            Callback::Dequeue => "dequeue",
            Callback::Runnable => "runnable",
            Callback::Quiescent => "quiescent",
            Callback::UpdateIdle => "update_idle",
            Callback::SetWeight => "set_weight",
            Callback::Timer => "timer",
        }
    }
}
