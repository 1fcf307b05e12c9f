ghost use Rattle.std.specs.Prelude.{◌≡◌};
ghost use Rattle.scx_sched_world.specs.Helpers.{kick_of};

/// A way to kick a CPU, so that it looks for work.
#[derive(Clone, Copy)]
pub enum Kick {
    /// It may be idle or run a task.
    Any,
    /// If it is idle.
    IfIdle,
    /// Once the task that runs there has lost its slice.
    Preempt,
}

impl Kick {
    /// The kick that the flags ask for; none if they are unknown.
    pub fn of_flags(flags: u64) -> Option<Kick>
        ensures { result ≡ kick_of flags }
    {
        match flags {
            0 => Some(Kick::Any),
            1 => Some(Kick::IfIdle),
            2 => Some(Kick::Preempt),
            _ => None,
        }
    }
}
