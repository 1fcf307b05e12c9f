ghost use Rattle.scx_laws.specs.Looking.{LookingFindsATask, WokenFindsATask};

/// By plain rules or by Linux rules, under a policy whose dispatch serves queues and that has neither `dequeue` nor
/// `update_idle`, without quotas: a CPU that looks for a task and goes idle leaves no task that may run there in these
/// queues, in its own or in the global one. The function does nothing: its contract is the law.
pub fn cpus_that_look_find_tasks()
    ensures any { LookingFindsATask }
    ensures woken { WokenFindsATask }
{}
