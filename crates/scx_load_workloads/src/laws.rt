ghost use Rattle.scx_load_workloads.specs.Laws.{PlainTasksWeighAlike, PlainTasksAreUnbound};

/// Under plain rules no file gives a task a weight of its own. The function does nothing: its contract is the law.
#[tactic(auto, using(crate::proofs::Plainly::plain_tasks_weigh_alike))]
pub fn plain_tasks_weigh_alike()
    ensures { PlainTasksWeighAlike }
{}

/// Under plain rules no file binds a task to CPUs or gives a seed. The function does nothing: its contract is the law.
pub fn plain_tasks_are_unbound()
    ensures { PlainTasksAreUnbound }
{}
