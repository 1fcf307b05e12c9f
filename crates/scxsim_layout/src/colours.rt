use scx_load_workloads::Workload;

/// The number of colours for tasks.
pub(crate) const COLOURS: usize = 6;

/// The rule for the colours of tasks: one for each task, or one for each group.
#[derive(Clone, Copy)]
pub(crate) enum Colouring {
    ByTask,
    ByGroup,
}

impl Colouring {
    /// Each task has a colour of its own where there are few, or all are in one group.
    pub(crate) fn of(workload: &Workload) -> Colouring {
        if workload.tasks().len() <= COLOURS || is_one_group(workload.tasks()) {
            Colouring::ByTask
        } else {
            Colouring::ByGroup
        }
    }

    /// The colour of a task in the `group`th group with tasks.
    pub(crate) fn colour(self, task: usize, group: usize) -> usize {
        match self {
            Colouring::ByTask => task % COLOURS,
            Colouring::ByGroup => group % COLOURS,
        }
    }
}

/// True if all tasks are in one group.
fn is_one_group(homes: &[u32]) -> bool {
    match homes.first() {
        Some(first) => homes.iter().all(|home| home == first),
        None => true,
    }
}
