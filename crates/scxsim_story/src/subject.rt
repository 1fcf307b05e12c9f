ghost use Rattle.std.specs.Prelude.{◌≡◌, IfSome, IfNone};
ghost use Rattle.scxsim_story.specs.Stories.{IsSubject, IsNoTask};

use scx_load_workloads::Workload;

/// The subject of a story: a task, and its group.
#[derive(Clone, Copy)]
pub(crate) struct Subject {
    pub(crate) task: u16,
    pub(crate) group: u32,
}

/// The task of that name, if the workload has one.
pub(crate) fn subject_of(workload: &Workload, name: &str) -> Option<Subject>
    ensures found { IfSome result (IsSubject workload.now name.now) }
    ensures none { IfNone result (IsNoTask workload.now name.now) }
{
    workload.is_whole();
    for task in 0..workload.tasks().len() as u16 {
        if workload.task_name(task) == name {
            return Some(Subject {
                task,
                group: workload.tasks()[task as usize],
            });
        }
    }
    None
}
