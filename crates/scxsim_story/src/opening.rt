ghost use Rattle.std.specs.Prelude.{◌≡◌, IfOk, string_bytes};
ghost use Rattle.scxsim_views.specs.BoundTasks.{bound_mask};
ghost use Rattle.scxsim_story.specs.Stories.{Opens};

use scx_load_workloads::Workload;
use scxsim_output::Text;
use scxsim_views::{bound_mask, write_allowed};
use std::alloc::{AllocError, Global};

/// The opening of the story of a task of that name: the CPUs on which it may run, if it is bound to some.
pub(crate) fn opening_of(
    alloc: Global,
    workload: &Workload,
    name: &str,
    task: u16,
) -> Result<String, AllocError>
    ensures { IfOk result
        (λ text. Opens name.now (bound_mask workload.now task) (string_bytes text)) }
{
    match bound_mask(workload, task) {
        Some(mask) => line_of_cpus(alloc, name, mask),
        None => Ok(String::new(alloc)),
    }
}

/// The line of a task that may run on the CPUs of that mask.
fn line_of_cpus(alloc: Global, name: &str, mask: u64) -> Result<String, AllocError>
    ensures { IfOk result (λ text. Opens name.now (Some mask) (string_bytes text)) }
{
    let mut cpus = Text::new(alloc);
    write_allowed(mask, &mut cpus);
    let cpus = cpus.finish()?;
    let mut line = String::from_str(alloc, name)?;
    line.push_str(" may run on ")?;
    line.push_str(cpus.as_str())?;
    line.push_str("\n")?;
    Ok(line)
}
