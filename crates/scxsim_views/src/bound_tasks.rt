ghost use Rattle.std.specs.Prelude.{◌≡◌, ◌≤◌};
ghost use Rattle.scx_load_workloads.specs.Workload.{all_cpus};
ghost use Rattle.scxsim_views.specs.BoundTasks.{bound_mask};

use scx_load_workloads::{MAX_CPUS, Workload};
use scxsim_output::Text;

/// The CPUs on which the task may run, one bit each, if it may not run on all.
pub fn bound_mask(workload: &Workload, task: u16) -> Option<u64>
    ensures { result ≡ bound_mask workload.now task }
{
    workload.is_whole();
    let all = all_cpus(workload.cpus());
    let mask = *workload.masks().get(task as usize)?;
    if mask == all { None } else { Some(mask) }
}

/// The mask of all CPUs.
#[tactic(auto, using(scx_load_workloads::proofs::Masks::all_are))]
fn all_cpus(cpus: u32) -> u64
    requires some { 1 ≤ cpus }
    requires few { cpus ≤ 64 }
    ensures { result ≡ all_cpus cpus }
{
    u64::MAX >> (MAX_CPUS - cpus)
}

/// Writes the CPUs on which a task may run: `CPU 0 alone`, or `CPUs 0 to 3 and 8`.
pub fn write_allowed(mask: u64, said: &mut Text) {
    write_cpus(mask, said);
    if mask.count_ones() == 1 {
        said.push(" alone");
    }
}

/// Writes the CPUs of a mask: `CPU 0`, or `CPUs 0 to 3 and 8`.
pub fn write_cpus(mask: u64, said: &mut Text) {
    let mut before = if mask.count_ones() == 1 {
        "CPU "
    } else {
        "CPUs "
    };
    for cpu in 0..MAX_CPUS {
        if begins(mask, cpu) {
            said.number(before, u64::from(cpu));
            before = between(mask, cpu);
        } else if ends(mask, cpu) {
            said.number(" to ", u64::from(cpu));
            before = between(mask, cpu);
        }
    }
}

/// The text between the CPUs of a mask up to that one and the next run of them: ` and ` before the last run.
fn between(mask: u64, cpu: u32) -> &'static str {
    let mut runs = 0u32;
    for next in 0..MAX_CPUS {
        if cpu < next && begins(mask, next) {
            runs = runs.saturating_add(1);
        }
    }
    if runs == 1 { " and " } else { ", " }
}

/// True if the CPU is the first of a run of a mask's CPUs.
fn begins(mask: u64, cpu: u32) -> bool {
    has_cpu(mask, cpu) && (cpu == 0 || !has_cpu(mask, cpu - 1))
}

/// True if the CPU is the last of a run of a mask's CPUs.
fn ends(mask: u64, cpu: u32) -> bool {
    has_cpu(mask, cpu) && !has_cpu(mask, cpu.saturating_add(1))
}

/// True if the CPU is one of a mask.
pub fn has_cpu(mask: u64, cpu: u32) -> bool {
    cpu < MAX_CPUS && mask >> cpu & 1 == 1
}
