ghost use Rattle.std.specs.Prelude.{◌≡◌, ◌+◌, ◌*◌, ◌<◌, ◌≤◌, ◌^◌, ◌++◌, length, slice_index, sum, codes, decimal, OnOk, OnErr};
ghost use Rattle.std.specs.Io.KnownBytes.{Appends};
ghost use Rattle.scxsim_output.specs.Output.{AppendsBeginning, Counts};
ghost use Rattle.scxsim_trace.specs.Report.{times, share, total_line as total_text, policy_start as start_of, policy_name as name_of, policy_end as end_of, policy_line, report};

use crate::names::Names;
use arrayvec::ArrayString;
use itoa::Buffer;
use scx_sched::{Eject, Sim};
use scxsim_output::{Failed, Out, write_all, write_named};

/// A millisecond in nanoseconds.
const MS: u64 = 1_000_000;

/// Room for a line, or for a part of one. It takes no memory from the allocator.
type Line = ArrayString<80>;

/// Writes the run time of each task, its part of all run time, and whether the policy is in force.
///
/// # Errors
///
/// Writing failed. The text is cut off there.
pub fn write_report<N: Names, W: Out>(sim: &Sim, names: &N, out: &mut W) -> Result<(), Failed>
    ensures ok { OnOk result (Appends (W.contents out.old) (W.contents out.new)
        (report (N.lists names.now) (times sim.now.state.world) sim.now.state.world.ejected)) }
    ensures err { OnErr result (AppendsBeginning (W.contents out.old) (W.contents out.new)
        (report (N.lists names.now) (times sim.now.state.world) sim.now.state.world.ejected)) }
    ensures failures { Counts result (W.failure_count out.old) (W.failure_count out.new) }
{
    let total = total_ms(sim);
    for task in 0..sim.tasks() {
        let end = end_of_task(run_ms(sim, task), total);
        write_named(out, "task ", names.task(task), end.as_str())?;
    }
    write_all(out, total_line(total).as_str().as_bytes())?;
    write_policy(sim.ejected(), names, out)
}

/// The run time of the task, in milliseconds.
fn run_ms(sim: &Sim, task: u16) -> u64
    requires { task < length sim.now.state.world.tasks }
    ensures ms { result ≡ slice_index (times sim.now.state.world) task }
    ensures most { result ≤ 2 ^ 45 }
{
    sim.run_ns(task) / MS
}

/// The run time of all tasks, in milliseconds.
fn total_ms(sim: &Sim) -> u64
    ensures { result ≡ sum (times sim.now.state.world) }
{
    let mut total = 0;
    for task in 0..sim.tasks() {
        total += run_ms(sim, task);
    }
    total
}

/// A part of all, in ten thousandths.
fn share(ms: u64, total: u64) -> u64
    requires { ms ≤ 2 ^ 45 }
    ensures { result ≡ share ms total }
{
    if total == 0 {
        return 0;
    }
    10_000 * ms / total
}

/// The text after a task's name.
fn end_of_task(ms: u64, total: u64) -> Line
    requires { ms ≤ 2 ^ 45 }
    ensures { result.bytes
        ≡ codes " run " ++ decimal ms ++ codes " share " ++ decimal (share ms total) ++ codes "\n" }
{
    let mut digits = Buffer::new();
    let mut end = Line::new();
    end.push_str(" run ");
    end.push_str(digits.format(ms));
    end.push_str(" share ");
    end.push_str(digits.format(share(ms, total)));
    end.push_str("\n");
    end
}

fn total_line(total: u64) -> Line
    ensures { result.bytes ≡ total_text total }
{
    let mut digits = Buffer::new();
    let mut line = Line::new();
    line.push_str("total ");
    line.push_str(digits.format(total));
    line.push_str("\n");
    line
}

/// Writes whether the policy is in force, or why and when it was ejected.
fn write_policy<N: Names, W: Out>(
    ejected: Option<Eject>,
    names: &N,
    out: &mut W,
) -> Result<(), Failed>
    ensures ok { OnOk result
        (Appends (W.contents out.old) (W.contents out.new)
        (policy_line (N.lists names.now) ejected)) }
    ensures err { OnErr result
        (AppendsBeginning (W.contents out.old) (W.contents out.new)
        (policy_line (N.lists names.now) ejected)) }
    ensures failures { Counts result (W.failure_count out.old) (W.failure_count out.new) }
{
    let start = policy_start(ejected);
    let end = policy_end(ejected);
    write_named(
        out,
        start.as_str(),
        policy_name(names, ejected),
        end.as_str(),
    )
}

fn policy_start(ejected: Option<Eject>) -> Line
    ensures { result.bytes ≡ start_of ejected }
{
    let mut start = Line::new();
    match ejected {
        None => start.push_str("policy in force"),
        Some(Eject::Stall(_, _)) => start.push_str("policy ejected stall "),
        Some(Eject::Fault(fault, _)) => {
            let mut digits = Buffer::new();
            start.push_str("policy ejected fault ");
            start.push_str(digits.format(fault.number()));
        }
        Some(Eject::Exit(code, _)) => {
            let mut digits = Buffer::new();
            start.push_str("policy ejected exit ");
            start.push_str(digits.format(code));
        }
    }
    start
}

/// The name of the task that waited too long.
fn policy_name<N: Names>(names: &N, ejected: Option<Eject>) -> &str
    ensures { result.now ≡ name_of (N.lists names.now) ejected }
{
    match ejected {
        Some(Eject::Stall(task, _)) => names.task(task),
        Some(Eject::Fault(_, _) | Eject::Exit(_, _)) | None => "",
    }
}

fn policy_end(ejected: Option<Eject>) -> Line
    ensures { result.bytes ≡ end_of ejected }
{
    let mut end = Line::new();
    if let Some(Eject::Stall(_, clock) | Eject::Fault(_, clock) | Eject::Exit(_, clock)) = ejected {
        let mut digits = Buffer::new();
        end.push_str(" at ");
        end.push_str(digits.format(clock));
    }
    end.push_str("\n");
    end
}
