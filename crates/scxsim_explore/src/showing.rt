ghost use Rattle.std.specs.Prelude.{◌≡◌, true, All, OnOk};
ghost use Rattle.std.specs.Io.KnownBytes.{Appends};
ghost use Rattle.scxsim_output.specs.Output.{Counts};
ghost use Rattle.scxsim_trace.specs.Lines.{names_of};
ghost use Rattle.scxsim_explore_lines.specs.Found.{told_text, told_texts};
ghost use Rattle.scx_load_driver.specs.Runs.{stepped_all};
ghost use Rattle.scx_explore_findings.specs.Path.{IsAs};
ghost use Rattle.scx_explore_findings.specs.Findings.{Shows};
ghost use Rattle.scxsim_explore.specs.Lists.{IsKept};

use crate::machines::Machines;
use scx_explore::{Finding, Mode, shows};
use scx_load_workloads::Workload;
use scx_sched::{Event, Sim};
use scxsim_explore_lines::{Told, write_told};
use scxsim_output::{Failed, Out};

/// True if a machine that wasn't searched shows that the list ends so.
pub(crate) fn is_shown(
    machines: &mut Machines,
    about: &Workload,
    events: &[Event],
    finding: Finding,
) -> bool
    ensures same { machines.new ≡ machines.old }
    ensures shown { result ≡ true → Shows about.now.homes machines.old events.now finding }
    ensures alike { result ≡ true → IsAs machines.old (stepped_all machines.old events.now) }
{
    let Some(sim) = machines.take() else {
        return false;
    };
    let mut sim = sim;
    let is_shown = does_show(&mut sim, about.tasks(), events, finding);
    machines.give_back(sim);
    is_shown
}

/// True if the policy is in force and the list ends so.
fn does_show(sim: &mut Sim, homes: &[u32], events: &[Event], finding: Finding) -> bool
    ensures shown { result ≡ true → Shows homes.now sim.old events.now finding }
    ensures there { result ≡ true → sim.new ≡ stepped_all sim.old events.now }
    ensures alike { IsAs sim.old sim.new }
{
    sim.ejected().is_none() && shows(sim, homes, events, finding)
}

/// Writes lists one after another. The teller runs each of them from the state of the first machine.
pub(crate) fn write_lists<W: Out>(
    first: &Sim,
    teller: &mut Sim,
    about: &Workload,
    mode: Mode,
    lists: &[Told],
    out: &mut W,
) -> Result<(), Failed>
    requires kept { All (IsKept mode about.now first.now) lists.now }
    requires alike { IsAs first.now teller.old }
    ensures alike { OnOk result (IsAs first.now teller.new) }
    ensures told { OnOk result (Appends (W.contents out.old) (W.contents out.new)
        (told_texts (names_of about.now) first.now mode lists.now)) }
    ensures failures { Counts result (W.failure_count out.old) (W.failure_count out.new) }
{
    for list in lists {
        write_list(first, teller, about, mode, list, out)?;
    }
    Ok(())
}

/// Writes a list. The teller runs it from the state of the first machine.
pub(crate) fn write_list<W: Out>(
    first: &Sim,
    teller: &mut Sim,
    about: &Workload,
    mode: Mode,
    list: &Told,
    out: &mut W,
) -> Result<(), Failed>
    requires kept { IsKept mode about.now first.now list.now }
    requires alike { IsAs first.now teller.old }
    ensures alike { OnOk result (IsAs first.now teller.new) }
    ensures told { OnOk result (Appends (W.contents out.old) (W.contents out.new)
        (told_text (names_of about.now) first.now mode list.now)) }
    ensures failures { Counts result (W.failure_count out.old) (W.failure_count out.new) }
{
    begin_anew(teller, first);
    write_told(teller, about, mode, list, out)
}

/// Makes the teller a copy of the first machine.
fn begin_anew(teller: &mut Sim, first: &Sim)
    requires { IsAs first.now teller.old }
    ensures { teller.new ≡ first.now }
{
    teller.copy_from(first);
}
