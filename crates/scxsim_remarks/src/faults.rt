use crate::named_text::NamedText;
use crate::remarks::rules_of;
use scx_load_replay::Scenario;
use scx_load_workloads::Workload;
use scxsim_faults::{FaultPlace, find_fault, write_place, write_reason};
use scxsim_output::Text;
use scxsim_runs::read_scenario;
use std::alloc::Global;

/// A remark on the fault or exit for which the policy was ejected at that clock, or failed before the
/// start: the instruction that had it. None where there is none, or memory ran out.
pub fn remark_on_fault(
    alloc: Global,
    policy: NamedText<'_>,
    scenario: NamedText<'_>,
    clock: u64,
) -> Option<String> {
    let rules = rules_of(alloc, policy.text);
    let scenario = read_scenario(alloc, rules, scenario.text).ok()?;
    let remark = remark_of(alloc, policy, &scenario, clock);
    drop(scenario);
    remark
}

fn remark_of(
    alloc: Global,
    policy: NamedText<'_>,
    scenario: &Scenario,
    clock: u64,
) -> Option<String> {
    let fault = find_fault(alloc, policy.text, scenario, clock).ok()??;
    let what = words_of(alloc, &fault, scenario.workload());
    let place = policy.line_of(alloc, fault.callback, fault.slot);
    policy.error_below(alloc, place, &what, "").ok()
}

fn words_of(alloc: Global, fault: &FaultPlace, workload: &Workload) -> Text {
    let mut what = Text::new(alloc);
    write_place(fault, &mut what);
    what.push(": ");
    write_reason(fault, workload, &mut what);
    what
}
