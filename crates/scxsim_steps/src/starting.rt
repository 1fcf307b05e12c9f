use crate::stepper::Stepper;
use scx_load_driver::{give_back_machine, give_back_policy};
use scx_load_workloads::Workload;
use scx_sched::{NewError, Policy, Sim};
use scx_weights::Tree;
use scxsim_faults::policy_of;
use scxsim_output::Text;
use std::alloc::{AllocError, Global};

/// The text of init and enable, which are called before the first event: empty unless the millisecond is 0.
///
/// # Errors
///
/// Memory runs out.
pub(crate) fn text_of_start(
    alloc: Global,
    policy: &str,
    workload: &Workload,
    ms: u64,
) -> Result<Text, AllocError> {
    if ms != 0 {
        return Ok(Text::new(alloc));
    }
    match policy_of(alloc, policy, workload.seed())? {
        Some(policy) => {
            let text = start_of(alloc, policy, workload)?;
            Ok(titled(alloc, &text))
        }
        None => Ok(Text::new(alloc)),
    }
}

/// The text after a title, unless it is empty.
fn titled(alloc: Global, text: &Text) -> Text {
    let mut page = Text::new(alloc);
    if !text.is_empty() {
        page.push("as the policy is loaded\n");
    }
    page.append(text);
    page
}

fn start_of(alloc: Global, policy: Policy, workload: &Workload) -> Result<Text, AllocError> {
    match workload.tree(alloc) {
        Ok(tree) => start_with(alloc, policy, tree, workload),
        Err(_) => {
            give_back_policy(policy);
            Err(AllocError)
        }
    }
}

/// Makes the machine of the policy, and tells the callbacks that are called for it.
fn start_with(
    alloc: Global,
    policy: Policy,
    tree: Tree,
    workload: &Workload,
) -> Result<Text, AllocError> {
    let mut stepper = Stepper::new(alloc, workload, 0, Text::new(alloc));
    match Sim::new_seen(alloc, policy, tree, workload.cpus(), &mut stepper) {
        Ok(sim) => {
            give_back_machine(sim);
            Ok(stepper.into_text())
        }
        Err(NewError::OutOfMemory) => {
            drop(stepper);
            Err(AllocError)
        }
        Err(_) => Ok(stepper.into_text()),
    }
}
