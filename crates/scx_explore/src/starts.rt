use scx_explore_findings::Watch;
use scx_explore_machines::{Look, Most};
use scx_isa::Callback;
use scx_load_driver::{give_back_machine, give_back_policy};
use scx_load_policies::{build_seeded, read_policy};
use scx_load_workloads::Workload;
use scx_sched::{Policy, Sim};
use scx_weights::Tree;
use std::alloc::{AllocError, Global};

/// The most instructions of the callbacks that run before any event; none of one that the policy doesn't have.
#[derive(Clone, Copy)]
pub struct Starts {
    pub init: Option<u64>,
    /// The most of all tasks.
    pub enable: Option<u64>,
    /// The most of all tasks.
    pub set_weight: Option<u64>,
    /// The most of all CPUs.
    pub update_idle: Option<u64>,
}

/// The most instructions of each callback as the machine of a policy and a workload starts.
///
/// # Errors
///
/// Memory runs out.
pub fn starts_of(alloc: Global, policy: &str, workload: &Workload) -> Result<Starts, AllocError> {
    let policy = policy_of(alloc, policy, workload.seed())?;
    match workload.tree(alloc) {
        Ok(tree) => starts_with(alloc, policy, tree, workload),
        Err(_) => {
            give_back_policy(policy);
            Err(AllocError)
        }
    }
}

fn policy_of(alloc: Global, text: &str, seed: u64) -> Result<Policy, AllocError> {
    let Ok(text) = read_policy(alloc, text) else {
        return Err(AllocError);
    };
    match build_seeded(alloc, text, seed) {
        Ok(policy) => Ok(policy),
        Err(_) => Err(AllocError),
    }
}

fn starts_with(
    alloc: Global,
    policy: Policy,
    tree: Tree,
    workload: &Workload,
) -> Result<Starts, AllocError> {
    let mut look = Look {
        watch: Watch::new(workload.tasks()),
        most: Most::none(),
    };
    match Sim::new_seen(alloc, policy, tree, workload.cpus(), &mut look) {
        Ok(sim) => {
            give_back_machine(sim);
            Ok(Starts {
                init: look.most.grown(Callback::Init),
                enable: look.most.grown(Callback::Enable),
                set_weight: look.most.grown(Callback::SetWeight),
                update_idle: look.most.grown(Callback::UpdateIdle),
            })
        }
        Err(_) => Err(AllocError),
    }
}
