use scx_sched::{Policy, Sim};

/// Gives back the memory of a machine. A crate that calls it proves no destructor of the machine's parts again.
pub fn give_back_machine(sim: Sim) {
    drop(sim);
}

/// Gives back the memory of a policy, as `give_back_machine` does.
pub fn give_back_policy(policy: Policy) {
    drop(policy);
}
