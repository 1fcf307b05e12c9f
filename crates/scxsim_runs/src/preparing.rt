ghost use Rattle.std.specs.Prelude.{◌≡◌, ◌≢◌, false, Ok, IfOk, IfErr, OnOk, string_bytes};
ghost use Rattle.scx_sched_machine.specs.declared.start.NewError.TheVariants.{BadShape};
ghost use Rattle.scx_sched_machine.specs.Callbacks.{AreAnswered};
ghost use Rattle.scx_sched_machine.specs.Start.{is_bad_shape, start_calls};
ghost use Rattle.scx_sched.specs.Sim.{IsFirstState};
ghost use Rattle.scx_load_policies.specs.Reading.{policy_text};
ghost use Rattle.scx_load_workloads.specs.Workload.{first_tree};
ghost use Rattle.scx_load_workloads.specs.Reading.{workload_by};
ghost use Rattle.scx_load_driver.specs.Driver.{remaining};
ghost use Rattle.scx_load_driver.specs.Events.{workload_events};
ghost use Rattle.scx_load_driver.specs.Runs.{AreAccepted};
ghost use Rattle.scxsim_commands.specs.declared.refusal.Refusal.TheVariants.{NoMemory};
ghost use Rattle.scxsim_commands.specs.Refusals.{file_refusal};
ghost use Rattle.scxsim_runs.specs.Runs.{IsRun, name_in, IsCause, IsPolicyFault, IsWorkloadFault, IsStartFault};
ghost use Rattle.scxsim_runs.specs.Refusals.{or_refusal, IsStartRefusal};

use crate::listener::{Heard, Listener};
use scx_isa_semantics::Rules;
use scx_load_driver::{Driver, Events, give_back_machine, give_back_policy};
use scx_load_files::LoadError;
use scx_load_policies::{PolicyText, build_seeded, read_policy};
use scx_load_workloads::{Workload, read_workload_by};
use scx_sched::{NewError, Policy, Sim};
use scx_weights::Tree;
use scxsim_commands::{FileKind, Refusal};
use std::alloc::{AllocError, Global};

/// A run that is about to begin, of a workload or of a file of events.
#[derive(Drop)]
pub struct Run<E = Driver> {
    /// The policy's name, empty where its file gives none.
    pub policy_name: String,
    pub workload: Workload,
    /// The source of its events.
    pub driver: E,
    pub sim: Sim,
}

impl Run<Driver> {
    /// The machine once more, with a driver of its own: for a caller who goes through the run twice.
    ///
    /// # Errors
    ///
    /// Memory ran out.
    pub fn duplicate(&self, alloc: Global) -> Result<(Driver, Sim), AllocError>
        ensures machine { IfOk result (λ copy. copy.1 ≡ self.now.sim) }
        ensures events { IfOk result
            (λ copy. remaining copy.0 copy.1 ≡ workload_events self.now.workload copy.1) }
    {
        let driver = Driver::new(alloc, &self.workload)?;
        let sim = self.sim.duplicate(alloc)?;
        Ok((driver, sim))
    }
}

/// Gives back the memory of a machine and of its events.
pub fn give_back<E: Events + Drop, L: Listener>(events: Heard<'_, E, L>, sim: Sim) {
    drop(events);
    give_back_machine(sim);
}

/// The run of a policy file's text and a workload file's.
///
/// # Errors
///
/// The texts are refused.
pub fn prepare(alloc: Global, policy: &str, workload: &str) -> Result<Run, Refusal>
    ensures run { IfOk result (λ run. IsRun policy.now workload.now run.workload run.sim) }
    ensures events { IfOk result
        (λ run. remaining run.driver run.sim ≡ workload_events run.workload run.sim) }
    ensures named { IfOk result (λ run. name_in policy.now ≡ Ok (string_bytes run.policy_name)) }
    ensures refused { IfErr result (IsCause policy.now workload.now) }
{
    let text = policy_in(alloc, policy)?;
    let workload = workload_in(alloc, text.rules(), workload)?;
    let name = String::from_str(alloc, text.name())?;
    let policy = build_seeded(alloc, text, workload.seed())?;
    begin(alloc, name, policy, workload)
}

/// The run of a workload under a policy. All of its memory is taken here.
#[tactic(auto, using(scx_load_driver::proofs::Law::none_is_refused))]
fn begin(alloc: Global, name: String, policy: Policy, workload: Workload) -> Result<Run, Refusal>
    ensures name { IfOk result (λ run. run.policy_name ≡ name) }
    ensures workload { IfOk result (λ run. run.workload ≡ workload) }
    ensures first { IfOk result
        (λ run. IsFirstState policy (first_tree workload) workload.cpus run.sim) }
    ensures events { IfOk result
        (λ run. remaining run.driver run.sim ≡ workload_events workload run.sim) }
    ensures accepted { IfOk result (λ run. AreAccepted run.sim (workload_events workload run.sim)) }
    ensures answered { OnOk result (AreAnswered
        (start_calls policy (first_tree workload) workload.cpus)) }
    ensures refused { IfErr result
        (IsStartFault policy (first_tree workload) workload.cpus) }
{
    workload.is_whole();
    match Driver::new(alloc, &workload) {
        Ok(driver) => begin_with(alloc, name, policy, workload, driver),
        Err(AllocError) => {
            drop(name);
            give_back_policy(policy);
            drop(workload);
            Err(Refusal::NoMemory)
        }
    }
}

/// The run of a workload under a policy, with the source of its events.
pub(crate) fn begin_with<E: Drop>(
    alloc: Global,
    name: String,
    policy: Policy,
    workload: Workload,
    driver: E,
) -> Result<Run<E>, Refusal>
    ensures name { IfOk result (λ run. run.policy_name ≡ name) }
    ensures workload { IfOk result (λ run. run.workload ≡ workload) }
    ensures driver { IfOk result (λ run. run.driver ≡ driver) }
    ensures first { IfOk result
        (λ run. IsFirstState policy (first_tree workload) workload.cpus run.sim) }
    ensures answered { OnOk result (AreAnswered
        (start_calls policy (first_tree workload) workload.cpus)) }
    ensures refused { IfErr result
        (IsStartFault policy (first_tree workload) workload.cpus) }
{
    match start(alloc, policy, &workload) {
        Ok(sim) => Ok(Run {
            policy_name: name,
            workload,
            driver,
            sim,
        }),
        Err(refusal) => {
            drop(name);
            drop(workload);
            drop(driver);
            Err(refusal)
        }
    }
}

/// The machine of a workload under a policy, before the first event.
#[tactic(auto, using(crate::proofs::Shapes::shape_is_right))]
pub(crate) fn start(alloc: Global, policy: Policy, workload: &Workload) -> Result<Sim, Refusal>
    ensures first { IfOk result
        (IsFirstState policy (first_tree workload.now) workload.now.cpus) }
    ensures answered { OnOk result (AreAnswered
        (start_calls policy (first_tree workload.now) workload.now.cpus)) }
    ensures refused { IfErr result
        (IsStartFault policy (first_tree workload.now) workload.now.cpus) }
{
    workload.is_whole();
    match tree_of(alloc, workload) {
        Ok(tree) => machine(alloc, policy, tree, workload.cpus()),
        Err(refusal) => {
            give_back_policy(policy);
            Err(refusal)
        }
    }
}

pub(crate) fn policy_in(alloc: Global, text: &str) -> Result<PolicyText, Refusal>
    ensures read { IfOk result (λ policy. policy_text text.now ≡ Ok policy) }
    ensures refused { IfErr result (IsPolicyFault text.now) }
{
    or_refusal(FileKind::Policy, read_policy(alloc, text))
}

/// The workload of a text, for a policy by those rules.
pub(crate) fn workload_in(alloc: Global, rules: Rules, text: &str) -> Result<Workload, Refusal>
    ensures read { IfOk result (λ workload. workload_by rules text.now ≡ Ok workload) }
    ensures refused { IfErr result (IsWorkloadFault rules text.now) }
{
    or_refusal(FileKind::Workload, read_workload_by(alloc, rules, text))
}

/// The contents of a file of that kind, or its refusal: its fault where one was found.
pub(crate) fn or_refusal<T>(kind: FileKind, read: Result<T, LoadError>) -> Result<T, Refusal>
    ensures { result ≡ or_refusal (file_refusal kind) read }
{
    match read {
        Ok(made) => Ok(made),
        Err(error) => Err(Refusal::of_file(kind, error)),
    }
}

/// The groups and tasks of a workload, each task with its own weight and none active.
fn tree_of(alloc: Global, workload: &Workload) -> Result<Tree, Refusal>
    ensures tree { IfOk result (λ tree. tree ≡ first_tree workload.now) }
    ensures refused { IfErr result (λ refusal. refusal ≡ NoMemory) }
{
    match workload.tree(alloc) {
        Ok(tree) => Ok(tree),
        Err(AllocError) => Err(Refusal::NoMemory),
    }
}

/// The machine of a policy, before the first event.
fn machine(alloc: Global, policy: Policy, tree: Tree, cpus: u32) -> Result<Sim, Refusal>
    requires { is_bad_shape tree cpus ≡ false }
    ensures first { IfOk result (IsFirstState policy tree cpus) }
    ensures answered { OnOk result (AreAnswered (start_calls policy tree cpus)) }
    ensures refused { IfErr result (IsStartFault policy tree cpus) }
{
    match Sim::new(alloc, policy, tree, cpus) {
        Ok(sim) => Ok(sim),
        Err(error) => Err(start_refusal(error)),
    }
}

/// The refusal of a machine whose shape is right: the answer of init where it failed.
fn start_refusal(error: NewError) -> Refusal
    requires { error ≢ BadShape }
    ensures { IsStartRefusal error result }
{
    match error {
        NewError::InitFailed(answer) => Refusal::Init(answer),
        NewError::OutOfMemory => Refusal::NoMemory,
        NewError::BadShape => unreachable!(),
    }
}
