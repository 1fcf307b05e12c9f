ghost use Rattle.std.specs.Prelude.{◌≡◌, false, Some, IfOk, IfErr};
ghost use Rattle.scx_load_policies.specs.Building.{IsBuilt, IsFirstRefused, AreVerified, IsVerified, IsRefusedAs};

use crate::policy_text::PolicyText;
use scx_isa::{Callback, Program};
use scx_sched_policy::{Callbacks, Policy};
use scx_verify::{Fault, Verified, verify_by};
use scx_vm::Context;
use std::alloc::Global;
use std::fmt;
use thiserror::Error;

/// An error of `build`: the first callback whose program is refused, with the verifier's fault and its
/// slot, or out of memory.
#[derive(Clone, Copy, PartialEq, Eq, Error)]
pub enum BuildError {
    /// The first callback whose program is refused, for this fault at this slot.
    #[error("verify {} {} {} at {slot}", callback.name(), fault.number(), fault.name())]
    Refused {
        callback: Callback,
        fault: Fault,
        slot: usize,
    },
    /// Memory ran out.
    #[error("no memory")]
    NoMemory,
}

impl fmt::Debug for BuildError {
    fn fmt<W: fmt::Write>(&self, f: &mut fmt::Formatter<W>) -> fmt::Result {
        write!(f, "{}", self)
    }
}

/// Makes the policy of what was read. The programs are verified in the order of callbacks.
pub fn build(alloc: Global, text: PolicyText) -> Result<Policy, BuildError>
    ensures built { IfOk result (IsBuilt text) }
    ensures refused { IfErr result (IsFirstRefused text) }
{
    let defs = *text.defs();
    let timeout_ms = text.timeout_ms();
    let rules = text.rules();
    let tick_ms = text.tick_ms();
    let keeps_idle = text.keeps_idle();
    let timers = text.timers();
    let callbacks = verify_all(alloc, text)?;
    match Policy::new_by(rules, defs, timeout_ms, callbacks) {
        Ok(policy) => Ok(completed(policy, tick_ms, timers, keeps_idle)),
        Err(_) => unreachable!(),
    }
}

/// Makes the policy of what was read, as `build` does, with random numbers that begin at that seed.
#[tactic(auto, using(crate::proofs::Seeding::built_seeded))]
pub fn build_seeded(alloc: Global, text: PolicyText, seed: u64) -> Result<Policy, BuildError>
    ensures built { IfOk result (IsBuilt text) }
    ensures seeded { IfOk result (λ policy. policy.seed ≡ seed) }
    ensures refused { IfErr result (IsFirstRefused text) }
{
    let policy = build(alloc, text)?;
    Ok(policy.with_seed(seed))
}

/// The policy with ticks that far apart, that many timers, and idle CPUs tracked or not.
fn completed(policy: Policy, tick_ms: u32, timers: u8, keeps_idle: bool) -> Policy
    requires { policy.keeps_idle ≡ false }
    ensures { result ≡ record policy {
      tick_ms = tick_ms;
      timers = timers;
      keeps_idle = keeps_idle;
    } }
{
    let policy = policy.with_ticks(tick_ms).with_timers(timers);
    if keeps_idle {
        policy.with_idle_kept()
    } else {
        policy
    }
}

/// Verifies each program as its callback, by the rules of the file.
fn verify_all(alloc: Global, text: PolicyText) -> Result<Callbacks, BuildError>
    ensures ok { IfOk result (AreVerified text) }
    ensures refused { IfErr result (IsFirstRefused text) }
{
    let defs = *text.defs();
    let rules = text.rules();
    text.into_programs().try_map(&|callback, program| {
        verified(alloc, program, Context::new(callback, defs).by_rules(rules))
    })
}

/// A program, verified in that context.
fn verified(alloc: Global, program: Program, context: Context) -> Result<Verified, BuildError>
    ensures ok { IfOk result (λ v. IsVerified context (Some program) (Some v)) }
    ensures refused { IfErr result (IsRefusedAs context (Some program)) }
{
    let callback = context.callback;
    match verify_by(alloc, program, context) {
        Ok(verified) => Ok(verified),
        Err(error) => match error.fault {
            Fault::NoMemory => Err(BuildError::NoMemory),
            fault => Err(BuildError::Refused {
                callback,
                fault,
                slot: error.slot,
            }),
        },
    }
}
