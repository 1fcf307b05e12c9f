ghost use Rattle.std.specs.Prelude.{◌≡◌, Some, option_map, IfOk, IfErr, OnErr};
ghost use Rattle.scxsim_commands.specs.declared.refusal.Refusal.TheVariants.{NoMemory};
ghost use Rattle.scx_load_policies.specs.Building.{AsksForMemory};
ghost use Rattle.scx_load_policies.specs.Policies.{program_of};
ghost use Rattle.scx_isa_semantics.specs.declared.callbacks.Callback.{Callback};
ghost use Rattle.scx_vm.specs.Programs.{context};
ghost use Rattle.scxsim_commands.specs.Verdicts.{IsVerdict, HasVerdicts, is_accepted, are_accepted};

use crate::refusal::Refusal;
use scx_isa::{CALLBACKS, Callback, PerCallback, Program};
use scx_load_policies::PolicyText;
use scx_maps::MapDefs;
use scx_verify::{Fault, verify_by};
use scx_vm::Context;
use std::alloc::Global;

/// The verifier's answer to a program.
#[derive(Clone, Copy)]
pub enum Verdict {
    /// It is safe, and has that many instructions.
    Accepted(usize),
    /// It has that fault, at that slot.
    Refused(Fault, usize),
}

/// The verdicts on the callbacks of a policy: none where there is no program.
pub type Verdicts = PerCallback<Option<Verdict>>;

/// True if no program is refused.
pub fn are_accepted(verdicts: &Verdicts) -> bool
    ensures { result ≡ are_accepted verdicts.now }
{
    for callback in CALLBACKS {
        if !is_accepted(verdicts.get(callback)) {
            return false;
        }
    }
    true
}

fn is_accepted(verdict: Option<&Verdict>) -> bool
    ensures { result ≡ is_accepted (option_map (λ v. v.now) verdict.entry) }
{
    match verdict {
        None => true,
        Some(Verdict::Accepted(_)) => true,
        Some(Verdict::Refused(_, _)) => false,
    }
}

/// Verifies the programs of a policy, in the order of its callbacks.
///
/// # Errors
///
/// Memory ran out.
pub(crate) fn verdicts_of(alloc: Global, policy: PolicyText) -> Result<Verdicts, Refusal>
    ensures verdicts { IfOk result (HasVerdicts policy) }
    ensures memory { IfErr result (λ refusal. refusal ≡ NoMemory) }
    ensures asked { OnErr result ((b : Callback) × AsksForMemory (program_of policy b)) }
{
    let defs = *policy.defs();
    let rules = policy.rules();
    policy.into_programs().try_map(&|callback, program| {
        judge_by(alloc, program, Context::new(callback, defs).by_rules(rules))
    })
}

/// The verdict on a program as that callback, by plain rules.
///
/// # Errors
///
/// Memory ran out.
pub fn judge(
    alloc: Global,
    program: Program,
    callback: Callback,
    defs: &MapDefs,
) -> Result<Verdict, Refusal>
    ensures verdict { IfOk result (IsVerdict (context callback defs.now) program) }
    ensures memory { IfErr result (λ refusal. refusal ≡ NoMemory) }
    ensures asked { OnErr result (AsksForMemory (Some program)) }
{
    judge_by(alloc, program, Context::new(callback, *defs))
}

/// The verdict on a program in that context.
///
/// # Errors
///
/// Memory ran out.
pub fn judge_by(alloc: Global, program: Program, context: Context) -> Result<Verdict, Refusal>
    ensures verdict { IfOk result (IsVerdict context program) }
    ensures memory { IfErr result (λ refusal. refusal ≡ NoMemory) }
    ensures asked { OnErr result (AsksForMemory (Some program)) }
{
    match verify_by(alloc, program, context) {
        Ok(verified) => Ok(Verdict::Accepted(verified.instructions())),
        Err(error) => match error.fault {
            Fault::NoMemory => Err(Refusal::NoMemory),
            fault => Ok(Verdict::Refused(fault, error.slot)),
        },
    }
}
