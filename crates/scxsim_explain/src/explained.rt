ghost use Rattle.std.specs.Prelude.{◌≡◌, [], ◌∷◌, ◌++◌, map, IfOk, IfErr, OnOk};
ghost use Rattle.scxsim_commands.specs.declared.refusal.Refusal.TheVariants.{NoMemory};
ghost use Rattle.scx_load_policies.specs.Policies.{program_of, without};
ghost use Rattle.scx_load_policies.specs.Building.{context_of};
ghost use Rattle.scx_vm.specs.Programs.{context, by_rules};
ghost use Rattle.scx_verify_explain.specs.Listings.{IsListing};
ghost use Rattle.scxsim_commands.specs.Verdicts.{IsVerdict, IsVerdictOf, HasVerdicts};
ghost use Rattle.scxsim_explain.specs.Explained.{IsExplained, IsSo, IsTraced, HasJumps, ArePrograms};
ghost use Rattle.scxsim_explain.specs.Explained.{first_line};
ghost use Rattle.scxsim_explain.specs.Listed.{line_on, first_lines};
ghost use Rattle.scxsim_explain.specs.One.{IsTaken};

use crate::writing::room_for_line;
use scx_isa::{CALLBACKS, Callback, PerCallback, Program, Rules};
use scx_load_policies::PolicyText;
use scx_maps::MapDefs;
use scx_verify_explain::{Explanation, Jumps, Listing, explanation_of};
use scx_vm::Context;
use scxsim_commands::{Refusal, Verdict, Verdicts, judge_by};
use scxsim_output::Text;
use std::alloc::{AllocError, Global};

/// A program, the verdict on it, and why it is refused, if it is.
#[derive(Drop)]
pub(crate) struct Explained {
    pub(crate) verdict: Verdict,
    pub(crate) listing: Listing,
    pub(crate) jumps: Jumps,
    pub(crate) explanation: Option<Explanation>,
}

/// The verdicts on the programs of a policy, and the programs in the order of its callbacks, each
/// explained.
#[derive(Drop)]
pub(crate) struct ExplainedPolicy {
    pub(crate) verdicts: Verdicts,
    pub(crate) programs: Vec<Explained>,
    /// Room for a line of them.
    pub(crate) line: Text,
}

/// Explains the programs of a policy.
///
/// # Errors
///
/// Memory ran out.
pub(crate) fn explain_policy(alloc: Global, policy: PolicyText) -> Result<ExplainedPolicy, Refusal>
    ensures verdicts { IfOk result (λ explained. HasVerdicts policy explained.verdicts) }
    ensures programs { IfOk result ArePrograms }
    ensures memory { IfErr result (λ refusal. refusal ≡ NoMemory) }
{
    let mut policy = policy;
    let explained = explain_all(alloc, &mut policy);
    drop(policy);
    explained
}

/// Takes the programs of a policy out, and explains them.
fn explain_all(alloc: Global, policy: &mut PolicyText) -> Result<ExplainedPolicy, Refusal>
    ensures verdicts { IfOk result (λ explained. HasVerdicts policy.old explained.verdicts) }
    ensures programs { IfOk result ArePrograms }
    ensures memory { IfErr result (λ refusal. refusal ≡ NoMemory) }
{
    let line = room_for_line(alloc)?;
    let mut programs = Vec::new(alloc);
    let verdicts = explain_programs(alloc, policy, &mut programs)?;
    Ok(ExplainedPolicy {
        verdicts,
        programs,
        line,
    })
}

/// Explains the programs one after another, and answers the verdicts on them.
fn explain_programs(
    alloc: Global,
    policy: &mut PolicyText,
    programs: &mut Vec<Explained>,
) -> Result<Verdicts, Refusal>
    ensures verdicts { IfOk result (HasVerdicts policy.old) }
    ensures programs { IfOk result (λ verdicts. map first_line programs.new.items
        ≡ map first_line programs.old.items ++ first_lines verdicts) }
    ensures memory { IfErr result (λ refusal. refusal ≡ NoMemory) }
{
    let mut verdicts = PerCallback::none();
    for callback in CALLBACKS {
        let verdict = explain_callback(alloc, policy, callback, programs)?;
        verdicts.set(callback, verdict);
    }
    Ok(verdicts)
}

/// Takes the program of a callback out, if there is one, and explains it. The answer is the verdict on it.
fn explain_callback(
    alloc: Global,
    policy: &mut PolicyText,
    callback: Callback,
    programs: &mut Vec<Explained>,
) -> Result<Option<Verdict>, Refusal>
    ensures verdict { IfOk result
        (IsVerdictOf (context_of policy.old callback) (program_of policy.old callback)) }
    ensures programs { IfOk result (λ verdict. map first_line programs.new.items
        ≡ map first_line programs.old.items ++ line_on callback verdict) }
    ensures memory { IfErr result (λ refusal. refusal ≡ NoMemory) }
    ensures rest { policy.new ≡ without policy.old callback }
{
    match explain_taken(alloc, policy, callback)? {
        Some(explained) => {
            let verdict = explained.verdict;
            keep(programs, explained)?;
            Ok(Some(verdict))
        }
        None => Ok(None),
    }
}

/// Takes the program of a callback out, if there is one, and explains it.
///
/// # Errors
///
/// Memory ran out.
pub(crate) fn explain_taken(
    alloc: Global,
    policy: &mut PolicyText,
    callback: Callback,
) -> Result<Option<Explained>, Refusal>
    ensures taken { IfOk result (IsTaken policy.old callback) }
    ensures memory { IfErr result (λ refusal. refusal ≡ NoMemory) }
    ensures rest { policy.new ≡ without policy.old callback }
{
    match policy.take(callback) {
        Some(program) => {
            let defs = *policy.defs();
            let explained = explain_program(alloc, program, callback, policy.rules(), &defs)?;
            Ok(Some(explained))
        }
        None => Ok(None),
    }
}

fn keep(programs: &mut Vec<Explained>, explained: Explained) -> Result<(), AllocError>
    ensures { OnOk result (map first_line programs.new.items
        ≡ map first_line programs.old.items ++ first_line explained ∷ []) }
{
    Ok(programs.push(explained)?)
}

/// Explains a program.
fn explain_program(
    alloc: Global,
    program: Program,
    callback: Callback,
    rules: Rules,
    defs: &MapDefs,
) -> Result<Explained, Refusal>
    ensures verdict { IfOk result (λ explained.
        IsVerdict (by_rules rules (context callback defs.now)) program explained.verdict) }
    ensures listing { IfOk result (λ explained.
        IsListing (by_rules rules (context callback defs.now)) program explained.listing) }
    ensures explanation { IfOk result IsExplained }
    ensures so { IfOk result IsSo }
    ensures traced { IfOk result IsTraced }
    ensures jumps { IfOk result HasJumps }
    ensures memory { IfErr result (λ refusal. refusal ≡ NoMemory) }
{
    let listed = Context::new(callback, *defs).by_rules(rules);
    let listing = Listing::new(alloc, &program, listed)?;
    let judged = Context::new(callback, *defs).by_rules(rules);
    let verdict = judge_by(alloc, program, judged)?;
    explain_verdict(alloc, listing, verdict)
}

/// Explains the verdict on a program that is listed.
fn explain_verdict(alloc: Global, listing: Listing, verdict: Verdict) -> Result<Explained, Refusal>
    ensures verdict { IfOk result (λ explained. explained.verdict ≡ verdict) }
    ensures listing { IfOk result (λ explained. explained.listing ≡ listing) }
    ensures explanation { IfOk result IsExplained }
    ensures so { IfOk result IsSo }
    ensures traced { IfOk result IsTraced }
    ensures jumps { IfOk result HasJumps }
    ensures memory { IfErr result (λ refusal. refusal ≡ NoMemory) }
{
    let jumps = Jumps::new(alloc, &listing)?;
    let explanation = match verdict {
        Verdict::Accepted(_) => None,
        Verdict::Refused(fault, slot) => explanation_of(alloc, &listing, fault, slot)?,
    };
    Ok(Explained {
        verdict,
        listing,
        jumps,
        explanation,
    })
}
