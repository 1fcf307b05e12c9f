use scx_sched::Eject;
use scxsim_commands::{Fault, Refusal, Verdicts};
use scxsim_remarks::{
    NamedText, hint_on_callback, hint_on_moment, hint_on_task, remark_on_fault, remark_on_file,
    remark_on_run, remarks_on_callbacks,
};
use scxsim_words::Account;
use std::alloc::Global;

/// A file's text, if it is one.
pub(crate) fn named<'a>(path: &'a str, bytes: &'a [u8]) -> Option<NamedText<'a>> {
    let text = str::from_utf8(bytes).ok()?;
    Some(NamedText { path, text })
}

/// Where the files of a run are wrong, if they were refused, or where the fault or exit came for which the policy
/// was ejected.
pub(crate) fn remark_of_run(
    alloc: Global,
    outcome: &Result<bool, Fault>,
    ejected: Option<Eject>,
    policy: Option<NamedText<'_>>,
    workload: Option<NamedText<'_>>,
) -> Option<String> {
    match (outcome, ejected) {
        (Err(Fault::Refused(refusal)), _) => remark_on_run(alloc, refusal, policy?, workload?),
        (Ok(_), Some(Eject::Fault(_, clock) | Eject::Exit(_, clock))) => {
            remark_on_fault(alloc, policy?, workload?, clock)
        }
        _ => None,
    }
}

/// A hint at a word of an account of a run that was refused: the name of a task, or a millisecond.
pub(crate) fn hint_of_subject(
    alloc: Global,
    outcome: &Result<bool, Fault>,
    account: Account,
    policy: Option<NamedText<'_>>,
    workload: Option<NamedText<'_>>,
    subject: &str,
) -> Option<String> {
    match (outcome, account) {
        (Err(Fault::Refused(Refusal::NoSuchTask)), _) => {
            hint_on_task(alloc, policy?, workload?, subject)
        }
        (Ok(false), Account::Step) => hint_on_moment(alloc, policy?, workload?),
        _ => None,
    }
}

/// The place where a policy's file is wrong, if it was refused, or a hint at the name of a callback that it hasn't.
pub(crate) fn remark_of_callback(
    alloc: Global,
    outcome: &Result<bool, Fault>,
    policy: Option<NamedText<'_>>,
    callback: &str,
) -> Option<String> {
    match outcome {
        Err(Fault::Refused(refusal)) => remark_on_file(alloc, refusal, policy?),
        Ok(false) => hint_on_callback(alloc, policy?, callback),
        _ => None,
    }
}

/// The place where a policy's file is wrong, if it was refused, or one of its callbacks by these verdicts.
pub(crate) fn remark_of_policy(
    alloc: Global,
    outcome: &Result<bool, Fault>,
    verdicts: &Verdicts,
    policy: Option<NamedText<'_>>,
) -> Option<String> {
    match outcome {
        Err(Fault::Refused(refusal)) => remark_on_file(alloc, refusal, policy?),
        Ok(false) => remarks_on_callbacks(alloc, policy?, verdicts),
        _ => None,
    }
}

/// Where a text for the assembler is wrong, if it was refused.
pub(crate) fn remark_of_program(
    alloc: Global,
    outcome: &Result<bool, Fault>,
    program: Option<NamedText<'_>>,
) -> Option<String> {
    match outcome {
        Err(Fault::Refused(refusal)) => remark_on_file(alloc, refusal, program?),
        _ => None,
    }
}
