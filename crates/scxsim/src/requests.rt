use crate::accounts::{RunWords, tell};
use crate::console::Console;
use crate::ending::{Ending, end, end_unread, in_silence};
use crate::files::bytes_of;
use crate::remarks::{named, remark_of_callback, remark_of_policy, remark_of_program};
use crate::searches::{SearchWords, search};
use crate::usage::write_usage;
use scxsim_commands::{
    Fault, Out, Verdicts, asm, check, dis, exec, hint_of_slots, hint_of_tables, hint_of_text,
};
use scxsim_explain::{check_json, explain, explain_one};
use scxsim_explore::Lists;
use scxsim_words::{PolicyCommand, ProgramCommand, Request};
use std::alloc::Global;

/// Runs a command on its files.
pub(crate) fn run_request<R: AllocGlobal + Console, W: Out>(
    rt: &R,
    request: Request<'_>,
    out: &mut W,
) -> Ending {
    match request {
        Request::Program { command, path } => work_on_program(rt, command, path, out),
        Request::Policy {
            command,
            path,
            callback,
        } => {
            let words = PolicyWords {
                path,
                callback: callback.unwrap_or(""),
            };
            work_on_policy(rt, command, words, out)
        }
        Request::Run {
            account,
            policy,
            workload,
            part,
            subject,
        } => {
            let words = RunWords {
                policy,
                workload,
                part,
                subject,
            };
            tell(rt, account, words, out)
        }
        Request::Explore {
            policy,
            workload,
            mode,
            depth,
            few,
        } => {
            let words = SearchWords {
                policy,
                workload,
                lists: Lists { mode, depth, few },
            };
            search(rt, words, out)
        }
        Request::Cases => in_silence(write_usage(
            "error: a file of cases can't run files of cases\n",
            out,
        )),
    }
}

fn work_on_program<R: AllocGlobal + Console, W: Out>(
    rt: &R,
    command: ProgramCommand,
    path: &str,
    out: &mut W,
) -> Ending {
    let bytes = match bytes_of(rt, path) {
        Ok(bytes) => bytes,
        Err(unread) => return end_unread(rt.alloc(), unread, out),
    };
    let outcome = do_program(rt.alloc(), command, bytes.as_slice(), out);
    let hint = match command {
        ProgramCommand::Exec | ProgramCommand::Dis => hint_of_slots(bytes.as_slice()),
        ProgramCommand::Asm => hint_of_text(bytes.as_slice()),
    };
    let remark = remark_of_program(rt.alloc(), &outcome, named(path, bytes.as_slice()));
    end(outcome, hint, remark, out)
}

fn do_program<W: Out>(
    alloc: Global,
    command: ProgramCommand,
    bytes: &[u8],
    out: &mut W,
) -> Result<bool, Fault> {
    match command {
        ProgramCommand::Exec => exec(alloc, bytes, out),
        ProgramCommand::Asm => asm(alloc, bytes, out),
        ProgramCommand::Dis => dis(alloc, bytes, out),
    }
}

/// The words of a command on a policy: the path of its file, and the name of a callback, empty without one.
#[derive(Clone, Copy)]
struct PolicyWords<'a> {
    path: &'a str,
    callback: &'a str,
}

fn work_on_policy<R: AllocGlobal + Console, W: Out>(
    rt: &R,
    command: PolicyCommand,
    words: PolicyWords<'_>,
    out: &mut W,
) -> Ending {
    let bytes = match bytes_of(rt, words.path) {
        Ok(bytes) => bytes,
        Err(unread) => return end_unread(rt.alloc(), unread, out),
    };
    let mut verdicts = Verdicts::none();
    let outcome = do_policy(
        rt.alloc(),
        command,
        bytes.as_slice(),
        words.callback,
        &mut verdicts,
        out,
    );
    let policy = named(words.path, bytes.as_slice());
    let remark = match command {
        PolicyCommand::Verify | PolicyCommand::VerifyJson | PolicyCommand::Explain => {
            remark_of_policy(rt.alloc(), &outcome, &verdicts, policy)
        }
        PolicyCommand::ExplainOne => {
            remark_of_callback(rt.alloc(), &outcome, policy, words.callback)
        }
    };
    end(outcome, hint_of_tables(bytes.as_slice()), remark, out)
}

/// Leaves the verdicts of `verify` and `verify-json`. What `explain` writes shows the places itself.
fn do_policy<W: Out>(
    alloc: Global,
    command: PolicyCommand,
    bytes: &[u8],
    callback: &str,
    verdicts: &mut Verdicts,
    out: &mut W,
) -> Result<bool, Fault> {
    match command {
        PolicyCommand::Verify => check(alloc, bytes, verdicts, out),
        PolicyCommand::VerifyJson => check_json(alloc, bytes, verdicts, out),
        PolicyCommand::Explain => explain(alloc, bytes, out),
        PolicyCommand::ExplainOne => explain_one(alloc, bytes, callback, out),
    }
}
