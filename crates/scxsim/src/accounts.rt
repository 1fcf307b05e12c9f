use crate::console::Console;
use crate::ending::{Ending, end, end_unread};
use crate::files::{RunFiles, files_of, hint_of_files};
use crate::remarks::{hint_of_subject, named, remark_of_run};
use scx_sched::Eject;
use scxsim_charts::{Sheet, Span, WIDTH, gantt, title};
use scxsim_commands::{Fault, Hint, Out, Refusal, hint_of_refusal, text};
use scxsim_page::{Paths, view};
use scxsim_pictures::{picture, timeline};
use scxsim_remarks::Progress;
use scxsim_runs::Listener;
use scxsim_simulation::{maps_at_end, replay, report, simulate};
use scxsim_steps::step;
use scxsim_story::story;
use scxsim_tables::{check_run, replay_csv, stats, stats_csv};
use scxsim_why::{Length, why, why_json};
use scxsim_words::{Account, Part};
use std::alloc::Global;

/// The words of a run: the paths of its files, of which the second is a workload or a file of events, and the
/// words of a part, of a task or of a millisecond of it.
#[derive(Clone, Copy)]
pub(crate) struct RunWords<'a> {
    pub(crate) policy: &'a str,
    pub(crate) workload: &'a str,
    pub(crate) part: Option<Part<'a>>,
    pub(crate) subject: Option<&'a str>,
}

/// Writes an account of the run of these files, and says meanwhile on standard error how far it is.
pub(crate) fn tell<R: AllocGlobal + Console, W: Out>(
    rt: &R,
    account: Account,
    words: RunWords<'_>,
    out: &mut W,
) -> Ending {
    let files = match files_of(rt, words.policy, words.workload) {
        Ok(files) => files,
        Err(unread) => return end_unread(rt.alloc(), unread, out),
    };
    let mut progress = Progress::new(rt, is_progress_seen(rt, account));
    let columns = rt.columns().unwrap_or(WIDTH);
    let outcome = write_account(
        rt.alloc(),
        account,
        &files,
        words,
        columns,
        &mut progress,
        out,
    );
    let ejected = if is_ejection_told(account) {
        progress.ejected()
    } else {
        None
    };
    progress.end();
    let remark = remark_of_account(rt.alloc(), account, words, &files, &outcome, ejected);
    let hint = hint_of_outcome(&outcome, &files);
    end(outcome, hint, remark, out)
}

/// A hint at a word that was refused, or a remark on the files.
fn remark_of_account(
    alloc: Global,
    account: Account,
    words: RunWords<'_>,
    files: &RunFiles,
    outcome: &Result<bool, Fault>,
    ejected: Option<Eject>,
) -> Option<String> {
    let policy = named(words.policy, &files.policy);
    let workload = named(words.workload, &files.workload);
    let subject = words.subject.unwrap_or("");
    match hint_of_subject(alloc, outcome, account, policy, workload, subject) {
        Some(hint) => Some(hint),
        None => remark_of_run(alloc, outcome, ejected, policy, workload),
    }
}

/// A hint at what may help, where the run was refused.
pub(crate) fn hint_of_outcome(outcome: &Result<bool, Fault>, files: &RunFiles) -> Option<Hint> {
    match outcome {
        Err(Fault::Refused(refusal)) => match hint_of_refusal(refusal) {
            Some(hint) => Some(hint),
            None => hint_of_files(files),
        },
        _ => None,
    }
}

/// True if a line on standard error is seen, and tears nothing. Output that is written as the run goes would be
/// torn by it on the same terminal, and shows the progress itself.
fn is_progress_seen<R: Console>(rt: &R, account: Account) -> bool {
    rt.shows_errors() && !(is_written_meanwhile(account) && rt.shows_output())
}

/// True if the account is written as the run goes, not at its end.
fn is_written_meanwhile(account: Account) -> bool {
    matches!(
        account,
        Account::Trace | Account::Timeline | Account::View | Account::Replay
    )
}

/// True if standard error says where the fault came for which the policy was ejected: if the output names the fault
/// at most.
fn is_ejection_told(account: Account) -> bool {
    matches!(
        account,
        Account::Trace | Account::Report | Account::Check | Account::Maps | Account::Replay
    )
}

/// Writes an account of the run of these files, of which the second is a workload or a file of events. A chart has these
/// columns.
fn write_account<L: Listener, W: Out>(
    alloc: Global,
    account: Account,
    files: &RunFiles,
    words: RunWords<'_>,
    columns: u64,
    listener: &mut L,
    out: &mut W,
) -> Result<bool, Fault> {
    let policy = text(files.policy.as_slice())?;
    let second = text(files.workload.as_slice())?;
    let subject = words.subject.unwrap_or("");
    let span = span_of(words.part);
    match account {
        Account::Trace => simulate(alloc, policy, second, listener, out),
        Account::Timeline => {
            let title = title_of(alloc, words)?;
            timeline(alloc, title.as_str(), policy, second, span, listener, out)
        }
        Account::View => {
            let paths = paths_of(words);
            view(alloc, paths, policy, second, span, listener, out)
        }
        Account::Report => report(alloc, policy, second, listener, out),
        Account::Check => check_run(alloc, policy, second, listener, out),
        Account::Stats => stats(alloc, policy, second, listener, out),
        Account::StatsCsv => stats_csv(alloc, policy, second, listener, out),
        Account::Why => why(alloc, Length::Short, policy, second, listener, out),
        Account::WhyAll => why(alloc, Length::Whole, policy, second, listener, out),
        Account::WhyJson => why_json(alloc, policy, second, listener, out),
        Account::Story => story(alloc, policy, second, subject, listener, out),
        Account::Step => step(alloc, policy, second, subject, listener, out),
        Account::Maps => maps_at_end(alloc, policy, second, listener, out),
        Account::Picture => {
            let title = title_of(alloc, words)?;
            picture(alloc, title.as_str(), policy, second, span, listener, out)
        }
        Account::Gantt => {
            let title = title_of(alloc, words)?;
            let sheet = Sheet {
                title: title.as_str(),
                columns,
            };
            gantt(alloc, sheet, policy, second, span, listener, out)
        }
        Account::Replay => replay(alloc, policy, second, listener, out),
        Account::ReplayCsv => replay_csv(alloc, policy, second, listener, out),
    }
}

fn paths_of<'a>(words: RunWords<'a>) -> Paths<'a> {
    Paths {
        policy: words.policy,
        workload: words.workload,
    }
}

fn title_of(alloc: Global, words: RunWords<'_>) -> Result<String, Refusal> {
    Ok(title(alloc, words.policy, words.workload)?)
}

fn span_of<'a>(part: Option<Part<'a>>) -> Option<Span<'a>> {
    let Part { from, to } = part?;
    Some(Span { from, to })
}
