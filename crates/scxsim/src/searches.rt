use crate::accounts::hint_of_outcome;
use crate::console::Console;
use crate::ending::{Ending, end, end_unread};
use crate::files::{RunFiles, files_of};
use crate::remarks::{named, remark_of_run};
use scxsim_commands::{Fault, Out, text};
use scxsim_explore::{Lists, Watcher, explore};
use scxsim_remarks::{SearchProgress, hint_on_limits, hint_on_lists};
use std::alloc::Global;

/// The arguments of a search: the paths of its files, and the lists of events that it tries.
#[derive(Clone, Copy)]
pub(crate) struct SearchWords<'a> {
    pub(crate) policy: &'a str,
    pub(crate) workload: &'a str,
    pub(crate) lists: Lists<'a>,
}

/// Writes what is found in lists of events under the policy of these files, and says meanwhile on standard error how
/// far it is. What is found is written when nothing is said.
pub(crate) fn search<R: AllocGlobal + Console, W: Out>(
    rt: &R,
    words: SearchWords<'_>,
    out: &mut W,
) -> Ending {
    let files = match files_of(rt, words.policy, words.workload) {
        Ok(files) => files,
        Err(unread) => return end_unread(rt.alloc(), unread, out),
    };
    let mut progress = SearchProgress::new(rt, rt.shows_errors());
    let outcome = write_search(rt.alloc(), &files, words.lists, &mut progress, out);
    progress.pause();
    let remark = remark_of_search(rt.alloc(), &outcome, &files, words);
    let hint = hint_of_outcome(&outcome, &files);
    end(outcome, hint, remark, out)
}

/// A hint at a word or a size that was refused, or a remark on the files.
fn remark_of_search(
    alloc: Global,
    outcome: &Result<bool, Fault>,
    files: &RunFiles,
    words: SearchWords<'_>,
) -> Option<String> {
    let policy = named(words.policy, &files.policy);
    let workload = named(words.workload, &files.workload);
    match outcome {
        Ok(false) => match hint_on_lists(alloc, words.lists) {
            Some(hint) => Some(hint),
            None => hint_on_limits(alloc, policy?, workload?),
        },
        _ => remark_of_run(alloc, outcome, None, policy, workload),
    }
}

fn write_search<V: Watcher, W: Out>(
    alloc: Global,
    files: &RunFiles,
    lists: Lists<'_>,
    watcher: &mut V,
    out: &mut W,
) -> Result<bool, Fault> {
    let policy = text(files.policy.as_slice())?;
    let workload = text(files.workload.as_slice())?;
    explore(alloc, policy, workload, lists, watcher, out)
}
