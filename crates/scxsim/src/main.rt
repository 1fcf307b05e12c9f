//! The program `scxsim`, which verifies policies and runs workloads under them, and runs, assembles and
//! disassembles BPF programs. Its words are read by `scxsim_words`; the commands are
//! in `scxsim_commands`, `scxsim_explain`, `scxsim_simulation` and those above it. All that it
//! reaches outside is a `Console`, so a command can be run whole in memory, as those of files of cases are.
//!
//! A policy is verified, in `crates/scxsim/data/verdicts.txt`:
//!
//! ```text
//! [slots]
//! dispatch = 'b701000000000000 85000000ec030000 9500000000000000'
//! -- scxsim verify policy.toml --
//! init ok 3
//! enqueue ok 5
//! dispatch ok 3
//! ```
#![tactic(auto)]

mod accounts;
mod cases;
mod console;
mod ending;
mod files;
mod process;
mod remarks;
mod requests;
mod searches;
mod usage;

use crate::ending::{end_without_memory, say};
use crate::process::{run, words_of};
pub use scxsim_charts::gantt;
use scxsim_commands::FAILED;
pub use scxsim_commands::{
    Counted, Failed, Fault, Out, Refusal, asm, check, dis, exec, finish, text,
};
pub use scxsim_explain::{check_json, explain, explain_one};
pub use scxsim_explore::explore;
use scxsim_output::Blocks;
pub use scxsim_page::view;
pub use scxsim_pictures::{picture, timeline};
pub use scxsim_runs::Listener;
pub use scxsim_simulation::{maps_at_end, replay, report, simulate};
pub use scxsim_steps::step;
pub use scxsim_story::story;
pub use scxsim_tables::{check_run, replay_csv, stats, stats_csv};
pub use scxsim_why::{Length, why, why_json};
use std::io;
use std::io::BufWriter;
use std::process::ExitCode;
use std::rt::Env;

/// The bytes that standard output is handed at once, but for the last ones.
const BLOCK: usize = 65_536;

/// The block of a search, which may be ended long after it has found something.
const SEARCH_BLOCK: usize = 1;

fn main(rt: HostRuntime) -> ExitCode {
    let block = if is_search(&rt) { SEARCH_BLOCK } else { BLOCK };
    match BufWriter::with_capacity(rt.alloc(), block, io::writer(&rt)) {
        Ok(writer) => {
            let mut out = Blocks::new(Counted::new(writer));
            let ending = run(&rt, &mut out);
            let flushed = out.flush();
            say(&rt, &ending.said);
            ExitCode::from(if flushed.is_ok() {
                ending.status
            } else {
                FAILED
            })
        }
        Err(_) => ExitCode::from(end_without_memory(&mut Counted::new(io::writer(&rt)))),
    }
}

/// True if the process's words ask for a search.
fn is_search<R: AllocGlobal + Env>(rt: &R) -> bool {
    match words_of(rt) {
        Ok(words) => match words.get(1) {
            Some(word) => word.as_str() == "explore" || word.as_str() == "explore-few",
            None => false,
        },
        Err(_) => false,
    }
}
