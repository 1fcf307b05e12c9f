//! Commands on programs and policies: `exec`, `asm`, `dis`, and `check`, which says of each callback of a policy file
//! whether its program is safe. They write to any `Out`.
//!
//! A command comes to what it wrote, or is refused with a cause, or ended by a write that failed. `finish`,
//! which ends each command, writes the line of a refusal, and answers the status of the process. A hint says
//! what to do about a file of another kind, or one that can't be read. `Window` is the part of a run that two words
//! name.
#![tactic(auto)]

mod assembling;
mod checking;
mod disassembling;
mod ejections;
mod excerpt;
mod executing;
mod file;
mod finishing;
mod hints;
mod lines;
mod refusal;
mod refusal_lines;
mod status;
mod texts;
mod unread;
mod verdict;
mod verdict_lines;
mod windows;

pub use assembling::asm;
pub use checking::check;
pub use disassembling::dis;
pub use ejections::Ejection;
pub use excerpt::{push_shown, write_excerpt};
pub use executing::exec;
pub use file::{FILE_LIMIT, read_file};
pub use finishing::finish;
pub use hints::{Hint, hint_of_refusal, hint_of_slots, hint_of_tables, hint_of_text};
pub use lines::{Line, write_unread};
pub use refusal::{Fault, FileKind, MOST_STRETCHES, Refusal, Word};
pub use scxsim_output::{Counted, Failed, Out, write_all};
pub use status::{DONE, FAILED, REFUSED, USAGE};
pub use texts::text;
pub use unread::{STANDARD_INPUT, hint_on_both, hint_on_unread};
pub use verdict::{Verdict, Verdicts, are_accepted, judge, judge_by};
pub use verdict_lines::verdict_line;
pub use windows::{Span, Window};
