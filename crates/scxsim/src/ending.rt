use crate::files::Unread;
use scxsim_commands::{
    FAILED, Fault, Hint, Out, Refusal, STANDARD_INPUT, finish, hint_on_both, hint_on_unread,
    write_unread,
};
use std::alloc::Global;

/// The end of the program: its status, and the message on a refused file.
#[derive(Drop)]
pub struct Ending {
    pub status: u8,
    pub said: Said,
}

/// The message on a refused file, on standard error.
#[derive(Drop)]
pub enum Said {
    Nothing,
    /// A hint at its nature.
    Hint(Hint),
    /// Where it is wrong, as compilers write it, in whole lines.
    Remark(String),
}

/// Finishes a command. The hint is for a file that was refused, and goes before a remark.
pub(crate) fn end<W: Out>(
    outcome: Result<bool, Fault>,
    hint: Option<Hint>,
    remark: Option<String>,
    out: &mut W,
) -> Ending {
    let hint = if is_refused(&outcome) { hint } else { None };
    let status = finish(outcome, out);
    Ending {
        status,
        said: said_of(hint, remark),
    }
}

fn is_refused(outcome: &Result<bool, Fault>) -> bool {
    matches!(outcome, Err(Fault::Refused(_)))
}

fn said_of(hint: Option<Hint>, remark: Option<String>) -> Said {
    match (hint, remark) {
        (Some(hint), _) => Said::Hint(hint),
        (None, Some(remark)) => Said::Remark(remark),
        (None, None) => Said::Nothing,
    }
}

pub(crate) fn in_silence(status: u8) -> Ending {
    Ending {
        status,
        said: Said::Nothing,
    }
}

/// Ends a command for which there is no memory, and answers the status.
pub fn end_without_memory<W: Out>(out: &mut W) -> u8 {
    finish(Err(Fault::Refused(Refusal::NoMemory)), out)
}

/// Ends a command that has a file which isn't read, with a hint at the reason.
pub(crate) fn end_unread<W: Out>(alloc: Global, unread: Unread<'_>, out: &mut W) -> Ending {
    match unread {
        Unread::NoMemory => in_silence(end_without_memory(out)),
        Unread::At(path, kind) => {
            let _ = write_unread(path, out);
            Ending {
                status: FAILED,
                said: said_of(None, hint_on_unread(alloc, path, kind)),
            }
        }
        Unread::Both => {
            let _ = write_unread(STANDARD_INPUT, out);
            Ending {
                status: FAILED,
                said: said_of(None, hint_on_both(alloc)),
            }
        }
    }
}

/// Says it on standard error. Whether that can be written doesn't matter.
pub fn say<R: Eprint>(rt: &R, said: &Said) {
    let _ = match said {
        Said::Nothing => Ok(()),
        Said::Hint(hint) => eprintln!(rt; "hint: {}", hint.advice()),
        Said::Remark(remark) => eprint!(rt; "{remark}"),
    };
}
