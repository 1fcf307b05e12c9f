use crate::cases::run_files;
use crate::console::Console;
use crate::ending::{Ending, end_without_memory, in_silence};
use crate::requests::run_request;
use crate::usage::{explain_usage, write_usage};
use scxsim_commands::{Out, USAGE};
use scxsim_words::{Request, read_words};
use std::convert::AsStr;
use std::io::ErrorKind;
use std::rt::Env;
use std::{env, io};

/// The words before the files of `cases`: the program's name and the command's.
const WORDS_BEFORE_FILES: usize = 2;

/// Runs the command that the process's arguments name.
pub(crate) fn run<R: AllocGlobal + Env + Console + Print, W: Out>(rt: &R, out: &mut W) -> Ending {
    match words_of(rt) {
        Ok(words) => match read_words(rt.alloc(), words.as_slice()) {
            Ok(Some(Request::Cases)) => run_cases(rt, words.as_slice(), out),
            Ok(Some(request)) => run_request(rt, request, out),
            Ok(None) => in_silence(USAGE),
            Err(error) => in_silence(explain_usage(rt.alloc(), &error, out)),
        },
        Err(error) if error.kind() == ErrorKind::OutOfMemory => {
            in_silence(end_without_memory(out))
        }
        Err(_) => in_silence(write_usage("error: a word is not UTF-8\n", out)),
    }
}

pub(crate) fn words_of<R: AllocGlobal + Env>(rt: &R) -> io::Result<Vec<String>> {
    Ok(env::args(rt)?.collect(rt.alloc())?)
}

/// Runs the files of cases that the process's words name.
fn run_cases<R: AllocGlobal + Console + Print, W: Out>(
    rt: &R,
    words: &[String],
    out: &mut W,
) -> Ending {
    match words.get(WORDS_BEFORE_FILES..) {
        Some(files) => run_files(rt, files, out),
        None => in_silence(USAGE),
    }
}

/// Runs a command of a file of cases. The first of its words names the program.
pub(crate) fn run_words<R: AllocGlobal + Console, S: AsStr, W: Out>(
    rt: &R,
    words: &[S],
    out: &mut W,
) -> Ending {
    match read_words(rt.alloc(), words) {
        Ok(Some(request)) => run_request(rt, request, out),
        Ok(None) => in_silence(USAGE),
        Err(error) => in_silence(explain_usage(rt.alloc(), &error, out)),
    }
}
