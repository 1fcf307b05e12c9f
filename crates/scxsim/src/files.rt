use crate::console::Console;
use scxsim_commands::{Hint, STANDARD_INPUT, hint_of_tables};
use std::io::ErrorKind;

/// The bytes of the files of a run.
#[derive(Drop)]
pub(crate) struct RunFiles {
    pub(crate) policy: Vec<u8>,
    pub(crate) workload: Vec<u8>,
}

/// Why there are no bytes of a file.
#[derive(Drop)]
pub(crate) enum Unread<'a> {
    NoMemory,
    /// The file at a path can't be read.
    At(&'a str, ErrorKind),
    /// Both files of a run are to be standard input.
    Both,
}

/// The bytes of both files of a run, of which the policy is read first.
pub(crate) fn files_of<'a, R: Console>(
    rt: &R,
    policy: &'a str,
    workload: &'a str,
) -> Result<RunFiles, Unread<'a>> {
    if policy == STANDARD_INPUT && workload == STANDARD_INPUT {
        return Err(Unread::Both);
    }
    let policy = bytes_of(rt, policy)?;
    let workload = bytes_of(rt, workload)?;
    Ok(RunFiles { policy, workload })
}

/// A hint at what a person may have meant by a refused one of these files.
pub(crate) fn hint_of_files(files: &RunFiles) -> Option<Hint> {
    match hint_of_tables(files.policy.as_slice()) {
        Some(hint) => Some(hint),
        None => hint_of_tables(files.workload.as_slice()),
    }
}

/// The bytes of the file at a path.
pub(crate) fn bytes_of<'a, R: Console>(rt: &R, path: &'a str) -> Result<Vec<u8>, Unread<'a>> {
    match rt.read(path) {
        Ok(bytes) => Ok(bytes),
        Err(error) if error.kind() == ErrorKind::OutOfMemory => Err(Unread::NoMemory),
        Err(error) => Err(Unread::At(path, error.kind())),
    }
}
