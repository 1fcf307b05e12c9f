//! The command `cases`: runs the commands of files of cases, in memory, and compares what each writes with the
//! text after it. docs/CASES.md has the format.

mod commands;
mod marks;
mod parts;
mod stage;
mod texts;

use crate::cases::commands::{Found, find};
use crate::cases::marks::{Command, Form, Mark, mark_of};
use crate::cases::parts::{Part, parts_of};
use crate::cases::stage::{Stage, StagedFile};
use crate::cases::texts::bytes_of;
use crate::console::Console;
use crate::ending::{Ending, Said, end_without_memory, in_silence};
use scxsim_commands::{DONE, FAILED, Out, REFUSED, write_unread};
use std::io;
use std::io::ErrorKind;

/// The number of commands that were run, and of those that came to another thing than the file
/// says.
#[derive(Clone, Copy)]
struct Tally {
    commands: u32,
    differing: u32,
}

/// The cases of a file, up to here.
#[derive(Drop)]
struct Cases<'a, R> {
    rt: &'a R,
    path: &'a str,
    name: &'a str,
    files: Vec<StagedFile<'a>>,
    tally: Tally,
}

/// Runs the commands of files of cases, and says of each that does something else, and of how many there were.
/// The status is 1 where one differs.
pub(crate) fn run_files<R: AllocGlobal + Console + Print, W: Out>(
    rt: &R,
    paths: &[String],
    out: &mut W,
) -> Ending {
    let mut tally = Tally {
        commands: 0,
        differing: 0,
    };
    for path in paths {
        match run_file(rt, path.as_str(), tally) {
            Ok(done) => tally = done,
            Err(error) => return in_silence(unread(path.as_str(), &error, out)),
        }
    }
    let told = println!(rt; "{} commands, {} differ", tally.commands, tally.differing);
    in_silence(match (told, tally.differing) {
        (Ok(()), 0) => DONE,
        (Ok(()), _) => REFUSED,
        (Err(_), _) => FAILED,
    })
}

/// Ends where a file can't be read, and answers the status.
fn unread<W: Out>(path: &str, error: &io::Error, out: &mut W) -> u8 {
    if error.kind() == ErrorKind::OutOfMemory {
        return end_without_memory(out);
    }
    let _ = write_unread(path, out);
    FAILED
}

/// Runs the commands of a file of cases.
fn run_file<R: AllocGlobal + Console + Print>(
    rt: &R,
    path: &str,
    tally: Tally,
) -> io::Result<Tally> {
    let bytes = rt.read(path)?;
    match str::from_utf8(bytes.as_slice()) {
        Ok(text) => run_cases(rt, path, text, tally),
        Err(_) => Err(io::Error::from(ErrorKind::InvalidData)),
    }
}

fn run_cases<R: AllocGlobal + Print>(
    rt: &R,
    path: &str,
    text: &str,
    tally: Tally,
) -> io::Result<Tally> {
    let parts = parts_of(rt.alloc(), text)?;
    run_parts(rt, path, parts.as_slice(), tally)
}

fn run_parts<R: AllocGlobal + Print>(
    rt: &R,
    path: &str,
    parts: &[Part<'_>],
    tally: Tally,
) -> io::Result<Tally> {
    let mut cases = Cases {
        rt,
        path,
        name: "",
        files: Vec::new(rt.alloc()),
        tally,
    };
    let taken = cases.take_all(parts);
    let tally = cases.tally;
    drop(cases);
    taken?;
    Ok(tally)
}

/// The text that the next part gives for standard error.
fn said_behind<'a>(parts: &[Part<'a>], place: usize) -> Option<&'a str> {
    let next = parts.get(place.saturating_add(1))?;
    match mark_of(next.mark)? {
        Mark::Said => next.text,
        _ => None,
    }
}

impl<'a, R: AllocGlobal + Print> Cases<'a, R> {
    fn take_all(&mut self, parts: &[Part<'a>]) -> io::Result<()> {
        for (place, &part) in parts.iter().enumerate() {
            self.take(part, said_behind(parts, place))?;
        }
        Ok(())
    }

    fn take(&mut self, part: Part<'a>, said: Option<&str>) -> io::Result<()> {
        match mark_of(part.mark) {
            Some(Mark::Case(name)) => {
                self.name = name;
                Ok(())
            }
            Some(Mark::File(name, form)) => self.keep(name, form, part),
            Some(Mark::Command(command)) => self.run(&command, part, said),
            Some(Mark::Said) => Ok(()),
            None => self.tell(part, "can't be read"),
        }
    }

    /// Keeps a file for the commands after it.
    fn keep(&mut self, name: &'a str, form: Form<'a>, part: Part<'a>) -> io::Result<()> {
        match bytes_of(self.rt.alloc(), part.text, form)? {
            Some(bytes) => Ok(self.files.push(StagedFile { name, bytes })?),
            None => self.tell(part, "can't be read"),
        }
    }

    /// Runs a command, and compares what it does.
    fn run(&mut self, command: &Command<'a>, part: Part<'a>, said: Option<&str>) -> io::Result<()> {
        self.tally.commands = self.tally.commands.saturating_add(1);
        let stage = Stage {
            alloc: self.rt.alloc(),
            files: self.files.as_slice(),
        };
        let found = find(&stage, command.words)?;
        match command.target {
            Some(name) if found.ending.status == command.status => {
                self.keep_output(name, found.written)
            }
            _ => self.compare(command, part, said, &found),
        }
    }

    fn keep_output(&mut self, name: &'a str, bytes: Vec<u8>) -> io::Result<()> {
        Ok(self.files.push(StagedFile { name, bytes })?)
    }

    fn compare(
        &mut self,
        command: &Command<'a>,
        part: Part<'a>,
        said: Option<&str>,
        found: &Found,
    ) -> io::Result<()> {
        match bytes_of(self.rt.alloc(), part.text, command.form)? {
            Some(wanted) if found.is_wanted(command, wanted.as_slice(), said) => Ok(()),
            _ => self.tell_found(part, found),
        }
    }

    fn tell_found(&mut self, part: Part<'a>, found: &Found) -> io::Result<()> {
        self.tell(part, "differs")?;
        println!(self.rt; "status {}", found.ending.status)?;
        match &found.ending.said {
            Said::Nothing => {}
            Said::Hint(hint) => println!(self.rt; "hint: {}", hint.advice())?,
            Said::Remark(remark) => print!(self.rt; "{remark}")?,
        }
        match str::from_utf8(found.written.as_slice()) {
            Ok(text) => print!(self.rt; "{text}"),
            Err(_) => println!(self.rt; "{} bytes that are no text", found.written.len()),
        }
    }

    /// Says what is wrong with a part, and counts it.
    fn tell(&mut self, part: Part<'a>, what: &str) -> io::Result<()> {
        self.tally.differing = self.tally.differing.saturating_add(1);
        println!(self.rt;
            "{}:{}: {}: {what}: {}",
            self.path, part.line, self.name, part.mark
        )
    }
}
