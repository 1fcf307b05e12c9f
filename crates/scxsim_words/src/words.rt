use crate::forms::{Argument, Form, Kind, forms};
use crate::requests::{Account, Part, Request};
use clap::{Arg, ArgMatches, Command, Error};
use std::alloc::{AllocError, Global};
use std::convert::AsStr;

/// The version. It is written here alone: scripts ask the program for it.
const VERSION: &str = "0.27.0";

/// The request of a command line. `clap` refuses words that name no command and its files, so there is a
/// request wherever it accepts them.
///
/// # Errors
///
/// The words are no command with its arguments, or ask for help or for the version, or memory ran out.
pub fn read_words<'a, S: AsStr>(
    alloc: Global,
    words: &'a [S],
) -> Result<Option<Request<'a>>, Error> {
    if let Some(form) = named_in(words) {
        let alone = with_command(alloc, program(alloc), form)?;
        if let Ok(matches) = alone.try_get_matches_from(words) {
            return Ok(request_in(&matches));
        }
    }
    let matches = scxsim(alloc)?.try_get_matches_from(words)?;
    Ok(request_in(&matches))
}

/// The command that the word after the program's names. A program of this command alone accepts what the program
/// of all accepts, and takes less to make; what is refused is read again by that of all, whose messages name others.
fn named_in<S: AsStr>(words: &[S]) -> Option<&'static Form> {
    form_named(words.get(1)?.as_str())
}

/// The request of words that were accepted.
fn request_in<'a>(matches: &ArgMatches<'a>) -> Option<Request<'a>> {
    let (name, command) = matches.subcommand()?;
    request_of(name, command)
}

/// The command of this name, with the files that its arguments name.
fn request_of<'a>(name: &str, command: &ArgMatches<'a>) -> Option<Request<'a>> {
    match form_named(name)?.kind {
        Kind::Program(of) => Some(Request::Program {
            command: of,
            path: text_of(command, Argument::Slots)?,
        }),
        Kind::Policy(of) | Kind::Callback(of) => Some(Request::Policy {
            command: of,
            path: text_of(command, Argument::Policy)?,
            callback: text_of(command, Argument::Callback),
        }),
        Kind::Workload(account) => run_of(account, command, Argument::Workload),
        Kind::Run(account) | Kind::Part(account) | Kind::Task(account) | Kind::Moment(account) =>
            run_of(account, command, Argument::Scenario),
        Kind::Replay(account) => run_of(account, command, Argument::Events),
        Kind::Explore | Kind::ExploreFew => explore_of(command),
        Kind::Cases => Some(Request::Cases),
    }
}

/// A command of a run, with its second file.
fn run_of<'a>(account: Account, command: &ArgMatches<'a>, second: Argument) -> Option<Request<'a>> {
    Some(Request::Run {
        account,
        policy: text_of(command, Argument::Policy)?,
        workload: text_of(command, second)?,
        part: part_of(command),
        subject: text_of(command, Argument::Task).or(text_of(command, Argument::Moment)),
    })
}

/// A search through sequences of events.
fn explore_of<'a>(command: &ArgMatches<'a>) -> Option<Request<'a>> {
    Some(Request::Explore {
        policy: text_of(command, Argument::Policy)?,
        workload: text_of(command, Argument::SmallWorkload)?,
        mode: text_of(command, Argument::Mode)?,
        depth: text_of(command, Argument::Depth)?,
        few: text_of(command, Argument::Few),
    })
}

/// The bounds of a part of a run, if the command takes them.
fn part_of<'a>(command: &ArgMatches<'a>) -> Option<Part<'a>> {
    Some(Part {
        from: text_of(command, Argument::From)?,
        to: text_of(command, Argument::To)?,
    })
}

/// The value of an argument, if the command takes it.
fn text_of<'a>(command: &ArgMatches<'a>, argument: Argument) -> Option<&'a str> {
    command.get_str(argument.name())
}

fn form_named(name: &str) -> Option<&'static Form> {
    forms().iter().find(|form| form.name == name)
}

/// The program with its commands and their arguments.
fn scxsim<'a>(alloc: Global) -> Result<Command<'a>, AllocError> {
    let mut all = program(alloc);
    for form in forms() {
        all = with_command(alloc, all, form)?;
    }
    Ok(all)
}

/// The program without its commands.
fn program<'a>(alloc: Global) -> Command<'a> {
    Command::new(alloc, "scxsim")
        .about(
            "Verify CPU scheduling policies in BPF, and run workloads under them on simulated CPUs",
        )
        .version(VERSION)
        .after_help(
            "scxsim help COMMAND explains the arguments and the output of a command, with an example.\nIf a file is refused, one line on standard output says why, and the status is 1;\ndocs/REFUSALS.md explains each refusal.",
        )
        .subcommand_required(true)
        .arg_required_else_help(true)
}

/// The program with one command more.
fn with_command<'a>(
    alloc: Global,
    program: Command<'a>,
    form: &Form,
) -> Result<Command<'a>, AllocError> {
    match command_of(alloc, form) {
        Ok(command) => program.subcommand(command),
        Err(error) => {
            drop(program);
            Err(error)
        }
    }
}

/// A command with its arguments.
fn command_of<'a>(alloc: Global, form: &Form) -> Result<Command<'a>, AllocError> {
    let mut command = Command::new(alloc, form.name)
        .about(form.about)
        .after_help(form.example);
    for argument in form.kind.arguments() {
        command = with_argument(
            alloc,
            command,
            argument.name(),
            argument.help(),
            argument.may_be_many(),
        )?;
    }
    Ok(command)
}

/// The command with one argument more, which has to be there; if it may be many, with one or more of it.
fn with_argument<'a>(
    alloc: Global,
    command: Command<'a>,
    name: &'a str,
    help: &'a str,
    may_be_many: bool,
) -> Result<Command<'a>, AllocError> {
    let argument = Arg::new(alloc, name).required(true).help(help);
    if may_be_many {
        command.arg(argument.num_args(1..))
    } else {
        command.arg(argument)
    }
}
