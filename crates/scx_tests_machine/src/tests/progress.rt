//! The milliseconds that a listener hears, and the line of progress on standard error.

use super::memory::Memory;
use super::runs::{RUN_COMMANDS, RunCommand, execute};
use super::texts::TWO_TASKS;
use crate::same::expect_same;
use scxsim_output::Counted;
use scxsim_remarks::{Estimate, Progress};
use scxsim_runs::Listener;
use std::alloc::Global;
use std::cell::{Cell, RefCell};
use std::fmt::{Display, Write};
use std::io;
use std::process::Abort;
use std::rt::Clock;
use std::time::Duration;

/// Keeps what it hears.
#[derive(Drop)]
struct Record {
    heard: Vec<(u64, u32)>,
}

impl Listener for Record {
    fn hear(&mut self, over: u64, total: u32) {
        let _ = self.heard.push((over, total));
    }
}

/// The listener of the command at that place hears each millisecond.
fn expect_heard<R: AllocGlobal + Abort>(rt: &R, place: usize, command: RunCommand) {
    let mut record = Record {
        heard: Vec::new(rt.alloc()),
    };
    let mut memory = Memory::new(rt.alloc());
    let mut out = Counted::new(&mut memory);
    let done = execute(command, rt.alloc(), TWO_TASKS, &mut record, &mut out);
    expect_same(rt, done, Ok(true), place);
    let wanted = [(1, 4), (2, 4), (3, 4), (4, 4)];
    expect_same(rt, record.heard.as_slice(), wanted.as_slice(), place);
}

#[test]
fn each_millisecond_is_heard(rt: HostRuntime) {
    for (place, &command) in RUN_COMMANDS.iter().enumerate() {
        expect_heard(&rt, place, command);
    }
}

/// The milliseconds of a run that are over, those of the whole run, those by the clock, and the line then.
const ESTIMATES: [(u64, u32, u64, &str); 9] = [
    (1, 1000, 2000, "run: 0 %, 33 min 18 s left"),
    (412, 1000, 8400, "run: 41 %, 12 s left"),
    (500, 1000, 59_000, "run: 50 %, 59 s left"),
    (500, 1000, 59_001, "run: 50 %, 1 min 0 s left"),
    (500, 1000, 3_599_000, "run: 50 %, 59 min 59 s left"),
    (500, 1000, 3_600_000, "run: 50 %, 1 h 0 min left"),
    (999, 1000, 99_900, "run: 99 %, 1 s left"),
    (1, 1_000_000, 2000, "run: 0 %, 555 h 33 min left"),
    (2, 3, 0, "run: 66 %, 0 s left"),
];

#[test]
fn estimates_are_those_worked_by_hand(rt: HostRuntime) {
    for &(over, total, took, wanted) in &ESTIMATES {
        let estimate = Estimate::new(over, total, Duration::from_millis(took));
        let text = estimate.to_string(rt.alloc()).expect(&rt, "memory");
        expect_same(&rt, text.as_str(), wanted, over);
    }
}

/// A terminal in memory, with a clock that is set.
#[derive(Drop)]
struct Terminal {
    now: Cell<u64>,
    said: RefCell<String>,
}

impl Terminal {
    fn new(alloc: Global) -> Terminal {
        Terminal {
            now: Cell::new(7000),
            said: RefCell::new(String::new(alloc)),
        }
    }

    /// After that many milliseconds, `over` of 100 are over.
    fn hear(&self, progress: &mut Progress<'_, Terminal>, after: u64, over: u64) {
        self.now.set(after.saturating_add(7000));
        progress.hear(over, 100);
    }
}

impl Clock for Terminal {
    fn monotonic(&self) -> io::Result<Duration> {
        Ok(Duration::from_millis(self.now.get()))
    }

    fn since_1970(&self) -> io::Result<Duration> {
        self.monotonic()
    }
}

impl Eprint for Terminal {
    fn eprint<D: Display + Drop>(&self, value: D) -> io::Result<()> {
        if let Ok(mut said) = self.said.try_borrow_mut() {
            let _ = write!(said, "{value}");
        }
        Ok(())
    }

    fn eprintln<D: Display + Drop>(&self, value: D) -> io::Result<()> {
        self.eprint(value)?;
        self.eprint("\n")
    }
}

fn expect_said<R: Abort>(rt: &R, terminal: &Terminal, wanted: &str) {
    let said = terminal.said.try_borrow().expect(rt, "nobody writes");
    expect_same(rt, said.as_str(), wanted, "said");
}

#[test]
fn a_line_comes_in_its_time(rt: HostRuntime) {
    let terminal = Terminal::new(rt.alloc());
    let mut progress = Progress::new(&terminal, true);
    terminal.hear(&mut progress, 1999, 1);
    expect_said(&rt, &terminal, "");
    terminal.hear(&mut progress, 2000, 2);
    terminal.hear(&mut progress, 2249, 3);
    expect_said(&rt, &terminal, "\rrun: 2 %, 1 min 38 s left\x1b[K");
    terminal.hear(&mut progress, 2250, 4);
    terminal.hear(&mut progress, 2260, 100);
    progress.end();
    let wanted = "\rrun: 2 %, 1 min 38 s left\x1b[K\rrun: 4 %, 54 s left\x1b[K\r\x1b[K";
    expect_said(&rt, &terminal, wanted);
}

#[test]
fn a_line_is_taken_back_from_a_run_without_an_end(rt: HostRuntime) {
    let terminal = Terminal::new(rt.alloc());
    let mut progress = Progress::new(&terminal, true);
    terminal.hear(&mut progress, 4000, 80);
    progress.end();
    expect_said(&rt, &terminal, "\rrun: 80 %, 1 s left\x1b[K\r\x1b[K");
}

#[test]
fn nothing_is_said_if_errors_arent_seen(rt: HostRuntime) {
    let terminal = Terminal::new(rt.alloc());
    let mut progress = Progress::new(&terminal, false);
    terminal.hear(&mut progress, 9000, 50);
    progress.end();
    expect_said(&rt, &terminal, "");
}
