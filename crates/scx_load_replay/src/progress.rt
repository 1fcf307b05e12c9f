//! Lines as they are read, one after another.
ghost use Rattle.std.specs.Prelude.{◌≡◌, slice_set, IfOk, OnOk};
ghost use Rattle.scx_load_replay.specs.Replay.{block_of, comes_before, is_awake};
ghost use Rattle.scx_load_replay.specs.Lines.{no_lines, with_line, state_fault, place_fault};
ghost use Rattle.scx_load_replay.specs.Kept.{progress_of};

use crate::lines::Line;
use scx_load_files::EventFault;
use scx_load_workloads::Workload;
use scx_sched::Event;
use std::alloc::{AllocError, Global};

/// The most lines that say an event.
const MAX_LINES: usize = 65_536;

/// The lines so far, the tasks that are awake after them, and the place of the last one.
#[derive(Drop)]
pub struct Progress {
    pub(crate) lines: Vec<Line>,
    pub(crate) awake: Vec<bool>,
    pub(crate) at: u32,
    pub(crate) block: u32,
}

impl Progress {
    /// All tasks sleep before the first line.
    pub(crate) fn none(alloc: Global, workload: &Workload) -> Result<Progress, AllocError>
        ensures { IfOk result (λ progress. progress_of progress ≡ no_lines workload.now) }
    {
        Ok(Progress {
            awake: vec![in alloc; false; workload.tasks().len()]?,
            lines: Vec::new(alloc),
            at: 0,
            block: 0,
        })
    }

    /// The fault of a line that can't come after these.
    pub(crate) fn fault(&self, line: Line) -> Option<EventFault>
        ensures { result ≡ place_fault (progress_of self.now) line }
    {
        if MAX_LINES <= self.lines.len() {
            return Some(EventFault::TooMany);
        }
        if self.comes_before(line) {
            return Some(EventFault::OutOfOrder);
        }
        self.state_fault(line.event)
    }

    /// True if the line would come before the last of these.
    fn comes_before(&self, line: Line) -> bool
        ensures { result ≡ comes_before line.at (block_of line.event) self.now.at self.now.block }
    {
        line.at < self.at || line.at == self.at && block_of(line.event) < self.block
    }

    fn state_fault(&self, event: Event) -> Option<EventFault>
        ensures { result ≡ state_fault self.now.awake.items event }
    {
        match event {
            Event::Wake(task) => {
                if self.is_awake(task) {
                    Some(EventFault::AlreadyRunnable)
                } else {
                    None
                }
            }
            Event::Sleep(task) => {
                if self.is_awake(task) {
                    None
                } else {
                    Some(EventFault::NotRunnable)
                }
            }
            Event::SetWeight(_, _) | Event::SetTaskWeight(_, _) | Event::Tick(_) | Event::Clock =>
                None,
        }
    }

    fn is_awake(&self, task: u16) -> bool
        ensures { result ≡ is_awake self.now.awake.items task }
    {
        match self.awake.get(task as usize) {
            Some(awake) => *awake,
            None => false,
        }
    }

    /// Adds the line after these.
    pub(crate) fn push(&mut self, line: Line) -> Result<(), AllocError>
        ensures { OnOk result (progress_of self.new ≡ with_line (progress_of self.old) line) }
    {
        self.lines.push(line)?;
        self.at = line.at;
        self.block = block_of(line.event);
        match line.event {
            Event::Wake(task) => set(&mut self.awake, task, true),
            Event::Sleep(task) => set(&mut self.awake, task, false),
            Event::SetWeight(_, _) | Event::SetTaskWeight(_, _) | Event::Tick(_) | Event::Clock =>
                {}
        }
        Ok(())
    }
}

/// The task is awake from now on, or asleep.
#[tactic(auto, using(std::proofs::lemmas::List::set_past))]
fn set(tasks: &mut [bool], task: u16, awake: bool)
    ensures { tasks.new ≡ slice_set tasks.old task awake }
{
    if (task as usize) < tasks.len() {
        tasks[task as usize] = awake;
    }
}

/// The block of its millisecond to which an event belongs.
fn block_of(event: Event) -> u32
    ensures { result ≡ block_of event }
{
    match event {
        Event::SetWeight(_, _) | Event::SetTaskWeight(_, _) => 0,
        Event::Wake(_) => 1,
        Event::Sleep(_) => 2,
        Event::Tick(_) | Event::Clock => 3,
    }
}
