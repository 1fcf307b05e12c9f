use crate::lines::end_row;
use crate::states::push_state;
use crate::words::push_value;
use scx_isa::{Callback, Pointer, Value};
use scx_load_workloads::Workload;
use scx_sched::{Event, Sim};
use scx_vm::{Arg, Args};
use scxsim_output::Text;
use scxsim_simulation::push_maps;
use scxsim_trace::Names;
use std::alloc::Global;

/// The width of the column of callbacks.
const WIDTH: usize = 12;

/// The progress of the millisecond that is told.
#[derive(Clone, Copy, PartialEq, Eq)]
enum Phase {
    Before,
    /// It has begun, and nothing has happened in it.
    Quiet,
    Busy,
    Over,
}

/// The account of a millisecond, beside the lines of its notes.
#[derive(Drop)]
pub(crate) struct Account<'a> {
    pub(crate) alloc: Global,
    names: &'a Workload,
    ms: u64,
    phase: Phase,
    /// The event that is under way, where nothing of it is written yet.
    event: Option<Event>,
    pub(crate) text: Text,
}

impl<'a> Account<'a> {
    /// An account that begins with that text, before anything has happened.
    pub(crate) fn new(alloc: Global, names: &'a Workload, ms: u64, text: Text) -> Account<'a> {
        Account {
            alloc,
            names,
            ms,
            phase: Phase::Before,
            event: None,
            text,
        }
    }

    /// Expects an event, which comes next.
    pub(crate) fn expect(&mut self, sim: &Sim, event: Event) {
        let is_now = sim.clock() == self.ms;
        let is_clock = matches!(event, Event::Clock);
        let is_next = is_clock && sim.clock().saturating_add(1) == self.ms;
        if is_now && is_clock {
            self.end(sim);
        } else if is_now || is_next {
            self.push_begin(sim);
            self.event = Some(event);
        }
    }

    /// Tells how the machine is as the millisecond begins, if it hasn't begun yet.
    fn push_begin(&mut self, sim: &Sim) {
        if self.phase != Phase::Before {
            return;
        }
        self.phase = Phase::Quiet;
        if !self.text.is_empty() {
            self.text.push("\n");
        }
        self.text.number("before millisecond ", self.ms);
        self.text.number(" of ", u64::from(self.names.ms()));
        self.text.push("\n");
        push_state(self.alloc, self.names, sim, &mut self.text);
    }

    /// Tells how the machine is as the millisecond is over, if that isn't told yet.
    pub(crate) fn end(&mut self, sim: &Sim) {
        if self.phase == Phase::Over {
            return;
        }
        self.push_begin(sim);
        if self.phase == Phase::Quiet {
            self.text
                .push("\nno callback is called, and nothing is noted\n");
        }
        self.phase = Phase::Over;
        self.text.push("\nafter it\n");
        push_state(self.alloc, self.names, sim, &mut self.text);
        self.push_map_values(sim);
    }

    /// Tells what the policy's maps hold, if it isn't all zero.
    fn push_map_values(&mut self, sim: &Sim) {
        let mut lines = Text::new(self.alloc);
        push_maps(sim.maps(), &mut lines);
        if !lines.is_empty() {
            self.text.push("\nmaps after it\n");
            self.text.append(&lines);
        }
    }

    /// Begins the account of the event, as something comes of it.
    pub(crate) fn begin(&mut self) {
        if let Some(event) = self.event {
            self.event = None;
            self.phase = Phase::Busy;
            self.text.push("\n");
            push_event(self.names, event, &mut self.text);
            self.text.push("\n");
        }
    }

    /// Tells a callback that begins, with its arguments.
    pub(crate) fn push_callback(&mut self, callback: Callback, arguments: Args) {
        self.begin();
        let mut words = Text::new(self.alloc);
        push_argument("r1", arguments.first, self.names, &mut words);
        push_argument("r2", arguments.second, self.names, &mut words);
        push_argument("r3", arguments.third, self.names, &mut words);
        self.text.push("  ");
        let begin = self.text.len();
        self.text.push(callback.name());
        end_row(begin, WIDTH, &words, &mut self.text);
    }
}

/// Appends what a register holds as a callback begins, if it was given something.
fn push_argument(register: &str, argument: Arg, names: &Workload, words: &mut Text) {
    let value = match argument {
        Arg::Unset => return,
        Arg::Num(n) => Value::Number(n),
        Arg::Task(task) => Value::Pointer(Pointer::Task(task)),
    };
    if !words.is_empty() {
        words.push(", ");
    }
    words.push(register);
    words.push(" = ");
    push_value(value, names, words);
}

/// Appends what event it is.
fn push_event(names: &Workload, event: Event, text: &mut Text) {
    match event {
        Event::Wake(task) => {
            text.push("wake of ");
            text.push(names.task(task));
        }
        Event::Sleep(task) => {
            text.push("sleep of ");
            text.push(names.task(task));
        }
        Event::Tick(cpu) => text.number("tick of cpu ", u64::from(cpu)),
        Event::Clock => text.push("the clock goes on"),
        Event::SetWeight(group, weight) => {
            text.push("weight of ");
            text.push(names.group(group));
            text.number(": ", u64::from(weight));
        }
        Event::SetTaskWeight(task, weight) => {
            text.push("weight of ");
            text.push(names.task(task));
            text.number(": ", u64::from(weight));
        }
    }
}
