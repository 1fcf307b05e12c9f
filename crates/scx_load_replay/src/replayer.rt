ghost use Rattle.std.specs.Prelude.{◌≡◌, ◌<◌, ◌≤◌, ◌+◌, ◌-◌, ◌∷◌, [], false, None, IfSome, IfNone};
ghost use Rattle.scx_load_workloads.specs.Workload.{max_ms};
ghost use Rattle.scx_load_replay.specs.Events.{events_from};

use crate::lines::Line;
use scx_sched::Event;
use std::marker::Model;

/// The events of a file, one after another.
///
/// In a contract it is the milliseconds that aren't over, the number of CPUs that have ticked in the first, and
/// the remaining lines.
#[derive(Drop)]
pub struct Replayer {
    cpus: u32,
    lines: Vec<Line>,
    /// The number of lines that were answered.
    taken: usize,
    clock: u32,
    /// The number of milliseconds that aren't over.
    left: u32,
    /// The number of CPUs that have ticked in the millisecond `clock`.
    ticked: u32,
}

impl Model for Replayer {
    ghost use Rattle.scx_load_replay.specs.Replayer.{ReplayerState, state_of, IsKept};

    ghost Value = { ReplayerState };

    ghost view = { state_of };

    ghost invariant = { IsKept };
}

impl Replayer {
    ghost use Rattle.scx_load_replay.specs.Replayer.{remaining, due_event, lines_left};
    ghost use Rattle.scx_sched_machine.specs.declared.events.Event.TheVariants.{Tick, Clock};

    /// A replayer with all events of these CPUs, milliseconds and lines to come.
    #[tactic(auto, using(crate::proofs::Remaining::begun))]
    pub(crate) fn new(cpus: u32, ms: u32, lines: Vec<Line>) -> Replayer
        requires some { 1 ≤ cpus }
        requires few { ms ≤ max_ms }
        ensures { remaining result ≡ events_from cpus ms 0 lines.items }
    {
        Replayer {
            cpus,
            lines,
            taken: 0,
            clock: 0,
            left: ms,
            ticked: 0,
        }
    }

    /// The next event; none at the end.
    pub fn next(&mut self) -> Option<Event>
        ensures next { IfSome result (λ event. remaining self.old ≡ event ∷ remaining self.new) }
        ensures end { IfNone result (remaining self.old ≡ []) }
    {
        if self.left == 0 {
            return None;
        }
        match self.before_ticks() {
            Some(event) => Some(event),
            None => Some(self.tick_or_later()),
        }
    }

    /// The event of a line that comes before the ticks.
    #[tactic(auto, using(crate::proofs::Remaining::is_line_before, crate::proofs::Remaining::all_left))]
    fn before_ticks(&mut self) -> Option<Event>
        requires { 0 < self.old.left }
        ensures next { IfSome result (λ event. remaining self.old ≡ event ∷ remaining self.new) }
        ensures same { IfNone result (self.new ≡ self.old) }
        ensures none { IfNone result
            (self.old.ticked ≡ 0 → due_event false self.old.m self.old.lines ≡ None) }
    {
        if self.ticked == 0 {
            self.due(false)
        } else {
            None
        }
    }

    /// The next tick, or the event after all ticks, where no line comes before them.
    #[tactic(auto, using(crate::proofs::Remaining::is_tick, crate::proofs::Remaining::is_line_behind, crate::proofs::Remaining::is_clock))]
    fn tick_or_later(&mut self) -> Event
        requires some { 0 < self.old.left }
        requires none { self.old.ticked ≡ 0 → due_event false self.old.m self.old.lines ≡ None }
        ensures { remaining self.old ≡ result ∷ remaining self.new }
    {
        if self.ticked < self.cpus {
            return self.tick();
        }
        match self.due(true) {
            Some(event) => event,
            None => self.end_millisecond(),
        }
    }

    /// The event of the next line, if that comes now: before the ticks of this millisecond, or after them.
    fn due(&mut self, after_ticks: bool) -> Option<Event>
        ensures event { result ≡ due_event after_ticks self.old.m self.old.lines }
        ensures rest { self.new
            ≡ record self.old { lines = lines_left after_ticks self.old.m self.old.lines } }
    {
        let line = *self.lines.get(self.taken)?;
        if line.at != self.clock || line.is_sleep() != after_ticks {
            return None;
        }
        self.taken += 1;
        Some(line.event)
    }

    /// The tick of the next CPU.
    fn tick(&mut self) -> Event
        requires { self.old.ticked < self.old.cpus }
        ensures event { result ≡ Tick self.old.ticked }
        ensures rest { self.new ≡ record self.old { ticked = self.old.ticked + 1 } }
    {
        let cpu = self.ticked;
        self.ticked += 1;
        Event::Tick(cpu)
    }

    /// The growing of the clock, which ends a millisecond.
    fn end_millisecond(&mut self) -> Event
        requires { 0 < self.old.left }
        ensures event { result ≡ Clock }
        ensures rest { self.new
            ≡ record self.old { m = self.old.m + 1; left = self.old.left - 1; ticked = 0 } }
    {
        self.clock += 1;
        self.left -= 1;
        self.ticked = 0;
        Event::Clock
    }
}
