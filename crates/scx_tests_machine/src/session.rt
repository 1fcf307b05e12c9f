//! A machine that is given events, and what it notes.

use crate::policies::{TWO_MILLISECONDS, policy, policy_within, tree};
use crate::recorder::Recorder;
use crate::same::expect_same;
use scx_isa::Callback;
use scx_sched::{Eject, Event, Place, Policy, Refused, Sim};
use scx_weights::Tree;
use std::process::Abort;

/// Clock, events and ejection; a task's place and wait; its run time, slice and virtual time.
type Seen = ((u64, u64, Option<Eject>), (Place, u64), (u64, u64, u64));

/// A machine, and what it noted. A test ends with `drop`, which std has proved: what lets a whole machine go in
/// a function of its own is long to prove.
#[derive(Drop)]
pub(crate) struct Session {
    pub(crate) sim: Sim,
    pub(crate) recorder: Recorder,
}

impl Session {
    /// A machine, and room for `room` notes.
    pub(crate) fn of<R: AllocGlobal + Abort>(
        rt: &R,
        policy: Policy,
        tree: Tree,
        cpus: u32,
        room: usize,
    ) -> Session {
        let sim = Sim::new(rt.alloc(), policy, tree, cpus);
        Session {
            sim: sim.expect(rt, "init answers 0"),
            recorder: Recorder::new(rt.alloc(), room),
        }
    }

    /// Two tasks that take turns of 2 ms on one CPU, and room for `room` notes.
    pub(crate) fn taking_turns<R: AllocGlobal + Abort>(rt: &R, room: usize) -> Session {
        Session::of(rt, policy(rt, TWO_MILLISECONDS), tree(rt, &[0, 0]), 1, room)
    }

    /// Tasks on one CPU that are held, each of which may wait five milliseconds.
    pub(crate) fn holding<R: AllocGlobal + Abort>(rt: &R, tasks: usize) -> Session {
        let homes = vec![in rt.alloc(); 0_u32; tasks].expect(rt, "memory is ample");
        let policy = policy_within(rt, 5, &[(Callback::Enqueue, "exit")]);
        Session::of(rt, policy, tree(rt, &homes), 1, 4000)
    }

    /// Each event is accepted.
    pub(crate) fn run(&mut self, rt: &impl Abort, events: &[Event]) {
        for &event in events {
            let answer = self.sim.step(event, &mut self.recorder);
            expect_same(rt, answer, Ok(()), event);
        }
    }

    /// Each event is refused so, and nothing is noted and counted.
    pub(crate) fn refuse(&mut self, rt: &impl Abort, rows: &[(Event, Refused)]) {
        let before = (self.sim.events(), self.recorder.notes);
        for &(event, refused) in rows {
            let answer = self.sim.step(event, &mut self.recorder);
            expect_same(rt, answer, Err(refused), event);
            expect_same(rt, (self.sim.events(), self.recorder.notes), before, event);
        }
    }

    /// The notes are these, a line each.
    pub(crate) fn noted(&self, rt: &impl Abort, wanted: &str) {
        expect_same(rt, self.recorder.text.as_str(), wanted, "notes");
    }

    /// The tasks are at these places.
    pub(crate) fn are_at(&self, rt: &impl Abort, places: &[(u16, Place)]) {
        for &(task, place) in places {
            expect_same(rt, self.place(rt, task), place, task);
        }
    }

    fn place(&self, rt: &impl Abort, task: u16) -> Place {
        let known = task < self.sim.tasks();
        assert!(rt; known);
        self.sim.place(task)
    }

    /// The machine's own figures, and those of a task.
    fn seen(&self, rt: &impl Abort, task: u16) -> Seen {
        let known = task < self.sim.tasks();
        assert!(rt; known);
        let sim = &self.sim;
        (
            (sim.clock(), sim.events(), sim.ejected()),
            (sim.place(task), sim.wait(task)),
            (sim.run_ns(task), sim.slice(task), sim.vtime(task)),
        )
    }

    /// Both machines, of two tasks, say the same.
    pub(crate) fn stands_as(&self, rt: &impl Abort, other: &Session) {
        for task in 0..2_u16 {
            expect_same(rt, self.seen(rt, task), other.seen(rt, task), task);
        }
    }
}
