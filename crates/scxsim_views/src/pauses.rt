ghost use Rattle.std.specs.Prelude.{◌≡◌, ◌-◌, replicate, slice_set, None, IfOk};
ghost use Rattle.std.specs.List.{list_any};
ghost use Rattle.scxsim_views.specs.declared.pauses.Doing.TheVariants.{Sleeps};
ghost use Rattle.scxsim_views.specs.Pauses.{sleeps, waits, runs, is_parked, doing_at, doing_after_stop, doing_after_insert, ended_by_insert, doing_after, open_pause, ended_by};

use scx_sched::What;
use scx_sched_world::PARKED;
use std::alloc::{AllocError, Global};
use std::marker::Model;

/// The state of a task.
#[derive(Clone, Copy)]
pub enum Doing {
    Sleeps,
    /// It has waited since this time.
    Waits(u64),
    Runs,
    /// It has been parked since this time.
    IsParked(u64),
}

impl Doing {
    fn sleeps(self) -> bool
        ensures { result ≡ sleeps self }
    {
        match self {
            Doing::Sleeps => true,
            Doing::Waits(_) | Doing::Runs | Doing::IsParked(_) => false,
        }
    }

    fn waits(self) -> bool
        ensures { result ≡ waits self }
    {
        match self {
            Doing::Waits(_) => true,
            Doing::Sleeps | Doing::Runs | Doing::IsParked(_) => false,
        }
    }

    fn runs(self) -> bool
        ensures { result ≡ runs self }
    {
        match self {
            Doing::Runs => true,
            Doing::Sleeps | Doing::Waits(_) | Doing::IsParked(_) => false,
        }
    }

    fn is_parked(self) -> bool
        ensures { result ≡ is_parked self }
    {
        match self {
            Doing::IsParked(_) => true,
            Doing::Sleeps | Doing::Waits(_) | Doing::Runs => false,
        }
    }
}

/// The reason of a pause.
#[derive(Clone, Copy, Debug, PartialEq, Eq)]
pub enum PauseKind {
    /// The task waits for a CPU.
    Wait,
    /// A group of the task has used up its quota.
    Parked,
}

/// A time in which a task had work to do and didn't run.
#[derive(Clone, Copy, Debug, PartialEq, Eq)]
pub struct Pause {
    pub task: u16,
    pub kind: PauseKind,
    pub since: u64,
    pub until: u64,
}

impl Pause {
    pub fn length(self) -> u64
        ensures { result ≡ self.until - self.since }
    {
        self.until.saturating_sub(self.since)
    }
}

/// The tasks that wait or are parked, and since when: all in clocks or all in moments.
///
/// In a contract it is the list of each task's state.
#[derive(Drop)]
pub struct Pauses {
    doing: Vec<Doing>,
}

impl Model for Pauses {
    ghost use Rattle.std.specs.Prelude.{List};
    ghost use Rattle.scxsim_views.specs.declared.pauses.Doing.{Doing};

    ghost Value = { List Doing };

    ghost view = { λ p. p.doing.items };
}

impl Pauses {
    /// Pauses of tasks that all sleep.
    pub fn new(alloc: Global, tasks: usize) -> Result<Pauses, AllocError>
        ensures { IfOk result (λ pauses. pauses ≡ replicate tasks Sleeps) }
    {
        Ok(Pauses {
            doing: vec![in alloc; Doing::Sleeps; tasks]?,
        })
    }

    /// Takes a note. The answer is the pause that it ends, if it ends one.
    pub fn show(&mut self, now: u64, what: What) -> Option<Pause>
        ensures doing { self.new ≡ doing_after now what self.old }
        ensures ended { result ≡ ended_by now what self.old }
    {
        match what {
            What::Wake(task) => self.change(task, Doing::Waits(now), now),
            What::Sleep(task) => self.change(task, Doing::Sleeps, now),
            What::Run(task, _) => self.change(task, Doing::Runs, now),
            What::Stop(task, _) => {
                self.stop(task, now);
                None
            }
            What::Insert(task, queue) => self.insert(task, queue, now),
            What::Move(_, _)
            | What::Idle(_)
            | What::Weight(_, _)
            | What::TaskWeight(_, _)
            | What::Stall(_)
            | What::Fault(_)
            | What::Exit(_) => None,
        }
    }

    /// The pause of a task that waits or is parked now.
    pub fn open_pause(&self, task: u16, now: u64) -> Option<Pause>
        ensures { result ≡ open_pause now self.now task }
    {
        match self.doing_at(task) {
            Doing::Waits(since) => Some(Pause {
                task,
                kind: PauseKind::Wait,
                since,
                until: now,
            }),
            Doing::IsParked(since) => Some(Pause {
                task,
                kind: PauseKind::Parked,
                since,
                until: now,
            }),
            Doing::Sleeps | Doing::Runs => None,
        }
    }

    /// True if some task waits for a CPU. A task that is parked doesn't.
    pub fn somebody_waits(&self) -> bool
        ensures { result ≡ list_any waits self.now }
    {
        self.doing.iter().any(|doing| doing.waits())
    }

    /// True if the task sleeps.
    pub fn is_asleep(&self, task: u16) -> bool
        ensures { result ≡ sleeps (doing_at self.now task) }
    {
        self.doing_at(task).sleeps()
    }

    fn doing_at(&self, task: u16) -> Doing
        ensures { result ≡ doing_at self.now task }
    {
        match self.doing.get(task as usize) {
            Some(doing) => *doing,
            None => Doing::Sleeps,
        }
    }

    fn change(&mut self, task: u16, doing: Doing, now: u64) -> Option<Pause>
        ensures doing { self.new ≡ slice_set self.old task doing }
        ensures ended { result ≡ open_pause now self.old task }
    {
        let pause = self.open_pause(task, now);
        if let Some(place) = self.doing.get_mut(task as usize) {
            *place = doing;
        }
        pause
    }

    /// Takes that a task comes into a queue. It waits there as before, but it is parked in the queue of parked
    /// tasks, and a task that was parked waits from now on.
    #[tactic(auto, using(crate::proofs::Pausing::set_as_it_is))]
    fn insert(&mut self, task: u16, queue: u64, now: u64) -> Option<Pause>
        ensures doing { self.new
            ≡ slice_set self.old task (doing_after_insert now queue (doing_at self.old task)) }
        ensures ended { result ≡ ended_by_insert now task queue (doing_at self.old task) }
    {
        if queue == PARKED {
            return self.change(task, Doing::IsParked(now), now);
        }
        if self.doing_at(task).is_parked() {
            return self.change(task, Doing::Waits(now), now);
        }
        None
    }

    /// Takes that a task stops running. It waits from now on, unless it sleeps, which is noted first.
    #[tactic(auto, using(crate::proofs::Pausing::set_as_it_is))]
    fn stop(&mut self, task: u16, now: u64)
        ensures { self.new
            ≡ slice_set self.old task (doing_after_stop now (doing_at self.old task)) }
    {
        if self.doing_at(task).runs() {
            self.change(task, Doing::Waits(now), now);
        }
    }
}
