ghost use Rattle.std.specs.Prelude.{◌≤◌};

use crate::bounds::{Bounds, Mode};
use crate::ticks::Ticks;
use scx_explore_states::{MOST_TASKS, Tasks, Words};
use scx_sched::Sim;

/// A bound that isn't known yet.
const OPEN: u16 = u16::MAX;

/// The times of a task in its workload, as far as they are known.
#[derive(Clone, Copy)]
struct Plan {
    /// It runs longer than that at once, and no longer than `most`, in milliseconds.
    least: u16,
    most: u16,
    /// The time for which it sleeps.
    sleep: u16,
    /// The time for which it has run, or slept, up to now.
    count: u16,
}

impl Plan {
    const NEW: Plan = Plan {
        least: 0,
        most: OPEN,
        sleep: OPEN,
        count: 0,
    };

    fn wake(self) -> Plan {
        let mut plan = self;
        if plan.most != OPEN && plan.sleep == OPEN {
            plan.sleep = plan.count;
        }
        plan.count = 0;
        plan
    }

    /// It goes to sleep in a millisecond in which it ran for `ran` ticks.
    fn fall_asleep(self, ran: u16) -> Plan {
        let mut plan = self;
        plan.most = plan.most.min(plan.count.saturating_add(ran));
        plan.count = 0;
        plan
    }

    /// It doesn't, though it could.
    fn go_on(self, ran: u16) -> Plan {
        let mut plan = self.run_on(ran);
        plan.least = plan.least.max(plan.count);
        plan
    }

    /// It doesn't, and couldn't.
    fn run_on(self, ran: u16) -> Plan {
        let mut plan = self;
        plan.count = plan.count.saturating_add(ran);
        plan
    }

    fn sleep_on(self) -> Plan {
        let mut plan = self;
        if plan.most != OPEN {
            plan.count = plan.count.saturating_add(1);
        }
        plan
    }

    fn word(self) -> u64 {
        u64::from(self.least) << 48
            | u64::from(self.most) << 32
            | u64::from(self.sleep) << 16
            | u64::from(self.count)
    }
}

/// The choice of a search at a task.
#[derive(Clone, Copy, PartialEq, Eq)]
pub enum Choice {
    Must,
    May,
    MayNot,
}

/// The memory of a search beside a machine.
#[derive(Clone, Copy)]
pub struct Memory {
    /// The tasks that began to run while another waits: bit 8 t + u where task u did since task t waits.
    pub began: u64,
    /// Bit i is set where a group has the weight of change i.
    pub changed: u64,
    /// The number of wakes and sleeps so far.
    pub used: u64,
    plans: [Plan; MOST_TASKS],
}

impl Memory {
    /// Before the first event.
    pub fn new(changed: u64) -> Memory {
        Memory {
            began: 0,
            changed,
            used: 0,
            plans: [Plan::NEW; MOST_TASKS],
        }
    }

    fn plan(&self, task: u16) -> Plan {
        match self.plans.get(usize::from(task)) {
            Some(plan) => *plan,
            None => Plan::NEW,
        }
    }

    fn set(&mut self, task: u16, plan: Plan) {
        if let Some(place) = self.plans.get_mut(usize::from(task)) {
            *place = plan;
        }
    }

    /// Chooses if a task that sleeps wakes in the next millisecond, in some workload.
    pub fn wake_choice(&self, task: u16) -> Choice {
        let plan = self.plan(task);
        if plan.most == OPEN || plan.sleep == OPEN {
            Choice::May
        } else if plan.count == plan.sleep {
            Choice::Must
        } else {
            Choice::MayNot
        }
    }

    /// Chooses if a runnable task goes to sleep in this millisecond, in whose ticks tasks ran so.
    pub fn sleep_choice(&self, task: u16, ran: &Ticks) -> Choice {
        let plan = self.plan(task);
        let count = plan.count.saturating_add(ran.of(task));
        if !ran.may_sleep(task) || count <= plan.least {
            Choice::MayNot
        } else if count >= plan.most {
            Choice::Must
        } else {
            Choice::May
        }
    }

    /// These tasks wake or go to sleep.
    pub fn use_up(&mut self, tasks: Tasks) {
        self.used = self.used.saturating_add(u64::from(tasks.count()));
    }

    /// These tasks wake.
    pub fn wake(&mut self, wakes: Tasks) {
        for task in 0..MOST_TASKS as u16 {
            if wakes.has(task) {
                self.set(task, self.plan(task).wake());
            }
        }
    }

    /// A millisecond of that machine ends, in which tasks ran for these ticks and some went to sleep.
    pub fn end(&mut self, sim: &Sim, sleeps: Tasks, ran: &Ticks) {
        for task in 0..MOST_TASKS as u16 {
            let plan = self.plan(task);
            let next = if sleeps.has(task) {
                plan.fall_asleep(ran.of(task))
            } else if !sim.is_runnable(task) {
                plan.sleep_on()
            } else if ran.may_sleep(task) {
                plan.go_on(ran.of(task))
            } else {
                plan.run_on(ran.of(task))
            };
            self.set(task, next);
        }
    }

    /// The number of words that `write` writes.
    pub fn width(bounds: Bounds, tasks: u16, are_changed: bool) -> usize
        ensures { result ≤ 65537 }
    {
        let plans = if bounds.mode == Mode::Workloads {
            usize::from(tasks)
        } else {
            0
        };
        plans + usize::from(are_changed) + usize::from(bounds.few.is_some())
    }

    /// Appends to a state what it takes to go on from it.
    pub fn write(&self, bounds: Bounds, tasks: u16, are_changed: bool, words: &mut Words) {
        put_if(are_changed, self.changed, words);
        put_if(bounds.few.is_some(), self.used, words);
        self.write_plans(bounds.mode, tasks, words);
    }

    /// Where lists are those of workloads.
    fn write_plans(&self, mode: Mode, tasks: u16, words: &mut Words) {
        if mode != Mode::Workloads {
            return;
        }
        for task in 0..tasks {
            words.put(self.plan(task).word());
        }
    }
}

/// Writes the word where it is one of a state.
fn put_if(is_kept: bool, word: u64, words: &mut Words) {
    if is_kept {
        words.put(word);
    }
}
