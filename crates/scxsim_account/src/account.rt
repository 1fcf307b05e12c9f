ghost use Rattle.std.specs.Prelude.{◌≡◌, length, false, is_err, IfOk};
ghost use Rattle.scx_sched_machine.specs.declared.events.Event.TheVariants.{Tick};
ghost use Rattle.scxsim_views.specs.Watching.{CountsEvent, CountsNote};
ghost use Rattle.scxsim_account.specs.Idling.{none_idle, idle_after_event, idle_after_note, idle_of};

use crate::ejection::{Ejection, Moment};
use crate::idling::{Idling, waits_since};
use crate::recent::{RecentNotes, task_of};
use scx_isa::Callback;
use scx_load_driver::Events;
use scx_sched::{Event, Note, Sim, What};
use scx_sched_world::World;
use scx_vm::Args;
use scxsim_trace::{Observer, observe};
use scxsim_waits::{
    Beginning, Calls, IdleStretch, IdleStretches, LongWait, Occurrence, QueueTraffic, Scene,
    WaitingTask, Waits,
};
use std::alloc::{AllocError, Global};

/// The account of a run.
#[derive(Drop)]
pub struct Account {
    pub idling: Idling,
    pub stretches: IdleStretches,
    pub waits: Waits,
    pub queues: QueueTraffic,
    pub calls: Calls,
    /// The last notes, where the policy is ejected.
    pub recent: Option<RecentNotes>,
    pub ejection: Option<Ejection>,
    moment: Moment,
    /// The first task that waited for each CPU as the ticks of the current millisecond began, and its queue.
    waiting: Vec<Option<WaitingTask>>,
    /// An error once memory has run out.
    result: Result<(), AllocError>,
}

impl Account {
    /// The account of a run that hasn't begun. These waits are looked at, and the last notes are kept where the
    /// policy is ejected.
    fn new(
        alloc: Global,
        sim: &Sim,
        worst: &[LongWait],
        is_ejected: bool,
    ) -> Result<Account, AllocError>
        ensures idling { IfOk result (λ account. account.idling
            ≡ none_idle (length sim.now.state.world.tasks) (length sim.now.state.world.cpus)) }
        ensures well { IfOk result (λ account. is_err account.result ≡ false) }
    {
        let tasks = sim.tasks();
        let cpus = sim.cpus();
        Ok(Account {
            idling: Idling::new(alloc, tasks, cpus)?,
            stretches: IdleStretches::new(alloc, cpus)?,
            waits: Waits::new(alloc, worst, sim.world().rules(), tasks as usize, cpus)?,
            queues: QueueTraffic::new(alloc, tasks as usize, cpus)?,
            calls: Calls::new(alloc, tasks as usize, cpus, sim.world().timers())?,
            recent: RecentNotes::if_wanted(alloc, is_ejected, tasks as usize, cpus)?,
            ejection: None,
            moment: Moment {
                event: Event::Clock,
                running: None,
            },
            waiting: vec![in alloc; None; cpus as usize]?,
            result: Ok(()),
        })
    }

    /// Takes a CPU's tick: it has run for a millisecond, or it hasn't.
    fn tick(&mut self, sim: &Sim, cpu: u32)
        ensures idling { self.new.idling ≡ idle_after_event sim.now (Tick cpu) self.old.idling }
        ensures result { self.new.result ≡ self.old.result }
    {
        self.moment.running = sim.runner(cpu);
        let before = self.idling.since(cpu);
        self.idling.expect(sim, Event::Tick(cpu));
        self.begin_ticks(sim.cpus(), cpu);
        self.change(sim, cpu, before);
        self.waits.tick(sim.clock(), cpu, self.moment.running);
    }

    /// Finds the tasks that wait, and their queues, before the tick of CPU 0, since ticks may move tasks.
    fn begin_ticks(&mut self, cpus: u32, cpu: u32)
        ensures idling { self.new.idling ≡ self.old.idling }
        ensures result { self.new.result ≡ self.old.result }
    {
        if cpu == 0 {
            self.find_waiting(cpus);
        }
    }

    fn find_waiting(&mut self, cpus: u32)
        ensures idling { self.new.idling ≡ self.old.idling }
        ensures result { self.new.result ≡ self.old.result }
    {
        for cpu in 0..cpus {
            let found = self.first_waiting(cpu);
            if let Some(place) = self.waiting.get_mut(cpu as usize) {
                *place = found;
            }
        }
    }

    /// Keeps that a stretch of the CPU began or ended, if it did.
    fn change(&mut self, sim: &Sim, cpu: u32, before: Option<u64>)
        ensures idling { self.new.idling ≡ self.old.idling }
        ensures result { self.new.result ≡ self.old.result }
    {
        match (before, self.idling.since(cpu)) {
            (None, Some(_)) => {
                let beginning = Beginning {
                    waiting: self.waiting_for(cpu),
                    calls: self.calls.for_cpu(cpu),
                    is_claimed: is_claimed(sim.world(), cpu),
                };
                self.stretches.begin(cpu, beginning);
            }
            (Some(since), None) => self.end_stretch(IdleStretch {
                cpu,
                since,
                until: sim.clock(),
            }),
            (None, None) | (Some(_), Some(_)) => {}
        }
    }

    fn waiting_for(&self, cpu: u32) -> Option<WaitingTask> {
        *self.waiting.get(cpu as usize)?
    }

    /// The first task in the workload's order that waits for the CPU in the current millisecond, and its queue.
    fn first_waiting(&self, cpu: u32) -> Option<WaitingTask> {
        let task = self.idling.waiting(cpu)?;
        Some(WaitingTask {
            task,
            queue: self.queues.places.at(task),
        })
    }

    /// The clock since which a task waits, if one is given and it waits.
    fn waits_since(&self, task: Option<u16>) -> Option<u64> {
        waits_since(&self.idling.pauses, task?)
    }

    fn end_stretch(&mut self, stretch: IdleStretch)
        ensures idling { self.new.idling ≡ self.old.idling }
        ensures result { self.new.result ≡ self.old.result }
    {
        let calls = self.calls.for_cpu(stretch.cpu);
        self.stretches.end(stretch, calls);
    }

    /// Keeps the notes up to the ejection, for its last lines.
    fn remember(&mut self, clock: u64, what: What)
        ensures idling { self.new.idling ≡ self.old.idling }
        ensures result { self.new.result ≡ self.old.result }
    {
        if self.ejection.is_none() {
            if let Some(recent) = &mut self.recent {
                self.ejection = recent.take(self.moment, Note { clock, what });
            }
        }
    }

    /// Ends the stretches that go on as the run ends.
    fn end(&mut self, sim: &Sim)
        ensures idling { self.new.idling ≡ self.old.idling }
        ensures result { self.new.result ≡ self.old.result }
    {
        for cpu in 0..sim.cpus() {
            if let Some(since) = self.idling.since(cpu) {
                self.end_stretch(IdleStretch {
                    cpu,
                    since,
                    until: sim.clock(),
                });
            }
        }
    }
}

/// True if the CPU is idle, and a callback has claimed it.
fn is_claimed(world: &World, cpu: u32) -> bool {
    world.is_idle(cpu) && !world.is_free(cpu)
}

impl Observer for Account {
    ghost expects = { CountsEvent (λ a. is_err a.result) (λ a. a.idling) idle_after_event };

    ghost shows = { CountsNote (λ a. is_err a.result) (λ a. a.idling) idle_after_note };

    ghost has_failed = { λ a. is_err a.result };

    fn expect(&mut self, sim: &Sim, event: Event) {
        self.moment = Moment {
            event,
            running: None,
        };
        match event {
            Event::Tick(cpu) => self.tick(sim, cpu),
            Event::Wake(_)
            | Event::Sleep(_)
            | Event::Clock
            | Event::SetWeight(_, _)
            | Event::SetTaskWeight(_, _) => {}
        }
    }

    fn show(&mut self, moment: u64, clock: u64, what: What) {
        self.remember(clock, what);
        let taken = self.queues.places.taken(what);
        self.queues.show(what, self.ejection.is_none());
        self.idling.show(clock, what);
        let task = task_of(what);
        let occurrence = Occurrence {
            moment,
            clock,
            what,
            task,
            waits_since: self.waits_since(task),
            taken,
        };
        let scene = Scene {
            places: &self.queues.places,
            calls: &self.calls,
        };
        self.result = self.waits.show(occurrence, scene);
    }

    fn show_call(&mut self, callback: Callback, arguments: Args, world: &World) {
        self.calls.heed(callback, arguments, world);
        if callback == Callback::Dispatch {
            self.waits.heed(world.notes(), &self.queues.places);
        }
    }

    fn failed(&self) -> bool {
        self.result.is_err()
    }
}

/// The account of a run of these events, for these waits; `is_ejected` is true if the policy is ejected in it.
///
/// # Errors
///
/// Memory runs out.
pub fn account_of<E: Events>(
    alloc: Global,
    waits: &[LongWait],
    is_ejected: bool,
    events: &mut E,
    sim: &mut Sim,
) -> Result<Account, AllocError>
    ensures { IfOk result (λ account. account.idling
        ≡ idle_of sim.old (E.remaining events.old sim.old)) }
{
    let mut account = Account::new(alloc, sim, waits, is_ejected)?;
    observe(sim, events, &mut account);
    account.result?;
    account.end(sim);
    Ok(account)
}
