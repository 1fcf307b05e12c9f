use crate::activities::{Activities, Doing, Instant, Stay};
use crate::gathered::Gathered;
use crate::idles::{Counted, Idles};
use crate::queues::Queue;
use crate::waiters::Waiters;
use scx_load_workloads::Workload;
use scx_sched::{Event, Sim, What};
use scxsim_commands::Window;
use scxsim_layout::{Layout, Now};
use scxsim_trace::Observer;
use std::alloc::{AllocError, Global};

/// The sums of a picture while its run goes on. It never fails.
#[derive(Drop)]
pub struct Gathering {
    activities: Activities,
    waiters: Waiters,
    /// The time that CPUs were idle while a task waited that may run there.
    idles: Idles,
    /// Where a group has a quota: the time that CPUs were idle while tasks were parked and none waited.
    quota_idles: Option<Idles>,
    now: Now,
    clock: u64,
    gathered: Gathered,
}

impl Gathering {
    /// No sums yet of that part of a workload's run. Takes all memory, before the first event.
    ///
    /// # Errors
    ///
    /// Memory ran out.
    pub fn new(
        alloc: Global,
        workload: &Workload,
        window: Window,
    ) -> Result<Gathering, AllocError> {
        let layout = Layout::new(alloc, workload, window.from, window.to)?;
        let cpus = workload.cpus() as usize;
        let columns = layout.scale.columns as usize;
        let activities = Activities::new(alloc, workload.tasks().len())?;
        let waiters = Waiters::new(alloc, workload)?;
        let idles = Idles::new(alloc, Counted::Waits, cpus, columns, &waiters)?;
        let gathered = Gathered::new(alloc, workload, layout)?;
        let quota_idles = idles_of_quotas(alloc, &gathered, cpus, columns, &waiters)?;
        Ok(Gathering {
            activities,
            waiters,
            idles,
            quota_idles,
            now: Now::first(gathered.layout.scale),
            clock: 0,
            gathered,
        })
    }

    /// The sums of the run, which ends at that moment. `homes` has the group of each task.
    pub fn end(mut self, moment: u64, homes: &[u32]) -> Gathered {
        self.clock = moment;
        self.pass(moment);
        let mut task = 0u16;
        for _ in homes {
            self.change(task, None);
            task = task.saturating_add(1);
        }
        let Gathering {
            mut gathered,
            activities,
            waiters,
            idles,
            quota_idles,
            ..
        } = self;
        gathered.end(moment, homes);
        idles.end(&gathered.layout, &mut gathered.sums.waited);
        if let Some(idles) = &quota_idles {
            idles.end(&gathered.layout, &mut gathered.sums.parked);
        }
        gathered.end_area();
        drop(activities);
        drop(waiters);
        drop(idles);
        drop(quota_idles);
        gathered
    }

    /// Time passes up to that moment.
    #[inline(always)]
    fn pass(&mut self, moment: u64) {
        if moment == self.now.mark.moment {
            return;
        }
        let scale = self.gathered.layout.scale;
        self.now.pass(scale, moment);
        self.idles.pass(scale, self.now.mark, &self.waiters);
        if let Some(idles) = &mut self.quota_idles {
            idles.pass(scale, self.now.mark, &self.waiters);
        }
        self.gathered.shares.pass(moment);
    }

    /// The task does this from now on, or sleeps.
    #[inline(always)]
    fn change(&mut self, task: u16, doing: Option<Doing>) {
        let now = self.now.mark;
        let before = self.activities.change(task, doing, now, self.clock);
        self.waiters.change(task, doing_in(before), doing);
        let Some(stay) = before else {
            return;
        };
        if stay.since.moment < now.moment {
            self.gathered.add(task, stay, now);
        }
        if !waits(doing) {
            let end = Instant {
                moment: now.moment,
                clock: self.clock,
            };
            self.gathered.end_wait(task, stay.waits_since, end);
        }
    }

    /// Adds what ends with a note of this moment.
    #[inline(always)]
    fn note(&mut self, what: What) {
        match what {
            What::Wake(task) => {
                self.change(task, Some(Doing::Waits(Queue::Held)));
                self.gathered.wake(task, self.now.mark.moment);
            }
            What::Sleep(task) => {
                self.change(task, None);
                self.gathered.sleep(task);
            }
            What::Insert(task, queue) => {
                let queue = self.gathered.queues.queue(queue);
                self.change(task, Some(Doing::Waits(queue)));
            }
            What::Move(task, cpu) => {
                let queue = Queue::Local(u64::from(cpu));
                self.change(task, Some(Doing::Waits(queue)));
            }
            What::Run(task, cpu) => {
                self.change(task, Some(Doing::Runs(cpu)));
                self.run(cpu);
            }
            What::Stop(task, cpu) => {
                self.change(task, None);
                self.stop(cpu);
            }
            What::Idle(_)
            | What::Weight(_, _)
            | What::TaskWeight(_, _)
            | What::Stall(_)
            | What::Fault(_)
            | What::Exit(_) => self.gathered.note(self.now.mark.moment, what),
        }
    }

    /// A CPU begins to run.
    fn run(&mut self, cpu: u32) {
        let gathered = &mut self.gathered;
        self.idles
            .run(&gathered.layout, &mut gathered.sums.waited, cpu);
        if let Some(idles) = &mut self.quota_idles {
            idles.run(&gathered.layout, &mut gathered.sums.parked, cpu);
        }
        gathered.shares.begin();
    }

    /// A CPU stops running.
    fn stop(&mut self, cpu: u32) {
        self.idles.stop(cpu);
        if let Some(idles) = &mut self.quota_idles {
            idles.stop(cpu);
        }
        self.gathered.shares.stop();
    }
}

impl Observer for Gathering {
    ghost use Rattle.std.specs.Prelude.{false};

    ghost has_failed = { λ _. false };

    #[inline(always)]
    fn expect(&mut self, _sim: &Sim, _event: Event) {}

    #[inline(always)]
    fn show(&mut self, moment: u64, clock: u64, what: What) {
        self.clock = clock;
        self.pass(moment);
        self.note(what);
    }

    fn failed(&self) -> bool {
        false
    }
}

fn waits(doing: Option<Doing>) -> bool {
    match doing {
        Some(doing) => doing.waits(),
        None => false,
    }
}

/// The idle time of CPUs while tasks are parked, before any has passed, if a group has a quota.
fn idles_of_quotas(
    alloc: Global,
    gathered: &Gathered,
    cpus: usize,
    columns: usize,
    waiters: &Waiters,
) -> Result<Option<Idles>, AllocError> {
    if gathered.shares.has_quotas() {
        let idles = Idles::new(alloc, Counted::UsedUp, cpus, columns, waiters)?;
        Ok(Some(idles))
    } else {
        Ok(None)
    }
}

/// The activity in a stay, if there is one.
fn doing_in(stay: Option<Stay>) -> Option<Doing> {
    match stay {
        Some(stay) => Some(stay.doing),
        None => None,
    }
}
