use scx_load_workloads::Timing;
use scx_sched::{Event, Sim, Unseen};
use std::alloc::{AllocError, Global};

/// The nanoseconds of a tick.
const TICK_NS: u64 = 1_000_000;

/// The times of a task in a list of events.
#[derive(Clone, Copy)]
struct Draft {
    start: Option<u32>,
    run: Option<u32>,
    sleep: Option<u32>,
    /// The millisecond in which it went to sleep last.
    slept: Option<u32>,
    /// Its run time when it woke last, in nanoseconds.
    ran: u64,
}

/// The times of each task in a list of events, and the length of the list.
#[derive(Drop)]
pub(crate) struct Drafts {
    drafts: Vec<Draft>,
    /// The number of milliseconds that are over.
    clock: u32,
    /// True if a further one has begun.
    has_begun: bool,
}

impl Draft {
    const NEW: Draft = Draft {
        start: None,
        run: None,
        sleep: None,
        slept: None,
        ran: 0,
    };

    /// The task wakes in that millisecond, once it has run so long.
    fn wake(&mut self, now: u32, run_ns: u64) {
        self.ran = run_ns;
        if self.start.is_none() {
            self.start = Some(now);
            return;
        }
        if let (None, Some(slept)) = (self.sleep, self.slept) {
            self.sleep = Some(now.saturating_sub(slept).saturating_sub(1));
        }
    }

    /// The task goes to sleep in that millisecond, once it has run so long. Under Linux rules it may have run longer than
    /// it had to.
    fn go_to_sleep(&mut self, now: u32, run_ns: u64) {
        self.slept = Some(now);
        let ran = milliseconds(run_ns.saturating_sub(self.ran));
        self.run = Some(match self.run {
            Some(run) => run.min(ran),
            None => ran,
        });
    }

    /// The task's times in a workload of `ms` milliseconds. What the list doesn't say comes after its end.
    fn timing(self, ms: u32) -> Timing {
        Timing {
            start: self.start.unwrap_or(ms),
            run: self.run.unwrap_or(0),
            sleep: match (self.sleep, self.slept) {
                (Some(sleep), _) => sleep,
                (None, Some(_)) => ms,
                (None, None) => 0,
            },
        }
    }
}

/// The whole milliseconds of that time, in a number of 32 bits.
fn milliseconds(nanoseconds: u64) -> u32 {
    u32::try_from(nanoseconds / TICK_NS).unwrap_or(u32::MAX)
}

impl Drafts {
    /// Nothing is known of these tasks.
    fn new(alloc: Global, tasks: usize) -> Result<Drafts, AllocError> {
        Ok(Drafts {
            drafts: vec![in alloc; Draft::NEW; tasks]?,
            clock: 0,
            has_begun: false,
        })
    }

    /// The number of milliseconds of the list; one that has ended early counts.
    pub(crate) fn ms(&self) -> u32 {
        if self.has_begun || self.clock == 0 {
            self.clock.saturating_add(1)
        } else {
            let clock = self.clock;
            clock
        }
    }

    pub(crate) fn timing(&self, task: u16) -> Timing {
        let ms = self.ms();
        match self.drafts.get(usize::from(task)) {
            Some(draft) => (*draft).timing(ms),
            None => Draft::NEW.timing(ms),
        }
    }

    /// Takes down what the machine's next event says.
    fn take_down(&mut self, sim: &Sim, event: Event) {
        let now = self.clock;
        self.has_begun = event != Event::Clock;
        match event {
            Event::Wake(task) => {
                if let Some(draft) = self.drafts.get_mut(usize::from(task)) {
                    draft.wake(now, sim.world().task(task).run_ns);
                }
            }
            Event::Sleep(task) => {
                if let Some(draft) = self.drafts.get_mut(usize::from(task)) {
                    draft.go_to_sleep(now, sim.world().task(task).run_ns);
                }
            }
            Event::Clock => self.clock = now.saturating_add(1),
            Event::Tick(_) | Event::SetWeight(_, _) | Event::SetTaskWeight(_, _) => {}
        }
    }
}

/// The times in the list, from that machine on, which goes through it.
pub(crate) fn times_in(
    alloc: Global,
    sim: &mut Sim,
    events: &[Event],
) -> Result<Drafts, AllocError> {
    let mut drafts = Drafts::new(alloc, usize::from(sim.tasks()))?;
    for event in events {
        drafts.take_down(sim, *event);
        let _answer = sim.step(*event, &mut Unseen);
    }
    Ok(drafts)
}
