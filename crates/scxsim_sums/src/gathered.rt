use crate::activities::{Doing, Instant, Stay};
use crate::bars::{Bar, Bars};
use crate::longest_waits::{Longest, Wait};
use crate::queues::{DrawnQueues, Queue};
use crate::spent_times::add_spent_times;
use crate::sums::Sums;
use scx_load_workloads::Workload;
use scx_sched::What;
use scxsim_commands::Ejection;
use scxsim_layout::{Layout, Mark, TaskPlace};
use scxsim_shares::Shares;
use std::alloc::{AllocError, Global};

/// The sums, bars and shares of a picture.
#[derive(Drop)]
pub struct Gathered {
    pub layout: Layout,
    pub sums: Sums,
    pub bars: Bars,
    pub queues: DrawnQueues,
    pub shares: Shares,
    pub longest: Longest,
    pub ejection: Option<Ejection>,
}

/// A task did one thing between two moments: the milliseconds of it in the picture, and the task's row.
#[derive(Clone, Copy)]
struct Piece {
    task: u16,
    since: Mark,
    until: Mark,
    ms: u64,
    place: TaskPlace,
}

impl Gathered {
    /// No sums yet, in that layout.
    pub(crate) fn new(
        alloc: Global,
        workload: &Workload,
        layout: Layout,
    ) -> Result<Gathered, AllocError> {
        let rows = layout.rows.len();
        let columns = layout.scale.columns as usize;
        let cpus = layout.cpu_row(workload.cpus() as usize).saturating_add(1);
        let sums = Sums::new(alloc, rows, cpus, columns, layers_of_area(&layout))?;
        let bars = Bars::new(alloc, rows)?;
        let queues = DrawnQueues::new(alloc)?;
        let shares = Shares::new(alloc, workload, &layout)?;
        Ok(Gathered {
            layout,
            sums,
            bars,
            queues,
            shares,
            longest: Longest::new(alloc)?,
            ejection: None,
        })
    }

    /// Adds what a task did up to that moment.
    #[inline(always)]
    pub(crate) fn add(&mut self, task: u16, stay: Stay, until: Mark) {
        let since = stay.since;
        let ms = self.layout.scale.within(since.moment, until.moment);
        let Some(place) = self.layout.task(task) else {
            return;
        };
        let piece = Piece {
            task,
            since,
            until,
            ms,
            place,
        };
        if ms > 0 {
            self.add_piece(piece, stay.doing);
        }
    }

    #[inline(always)]
    fn add_piece(&mut self, piece: Piece, doing: Doing) {
        match doing {
            Doing::Runs(cpu) => {
                if self.layout.folding.has_area {
                    self.add_to_area(piece);
                } else {
                    self.add_cpu_run(piece, cpu);
                }
                self.add_run(piece, doing);
            }
            Doing::Waits(queue) => self.add_wait(piece, queue),
        }
    }

    /// Keeps a run in the area of all CPUs.
    #[inline(always)]
    fn add_to_area(&mut self, piece: Piece) {
        let layer = self.layout.layer(piece.place);
        let scale = self.layout.scale;
        self.sums.add_run(0, piece.ms);
        self.sums.area.add(layer, scale, piece.since, piece.until);
    }

    /// Keeps a run in the row of its CPU, as a bar or in columns.
    #[inline(always)]
    fn add_cpu_run(&mut self, piece: Piece, cpu: u32) {
        let row = self.layout.cpu_row(cpu as usize);
        self.sums.add_run(row, piece.ms);
        if piece.ms >= self.layout.least && self.keep_bar(row, piece, Doing::Runs(cpu)) {
            return;
        }
        let Piece { since, until, .. } = piece;
        let scale = self.layout.scale;
        self.sums.ran.add(row, scale, since, until);
        self.sums
            .shades
            .add(row, scale, since, until, piece.place.colour);
    }

    /// Keeps a run in the row of its task, as a bar or in columns.
    #[inline(always)]
    fn add_run(&mut self, piece: Piece, doing: Doing) {
        let row = piece.place.row;
        self.sums.add_run(row, piece.ms);
        if piece.ms >= self.layout.least && self.keep_bar(row, piece, doing) {
            return;
        }
        let scale = self.layout.scale;
        self.sums.ran.add(row, scale, piece.since, piece.until);
    }

    /// Keeps a wait in the row of its task, as a bar or in columns.
    #[inline(always)]
    fn add_wait(&mut self, piece: Piece, queue: Queue) {
        let row = piece.place.row;
        if piece.ms >= self.layout.least && self.keep_bar(row, piece, Doing::Waits(queue)) {
            self.queues.draw(queue);
        } else {
            self.add_short_wait(piece, queue);
        }
    }

    /// Keeps a wait that is no bar.
    fn add_short_wait(&mut self, piece: Piece, queue: Queue) {
        let Piece { since, until, .. } = piece;
        let row = piece.place.row;
        let scale = self.layout.scale;
        if queue.is_parked() {
            self.queues.parked = true;
            self.sums.parked.add(row, scale, since, until);
        } else {
            self.queues.short = true;
            self.sums.waited.add(row, scale, since, until);
        }
    }

    /// Keeps a bar, if its row has bars and there is room. Returns whether it did.
    fn keep_bar(&mut self, row: usize, piece: Piece, doing: Doing) -> bool {
        let colour = match doing {
            Doing::Runs(_) => piece.place.colour,
            Doing::Waits(_) => 0,
        };
        self.layout.has_bars(row)
            && self.bars.push(Bar {
                row,
                task: piece.task,
                doing,
                since: piece.since.moment,
                until: piece.until.moment,
                colour,
            })
    }

    /// A task waits no more from that moment on, if it has waited since another one.
    #[inline(always)]
    pub(crate) fn end_wait(&mut self, task: u16, since: Option<Instant>, until: Instant) {
        let Some(since) = since else {
            return;
        };
        if since.moment < until.moment || since.clock < until.clock {
            self.add_whole_wait(task, since, until);
        }
    }

    /// Adds a wait to the time of its row by the clock, and to the longest ones.
    fn add_whole_wait(&mut self, task: u16, since: Instant, until: Instant) {
        let Some(wait) = Wait::within(self.layout.scale, task, since, until) else {
            return;
        };
        if let Some(place) = self.layout.task(task) {
            self.sums.add_wait(place.row, wait.length);
        }
        self.longest.end(self.layout.scale, wait);
    }

    /// A task is runnable from now on.
    pub(crate) fn wake(&mut self, task: u16, moment: u64) {
        let Some(place) = self.layout.task(task) else {
            return;
        };
        self.shares.activate(place.home);
        if self.layout.has_bars(place.row) {
            self.bars.wake(place.row, self.layout.scale, moment);
        }
    }

    /// A task is no longer runnable.
    pub(crate) fn sleep(&mut self, task: u16) {
        if let Some(place) = self.layout.task(task) {
            self.shares.deactivate(place.home);
        }
    }

    /// Keeps a new weight, or an ejection.
    pub(crate) fn note(&mut self, moment: u64, what: What) {
        if let What::Weight(group, weight) = what {
            self.shares.weigh(moment, group, weight);
        }
        if let What::Stall(task) = what {
            self.longest.stall(task, moment);
        }
        if let Some(ejection) = Ejection::of(moment, what) {
            self.ejection = Some(ejection);
        }
    }

    /// Adds the idle times of CPUs to the area of all of them, if there is one.
    pub(crate) fn end_area(&mut self) {
        if self.layout.folding.has_area {
            let columns = self.layout.scale.columns;
            self.sums.add_idle_layers(columns, self.layout.layers());
        }
    }

    /// The run is over, at that moment.
    pub(crate) fn end(&mut self, moment: u64, homes: &[u32]) {
        self.shares.end(moment);
        add_spent_times(
            &mut self.shares,
            &self.layout,
            homes,
            &self.sums,
            &self.bars,
        );
    }
}

/// The number of layers in the area of all CPUs, with those of idle times; none if there is no area.
fn layers_of_area(layout: &Layout) -> usize {
    if layout.folding.has_area {
        layout.layers().saturating_add(2)
    } else {
        0
    }
}
