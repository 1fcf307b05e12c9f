use crate::waiters::Waiters;
use scxsim_layout::{Grid, Layout, Mark, Scale};
use std::alloc::{AllocError, Global};

/// The time that counts while a CPU is idle.
#[derive(Clone, Copy)]
pub(crate) enum Counted {
    /// A task waits.
    Waits,
    /// Tasks are parked, as a quota is used up, and none waits.
    UsedUp,
}

/// A CPU is idle.
#[derive(Clone, Copy)]
struct Idle {
    /// The time that counts before that began, and its column.
    counted: u64,
    column: u64,
}

/// The time that counts, for all CPUs or for each, and the beginning of each CPU's idle time.
#[derive(Drop)]
pub(crate) struct Idles {
    kind: Counted,
    cpus: Vec<Option<Idle>>,
    /// The milliseconds so far that count.
    counted: Vec<u64>,
    /// Those milliseconds up to the end of each earlier column: of all columns, for all CPUs or for one after another.
    ends: Vec<u64>,
    columns: usize,
    /// The millisecond of the window up to which this is known, and its column.
    now: u64,
    column: u64,
}

impl Idles {
    /// All CPUs are idle, and no time has passed.
    pub(crate) fn new(
        alloc: Global,
        kind: Counted,
        cpus: usize,
        columns: usize,
        waiters: &Waiters,
    ) -> Result<Idles, AllocError> {
        let idle = Some(Idle {
            counted: 0,
            column: 0,
        });
        let watches = waiters.watches();
        Ok(Idles {
            kind,
            cpus: vec![in alloc; idle; cpus]?,
            counted: vec![in alloc; 0; watches]?,
            ends: vec![in alloc; 0; watches.saturating_mul(columns)]?,
            columns,
            now: 0,
            column: 0,
        })
    }

    /// Time passes, in which these tasks wait and are parked.
    #[inline(always)]
    pub(crate) fn pass(&mut self, scale: Scale, to: Mark, waiters: &Waiters) {
        if to.column != self.column {
            self.end_columns(scale, to.column, waiters);
        }
        self.add_time(scale.before(to.moment), waiters);
    }

    /// The time up to that millisecond of the window passes.
    #[inline(always)]
    fn add_time(&mut self, before: u64, waiters: &Waiters) {
        let passed = before.saturating_sub(self.now);
        let kind = self.kind;
        let mut watch = 0usize;
        for counted in self.counted.iter_mut() {
            if counts(kind, waiters, watch) {
                *counted = counted.saturating_add(passed);
            }
            watch = watch.saturating_add(1);
        }
        self.now = before;
    }

    /// All columns before that one end.
    fn end_columns(&mut self, scale: Scale, next: u64, waiters: &Waiters) {
        for column in self.column..next {
            self.add_time(column.saturating_add(1).saturating_mul(scale.step), waiters);
            self.end_column(column);
        }
        self.column = next;
    }

    /// A column ends now.
    fn end_column(&mut self, column: u64) {
        let mut place = column as usize;
        for counted in &self.counted {
            if let Some(end) = self.ends.get_mut(place) {
                *end = *counted;
            }
            place = place.saturating_add(self.columns);
        }
    }

    /// A CPU becomes idle.
    pub(crate) fn stop(&mut self, cpu: u32) {
        let idle = Idle {
            counted: self.counted_for(cpu as usize),
            column: self.column,
        };
        if let Some(place) = self.cpus.get_mut(cpu as usize) {
            *place = Some(idle);
        }
    }

    /// A CPU runs. Adds the time that counts of its idle time.
    pub(crate) fn run(&mut self, layout: &Layout, grid: &mut Grid, cpu: u32) {
        self.add(layout, grid, cpu as usize);
        if let Some(place) = self.cpus.get_mut(cpu as usize) {
            *place = None;
        }
    }

    /// The run ends. Adds the time that counts of the idle time of idle CPUs.
    pub(crate) fn end(&self, layout: &Layout, grid: &mut Grid) {
        for cpu in 0..self.cpus.len() {
            self.add(layout, grid, cpu);
        }
    }

    /// Adds the time that counts of the idle time of a CPU, if it is idle.
    fn add(&self, layout: &Layout, grid: &mut Grid, cpu: usize) {
        let Some(Some(idle)) = self.cpus.get(cpu).copied() else {
            return;
        };
        if idle.counted < self.counted_for(cpu) {
            self.add_columns(grid, layout.cpu_row(cpu), cpu, idle);
        }
    }

    fn add_columns(&self, grid: &mut Grid, row: usize, cpu: usize, idle: Idle) {
        let first = self.watch(cpu).saturating_mul(self.columns);
        let mut from = idle.counted;
        for column in idle.column..self.column {
            let place = first.saturating_add(column as usize);
            let end = self.ends.get(place).copied().unwrap_or(from);
            grid.add_at(row, column, end.saturating_sub(from));
            from = end;
        }
        grid.add_at(row, self.column, self.counted_for(cpu).saturating_sub(from));
    }

    /// The place of the time that counts for a CPU.
    fn watch(&self, cpu: usize) -> usize {
        if self.counted.len() == 1 { 0 } else { cpu }
    }

    /// The time so far that counts for a CPU.
    fn counted_for(&self, cpu: usize) -> u64 {
        match self.counted.get(self.watch(cpu)) {
            Some(counted) => *counted,
            None => 0,
        }
    }
}

/// True if the time counts that passes now.
#[inline(always)]
fn counts(kind: Counted, waiters: &Waiters, watch: usize) -> bool {
    match kind {
        Counted::Waits => waiters.some_wait(watch),
        Counted::UsedUp => waiters.are_only_parked(watch),
    }
}
