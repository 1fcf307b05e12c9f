use crate::groups::Groups;
use crate::quotas::WHOLE;
use scx_load_workloads::Workload;
use scx_weights::MAX_DEPTH;
use scxsim_layout::{Grid, Layout, Scale};
use std::alloc::{AllocError, Global};

/// The most changes of weights that are kept.
const MOST_CHANGES: usize = 1024;

/// A group has another weight from that millisecond of the picture on.
#[derive(Clone, Copy)]
pub struct Reweighed {
    pub at: u64,
    pub group: u32,
    pub weight: u32,
}

/// A way in which tasks spend time.
#[derive(Clone, Copy)]
pub enum Spent {
    Running,
    Parked,
}

/// The time that each group ran and the time due to it by its weight, by steps.
///
/// A group with a runnable task gets a part of what is due to its parent, or of all that ran: its weight, divided by the
/// sum of the weights of all groups beside it that have a runnable task too. In a period of its quota no more than that is
/// due to it, and the groups beside it get what it leaves.
#[derive(Drop)]
pub struct Shares {
    groups: Groups,
    /// The number of CPUs that run.
    busy: u64,
    /// The milliseconds of CPUs that have passed since dues were added last.
    unpaid: u64,
    /// The millisecond of the window up to which this is known, and the end of its step, or the period that ends first.
    now: u64,
    end: u64,
    /// The millisecond at which the next period of a quota begins; the greatest number if no group has one.
    next_period: u64,
    /// The changes of weights in the picture, in their order.
    pub changes: Vec<Reweighed>,
    pub scale: Scale,
    /// The number of the picture's columns in a step.
    columns: u64,
    /// The time that ran, by strip and step, and last that of all groups.
    ran: Grid,
    /// The time that tasks were parked, by strip and step, where a group has a quota.
    parked: Grid,
    strips: usize,
    /// The time that was due, by strip and step.
    due: Vec<u64>,
}

impl Shares {
    /// The shares of groups without a runnable task.
    ///
    /// # Errors
    ///
    /// Memory ran out.
    pub fn new(alloc: Global, workload: &Workload, layout: &Layout) -> Result<Shares, AllocError> {
        let scale = layout.strip_scale();
        let steps = scale.columns as usize;
        let groups = Groups::new(alloc, workload, layout)?;
        let next_period = groups.next_period();
        let changes = Vec::with_capacity(alloc, MOST_CHANGES)?;
        let ran = Grid::new(alloc, layout.strips.saturating_add(1), steps)?;
        let limited = if next_period < u64::MAX {
            layout.strips
        } else {
            0
        };
        let parked = Grid::new(alloc, limited, steps)?;
        Ok(Shares {
            groups,
            busy: 0,
            unpaid: 0,
            now: 0,
            end: scale.step.min(next_period),
            next_period,
            changes,
            scale,
            columns: layout.strip_columns(),
            ran,
            parked,
            strips: layout.strips,
            due: vec![in alloc; 0; layout.strips.saturating_mul(steps)]?,
        })
    }

    /// Another task of the group is runnable.
    #[inline(always)]
    pub fn activate(&mut self, group: u32) {
        self.groups.change(group, true);
    }

    /// A task of the group is no longer runnable.
    #[inline(always)]
    pub fn deactivate(&mut self, group: u32) {
        self.groups.change(group, false);
    }

    /// The group has that weight from that moment on.
    pub fn weigh(&mut self, moment: u64, group: u32, weight: u32) {
        let at = self.scale.before(moment);
        if self.scale.has(moment) && self.changes.len() < MOST_CHANGES {
            // There is room for it.
            let _ = self.changes.push(Reweighed { at, group, weight });
        }
        self.groups.weigh(group, weight);
    }

    /// A CPU begins to run.
    pub fn begin(&mut self) {
        self.busy = self.busy.saturating_add(1);
    }

    /// A CPU stops running.
    pub fn stop(&mut self) {
        self.busy = self.busy.saturating_sub(1);
    }

    /// Time passes up to that moment.
    #[inline(always)]
    pub fn pass(&mut self, moment: u64) {
        let until = self.scale.before(moment);
        if until <= self.now || self.strips == 0 {
            return;
        }
        if self.groups.is_stale || until >= self.end {
            self.pass_steps(until);
        } else {
            self.pass_time(until);
        }
    }

    /// Time passes up to that millisecond of the window, and dues change or a step ends.
    fn pass_steps(&mut self, until: u64) {
        let first = self.now / self.scale.step.max(1);
        if self.groups.is_stale {
            self.pay(first);
            self.groups.renew();
        }
        for step in first..until.div_ceil(self.scale.step.max(1)) {
            self.pass_step(step, until);
        }
        let step = until / self.scale.step.max(1);
        let end = step.saturating_add(1).saturating_mul(self.scale.step);
        self.end = end.min(self.next_period);
    }

    /// The run ends at that moment.
    pub fn end(&mut self, moment: u64) {
        self.pass(moment);
        self.pay(self.now / self.scale.step.max(1));
    }

    /// Time passes up to the end of a step, or to that millisecond of the window.
    fn pass_step(&mut self, step: u64, until: u64) {
        let end = step.saturating_add(1).saturating_mul(self.scale.step);
        self.pass_periods(step, end.min(until));
        self.pass_time(end.min(until));
        if self.now == end || end >= self.scale.length() {
            self.pay(step);
        }
    }

    /// Time passes up to that millisecond of the window, with the same shares.
    #[inline(always)]
    fn pass_time(&mut self, until: u64) {
        let passed = until.saturating_sub(self.now);
        self.unpaid = self.unpaid.saturating_add(self.busy.saturating_mul(passed));
        self.now = until;
    }

    /// Time passes in a step up to the last period of a quota that begins before that millisecond.
    fn pass_periods(&mut self, step: u64, until: u64) {
        for _ in self.now..until {
            if self.next_period >= until {
                break;
            }
            self.pass_time(self.next_period);
            self.pay(step);
            self.groups.begin_periods(self.now);
            self.next_period = self.groups.next_period();
        }
    }

    /// Adds the time due to all groups since dues were added last to a step.
    fn pay(&mut self, step: u64) {
        if self.unpaid == 0 {
            return;
        }
        if self.has_quotas() {
            let ran = WHOLE.saturating_mul(self.unpaid);
            self.groups.share_within_quotas(ran);
            self.add_amounts(step);
        } else {
            self.add_shares(step);
        }
        self.unpaid = 0;
    }

    /// Adds the time due to all groups by their weights.
    fn add_shares(&mut self, step: u64) {
        for group in &self.groups.all {
            if let Some(strip) = group.strip {
                let place = place_of(self.scale, strip, step);
                if let Some(due) = self.due.get_mut(place) {
                    *due = due.saturating_add(group.share.saturating_mul(self.unpaid));
                }
            }
        }
    }

    /// Adds the time due to all groups by their weights and quotas.
    fn add_amounts(&mut self, step: u64) {
        for group in &self.groups.all {
            if let Some(strip) = group.strip {
                let place = place_of(self.scale, strip, step);
                if let Some(due) = self.due.get_mut(place) {
                    *due = due.saturating_add(group.amount);
                }
            }
        }
    }

    /// True if there are strips, so that times have to be added.
    pub fn has_strips(&self) -> bool {
        self.strips > 0
    }

    /// Adds the times in a row of columns, which shows tasks of a group.
    pub fn add_row(&mut self, grid: &Grid, row: usize, group: u32, spent: Spent) {
        for step in 0..self.scale.columns {
            let first = step.saturating_mul(self.columns);
            let ms = grid.sum_of(row, first, first.saturating_add(self.columns));
            if ms > 0 {
                self.add_spent(group, step, ms, spent);
            }
        }
    }

    /// Adds the time between two moments, which a task of a group spent.
    pub fn add_time(&mut self, group: u32, since: u64, until: u64, spent: Spent) {
        let first = self.scale.mark(since);
        let last = self.scale.mark(until);
        for step in first.column..last.column.saturating_add(1) {
            let ms = self.scale.overlap(step, since, until);
            self.add_spent(group, step, ms, spent);
        }
    }

    /// Adds time in a step to a group and to those that it lies in. All run time is added up too.
    fn add_spent(&mut self, group: u32, step: u64, ms: u64, spent: Spent) {
        if let Spent::Running = spent {
            self.ran.add_at(self.strips, step, ms);
        }
        let mut at = Some(group);
        for _ in 0..MAX_DEPTH {
            at = self.add_to_one(at, step, ms, spent);
        }
    }

    /// Adds time in a step to one group, and returns its parent.
    fn add_to_one(&mut self, group: Option<u32>, step: u64, ms: u64, spent: Spent) -> Option<u32> {
        let group = self.groups.all.get(group? as usize)?;
        let parent = group.parent;
        if let Some(strip) = group.strip {
            match spent {
                Spent::Running => self.ran.add_at(strip, step, ms),
                Spent::Parked => self.parked.add_at(strip, step, ms),
            }
        }
        parent
    }

    /// The milliseconds that tasks of a strip's groups were parked in a step.
    pub fn parked(&self, strip: usize, step: u64) -> u64 {
        self.parked.sum(strip, step)
    }

    /// The milliseconds that the groups of a strip ran in a step.
    pub fn ran(&self, strip: usize, step: u64) -> u64 {
        self.ran.sum(strip, step)
    }

    /// The milliseconds that all groups ran in a step.
    pub fn all(&self, step: u64) -> u64 {
        self.ran.sum(self.strips, step)
    }

    /// The milliseconds of a step.
    pub fn length(&self, step: u64) -> u64 {
        let begin = step.saturating_mul(self.scale.step);
        let end = begin.saturating_add(self.scale.step);
        end.min(self.scale.length()).saturating_sub(begin)
    }

    /// The time that a group's quota allows in that many milliseconds on average, in thousandths of a millisecond, if it
    /// has a quota.
    pub fn cap(&self, group: u32, ms: u64) -> Option<u64> {
        let allowance = self.groups.all.get(group as usize)?.allowance?;
        Some(allowance.average(ms))
    }

    /// True if a group has a quota.
    pub fn has_quotas(&self) -> bool {
        self.next_period < u64::MAX
    }

    /// The time due in a step, in parts of a millisecond.
    pub fn due(&self, strip: usize, step: u64) -> u64 {
        match self.due.get(place_of(self.scale, strip, step)) {
            Some(due) => *due,
            None => 0,
        }
    }
}

/// The place of the time due to a strip in a step.
fn place_of(scale: Scale, strip: usize, step: u64) -> usize {
    strip
        .saturating_mul(scale.columns as usize)
        .saturating_add(step as usize)
}
