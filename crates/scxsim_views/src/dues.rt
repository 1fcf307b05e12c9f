use crate::quotas::{Quotas, add_share};
use scx_load_workloads::Workload;
use scx_weights::DueShares;
use std::alloc::{AllocError, Global};

/// The shares that are due to groups, and the quotas that they use.
#[derive(Drop)]
pub struct Dues {
    shares: DueShares,
    /// The sum of shares that were due to each group: one for each millisecond of each CPU that ran.
    due: Vec<u128>,
    quotas: Quotas,
    /// The milliseconds of CPUs that ran and whose shares aren't settled: those of the current millisecond, or under
    /// quotas of a stretch of time.
    busy: u64,
}

impl Dues {
    /// The dues before a run.
    pub fn new(alloc: Global, workload: &Workload) -> Result<Dues, AllocError> {
        Ok(Dues {
            shares: DueShares::new(alloc, workload.groups())?,
            due: vec![in alloc; 0u128; workload.groups().len()]?,
            quotas: Quotas::new(alloc, workload)?,
            busy: 0,
        })
    }

    /// The sum of shares that were due to each group, in parts of a millisecond as `DueShares` has them.
    pub fn due(&self) -> &[u128] {
        self.due.as_slice()
    }

    /// The quotas of a run that is over.
    pub fn into_quotas(self) -> Quotas {
        self.quotas
    }

    /// Charges the group of a task that a CPU ran for a millisecond.
    pub fn charge(&mut self, workload: &Workload, group: Option<u32>) {
        self.busy = self.busy.saturating_add(1);
        if let Some(group) = group {
            self.quotas.charge(workload.groups(), group);
        }
    }

    /// Adds the shares for the CPUs that ran in this millisecond. They depend on the tasks that were runnable then, so
    /// they are settled before a task sleeps.
    pub fn settle(&mut self) {
        if 0 < self.busy {
            self.shares.renew();
            self.add_due();
            self.busy = 0;
        }
    }

    /// Adds what is due by weights, or under quotas by weights and quotas.
    fn add_due(&mut self) {
        let due = self.due.as_mut_slice();
        if self.quotas.are_some() {
            self.quotas.share(self.shares.as_slice(), self.busy, due);
        } else {
            add_shares(due, self.shares.as_slice(), self.busy);
        }
    }

    /// A task of the group becomes runnable.
    pub fn activate(&mut self, group: u32) {
        self.end_stretch();
        self.shares.activate(group);
    }

    /// A task of the group isn't runnable any more.
    pub fn deactivate(&mut self, group: u32) {
        self.end_stretch();
        self.shares.deactivate(group);
    }

    /// Ends a stretch of time, before a weight or a group with runnable tasks changes.
    fn end_stretch(&mut self) {
        if self.quotas.are_some() {
            self.settle();
        }
    }

    /// The group has that weight from now on.
    pub fn weigh(&mut self, group: u32, weight: u32) {
        self.end_stretch();
        self.shares.weigh(group, weight);
        self.quotas.weigh(group, weight);
    }

    /// Ends a millisecond, as the clock comes to `clock`.
    pub fn pass(&mut self, clock: u64) {
        if !self.quotas.are_some() || self.quotas.begin_period(clock) {
            self.settle();
        }
        self.quotas.pass(clock);
    }

    /// Ends what goes on as the run ends at this clock.
    pub fn end(&mut self, clock: u64) {
        self.end_stretch();
        self.quotas.end(clock);
    }
}

/// Adds the shares of a millisecond in which `cpus` CPUs ran.
fn add_shares(due: &mut [u128], shares: &[u128], cpus: u64) {
    for (group, share) in shares.iter().enumerate() {
        add_share(due, group, share.saturating_mul(u128::from(cpus)));
    }
}
