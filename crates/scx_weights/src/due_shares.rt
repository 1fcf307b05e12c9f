ghost use Rattle.std.specs.Prelude.{◌≡◌, ◌≤◌};
ghost use Rattle.scx_weights.specs.DueParts.{part};

use crate::Group;
use crate::group_paths::path_of;
use std::alloc::{AllocError, Global};

/// A share of all, in parts of this many. A share is rounded up, by less than one part for each level of the tree,
/// so that sums of shares that are exact to the last digit printed aren't written as less.
pub const WHOLE: u128 = 10_000_000_000_000_000_000_000_000_000;

/// The share that is due to each group by its weight.
///
/// A group with a runnable task gets a part of its parent's share, or of the whole at the top: its weight over
/// the sum of the weights of those beside it that have a runnable task, itself included.
#[derive(Drop)]
pub struct DueShares {
    groups: Vec<Group>,
    /// The number of runnable tasks in each group and in those below it.
    active: Vec<u32>,
    shares: Vec<u128>,
    /// The sum of the weights of active groups at the top, and then of those in each group.
    sums: Vec<u64>,
    is_stale: bool,
}

impl DueShares {
    /// The shares of groups in which nobody is runnable.
    ///
    /// # Errors
    ///
    /// Memory runs out.
    pub fn new(alloc: Global, groups: &[Group]) -> Result<DueShares, AllocError> {
        let count = groups.len();
        let mut copied = Vec::with_capacity(alloc, count)?;
        copied.extend_from_slice(groups)?;
        Ok(DueShares {
            groups: copied,
            active: vec![in alloc; 0; count]?,
            shares: vec![in alloc; 0; count]?,
            sums: vec![in alloc; 0; count.saturating_add(1)]?,
            is_stale: false,
        })
    }

    /// Another task of the group is runnable.
    pub fn activate(&mut self, group: u32) {
        self.change(group, 1, 0);
    }

    /// A task of the group is no longer runnable.
    pub fn deactivate(&mut self, group: u32) {
        self.change(group, 0, 1);
    }

    /// Counts tasks that became runnable or stopped being so in a group, and in those that it lies in.
    fn change(&mut self, group: u32, more: u32, less: u32) {
        self.is_stale = true;
        for level in &path_of(self.groups.as_slice(), group) {
            self.change_one(*level, more, less);
        }
    }

    fn change_one(&mut self, group: Option<u32>, more: u32, less: u32) {
        let Some(group) = group else {
            return;
        };
        if let Some(active) = self.active.get_mut(group as usize) {
            *active = active.saturating_add(more).saturating_sub(less);
        }
    }

    /// The group has that weight from now on.
    pub fn weigh(&mut self, group: u32, weight: u32) {
        self.is_stale = true;
        if let Some(group) = self.groups.get_mut(group as usize) {
            group.weight = weight;
        }
    }

    /// True if a task became runnable or stopped being so, or a weight changed, since the shares were last
    /// renewed.
    pub fn are_stale(&self) -> bool {
        let is_stale = self.is_stale;
        is_stale
    }

    /// The shares as of the last time that they were renewed, in parts of `WHOLE`.
    pub fn as_slice(&self) -> &[u128] {
        self.shares.as_slice()
    }

    /// Makes the shares those of the weights and runnable tasks as they are now, where they are stale.
    pub fn renew(&mut self) {
        if self.is_stale {
            self.is_stale = false;
            self.renew_sums();
            self.renew_shares();
        }
    }

    /// A group comes after its parent, so the parent has its share by then.
    fn renew_shares(&mut self) {
        for group in 0..self.groups.len() {
            let share = self.share_now(group);
            if let Some(kept) = self.shares.get_mut(group) {
                *kept = share;
            }
        }
    }

    fn renew_sums(&mut self) {
        for sum in self.sums.iter_mut() {
            *sum = 0;
        }
        for (group, active) in self.groups.iter().zip(&self.active) {
            if 0 < *active {
                if let Some(sum) = self.sums.get_mut(place(group.parent)) {
                    *sum = sum.saturating_add(u64::from(group.weight));
                }
            }
        }
    }

    /// The share of a group whose parent has its share.
    fn share_now(&self, group: usize) -> u128 {
        match (self.groups.get(group), self.active.get(group)) {
            (Some(group), Some(active)) if 0 < *active => {
                part(
                    self.share_of(group.parent),
                    group.weight,
                    self.sum_at(group.parent),
                )
            }
            _ => 0,
        }
    }

    /// The share of a group, or of all of them.
    fn share_of(&self, group: Option<u32>) -> u128
        ensures { result ≤ WHOLE }
    {
        match group {
            None => WHOLE,
            Some(group) => match self.shares.get(group as usize) {
                Some(share) => (*share).min(WHOLE),
                None => 0,
            },
        }
    }

    fn sum_at(&self, parent: Option<u32>) -> u64 {
        match self.sums.get(place(parent)) {
            Some(sum) => *sum,
            None => 0,
        }
    }
}

/// The index of the sum of the weights of the groups with this parent.
fn place(parent: Option<u32>) -> usize {
    match parent {
        None => 0,
        Some(group) => (group as usize).saturating_add(1),
    }
}

/// The part of a whole that a weight has of a sum of weights, rounded up; 0 where that sum is.
fn part(whole: u128, weight: u32, sum: u64) -> u128
    requires { whole ≤ WHOLE }
    ensures { result ≡ part whole weight sum }
{
    if sum == 0 {
        return 0;
    }
    let sum = u128::from(sum);
    (whole * u128::from(weight) + (sum - 1)) / sum
}
