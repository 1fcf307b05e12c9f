use crate::group_shares::GroupShare;
use crate::quotas::{Allowance, WHOLE};
use scx_load_workloads::Workload;
use scx_weights::MAX_DEPTH;
use scxsim_layout::Layout;
use std::alloc::{AllocError, Global};

/// The groups of a workload, and what is due to each. A group comes after its parent.
#[derive(Drop)]
pub(crate) struct Groups {
    pub(crate) all: Vec<GroupShare>,
    /// The first group without a parent.
    first: Option<u32>,
    /// The sum of the weights of active groups without a parent, and then of those in each group.
    sums: Vec<u64>,
    /// True if shares are those of earlier weights.
    pub(crate) is_stale: bool,
}

impl Groups {
    /// The groups of a workload, none of which has a runnable task.
    pub(crate) fn new(
        alloc: Global,
        workload: &Workload,
        layout: &Layout,
    ) -> Result<Groups, AllocError> {
        let count = workload.groups().len();
        let all = shares_of(alloc, workload, layout)?;
        let mut groups = Groups {
            all,
            first: None,
            sums: vec![in alloc; 0; count.saturating_add(1)]?,
            is_stale: false,
        };
        for place in (0..count).rev() {
            groups.link(place);
        }
        Ok(groups)
    }

    /// Puts a group before the others with its parent.
    fn link(&mut self, place: usize) {
        let Some(group) = self.all.get(place).copied() else {
            return;
        };
        let next = self.first_in(group.parent);
        if let Some(group) = self.all.get_mut(place) {
            group.next = next;
        }
        let first = u32::try_from(place).ok();
        match group.parent {
            None => self.first = first,
            Some(parent) => {
                if let Some(parent) = self.all.get_mut(parent as usize) {
                    parent.first = first;
                }
            }
        }
    }

    /// The first group with that parent.
    fn first_in(&self, parent: Option<u32>) -> Option<u32> {
        match parent {
            None => self.first,
            Some(parent) => self.all.get(parent as usize)?.first,
        }
    }

    /// One task of a group more is runnable, or one less. The groups that it lies in change with it.
    #[inline(always)]
    pub(crate) fn change(&mut self, group: u32, is_more: bool) {
        let mut at = Some(group);
        for _ in 0..MAX_DEPTH {
            at = self.change_one(at, is_more);
        }
    }

    /// One more in a group is active, or one less. Returns its parent, if that changes whether the group is active.
    #[inline(always)]
    fn change_one(&mut self, group: Option<u32>, is_more: bool) -> Option<u32> {
        let group = self.all.get_mut(group? as usize)?;
        if !group.change(is_more) {
            return None;
        }
        let parent = group.parent;
        self.is_stale = true;
        parent
    }

    /// The group has that weight from now on.
    pub(crate) fn weigh(&mut self, group: u32, weight: u32) {
        self.is_stale = true;
        if let Some(group) = self.all.get_mut(group as usize) {
            group.weight = weight;
        }
    }

    /// The millisecond at which the next period of a quota begins; the greatest number if no group has one.
    pub(crate) fn next_period(&self) -> u64 {
        let mut next = u64::MAX;
        for group in &self.all {
            if let Some(allowance) = group.allowance {
                next = next.min(allowance.next);
            }
        }
        next
    }

    /// Begins the periods of quotas up to that millisecond.
    pub(crate) fn begin_periods(&mut self, now: u64) {
        for group in self.all.iter_mut() {
            if let Some(allowance) = &mut group.allowance {
                allowance.begin(now);
            }
        }
    }

    /// Renews the shares by weight, of groups with a runnable task.
    pub(crate) fn renew(&mut self) {
        self.is_stale = false;
        self.renew_sums();
        for place in 0..self.all.len() {
            self.renew_share(place);
        }
    }

    fn renew_sums(&mut self) {
        for sum in self.sums.iter_mut() {
            *sum = 0;
        }
        for group in &self.all {
            if 0 < group.active {
                if let Some(sum) = self.sums.get_mut(place_in(group.parent)) {
                    *sum = sum.saturating_add(u64::from(group.weight));
                }
            }
        }
    }

    /// Renews the share of a group whose parent has its share.
    fn renew_share(&mut self, place: usize) {
        let Some(group) = self.all.get(place).copied() else {
            return;
        };
        let weight = if 0 < group.active { group.weight } else { 0 };
        let share = part(
            self.share_of(group.parent),
            weight,
            self.sum_at(group.parent),
        );
        if let Some(group) = self.all.get_mut(place) {
            group.share = share;
            group.active_weight = u64::from(weight);
        }
    }

    /// The share of a group, or of all of them.
    fn share_of(&self, group: Option<u32>) -> u64 {
        match group {
            None => WHOLE,
            Some(group) => match self.all.get(group as usize) {
                Some(group) => group.share,
                None => 0,
            },
        }
    }

    fn sum_at(&self, parent: Option<u32>) -> u64 {
        match self.sums.get(place_in(parent)) {
            Some(sum) => *sum,
            None => 0,
        }
    }

    /// Finds the amounts that are due to the groups of all that ran: by weight, but none is due more than its quota allows,
    /// nor more than the groups within it can take. What it leaves is due to the groups beside it.
    pub(crate) fn share_within_quotas(&mut self, ran: u64) {
        self.find_rooms(ran);
        self.share_out(self.first, ran);
        for place in 0..self.all.len() {
            let Some(group) = self.all.get_mut(place) else {
                return;
            };
            group.use_allowance();
            let first = group.first;
            let amount = group.amount;
            self.share_out(first, amount);
        }
    }

    /// Finds the most that can be due to each group of an amount. The last group comes first, as groups come after their
    /// parents.
    fn find_rooms(&mut self, amount: u64) {
        for group in self.all.iter_mut() {
            group.room = group.own_room(amount);
            group.inner = None;
        }
        for place in (0..self.all.len()).rev() {
            let Some(group) = self.all.get_mut(place) else {
                return;
            };
            group.room = group.room.min(group.inner.unwrap_or(amount));
            let room = group.room;
            let parent = group.parent;
            self.add_room(parent, room);
        }
    }

    /// Adds the room of a group to that within its parent.
    fn add_room(&mut self, parent: Option<u32>, room: u64) {
        let Some(parent) = parent else {
            return;
        };
        if let Some(parent) = self.all.get_mut(parent as usize) {
            parent.inner = Some(parent.inner.unwrap_or(0).saturating_add(room));
        }
    }

    /// Shares an amount out among a group and the next ones with the same parent: by weight, and to none more than it has
    /// room for.
    fn share_out(&mut self, first: Option<u32>, amount: u64) {
        let level = self.level_of(first, amount);
        let mut at = first;
        for _ in 0..self.all.len() {
            let Some(group) = at else {
                break;
            };
            at = self.take_at(group, level);
        }
    }

    /// Keeps the amount that a group takes at a level. Returns the next group with the same parent.
    fn take_at(&mut self, group: u32, level: u64) -> Option<u32> {
        let group = self.all.get_mut(group as usize)?;
        group.amount = group.taken_at(level);
        group.next
    }

    /// The lowest level at which groups take all of an amount, or at which all are full.
    fn level_of(&self, first: Option<u32>, amount: u64) -> u64 {
        let mut level = 0u64;
        for _ in 0..self.all.len().saturating_add(1) {
            let step = self.step_from(first, amount, level);
            if step == 0 {
                break;
            }
            level = level.saturating_add(step);
        }
        level
    }

    /// The step from a level to the next that may be enough; 0 if that level is.
    fn step_from(&self, first: Option<u32>, amount: u64, level: u64) -> u64 {
        let mut left = amount;
        let mut open = 0u64;
        let mut at = first;
        for _ in 0..self.all.len() {
            let Some(group) = self.group(at) else {
                break;
            };
            left = left.saturating_sub(group.taken_at(level));
            open = open.saturating_add(group.open_weight(level));
            at = group.next;
        }
        if open == 0 { 0 } else { left.div_ceil(open) }
    }

    fn group(&self, number: Option<u32>) -> Option<&GroupShare> {
        self.all.get(number? as usize)
    }
}

fn shares_of(
    alloc: Global,
    workload: &Workload,
    layout: &Layout,
) -> Result<Vec<GroupShare>, AllocError> {
    let mut shares = Vec::with_capacity(alloc, workload.groups().len())?;
    let mut number = 0u32;
    for group in workload.groups() {
        shares.push(GroupShare {
            parent: group.parent,
            next: None,
            first: None,
            weight: group.weight,
            active: 0,
            share: 0,
            active_weight: 0,
            allowance: Allowance::of(group, layout.scale.from),
            room: 0,
            inner: None,
            amount: 0,
            strip: layout.strip(number),
        })?;
        number = number.saturating_add(1);
    }
    Ok(shares)
}

/// The place of the sum of the weights of the groups with this parent.
fn place_in(parent: Option<u32>) -> usize {
    match parent {
        None => 0,
        Some(group) => (group as usize).saturating_add(1),
    }
}

/// The part of a whole that a weight has of a sum of weights.
fn part(whole: u64, weight: u32, sum: u64) -> u64 {
    if sum == 0 {
        return 0;
    }
    whole.saturating_mul(u64::from(weight)) / sum
}
