ghost use Rattle.std.specs.Prelude.{◌≡◌, suc, length};
ghost use Rattle.scxsim_views.specs.Claims.{room_of, family_of, all_roomy, roomy, claims_in, stretch, AreLevels, more_at, with_dues};

use crate::claims::{Claim, due_to, find_levels, narrow};
use scx_load_workloads::Workload;
use scx_weights::{Group, WHOLE, path_of};
use std::alloc::{AllocError, Global};

/// The figures of the quota of a group, if it has one.
#[derive(Clone, Copy)]
pub struct QuotaFigures {
    pub quota_ms: Option<u32>,
    pub period_ms: u32,
    /// The milliseconds that tasks of the group and of groups below it ran in the current period.
    used: u64,
    /// The time that was due to it in the current period, in parts of `WHOLE` of a millisecond.
    due: u128,
    /// The most milliseconds that they ran in a period.
    pub most: u64,
    /// The number of periods, and of those in which the quota was used up.
    pub periods: u64,
    pub throttled_periods: u64,
    /// The milliseconds by the clock in which it was used up.
    pub throttled: u64,
}

impl QuotaFigures {
    /// Ends a millisecond, as the clock comes to `clock`.
    fn pass(&mut self, clock: u64) {
        if self.is_used_up() {
            self.throttled = self.throttled.saturating_add(1);
        }
        if self.begins_period(clock) {
            self.end_period();
        }
    }

    /// Ends a period that has begun, as the run ends at this clock.
    fn end(&mut self, clock: u64) {
        if !self.begins_period(clock) {
            self.end_period();
        }
    }

    fn is_used_up(&self) -> bool {
        match self.quota_ms {
            Some(quota) => u64::from(quota) <= self.used,
            None => false,
        }
    }

    fn begins_period(&self, clock: u64) -> bool {
        clock % u64::from(self.period_ms.max(1)) == 0
    }

    /// The most that can be due to the group of what ran: no more than its quota still lets through.
    fn room(&self, is_active: bool, ran: u128) -> u128
        ensures { result ≡ room_of is_active self.now.quota_ms self.now.due ran }
    {
        if !is_active {
            return 0;
        }
        match self.quota_ms {
            Some(quota) => ran.min((u128::from(quota) * WHOLE).saturating_sub(self.due)),
            None => ran,
        }
    }

    fn end_period(&mut self) {
        self.periods = self.periods.saturating_add(1);
        self.most = self.most.max(self.used);
        if self.is_used_up() {
            self.throttled_periods = self.throttled_periods.saturating_add(1);
        }
        self.used = 0;
        self.due = 0;
    }
}

/// The figures of the quotas of all groups.
#[derive(Drop)]
pub struct Quotas {
    pub groups: Vec<QuotaFigures>,
    /// True if a group has a quota. If none has one, nothing is counted.
    are_some: bool,
    /// The part of each group in a stretch of time, and the levels of all families.
    claims: Vec<Claim>,
    levels: Vec<u128>,
    ghost levels_fit: { length levels.items ≡ suc (length claims.items) },
}

impl Quotas {
    /// The quotas before a run.
    pub(crate) fn new(alloc: Global, workload: &Workload) -> Result<Quotas, AllocError> {
        let mut groups = Vec::with_capacity(alloc, workload.groups().len())?;
        for group in workload.groups() {
            groups.push(QuotaFigures {
                quota_ms: group.quota_ms,
                period_ms: group.period_ms,
                used: 0,
                due: 0,
                most: 0,
                periods: 0,
                throttled_periods: 0,
                throttled: 0,
            })?;
        }
        let are_some = groups.iter().any(|group| group.quota_ms.is_some());
        let claims = claims_of(alloc, workload.groups())?;
        let levels = vec![in alloc; 0u128; claims.len() + 1]?;
        Ok(Quotas {
            groups,
            are_some,
            claims,
            levels,
        })
    }

    /// True if a group has a quota.
    pub fn are_some(&self) -> bool {
        let are_some = self.are_some;
        are_some
    }

    /// Counts a millisecond that a task of the group ran.
    pub(crate) fn charge(&mut self, groups: &[Group], group: u32) {
        if !self.are_some {
            return;
        }
        for level in &path_of(groups, group) {
            self.charge_one(*level);
        }
    }

    fn charge_one(&mut self, group: Option<u32>) {
        let Some(group) = group else {
            return;
        };
        if let Some(group) = self.groups.get_mut(group as usize) {
            group.used = group.used.saturating_add(1);
        }
    }

    /// The group has that weight from now on.
    pub(crate) fn weigh(&mut self, group: u32, weight: u32) {
        if let Some(claim) = self.claims.get_mut(group as usize) {
            claim.weight = weight;
        }
    }

    /// Adds what is due to each group of the milliseconds of CPU that ran in a stretch, in which the groups had these
    /// shares by weight.
    pub(crate) fn share(&mut self, shares: &[u128], ran: u64, due: &mut [u128])
        ensures claims { self.new.claims.items ≡ claims_in self.old.claims.items
            self.old.groups.items shares.now (stretch ran) }
        ensures levels { AreLevels self.new.claims.items (stretch ran) self.new.levels.items }
        ensures due { due.new ≡ with_dues (length self.new.claims.items) self.new.claims.items
            self.new.levels.items due.old }
    {
        let ran = u128::from(ran).saturating_mul(WHOLE);
        give_room(
            self.claims.as_mut_slice(),
            self.groups.as_slice(),
            shares,
            ran,
        );
        narrow(self.claims.as_mut_slice());
        find_levels(self.claims.as_slice(), ran, self.levels.as_mut_slice());
        let claims = self.claims.as_slice();
        let levels = self.levels.as_slice();
        charge_dues(claims, levels, self.groups.as_mut_slice());
        add_dues(claims, levels, due);
    }

    /// True if a period of a group with a quota begins at that clock.
    pub(crate) fn begin_period(&self, clock: u64) -> bool {
        self.groups.iter().any(|group| group.quota_ms.is_some() && group.begins_period(clock))
    }

    /// Ends a millisecond, as the clock comes to `clock`.
    pub(crate) fn pass(&mut self, clock: u64) {
        if !self.are_some {
            return;
        }
        for group in self.groups.iter_mut() {
            group.pass(clock);
        }
    }

    /// Ends all periods that have begun, as the run ends at this clock.
    pub(crate) fn end(&mut self, clock: u64) {
        for group in self.groups.iter_mut() {
            group.end(clock);
        }
    }
}

/// The parts of groups without a runnable task.
fn claims_of(alloc: Global, groups: &[Group]) -> Result<Vec<Claim>, AllocError> {
    let mut claims = Vec::with_capacity(alloc, groups.len())?;
    for group in groups {
        claims.push(Claim {
            family: family_of(group.parent),
            weight: group.weight,
            room: 0,
        })?;
    }
    Ok(claims)
}

/// The number of the family of groups with this parent.
fn family_of(parent: Option<u32>) -> usize
    ensures { result ≡ family_of parent }
{
    match parent {
        None => 0,
        Some(parent) => (parent as usize).saturating_add(1),
    }
}

/// Gives each group its room in a stretch in which that much ran.
#[tactic(auto, using(crate::proofs::Levels::all_roomy_more))]
fn give_room(claims: &mut [Claim], groups: &[QuotaFigures], shares: &[u128], ran: u128)
    ensures { claims.new ≡ all_roomy (length claims.old) groups.now shares.now ran claims.old }
{
    for index in 0..claims.len() {
        let group = groups.get(index).copied();
        let share = shares.get(index).copied();
        claims[index] = roomy(claims[index], group, share, ran);
    }
}

/// The claim of a group with its room. A group with a share has a runnable task.
fn roomy(claim: Claim, group: Option<QuotaFigures>, share: Option<u128>, ran: u128) -> Claim
    ensures { result ≡ roomy group share ran claim }
{
    match (group, share) {
        (Some(group), Some(share)) => Claim {
            room: group.room(0 < share, ran),
            ..claim
        },
        _ => claim,
    }
}

/// Counts what is due to groups in their periods.
fn charge_dues(claims: &[Claim], levels: &[u128], groups: &mut [QuotaFigures]) {
    for group in 0..claims.len() {
        let more = due_to(claims, levels, group);
        if let Some(group) = groups.get_mut(group) {
            group.due = group.due.saturating_add(more);
        }
    }
}

/// Adds what is due to groups.
#[tactic(auto, using(crate::proofs::Levels::with_dues_more))]
fn add_dues(claims: &[Claim], levels: &[u128], due: &mut [u128])
    ensures { due.new ≡ with_dues (length claims.now) claims.now levels.now due.old }
{
    for group in 0..claims.len() {
        let more = due_to(claims, levels, group);
        add_share(due, group, more);
    }
}

/// Adds to the share that is due to that group.
pub(crate) fn add_share(due: &mut [u128], group: usize, more: u128)
    ensures { due.new ≡ more_at due.old group more }
{
    if group < due.len() {
        due[group] = due[group].saturating_add(more);
    }
}
