ghost use Rattle.std.specs.Prelude.{◌≡◌, suc, ◌-◌, ◌<◌, ◌≤◌, ◌+◌, min, ◌==◌, length, IfSome, IfNone};
ghost use Rattle.scxsim_views.specs.Claims.{DuesAreFair, room_in, rooms, has_groups, room_within, narrowed, level_at, weight_in, takes, taken, open_weight, open_weights, due, IsLevel, IsSettled, IsStep, AreLevels};

/// A group's part in a stretch of time under quotas.
#[derive(Clone, Copy)]
pub(crate) struct Claim {
    /// The number of its family, of the groups with the same parent: 0 at the top, else the parent's number and 1.
    pub(crate) family: usize,
    pub(crate) weight: u32,
    /// The most that it can take; 0 while none of its tasks is runnable.
    pub(crate) room: u128,
}

/// Leaves no group more room than the groups within it have. The last group comes first, as groups come after their
/// parents.
pub(crate) fn narrow(claims: &mut [Claim])
    ensures { claims.new ≡ narrowed (length claims.old) claims.old }
{
    for group in (0..claims.len()).rev() {
        let room = room_within(claims, group);
        claims[group].room = room;
    }
}

/// The room of a group, or of the groups within it if that is less.
fn room_within(claims: &[Claim], group: usize) -> u128
    requires { group < length claims.now }
    ensures { result ≡ room_within claims.now group }
{
    let room = claims[group].room;
    if has_groups(claims, group + 1) {
        rooms_up_to(claims, group + 1, room)
    } else {
        room
    }
}

/// The room of all groups of a family, or that amount if it is less.
fn rooms_up_to(claims: &[Claim], family: usize, most: u128) -> u128
    ensures { result ≡ min most (rooms claims.now family) }
{
    let mut left = most;
    for group in 0..claims.len() {
        left = left.saturating_sub(room_in(claims[group], family));
    }
    most.saturating_sub(left)
}

/// The room of a group in a family; 0 in any other.
fn room_in(claim: Claim, family: usize) -> u128
    ensures { result ≡ room_in family claim }
{
    if claim.family == family {
        claim.room
    } else {
        0
    }
}

/// True if the family has a group.
fn has_groups(claims: &[Claim], family: usize) -> bool
    ensures { result ≡ has_groups claims.now family }
{
    claims.iter().any(|claim| claim.family == family)
}

/// No group is due more than it has room for, and one that is due less by weight than another beside it has room for
/// no more. The function does nothing: its contract is the law.
#[tactic(auto, using(crate::proofs::Levels::are_fair))]
pub fn dues_are_fair()
    ensures { DuesAreFair }
{}

/// Finds the level of each family: of the groups at the top, which share what ran, and of those within each group,
/// which share what is due to it.
pub(crate) fn find_levels(claims: &[Claim], ran: u128, levels: &mut [u128])
    requires { length levels.old ≡ suc (length claims.now) }
    ensures { AreLevels claims.now ran levels.new }
{
    levels[0] = level_of(claims, 0, ran);
    for group in 0..claims.len() {
        let due = due_to(claims, levels, group);
        levels[group + 1] = level_of(claims, group + 1, due);
    }
}

/// Returns the time that is due to a group at the level of its family.
pub(crate) fn due_to(claims: &[Claim], levels: &[u128], group: usize) -> u128
    requires { group < length claims.now }
    ensures { result ≡ due claims.now levels.now group }
{
    let claim = claims[group];
    if claim.family <= group {
        takes(claim, claim.family, level_at(levels, claim.family))
    } else {
        0
    }
}

/// The level at which a family shares an amount.
fn level_of(claims: &[Claim], family: usize, amount: u128) -> u128
    ensures { IsLevel claims.now family amount result }
{
    let mut level = 0u128;
    while let Some(step) = step_from(claims, family, amount, level) {
        level += step;
    }
    level
}

/// The step from a level to the next that may be enough; none where nothing is left, or all are full.
fn step_from(claims: &[Claim], family: usize, amount: u128, level: u128) -> Option<u128>
    ensures none { IfNone result (IsSettled claims.now family amount level) }
    ensures some { IfSome result (IsStep claims.now family amount level) }
{
    let left = left_at(claims, family, amount, level);
    let weight = open_weight(claims, family, level);
    if left == 0 || weight == 0 {
        None
    } else {
        Some((left - 1) / weight + 1)
    }
}

/// The rest of an amount that a family leaves at a level.
fn left_at(claims: &[Claim], family: usize, amount: u128, level: u128) -> u128
    ensures { result ≡ amount - taken claims.now family level }
{
    let mut left = amount;
    for group in 0..claims.len() {
        left = left.saturating_sub(takes(claims[group], family, level));
    }
    left
}

/// The weights of those of a family that have room for more at a level.
fn open_weight(claims: &[Claim], family: usize, level: u128) -> u128
    ensures { result ≡ open_weights claims.now family level }
{
    let mut sum = 0u128;
    for group in 0..claims.len() {
        sum += open_weight_of(claims[group], family, level);
    }
    sum
}

/// The weight of a group if it is in the family and has room for more at that level.
fn open_weight_of(claim: Claim, family: usize, level: u128) -> u128
    ensures value { result ≡ open_weight family level claim }
    ensures small { result ≤ 4294967295 }
{
    if takes(claim, family, level) < claim.room {
        u128::from(weight_in(claim, family))
    } else {
        0
    }
}

/// The part that a group takes at a level of a family.
fn takes(claim: Claim, family: usize, level: u128) -> u128
    ensures { result ≡ takes family level claim }
{
    let weight = u128::from(weight_in(claim, family));
    claim.room.min(weight.saturating_mul(level))
}

/// The weight of a group in a family; 0 in any other.
fn weight_in(claim: Claim, family: usize) -> u32
    ensures { result ≡ weight_in family claim }
{
    if claim.family == family {
        claim.weight
    } else {
        0
    }
}

/// The level of a family, if it has one.
fn level_at(levels: &[u128], family: usize) -> u128
    ensures { result ≡ level_at levels.now family }
{
    match levels.get(family) {
        Some(level) => *level,
        None => 0,
    }
}
