ghost use Rattle.std.specs.Prelude.{◌≡◌, true, false, IfOk, IfErr, IfSome, Some, None, option_map};
ghost use Rattle.scxsim_explore.specs.Words.{HasManyChanges, IsBoundsOf, IsDepth, IsFew, IsLarge, IsNoDepth, IsNoFew, IsNoMode, IsPastIn, IsPastWords, IsSmall, IsWithin, limit_line, mode_word, most_depth};

use scx_explore::{Bounds, MOST_CHANGES, MOST_TASKS, Mode};
use scx_load_workloads::{Workload, numeral};
use scx_sched::Sim;

/// The most CPUs of a machine that is explored.
pub const MOST_CPUS: u32 = 4;

/// The most bytes that a policy's maps may have.
pub const MOST_BYTES: usize = 1_048_576;

/// The most events of a list.
const MOST_EVENTS: u32 = 64;

/// The most milliseconds.
const MOST_MS: u32 = 65_535;

/// The most wakes and sleeps that a list may be bound to.
const MOST_FEW: u32 = 64;

/// The words that bound the lists of a search.
#[derive(Clone, Copy)]
pub struct Lists<'a> {
    /// `events`, `ms` or `workloads`.
    pub mode: &'a str,
    /// The most events or milliseconds of a list.
    pub depth: &'a str,
    /// The most wakes and sleeps of a list, if that is bounded.
    pub few: Option<&'a str>,
}

/// The reason why nothing is explored.
#[derive(Clone, Copy)]
pub(crate) enum Limit {
    /// MODE isn't one of the three.
    Mode,
    /// DEPTH isn't a number from 1 to 64, or to 65,535 of milliseconds.
    Depth,
    /// K isn't a number up to 64.
    Few,
    /// There are more than eight tasks.
    Tasks,
    /// There are more than four CPUs.
    Cpus,
    /// Maps have more than a mebibyte.
    Maps,
    /// There are more than 64 changes of weights to try.
    Changes,
}

impl Limit {
    /// The line that says so.
    pub(crate) fn line(self) -> &'static str
        ensures { result.now ≡ limit_line self }
    {
        match self {
            Limit::Mode => "refused: word MODE: no such mode\n",
            Limit::Depth => "refused: word DEPTH: out of range\n",
            Limit::Few => "refused: word K: out of range\n",
            Limit::Tasks => "refused: explore: too many tasks\n",
            Limit::Cpus => "refused: explore: too many processors\n",
            Limit::Maps => "refused: explore: maps too large\n",
            Limit::Changes => "refused: explore: too many changes\n",
        }
    }
}

/// The bounds that the words name.
///
/// # Errors
///
/// A word is wrong. Of several the first one is named.
#[tactic(auto, using(crate::proofs::Named::is_named, crate::proofs::Named::past_mode, crate::proofs::Named::past_depth, crate::proofs::Named::past_few,))]
pub(crate) fn bounds_of(lists: Lists<'_>) -> Result<Bounds, Limit>
    ensures bounds { IfOk result (IsBoundsOf lists.entry) }
    ensures past { IfErr result (IsPastWords lists.entry) }
{
    let mode = mode_of(lists.mode)?;
    let depth = depth_of(mode, lists.depth)?;
    let few = few_of(lists.few)?;
    Ok(Bounds { mode, depth, few })
}

#[tactic(auto, using(crate::proofs::Named::is_word, crate::proofs::Named::no_mode))]
fn mode_of(word: &str) -> Result<Mode, Limit>
    ensures mode { IfOk result (λ m. word.now ≡ mode_word m) }
    ensures past { IfErr result (λ past. (past ≡ Limit.Mode) × IsNoMode word.now) }
{
    if word == "events" {
        Ok(Mode::Events)
    } else if word == "ms" {
        Ok(Mode::Milliseconds)
    } else if word == "workloads" {
        Ok(Mode::Workloads)
    } else {
        Err(Limit::Mode)
    }
}

#[tactic(auto, using(crate::proofs::Named::is_depth, crate::proofs::Named::no_number, crate::proofs::Named::no_zero, crate::proofs::Named::no_deeper,))]
fn depth_of(mode: Mode, word: &str) -> Result<usize, Limit>
    ensures depth { IfOk result (IsDepth mode word.now) }
    ensures past { IfErr result (λ past. (past ≡ Limit.Depth) × IsNoDepth mode word.now) }
{
    let Some(depth) = numeral(word) else {
        return Err(Limit::Depth);
    };
    if depth == 0 || depth > most_depth(mode) {
        return Err(Limit::Depth);
    }
    Ok(depth as usize)
}

/// The greatest DEPTH.
fn most_depth(mode: Mode) -> u32
    ensures { result ≡ most_depth mode }
{
    match mode {
        Mode::Events => MOST_EVENTS,
        Mode::Milliseconds | Mode::Workloads => MOST_MS,
    }
}

fn few_of(word: Option<&str>) -> Result<Option<u8>, Limit>
    ensures few { IfOk result (IsFew (option_map (λ w. w.now) word.entry)) }
    ensures past { IfErr result (λ past. (past ≡ Limit.Few)
        × IsNoFew (option_map (λ w. w.now) word.entry)) }
{
    match word {
        Some(word) => few_in(word),
        None => Ok(None),
    }
}

#[tactic(auto, using(crate::proofs::Named::no_few, crate::proofs::Named::no_more))]
fn few_in(word: &str) -> Result<Option<u8>, Limit>
    ensures few { IfOk result (IsFew (Some word.now)) }
    ensures past { IfErr result (λ past. (past ≡ Limit.Few) × IsNoFew (Some word.now)) }
{
    let Some(few) = numeral(word) else {
        return Err(Limit::Few);
    };
    if few > MOST_FEW {
        return Err(Limit::Few);
    }
    Ok(Some(few as u8))
}

/// The first limit that the machine or its workload is past, if there is one.
pub(crate) fn limit_of(sim: &Sim, about: &Workload, bounds: Bounds) -> Option<Limit>
    ensures within { result ≡ None → IsWithin bounds about.now sim.now }
    ensures past { IfSome result (IsPastIn bounds about.now sim.now) }
{
    match size_limit(sim) {
        Some(limit) => Some(limit),
        None => changes_limit(about, bounds),
    }
}

/// The limit of its size that the machine is past, if there is one.
#[tactic(auto, using(crate::proofs::Named::is_small))]
fn size_limit(sim: &Sim) -> Option<Limit>
    ensures small { result ≡ None → IsSmall sim.now }
    ensures large { IfSome result (IsLarge sim.now) }
{
    if usize::from(sim.tasks()) > MOST_TASKS {
        return Some(Limit::Tasks);
    }
    if sim.cpus() > MOST_CPUS {
        return Some(Limit::Cpus);
    }
    if sim.maps().bytes().len() > MOST_BYTES {
        return Some(Limit::Maps);
    }
    None
}

/// The limit on changes of weights, if the workload is past it.
fn changes_limit(about: &Workload, bounds: Bounds) -> Option<Limit>
    ensures few { result ≡ None → ¬ HasManyChanges bounds about.now }
    ensures many { IfSome result (λ limit. (limit ≡ Limit.Changes)
        × HasManyChanges bounds about.now) }
{
    if is_past_changes(about, bounds) {
        Some(Limit::Changes)
    } else {
        None
    }
}

/// True if the workload changes weights more often than such a search can try.
fn is_past_changes(about: &Workload, bounds: Bounds) -> bool
    ensures few { result ≡ false → ¬ HasManyChanges bounds about.now }
    ensures many { result ≡ true → HasManyChanges bounds about.now }
{
    match bounds.mode {
        Mode::Events => about.changes().len() > MOST_CHANGES,
        Mode::Milliseconds | Mode::Workloads => false,
    }
}
