ghost use Rattle.std.specs.Prelude.{◌≡◌, OnOk};
ghost use Rattle.std.specs.Option.{unwrap_or};
ghost use Rattle.std.specs.Ordering.{nat_cmp};
ghost use Rattle.std.specs.BTreeMap.{get};
ghost use Rattle.scxsim_views.specs.Lengths.{no_lengths, is_longest, one_more_of, with_length, more_of, all_added, first_since, longest_since_of, merged, merged_if, mean, first_reaching, percentile};

use std::alloc::{AllocError, Global};
use std::collections::BTreeMap;
use std::marker::Model;

/// Lengths of a task's waits or bursts, in milliseconds, each with its count.
///
/// A task has few lengths of either: they are different numbers whose sum is at most the run's length, so in the
/// longest run there are less than 1415 of them.
#[derive(Drop)]
pub struct LengthCounts {
    /// The count of each length.
    lengths: BTreeMap<u64, u64>,
    count: u64,
    total: u64,
    longest: u64,
    longest_since: u64,
}

impl Model for LengthCounts {
    ghost use Rattle.scxsim_views.specs.Lengths.{Lengths};

    ghost Value = { Lengths };

    ghost view = { λ w. record {
      count = w.count;
      total = w.total;
      longest = w.longest;
      longest_since = w.longest_since;
      times = w.lengths.entries;
    } };
}

impl LengthCounts {
    /// No lengths.
    pub fn new(alloc: Global) -> LengthCounts
        ensures { result ≡ no_lengths }
    {
        LengthCounts {
            lengths: BTreeMap::new(alloc),
            count: 0,
            total: 0,
            longest: 0,
            longest_since: 0,
        }
    }

    /// Adds one that began at `since` and took `length`.
    pub fn add(&mut self, since: u64, length: u64) -> Result<(), AllocError>
        ensures { OnOk result (self.new ≡ with_length since length self.old) }
    {
        add_length(&mut self.lengths, length)?;
        if self.is_longest(length) {
            self.longest = length;
            self.longest_since = since;
        }
        self.count = self.count.saturating_add(1);
        self.total = self.total.saturating_add(length);
        Ok(())
    }

    /// Adds all that the other counted.
    fn add_all(&mut self, other: &LengthCounts) -> Result<(), AllocError>
        ensures { OnOk result (self.new ≡ merged other.now self.old) }
    {
        add_lengths(&mut self.lengths, &other.lengths)?;
        self.longest_since = self.longest_since_of(other);
        self.longest = self.longest.max(other.longest);
        self.count = self.count.saturating_add(other.count);
        self.total = self.total.saturating_add(other.total);
        Ok(())
    }

    /// Adds all that the other counted, if it is to be added.
    pub fn add_if(&mut self, is_added: bool, other: &LengthCounts) -> Result<(), AllocError>
        ensures { OnOk result (self.new ≡ merged_if is_added other.now self.old) }
    {
        if is_added {
            self.add_all(other)
        } else {
            Ok(())
        }
    }

    /// The clock at which the first of the longest of both began.
    fn longest_since_of(&self, other: &LengthCounts) -> u64
        ensures { result ≡ longest_since_of other.now self.now }
    {
        if other.count == 0 {
            return self.longest_since;
        }
        if self.is_longest(other.longest) {
            return other.longest_since;
        }
        self.first_since(other)
    }

    /// The clock at which the first of the longest began, where the other's longest isn't longer.
    fn first_since(&self, other: &LengthCounts) -> u64
        ensures { result ≡ first_since other.now self.now }
    {
        if other.longest == self.longest {
            self.longest_since.min(other.longest_since)
        } else {
            self.longest_since
        }
    }

    fn is_longest(&self, length: u64) -> bool
        ensures { result ≡ is_longest length self.now }
    {
        self.count == 0 || length > self.longest
    }

    pub fn count(&self) -> u64
        ensures { result ≡ self.now.count }
    {
        let count = self.count;
        count
    }

    /// The sum of all lengths.
    pub fn total(&self) -> u64
        ensures { result ≡ self.now.total }
    {
        let total = self.total;
        total
    }

    /// The mean in hundredths of a millisecond, rounded down; 0 if there was none.
    pub fn mean(&self) -> u64
        ensures { result ≡ mean self.now }
    {
        if self.count == 0 {
            return 0;
        }
        self.total.saturating_mul(100) / self.count
    }

    /// The least length that `percent` of 100 didn't exceed; 0 if there was none.
    pub fn percentile(&self, percent: u64) -> u64
        ensures { result ≡ percentile percent self.now }
    {
        first_reaching(&self.lengths, self.count.saturating_mul(percent))
    }

    pub fn longest(&self) -> u64
        ensures { result ≡ self.now.longest }
    {
        let longest = self.longest;
        longest
    }

    /// The clock at which the first of the longest began.
    pub fn longest_since(&self) -> u64
        ensures { result ≡ self.now.longest_since }
    {
        let since = self.longest_since;
        since
    }
}

/// Adds one of that length.
#[tactic(auto, using(crate::proofs::Percentiles::insert_is))]
fn add_length(lengths: &mut BTreeMap<u64, u64>, length: u64) -> Result<(), AllocError>
    ensures { OnOk result (lengths.new.entries ≡ one_more_of length lengths.old.entries) }
{
    let times = times_of(lengths, length);
    lengths.insert(length, times.saturating_add(1))?;
    Ok(())
}

/// Adds all of those lengths.
fn add_lengths(
    lengths: &mut BTreeMap<u64, u64>,
    more: &BTreeMap<u64, u64>,
) -> Result<(), AllocError>
    ensures { OnOk result (lengths.new.entries ≡ all_added more.now.entries lengths.old.entries) }
{
    for (length, times) in more.iter() {
        add_times(lengths, *length, *times)?;
    }
    Ok(())
}

/// Adds `times` more of that length.
#[tactic(auto, using(crate::proofs::Adding::insert_more))]
fn add_times(lengths: &mut BTreeMap<u64, u64>, length: u64, times: u64) -> Result<(), AllocError>
    ensures { OnOk result (lengths.new.entries ≡ more_of times length lengths.old.entries) }
{
    let before = times_of(lengths, length);
    lengths.insert(length, before.saturating_add(times))?;
    Ok(())
}

/// The count of that length.
fn times_of(lengths: &BTreeMap<u64, u64>, length: u64) -> u64
    ensures { result ≡ unwrap_or (get nat_cmp lengths.now length) 0 }
{
    match lengths.get(&length) {
        Some(times) => *times,
        None => 0,
    }
}

/// The first length at which the counts reach that many hundredths; 0 if they never do.
fn first_reaching(lengths: &BTreeMap<u64, u64>, enough: u64) -> u64
    ensures { result ≡ first_reaching enough 0 lengths.now.entries }
{
    let mut passed = 0u64;
    for (length, times) in lengths.iter() {
        passed = passed.saturating_add(*times);
        if passed.saturating_mul(100) >= enough {
            return *length;
        }
    }
    0
}
