//! The quota of a group: its key `cpu_max`.
ghost use Rattle.std.specs.Prelude.{◌≡◌, ◌≤◌, Some, codes};
ghost use Rattle.toml.specs.View.{view, table_view};
ghost use Rattle.scx_load_files.specs.Faults.{Gives};
ghost use Rattle.scx_load_files.specs.Paths.{below};
ghost use Rattle.scx_load_files.specs.Values.{optional};
ghost use Rattle.scx_load_workloads.specs.Reading.{limit_read};
ghost use Rattle.scx_load_workloads.specs.Limit.{no_limit, whole_ms, ms_in, quota_in, limit_of, limit_in, TextsSayOneLimit};

use crate::numerals::numeral;
use scx_load_files::{Cause, LoadError, Section, refused};
use scx_weights::{DEFAULT_PERIOD_MS, MAX_PERIOD_MS, MAX_QUOTA_MS};
use std::alloc::Global;
use toml::Value;

/// The CPU time that a group may use in each period
/// (Linux Documentation/admin-guide/cgroup-v2.rst, `cpu.max`).
#[derive(Clone, Copy)]
pub(crate) struct Limit {
    /// In ms, 1 to 1,000,000; none for no limit.
    pub(crate) quota_ms: Option<u32>,
    /// In ms, 1 to 1000.
    pub(crate) period_ms: u32,
}

/// The limit that an element names; without one its group has no quota. `WrongType` or `OutOfRange`.
pub(crate) fn read_limit(alloc: Global, section: Section<'_>) -> Result<Limit, LoadError>
    ensures { Gives (λ l. l) result
        (optional limit_read no_limit section.entry.path.now (codes "cpu_max")
        (table_view section.entry.table.now)) }
{
    match section.value("cpu_max") {
        Some(value) => limit_at(alloc, section, "cpu_max", value),
        None => Ok(Limit {
            quota_ms: None,
            period_ms: DEFAULT_PERIOD_MS,
        }),
    }
}

/// The limit that the value at a key gives. `WrongType` or `OutOfRange`.
fn limit_at(
    alloc: Global,
    section: Section<'_>,
    key: &str,
    value: &Value,
) -> Result<Limit, LoadError>
    ensures { Gives (λ l. l) result
        (limit_read (below section.entry.path.now key.now) (view value.now)) }
{
    let text = section.text_in(alloc, key, value)?;
    match limit_in(text) {
        Some(limit) => Ok(limit),
        None => refused(alloc, section.path, key, Cause::OutOfRange),
    }
}

/// Reads `MAX PERIOD` or `MAX`: microseconds, whole milliseconds of them, and `max` for no quota.
fn limit_in(text: &str) -> Option<Limit>
    ensures { result ≡ limit_in text.now }
{
    let Some((quota, period)) = text.split_once(' ') else {
        return limit_of(text, DEFAULT_PERIOD_MS);
    };
    limit_of(quota, ms_in(period, MAX_PERIOD_MS)?)
}

/// The limit read from a `cpu_max` is the one that its text says, and no text says two limits.
pub fn texts_say_one_limit()
    ensures { TextsSayOneLimit }
{}

fn limit_of(quota: &str, period_ms: u32) -> Option<Limit>
    ensures { result ≡ limit_of (quota_in quota.now) (Some period_ms) }
{
    Some(Limit {
        quota_ms: quota_in(quota)?,
        period_ms,
    })
}

/// A quota in ms, or that there is none.
fn quota_in(text: &str) -> Option<Option<u32>>
    ensures { result ≡ quota_in text.now }
{
    if text == "max" {
        return Some(None);
    }
    Some(Some(ms_in(text, MAX_QUOTA_MS)?))
}

/// The milliseconds that digits say in microseconds, 1 to the greatest.
#[tactic(auto, using(crate::proofs::Limits::no_numeral, crate::proofs::Limits::numeral_is))]
fn ms_in(text: &str, most: u32) -> Option<u32>
    requires { most ≤ 1000000 }
    ensures { result ≡ ms_in most text.now }
{
    whole_ms(numeral(text)?, most)
}

/// Microseconds in milliseconds, if these are whole, 1 to the greatest.
fn whole_ms(us: u32, most: u32) -> Option<u32>
    ensures { result ≡ whole_ms most us }
{
    if us % 1000 == 0 && 1 <= us / 1000 && us / 1000 <= most {
        return Some(us / 1000);
    }
    None
}
