//! Keys and arrays of a workload file, and the limits of their values.
ghost use Rattle.std.specs.Prelude.{◌≡◌, ◌≤◌, ◌<◌, [], None, IfOk, IfSome, length};
ghost use Rattle.toml.specs.Data.{no_items};
ghost use Rattle.toml.specs.View.{table_view, items_view};
ghost use Rattle.scx_load_files.specs.Faults.{Gives};
ghost use Rattle.scx_load_files.specs.Values.{required, optional, integer_of, elements_of};
ghost use Rattle.scx_load_workloads.specs.Reading.{some_elements, index_of};
ghost use Rattle.scx_load_workloads.specs.KeptNames.{texts};

use scx_load_files::{Cause, Limits, LoadError, Section, refused};
use std::alloc::Global;
use toml::Value;

/// The number at a key that has to be there.
#[tactic(auto, using(crate::proofs::Values::required_within))]
pub(crate) fn integer(
    alloc: Global,
    section: Section<'_>,
    key: &str,
    limits: Limits,
) -> Result<u32, LoadError>
    ensures value { Gives (λ n. n) result
        (required (integer_of limits) section.entry.path.now key.now
        (table_view section.entry.table.now)) }
    ensures least { IfOk result (λ n. limits.least ≤ n) }
    ensures most { IfOk result (λ n. n ≤ limits.most) }
{
    section.integer(alloc, key, limits)
}

/// The number at a key that may be absent.
#[tactic(auto, using(crate::proofs::Values::optional_within))]
pub(crate) fn integer_or(
    alloc: Global,
    section: Section<'_>,
    key: &str,
    limits: Limits,
    default: u32,
) -> Result<u32, LoadError>
    requires least { limits.least ≤ default }
    requires most { default ≤ limits.most }
    ensures value { Gives (λ n. n) result
        (optional (integer_of limits) default section.entry.path.now key.now
        (table_view section.entry.table.now)) }
    ensures least { IfOk result (λ n. limits.least ≤ n) }
    ensures most { IfOk result (λ n. n ≤ limits.most) }
{
    section.integer_or(alloc, key, limits, default)
}

/// The elements of an array that may be absent, at most `most`.
pub(crate) fn elements<'a>(
    alloc: Global,
    file: Section<'a>,
    key: &str,
    most: usize,
) -> Result<&'a [Value], LoadError>
    requires { file.path.now ≡ [] }
    ensures values { Gives (λ values. items_view values.now) result
        (optional (elements_of most) no_items [] key.now (table_view file.entry.table.now)) }
    ensures few { IfOk result (λ values. length values.now ≤ most) }
{
    file.elements(alloc, key, most)
}

/// The elements of an array that has at least one, and at most `most`.
#[tactic(auto, using(crate::proofs::Values::some_is_missing, crate::proofs::Values::some_is_there))]
pub(crate) fn some_elements<'a>(
    alloc: Global,
    file: Section<'a>,
    key: &str,
    most: usize,
) -> Result<&'a [Value], LoadError>
    requires { file.path.now ≡ [] }
    ensures values { Gives (λ values. items_view values.now) result
        (some_elements most key.now (table_view file.entry.table.now)) }
    ensures some { IfOk result (λ values. 1 ≤ length values.now) }
    ensures few { IfOk result (λ values. length values.now ≤ most) }
{
    let values = elements(alloc, file, key, most)?;
    if values.is_empty() {
        return refused(alloc, "", key, Cause::Missing);
    }
    Ok(values)
}

/// The number of the first name that is this one.
pub(crate) fn index_of(names: &[String], name: &str) -> Option<usize>
    ensures number { result ≡ index_of (texts names.now) name.now }
    ensures within { IfSome result (λ i. i < length names.now) }
{
    for (number, other) in names.iter().enumerate() {
        if other.as_str() == name {
            return Some(number);
        }
    }
    None
}
