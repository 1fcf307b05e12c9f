//! The CPUs on which a task may run: its key `cpus`.
ghost use Rattle.std.specs.Prelude.{◌≡◌, ◌+◌, ◌-◌, ◌^◌, ◌<◌, ◌≤◌, ◌==◌, Some, IfOk};
ghost use Rattle.std.specs.List.{slice_split};
ghost use Rattle.toml.specs.View.{view, table_view};
ghost use Rattle.scx_load_files.specs.Faults.{Gives};
ghost use Rattle.scx_load_files.specs.Paths.{below};
ghost use Rattle.scx_load_files.specs.Unknown.{words};
ghost use Rattle.scx_load_workloads.specs.CpuLists.{cpu_in, range_of, range_in, mask_with, mask_in, TextsSayOneMask};
ghost use Rattle.scx_load_workloads.specs.Workload.{all_cpus};
ghost use Rattle.scx_load_workloads.specs.Reading.{mask_read, mask_of_task};

use crate::numerals::numeral;
use scx_isa_semantics::Rules;
use scx_load_files::{Cause, LoadError, Section, refused};
use std::alloc::{AllocError, Global};
use toml::Value;

/// The most digits of a CPU's number.
const MAX_DIGITS: usize = 2;

/// The mask of a task, one bit a CPU; all CPUs where no key says it. `WrongType` or `OutOfRange`.
pub(crate) fn read_mask(
    alloc: Global,
    section: Section<'_>,
    rules: Rules,
    cpus: u32,
) -> Result<u64, LoadError>
    requires some { 1 ≤ cpus }
    requires few { cpus ≤ 64 }
    ensures { Gives (λ mask. mask) result
        (mask_of_task rules cpus section.entry.path.now (table_view section.entry.table.now)) }
{
    match rules {
        Rules::Plain => Ok(all_cpus(cpus)),
        Rules::Linux => match section.value("cpus") {
            Some(value) => mask_at(alloc, section, "cpus", value, cpus),
            None => Ok(all_cpus(cpus)),
        },
    }
}

/// The mask of all CPUs.
#[tactic(auto, using(crate::proofs::Masks::all_are))]
pub(crate) fn all_cpus(cpus: u32) -> u64
    requires some { 1 ≤ cpus }
    requires few { cpus ≤ 64 }
    ensures { result ≡ all_cpus cpus }
{
    u64::MAX >> (64 - cpus)
}

/// The mask that the value at a key says. `WrongType` or `OutOfRange`.
fn mask_at(
    alloc: Global,
    section: Section<'_>,
    key: &str,
    value: &Value,
    cpus: u32,
) -> Result<u64, LoadError>
    requires { cpus ≤ 64 }
    ensures { Gives (λ mask. mask) result
        (mask_read cpus (below section.entry.path.now key.now) (view value.now)) }
{
    let text = section.text_in(alloc, key, value)?;
    match mask_in(alloc, text, cpus)? {
        Some(mask) => Ok(mask),
        None => refused(alloc, section.path, key, Cause::OutOfRange),
    }
}

/// Reads numbers and ranges with commas between them, such as `0-3,8`.
fn mask_in(alloc: Global, text: &str, cpus: u32) -> Result<Option<u64>, AllocError>
    requires { cpus ≤ 64 }
    ensures { IfOk result (λ mask. mask ≡ mask_in cpus text.now) }
{
    let parts = parts_of(alloc, text)?;
    Ok(mask_of(&parts, cpus))
}

/// The mask read from a `cpus` is the one that its text says, and no text says two masks.
pub fn texts_say_one_mask()
    ensures { TextsSayOneMask }
{}

/// The texts between commas.
fn parts_of<'a>(alloc: Global, text: &'a str) -> Result<Vec<&'a str>, AllocError>
    ensures { IfOk result (λ parts. words parts.items ≡ slice_split (λ b. b == 44) text.now) }
{
    text.split(',').collect(alloc)
}

/// The CPUs that all parts say.
fn mask_of(parts: &[&str], cpus: u32) -> Option<u64>
    requires { cpus ≤ 64 }
    ensures { result ≡ mask_with cpus (Some 0) (words parts.now) }
{
    let mut mask = 0;
    for part in parts {
        mask |= range_in(part, cpus)?;
    }
    Some(mask)
}

/// The CPUs that a part says: two numbers with a hyphen between them, or one.
fn range_in(part: &str, cpus: u32) -> Option<u64>
    requires { cpus ≤ 64 }
    ensures { result ≡ range_in cpus part.now }
{
    let Some((first, last)) = part.split_once('-') else {
        let cpu = cpu_in(part)?;
        return range_of(cpu, cpu, cpus);
    };
    range_of(cpu_in(first)?, cpu_in(last)?, cpus)
}

/// The number that one or two digits say.
fn cpu_in(text: &str) -> Option<u32>
    ensures { result ≡ cpu_in text.now }
{
    if text.len() > MAX_DIGITS {
        return None;
    }
    numeral(text)
}

/// The CPUs from the first to the last, if they are there and in order.
fn range_of(first: u32, last: u32, cpus: u32) -> Option<u64>
    requires { cpus ≤ 64 }
    ensures { result ≡ range_of cpus (Some first) (Some last) }
{
    if first <= last && last < cpus {
        return Some(bits(first, last));
    }
    None
}

/// A bit for each CPU from the first to the last.
#[tactic(auto, using(crate::proofs::Masks::bits_are))]
fn bits(first: u32, last: u32) -> u64
    requires order { first ≤ last }
    requires there { last < 64 }
    ensures { result ≡ 2 ^ (last + 1) - 2 ^ first }
{
    u64::MAX >> (63 - last) & u64::MAX << first
}
