ghost use Rattle.std.specs.Prelude.{◌≡◌, ◌≤◌, [], codes, length, IfOk};
ghost use Rattle.toml.specs.Data.{no_items};
ghost use Rattle.toml.specs.View.{view, table_view, items_view};
ghost use Rattle.scx_load_files.specs.Faults.{Gives};
ghost use Rattle.scx_load_files.specs.Values.{optional, elements_of};
ghost use Rattle.scx_load_policies.specs.Policies.{max_timers};
ghost use Rattle.scx_load_policies.specs.Timers.{timer_in, timer_at, timers_from, timers};

use scx_load_files::{LoadError, Section, element_path};
use std::alloc::Global;
use toml::Value;

/// The most timers of a policy.
const MAX_TIMERS: usize = 16;

/// The number of timers of a file, at most 16.
pub(crate) fn read_timers(alloc: Global, file: Section<'_>) -> Result<u8, LoadError>
    requires { file.path.now ≡ [] }
    ensures timers { Gives (λ n. n) result (timers (table_view file.entry.table.now)) }
    ensures few { IfOk result (λ n. n ≤ max_timers) }
{
    let elements = some_tables(alloc, file)?;
    check_timers(alloc, elements)?;
    Ok(elements.len() as u8)
}

/// The tables of timers, at most 16.
fn some_tables<'a>(alloc: Global, file: Section<'a>) -> Result<&'a [Value], LoadError>
    requires { file.path.now ≡ [] }
    ensures values { Gives (λ values. items_view values.now) result
        (optional (elements_of max_timers) no_items [] (codes "timer")
        (table_view file.entry.table.now)) }
    ensures few { IfOk result (λ values. length values.now ≤ max_timers) }
{
    file.elements(alloc, "timer", MAX_TIMERS)
}

/// Reads the tables of timers one after another.
#[tactic(auto, using(crate::proofs::Timing::goes_on, crate::proofs::Timing::ends, crate::proofs::Timing::is_done))]
fn check_timers(alloc: Global, elements: &[Value]) -> Result<(), LoadError>
    ensures { Gives (λ _. length elements.now) result (timers_from 0 (items_view elements.now)) }
{
    for (number, value) in elements.iter().enumerate() {
        check_timer(alloc, number, value)?;
    }
    Ok(())
}

/// Reads the table of a timer.
fn check_timer(alloc: Global, number: usize, value: &Value) -> Result<(), LoadError>
    ensures { Gives (λ t. t) result (timer_at number (view value.now)) }
{
    let path = element_path(alloc, "timer", number)?;
    let timer = Section::of(alloc, &path, value)?;
    check_name(alloc, timer)
}

/// Refuses a name that is none. A timer may have no name.
fn check_name(alloc: Global, timer: Section<'_>) -> Result<(), LoadError>
    ensures { Gives (λ t. t) result
        (timer_in timer.entry.path.now (table_view timer.entry.table.now)) }
{
    match timer.value("name") {
        Some(value) => {
            let _name = timer.name_in(alloc, "name", value)?;
            Ok(())
        }
        None => Ok(()),
    }
}
