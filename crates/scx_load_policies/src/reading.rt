ghost use Rattle.std.specs.Prelude.{◌≡◌, ◌≤◌, [], codes, IfOk, string_bytes};
ghost use Rattle.toml.specs.Data.{no_members};
ghost use Rattle.toml.specs.View.{view, table_view};
ghost use Rattle.scx_isa_semantics.specs.declared.rules.Rules.TheVariants.{Plain, Linux};
ghost use Rattle.scx_load_files.specs.Faults.{Gives};
ghost use Rattle.scx_load_files.specs.Unknown.{known_alone, words};
ghost use Rattle.scx_load_policies.specs.Policies.{IsTick};
ghost use Rattle.scx_load_policies.specs.Reading.{rules_meant, or_plain, unknown_beside, unknown_keys, idle_kept, policy_name, rules_in, rules_of, rules_named, tick_in, table_in, programs_in, programs_with, policy_in, policy_file, policy_text};

use crate::maps::read_maps;
use crate::policy_text::{
    PolicyText, Programs, linux_file_keys, linux_keys, linux_map_keys, plain_file_keys, plain_keys,
    plain_map_keys,
};
use crate::programs::{put_code, put_slots};
use crate::timers::read_timers;
use scx_isa::Rules;
use scx_load_files::{Cause, Limits, LoadError, Section, Unknown, read_document, refused};
use std::alloc::Global;
use toml::{Table, Value};

/// The longest time that a task may wait, in milliseconds; also the time of a file that gives none.
const LONGEST_TIMEOUT: u32 = 30_000;

const TIMEOUT: Limits = Limits {
    least: 1,
    most: LONGEST_TIMEOUT,
};

/// The milliseconds from tick to tick.
const TICK: Limits = Limits {
    least: 0,
    most: 100,
};

/// 1 where idle CPUs are tracked beside `update_idle`.
const IDLE_KEPT: Limits = Limits { least: 0, most: 1 };

/// The milliseconds from tick to tick of a file by Linux rules that gives none: those of a kernel with `HZ=250`.
const USUAL_TICK: u32 = 4;

/// Reads a policy file, or names its first fault.
///
/// Unknown keys are faults before all others, the least path by bytes first; some keys and callbacks are known by
/// Linux rules alone. Then the order is the name, the timeout, the rules, the ticks, `keep_idle`, each map, each timer,
/// the programs in `code` and those in `slots`, both in the order of callbacks.
pub fn read_policy(alloc: Global, text: &str) -> Result<PolicyText, LoadError>
    ensures { Gives (λ policy. policy) result (policy_text text.now) }
{
    let table = read_document(alloc, text)?;
    let policy = read_table(alloc, Section::whole(&table));
    drop(table);
    policy
}

/// Reads the table of a file.
fn read_table(alloc: Global, file: Section<'_>) -> Result<PolicyText, LoadError>
    requires { file.path.now ≡ [] }
    ensures { Gives (λ policy. policy) result (policy_file (table_view file.entry.table.now)) }
{
    check_keys(alloc, file)?;
    read_file(alloc, file)
}

/// Refuses the unknown key of the least path. The rules say which keys and callbacks are known.
fn check_keys(alloc: Global, file: Section<'_>) -> Result<(), LoadError>
    requires { file.path.now ≡ [] }
    ensures { Gives (λ t. t) result (known_alone (unknown_keys (table_view file.entry.table.now))) }
{
    match rules_meant(file) {
        Rules::Plain => {
            check_beside(
                alloc,
                file,
                &plain_file_keys(),
                &plain_map_keys(),
                &plain_keys(),
            )
        }
        Rules::Linux => {
            check_beside(
                alloc,
                file,
                &linux_file_keys(),
                &linux_map_keys(),
                &linux_keys(),
            )
        }
    }
}

/// The rules that decide which keys and callbacks are known: plain ones unless the file names Linux rules.
fn rules_meant(file: Section<'_>) -> Rules
    requires { file.path.now ≡ [] }
    ensures { result ≡ rules_meant (table_view file.entry.table.now) }
{
    match file.value("rules") {
        Some(value) => rules_if_named(value),
        None => Rules::Plain,
    }
}

/// The rules that the value of the key names, or plain ones.
fn rules_if_named(value: &Value) -> Rules
    ensures { result ≡ or_plain (rules_of (codes "rules") (view value.now)) }
{
    let Some(text) = value.as_str() else {
        return Rules::Plain;
    };
    match text {
        "plain" => Rules::Plain,
        "linux" => Rules::Linux,
        _ => Rules::Plain,
    }
}

/// Refuses the unknown key of the least path, where these are the keys of the file and those of its callbacks.
fn check_beside(
    alloc: Global,
    file: Section<'_>,
    keys: &[&str],
    of_maps: &[&str],
    callbacks: &[&str],
) -> Result<(), LoadError>
    requires { file.path.now ≡ [] }
    ensures { Gives (λ t. t) result
        (known_alone
        (unknown_beside (words keys.now) (words of_maps.now) (words callbacks.now)
        (table_view file.entry.table.now))) }
{
    let unknown = Unknown::none()
        .in_section(alloc, file, keys)?
        .below_each(alloc, file, "map", of_maps)?
        .below_each(alloc, file, "timer", &["name"])?
        .below(alloc, file, "code", callbacks)?
        .below(alloc, file, "slots", callbacks)?;
    unknown.refuse()
}

/// Reads the known keys of a file.
fn read_file(alloc: Global, file: Section<'_>) -> Result<PolicyText, LoadError>
    requires { file.path.now ≡ [] }
    ensures { Gives (λ policy. policy) result (policy_in (table_view file.entry.table.now)) }
{
    let name = read_name(alloc, file)?;
    let timeout_ms = file.integer_or(alloc, "timeout_ms", TIMEOUT, LONGEST_TIMEOUT)?;
    let rules = read_rules(alloc, file)?;
    let tick_ms = read_tick(alloc, file, rules)?;
    let keeps_idle = read_idle_kept(alloc, file)?;
    let defs = read_maps(alloc, file)?;
    let timers = read_timers(alloc, file)?;
    let programs = read_programs(alloc, file)?;
    Ok(PolicyText {
        name,
        defs,
        timeout_ms,
        rules,
        tick_ms,
        keeps_idle,
        timers,
        programs,
    })
}

/// The name, empty where it is absent.
fn read_name(alloc: Global, file: Section<'_>) -> Result<String, LoadError>
    requires { file.path.now ≡ [] }
    ensures { Gives string_bytes result (policy_name (table_view file.entry.table.now)) }
{
    match file.value("name") {
        Some(value) => {
            let name = file.name_in(alloc, "name", value)?;
            Ok(String::from_str(alloc, name)?)
        }
        None => Ok(String::new(alloc)),
    }
}

/// The rules of the machine, plain ones where the key is absent.
fn read_rules(alloc: Global, file: Section<'_>) -> Result<Rules, LoadError>
    requires { file.path.now ≡ [] }
    ensures { Gives (λ r. r) result (rules_in (table_view file.entry.table.now)) }
{
    match file.value("rules") {
        Some(value) => rules_of(alloc, file, value),
        None => Ok(Rules::Plain),
    }
}

/// The rules that the value of the key names.
fn rules_of(alloc: Global, file: Section<'_>, value: &Value) -> Result<Rules, LoadError>
    requires { file.path.now ≡ [] }
    ensures { Gives (λ r. r) result (rules_of (codes "rules") (view value.now)) }
{
    let text = file.text_in(alloc, "rules", value)?;
    match text {
        "plain" => Ok(Rules::Plain),
        "linux" => Ok(Rules::Linux),
        _ => refused(alloc, "", "rules", Cause::OutOfRange),
    }
}

/// The milliseconds from tick to tick.
fn read_tick(alloc: Global, file: Section<'_>, rules: Rules) -> Result<u32, LoadError>
    requires { file.path.now ≡ [] }
    ensures tick { Gives (λ n. n) result (tick_in rules (table_view file.entry.table.now)) }
    ensures limits { IfOk result (IsTick rules) }
{
    match rules {
        Rules::Plain => read_no_tick(alloc, file),
        Rules::Linux => read_linux_tick(alloc, file),
    }
}

/// Refuses the key under plain rules, which have no ticks.
fn read_no_tick(alloc: Global, file: Section<'_>) -> Result<u32, LoadError>
    requires { file.path.now ≡ [] }
    ensures tick { Gives (λ n. n) result (tick_in Plain (table_view file.entry.table.now)) }
    ensures none { IfOk result (λ n. n ≡ 0) }
{
    match file.value("tick_ms") {
        Some(_) => refused(alloc, "", "tick_ms", Cause::OutOfRange),
        None => Ok(0),
    }
}

/// The milliseconds from tick to tick under Linux rules.
#[tactic(auto, using(crate::proofs::Within::ticks_given))]
fn read_linux_tick(alloc: Global, file: Section<'_>) -> Result<u32, LoadError>
    requires { file.path.now ≡ [] }
    ensures tick { Gives (λ n. n) result (tick_in Linux (table_view file.entry.table.now)) }
    ensures limits { IfOk result (λ n. n ≤ 100) }
{
    file.integer_or(alloc, "tick_ms", TICK, USUAL_TICK)
}

/// True if idle CPUs are tracked also where the policy has `update_idle`. Where the key is absent they aren't.
fn read_idle_kept(alloc: Global, file: Section<'_>) -> Result<bool, LoadError>
    requires { file.path.now ≡ [] }
    ensures { Gives (λ b. b) result (idle_kept (table_view file.entry.table.now)) }
{
    let kept = file.integer_or(alloc, "keep_idle", IDLE_KEPT, 0)?;
    Ok(kept == 1)
}

/// The programs of both tables. Each table may be absent.
fn read_programs(alloc: Global, file: Section<'_>) -> Result<Programs, LoadError>
    requires { file.path.now ≡ [] }
    ensures { Gives (λ p. p) result (programs_in (table_view file.entry.table.now)) }
{
    let mut programs = Programs::none();
    match put_programs(alloc, file, &mut programs) {
        Ok(()) => Ok(programs),
        Err(error) => {
            drop(programs);
            Err(error)
        }
    }
}

/// Puts the programs of both tables into their places.
fn put_programs(alloc: Global, file: Section<'_>, programs: &mut Programs) -> Result<(), LoadError>
    requires { file.path.now ≡ [] }
    ensures { Gives (λ _. programs.new) result
        (programs_with (table_view file.entry.table.now) programs.old) }
{
    let absent = Table::new(alloc);
    let put = put_both(alloc, file, &absent, programs);
    drop(absent);
    put
}

/// Puts the programs of both tables into their places; `absent`, which is empty, is read for a table that
/// isn't there.
fn put_both(
    alloc: Global,
    file: Section<'_>,
    absent: &Table,
    programs: &mut Programs,
) -> Result<(), LoadError>
    requires whole { file.path.now ≡ [] }
    requires absent { table_view absent.now ≡ no_members }
    ensures { Gives (λ _. programs.new) result
        (programs_with (table_view file.entry.table.now) programs.old) }
{
    let code = section_or(alloc, file, "code", absent)?;
    put_code(alloc, code, programs)?;
    let slots = section_or(alloc, file, "slots", absent)?;
    put_slots(alloc, slots, programs)
}

/// The table at a key of the file; where there is none, this empty one.
fn section_or<'a>(
    alloc: Global,
    file: Section<'a>,
    key: &'a str,
    absent: &'a Table,
) -> Result<Section<'a>, LoadError>
    requires whole { file.path.now ≡ [] }
    requires absent { table_view absent.now ≡ no_members }
    ensures table { Gives (λ s. table_view s.table.now) result
        (table_in key.now (table_view file.entry.table.now)) }
    ensures path { IfOk result (λ s. s.path.now ≡ key.now) }
{
    match file.value(key) {
        Some(value) => Section::of(alloc, key, value),
        None => Ok(Section {
            table: absent,
            path: key,
        }),
    }
}
