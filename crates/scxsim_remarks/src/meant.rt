use crate::nearest::Nearest;
use scx_isa::{CALLBACKS, Rules};
use std::alloc::Global;

/// The format of a file, which decides the keys that its tables take.
#[derive(Clone, Copy)]
pub(crate) enum Format {
    /// By those rules.
    Policy(Rules),
    /// For a policy by those rules.
    Workload(Rules),
    /// For a policy by those rules.
    Events(Rules),
}

/// A table of a file, in any format.
#[derive(Clone, Copy)]
enum Table {
    Top,
    Map,
    Timer,
    /// `code` or `slots`.
    Programs,
    Group,
    Task,
    Change,
}

/// A key, and its table.
#[derive(Clone, Copy)]
struct Key<'a> {
    table: Table,
    word: &'a str,
}

/// The key of the same table that is nearest to the key at the end of a path, if one is near.
pub(crate) fn nearest_key(alloc: Global, format: Format, path: &str) -> Option<&'static str> {
    let key = key_of(path);
    let mut nearest = Nearest::none();
    for known in keys_of(format, key.table) {
        nearest = nearest.or_nearer(alloc, key.word, known).ok()?;
    }
    if let (Format::Policy(rules), Table::Programs) = (format, key.table) {
        for callback in CALLBACKS {
            if callback.is_known(rules) {
                nearest = nearest.or_nearer(alloc, key.word, callback.name()).ok()?;
            }
        }
    }
    nearest.word()
}

/// The keys that the table takes, but for callbacks. None if the format has no such table.
fn keys_of(format: Format, table: Table) -> &'static [&'static str] {
    match format {
        Format::Policy(rules) => policy_keys(rules, table),
        Format::Workload(rules) => workload_keys(rules, table),
        Format::Events(rules) => events_keys(rules, table),
    }
}

/// True if the key at the end of a path is unknown under the plain rules of that format, and known under Linux rules.
pub(crate) fn is_known_by_linux(format: Format, path: &str) -> bool {
    let key = key_of(path);
    match format {
        Format::Workload(Rules::Plain) => is_among(
            key.word,
            workload_keys(Rules::Linux, key.table),
        ),
        Format::Events(Rules::Plain) => is_among(key.word, events_keys(Rules::Linux, key.table)),
        Format::Policy(Rules::Plain) => is_linux_key(key),
        Format::Policy(Rules::Linux)
        | Format::Workload(Rules::Linux)
        | Format::Events(Rules::Linux) => { false }
    }
}

/// The choices of the key at the end of a path of a policy, after a cause; empty if the cause says enough.
pub(crate) fn choices_of(format: Format, path: &str) -> &'static str {
    let Format::Policy(rules) = format else {
        return "";
    };
    let key = key_of(path);
    match key.table {
        Table::Top if key.word == "rules" => "; it is plain or linux",
        Table::Top if key.word == "tick_ms" => ticks_of(rules),
        Table::Map if key.word == "kind" => "; it is one of array, hash, queue, stack, percpu",
        _ => "",
    }
}

fn ticks_of(rules: Rules) -> &'static str {
    match rules {
        Rules::Plain => "; it is known under rules = \"linux\"",
        Rules::Linux => "; it is 0 to 100",
    }
}

/// True if a policy has the key under Linux rules alone.
fn is_linux_key(key: Key<'_>) -> bool {
    is_linux_callback(key) || is_among(key.word, policy_keys(Rules::Linux, key.table))
}

/// True if the key names a callback that Linux rules alone know.
fn is_linux_callback(key: Key<'_>) -> bool {
    let Table::Programs = key.table else {
        return false;
    };
    for callback in CALLBACKS {
        if callback.name() == key.word {
            return !callback.is_known(Rules::Plain);
        }
    }
    false
}

fn is_among(word: &str, keys: &[&str]) -> bool {
    keys.iter().any(|key| *key == word)
}

fn policy_keys(rules: Rules, table: Table) -> &'static [&'static str] {
    match table {
        Table::Top => top_policy_keys(rules),
        Table::Map => map_keys(rules),
        Table::Timer => timer_keys(rules),
        Table::Programs | Table::Group | Table::Task | Table::Change => &[],
    }
}

/// The keys at the top of a policy.
fn top_policy_keys(rules: Rules) -> &'static [&'static str] {
    match rules {
        Rules::Plain => &[
            "name",
            "timeout_ms",
            "rules",
            "tick_ms",
            "map",
            "code",
            "slots",
        ],
        Rules::Linux => &[
            "name",
            "timeout_ms",
            "rules",
            "tick_ms",
            "keep_idle",
            "map",
            "timer",
            "code",
            "slots",
        ],
    }
}

/// The keys of a map of a policy.
fn map_keys(rules: Rules) -> &'static [&'static str] {
    match rules {
        Rules::Plain => &["entries", "value_size"],
        Rules::Linux => &["entries", "value_size", "kind", "key_size"],
    }
}

/// The keys of a timer of a policy.
fn timer_keys(rules: Rules) -> &'static [&'static str] {
    match rules {
        Rules::Plain => &[],
        Rules::Linux => &["name"],
    }
}

fn workload_keys(rules: Rules, table: Table) -> &'static [&'static str] {
    match table {
        Table::Top => workload_top_keys(rules),
        Table::Group => &["name", "weight", "parent", "cpu_max"],
        Table::Task => task_keys(rules),
        Table::Change => change_keys(rules),
        Table::Map | Table::Timer | Table::Programs => &[],
    }
}

/// The keys of a workload above its tables.
fn workload_top_keys(rules: Rules) -> &'static [&'static str] {
    match rules {
        Rules::Plain => &["cpus", "ms", "group", "task", "change"],
        Rules::Linux => &["cpus", "ms", "seed", "group", "task", "change"],
    }
}

/// The keys of a change of a workload.
fn change_keys(rules: Rules) -> &'static [&'static str] {
    match rules {
        Rules::Plain => &["at", "group", "weight"],
        Rules::Linux => &["at", "group", "task", "weight"],
    }
}

/// The keys of a task of a workload.
fn task_keys(rules: Rules) -> &'static [&'static str] {
    match rules {
        Rules::Plain => &["name", "group", "start", "run", "sleep"],
        Rules::Linux => &["name", "group", "weight", "cpus", "start", "run", "sleep"],
    }
}

fn events_keys(rules: Rules, table: Table) -> &'static [&'static str] {
    match table {
        Table::Top => events_top_keys(rules),
        Table::Group => &["name", "weight", "parent", "cpu_max"],
        Table::Task => listed_task_keys(rules),
        Table::Map | Table::Timer | Table::Programs | Table::Change => &[],
    }
}

/// The keys of a file of events above its tables.
fn events_top_keys(rules: Rules) -> &'static [&'static str] {
    match rules {
        Rules::Plain => &["cpus", "ms", "group", "task", "events"],
        Rules::Linux => &["cpus", "ms", "seed", "group", "task", "events"],
    }
}

/// The keys of a task of a file of events.
fn listed_task_keys(rules: Rules) -> &'static [&'static str] {
    match rules {
        Rules::Plain => &["name", "group"],
        Rules::Linux => &["name", "group", "weight", "cpus"],
    }
}

/// The key at the end of a path. A path is `KEY`, `code.KEY`, `slots.KEY` or `ARRAY.NUMBER.KEY`.
fn key_of(path: &str) -> Key<'_> {
    let Some((first, rest)) = path.split_once('.') else {
        return top(path);
    };
    if first == "code" || first == "slots" {
        return Key {
            table: Table::Programs,
            word: rest,
        };
    }
    match (array_of(first), rest.split_once('.')) {
        (Some(table), Some((_number, word))) => Key { table, word },
        _ => top(path),
    }
}

/// A key at the top of a file.
fn top(word: &str) -> Key<'_> {
    Key {
        table: Table::Top,
        word,
    }
}

/// The table of each element of the array at that key, if an array may be there.
fn array_of(key: &str) -> Option<Table> {
    if key == "map" {
        Some(Table::Map)
    } else if key == "timer" {
        Some(Table::Timer)
    } else if key == "group" {
        Some(Table::Group)
    } else if key == "task" {
        Some(Table::Task)
    } else if key == "change" {
        Some(Table::Change)
    } else {
        None
    }
}
