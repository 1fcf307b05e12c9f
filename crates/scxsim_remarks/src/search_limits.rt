use crate::named_text::NamedText;
use scx_load_policies::read_policy;
use scx_load_workloads::{Workload, read_workload_by};
use scx_maps::{MapDefs, MapKind, Shape};
use scxsim_explore::{MOST_BYTES, MOST_CPUS, MOST_TASKS};
use scxsim_output::Text;
use std::alloc::{AllocError, Global};

/// The CPUs that have a copy each of a map of the kind `percpu`.
const COPIES: u64 = 64;

/// A hint at files that are too large for a search: the number that is past its limit, and the limit. None if they
/// aren't, they are refused, or memory ran out.
pub fn hint_on_limits(
    alloc: Global,
    policy: NamedText<'_>,
    workload: NamedText<'_>,
) -> Option<String> {
    let policy = read_policy(alloc, policy.text).ok()?;
    let (rules, maps) = (policy.rules(), sizes_of(policy.defs()));
    drop(policy);
    let workload = read_workload_by(alloc, rules, workload.text).ok()?;
    let hint = hint_of_sizes(alloc, &workload, maps);
    drop(workload);
    hint.ok()?
}

fn hint_of_sizes(
    alloc: Global,
    workload: &Workload,
    maps: MapSizes,
) -> Result<Option<String>, AllocError> {
    let Some(excess) = excess_of(workload, maps) else {
        return Ok(None);
    };
    let mut said = Text::new(alloc);
    push_excess(&mut said, excess);
    said.push("\n");
    Ok(Some(said.finish()?))
}

/// The first number that is past its limit.
enum Excess {
    Tasks(u64),
    Cpus(u64),
    Bytes(MapSizes),
}

fn excess_of(workload: &Workload, maps: MapSizes) -> Option<Excess> {
    let (tasks, cpus) = (workload.tasks().len(), workload.cpus());
    if tasks > MOST_TASKS {
        Some(Excess::Tasks(tasks as u64))
    } else if cpus > MOST_CPUS {
        Some(Excess::Cpus(u64::from(cpus)))
    } else if maps.all > MOST_BYTES as u64 {
        Some(Excess::Bytes(maps))
    } else {
        None
    }
}

fn push_excess(said: &mut Text, excess: Excess) {
    let workload = "the workload has";
    match excess {
        Excess::Tasks(tasks) => push_limit(said, workload, tasks, "tasks", MOST_TASKS as u64),
        Excess::Cpus(cpus) => push_limit(said, workload, cpus, "CPUs", u64::from(MOST_CPUS)),
        Excess::Bytes(maps) => {
            let (all, most) = (maps.all, MOST_BYTES as u64);
            push_limit(said, "the policy's maps have", all, "bytes", most);
            said.number("; map ", u64::from(maps.largest));
            said.number(" has ", maps.most);
        }
    }
}

/// `hint: the workload has 9 tasks; a search takes 8 at most`.
fn push_limit(said: &mut Text, who: &str, count: u64, what: &str, most: u64) {
    said.push("hint: ");
    said.push(who);
    said.number(" ", count);
    said.push(" ");
    said.push(what);
    said.number("; a search takes ", most);
    said.push(" at most");
}

/// The bytes of a policy's maps.
#[derive(Clone, Copy)]
struct MapSizes {
    all: u64,
    /// The number of the largest map; the first one, of several.
    largest: u8,
    /// The bytes of the largest map.
    most: u64,
}

fn sizes_of(defs: &MapDefs) -> MapSizes {
    let mut sizes = MapSizes {
        all: 0,
        largest: 0,
        most: 0,
    };
    for number in 0..u8::try_from(defs.count()).unwrap_or(u8::MAX) {
        if let Some(shape) = defs.shape(number) {
            let bytes = bytes_of(shape);
            sizes.all = sizes.all.saturating_add(bytes);
            if bytes > sizes.most {
                sizes.largest = number;
                sizes.most = bytes;
            }
        }
    }
    sizes
}

/// The bytes of all values of a map, of all copies.
fn bytes_of(shape: Shape) -> u64 {
    let copies = match shape.kind {
        MapKind::PerCpu => COPIES,
        _ => 1,
    };
    u64::from(shape.entries)
        .saturating_mul(u64::from(shape.value_size))
        .saturating_mul(copies)
}
