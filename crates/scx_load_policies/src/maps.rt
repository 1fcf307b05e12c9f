ghost use Rattle.std.specs.Prelude.{◌≡◌, [], codes, length, All, IfOk};
ghost use Rattle.toml.specs.View.{view, table_view, items_view};
ghost use Rattle.scx_load_files.specs.Faults.{Gives};
ghost use Rattle.scx_load_files.specs.Paths.{below};
ghost use Rattle.scx_load_files.specs.Values.{each_from};
ghost use Rattle.scx_maps.specs.Limits.{AreWithinLimits};
ghost use Rattle.scx_load_policies.specs.Maps.{hash_in, without_key_size, kind_named, kind_of, kind_in, shape_in, map_at, fitting, maps};

use scx_load_files::{Cause, Limits, LoadError, Section, element_path, refused};
use scx_maps::{KeySize, MAX_ENTRIES, MAX_MAPS, MAX_VALUE_SIZE, MapDefs, MapKind, Shape};
use std::alloc::Global;
use toml::Value;

const ENTRIES: Limits = Limits {
    least: 1,
    most: MAX_ENTRIES,
};

const VALUE_SIZE: Limits = Limits {
    least: 1,
    most: MAX_VALUE_SIZE,
};

/// The bytes of a key of a hash.
const KEY_SIZE: Limits = Limits { least: 4, most: 8 };

/// The shapes of the maps of a file.
pub(crate) fn read_maps(alloc: Global, file: Section<'_>) -> Result<MapDefs, LoadError>
    requires { file.path.now ≡ [] }
    ensures { Gives (λ defs. defs) result (maps (table_view file.entry.table.now)) }
{
    let elements = file.elements(alloc, "map", MAX_MAPS)?;
    let shapes = read_shapes(alloc, elements)?;
    match MapDefs::new(&shapes) {
        Ok(defs) => Ok(defs),
        Err(_) => refused(alloc, "", "map", Cause::OutOfRange),
    }
}

fn read_shapes(alloc: Global, elements: &[Value]) -> Result<Vec<Shape>, LoadError>
    ensures { Gives (λ shapes. shapes.items) result (each_from map_at 0 (items_view elements.now)) }
{
    let mut shapes = Vec::with_capacity(alloc, elements.len())?;
    for (number, value) in elements.iter().enumerate() {
        shapes.push(read_shape(alloc, number, value)?)?;
    }
    Ok(shapes)
}

fn read_shape(alloc: Global, number: usize, value: &Value) -> Result<Shape, LoadError>
    ensures { Gives (λ shape. shape) result (map_at number (view value.now)) }
{
    let path = element_path(alloc, "map", number)?;
    let map = Section::of(alloc, &path, value)?;
    let entries = map.integer(alloc, "entries", ENTRIES)?;
    let value_size = map.integer(alloc, "value_size", VALUE_SIZE)?;
    let kind = read_kind(alloc, map)?;
    Ok(Shape {
        entries,
        value_size,
        kind,
    })
}

/// The kind of a map; where the key is absent, an array.
fn read_kind(alloc: Global, map: Section<'_>) -> Result<MapKind, LoadError>
    ensures { Gives (λ kind. kind) result
        (kind_in map.entry.path.now (table_view map.entry.table.now)) }
{
    match map.value("kind") {
        Some(value) => kind_of(alloc, map, value),
        None => without_key_size(alloc, map, MapKind::Array),
    }
}

/// The kind of map that the value of the key names.
fn kind_of(alloc: Global, map: Section<'_>, value: &Value) -> Result<MapKind, LoadError>
    ensures { Gives (λ kind. kind) result
        (kind_of (below map.entry.path.now (codes "kind")) map.entry.path.now
        (table_view map.entry.table.now) (view value.now)) }
{
    let text = map.text_in(alloc, "kind", value)?;
    kind_named(alloc, map, text)
}

/// The kind of map that a text names.
fn kind_named(alloc: Global, map: Section<'_>, text: &str) -> Result<MapKind, LoadError>
    ensures { Gives (λ kind. kind) result
        (kind_named map.entry.path.now (table_view map.entry.table.now) text.now) }
{
    match text {
        "array" => without_key_size(alloc, map, MapKind::Array),
        "hash" => read_hash(alloc, map),
        "queue" => without_key_size(alloc, map, MapKind::Queue),
        "stack" => without_key_size(alloc, map, MapKind::Stack),
        "percpu" => without_key_size(alloc, map, MapKind::PerCpu),
        _ => refused(alloc, map.path, "kind", Cause::OutOfRange),
    }
}

/// A hash has keys of 4 or 8 bytes.
fn read_hash(alloc: Global, map: Section<'_>) -> Result<MapKind, LoadError>
    ensures { Gives (λ kind. kind) result
        (hash_in map.entry.path.now (table_view map.entry.table.now)) }
{
    match map.integer(alloc, "key_size", KEY_SIZE)? {
        4 => Ok(MapKind::Hash(KeySize::Four)),
        8 => Ok(MapKind::Hash(KeySize::Eight)),
        _ => refused(alloc, map.path, "key_size", Cause::OutOfRange),
    }
}

/// Refuses the key `key_size`, which a hash alone has.
fn without_key_size(alloc: Global, map: Section<'_>, kind: MapKind) -> Result<MapKind, LoadError>
    ensures { Gives (λ kind. kind) result
        (without_key_size kind map.entry.path.now (table_view map.entry.table.now)) }
{
    match map.value("key_size") {
        Some(_) => refused(alloc, map.path, "key_size", Cause::OutOfRange),
        None => Ok(kind),
    }
}
