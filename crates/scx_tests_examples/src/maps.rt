use crate::same::expect_same;
use scx_maps::{BadShape, MapDefs, MapKind, Maps, Shape, Size};
use std::process::Abort;
use std::test::Fail;

macro_rules! shape {
    ($entries:expr, $value_size:expr) => {
        Shape {
            entries: $entries,
            value_size: $value_size,
            kind: MapKind::Array,
        }
    };
}

const LEAST: Shape = shape!(1, 1);

/// The most bytes of all maps.
const FULL: Shape = shape!(65536, 256);

/// Shapes, and why they are refused, if they are.
type Row<'a> = (&'a [Shape], Option<BadShape>);

fn refuse(rt: &impl Abort, rows: &[Row<'_>]) {
    for &(shapes, wanted) in rows {
        expect_same(rt, MapDefs::new(shapes).err(), wanted, shapes);
    }
}

/// The number at an offset of an element, if its bytes are there.
fn load(maps: &Maps, map: u8, index: u32, offset: u16, size: Size) -> Option<u64> {
    let held = maps.value_size(map, index);
    if 0 < held && usize::from(offset) + usize::from(size.bytes()) <= usize::from(held) {
        Some(maps.load(map, index, offset, size))
    } else {
        None
    }
}

/// Stores a number at an offset of an element; false if its bytes aren't there.
fn store(maps: &mut Maps, map: u8, index: u32, offset: u16, size: Size, number: u64) -> bool {
    let held = maps.value_size(map, index);
    if 0 < held && usize::from(offset) + usize::from(size.bytes()) <= usize::from(held) {
        maps.store(map, index, offset, size, number);
        true
    } else {
        false
    }
}

/// The bytes of an element, none if the maps don't have it.
fn bytes(maps: &Maps, map: u8, index: u32) -> &[u8] {
    if usize::from(map) < maps.count() && maps.lookup(map, index) {
        maps.value(map, index)
    } else {
        &[]
    }
}

/// Writes a byte over each byte of an element.
fn fill(maps: &mut Maps, map: u8, index: u32, byte: u8) {
    for offset in 0..maps.value_size(map, index) {
        store(maps, map, index, offset, Size::Byte, u64::from(byte));
    }
}

fn defs(rt: &impl Abort, shapes: &[Shape]) -> MapDefs {
    MapDefs::new(shapes).expect(rt, "the shapes are within the limits")
}

/// The shapes by their numbers are these.
fn expect_shapes(rt: &impl Abort, defs: &MapDefs, rows: &[(u8, Option<Shape>)]) {
    for &(map, wanted) in rows {
        expect_same(rt, defs.shape(map), wanted, map);
    }
}

/// Maps of these shapes, `count` in all, are held.
fn expect_held(rt: &impl Abort, shapes: &[Shape], count: usize, rows: &[(u8, Option<Shape>)]) {
    let defs = defs(rt, shapes);
    expect_same(rt, defs.count(), count, "maps");
    expect_shapes(rt, &defs, rows);
}

const TWO: [Shape; 2] = [shape!(3, 8), shape!(1, 4096)];

const SHAPES_OF_TWO: [(u8, Option<Shape>); 4] = [
    (0, Some(shape!(3, 8))),
    (1, Some(shape!(1, 4096))),
    (2, None),
    (16, None),
];

const LARGEST: [Row<'static>; 2] = [(&[FULL], None), (&[shape!(4096, 4096)], None)];

#[test]
fn shapes_within_the_limits_are_held(rt: HostRuntime) {
    expect_held(&rt, &[], 0, &[(0, None)]);
    expect_held(&rt, &TWO, 2, &SHAPES_OF_TWO);
    expect_held(&rt, &[LEAST; 16], 16, &[]);
    refuse(&rt, &LARGEST);
}

#[test]
fn shapes_are_compared(rt: HostRuntime) {
    let none = defs(&rt, &[]);
    let two = defs(&rt, &TWO);
    expect_same(&rt, (two == two, two == none), (true, false), "shapes");
}

const REFUSED: [Row<'static>; 9] = [
    (&[LEAST; 17], Some(BadShape::TooManyMaps)),
    (&[shape!(0, 0); 17], Some(BadShape::TooManyMaps)),
    (&[shape!(0, 8)], Some(BadShape::Entries { map: 0 })),
    (&[shape!(65537, 1)], Some(BadShape::Entries { map: 0 })),
    (&[shape!(u32::MAX, 1)], Some(BadShape::Entries { map: 0 })),
    (&[shape!(1, 0)], Some(BadShape::ValueSize { map: 0 })),
    (&[shape!(1, 4097)], Some(BadShape::ValueSize { map: 0 })),
    (
        &[LEAST, shape!(1, 0), shape!(0, 1)],
        Some(BadShape::ValueSize { map: 1 }),
    ),
    (
        &[shape!(65536, 4096), LEAST, shape!(0, 0)],
        Some(BadShape::Entries { map: 2 }),
    ),
];

#[test]
fn the_first_broken_limit_is_named(rt: HostRuntime) {
    refuse(&rt, &REFUSED);
}

const OF_ALL_MAPS: [Row<'static>; 4] = [
    (&[FULL, LEAST], Some(BadShape::TooLarge)),
    (&[LEAST, FULL], Some(BadShape::TooLarge)),
    (&[shape!(65536, 4096); 16], Some(BadShape::TooLarge)),
    (&[shape!(256, 4096); 16], None),
];

#[test]
fn the_bytes_of_all_maps_are_limited(rt: HostRuntime) {
    refuse(&rt, &OF_ALL_MAPS);
}

const TOLD: [(BadShape, &str); 2] = [
    (
        BadShape::Entries { map: 3 },
        "map 3: not 1 to 65536 entries",
    ),
    (BadShape::TooLarge, "more than 16777216 bytes over all maps"),
];

fn expect_told<R: AllocGlobal + Abort>(
    rt: &R,
    refusal: BadShape,
    wanted: &str,
) -> Result<(), Fail> {
    let told = refusal.to_string(rt.alloc())?;
    expect_same(rt, told.as_str(), wanted, refusal);
    Ok(())
}

#[test]
fn refusals_are_told(rt: HostRuntime) -> Result<(), Fail> {
    for &(refusal, wanted) in &TOLD {
        expect_told(&rt, refusal, wanted)?;
    }
    Ok(())
}

/// Maps of these shapes.
fn maps<R: AllocGlobal + Abort>(rt: &R, shapes: &[Shape]) -> Maps {
    Maps::new(rt.alloc(), &defs(rt, shapes)).expect(rt, "memory is ample")
}

/// An element of a map, and its bytes.
type Element<'a> = (u8, u32, &'a [u8]);

fn expect_elements(rt: &impl Abort, maps: &Maps, rows: &[Element<'_>]) {
    for &(map, index, wanted) in rows {
        expect_same(rt, bytes(maps, map, index), wanted, (map, index));
    }
}

/// A number in map 0: its element, its offset there and its size, and what is loaded.
type Load = (u32, u16, Size, Option<u64>);

fn expect_loads(rt: &impl Abort, maps: &Maps, rows: &[Load]) {
    for &(index, offset, size, wanted) in rows {
        expect_same(
            rt,
            load(maps, 0, index, offset, size),
            wanted,
            (index, offset),
        );
    }
}

/// A number for map 0: its element, its offset there and its size, and whether there is a place for it.
type Store = (u32, u16, Size, u64, bool);

fn expect_stores(rt: &impl Abort, maps: &mut Maps, rows: &[Store]) {
    for &(index, offset, size, number, wanted) in rows {
        let stored = store(maps, 0, index, offset, size, number);
        expect_same(rt, stored, wanted, (index, offset));
    }
}

const ZEROS: [Element<'static>; 5] = [
    (0, 0, &[0; 3]),
    (0, 1, &[0; 3]),
    (1, 0, &[0]),
    (0, 2, &[]),
    (1, 1, &[]),
];

/// New maps of these shapes, `count` in all, have these elements.
fn expect_new<R: AllocGlobal + Abort>(
    rt: &R,
    shapes: &[Shape],
    count: usize,
    rows: &[Element<'_>],
) {
    let maps = maps(rt, shapes);
    expect_same(rt, maps.count(), count, "maps");
    expect_elements(rt, &maps, rows);
    drop(maps);
}

#[test]
fn new_maps_are_zero(rt: HostRuntime) {
    expect_new(&rt, &[shape!(2, 3), LEAST], 2, &ZEROS);
    expect_new(&rt, &[], 0, &[]);
}

const NUMBER: u64 = 0x0102_0304_0506_0708;

const BYTES_OF_NUMBER: [Element<'static>; 3] = [
    (0, 1, &[0, 8, 7, 6, 5, 4, 3, 2, 1, 0]),
    (0, 0, &[0; 10]),
    (0, 2, &[0; 10]),
];

const PARTS_OF_NUMBER: [Load; 5] = [
    (1, 1, Size::DoubleWord, Some(NUMBER)),
    (1, 2, Size::Word, Some(0x0405_0607)),
    (1, 3, Size::HalfWord, Some(0x0506)),
    (1, 8, Size::Byte, Some(1)),
    (1, 3, Size::DoubleWord, None),
];

#[test]
fn a_number_is_stored_low_byte_first(rt: HostRuntime) {
    let mut maps = maps(&rt, &[shape!(3, 10)]);
    expect_stores(&rt, &mut maps, &[(1, 1, Size::DoubleWord, NUMBER, true)]);
    expect_elements(&rt, &maps, &BYTES_OF_NUMBER);
    expect_loads(&rt, &maps, &PARTS_OF_NUMBER);
    drop(maps);
}

const STORES: [Store; 4] = [
    (0, 0, Size::Byte, 0x1111, true),
    (0, 2, Size::HalfWord, 0x0099_3322, true),
    (0, 4, Size::Word, 0x0099_7766_5544, true),
    (0, 5, Size::Word, 0, false),
];

const STORED: [u8; 8] = [0x11, 255, 0x22, 0x33, 0x44, 0x55, 0x66, 0x77];

#[test]
fn a_store_takes_the_lowest_bytes(rt: HostRuntime) {
    let mut maps = maps(&rt, &[shape!(1, 8)]);
    fill(&mut maps, 0, 0, 255);
    expect_stores(&rt, &mut maps, &STORES);
    expect_elements(&rt, &maps, &[(0, 0, &STORED)]);
    drop(maps);
}

const WRITTEN: [Element<'static>; 6] = [
    (0, 0, &[0, 0]),
    (0, 1, &[7, 7]),
    (1, 0, &[0]),
    (1, 1, &[9]),
    (1, 2, &[0]),
    (2, 0, &[0; 4]),
];

#[test]
fn a_write_stays_in_its_element(rt: HostRuntime) {
    let mut maps = maps(&rt, &[shape!(2, 2), shape!(3, 1), shape!(1, 4)]);
    fill(&mut maps, 1, 1, 9);
    fill(&mut maps, 0, 1, 7);
    expect_elements(&rt, &maps, &WRITTEN);
    drop(maps);
}

const LAST: [Store; 1] = [(65535, 248, Size::DoubleWord, u64::MAX, true)];

const AT_THE_END: [Load; 3] = [
    (65535, 248, Size::DoubleWord, Some(u64::MAX)),
    (65535, 240, Size::DoubleWord, Some(0)),
    (65536, 0, Size::Byte, None),
];

#[test]
fn the_largest_map_can_be_made(rt: HostRuntime) {
    let mut maps = maps(&rt, &[FULL]);
    expect_stores(&rt, &mut maps, &LAST);
    expect_loads(&rt, &maps, &AT_THE_END);
    drop(maps);
}
