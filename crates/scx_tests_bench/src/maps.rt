//! An array map whose numbers are counted up.

use crate::Sum;
use scx_maps::{MapDefs, MapKind, Maps, Shape, Size};
use std::alloc::Global;

/// One map of 4096 values of 64 bytes.
const SHAPES: [Shape; 1] = [Shape {
    entries: 4096,
    value_size: 64,
    kind: MapKind::Array,
}];

/// Adds 1 to a number of some element of a map, over and over.
pub(crate) fn count_times(alloc: Global, times: u64) -> Sum {
    let defs = MapDefs::new(&SHAPES).ok()?;
    let mut maps = Maps::new(alloc, &defs).ok()?;
    count_in(&mut maps, times)
}

fn count_in(maps: &mut Maps, times: u64) -> Sum {
    let mut sum = 0u64;
    for time in 0..times {
        let index = (time.wrapping_mul(40503) % 4096) as u32;
        sum = sum.wrapping_add(count(maps, index)?);
    }
    Some(sum)
}

/// The number at byte 8 of an element of map 0, to which 1 is added, if there is one.
fn count(maps: &mut Maps, index: u32) -> Sum {
    if maps.count() == 0 || !maps.lookup(0, index) || maps.value(0, index).len() < 16 {
        return None;
    }
    let number = maps.load(0, index, 8, Size::DoubleWord);
    maps.store(0, index, 8, Size::DoubleWord, number.wrapping_add(1));
    Some(number)
}
