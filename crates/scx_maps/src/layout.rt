ghost use Rattle.std.specs.Prelude.{◌≡◌, ◌≤◌, ◌<◌, ◌+◌, [], length};
ghost use Rattle.scx_maps.specs.Limits.{AreWithinLimits, total_bytes};
ghost use Rattle.scx_maps.specs.Layout.{shape_at, offset_of};
ghost use Rattle.scx_maps.specs.Slots.{slots};

use crate::defs::{MAX_MAPS, MapDefs};
use crate::shape::Shape;
use std::marker::Model;

/// The place of each map in one block of bytes.
///
/// In a contract it is the list of the shapes.
#[derive(Drop)]
pub struct Layout {
    defs: MapDefs,
    /// The byte at which each map begins.
    starts: [usize; MAX_MAPS],
    /// The size of all maps in bytes.
    bytes: usize,
}

impl Model for Layout {
    ghost use Rattle.std.specs.Prelude.{List};
    ghost use Rattle.scx_maps.specs.declared.shape.Shape.{Shape};
    ghost use Rattle.scx_maps.specs.Layout.{IsLaidOut};

    ghost Value = { List Shape };

    ghost view = { λ l. l.defs };

    ghost invariant = { λ l. IsLaidOut l.defs l.starts l.bytes };
}

impl Layout {
    /// A copy of the layout.
    pub fn duplicate(&self) -> Layout
        ensures { result ≡ self.now }
    {
        Layout {
            defs: self.defs,
            starts: self.starts,
            bytes: self.bytes,
        }
    }

    pub fn new(defs: &MapDefs) -> Layout
        ensures { result ≡ defs.now }
    {
        let mut starts = [0; MAX_MAPS];
        let mut bytes = 0;
        for (map, shape) in defs.shapes().iter().enumerate() {
            starts[map] = bytes;
            bytes += shape.bytes();
        }
        Layout {
            defs: *defs,
            starts,
            bytes,
        }
    }

    /// The layout of no maps.
    pub fn none() -> Layout
        ensures { result ≡ [] }
    {
        Layout::new(&MapDefs::none())
    }

    /// The size of all maps in bytes.
    pub fn bytes(&self) -> usize
        ensures bytes { result ≡ total_bytes self.now }
        ensures limits { AreWithinLimits self.now }
    {
        self.bytes
    }

    /// The number of maps.
    pub fn count(&self) -> usize
        ensures count { result ≡ length self.now }
        ensures limits { AreWithinLimits self.now }
    {
        self.defs.count()
    }

    pub fn shape(&self, map: u8) -> Shape
        requires { map < length self.now }
        ensures { result ≡ shape_at self.now map }
    {
        self.defs.shapes()[usize::from(map)]
    }

    /// The size in bytes of each element of a map.
    pub fn value_size(&self, map: u8) -> u16
        requires { map < length self.now }
        ensures { result ≡ (shape_at self.now map).value_size }
    {
        self.defs.shapes()[usize::from(map)].value_size as u16
    }

    /// The byte at which an element begins.
    pub fn offset(&self, map: u8, index: u32) -> usize
        requires map { map < length self.now }
        requires index { index < slots (shape_at self.now map) }
        ensures offset { result ≡ offset_of self.now map index }
        ensures within { result + (shape_at self.now map).value_size ≤ total_bytes self.now }
        ensures limits { AreWithinLimits self.now }
    {
        let shape = self.shape(map);
        self.starts[usize::from(map)] + index as usize * shape.value_size as usize
    }
}
