ghost use Rattle.std.specs.Prelude.{◌≡◌, ◌≤◌, ◌↔◌, [], length, slice_get, All, IsOk, IsTrue, IfOk, IfErr, IfSome, OnOk};
ghost use Rattle.std.specs.Cmp.Lexicographic.{lists_per, lists_equiv};
ghost use Rattle.scx_maps.specs.SameShapes.{same_shape_per, same_shape_equiv};
ghost use Rattle.scx_maps.specs.declared.shape.TheConstants.{MAX_VALUE_SIZE};
ghost use Rattle.scx_maps.specs.Limits.{AreWithinLimits, IsWithinLimits, total_bytes};
ghost use Rattle.scx_maps.specs.Refusals.{Breaks};
ghost use Rattle.scx_maps.specs.Contents.{are_arrays};
ghost use Rattle.scx_maps.specs.Sameness.{same_shapes};

use crate::bad_shape::BadShape;
use crate::shape::Shape;
use scx_isa_semantics::MapKind;
use std::marker::Model;

/// The most maps that a policy may have.
pub const MAX_MAPS: usize = 16;

/// The most bytes that the values of all maps may take together.
pub const MAX_BYTES: usize = 16_777_216;

const UNUSED_SHAPE: Shape = Shape {
    entries: 0,
    value_size: 0,
    kind: MapKind::Array,
};

/// The shapes of a policy's maps, numbered from 0, within the limits.
///
/// In a contract it is the list of the shapes.
#[derive(Clone, Copy)]
pub struct MapDefs {
    shapes: [Shape; MAX_MAPS],
    count: usize,
}

impl Model for MapDefs {
    ghost use Rattle.std.specs.Prelude.{List, take, length};
    ghost use Rattle.scx_maps.specs.declared.shape.Shape.{Shape};
    ghost use Rattle.scx_maps.specs.Unused.{IsFilledUp, filled_up};

    ghost Value = { List Shape };

    ghost view = { λ d. take d.count d.shapes };

    ghost invariant = { λ d. IsFilledUp d.shapes d.count };

    ghost inverse = { λ shapes. record { shapes = filled_up shapes; count = length shapes } };

    ghost inverse_ok = { λ d h. λ i. record { shapes = h.unused i; count = h.held i } };
}

impl MapDefs {
    /// The maps of these shapes, in their order; no shape at all is fine. Refused where a limit is
    /// broken, by the first that is: the number of maps, then map by map the entries and the value
    /// size, then the bytes of all maps.
    pub fn new(shapes: &[Shape]) -> Result<MapDefs, BadShape>
        ensures held { IfOk result (λ defs. defs ≡ shapes.now) }
        ensures accepted { IsOk result ↔ AreWithinLimits shapes.now }
        ensures refused { IfErr result (λ bad. Breaks shapes.now bad) }
    {
        if shapes.len() > MAX_MAPS {
            return Err(BadShape::TooManyMaps);
        }
        check_each(shapes)?;
        if bytes_of_all(shapes) > MAX_BYTES {
            return Err(BadShape::TooLarge);
        }
        Ok(filled_up(shapes))
    }

    /// No shape at all.
    pub fn none() -> MapDefs
        ensures { result ≡ [] }
    {
        filled_up(&[])
    }

    /// The number of maps.
    pub fn count(&self) -> usize
        ensures count { result ≡ length self.now }
        ensures limits { AreWithinLimits self.now }
    {
        self.count
    }

    /// The shape of a map; `None` where there is no map of that number.
    pub fn shape(&self, map: u8) -> Option<Shape>
        ensures shape { result ≡ slice_get self.now map }
        ensures limits { AreWithinLimits self.now }
        ensures value_size { IfSome result (λ shape. shape.value_size ≤ MAX_VALUE_SIZE) }
    {
        self.shapes().get(usize::from(map)).copied()
    }

    /// True if all are shapes of arrays.
    pub fn are_arrays(&self) -> bool
        ensures { result ≡ are_arrays self.now }
    {
        for shape in self.shapes() {
            if !shape.is_array() {
                return false;
            }
        }
        true
    }

    /// All shapes, in order.
    pub(crate) fn shapes(&self) -> &[Shape]
        ensures shapes { result.now ≡ self.now }
        ensures limits { AreWithinLimits self.now }
    {
        &self.shapes[..self.count]
    }
}

impl PartialEq for MapDefs {
    ghost eq = { same_shapes };

    ghost laws = { lists_per same_shape_per };

    /// True if both have the same shapes, in the same order.
    fn eq(&self, other: &MapDefs) -> bool
        ensures answer { result ≡ same_shapes self.now other.now }
        ensures same { IsTrue result ↔ (self.now ≡ other.now) }
    {
        self.shapes() == other.shapes()
    }
}

impl Eq for MapDefs {
    ghost laws = { lists_equiv same_shape_equiv };
}

/// Refuses the first map that breaks a limit of its own.
fn check_each(shapes: &[Shape]) -> Result<(), BadShape>
    requires { length shapes.now ≤ MAX_MAPS }
    ensures each { OnOk result (All IsWithinLimits shapes.now) }
    ensures refused { IfErr result (λ bad. Breaks shapes.now bad) }
{
    for (map, shape) in shapes.iter().enumerate() {
        if !shape.has_entries() {
            return Err(BadShape::Entries { map: map as u8 });
        }
        if !shape.has_value_size() {
            return Err(BadShape::ValueSize { map: map as u8 });
        }
    }
    Ok(())
}

/// The size in bytes of the values of maps that are each within their limits.
fn bytes_of_all(shapes: &[Shape]) -> usize
    requires count { length shapes.now ≤ MAX_MAPS }
    requires each { All IsWithinLimits shapes.now }
    ensures { result ≡ total_bytes shapes.now }
{
    let mut bytes = 0;
    for shape in shapes {
        bytes += shape.bytes();
    }
    bytes
}

/// The definitions that hold these shapes.
fn filled_up(shapes: &[Shape]) -> MapDefs
    requires { AreWithinLimits shapes.now }
    ensures { result ≡ shapes.now }
{
    let mut padded = [UNUSED_SHAPE; MAX_MAPS];
    let count = shapes.len();
    padded[..count].copy_from_slice(shapes);
    MapDefs {
        shapes: padded,
        count,
    }
}
