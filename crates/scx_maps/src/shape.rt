ghost use Rattle.std.specs.Prelude.{◌≡◌, ◌≤◌, ◌↔◌, IsTrue};
ghost use Rattle.scx_isa_semantics.specs.declared.map_kinds.MapKind.TheVariants.{Array};
ghost use Rattle.scx_maps.specs.Limits.{HasEntries, HasValueSize, IsWithinLimits, byte_count};
ghost use Rattle.scx_maps.specs.Contents.{is_array};
ghost use Rattle.scx_maps.specs.Slots.{slots};

use scx_isa_semantics::MapKind;

/// The most entries that a map may have.
pub const MAX_ENTRIES: u32 = 65536;

/// The most bytes that a value may have.
pub const MAX_VALUE_SIZE: u32 = 4096;

/// The copies of a map that each CPU has its own copy of.
const COPIES: usize = 64;

/// The number of entries of a map, the size of each in bytes, and the kind of the map. Of a map that
/// each CPU has a copy of, these are the entries of one copy.
#[derive(Clone, Copy, Debug, PartialEq, Eq)]
pub struct Shape {
    pub entries: u32,
    pub value_size: u32,
    pub kind: MapKind,
}

impl Shape {
    /// The shape of an array.
    pub fn array(entries: u32, value_size: u32) -> Shape
        ensures entries { result.entries ≡ entries }
        ensures value_size { result.value_size ≡ value_size }
        ensures kind { result.kind ≡ Array }
    {
        Shape {
            entries,
            value_size,
            kind: MapKind::Array,
        }
    }

    /// True if the number of entries is within its limits.
    pub(crate) fn has_entries(&self) -> bool
        ensures { IsTrue result ↔ HasEntries self.now }
    {
        1 <= self.entries && self.entries <= MAX_ENTRIES
    }

    /// True if the size of a value is within its limits.
    pub(crate) fn has_value_size(&self) -> bool
        ensures { IsTrue result ↔ HasValueSize self.now }
    {
        1 <= self.value_size && self.value_size <= MAX_VALUE_SIZE
    }

    /// True if it is the shape of an array.
    pub(crate) fn is_array(&self) -> bool
        ensures { result ≡ is_array self.now }
    {
        matches!(self.kind, MapKind::Array)
    }

    /// The elements of the map, of all copies.
    pub(crate) fn slots(&self) -> usize
        ensures { result ≡ slots self.now }
    {
        let entries = self.entries as usize;
        match self.kind {
            MapKind::PerCpu => entries * COPIES,
            _ => entries,
        }
    }

    /// The size in bytes of all values of a map.
    pub(crate) fn bytes(&self) -> usize
        requires { IsWithinLimits self.now }
        ensures { result ≡ byte_count self.now }
    {
        self.slots() * self.value_size as usize
    }
}
