ghost use Rattle.std.specs.Prelude.{◌≡◌, ◌+◌, ◌≤◌, true, false, None, IfSome};
ghost use Rattle.scx_abs_ranges.specs.Ranges.{single};
ghost use Rattle.scx_abs.specs.Kinds.{join_kind};
ghost use Rattle.scx_abs.specs.declared.kinds.Kind.TheVariants as Kind;
ghost use Rattle.scx_abs.specs.Cells.{kind_of, held_of, cell_of, common, with_bytes, join_pointers, join_cell};
ghost use Rattle.scx_abs.specs.Cells.{all_written, written_in};
ghost use Rattle.scx_abs.specs.Singles.{is_single_number};

use scx_abs_ranges::{Numbers, Offsets};

/// The number of bytes in a cell.
pub const CELL_BYTES: usize = 8;

/// The kind of a register's value.
#[derive(Clone, Copy, PartialEq, Eq)]
pub enum Kind {
    /// Nothing: it may not be read.
    Unusable,
    /// A number, one of these.
    Num(Numbers),
    /// A pointer to that byte of the stack, 0 to 512; 512 is its top, past the last one.
    Stack(u16),
    /// A pointer into an element of that map, to one of these bytes of it or to its end.
    Elem(u8, Offsets),
    /// A pointer to the first byte of an element of that map, or 0.
    ElemOrNull(u8),
    /// A pointer to a task.
    Task,
    /// A pointer to a task, or 0.
    TaskOrNull,
    /// A reference to that map.
    MapRef(u8),
}

/// The kind of a pointer that a cell of the stack keeps.
#[derive(Clone, Copy)]
pub enum Held {
    /// A pointer to that byte of the stack, 0 to 512.
    Stack(u16),
    /// A pointer into an element of that map, to one of these bytes of it or to its end.
    Elem(u8, Offsets),
    /// A pointer to the first byte of an element of that map, or 0.
    ElemOrNull(u8),
    /// A pointer to a task.
    Task,
    /// A pointer to a task, or 0.
    TaskOrNull,
    /// A reference to that map.
    MapRef(u8),
}

/// The kind of eight aligned bytes of the stack.
#[derive(Clone, Copy)]
pub enum Cell {
    /// To which of the bytes a number was written, from the lowest on.
    Bytes([bool; CELL_BYTES]),
    /// All eight are those of such a pointer.
    Pointer(Held),
}

impl Kind {
    /// The least kind that covers both.
    #[inline(never)]
    pub(crate) fn join(self, other: Kind) -> Kind
        ensures { result ≡ join_kind self other }
    {
        match self {
            Kind::Unusable => Kind::Unusable,
            Kind::Num(numbers) => join_numbers(numbers, other),
            Kind::Stack(at) => join_stack(at, other),
            Kind::Elem(map, offsets) => join_element(map, offsets, other),
            Kind::ElemOrNull(map) => join_element_or_null(map, other),
            Kind::Task => join_task(other),
            Kind::TaskOrNull => join_task_or_null(other),
            Kind::MapRef(map) => join_map(map, other),
        }
    }

    /// Joins another one in.
    #[inline(always)]
    #[tactic(auto, using(crate::proofs::Joins::join_nothing))]
    pub(crate) fn join_in(&mut self, other: &Kind)
        ensures { self.new ≡ join_kind self.old other.now }
    {
        let other = *other;
        match other {
            Kind::Unusable => *self = Kind::Unusable,
            Kind::Num(others) => self.join_numbers_in(others),
            _ => self.join_pointer_in(other),
        }
    }

    /// Joins a number of these in.
    #[inline(always)]
    fn join_numbers_in(&mut self, others: Numbers)
        ensures { self.new ≡ join_kind self.old (Kind.Num others) }
    {
        let kind = *self;
        match kind {
            Kind::Num(numbers) => *self = Kind::Num(numbers.join(others)),
            _ => *self = Kind::Unusable,
        }
    }

    /// Joins what is mostly a pointer in.
    #[inline(never)]
    fn join_pointer_in(&mut self, other: Kind)
        ensures { self.new ≡ join_kind self.old other }
    {
        let kind = *self;
        *self = kind.join(other);
    }

    /// The number, if it is a single one.
    #[inline(always)]
    pub(crate) fn single(self) -> Option<u64>
        ensures one { IfSome result (λ n. self ≡ Kind.Num (single n)) }
        ensures several { result ≡ None → is_single_number self ≡ false }
    {
        match self {
            Kind::Num(numbers) => numbers.number(),
            _ => None,
        }
    }

    /// True if a join with the other surely leaves it as it is.
    #[inline(always)]
    #[tactic(auto, using(crate::proofs::Joins::join_same))]
    pub(crate) fn keeps(&self, other: &Kind) -> bool
        ensures { result ≡ true → join_kind self.now other.now ≡ self.now }
    {
        match *self {
            Kind::Unusable => true,
            _ => are_same(*self, *other),
        }
    }

    /// The kind of pointer that a cell keeps; none of a number, and none where nothing is known.
    pub(crate) fn held(self) -> Option<Held>
        ensures { result ≡ held_of self }
    {
        match self {
            Kind::Unusable | Kind::Num(_) => None,
            Kind::Stack(at) => Some(Held::Stack(at)),
            Kind::Elem(map, offsets) => Some(Held::Elem(map, offsets)),
            Kind::ElemOrNull(map) => Some(Held::ElemOrNull(map)),
            Kind::Task => Some(Held::Task),
            Kind::TaskOrNull => Some(Held::TaskOrNull),
            Kind::MapRef(map) => Some(Held::MapRef(map)),
        }
    }
}

/// True if they are the same numbers, or pointers to the same byte of the stack or bytes of a map
/// value.
#[inline(always)]
fn are_same(kind: Kind, other: Kind) -> bool
    ensures { result ≡ true → kind ≡ other }
{
    match kind {
        Kind::Num(numbers) => is_number_of(numbers, other),
        Kind::Stack(at) => is_stack_at(at, other),
        Kind::Elem(map, offsets) => is_element_at(map, offsets, other),
        _ => false,
    }
}

/// True if the kind is that of a number of these.
#[inline(always)]
fn is_number_of(numbers: Numbers, kind: Kind) -> bool
    ensures { result ≡ true → Kind.Num numbers ≡ kind }
{
    match kind {
        Kind::Num(others) => numbers == others,
        _ => false,
    }
}

/// True if the kind is that of a pointer to that byte of the stack.
#[inline(always)]
fn is_stack_at(at: u16, kind: Kind) -> bool
    ensures { result ≡ true → Kind.Stack at ≡ kind }
{
    match kind {
        Kind::Stack(same) => at == same,
        _ => false,
    }
}

/// True if the kind is that of a pointer to one of these offsets in a value of that map.
#[inline(always)]
fn is_element_at(map: u8, offsets: Offsets, kind: Kind) -> bool
    ensures { result ≡ true → Kind.Elem map offsets ≡ kind }
{
    match kind {
        Kind::Elem(same, others) => map == same && offsets == others,
        _ => false,
    }
}

/// The least kind that covers a number of these and another kind.
#[inline(always)]
fn join_numbers(numbers: Numbers, other: Kind) -> Kind
    ensures { result ≡ join_kind (Kind.Num numbers) other }
{
    match other {
        Kind::Num(others) => Kind::Num(numbers.join(others)),
        _ => Kind::Unusable,
    }
}

/// The least kind that covers a pointer to that byte of the stack and another kind.
fn join_stack(at: u16, other: Kind) -> Kind
    ensures { result ≡ join_kind (Kind.Stack at) other }
{
    match other {
        Kind::Stack(same) if at == same => Kind::Stack(at),
        _ => Kind::Unusable,
    }
}

/// The least kind that covers a pointer into an element and another kind.
fn join_element(map: u8, offsets: Offsets, other: Kind) -> Kind
    ensures { result ≡ join_kind (Kind.Elem map offsets) other }
{
    match other {
        Kind::Elem(same, others) if map == same => Kind::Elem(map, offsets.join(others)),
        Kind::ElemOrNull(same) if map == same && offsets.high() == 0 => other,
        _ => Kind::Unusable,
    }
}

/// The least kind that covers a pointer to an element's first byte, or 0, and another kind.
fn join_element_or_null(map: u8, other: Kind) -> Kind
    ensures { result ≡ join_kind (Kind.ElemOrNull map) other }
{
    match other {
        Kind::Elem(same, offsets) if map == same && offsets.high() == 0 => Kind::ElemOrNull(map),
        Kind::ElemOrNull(same) if map == same => Kind::ElemOrNull(map),
        _ => Kind::Unusable,
    }
}

/// The least kind that covers a pointer to a task and another kind.
fn join_task(other: Kind) -> Kind
    ensures { result ≡ join_kind Kind.Task other }
{
    match other {
        Kind::Task | Kind::TaskOrNull => other,
        _ => Kind::Unusable,
    }
}

/// The least kind that covers a pointer to a task, or 0, and another kind.
fn join_task_or_null(other: Kind) -> Kind
    ensures { result ≡ join_kind Kind.TaskOrNull other }
{
    match other {
        Kind::Task | Kind::TaskOrNull => Kind::TaskOrNull,
        _ => Kind::Unusable,
    }
}

/// The least kind that covers a reference to a map and another kind.
fn join_map(map: u8, other: Kind) -> Kind
    ensures { result ≡ join_kind (Kind.MapRef map) other }
{
    match other {
        Kind::MapRef(same) if map == same => Kind::MapRef(map),
        _ => Kind::Unusable,
    }
}

impl Held {
    /// The kind of a register that the pointer is loaded to.
    pub fn kind(self) -> Kind
        ensures { result ≡ kind_of self }
    {
        match self {
            Held::Stack(at) => Kind::Stack(at),
            Held::Elem(map, offsets) => Kind::Elem(map, offsets),
            Held::ElemOrNull(map) => Kind::ElemOrNull(map),
            Held::Task => Kind::Task,
            Held::TaskOrNull => Kind::TaskOrNull,
            Held::MapRef(map) => Kind::MapRef(map),
        }
    }
}

impl Cell {
    /// The least cell that covers both.
    pub(crate) fn join(self, other: Cell) -> Cell
        ensures { result ≡ join_cell self other }
    {
        match (self, other) {
            (Cell::Bytes(first), Cell::Bytes(second)) => Cell::Bytes(common(first, second)),
            (Cell::Pointer(first), Cell::Pointer(second)) => join_pointers(first, second),
            _ => Cell::Bytes([false; CELL_BYTES]),
        }
    }

    /// To which of its bytes a number was written.
    pub(crate) fn written(self) -> [bool; CELL_BYTES]
        ensures { result ≡ written_in self }
    {
        match self {
            Cell::Bytes(set) => set,
            Cell::Pointer(_) => [false; CELL_BYTES],
        }
    }
}

/// The cell of two stored pointers.
fn join_pointers(first: Held, second: Held) -> Cell
    ensures { result ≡ join_pointers first second }
{
    cell_of(first.kind().join(second.kind()).held())
}

/// The cell of a stored pointer, or of eight bytes of which nothing is known.
fn cell_of(pointer: Option<Held>) -> Cell
    ensures { result ≡ cell_of pointer }
{
    match pointer {
        Some(pointer) => Cell::Pointer(pointer),
        None => Cell::Bytes([false; CELL_BYTES]),
    }
}

/// The bytes that are in both sets.
fn common(first: [bool; CELL_BYTES], second: [bool; CELL_BYTES]) -> [bool; CELL_BYTES]
    ensures { result ≡ common first second }
{
    let mut common = [false; CELL_BYTES];
    for byte in 0..CELL_BYTES {
        common[byte] = first[byte] & second[byte];
    }
    common
}

/// The set with `count` bytes from `first` on.
#[inline(always)]
pub(crate) fn marked(set: [bool; CELL_BYTES], first: usize, count: usize) -> [bool; CELL_BYTES]
    requires { first + count ≤ CELL_BYTES }
    ensures { result ≡ with_bytes set first count }
{
    if count == CELL_BYTES {
        return [true; CELL_BYTES];
    }
    let mut marked = set;
    for byte in first..first + count {
        marked[byte] = true;
    }
    marked
}

/// True if `count` bytes from `first` on are in the set.
pub(crate) fn all_written(set: [bool; CELL_BYTES], first: usize, count: usize) -> bool
    requires { first + count ≤ CELL_BYTES }
    ensures { result ≡ all_written set first count }
{
    for byte in first..first + count {
        if !set[byte] {
            return false;
        }
    }
    true
}
