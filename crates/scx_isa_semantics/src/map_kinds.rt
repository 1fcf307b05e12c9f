/// The number of bytes of a hash map's keys.
#[derive(Clone, Copy, Debug, PartialEq, Eq)]
pub enum KeySize {
    Four,
    Eight,
}

/// The kind of a map: how a program finds its elements. Plain rules know arrays alone.
#[derive(Clone, Copy, Debug, PartialEq, Eq)]
pub enum MapKind {
    /// An element's key is its index.
    Array,
    /// An array of which each CPU has its own copy.
    PerCpu,
    Hash(KeySize),
    /// The value that was pushed first is popped first.
    Queue,
    /// The value that was pushed last is popped first.
    Stack,
}

/// The values of a queue or a stack, which are in a ring of elements: the element of the oldest, and
/// their number.
#[derive(Clone, Copy, Debug, PartialEq, Eq)]
pub struct Line {
    pub first: u32,
    pub count: u32,
}
