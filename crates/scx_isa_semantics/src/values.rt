use crate::host_tables::TaskId;

/// The size of the stack in bytes. r10 points to its top, right after the last byte.
pub const STACK_SIZE: u16 = 512;

/// Where a pointer points.
#[derive(Clone, Copy)]
pub enum Pointer {
    /// A byte of the stack, 0 to 512; 512 is its top, past the last one.
    Stack(u16),
    Task(TaskId),
    Map(u8),
    /// A byte of an element of a map: the map, the element's index, and the byte within it.
    Element { map: u8, index: u32, offset: u16 },
}

/// The contents of a register.
#[derive(Clone, Copy)]
pub enum Value {
    /// Nothing yet: reading it has no meaning.
    Unset,
    Number(u64),
    Pointer(Pointer),
}

/// The contents of one byte of the stack.
#[derive(Clone, Copy)]
pub enum StackByte {
    Unwritten,
    Byte(u8),
    /// A part of a stored pointer, 0 to 7.
    Part(Pointer, u8),
}
