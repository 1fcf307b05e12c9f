ghost use Rattle.std.specs.Prelude.{◌≡◌, ◌+◌, ◌%◌, ◌≤◌, length, map, option_map};
ghost use Rattle.scx_isa_semantics.specs.Calls.{numbers_in};
ghost use Rattle.scx_isa_semantics.specs.Memory.{load, write, bytes_at, number_in, pointer_in, number_bytes, parts, size_bytes, access_size};
ghost use Rattle.scx_isa_semantics.specs.declared.operations.Access.TheVariants as Access;
ghost use Rattle.scx_isa_semantics.specs.declared.values.StackByte.TheVariants.{Byte, Unwritten};

use byteorder::{ByteOrder, LittleEndian};
use scx_isa::{Access, Pointer, STACK_SIZE, Size, Value};
use scx_isa_semantics::{low_byte, low_half, low_two_bytes};

/// The bytes of the stack.
const BYTES: usize = STACK_SIZE as usize;

/// The mark of a byte that a number was written to.
const WRITTEN: u8 = 1;

/// Two such marks, read as one number.
const TWO_WRITTEN: u16 = 0x0101;

/// Four such marks.
const FOUR_WRITTEN: u32 = 0x0101_0101;

/// Eight such marks.
const EIGHT_WRITTEN: u64 = 0x0101_0101_0101_0101;

/// The marks of eight bytes to none of which a number was written.
const NONE_WRITTEN: u64 = 0;

/// The stack of a running program. An access takes constant time: it reads or writes all of its
/// bytes, and all of their marks, at once.
#[derive(Drop)]
pub struct Stack {
    /// The numbers that were written, byte by byte.
    bytes: [u8; BYTES],
    /// For each byte 1 where a number was written to it, and 0 where none was, or none since a
    /// pointer was stored there.
    marks: [u8; BYTES],
    /// The pointer that was last stored in each eight bytes.
    pointers: [Option<Pointer>; BYTES / 8],
}

impl Stack {
    ghost use Rattle.scx_vm_tagged.specs.Stack.{seen_stack};

    /// A stack to which nothing was written.
    #[tactic(auto, unfolding(crate::specs::Stack::stack_of))]
    pub fn new() -> Stack
        ensures { seen_stack result ≡ (λ k. Unwritten) }
    {
        Stack {
            bytes: [0; BYTES],
            marks: [0; BYTES],
            pointers: [None; BYTES / 8],
        }
    }

    /// The number in the byte there, if one was written to it.
    #[tactic(auto, unfolding(crate::specs::Stack::stack_of))]
    fn byte(&self, at: usize) -> Option<u8>
        requires { at + 1 ≤ STACK_SIZE }
        ensures { result ≡ number_in (bytes_at (seen_stack self.now) at 1) }
    {
        if self.marks[at] == WRITTEN {
            Some(self.bytes[at])
        } else {
            None
        }
    }

    /// The number in the two bytes there, if one was written to each.
    fn half_word(&self, at: usize) -> Option<u16>
        requires { at + 2 ≤ STACK_SIZE }
        ensures { result ≡ number_in (bytes_at (seen_stack self.now) at 2) }
    {
        if LittleEndian::read_u16(&self.marks[at..]) == TWO_WRITTEN {
            Some(LittleEndian::read_u16(&self.bytes[at..]))
        } else {
            None
        }
    }

    /// The number in the four bytes there, if one was written to each.
    pub fn word(&self, at: usize) -> Option<u32>
        requires { at + 4 ≤ STACK_SIZE }
        ensures { result ≡ number_in (bytes_at (seen_stack self.now) at 4) }
    {
        if LittleEndian::read_u32(&self.marks[at..]) == FOUR_WRITTEN {
            Some(LittleEndian::read_u32(&self.bytes[at..]))
        } else {
            None
        }
    }

    /// The number in the eight bytes there, if one was written to each.
    fn double_word(&self, at: usize) -> Option<u64>
        requires { at + 8 ≤ STACK_SIZE }
        ensures { result ≡ number_in (bytes_at (seen_stack self.now) at 8) }
    {
        if LittleEndian::read_u64(&self.marks[at..]) == EIGHT_WRITTEN {
            Some(LittleEndian::read_u64(&self.bytes[at..]))
        } else {
            None
        }
    }

    /// The pointer in the eight bytes there, if one was stored and none of them written over.
    fn pointer(&self, at: usize) -> Option<Pointer>
        requires in_stack { at + 8 ≤ STACK_SIZE }
        requires aligned { at % 8 ≡ 0 }
        ensures { result ≡ pointer_in (bytes_at (seen_stack self.now) at 8) }
    {
        if LittleEndian::read_u64(&self.marks[at..]) == NONE_WRITTEN {
            self.pointers[at / 8]
        } else {
            None
        }
    }

    /// Writes a number to the byte.
    fn write_byte(&mut self, at: usize, n: u8)
        requires { at + 1 ≤ STACK_SIZE }
        ensures { seen_stack self.new ≡ write (seen_stack self.old) at (number_bytes 1 n) }
    {
        self.bytes[at] = n;
        self.marks[at] = WRITTEN;
    }

    /// Writes a number to the two bytes.
    fn write_half_word(&mut self, at: usize, n: u16)
        requires { at + 2 ≤ STACK_SIZE }
        ensures { seen_stack self.new ≡ write (seen_stack self.old) at (number_bytes 2 n) }
    {
        LittleEndian::write_u16(&mut self.bytes[at..], n);
        LittleEndian::write_u16(&mut self.marks[at..], TWO_WRITTEN);
    }

    /// Writes a number to the four bytes.
    fn write_word(&mut self, at: usize, n: u32)
        requires { at + 4 ≤ STACK_SIZE }
        ensures { seen_stack self.new ≡ write (seen_stack self.old) at (number_bytes 4 n) }
    {
        LittleEndian::write_u32(&mut self.bytes[at..], n);
        LittleEndian::write_u32(&mut self.marks[at..], FOUR_WRITTEN);
    }

    /// Writes a number to the eight bytes.
    fn write_double_word(&mut self, at: usize, n: u64)
        requires { at + 8 ≤ STACK_SIZE }
        ensures { seen_stack self.new ≡ write (seen_stack self.old) at (number_bytes 8 n) }
    {
        LittleEndian::write_u64(&mut self.bytes[at..], n);
        LittleEndian::write_u64(&mut self.marks[at..], EIGHT_WRITTEN);
    }

    /// The number of that size there, if one was written to each of its bytes.
    pub fn number(&self, size: Size, at: usize) -> Option<u64>
        requires { at + size_bytes size ≤ STACK_SIZE }
        ensures { result ≡ number_in (bytes_at (seen_stack self.now) at (size_bytes size)) }
    {
        match size {
            Size::Byte => Some(u64::from(self.byte(at)?)),
            Size::HalfWord => Some(u64::from(self.half_word(at)?)),
            Size::Word => Some(u64::from(self.word(at)?)),
            Size::DoubleWord => self.double_word(at),
        }
    }

    /// Copies the bytes there, if a number was written to each.
    pub fn read_bytes(&self, at: usize, bytes: &mut [u8]) -> Option<()>
        requires { at + length bytes.old ≤ STACK_SIZE }
        ensures bytes { option_map (λ u. bytes.new) result
            ≡ numbers_in (bytes_at (seen_stack self.now) at (length bytes.old)) }
        ensures long { length bytes.new ≡ length bytes.old }
    {
        for number in 0..bytes.len() {
            let Some(byte) = self.byte(at + number) else {
                return None;
            };
            bytes[number] = byte;
        }
        Some(())
    }

    /// Writes numbers to bytes.
    pub fn write_bytes(&mut self, at: usize, bytes: &[u8])
        requires { at + length bytes.now ≤ STACK_SIZE }
        ensures { seen_stack self.new ≡ write (seen_stack self.old) at (map Byte bytes.now) }
    {
        for number in 0..bytes.len() {
            self.write_byte(at + number, bytes[number]);
        }
    }

    /// Stores a pointer in the eight bytes.
    pub fn store_pointer(&mut self, at: usize, pointer: Pointer)
        requires in_stack { at + 8 ≤ STACK_SIZE }
        requires aligned { at % 8 ≡ 0 }
        ensures { seen_stack self.new ≡ write (seen_stack self.old) at (parts pointer) }
    {
        LittleEndian::write_u64(&mut self.marks[at..], NONE_WRITTEN);
        self.pointers[at / 8] = Some(pointer);
    }

    /// Stores the low bytes of a number, the lowest first.
    pub fn store_number(&mut self, size: Size, at: usize, n: u64)
        requires { at + size_bytes size ≤ STACK_SIZE }
        ensures { seen_stack self.new
            ≡ write (seen_stack self.old) at (number_bytes (size_bytes size) n) }
    {
        match size {
            Size::Byte => self.write_byte(at, low_byte(n)),
            Size::HalfWord => self.write_half_word(at, low_two_bytes(n)),
            Size::Word => self.write_word(at, low_half(n)),
            Size::DoubleWord => self.write_double_word(at, n),
        }
    }

    /// The value that a load reads there; `None` where it has no meaning: where no number was
    /// written to some byte, unless all eight are those of one pointer.
    pub fn load(&self, access: Access, at: usize) -> Option<Value>
        requires in_stack { at + size_bytes (access_size access) ≤ STACK_SIZE }
        requires aligned { at % size_bytes (access_size access) ≡ 0 }
        ensures { result ≡ load (seen_stack self.now) access at }
    {
        match access {
            Access::Byte => Some(Value::Number(u64::from(self.byte(at)?))),
            Access::HalfWord => Some(Value::Number(u64::from(self.half_word(at)?))),
            Access::Word => Some(Value::Number(u64::from(self.word(at)?))),
            Access::DoubleWord => self.whole(at),
            Access::SignedByte => {
                let n = i64::from(self.byte(at)?.cast_signed());
                Some(Value::Number(n.cast_unsigned()))
            }
            Access::SignedHalfWord => {
                let n = i64::from(self.half_word(at)?.cast_signed());
                Some(Value::Number(n.cast_unsigned()))
            }
            Access::SignedWord => {
                let n = i64::from(self.word(at)?.cast_signed());
                Some(Value::Number(n.cast_unsigned()))
            }
        }
    }

    /// The number or pointer that a load of eight bytes reads there.
    fn whole(&self, at: usize) -> Option<Value>
        requires in_stack { at + 8 ≤ STACK_SIZE }
        requires aligned { at % 8 ≡ 0 }
        ensures { result ≡ load (seen_stack self.now) Access.DoubleWord at }
    {
        match self.double_word(at) {
            Some(n) => Some(Value::Number(n)),
            None => Some(Value::Pointer(self.pointer(at)?)),
        }
    }
}
