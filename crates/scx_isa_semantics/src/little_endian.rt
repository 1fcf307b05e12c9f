ghost use Rattle.std.specs.Prelude.{◌≡◌, ◌+◌, ◌≤◌, ◌++◌, length, drop};
ghost use Rattle.byteorder.specs.Endian.{little_number, little_bytes};
ghost use Rattle.scx_isa_semantics.specs.Elements.{number_at, with_number};
ghost use Rattle.scx_isa_semantics.specs.Memory.{size_bytes, access_size, read_as};

use crate::{Access, Size};
use byteorder::{ByteOrder, LittleEndian};

/// The number that a load reads from the first bytes.
#[inline(always)]
fn read_first(bytes: &[u8], access: Access) -> u64
    requires { size_bytes (access_size access) ≤ length bytes.now }
    ensures { result ≡ read_as access (little_number (size_bytes (access_size access)) bytes.now) }
{
    match access {
        Access::Byte => u64::from(bytes[0]),
        Access::HalfWord => u64::from(LittleEndian::read_u16(bytes)),
        Access::Word => u64::from(LittleEndian::read_u32(bytes)),
        Access::DoubleWord => LittleEndian::read_u64(bytes),
        Access::SignedByte => i64::from(bytes[0].cast_signed()).cast_unsigned(),
        Access::SignedHalfWord => {
            i64::from(LittleEndian::read_u16(bytes).cast_signed()).cast_unsigned()
        }
        Access::SignedWord => {
            i64::from(LittleEndian::read_u32(bytes).cast_signed()).cast_unsigned()
        }
    }
}

/// The number that a load reads at an offset.
#[inline(always)]
pub fn read(bytes: &[u8], access: Access, at: usize) -> u64
    requires { at + size_bytes (access_size access) ≤ length bytes.now }
    ensures { result ≡ read_as access (number_at bytes.now at (size_bytes (access_size access))) }
{
    read_first(&bytes[at..], access)
}

/// The number in the first bytes.
fn first_number(bytes: &[u8], size: Size) -> u64
    requires { size_bytes size ≤ length bytes.now }
    ensures { result ≡ little_number (size_bytes size) bytes.now }
{
    match size {
        Size::Byte => u64::from(bytes[0]),
        Size::HalfWord => u64::from(LittleEndian::read_u16(bytes)),
        Size::Word => u64::from(LittleEndian::read_u32(bytes)),
        Size::DoubleWord => LittleEndian::read_u64(bytes),
    }
}

/// The number in a value at an offset.
pub fn read_number(value: &[u8], offset: usize, size: Size) -> u64
    requires { offset + size_bytes size ≤ length value.now }
    ensures { result ≡ number_at value.now offset (size_bytes size) }
{
    first_number(&value[offset..], size)
}

/// The number in four bytes.
#[inline(always)]
pub fn read_word(bytes: &[u8], at: usize) -> u32
    requires { at + 4 ≤ length bytes.now }
    ensures { result ≡ number_at bytes.now at 4 }
{
    LittleEndian::read_u32(&bytes[at..])
}

/// Writes the number's lowest bytes over the first bytes.
#[inline(always)]
fn write_first(bytes: &mut [u8], size: Size, number: u64)
    requires { size_bytes size ≤ length bytes.old }
    ensures { bytes.new
        ≡ little_bytes (size_bytes size) number ++ drop (size_bytes size) bytes.old }
{
    let lowest = number.to_le_bytes();
    match size {
        Size::Byte => bytes[0] = lowest[0],
        Size::HalfWord => bytes[..2].copy_from_slice(&lowest[..2]),
        Size::Word => bytes[..4].copy_from_slice(&lowest[..4]),
        Size::DoubleWord => bytes[..8].copy_from_slice(&lowest),
    }
}

/// Writes a number into a value at an offset.
#[inline(always)]
pub fn write_number(value: &mut [u8], offset: usize, size: Size, number: u64)
    requires { offset + size_bytes size ≤ length value.old }
    ensures { value.new ≡ with_number value.old offset (size_bytes size) number }
{
    write_first(&mut value[offset..], size, number);
}
