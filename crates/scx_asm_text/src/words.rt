ghost use Rattle.std.specs.Prelude.{◌≡◌, ◌≤◌, length};
ghost use Rattle.std.specs.Str.{bytes_eq};
ghost use Rattle.scx_asm_text.specs.Names.{access_text, named_accesses, access_named, width_named, register_numbered, register_named, register_in, stored_size, stored_access, extension_of, extension_access, order_text, orders, order_named};

use scx_isa_semantics::{Access, ByteOrder, Extension, Register, Size, SwapWidth, Width};

const ACCESSES: [Access; 7] = [
    Access::Byte,
    Access::HalfWord,
    Access::Word,
    Access::DoubleWord,
    Access::SignedByte,
    Access::SignedHalfWord,
    Access::SignedWord,
];

const ORDERS: [(ByteOrder, SwapWidth); 9] = [
    (ByteOrder::Little, SwapWidth::Bits16),
    (ByteOrder::Little, SwapWidth::Bits32),
    (ByteOrder::Little, SwapWidth::Bits64),
    (ByteOrder::Big, SwapWidth::Bits16),
    (ByteOrder::Big, SwapWidth::Bits32),
    (ByteOrder::Big, SwapWidth::Bits64),
    (ByteOrder::Swapped, SwapWidth::Bits16),
    (ByteOrder::Swapped, SwapWidth::Bits32),
    (ByteOrder::Swapped, SwapWidth::Bits64),
];

/// True if the name is this word.
pub(crate) fn is_word(name: &[u8], word: &str) -> bool
    ensures { result ≡ bytes_eq name.now word.now }
{
    name == word.as_bytes()
}

fn width_named(letter: u8) -> Option<Width>
    ensures { result ≡ width_named letter }
{
    match letter {
        b'r' => Some(Width::Bits64),
        b'w' => Some(Width::Bits32),
        _ => None,
    }
}

fn register_numbered(digits: &[u8]) -> Option<Register>
    ensures { result ≡ register_numbered digits.now }
{
    match *digits {
        [digit] if digit.is_ascii_digit() => Register::new(digit - b'0'),
        [b'1', b'0'] => Some(Register::R10),
        _ => None,
    }
}

/// The register of that name, with the width that its first letter says.
pub(crate) fn register_named(name: &[u8]) -> Option<(Width, Register)>
    ensures { result ≡ register_named name.now }
{
    match name {
        [letter, digits @ ..] => Some((width_named(*letter)?, register_numbered(digits)?)),
        [] => None,
    }
}

/// The register of that name, if it has that width.
pub(crate) fn register_in(width: Width, name: &[u8]) -> Option<Register>
    ensures { result ≡ register_in width name.now }
{
    match (width, register_named(name)?) {
        (Width::Bits32, (Width::Bits32, register)) | (Width::Bits64, (Width::Bits64, register)) =>
            Some(register),
        _ => None,
    }
}

pub(crate) fn access_text(access: Access) -> &'static str
    ensures text { result.now ≡ access_text access }
    ensures short { length result.now ≤ 3 }
{
    match access {
        Access::Byte => "u8",
        Access::HalfWord => "u16",
        Access::Word => "u32",
        Access::DoubleWord => "u64",
        Access::SignedByte => "s8",
        Access::SignedHalfWord => "s16",
        Access::SignedWord => "s32",
    }
}

#[tactic(auto, using(crate::proofs::Names::named_here, crate::proofs::Names::named_later, crate::proofs::Names::named_none))]
pub(crate) fn access_named(name: &[u8]) -> Option<Access>
    ensures { result ≡ access_named name.now }
{
    for access in ACCESSES {
        if name == access_text(access).as_bytes() {
            return Some(access);
        }
    }
    None
}

/// The size of a store; it has no sign.
pub(crate) fn stored_size(access: Access) -> Option<Size>
    ensures { result ≡ stored_size access }
{
    match access {
        Access::Byte => Some(Size::Byte),
        Access::HalfWord => Some(Size::HalfWord),
        Access::Word => Some(Size::Word),
        Access::DoubleWord => Some(Size::DoubleWord),
        Access::SignedByte | Access::SignedHalfWord | Access::SignedWord => None,
    }
}

pub(crate) fn stored_access(size: Size) -> Access
    ensures { result ≡ stored_access size }
{
    match size {
        Size::Byte => Access::Byte,
        Size::HalfWord => Access::HalfWord,
        Size::Word => Access::Word,
        Size::DoubleWord => Access::DoubleWord,
    }
}

/// The move that extends what is named as memory is named.
pub(crate) fn extension_of(width: Width, access: Access) -> Option<Extension>
    ensures { result ≡ extension_of width access }
{
    match (width, access) {
        (Width::Bits32, Access::SignedByte) => Some(Extension::Low8To32),
        (Width::Bits32, Access::SignedHalfWord) => Some(Extension::Low16To32),
        (Width::Bits64, Access::SignedByte) => Some(Extension::Low8To64),
        (Width::Bits64, Access::SignedHalfWord) => Some(Extension::Low16To64),
        (Width::Bits64, Access::SignedWord) => Some(Extension::Low32To64),
        _ => None,
    }
}

pub(crate) fn extension_access(extension: Extension) -> Access
    ensures { result ≡ extension_access extension }
{
    match extension {
        Extension::Low8To32 | Extension::Low8To64 => Access::SignedByte,
        Extension::Low16To32 | Extension::Low16To64 => Access::SignedHalfWord,
        Extension::Low32To64 => Access::SignedWord,
    }
}

pub(crate) fn order_text(order: (ByteOrder, SwapWidth)) -> &'static str
    ensures text { result.now ≡ order_text order }
    ensures short { length result.now ≤ 7 }
{
    match order {
        (ByteOrder::Little, SwapWidth::Bits16) => "le16",
        (ByteOrder::Little, SwapWidth::Bits32) => "le32",
        (ByteOrder::Little, SwapWidth::Bits64) => "le64",
        (ByteOrder::Big, SwapWidth::Bits16) => "be16",
        (ByteOrder::Big, SwapWidth::Bits32) => "be32",
        (ByteOrder::Big, SwapWidth::Bits64) => "be64",
        (ByteOrder::Swapped, SwapWidth::Bits16) => "bswap16",
        (ByteOrder::Swapped, SwapWidth::Bits32) => "bswap32",
        (ByteOrder::Swapped, SwapWidth::Bits64) => "bswap64",
    }
}

#[tactic(auto, using(crate::proofs::Names::named_here, crate::proofs::Names::named_later, crate::proofs::Names::named_none))]
pub(crate) fn order_named(name: &[u8]) -> Option<(ByteOrder, SwapWidth)>
    ensures { result ≡ order_named name.now }
{
    for order in ORDERS {
        if name == order_text(order).as_bytes() {
            return Some(order);
        }
    }
    None
}
