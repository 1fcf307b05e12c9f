//! Words and numbers that are put into a field, after its first bytes. Each function answers where they end.

ghost use Rattle.std.specs.Prelude.{◌≡◌, ◌+◌, ◌≤◌, ◌++◌, length, take, decimal};
ghost use Rattle.std.specs.Fmt.{signed_decimal};
ghost use Rattle.scxsim_pictures.specs.Objects.{micros};

use itoa::Buffer;
use scxsim_output::{put_byte, put_bytes};

/// A millisecond in microseconds.
const MS: u64 = 1000;

/// Puts words and a number.
#[inline(always)]
pub(crate) fn put_numbered(field: &mut [u8], at: usize, words: &[u8], number: u64) -> usize
    requires { at + length words.now + 20 ≤ length field.old }
    ensures text { take result field.new ≡ take at field.old ++ (words.now ++ decimal number) }
    ensures room { result ≤ at + length words.now + 20 }
{
    let at = put_bytes(field, at, words);
    put_number(field, at, number)
}

/// Puts words and milliseconds in microseconds, up to the greatest number.
#[inline(always)]
pub(crate) fn put_micros(field: &mut [u8], at: usize, words: &[u8], ms: u64) -> usize
    requires { at + length words.now + 20 ≤ length field.old }
    ensures text { take result field.new
        ≡ take at field.old ++ (words.now ++ decimal (micros ms)) }
    ensures room { result ≤ at + length words.now + 20 }
{
    put_numbered(field, at, words, ms.saturating_mul(MS))
}

/// Puts a number. One of a single digit goes there at once.
#[inline(always)]
#[tactic(auto, using(std::proofs::lemmas::Fmt::decimal_digit))]
pub(crate) fn put_number(field: &mut [u8], at: usize, number: u64) -> usize
    requires { at + 20 ≤ length field.old }
    ensures text { take result field.new ≡ take at field.old ++ decimal number }
    ensures room { result ≤ at + 20 }
{
    if number < 10 {
        put_byte(field, at, b'0' + number as u8)
    } else {
        put_digits(field, at, number)
    }
}

#[inline(never)]
fn put_digits(field: &mut [u8], at: usize, number: u64) -> usize
    requires { at + 20 ≤ length field.old }
    ensures text { take result field.new ≡ take at field.old ++ decimal number }
    ensures room { result ≤ at + 20 }
{
    let mut digits = Buffer::new();
    put_bytes(field, at, digits.format(number).as_bytes())
}

/// Puts a number with its sign.
#[inline(never)]
pub(crate) fn put_signed(field: &mut [u8], at: usize, number: i64) -> usize
    requires { at + 20 ≤ length field.old }
    ensures text { take result field.new ≡ take at field.old ++ signed_decimal number }
    ensures room { result ≤ at + 20 }
{
    let mut digits = Buffer::new();
    put_bytes(field, at, digits.format(number).as_bytes())
}
