ghost use Rattle.std.specs.Prelude.{◌≡◌, ◌*◌, ◌<◌, ◌≤◌, encode_utf8, length};
ghost use Rattle.std.specs.Char.{digit_char};
ghost use Rattle.scxsim_output.specs.Texts.{Puts};
ghost use Rattle.scxsim_simulation.specs.MapLines.{byte_text, bytes_text, end_text, is_nonzero, number_text, numbers_text, printed_count, up_to_last, value_text};

use byteorder::{ByteOrder, LittleEndian};
use scxsim_output::Text;

/// The most bytes of a value that are printed as one number.
const WIDTH: usize = 8;

/// True if a byte isn't 0.
pub(crate) fn is_nonzero(value: &[u8]) -> bool
    ensures { result ≡ is_nonzero value.now }
{
    value.iter().any(|byte| 0 < *byte)
}

/// The number of bytes of a value that are printed.
fn printed_count(value: &[u8]) -> usize
    ensures { result ≡ printed_count value.now }
{
    let numbers = up_to_last(value).div_ceil(WIDTH).max(1);
    numbers.saturating_mul(WIDTH).min(value.len())
}

/// The number of bytes up to the last that isn't 0.
#[tactic(auto, using(crate::proofs::Values::one_less))]
fn up_to_last(value: &[u8]) -> usize
    ensures result { result ≡ up_to_last value.now (length value.now) }
    ensures most { result ≤ length value.now }
{
    let mut count = value.len();
    while count > 0 && value[count - 1] == 0 {
        count -= 1;
    }
    count
}

/// Appends a value, as numbers and as bytes, and ends the line.
#[tactic(auto, unfolding(crate::specs::MapLines::value_text))]
pub(crate) fn push_value(value: &[u8], text: &mut Text)
    ensures { Puts text.old (value_text value.now) text.new }
{
    let count = printed_count(value);
    text.push(" value");
    push_numbers(&value[..count], text);
    text.push(" bytes");
    push_bytes(&value[..count], text);
    push_end(value.len() - count, text);
}

/// Ends the line, after that many zeros that aren't printed.
fn push_end(zeros: usize, text: &mut Text)
    ensures { Puts text.old (end_text zeros) text.new }
{
    if zeros == 0 {
        text.push("\n");
    } else {
        text.number(" zeros ", zeros as u64);
        text.push("\n");
    }
}

#[tactic(auto, using(scxsim_output::proofs::Pieces::puts_next))]
fn push_numbers(bytes: &[u8], text: &mut Text)
    ensures { Puts text.old (numbers_text bytes.now) text.new }
{
    for place in 0..bytes.len().div_ceil(WIDTH) {
        push_number(bytes, place, text);
    }
}

/// Appends the number in the eight bytes of that place, or in those that are left.
fn push_number(bytes: &[u8], place: usize, text: &mut Text)
    requires { 8 * place < length bytes.now }
    ensures { Puts text.old (number_text bytes.now place) text.new }
{
    let rest = &bytes[WIDTH * place..];
    let width = rest.len().min(WIDTH);
    text.number(" ", LittleEndian::read_uint(rest, width));
}

#[tactic(auto, using(scxsim_output::proofs::Pieces::puts_next))]
fn push_bytes(bytes: &[u8], text: &mut Text)
    ensures { Puts text.old (bytes_text bytes.now) text.new }
{
    for place in 0..bytes.len() {
        push_byte(bytes[place], text);
    }
}

/// Appends a byte in two hexadecimal digits.
fn push_byte(byte: u8, text: &mut Text)
    ensures { Puts text.old (byte_text byte) text.new }
{
    text.push(" ");
    push_digit(byte / 16, text);
    push_digit(byte % 16, text);
}

/// Appends a hexadecimal digit.
fn push_digit(number: u8, text: &mut Text)
    requires { number < 16 }
    ensures { Puts text.old (encode_utf8 (digit_char number)) text.new }
{
    if let Some(digit) = char::from_digit(u32::from(number), 16) {
        text.character(digit);
    }
}
