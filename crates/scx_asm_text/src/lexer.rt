ghost use Rattle.std.specs.Prelude.{◌≡◌, ◌≤◌, ◌<◌, ◌+◌, ◌*◌, Some, None, if◌then◌else◌, length, option_map, IfOk, IfSome, IsTrue};
ghost use Rattle.std.specs.Char.{digit_value};
ghost use Rattle.std.specs.Str.Parse.{digits_value};
ghost use Rattle.scx_asm_text.specs.Tokens.{lexeme, lexemes, is_blank, is_in, radix, class_length, if_64_bits, digits_at, is_hexadecimal, number_lexeme, word_at, word_or_number, token_at, tokens};

use crate::symbols::{Symbol, symbol_at};
use std::alloc::AllocError;

/// Classes of bytes that form one token.
#[derive(Clone, Copy)]
pub enum Class {
    /// Letters, digits and the underscore.
    Word,
    Decimal,
    Hexadecimal,
}

/// A token of a line.
#[derive(Clone, Copy)]
pub enum Token<'a> {
    /// A letter, and the letters, digits and underscores after it.
    Word(&'a [u8]),
    /// True if the number touches the token before it, and its value, if that is below 2^64.
    Number(bool, Option<u64>),
    Mark(Symbol),
}

impl Class {
    fn contains(self, byte: u8) -> bool
        ensures { result ≡ is_in self byte }
    {
        match self {
            Class::Word => byte.is_ascii_alphabetic() || byte.is_ascii_digit() || byte == b'_',
            Class::Decimal => byte.is_ascii_digit(),
            Class::Hexadecimal => byte.is_ascii_hexdigit(),
        }
    }

    /// The base of a number with digits of the class.
    fn radix(self) -> u64
        ensures radix { result ≡ radix self }
        ensures positive { 1 ≤ result }
    {
        match self {
            Class::Word | Class::Decimal => 10,
            Class::Hexadecimal => 16,
        }
    }
}

/// The number of bytes of the class at the front of the text.
#[tactic(auto, using(crate::proofs::Runs::run_next, crate::proofs::Runs::run_stop, crate::proofs::Runs::run_end))]
fn run_of(class: Class, text: &[u8]) -> usize
    ensures run { result ≡ class_length class text.now }
    ensures within { result ≤ length text.now }
{
    let mut count = 0;
    while count < text.len() && class.contains(text[count]) {
        count += 1;
    }
    count
}

/// The value of a digit in a base up to 36; 36 if the byte is no digit.
fn digit_value_of(byte: u8) -> u64
    ensures value { result ≡ digit_value byte }
    ensures within { result ≤ 36 }
{
    match byte {
        b'0'..=b'9' => u64::from(byte - b'0'),
        b'A'..=b'Z' => u64::from(byte - b'A') + 10,
        b'a'..=b'z' => u64::from(byte - b'a') + 10,
        _ => 36,
    }
}

/// The number with one more digit after it, if it is below 2^64.
fn with_digit(value: u64, radix: u64, digit: u64) -> Option<u64>
    ensures { result ≡ if_64_bits (value * radix + digit) }
{
    value.checked_mul(radix)?.checked_add(digit)
}

/// The number that the digits write, if it is below 2^64.
#[tactic(auto, using(crate::proofs::Numerals::too_large))]
fn numeral_of(radix: u64, digits: &[u8]) -> Option<u64>
    requires { 1 ≤ radix }
    ensures { result ≡ if_64_bits (digits_value radix digits.now) }
{
    let mut value: u64 = 0;
    for &digit in digits {
        value = with_digit(value, radix, digit_value_of(digit))?;
    }
    Some(value)
}

/// The number whose digits, of that class, begin after a prefix, and its end.
#[tactic(auto, unfolding(crate::specs::Tokens::class_length))]
fn digits_token(text: &[u8], touches: bool, class: Class, prefix: usize) -> (Token<'_>, usize)
    requires { prefix ≤ length text.now }
    ensures token { (lexeme result.0, result.1) ≡ digits_at touches class prefix text.now }
    ensures within { result.1 ≤ length text.now }
{
    let (_, after) = text.split_at(prefix);
    let count = run_of(class, after);
    let (digits, _) = after.split_at(count);
    let value = numeral_of(class.radix(), digits);
    (Token::Number(touches, value), prefix + count)
}

/// True if a hexadecimal number begins here.
fn is_hexadecimal_at(text: &[u8]) -> bool
    ensures { result ≡ is_hexadecimal text.now }
{
    match text {
        [b'0', b'x', digit, ..] => digit.is_ascii_hexdigit(),
        _ => false,
    }
}

fn number_token(text: &[u8], touches: bool) -> (Token<'_>, usize)
    ensures token { (lexeme result.0, result.1) ≡ number_lexeme touches text.now }
    ensures within { result.1 ≤ length text.now }
{
    if is_hexadecimal_at(text) {
        digits_token(text, touches, Class::Hexadecimal, 2)
    } else {
        digits_token(text, touches, Class::Decimal, 0)
    }
}

fn word_token(text: &[u8]) -> (Token<'_>, usize)
    ensures token { (lexeme result.0, result.1) ≡ word_at text.now }
    ensures within { result.1 ≤ length text.now }
{
    let count = run_of(Class::Word, text);
    let (word, _) = text.split_at(count);
    (Token::Word(word), count)
}

/// The word or number with which the text begins, and where it ends.
fn word_or_number(text: &[u8], touches: bool) -> Option<(Token<'_>, usize)>
    ensures token { option_map (λ t. (lexeme t.0, t.1)) result ≡ word_or_number touches text.now }
    ensures within { IfSome result (λ t. t.1 ≤ length text.now) }
{
    let first = *text.first()?;
    if first.is_ascii_alphabetic() {
        Some(word_token(text))
    } else if first.is_ascii_digit() {
        Some(number_token(text, touches))
    } else {
        None
    }
}

/// The longest token with which the text begins, and where it ends.
fn token_at(text: &[u8], touches: bool) -> Option<(Token<'_>, usize)>
    ensures token { option_map (λ t. (lexeme t.0, t.1)) result ≡ token_at touches text.now }
    ensures within { IfSome result (λ t. (0 < t.1) × (t.1 ≤ length text.now)) }
{
    match symbol_at(text) {
        Some(symbol) => Some((Token::Mark(symbol), symbol.text().len())),
        None => word_or_number(text, touches),
    }
}

fn is_blank(byte: u8) -> bool
    ensures { result ≡ is_blank byte }
{
    byte == b' ' || byte == b'\t'
}

/// Puts the tokens of a line, up to a comment, in place of what was found before; `false` where bytes
/// begin no token.
#[tactic(auto, using(crate::proofs::Lexing::at_comment, crate::proofs::Lexing::at_end))]
pub fn tokens<'a>(line: &'a [u8], found: &mut Vec<Token<'a>>) -> Result<bool, AllocError>
    ensures { IfOk result
        (λ all. (if all then Some (lexemes found.new.items) else None) ≡ tokens line.now) }
{
    found.clear();
    let mut rest = line;
    // How much was left after the last token, which the next one touches if as much is left there.
    let mut end = line.len() + 1;
    while !rest.is_empty() && rest[0] != b'#' {
        if is_blank(rest[0]) {
            rest = rest.split_at(1).1;
        } else {
            let Some((token, length)) = token_at(rest, rest.len() == end) else {
                return Ok(false);
            };
            found.push(token)?;
            rest = rest.split_at(length).1;
            end = rest.len();
        }
    }
    Ok(true)
}
