ghost use Rattle.std.specs.Prelude.{◌≡◌, ◌+◌, ◌<◌, ◌≤◌, ◌++◌, length, take, codes, decimal};

use itoa::{Buffer, write_digits};
use scxsim_output::{put_byte, put_bytes};

/// The bytes of a field for a clock's digits and a space.
const ROOM: usize = 32;

/// The beginning of all lines of a clock: its digits and a space.
#[derive(Clone, Copy)]
pub(crate) struct ClockText {
    pub(crate) clock: u64,
    text: [u8; ROOM],
    end: usize,
    ghost start: { take end text ≡ decimal clock ++ codes " " },
    ghost room: { end ≤ 21 },
}

impl ClockText {
    pub(crate) fn new(clock: u64) -> ClockText
        ensures { result.clock ≡ clock }
    {
        let mut text = [0; ROOM];
        let end = put_clock(&mut text, clock);
        ClockText { clock, text, end }
    }

    /// Changes it to the beginning of lines of another clock.
    #[inline(always)]
    pub(crate) fn set(&mut self, clock: u64)
        ensures { self.new.clock ≡ clock }
    {
        if self.clock != clock {
            self.change(clock);
        }
    }

    #[inline(never)]
    fn change(&mut self, clock: u64)
        ensures { self.new.clock ≡ clock }
    {
        self.end = put_clock(&mut self.text, clock);
        self.clock = clock;
    }

    /// Puts the text at `at`, and answers where it ends. The whole field is copied.
    #[inline(always)]
    #[tactic(auto, using(scxsim_output::proofs::Shorts::with_text))]
    pub(crate) fn put(&self, line: &mut [u8], at: usize) -> usize
        requires { at + 32 ≤ length line.old }
        ensures text { take result line.new
            ≡ take at line.old ++ (decimal self.now.clock ++ codes " ") }
        ensures room { result ≤ at + 21 }
    {
        let text = self.text;
        line[at..at + ROOM].copy_from_slice(&text);
        at + self.end
    }
}

/// Puts the clock and a space at the front, and answers where they end.
#[inline(always)]
fn put_clock(text: &mut [u8; ROOM], clock: u64) -> usize
    ensures text { take result text.new ≡ decimal clock ++ codes " " }
    ensures room { result ≤ 21 }
{
    let end = put_front(text, clock);
    put_byte(text, end, b' ')
}

/// Puts a number at the front, and answers where it ends. One of at most six digits goes there at once.
#[inline(always)]
fn put_front(text: &mut [u8; ROOM], number: u64) -> usize
    ensures text { take result text.new ≡ decimal number }
    ensures room { result ≤ 20 }
{
    if number >= 1_000_000 {
        return put_digits(text, 0, number);
    }
    let count = digit_count(number);
    write_digits(number, text, count);
    count
}

/// The number of digits of a number of at most six.
#[inline(always)]
#[tactic(auto, using(itoa::proofs::Decimal::length_one, itoa::proofs::Decimal::length_two, crate::proofs::Digits::three_digits, crate::proofs::Digits::four_digits, crate::proofs::Digits::five_digits, crate::proofs::Digits::six_digits))]
fn digit_count(number: u64) -> usize
    requires { number < 1000000 }
    ensures count { result ≡ length (decimal number) }
    ensures most { result ≤ 6 }
{
    if number < 10 {
        1
    } else if number < 100 {
        2
    } else if number < 1_000 {
        3
    } else if number < 10_000 {
        4
    } else if number < 100_000 {
        5
    } else {
        6
    }
}

/// Puts a number at `at`, and answers where it ends.
#[inline(never)]
pub(crate) fn put_digits(text: &mut [u8], at: usize, number: u64) -> usize
    requires { at + 20 ≤ length text.old }
    ensures text { take result text.new ≡ take at text.old ++ decimal number }
    ensures room { result ≤ at + 20 }
{
    let mut digits = Buffer::new();
    put_bytes(text, at, digits.format(number).as_bytes())
}
