ghost use Rattle.std.specs.Prelude.{◌≡◌, ◌∷◌, ◌++◌, [], true, length, IfOk};
ghost use Rattle.scx_explore_states.specs.Written.{joined, word_of};

use crate::queue_numbers::QueueNumbers;
use std::alloc::{AllocError, Global};
use std::marker::Model;

/// The words of a state, and the numbers of queues in them.
///
/// In a contract it is the words.
#[derive(Drop)]
pub struct Words {
    pub(crate) words: Vec<u64>,
    pub(crate) numbers: QueueNumbers,
}

impl Model for Words {
    ghost use Rattle.std.specs.Prelude.{List, ℕ};

    ghost Value = { List ℕ };

    ghost view = { λ w. w.words.items };
}

impl Words {
    /// No words, with room for `width`.
    pub fn new(alloc: Global, width: usize) -> Result<Words, AllocError>
        ensures { IfOk result (λ words. words ≡ []) }
    {
        Ok(Words {
            words: Vec::with_capacity(alloc, width)?,
            numbers: QueueNumbers::new(alloc)?,
        })
    }

    /// All of them.
    pub fn as_slice(&self) -> &[u64]
        ensures { result.now ≡ self.now }
    {
        self.words.as_slice()
    }

    /// Those by which the words name queues.
    pub fn numbers(&self) -> &QueueNumbers {
        &self.numbers
    }

    /// Appends a word, if there is room for it.
    pub fn put(&mut self, word: u64) -> bool
        ensures { result ≡ true → self.new ≡ self.old ++ word ∷ [] }
    {
        put(&mut self.words, word)
    }
}

/// Appends a word, if there is room for it.
pub(crate) fn put(words: &mut Vec<u64>, word: u64) -> bool
    ensures { result ≡ true → words.new.items ≡ words.old.items ++ word ∷ [] }
{
    if words.len() < words.capacity() {
        words.push_reserved(word);
        return true;
    }
    false
}

/// The number of at most eight bytes, high byte first.
pub(crate) fn word_of(bytes: &[u8]) -> u64
    ensures { result ≡ word_of bytes.now }
{
    if bytes.len() == 8 {
        word_of_eight(bytes)
    } else {
        word_of_few(bytes)
    }
}

#[inline(always)]
fn word_of_eight(bytes: &[u8]) -> u64
    requires { length bytes.now ≡ 8 }
    ensures { result ≡ word_of bytes.now }
{
    let first = with_byte(with_byte(0, bytes[0]), bytes[1]);
    let second = with_byte(with_byte(first, bytes[2]), bytes[3]);
    let third = with_byte(with_byte(second, bytes[4]), bytes[5]);
    with_byte(with_byte(third, bytes[6]), bytes[7])
}

fn word_of_few(bytes: &[u8]) -> u64
    ensures { result ≡ word_of bytes.now }
{
    let mut word = 0;
    for at in 0..bytes.len() {
        word = with_byte(word, bytes[at]);
    }
    word
}

#[inline(always)]
fn with_byte(word: u64, byte: u8) -> u64
    ensures { result ≡ joined 8 word byte }
{
    word << 8 | u64::from(byte)
}
