//! Sets of numbers.
ghost use Rattle.std.specs.Prelude.{◌≡◌, ◌*◌, ◌^◌, ◌≤◌, true, false, length, replicate, slice_set, slice_index, IfOk};
ghost use Rattle.scx_load_driver.specs.Sets.{is_in, is_there, IsNext};

use std::alloc::{AllocError, Global};
use std::cmp;
use std::marker::Model;

/// The number of bits of a word.
const WORD: usize = 64;

/// A set of numbers below a limit, a bit each.
///
/// In a contract it is a list that has true for each number that is there.
#[derive(Drop)]
pub(crate) struct NumberSet {
    limit: usize,
    words: Vec<u64>,
}

impl Model for NumberSet {
    ghost use Rattle.std.specs.Prelude.{List, Bool};
    ghost use Rattle.scx_load_driver.specs.Sets.{members, IsKept};

    ghost Value = { List Bool };

    ghost view = { λ s. members s.limit s.words.items };

    ghost invariant = { IsKept };
}

impl NumberSet {
    /// The empty set, of numbers below the limit.
    pub(crate) fn none(alloc: Global, limit: usize) -> Result<NumberSet, AllocError>
        requires { limit ≤ 2 ^ 20 }
        ensures { IfOk result (λ set. set ≡ replicate limit false) }
    {
        let words = vec![in alloc; 0; limit / WORD + 1]?;
        Ok(NumberSet { limit, words })
    }

    /// The set of all numbers below the limit.
    pub(crate) fn all(alloc: Global, limit: usize) -> Result<NumberSet, AllocError>
        requires { limit ≤ 2 ^ 20 }
        ensures { IfOk result (λ set. set ≡ replicate limit true) }
    {
        let words = vec![in alloc; u64::MAX; limit / WORD + 1]?;
        Ok(NumberSet { limit, words })
    }

    /// Adds the number, if it is below the limit.
    #[inline(always)]
    pub(crate) fn insert(&mut self, number: usize)
        ensures { self.new ≡ slice_set self.old number true }
    {
        if number < self.limit {
            let word = self.words[number / WORD];
            self.words[number / WORD] = word | 1 << (number % WORD);
        }
    }

    /// Removes the number.
    #[inline(always)]
    pub(crate) fn remove(&mut self, number: usize)
        ensures { self.new ≡ slice_set self.old number false }
    {
        if number < self.limit {
            let word = self.words[number / WORD];
            self.words[number / WORD] = word & !(1 << (number % WORD));
        }
    }

    /// The lowest number of the set from `from` on and below an end; the end where there is none.
    #[inline(always)]
    pub(crate) fn next(&self, from: usize, end: usize) -> usize
        requires ordered { from ≤ end }
        requires within { end ≤ length self.now }
        ensures next { IsNext (is_there self.now) from end result }
        ensures after { from ≤ result }
    {
        next_in(self.words.as_slice(), from, end)
    }
}

/// The lowest number from `from` on whose bit is set, below an end; the end where there is none.
#[tactic(auto, using(crate::proofs::Sets::no_numbers, crate::proofs::Sets::next_behind, crate::proofs::Sets::lowest_from))]
fn next_in(words: &[u64], from: usize, end: usize) -> usize
    requires ordered { from ≤ end }
    requires within { end ≤ 64 * length words.now }
    requires few { length words.now ≤ 2 ^ 20 }
    ensures { IsNext (is_in words.now) from end result }
{
    if from == end {
        return end;
    }
    let first = from / WORD;
    let rest = words[first] & u64::MAX << (from % WORD);
    if rest == 0 {
        next_from_word(words, first + 1, end)
    } else {
        cmp::min(first * WORD + rest.trailing_zeros() as usize, end)
    }
}

/// The lowest number, from the first one of a word on, whose bit is set, below an end; the end where there is
/// none.
#[tactic(auto, using(crate::proofs::Sets::none_more, crate::proofs::Sets::next_in_word, crate::proofs::Sets::no_words))]
fn next_from_word(words: &[u64], first: usize, end: usize) -> usize
    requires within { end ≤ 64 * length words.now }
    requires few { length words.now ≤ 2 ^ 20 }
    requires first { first ≤ 2 ^ 20 }
    ensures { IsNext (is_in words.now) (64 * first) end result }
{
    let mut word = first;
    while word * WORD < end {
        if words[word] != 0 {
            return cmp::min(word * WORD + words[word].trailing_zeros() as usize, end);
        }
        word += 1;
    }
    end
}
