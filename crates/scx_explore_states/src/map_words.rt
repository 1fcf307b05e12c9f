ghost use Rattle.std.specs.Prelude.{ℕ, ◌≡◌, ◌+◌, ◌-◌, ◌*◌, ◌/◌, ◌<◌, ◌≤◌, ◌++◌, true, List, length, min, take, drop, replicate, slice_index, slice_index_or, IfSome};
ghost use Rattle.scx_isa_semantics.specs.Directories.{Array};
ghost use Rattle.scx_maps.specs.Lending.{all_bytes};
ghost use Rattle.scx_maps.specs.Words.{part_words, parts_words};
ghost use Rattle.scx_explore_states.specs.NotZero.{kept_words, pair, pairs_from};
ghost use Rattle.scx_explore_states.specs.Written.{byte_words, eight_at, map_words};

use crate::words::{put, word_of};
use scx_maps::Maps;

/// The words of maps that a state has.
#[derive(Clone, Copy)]
pub enum MapWords {
    /// All of them.
    Whole,
    /// Those that aren't 0, each after its place, if there are no more than that.
    NotZero(u16),
}

/// The most bytes of maps of which a state has all words.
const FEW_BYTES: usize = 4096;

/// The most words of maps that are counted, more than any have.
const MOST_WORDS: usize = 1 << 48;

impl MapWords {
    /// Those of states of a machine whose maps are these now. Where maps are large but mostly 0, they have room for
    /// `more` words that become others than 0.
    pub(crate) fn of(maps: &Maps, more: usize) -> MapWords
        ensures { length (all_bytes maps.now) ≤ 4096 → result ≡ MapWords.Whole }
    {
        if maps.bytes().len() <= FEW_BYTES {
            return MapWords::Whole;
        }
        fewest(maps, more)
    }

    /// The number of words that a state has of these maps.
    pub(crate) fn width(self, maps: &Maps) -> usize
        ensures { result ≤ MOST_WORDS }
    {
        match self {
            MapWords::Whole => words_of(maps),
            MapWords::NotZero(most) => 1 + 2 * usize::from(most),
        }
    }
}

/// The words of maps that aren't 0, with room for more of them, unless all words take less.
fn fewest(maps: &Maps, more: usize) -> MapWords {
    let most = not_zero_in(maps).saturating_add(more);
    if most > usize::from(u16::MAX) || 1 + 2 * most >= words_of(maps) {
        return MapWords::Whole;
    }
    MapWords::NotZero(most as u16)
}

/// The number of words for the bytes of maps and for what maps have beside their elements.
fn words_of(maps: &Maps) -> usize
    ensures { result ≤ MOST_WORDS }
{
    let mut words = maps.bytes().len().div_ceil(8);
    for part in 0..maps.parts() {
        words = words.saturating_add(maps.part_words(part));
    }
    words.min(MOST_WORDS)
}

/// The number of words of maps that aren't 0.
fn not_zero_in(maps: &Maps) -> usize {
    let mut count: usize = 0;
    for eight in maps.bytes().chunks(8) {
        if !is_zero(eight) {
            count = count.saturating_add(1);
        }
    }
    for part in 0..maps.parts() {
        count = count.saturating_add(not_zero_in_part(maps, part));
    }
    count
}

fn not_zero_in_part(maps: &Maps, part: usize) -> usize
    requires { part < length maps.now.directories }
{
    let mut count: usize = 0;
    for word in 0..maps.part_words(part) {
        if maps.part_word(part, word) != 0 {
            count = count.saturating_add(1);
        }
    }
    count
}

/// Puts the words of maps that a state has.
pub(crate) fn put_maps(kept: MapWords, maps: &Maps, words: &mut Vec<u64>) -> bool
    ensures { result ≡ true → words.new.items
        ≡ words.old.items ++ kept_words kept (map_words maps.now) }
{
    match kept {
        MapWords::Whole => put_whole(maps, words),
        MapWords::NotZero(most) => put_not_zero(maps, most, words),
    }
}

/// The bytes of all maps, and what maps have beside their elements.
fn put_whole(maps: &Maps, words: &mut Vec<u64>) -> bool
    ensures { result ≡ true → words.new.items ≡ words.old.items ++ map_words maps.now }
{
    if !put_bytes(maps.bytes(), words) {
        return false;
    }
    put_parts(maps, maps.parts(), words)
}

/// The words of the first `parts` maps beside their elements.
fn put_parts(maps: &Maps, parts: usize, words: &mut Vec<u64>) -> bool
    requires { parts ≤ length maps.now.directories }
    ensures { result ≡ true → words.new.items
        ≡ words.old.items ++ parts_words (take parts maps.now.directories) }
{
    for part in 0..parts {
        if !put_part(maps, part, words) {
            return false;
        }
    }
    true
}

fn put_part(maps: &Maps, part: usize, words: &mut Vec<u64>) -> bool
    requires { part < length maps.now.directories }
    ensures { result ≡ true → words.new.items ≡ words.old.items
        ++ part_words (slice_index_or maps.now.directories part Array) }
{
    for number in 0..maps.part_words(part) {
        if !put(words, maps.part_word(part, number)) {
            return false;
        }
    }
    true
}

/// Eight bytes a word, the last one filled up with zeros.
fn put_bytes(bytes: &[u8], words: &mut Vec<u64>) -> bool
    ensures { result ≡ true → words.new.items
        ≡ words.old.items ++ byte_words bytes.now ((length bytes.now + 7) / 8) }
{
    let count = (bytes.len() + 7) / 8;
    for at in 0..count {
        if !put(words, word_of(eight_at(bytes, at))) {
            return false;
        }
    }
    true
}

/// The number of words of maps, and those that aren't 0, each after its place, filled up with zeros. False if there are
/// more than `most`.
fn put_not_zero(maps: &Maps, most: u16, words: &mut Vec<u64>) -> bool
    ensures { result ≡ true → words.new.items
        ≡ words.old.items ++ kept_words (MapWords.NotZero most) (map_words maps.now) }
{
    let Some(count) = count_of(maps) else {
        return false;
    };
    if !put(words, count) {
        return false;
    }
    let start = words.len();
    if !put_pairs(maps, words) {
        return false;
    }
    fill(words, start, 2 * usize::from(most))
}

/// The number of words of maps, if it is one of 64 bits.
fn count_of(maps: &Maps) -> Option<u64>
    ensures { IfSome result (λ count. count ≡ length (map_words maps.now)) }
{
    let mut count = ((maps.bytes().len() + 7) / 8) as u64;
    for part in 0..maps.parts() {
        count = count.checked_add(maps.part_words(part) as u64)?;
    }
    Some(count)
}

/// The words of maps that aren't 0, each after its place.
fn put_pairs(maps: &Maps, words: &mut Vec<u64>) -> bool
    ensures { result ≡ true → words.new.items
        ≡ words.old.items ++ pairs_from 0 (map_words maps.now) }
{
    let bytes = maps.bytes();
    if !put_byte_pairs(bytes, words) {
        return false;
    }
    put_part_pairs(maps, (bytes.len() + 7) / 8, words)
}

/// Those of bytes.
fn put_byte_pairs(bytes: &[u8], words: &mut Vec<u64>) -> bool
    ensures { result ≡ true → words.new.items ≡ words.old.items
        ++ pairs_from 0 (byte_words bytes.now ((length bytes.now + 7) / 8)) }
{
    let count = (bytes.len() + 7) / 8;
    for block in 0..(count + 15) / 16 {
        if !put_block(bytes, 16 * block, count, words) {
            return false;
        }
    }
    true
}

/// Those of sixteen words, or of the last ones. Zeros are passed over all at once.
fn put_block(bytes: &[u8], from: usize, count: usize, words: &mut Vec<u64>) -> bool
    requires from { from < count }
    requires count { count ≡ (length bytes.now + 7) / 8 }
    ensures { result ≡ true → (before : List ℕ)
        → words.old.items ≡ before ++ pairs_from 0 (byte_words bytes.now from)
        → words.new.items ≡ before ++ pairs_from 0 (byte_words bytes.now (min (from + 16) count)) }
{
    if is_zero(bytes_at(bytes, 8 * from, 128)) {
        return true;
    }
    put_words_between(bytes, from, (from + 16).min(count), words)
}

/// Those from one word up to another.
fn put_words_between(bytes: &[u8], from: usize, to: usize, words: &mut Vec<u64>) -> bool
    requires order { from ≤ to }
    requires to { to ≤ (length bytes.now + 7) / 8 }
    ensures { result ≡ true → (before : List ℕ)
        → words.old.items ≡ before ++ pairs_from 0 (byte_words bytes.now from)
        → words.new.items ≡ before ++ pairs_from 0 (byte_words bytes.now to) }
{
    for at in from..to {
        if !put_pair(at, 0, word_of(eight_at(bytes, at)), words) {
            return false;
        }
    }
    true
}

/// Those of what maps have beside their elements, from that place on.
fn put_part_pairs(maps: &Maps, first: usize, words: &mut Vec<u64>) -> bool
    ensures { result ≡ true → words.new.items
        ≡ words.old.items ++ pairs_from first (parts_words maps.now.directories) }
{
    let mut place = first;
    for part in 0..maps.parts() {
        if !put_pairs_of_part(maps, part, place, words) {
            return false;
        }
        let Some(next) = place.checked_add(maps.part_words(part)) else {
            return false;
        };
        place = next;
    }
    true
}

fn put_pairs_of_part(maps: &Maps, part: usize, place: usize, words: &mut Vec<u64>) -> bool
    requires { part < length maps.now.directories }
    ensures { result ≡ true → words.new.items ≡ words.old.items
        ++ pairs_from place (part_words (slice_index_or maps.now.directories part Array)) }
{
    for word in 0..maps.part_words(part) {
        if !put_pair(place, word, maps.part_word(part, word), words) {
            return false;
        }
    }
    true
}

/// The word of that number, counted from that place, if it isn't 0, after its place.
fn put_pair(place: usize, number: usize, word: u64, words: &mut Vec<u64>) -> bool
    ensures { result ≡ true → words.new.items ≡ words.old.items ++ pair (place + number) word }
{
    if word == 0 {
        return true;
    }
    let at = place.saturating_add(number);
    if at == usize::MAX {
        return false;
    }
    if !put(words, at as u64 + 1) {
        return false;
    }
    put(words, word)
}

/// Zeros up to `width` words from that start on. False if there are more.
fn fill(words: &mut Vec<u64>, start: usize, width: usize) -> bool
    requires { start ≤ length words.old.items }
    ensures { result ≡ true → words.new.items ≡ words.old.items
        ++ replicate (width - (length words.old.items - start)) 0 }
{
    let there = words.len() - start;
    if there > width {
        return false;
    }
    for _ in 0..width - there {
        if !put(words, 0) {
            return false;
        }
    }
    true
}

/// True if all bytes are 0: the first one is, and each is as the one before it.
fn is_zero(bytes: &[u8]) -> bool
    ensures { result ≡ true → (k : ℕ) → slice_index bytes.now k ≡ 0 }
{
    if bytes.is_empty() {
        return true;
    }
    bytes[0] == 0 && is_same(&bytes[1..], &bytes[..bytes.len() - 1])
}

fn is_same(one: &[u8], other: &[u8]) -> bool
    ensures { result ≡ true → one.now ≡ other.now }
{
    one == other
}

/// Eight of the bytes, or those that are left.
fn eight_at(bytes: &[u8], at: usize) -> &[u8]
    requires { 8 * at < length bytes.now }
    ensures { result.now ≡ eight_at bytes.now at }
{
    bytes_at(bytes, 8 * at, 8)
}

/// As many bytes from that one on, or those that are left.
#[tactic(auto, using(crate::proofs::Placed::few_are_all))]
#[inline(always)]
fn bytes_at(bytes: &[u8], from: usize, most: usize) -> &[u8]
    requires { from ≤ length bytes.now }
    ensures { result.now ≡ take most (drop from bytes.now) }
{
    let rest = &bytes[from..];
    if rest.len() <= most {
        return rest;
    }
    &rest[..most]
}
