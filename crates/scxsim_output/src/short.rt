//! Short texts: the first bytes of a field. The bytes after them don't count, so a field can be copied whole, and a
//! name by words.

ghost use Rattle.std.specs.Prelude.{◌≡◌, ℕ, ◌+◌, ◌≤◌, ◌<◌, ◌++◌, ◌∷◌, [], List, length, take};

/// The most bytes of a short text: a line of a trace has at most 77, 21 of them for its clock, 12
/// of words, 16 of a name, 27 after it, and a line feed.
pub const SHORT: usize = 80;

/// A text of at most `SHORT` bytes that puts itself into a field.
pub trait Short {
    ghost text: { Self → List ℕ };

    /// Puts its bytes after the first ones, and answers where they end. Bytes after them may change.
    fn put(&self, field: &mut [u8], at: usize) -> usize
        requires { at + 80 ≤ length field.old }
        ensures text { take result field.new ≡ take at field.old ++ text self.now }
        ensures room { result ≤ at + 80 };
}

/// Puts a byte after the first ones, and answers where the text ends.
#[inline(always)]
#[tactic(auto, using(std::proofs::lemmas::List::take_more_set))]
pub fn put_byte(text: &mut [u8], at: usize, byte: u8) -> usize
    requires { at < length text.old }
    ensures end { result ≡ at + 1 }
    ensures text { take result text.new ≡ take at text.old ++ (byte ∷ []) }
{
    text[at] = byte;
    at + 1
}

/// Puts bytes after the first ones, and answers where the text ends.
#[inline(always)]
#[tactic(auto, using(std::proofs::lemmas::Slice::overwrites))]
pub fn put_bytes(text: &mut [u8], at: usize, bytes: &[u8]) -> usize
    requires { at + length bytes.now ≤ length text.old }
    ensures end { result ≡ at + length bytes.now }
    ensures text { take result text.new ≡ take at text.old ++ bytes.now }
{
    let end = at + bytes.len();
    text[at..end].copy_from_slice(bytes);
    end
}

/// Puts a name of at most 16 bytes after the first ones, by whole words, and answers where it ends.
#[inline(always)]
pub fn put_name(text: &mut [u8], at: usize, name: &[u8]) -> usize
    requires count { length name.now ≤ 16 }
    requires room { at + 16 ≤ length text.old }
    ensures end { result ≡ at + length name.now }
    ensures text { take result text.new ≡ take at text.old ++ name.now }
{
    let count = name.len();
    if count < 4 {
        put_letters(text, at, name)
    } else if count < 8 {
        put_ends(text, at, name, 4)
    } else {
        put_ends(text, at, name, 8)
    }
}

/// Puts at most three bytes, one after another.
#[inline(always)]
#[tactic(auto, using(crate::proofs::Shorts::one_byte))]
fn put_letters(text: &mut [u8], at: usize, name: &[u8]) -> usize
    requires count { length name.now ≤ 3 }
    requires room { at + 16 ≤ length text.old }
    ensures end { result ≡ at + length name.now }
    ensures text { take result text.new ≡ take at text.old ++ name.now }
{
    if name.len() >= 2 {
        put_two_or_three(text, at, name)
    } else if name.len() == 1 {
        put_byte(text, at, name[0])
    } else {
        at
    }
}

#[inline(always)]
fn put_two_or_three(text: &mut [u8], at: usize, name: &[u8]) -> usize
    requires least { 2 ≤ length name.now }
    requires most { length name.now ≤ 3 }
    requires room { at + 16 ≤ length text.old }
    ensures end { result ≡ at + length name.now }
    ensures text { take result text.new ≡ take at text.old ++ name.now }
{
    let second = put_byte(text, at, name[0]);
    let third = put_byte(text, second, name[1]);
    if name.len() == 3 {
        put_byte(text, third, name[2])
    } else {
        third
    }
}

/// Puts `width` bytes from the front of some, and as many from their end, which cover them all.
#[inline(always)]
fn put_ends(text: &mut [u8], at: usize, bytes: &[u8], width: usize) -> usize
    requires width { width ≤ length bytes.now }
    requires word { width ≤ 8 }
    requires cover { length bytes.now ≤ width + width }
    requires room { at + length bytes.now ≤ length text.old }
    ensures end { result ≡ at + length bytes.now }
    ensures text { take result text.new ≡ take at text.old ++ bytes.now }
{
    let rest = bytes.len() - width;
    put_few(text, at, &bytes[..width]);
    put_few(text, at + rest, &bytes[rest..rest + width])
}

/// Puts at most 8 bytes after the first ones, and answers where the text ends. They are copied by a field of
/// their own, so that what is compiled needn't ask whether they lie in the text itself.
#[inline(always)]
#[tactic(auto, using(std::proofs::lemmas::Slice::overwrites))]
fn put_few(text: &mut [u8], at: usize, bytes: &[u8]) -> usize
    requires count { length bytes.now ≤ 8 }
    requires room { at + length bytes.now ≤ length text.old }
    ensures end { result ≡ at + length bytes.now }
    ensures text { take result text.new ≡ take at text.old ++ bytes.now }
{
    let count = bytes.len();
    let mut word = [0; 8];
    word[..count].copy_from_slice(bytes);
    put_bytes(text, at, &word[..count])
}
