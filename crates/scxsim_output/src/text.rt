use itoa::Buffer;
use std::alloc::{AllocError, Global};
use std::fmt::Display;
use std::marker::Model;

/// A text in memory. Where memory runs out it is cut off there, and ends in an error.
///
/// In a contract it is its bytes, or none where it is cut off.
#[derive(Drop)]
pub struct Text {
    words: String,
    is_cut: bool,
}

impl Model for Text {
    ghost use Rattle.std.specs.Prelude.{Option, None, Some, List, ℕ, if◌then◌else◌, string_bytes};

    ghost Value = { Option (List ℕ) };

    ghost view = { λ t. if t.is_cut then None else Some (string_bytes t.words) };
}

impl Text {
    ghost use Rattle.std.specs.Prelude.{◌≡◌, ◌++◌, [], None, Some, IfSome, MatchOption, IsTrue, ◌↔◌, OnErr, IfOk, decimal, string_bytes, encode_utf8, replicate, length, ◌-◌};
    ghost use Rattle.scxsim_output.specs.Texts.{Puts, Shows};

    /// An empty text.
    pub fn new(alloc: Global) -> Text
        ensures { result ≡ Some [] }
    {
        Text {
            words: String::new(alloc),
            is_cut: false,
        }
    }

    /// An empty text with room for that many bytes.
    ///
    /// # Errors
    ///
    /// Memory ran out.
    pub fn with_room(alloc: Global, bytes: usize) -> Result<Text, AllocError>
        ensures { IfOk result (λ text. text ≡ Some []) }
    {
        Ok(Text {
            words: String::with_capacity(alloc, bytes)?,
            is_cut: false,
        })
    }

    /// Appends words.
    pub fn push(&mut self, words: &str)
        ensures { Puts self.old words.now self.new }
    {
        if !self.is_cut && self.words.push_str(words).is_err() {
            self.cut();
        }
    }

    /// Appends words and a number.
    #[tactic(auto, using(crate::proofs::Pieces::puts_both))]
    pub fn number(&mut self, words: &str, number: u64)
        ensures { Puts self.old (words.now ++ decimal number) self.new }
    {
        let mut digits = Buffer::new();
        self.push(words);
        self.push(digits.format(number));
    }

    /// Appends words and a value.
    pub fn show<T: Display>(&mut self, words: &str, value: &T)
        ensures { Shows self.old words.now (T.output value.now) self.new }
    {
        self.push(words);
        if !self.is_cut && write!(self.words, "{value}").is_err() {
            self.cut();
        }
    }

    /// Appends a number, with spaces before it up to `width` characters.
    #[tactic(auto, using(crate::proofs::Pieces::puts_both))]
    pub fn number_right(&mut self, number: u64, width: usize)
        ensures { Puts self.old (replicate (width - length (decimal number)) 32 ++ decimal number)
            self.new }
    {
        let mut digits = Buffer::new();
        let digits = digits.format(number);
        self.spaces(width.saturating_sub(digits.len()));
        self.push(digits);
    }

    /// Appends a number, with spaces after it up to `width` characters.
    #[tactic(auto, using(crate::proofs::Pieces::puts_both))]
    pub fn number_left(&mut self, number: u64, width: usize)
        ensures { Puts self.old (decimal number ++ replicate (width - length (decimal number)) 32)
            self.new }
    {
        let mut digits = Buffer::new();
        self.left(digits.format(number), width);
    }

    /// Appends words, with spaces after them up to `width` bytes.
    #[tactic(auto, using(crate::proofs::Pieces::puts_both))]
    pub fn left(&mut self, words: &str, width: usize)
        ensures { Puts self.old (words.now ++ replicate (width - length words.now) 32) self.new }
    {
        self.push(words);
        self.spaces(width.saturating_sub(words.len()));
    }

    /// Appends words, with spaces before them up to `width` bytes.
    #[tactic(auto, using(crate::proofs::Pieces::puts_both))]
    pub fn right(&mut self, words: &str, width: usize)
        ensures { Puts self.old (replicate (width - length words.now) 32 ++ words.now) self.new }
    {
        self.spaces(width.saturating_sub(words.len()));
        self.push(words);
    }

    /// Appends a character.
    pub fn character(&mut self, character: char)
        ensures { Puts self.old (encode_utf8 character) self.new }
    {
        if !self.is_cut && self.words.push(character).is_err() {
            self.cut();
        }
    }

    /// Appends `count` spaces.
    #[tactic(auto, using(crate::proofs::Pieces::puts_nothing, crate::proofs::Pieces::puts_space))]
    pub fn spaces(&mut self, count: usize)
        ensures { Puts self.old (replicate count 32) self.new }
    {
        let mut done = 0;
        while done < count {
            self.push(" ");
            done += 1;
        }
    }

    /// Appends another text. Where that one is cut off, this one is too.
    pub fn append(&mut self, text: &Text)
        ensures { MatchOption text.now (self.new ≡ None) (λ words. Puts self.old words self.new) }
    {
        if text.is_cut {
            self.cut();
        } else {
            self.push(text.as_str());
        }
    }

    /// Appends a text that was made apart, if there was memory for that.
    pub fn join(&mut self, text: Result<String, AllocError>)
        ensures ok { IfOk text (λ words. Puts self.old (string_bytes words) self.new) }
        ensures err { OnErr text (self.new ≡ None) }
    {
        match text {
            Ok(words) => self.push(words.as_str()),
            Err(_) => self.cut(),
        }
    }

    /// There was no memory for what comes next.
    pub fn cut(&mut self)
        ensures { self.new ≡ None }
    {
        self.is_cut = true;
    }

    /// The text that it has, up to where it is cut off.
    pub fn as_str(&self) -> &str
        ensures { IfSome self.now (λ text. result.now ≡ text) }
    {
        self.words.as_str()
    }

    /// Takes all words off, and keeps their memory.
    pub fn clear(&mut self)
        ensures { MatchOption self.old (self.new ≡ None) (λ _. self.new ≡ Some []) }
    {
        self.words.clear();
    }

    /// The number of its bytes.
    pub fn len(&self) -> usize
        ensures { IfSome self.now (λ text. result ≡ length text) }
    {
        self.words.len()
    }

    /// True if it has no words. One that is cut off counts as having some.
    pub fn is_empty(&self) -> bool
        ensures { IsTrue result ↔ (self.now ≡ Some []) }
    {
        !self.is_cut && self.words.is_empty()
    }

    /// True if memory ran out.
    pub fn is_cut(&self) -> bool
        ensures { IsTrue result ↔ (self.now ≡ None) }
    {
        self.is_cut
    }

    /// All of it.
    ///
    /// # Errors
    ///
    /// Memory ran out for one of its pieces.
    pub fn finish(self) -> Result<String, AllocError>
        ensures ok { IfOk result (λ text. self ≡ Some (string_bytes text)) }
        ensures err { OnErr result (self ≡ None) }
    {
        if self.is_cut {
            drop(self);
            return Err(AllocError);
        }
        Ok(self.words)
    }
}
