use itoa::Buffer;
use std::alloc::{AllocError, Global};

/// The text of a picture while it is written. If memory runs out, that is kept, and the text isn't given out.
#[derive(Drop)]
pub struct Sheet {
    text: String,
    result: Result<(), AllocError>,
}

impl Sheet {
    pub fn new(alloc: Global) -> Sheet {
        Sheet {
            text: String::new(alloc),
            result: Ok(()),
        }
    }

    /// Adds words.
    pub fn put(&mut self, words: &str) {
        if let Err(error) = self.text.push_str(words) {
            self.result = Err(error);
        }
    }

    pub fn push(&mut self, letter: char) {
        if let Err(error) = self.text.push(letter) {
            self.result = Err(error);
        }
    }

    /// Adds a number in digits.
    pub fn number(&mut self, number: u64) {
        let mut digits = Buffer::new();
        self.put(digits.format(number));
    }

    /// Adds words, and a number in digits.
    pub fn put_number(&mut self, words: &str, number: u64) {
        self.put(words);
        self.number(number);
    }

    /// Adds words, and a number in digits, with its sign.
    pub fn put_signed(&mut self, words: &str, number: i64) {
        let mut digits = Buffer::new();
        self.put(words);
        self.put(digits.format(number));
    }

    /// Adds words, and a number that is given in hundredths.
    pub fn put_hundredths(&mut self, words: &str, hundredths: u64) {
        self.put_number(words, hundredths / 100);
        let rest = hundredths % 100;
        if rest == 0 {
            return;
        }
        self.put_number(".", rest / 10);
        if rest % 10 > 0 {
            self.number(rest % 10);
        }
    }

    /// Adds words, with the characters that have a meaning in SVG quoted.
    pub fn put_quoted(&mut self, words: &str) {
        for letter in words.bytes() {
            self.put_byte(letter);
        }
    }

    fn put_byte(&mut self, letter: u8) {
        match letter {
            b'&' => self.put("&amp;"),
            b'<' => self.put("&lt;"),
            b'>' => self.put("&gt;"),
            b'"' => self.put("&quot;"),
            _ => self.push(char::from(letter)),
        }
    }

    /// The text, if there was memory for all of it.
    pub fn text(self) -> Result<String, AllocError> {
        let Sheet { text, result } = self;
        match result {
            Ok(()) => Ok(text),
            Err(error) => {
                drop(text);
                Err(error)
            }
        }
    }
}
