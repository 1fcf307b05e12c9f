use crate::spots::{Spot, Spots};
use crate::wrong::{Why, Wrong};
use scx_asm_text::{Symbol, Token};

/// The tokens of a line that are still to be read.
#[derive(Clone, Copy)]
pub(crate) struct Scan<'t, 'a> {
    line: &'a str,
    spots: &'t [Spot<'a>],
    /// The offset at which they end.
    stop: usize,
    /// True if a byte that begins no token is there.
    is_cut: bool,
}

/// A part of a line fits, and these tokens come after it.
pub(crate) type Fits<'t, 'a> = Result<Scan<'t, 'a>, Wrong<'a>>;

impl<'t, 'a> Scan<'t, 'a> {
    /// All tokens of a line.
    pub(crate) fn of(line: &'a str, spots: &'t Spots<'a>) -> Scan<'t, 'a> {
        Scan {
            line,
            spots: spots.spots.as_slice(),
            stop: spots.stop,
            is_cut: spots.is_cut,
        }
    }

    pub(crate) fn line(self) -> &'a str {
        self.line
    }

    pub(crate) fn spots(self) -> &'t [Spot<'a>] {
        self.spots
    }

    /// The next token.
    pub(crate) fn first(self) -> Option<Token<'a>> {
        match self.spots {
            [spot, ..] => Some(spot.token),
            [] => None,
        }
    }

    /// The token after the next one.
    pub(crate) fn second(self) -> Option<Token<'a>> {
        match self.spots {
            [_, spot, ..] => Some(spot.token),
            _ => None,
        }
    }

    /// The offset of the next token, or of the end.
    pub(crate) fn at(self) -> usize {
        match self.spots {
            [spot, ..] => spot.at,
            [] => self.stop,
        }
    }

    /// The text of the next token.
    pub(crate) fn text(self) -> &'a str {
        match self.spots {
            [spot, ..] => self.line.get(spot.at..spot.end).unwrap_or(""),
            [] => "",
        }
    }

    /// The text up to the next token of a later part of the line, without the blanks before that.
    pub(crate) fn text_up_to(self, later: Scan<'t, 'a>) -> &'a str {
        match self.line.get(self.at()..later.at()) {
            Some(text) => text.trim(),
            None => "",
        }
    }

    /// The tokens after the next one.
    pub(crate) fn after(self) -> Scan<'t, 'a> {
        match self.spots {
            [_, rest @ ..] => Scan {
                spots: rest,
                ..self
            },
            [] => self,
        }
    }

    /// The next token is wrong: a byte that begins none, if no token comes before that.
    pub(crate) fn wrong(self, why: Why<'a>) -> Wrong<'a> {
        let why = if self.spots.is_empty() && self.is_cut {
            Why::Character
        } else {
            why
        };
        Wrong { at: self.at(), why }
    }

    /// The next token is wrong by those words.
    pub(crate) fn unfit(self, words: &'static str) -> Wrong<'a> {
        self.wrong(Why::Words(words))
    }

    /// True if the line ends here.
    pub(crate) fn is_at_end(self) -> bool {
        self.spots.is_empty() && !self.is_cut
    }

    /// The line ends here, or the next token is wrong by those words.
    pub(crate) fn end(self, words: &'static str) -> Result<(), Wrong<'a>> {
        if self.is_at_end() {
            Ok(())
        } else {
            Err(self.unfit(words))
        }
    }

    /// The next token is that mark, or it is wrong by those words.
    pub(crate) fn mark(self, mark: Symbol, words: &'static str) -> Fits<'t, 'a> {
        match self.first() {
            Some(Token::Mark(symbol)) if symbol.text() == mark.text() => Ok(self.after()),
            _ => Err(self.unfit(words)),
        }
    }
}
