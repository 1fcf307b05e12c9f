use crate::piece_bytes::{rest_of, times_of};
use scxsim_template::{NONE, Piece};

/// The number of pieces in a line of a page.
const PIECES: usize = 3;

/// The number of letters that are written at once: those of 16 lines.
const BLOCK: usize = 1040;

/// The letters of base64, by number.
const LETTERS: [u8; 64] = *b"ABCDEFGHIJKLMNOPQRSTUVWXYZabcdefghijklmnopqrstuvwxyz0123456789+/";

/// Lines of pieces in base64: pieces that aren't a line yet, and lines that aren't written yet.
#[derive(Drop)]
pub(crate) struct Base64Lines {
    pieces: [Piece; PIECES],
    count: usize,
    letters: [u8; BLOCK],
    length: usize,
}

impl Base64Lines {
    pub(crate) fn new() -> Base64Lines {
        Base64Lines {
            pieces: [NONE; PIECES],
            count: 0,
            letters: [0; BLOCK],
            length: 0,
        }
    }

    /// Adds a piece. It can be changed until the next one comes.
    #[inline(always)]
    pub(crate) fn add(&mut self, piece: Piece) {
        if self.count >= PIECES {
            self.end_line();
        }
        if let Some(place) = self.pieces.get_mut(self.count) {
            *place = piece;
        }
        self.count = self.count.saturating_add(1);
    }

    /// The task of the last piece was parked.
    pub(crate) fn park_last(&mut self) {
        if let Some(last) = self.pieces.get_mut(self.count.saturating_sub(1)) {
            *last = last.with_park();
        }
    }

    /// True if there is no room for another line.
    #[inline(always)]
    pub(crate) fn is_full(&self) -> bool {
        self.length >= BLOCK
    }

    /// The lines that aren't written yet.
    pub(crate) fn letters(&self) -> &[u8] {
        match self.letters.get(..self.length) {
            Some(letters) => letters,
            None => &[],
        }
    }

    /// Removes all lines, if there is no room for another: they were written then.
    #[inline(always)]
    pub(crate) fn clear_if_full(&mut self) {
        if self.is_full() {
            self.length = 0;
        }
    }

    /// Makes the last line, of the remaining pieces. It is shorter if they are fewer than three.
    pub(crate) fn end(&mut self) {
        let start = self.length;
        let count = self.count;
        self.fill_line();
        self.end_line();
        self.length = start;
        match count {
            0 => {}
            1 => self.cut_line(22, "==\n"),
            2 => self.cut_line(43, "=\n"),
            _ => self.cut_line(64, "\n"),
        }
    }

    /// Puts pieces of no time in place of those that a line lacks.
    fn fill_line(&mut self) {
        if self.count < 1 {
            self.pieces[0] = NONE;
        }
        if self.count < 2 {
            self.pieces[1] = NONE;
        }
        if self.count < 3 {
            self.pieces[2] = NONE;
        }
    }

    /// Makes the last line of this many letters, and this end.
    fn cut_line(&mut self, letters: usize, end: &str) {
        self.length = self.length.saturating_add(letters);
        self.push(end.as_bytes());
    }

    /// Makes a line of three pieces.
    fn end_line(&mut self) {
        for bits in self.numbers() {
            self.push(&eight_letters(bits));
        }
        self.push(b"\n");
        self.count = 0;
    }

    /// The 48 bytes of three pieces, in the low six bytes of each number.
    fn numbers(&self) -> [u64; 8] {
        let first = self.pieces[0];
        let second = self.pieces[1];
        let third = self.pieces[2];
        let (a, b) = (times_of(first), rest_of(first));
        let (c, d) = (times_of(second), rest_of(second));
        let (e, f) = (times_of(third), rest_of(third));
        [
            a >> 16,
            (a << 32) | (b >> 32),
            (b << 16) | (c >> 48),
            c,
            d >> 16,
            (d << 32) | (e >> 32),
            (e << 16) | (f >> 48),
            f,
        ]
    }

    /// Appends letters, for which there is room.
    #[inline(always)]
    fn push(&mut self, letters: &[u8]) {
        let end = self.length.saturating_add(letters.len());
        if let Some(place) = self.letters.get_mut(self.length..end) {
            place.copy_from_slice(letters);
            self.length = end;
        }
    }
}

/// The letters of the low six bytes of a number, the highest first.
#[inline(always)]
fn eight_letters(bits: u64) -> [u8; 8] {
    [
        letter(bits >> 42),
        letter(bits >> 36),
        letter(bits >> 30),
        letter(bits >> 24),
        letter(bits >> 18),
        letter(bits >> 12),
        letter(bits >> 6),
        letter(bits),
    ]
}

/// The letter of the last six bits.
#[inline(always)]
fn letter(bits: u64) -> u8 {
    LETTERS[(bits % 64) as usize]
}
