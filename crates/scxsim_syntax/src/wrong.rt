use scxsim_output::Text;

/// The fault of a line, and its offset in bytes.
#[derive(Clone, Copy)]
pub(crate) struct Wrong<'a> {
    pub(crate) at: usize,
    pub(crate) why: Why<'a>,
}

/// A fault, and what to write instead.
#[derive(Clone, Copy)]
pub(crate) enum Why<'a> {
    /// It is said in these words.
    Words(&'static str),
    /// No token begins with the character there.
    Character,
    /// The line is of another assembly language; this form does the same.
    Mnemonic(&'static str),
    /// The helper of that name is called by its number.
    Helper(&'static str, i32),
    /// The line has two operations.
    Two(Two<'a>),
    /// No line defines the label.
    NoLabel(&'a str),
    /// The line of that number defines the label.
    Twice(usize),
}

/// An assignment of a sum or the like, in its parts.
#[derive(Clone, Copy)]
pub(crate) struct Two<'a> {
    pub(crate) to: &'a str,
    pub(crate) from: &'a str,
    pub(crate) sign: &'a str,
    pub(crate) by: &'a str,
}

impl Why<'_> {
    /// Appends it, as of that line with this fault at that offset.
    pub(crate) fn push(self, line: &str, at: usize, said: &mut Text) {
        match self {
            Why::Words(words) => said.push(words),
            Why::Character => said.push(words_of_character(line, at)),
            Why::Mnemonic(form) => {
                said.push("no such form; ");
                said.push(form);
            }
            Why::Helper(name, number) => {
                said.push("a number is wanted: ");
                said.push(name);
                said.show(" is ", &number);
            }
            Why::Two(two) => two.push(said),
            Why::NoLabel(label) => {
                said.push("no line is ");
                said.push(label);
                said.push(":");
            }
            Why::Twice(line) => said.number("the label is on line ", line as u64),
        }
    }
}

impl Two<'_> {
    fn push(self, said: &mut Text) {
        said.push("one operation a line: ");
        said.push(self.to);
        said.push(" = ");
        said.push(self.from);
        said.push(", then ");
        said.push(self.to);
        said.push(" ");
        said.push(self.sign);
        said.push("= ");
        said.push(self.by);
    }
}

/// The words on a character that begins no token.
fn words_of_character(line: &str, at: usize) -> &'static str {
    match line.as_bytes().get(at) {
        Some(b',') => "no comma is in any form: r1 = r2 moves, r1 += r2 adds",
        Some(b';') => "nothing ends a line but the line feed; # begins a comment",
        Some(b'/') => "an operation has a =, as r1 /= r2; # begins a comment",
        Some(b'%' | b'|' | b'^') => "an operation has a =, as r1 |= r2",
        Some(b'[' | b']' | b'{' | b'}') => "an address is in parentheses: *(u64 *)(r1 + 8)",
        Some(b'!' | b'~') => "r1 ^= -1 turns all bits over; != compares",
        Some(b'.' | b'_' | b'@' | b'$') => "a word begins with a letter",
        Some(b'\r') => "a carriage return is only before a line feed",
        Some(128..=255) => "only ASCII is read outside of comments",
        _ => "no token begins with this character",
    }
}
