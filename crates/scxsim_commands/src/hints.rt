use crate::refusal::Refusal;

/// The likely nature of a refused file, where a person may have meant something else, or another
/// way to help.
#[derive(Clone, Copy, Debug, PartialEq, Eq)]
pub enum Hint {
    /// An ELF object, as compilers write.
    Object,
    /// An ELF object, where a policy, a workload or a file of events is wanted.
    ObjectOfPolicy,
    /// Assembler text, where slots are wanted.
    Text,
    /// Slots, where a text is wanted.
    Slots,
    /// A text that begins with the byte-order mark of UTF-8.
    ByteOrderMark,
    /// A text of two bytes a character.
    Utf16,
    /// A part of a run of which a page would hold too much.
    LongPart,
}

impl Hint {
    /// The advice, as one line without its line feed.
    pub fn advice(self) -> &'static str {
        match self {
            Hint::Object => {
                "this is an ELF object: cut out its code with llvm-objcopy -O binary --only-section=.text OBJECT SLOTS"
            }
            Hint::ObjectOfPolicy =>
                "this is an ELF object: scxsim-build makes a policy of the C that it was compiled from",
            Hint::Text => "this is a text: scxsim asm makes slots of it",
            Hint::Slots =>
                "this is no text: scxsim exec runs slots, and scxsim dis turns them into text",
            Hint::ByteOrderMark =>
                "this text begins with a byte-order mark: save it as UTF-8 without one",
            Hint::Utf16 => "this text is UTF-16: save it as UTF-8",
            Hint::LongPart =>
                "a shorter part has fewer stretches; scxsim view draws the short ones of a whole run together",
        }
    }
}

/// A hint at a refusal that isn't the fault of a file.
pub fn hint_of_refusal(refusal: &Refusal) -> Option<Hint> {
    match refusal {
        Refusal::TooManyStretches(_) => Some(Hint::LongPart),
        _ => None,
    }
}

/// A hint at what a refused file of slots may have been meant as.
pub fn hint_of_slots(bytes: &[u8]) -> Option<Hint> {
    if bytes.starts_with(b"\x7fELF") {
        return Some(Hint::Object);
    }
    if !bytes.is_empty() && bytes.iter().all(|&byte| is_of_text(byte)) {
        return Some(Hint::Text);
    }
    None
}

/// A hint at what a refused file of text may have been meant as.
pub fn hint_of_text(bytes: &[u8]) -> Option<Hint> {
    if bytes.starts_with(b"\x7fELF") {
        return Some(Hint::Object);
    }
    if bytes.starts_with(b"\xef\xbb\xbf") {
        return Some(Hint::ByteOrderMark);
    }
    if bytes.starts_with(b"\xff\xfe") || bytes.starts_with(b"\xfe\xff") {
        return Some(Hint::Utf16);
    }
    if bytes.contains(&0) {
        return Some(Hint::Slots);
    }
    None
}

/// A hint at what a refused policy, workload or file of events may have been meant as.
pub fn hint_of_tables(bytes: &[u8]) -> Option<Hint> {
    match hint_of_text(bytes) {
        Some(Hint::Object) => Some(Hint::ObjectOfPolicy),
        hint => hint,
    }
}

/// True if a text of ASCII may have the byte.
fn is_of_text(byte: u8) -> bool {
    matches!(byte, b'\t' | b'\n' | b'\r' | b' '..=b'~')
}
