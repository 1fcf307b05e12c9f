ghost use Rattle.std.specs.Prelude.{◌≡◌};
ghost use Rattle.scx_load_files.specs.Names.{is_letter, is_name_byte, is_name, are_name_bytes};

/// The most characters of a name.
pub const MAX_NAME: usize = 16;

/// True for a name of a policy, a group or a task: 1 to 16 characters of `a` to `z`, `0` to `9` and `_`,
/// with a letter first.
pub fn is_name(text: &str) -> bool
    ensures { result ≡ is_name text.now }
{
    let bytes = text.as_bytes();
    if bytes.len() > MAX_NAME {
        return false;
    }
    match bytes.first() {
        Some(first) => is_letter(*first) && are_name_bytes(bytes),
        None => false,
    }
}

fn is_letter(byte: u8) -> bool
    ensures { result ≡ is_letter byte }
{
    b'a' <= byte && byte <= b'z'
}

fn is_name_byte(byte: u8) -> bool
    ensures { result ≡ is_name_byte byte }
{
    is_letter(byte) || (b'0' <= byte && byte <= b'9') || byte == b'_'
}

fn are_name_bytes(bytes: &[u8]) -> bool
    ensures { result ≡ are_name_bytes bytes.now }
{
    for byte in bytes {
        if !is_name_byte(*byte) {
            return false;
        }
    }
    true
}
