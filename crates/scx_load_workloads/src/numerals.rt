//! Numbers written as digits.
ghost use Rattle.std.specs.Prelude.{◌≡◌};
ghost use Rattle.std.specs.Str.{all_ascii_digits};
ghost use Rattle.scx_load_workloads.specs.Limit.{is_numeral, numeral};

/// The number that digits say, one digit or more, if it is less than 2 ^ 32.
pub fn numeral(text: &str) -> Option<u32>
    ensures { result ≡ numeral text.now }
{
    if !is_numeral(text.as_bytes()) {
        return None;
    }
    match text.parse::<u32>() {
        Ok(number) => Some(number),
        Err(_) => None,
    }
}

/// True if the bytes are digits, one or more.
fn is_numeral(bytes: &[u8]) -> bool
    ensures { result ≡ is_numeral bytes.now }
{
    0 < bytes.len() && are_digits(bytes)
}

fn are_digits(bytes: &[u8]) -> bool
    ensures { result ≡ all_ascii_digits bytes.now }
{
    for byte in bytes {
        if !byte.is_ascii_digit() {
            return false;
        }
    }
    true
}
