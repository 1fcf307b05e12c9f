ghost use Rattle.std.specs.Prelude.{◌≡◌, IfOk, string_bytes};
ghost use Rattle.scx_load_files.specs.Paths.{below, element};

use itoa::Buffer;
use std::alloc::{AllocError, Global};

/// The path of a key in the table at `path`; the table of the whole file has the empty path.
pub fn key_path(alloc: Global, path: &str, key: &str) -> Result<String, AllocError>
    ensures { IfOk result (λ joined. string_bytes joined ≡ below path.now key.now) }
{
    let mut joined = String::from_str(alloc, path)?;
    if !path.is_empty() {
        joined.push_str(".")?;
    }
    joined.push_str(key)?;
    Ok(joined)
}

/// The path of the element of this number in the array at `path`.
pub fn element_path(alloc: Global, path: &str, number: usize) -> Result<String, AllocError>
    ensures { IfOk result (λ joined. string_bytes joined ≡ element path.now number) }
{
    let mut digits = Buffer::new();
    let mut joined = String::from_str(alloc, path)?;
    joined.push_str(".")?;
    joined.push_str(digits.format(number))?;
    Ok(joined)
}
