use std::fs::File;
use std::io;
use std::io::Read;
use std::rt::Files;

/// The most bytes of a file.
pub const FILE_LIMIT: usize = 1_048_576;

/// Reads a file, but no more of it than one byte past the limit, which shows it to be too large.
///
/// # Errors
///
/// Memory ran out, or the file could not be opened or read.
pub fn read_file<R: AllocGlobal + Files>(rt: &R, path: &str) -> io::Result<Vec<u8>> {
    let mut bytes = Vec::new(rt.alloc());
    File::open(rt, path)?
        .take(FILE_LIMIT as u64 + 1)
        .read_to_end(&mut bytes)?;
    Ok(bytes)
}
